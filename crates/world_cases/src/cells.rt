// Blank cells of a record whose clone fails: they are copies of the blank, and it is never cloned.
use blocks::block::{Block, Rank};
use std::alloc::AllocError;
use std::test::Fail;
use world::making::blank_cells;

struct Unclonable(u8);

impl Copy for Unclonable {}

impl Clone for Unclonable {
    fn clone(&self) -> Result<Unclonable, AllocError> {
        Err(AllocError)
    }
}

#[test]
fn blank_cells_are_copied_and_never_cloned(rt: HostRuntime) -> Result<(), Fail> {
    let root = Rank { view: 0, turn: 0 };
    let blank = Block {
        rank: root,
        height: 0,
        parent: root,
        content: Unclonable(7),
    };
    let cells = blank_cells(rt.alloc(), 4, blank)?;
    assert_eq!(rt; cells.len(), 4);
    for cell in &cells {
        assert_eq!(rt; cell.content.0, 7);
    }
    Ok(())
}
