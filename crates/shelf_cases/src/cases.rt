// Shelves that grew, and shelves filled with cells that no seat would store.
use blocks::block::{Block, Rank};
use content::edit::Edit;
use content::kind::Content;
use content::mark::ChapterMark;
use content::refusal::Refusal;
use shelf::Shelf;
use std::process::Abort;
use std::test::Fail;

fn rank(view: u16, turn: u16) -> Rank {
    Rank { view, turn }
}

fn block<R>(rank: Rank, height: u32, parent: Rank, content: R) -> Block<R> {
    Block {
        rank,
        height,
        parent,
        content,
    }
}

// Reading a height below a rank gives a block of this rank, nothing, or this refusal.
fn reads<R: Copy>(
    rt: &impl Abort,
    shelf: &Shelf<'_, R>,
    below: Rank,
    height: u32,
    wanted: Result<Option<Rank>, Refusal>,
) {
    let got = shelf
        .read_below(Some(below), height)
        .map(|found| found.map(|block| block.rank));
    assert_eq!(rt; got, wanted);
}

// A shelf of three cells takes three blocks, keeps the first of a rank, and reads what it stored.
fn grows<const L: usize, C: Content<L>>(
    rt: &impl Abort,
    cells: &mut [Block<C::Record>],
    one: C::Record,
    two: C::Record,
) -> Result<(), Fail> {
    let mut shelf = Shelf::new(cells);
    assert_eq!(rt; shelf.size(), 3);
    assert!(rt; shelf.find(rank(8, 8)).is_none());
    assert_eq!(rt; shelf.top_turn(8), None);
    shelf.store(block(rank(0, 0), 1, rank(0, 0), one))?;
    shelf.store(block(rank(0, 1), 2, rank(0, 0), one))?;
    assert!(rt; !shelf.is_full());
    shelf.store(block(rank(0, 1), 2, rank(0, 0), two))?;
    assert!(rt; shelf.is_full());
    assert_eq!(rt;
        shelf.store(block(rank(0, 2), 3, rank(0, 1), two)).err(),
        Some(Refusal::Full)
    );
    assert_eq!(rt; shelf.len(), 3);
    assert_eq!(rt; shelf.top_turn(0), Some(1));
    reads(rt, &shelf, rank(0, 1), 1, Ok(Some(rank(0, 0))));
    let found = shelf.find(rank(0, 1)).ok_or("lost")?;
    assert!(rt; C::same(&found.content, &one) && !C::same(&found.content, &two));
    Ok(())
}

#[test]
fn edits_are_stored_and_read(rt: HostRuntime) -> Result<(), Fail> {
    let one = Edit::Undo.record()?;
    let two = Edit::Trim(1.5, 86_400.0).record()?;
    let mut cells = [block(rank(8, 8), 8, rank(8, 7), one); 3];
    grows::<{ Edit::LEN }, Edit>(&rt, &mut cells, one, two)
}

#[test]
fn chapter_marks_are_stored_and_read(rt: HostRuntime) -> Result<(), Fail> {
    let one = ChapterMark::new(0, b"Opening")?;
    let two = ChapterMark::new(3_600, b"News")?;
    let mut cells = [block(rank(8, 8), 8, rank(8, 7), one); 3];
    grows::<{ ChapterMark::LEN }, ChapterMark>(&rt, &mut cells, one, two)
}

// Two cells of one rank, a gap of heights, a missing parent and a ring of parents.
fn nonsense<R: Copy>(content: R) -> [Block<R>; 8] {
    [
        block(rank(0, 0), 1, rank(0, 0), content),
        block(rank(0, 1), 2, rank(0, 0), content),
        block(rank(0, 1), 9, rank(4, 4), content),
        block(rank(1, 0), 3, rank(0, 1), content),
        block(rank(2, 0), 5, rank(1, 0), content),
        block(rank(3, 0), 4, rank(9, 9), content),
        block(rank(4, 0), 7, rank(4, 1), content),
        block(rank(4, 1), 6, rank(4, 0), content),
    ]
}

const BROKEN: Result<Option<Rank>, Refusal> = Err(Refusal::BrokenShelf);

// Every read of a shelf filled with nonsense ends, and is refused only where the walk meets it.
fn reads_nonsense<R: Copy>(rt: &impl Abort, cells: &mut [Block<R>]) -> Result<(), Fail> {
    let mut shelf = Shelf::new(cells);
    assert_eq!(rt; shelf.take_filled(9).err(), Some(Refusal::OutOfLimits));
    assert_eq!(rt; shelf.len(), 0);
    shelf.take_filled(8)?;
    assert_eq!(rt; shelf.take_filled(8).err(), Some(Refusal::OutOfLimits));
    assert_eq!(rt; shelf.len(), 8);
    assert!(rt; shelf.read_below(None, 1)?.is_none());
    reads(rt, &shelf, rank(5, 0), 1, Ok(None));
    reads(rt, &shelf, rank(1, 0), 0, Ok(None));
    reads(rt, &shelf, rank(1, 0), 1, Ok(Some(rank(0, 0))));
    reads(rt, &shelf, rank(1, 0), 2, Ok(Some(rank(0, 1))));
    reads(rt, &shelf, rank(1, 0), 3, Ok(Some(rank(1, 0))));
    reads(rt, &shelf, rank(1, 0), 4, Ok(None));
    reads(rt, &shelf, rank(0, 1), 9, Ok(None));
    reads(rt, &shelf, rank(2, 0), 5, Ok(Some(rank(2, 0))));
    reads(rt, &shelf, rank(2, 0), 3, BROKEN);
    reads(rt, &shelf, rank(3, 0), 3, BROKEN);
    reads(rt, &shelf, rank(4, 0), 6, Ok(Some(rank(4, 1))));
    reads(rt, &shelf, rank(4, 0), 1, BROKEN);
    assert_eq!(rt; shelf.top_turn(4), Some(1));
    Ok(())
}

#[test]
fn nonsense_is_read_to_its_end(rt: HostRuntime) -> Result<(), Fail> {
    reads_nonsense(&rt, &mut nonsense(Edit::Save.record()?))?;
    reads_nonsense(&rt, &mut nonsense(ChapterMark::new(0, b"Opening")?))
}
