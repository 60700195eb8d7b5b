// A shelf of two cells: blocks stored, read below a rank, and refused once it is full.
use crate::tell::tell;
use blocks::block::{Block, Rank};
use content::edit::{Edit, EditRecord};
use content::refusal::Refusal;
use shelf::Shelf;
use std::io;

pub fn two_cells(rt: &impl Print) -> io::Result<()> {
    println!(rt; "A shelf has room for two blocks.")?;
    tell(rt, "An edit", entries(), |blocks| filled(rt, &blocks))
}

// Three blocks of view 0, each on the one before: a trim, a gain and a save.
fn entries() -> Result<[Block<EditRecord>; 3], Refusal> {
    Ok([
        block(0, 1, Edit::Trim(12.5, 1830.0).record()?),
        block(1, 2, Edit::Gain(60.0, 3.0).record()?),
        block(2, 3, Edit::Save.record()?),
    ])
}

// A block of view 0. The parent is of the turn before; that of the first is the root, and is written as zeros.
fn block(turn: u16, height: u32, content: EditRecord) -> Block<EditRecord> {
    Block {
        rank: Rank { view: 0, turn },
        height,
        parent: Rank {
            view: 0,
            turn: turn.saturating_sub(1),
        },
        content,
    }
}

fn filled(rt: &impl Print, blocks: &[Block<EditRecord>; 3]) -> io::Result<()> {
    let [trim, gain, save] = *blocks;
    let mut cells = [trim; 2];
    let mut shelf = Shelf::new(&mut cells);
    stored(rt, &mut shelf, "Ana's trim, at turn 0 and height 1,", trim)?;
    stored(rt, &mut shelf, "Ben's gain, at turn 1 and height 2,", gain)?;
    for height in 1..=3 {
        read(rt, &shelf, height)?;
    }
    stored(rt, &mut shelf, "A save, at turn 2 and height 3,", save)
}

fn stored(
    rt: &impl Print,
    shelf: &mut Shelf<EditRecord>,
    what: &str,
    block: Block<EditRecord>,
) -> io::Result<()> {
    let outcome = shelf.store(block);
    tell(rt, what, outcome, |()| {
        println!(rt; "{what} is stored: {} of {}.", shelf.len(), shelf.size())
    })
}

// Reads a height below the block of turn 1.
fn read(rt: &impl Print, shelf: &Shelf<EditRecord>, height: u32) -> io::Result<()> {
    let found = shelf.read_below(Some(Rank { view: 0, turn: 1 }), height);
    tell(rt, "The reading", found, |block| match block {
        Some(block) => println!(rt;
            "Height {height} below turn 1 is the block of turn {}: {}.",
            block.rank.turn,
            named(&block.content)
        ),
        None => println!(rt; "Height {height} below turn 1 is nothing."),
    })
}

fn named(record: &EditRecord) -> &'static str {
    match record.edit() {
        Ok(Edit::Trim(..)) => "a trim",
        Ok(Edit::Gain(..)) => "a gain",
        Ok(Edit::Undo) => "an undo",
        Ok(Edit::Save) => "a save",
        Err(_) => "no edit",
    }
}
