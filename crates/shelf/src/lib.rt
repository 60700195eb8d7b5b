// The shelf: the certified blocks of one seat, over cells that the caller lends.
#![tactic(auto)]

ghost use Rattle.std.specs.Prelude.{◌≡◌, ◌<◌, not, List, [], ◌∷◌, ◌++◌, length, take, if◌then◌else◌, Ok, Err};
ghost use Rattle.std.specs.Option.{option_map};
ghost use Rattle.content.specs.declared.refusal.Refusal.TheVariants.{Full, OutOfLimits};
ghost use Rattle.shelf.specs.Ancestry.{Grown, MayFollow, ReadsStay, ReadsAncestor};
ghost use Rattle.shelf.specs.Blocks.{held, size, find, top_turn, read_below};
ghost use Rattle.shelf.specs.Cells.{empty_over, has_room, with_block, can_take, with_filled, behind_some, SameCells};

mod search;

use crate::search::{block_below, first_of_rank, top_turn_of};
use blocks::block::{Block, Rank};
use content::refusal::Refusal;

// A shelf over the caller's cells: the first `len` of them are its blocks, in the order in which they were stored.
// It is a slice with a count beside it, since a seat takes no heap and works in cells that the caller lends.
#[derive(Drop)]
pub struct Shelf<'a, R> {
    cells: &'a mut [Block<R>],
    len: usize,
}

impl<'a, R: Copy> Shelf<'a, R> {
    // An empty shelf over any cells.
    pub fn new(cells: &'a mut [Block<R>]) -> Shelf<'a, R>
        ensures shelf { result ≡ empty_over cells.entry }
        ensures blocks { held result ≡ [] }
    {
        Shelf { cells, len: 0 }
    }

    // How many blocks the shelf has room for.
    pub fn size(&self) -> usize
        ensures { result ≡ size self.now }
    {
        self.cells.len()
    }

    // The blocks, in the order in which they were stored.
    pub fn blocks(&self) -> &[Block<R>]
        ensures { result.now ≡ held self.now }
    {
        // the count never passes the cells; an invariant that says so would keep a shelf from lending them
        self.cells.get(..self.len).unwrap_or(self.cells)
    }

    // How many blocks the shelf holds.
    pub fn len(&self) -> usize
        ensures { result ≡ length (held self.now) }
    {
        self.blocks().len()
    }

    // Whether no cell is free.
    pub fn is_full(&self) -> bool
        ensures { result ≡ not (has_room self.now) }
    {
        self.len() >= self.size()
    }

    // Takes the first k cells as filled, whatever they hold: refused unless the shelf is empty and has k cells.
    pub fn take_filled(&mut self, k: usize) -> Result<(), Refusal>
        ensures answer { result ≡ (if can_take self.old k then Ok tt else Err OutOfLimits) }
        ensures shelf { self.new ≡ (if can_take self.old k then with_filled self.old k else self.old) }
        ensures blocks { held self.new ≡ (if can_take self.old k then take k self.old.cells.now else held self.old) }
    {
        if self.len() == 0 && k <= self.size() {
            self.len = k;
            Ok(())
        } else {
            Err(Refusal::OutOfLimits)
        }
    }

    // Stores a block in the next cell: refused where none is free.
    pub fn store(&mut self, block: Block<R>) -> Result<(), Refusal>
        ensures answer { result ≡ (if has_room self.old then Ok tt else Err Full) }
        ensures shelf { self.new ≡ (if has_room self.old then with_block self.old block else self.old) }
        ensures blocks { held self.new ≡ (if has_room self.old then held self.old ++ block ∷ [] else held self.old) }
        ensures size { size self.new ≡ size self.old }
        ensures place { SameCells self.new self.old }
        ensures grows { Grown (held self.old) → MayFollow (held self.old) block → Grown (held self.new) }
        ensures stays { ReadsStay (held self.old) (held self.new) }
    {
        if self.len >= self.size() {
            return Err(Refusal::Full);
        }
        self.put(block);
        Ok(())
    }

    // Puts a block into the next cell, which is free.
    fn put(&mut self, block: Block<R>)
        requires { self.old.len < size self.old }
        ensures { self.new ≡ with_block self.old block }
    {
        // by index: what is written through get_mut's reference is not known of the cells afterwards
        self.cells[self.len] = block;
        self.len += 1;
    }

    // The block that stands for a rank: the first one stored with it.
    pub fn find(&self, rank: Rank) -> Option<&Block<R>>
        ensures { option_map (λ x. x.now) result ≡ find rank (held self.now) }
    {
        first_of_rank(self.blocks(), rank)
    }

    // The highest turn of a view, if any block is of that view.
    pub fn top_turn(&self, view: u16) -> Option<u16>
        ensures { result ≡ top_turn view (held self.now) }
    {
        top_turn_of(self.blocks(), view)
    }

    // Reads a height below a place: the block of that height which is the place's own or an ancestor of it. Nothing
    // at the root, at a rank that is not here, at height 0 and above the place's own. A parent on the way that is
    // missing, or is not exactly one height lower, is refused: never on a shelf that only grew by lawful blocks.
    pub fn read_below(&self, place: Option<Rank>, height: u32) -> Result<Option<&Block<R>>, Refusal>
        ensures answer { behind_some result ≡ read_below (held self.now) place height }
        ensures ancestor { ReadsAncestor (held self.now) place height (behind_some result) }
    {
        block_below(self.blocks(), place, height)
    }
}
