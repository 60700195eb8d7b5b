// Making the desks of a world, and looking at them.
ghost use Rattle.std.specs.Prelude.{◌≡◌, length, replicate, IfOk, None};
ghost use Rattle.world.specs.Desks.{blocks_of};

use crate::desk::Desk;
use blocks::block::Block;
use content::kind::Content;
use seat::seat::Seat;
use std::alloc::{AllocError, Global};

// So many cells for a shelf. What free cells hold does not matter: `blank` fills them.
pub fn blank_cells<R: Copy>(
    heap: Global,
    count: usize,
    blank: Block<R>,
) -> Result<Vec<Block<R>>, AllocError>
    ensures { IfOk result (λ v. length v.items ≡ count) }
{
    // resize copies the blank; vec! would clone it, and a clone that its type writes by hand may fail
    let mut cells = Vec::new(heap);
    cells.resize(count, blank)?;
    Ok(cells)
}

impl<const L: usize, const S: usize, C: Content<L>> Desk<L, S, C> {
    // A desk for this seat, with an empty shelf over these cells.
    pub fn new(seat: Seat<L, S, C>, cells: Vec<Block<C::Record>>) -> Desk<L, S, C>
        ensures seat { result.seat ≡ seat }
        ensures cells { result.cells ≡ cells }
        ensures shelf { result.filled ≡ 0 }
        ensures slip { result.slip ≡ None }
    {
        Desk {
            cells,
            filled: 0,
            slip: None,
            seat,
        }
    }

    // The seat.
    pub fn seat(&self) -> &Seat<L, S, C>
        ensures { result.now ≡ self.now.seat }
    {
        &self.seat
    }

    // The blocks on its shelf, in the order in which they were stored.
    pub fn blocks(&self) -> &[Block<C::Record>]
        ensures { result.now ≡ blocks_of self.now }
    {
        self.cells.get(..self.filled).unwrap_or(&self.cells)
    }
}
