// Calls of a seat on cells of which the first so many are its blocks. They are no part of the calls at a desk: in a function
// that lends a desk's cells, nothing is known of the cells after a shelf over them is let go.
ghost use Rattle.std.specs.Prelude.{◌≡◌, ◌≤◌, length, take, if◌then◌else◌};
ghost use Rattle.shelf.specs.Cells.{can_take, empty_over, with_filled};
ghost use Rattle.state.specs.Calls.{hand_in, tick};
ghost use Rattle.seat.specs.Called.{Called};

use blocks::block::Block;
use content::kind::Content;
use content::refusal::Refusal;
use rota::leaders::Rota;
use seals::check::SealCheck;
use seat::seat::Seat;
use seat::slip::Slip;
use shelf::Shelf;
use state::answer::Answer;

// A shelf over these cells, of which the first so many are its blocks; none are, where there are not that many.
fn shelf_over<R: Copy>(cells: &mut [Block<R>], filled: usize) -> Shelf<'_, R>
    ensures { result ≡ (if can_take (empty_over cells.entry) filled then with_filled (empty_over cells.entry) filled else empty_over cells.entry) }
{
    let mut shelf = Shelf::new(cells);
    let _ = shelf.take_filled(filled);
    shelf
}

// Hands a message in; answers also how many of the cells are blocks then.
pub fn hand_in<const L: usize, const S: usize, C: Content<L>, Q: Rota, K: SealCheck<S>>(
    seat: &mut Seat<L, S, C>,
    cells: &mut [Block<C::Record>],
    filled: usize,
    rota: &Q,
    check: &mut K,
    inbox: &[u8],
    outbox: &mut [u8],
) -> (Result<(Answer, Slip), Refusal>, usize)
    ensures call { filled ≤ length cells.old → Called C.Content.kind (hand_in C.Content.kind seat.old.terms (Q.Rota.leads rota.now) (K.SealCheck.accepts check.old) seat.old.state (take filled cells.old) (length cells.old) inbox.now (length outbox.old)) seat.old.state (take filled cells.old) outbox.old result.0 seat.new.state (take result.1 cells.new) outbox.new }
    ensures filled { result.1 ≤ length cells.new }
    ensures terms { seat.new.terms ≡ seat.old.terms }
    ensures check { K.SealCheck.accepts check.new ≡ K.SealCheck.accepts check.old }
{
    let mut shelf = shelf_over(cells, filled);
    let outcome = seat.hand_in(&mut shelf, rota, check, inbox, outbox);
    (outcome, shelf.len())
}

// One tick; the cells stay as they are.
pub fn tick<const L: usize, const S: usize, C: Content<L>>(
    seat: &mut Seat<L, S, C>,
    cells: &mut [Block<C::Record>],
    filled: usize,
    outbox: &mut [u8],
) -> Result<(Answer, Slip), Refusal>
    ensures call { filled ≤ length cells.old → Called C.Content.kind (tick seat.old.terms seat.old.state (take filled cells.old) (length outbox.old)) seat.old.state (take filled cells.old) outbox.old result seat.new.state (take filled cells.new) outbox.new }
    ensures cells { cells.new ≡ cells.old }
    ensures terms { seat.new.terms ≡ seat.old.terms }
{
    seat.tick(&shelf_over(cells, filled), outbox)
}
