// The seat.
ghost use Rattle.std.specs.Prelude.{◌≤◌};

use content::kind::Content;
use state::state::{State, Terms};

// One seat of a log whose contents are C and whose seals have S bytes. That a call leaves the terms is no fact of one seat
// but of the one before and the one after, so each call says it.
#[derive(Drop)]
pub struct Seat<const L: usize, const S: usize, C: Content<L>> {
    pub(crate) terms: Terms,
    pub(crate) state: State<S, C::Record>,
    ghost short: { S ≤ 64 },
}
