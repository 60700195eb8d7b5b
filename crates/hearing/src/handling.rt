// A message that was read and whose seals were checked, handed to the seat.
ghost use Rattle.wire.specs.Meaning.{plain};
ghost use Rattle.wire.specs.Lawful.{LawfulParts};
ghost use Rattle.shelf.specs.Blocks.{held, size};
ghost use Rattle.state.specs.HandIn.{hand_parts, notice};
ghost use Rattle.state.specs.Steps.{Steps};

use crate::certified::certificate;
use crate::counting::{blame, vote};
use crate::proposing::proposal;
use content::kind::Content;
use content::refusal::Refusal;
use shelf::Shelf;
use state::answer::{Answer, Item, Word};
use state::call::Call;
use state::seal::SeatSeal;
use state::state::{LAST_VIEW, State};
use wire::message::Parts;

// A notice ends the seat's own view while it is on, or leads it out of a higher one.
fn notice<const L: usize, const S: usize, C: Content<L>>(
    call: &mut Call<'_, S>,
    state: &mut State<S, C::Record>,
    shelf: &Shelf<'_, C::Record>,
    view: u16,
) -> Result<Answer, Refusal>
    ensures { Steps C.Content.kind (notice state.old (held shelf.now) view) call.old state.old shelf.now result call.new state.new shelf.now }
{
    if view == LAST_VIEW {
        return Err(Refusal::LastView);
    }
    if !state.leaves_by(view) {
        return Ok(Answer::of(Word::Idle));
    }
    state.leave(view);
    Ok(Answer {
        message: Some(Item::Inbox),
        ..Answer::of(Word::Left)
    })
}

// A message whose layout is lawful and whose seals are good: what each kind does to the seat.
pub fn hand_parts<const L: usize, const S: usize, C: Content<L>>(
    call: &mut Call<'_, S>,
    state: &mut State<S, C::Record>,
    shelf: &mut Shelf<'_, C::Record>,
    parts: &Parts<C::Record, &[u8]>,
) -> Result<Answer, Refusal>
    requires { LawfulParts C.Content.kind S call.old.terms.now.seats.n (plain parts.now) }
    ensures { Steps C.Content.kind (hand_parts C.Content.kind call.old.terms.now state.old (held shelf.old) (size shelf.old) (plain parts.now)) call.old state.old shelf.old result call.new state.new shelf.new }
{
    match parts {
        Parts::Proposal { block, parent, .. } => {
            proposal::<L, S, C>(call, state, shelf, block, parent)
        }
        Parts::Vote { seat, block, seal } => {
            let seal = SeatSeal {
                seat: *seat,
                bytes: seal,
            };
            vote::<L, S, C>(call, state, shelf, block, &seal)
        }
        Parts::Blame { seat, view, seal } => {
            let seal = SeatSeal {
                seat: *seat,
                bytes: seal,
            };
            blame::<L, S, C>(call, state, shelf, *view, &seal)
        }
        Parts::Certified(c) => certificate::<L, S, C>(call, state, shelf, c),
        Parts::Notice { view, .. } => notice::<L, S, C>(call, state, shelf, *view),
    }
}
