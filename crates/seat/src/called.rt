// The calls.
ghost use Rattle.std.specs.Prelude.{◌≡◌, true, List, length};
ghost use Rattle.rota.specs.Limits.{MadeWithin};
ghost use Rattle.blocks.specs.declared.block.Block.{Block as BlockOf};
ghost use Rattle.shelf.specs.Blocks.{held, size};
ghost use Rattle.shelf.specs.Cells.{SameCells};
ghost use Rattle.state.specs.Calls.{hand_in, offer, sent_step, tick};
ghost use Rattle.state.specs.Parts.{with_slip};
ghost use Rattle.seat.specs.Called.{Called, ready};
ghost use Rattle.seat.specs.Made.{Fresh, terms_lawful};

use crate::seat::Seat;
use crate::slip::Slip;
use acting::offering::offer_step;
use acting::ticking::tick_step;
use blocks::rows::SealRow;
use blocks::seats::SeatCount;
use content::kind::Content;
use content::refusal::Refusal;
use hearing::handling::hand_parts;
use rota::leaders::{Rota, seats_in_limits};
use seals::check::SealCheck;
use shelf::Shelf;
use state::answer::Answer;
use state::call::Call;
use state::state::{Phase, Round, State, Terms};
use wire::asking::open;

// The least room that a call wants to write into.
pub const OUTBOX: usize = wire::writer::OUTBOX;

// The clock stops here.
pub const LAST_TICK: u32 = 1_000_000_000;

// The greatest delta and the greatest patience of a seat, in ticks.
pub const MOST_DELTA: u16 = 1_000;

pub const MOST_PATIENCE: u16 = 60_000;

// Whether a seat can be made from this.
fn terms_in_limits(n: u8, own: u8, delta: u16, patience: u16) -> bool
    ensures { result ≡ terms_lawful n own delta patience }
{
    seats_in_limits(n)
        && (own < n)
        && (1..=MOST_DELTA).contains(&delta)
        && (1..=MOST_PATIENCE).contains(&patience)
}

impl<const L: usize, const S: usize, C: Content<L>> Seat<L, S, C> {
    // Makes the seat `own` of a log of n seats, for seals of the check K.
    pub fn new<K: SealCheck<S>>(
        n: u8,
        own: u8,
        delta: u16,
        patience: u16,
    ) -> Result<Seat<L, S, C>, Refusal>
        ensures { MadeWithin (terms_lawful n own delta patience) (λ s. Fresh n own delta patience s.terms s.state) result }
    {
        if !terms_in_limits(n, own, delta, patience) {
            return Err(Refusal::OutOfLimits);
        }
        let seats = SeatCount::new(n)?;
        Ok(Seat {
            terms: Terms {
                seats,
                own,
                delta,
                patience,
            },
            // in full: State::new and Round::new ask that the size of what they make be known, and nothing here tells it;
            // the rows too, since SealRow::empty makes each aside and copies it, which took most of an offer's time
            state: State {
                now: 0,
                phase: Phase::On,
                view: 0,
                turn: 0,
                lock: None,
                best: None,
                round: Round {
                    note: None,
                    votes: SealRow {
                        by_seat: [None; 15],
                    },
                    offered: false,
                },
                spoiled: false,
                blamed: false,
                blames: SealRow {
                    by_seat: [None; 15],
                },
                progress: 0,
                committed: None,
                entered: 0,
                slip: false,
            },
        })
    }

    // What the seat was made from.
    pub fn terms(&self) -> &Terms
        ensures { result.now ≡ self.now.terms }
    {
        &self.terms
    }

    // What it keeps.
    pub fn state(&self) -> &State<S, C::Record>
        ensures { result.now ≡ self.now.state }
    {
        &self.state
    }

    // What every call but sent asks first: no slip out, an outbox of enough bytes.
    fn ready(&self, room: usize) -> Result<(), Refusal>
        ensures { result ≡ ready self.now.state room }
    {
        if self.state.slip {
            return Err(Refusal::SlipOut);
        }
        if room < OUTBOX {
            return Err(Refusal::SmallOutbox);
        }
        Ok(())
    }

    // What a call that was carried out answers: a slip is out.
    fn dispatched(&mut self, answer: Answer) -> (Answer, Slip)
        ensures answer { result.0 ≡ answer }
        ensures state { self.new.state ≡ with_slip true self.old.state }
        ensures terms { self.new.terms ≡ self.old.terms }
    {
        self.state.slip = true;
        (answer, Slip::give())
    }

    // Takes the slip back: what was answered is sent, and the seat may be called again.
    pub fn sent(&mut self, slip: Slip)
        ensures state { self.new.state ≡ sent_step self.old.state }
        ensures terms { self.new.terms ≡ self.old.terms }
    {
        slip.spend();
        self.state.slip = false;
    }

    // One tick of the clock.
    pub fn tick(
        &mut self,
        shelf: &Shelf<'_, C::Record>,
        outbox: &mut [u8],
    ) -> Result<(Answer, Slip), Refusal>
        ensures call { Called C.Content.kind (tick self.old.terms self.old.state (held shelf.now) (length outbox.old)) self.old.state (held shelf.now) outbox.old result self.new.state (held shelf.now) outbox.new }
        ensures terms { self.new.terms ≡ self.old.terms }
    {
        self.ready(outbox.len())?;
        if self.state.now >= LAST_TICK {
            return Err(Refusal::LastTick);
        }
        let mut call = Call {
            terms: &self.terms,
            outbox,
        };
        let answer = tick_step::<L, S, C>(&mut call, &mut self.state, shelf);
        Ok(self.dispatched(answer))
    }

    // Hands a message in: it is read, its seals are checked, and the seat steps. Nothing is allocated, and no message is copied.
    // Rota and check are two arguments, as the caller has them: a tick takes neither, and an offer the rota alone.
    pub fn hand_in<Q: Rota, K: SealCheck<S>>(
        &mut self,
        shelf: &mut Shelf<'_, C::Record>,
        rota: &Q,
        check: &mut K,
        inbox: &[u8],
        outbox: &mut [u8],
    ) -> Result<(Answer, Slip), Refusal>
        ensures call { Called C.Content.kind (hand_in C.Content.kind self.old.terms (Q.Rota.leads rota.now) (K.SealCheck.accepts check.old) self.old.state (held shelf.old) (size shelf.old) inbox.now (length outbox.old)) self.old.state (held shelf.old) outbox.old result self.new.state (held shelf.new) outbox.new }
        ensures terms { self.new.terms ≡ self.old.terms }
        ensures cells { SameCells shelf.new shelf.old }
        ensures check { K.SealCheck.accepts check.new ≡ K.SealCheck.accepts check.old }
    {
        self.ready(outbox.len())?;
        let message = open::<L, S, C, Q, K>(self.terms.seats, inbox, rota, check)?;
        let mut call = Call {
            terms: &self.terms,
            outbox,
        };
        let answer = hand_parts::<L, S, C>(&mut call, &mut self.state, shelf, message.parts())?;
        Ok(self.dispatched(answer))
    }

    // Offers an entry: where the seat may, it proposes it on the best block that it knows. The shelf is not asked.
    pub fn offer<Q: Rota>(
        &mut self,
        rota: &Q,
        content: &[u8],
        outbox: &mut [u8],
    ) -> Result<(Answer, Slip), Refusal>
        ensures call { (bs : List (BlockOf C.Record)) → Called C.Content.kind (offer C.Content.kind self.old.terms (Q.Rota.leads rota.now) self.old.state bs content.now (length outbox.old)) self.old.state bs outbox.old result self.new.state bs outbox.new }
        ensures terms { self.new.terms ≡ self.old.terms }
    {
        self.ready(outbox.len())?;
        let mut call = Call {
            terms: &self.terms,
            outbox,
        };
        let answer = offer_step::<L, S, C, Q>(&mut call, &mut self.state, rota, content)?;
        Ok(self.dispatched(answer))
    }
}
