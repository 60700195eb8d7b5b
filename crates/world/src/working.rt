// Calls at a desk.
ghost use Rattle.std.specs.Prelude.{◌≡◌, length};
ghost use Rattle.state.specs.Calls.{hand_in, offer, tick};
ghost use Rattle.world.specs.Desks.{Freed, Settled, SlipKept, Tidy, Worked, blocks_of, cells_of};

use crate::desk::Desk;
use crate::shelved::{hand_in, tick as tick_over};
use content::kind::Content;
use content::refusal::Refusal;
use rota::leaders::Rota;
use seals::check::SealCheck;
use seat::slip::Slip;
use state::answer::Answer;

impl<const L: usize, const S: usize, C: Content<L>> Desk<L, S, C> {
    // Keeps a slip. A seat with a slip out gives none, so there is no older one; were there one, it would be taken back.
    fn keep(&mut self, slip: Slip)
        ensures { SlipKept self.old self.new }
    {
        if let Some(old) = self.slip.replace(slip) {
            self.seat.sent(old);
        }
    }

    // Keeps the slip of a call that was carried out.
    fn settle(&mut self, outcome: Result<(Answer, Slip), Refusal>) -> Result<Answer, Refusal>
        ensures { Settled outcome self.old result self.new }
    {
        let (answer, slip) = outcome?;
        self.keep(slip);
        Ok(answer)
    }

    // Hands a message in at this desk.
    pub fn hand_in<Q: Rota, K: SealCheck<S>>(
        &mut self,
        rota: &Q,
        check: &mut K,
        inbox: &[u8],
        outbox: &mut [u8],
    ) -> Result<Answer, Refusal>
        ensures work { Tidy self.old → Worked C.Content.kind (hand_in C.Content.kind self.old.seat.terms (Q.Rota.leads rota.now) (K.SealCheck.accepts check.old) self.old.seat.state (blocks_of self.old) (cells_of self.old) inbox.now (length outbox.old)) self.old outbox.old result self.new outbox.new }
        ensures check { K.SealCheck.accepts check.new ≡ K.SealCheck.accepts check.old }
    {
        let (outcome, filled) = hand_in::<L, S, C, Q, K>(
            &mut self.seat,
            self.cells.as_mut_slice(),
            self.filled,
            rota,
            check,
            inbox,
            outbox,
        );
        self.filled = filled;
        self.settle(outcome)
    }

    // One tick at this desk.
    pub fn tick(&mut self, outbox: &mut [u8]) -> Result<Answer, Refusal>
        ensures { Tidy self.old → Worked C.Content.kind (tick self.old.seat.terms self.old.seat.state (blocks_of self.old) (length outbox.old)) self.old outbox.old result self.new outbox.new }
    {
        let outcome = tick_over::<L, S, C>(
            &mut self.seat,
            self.cells.as_mut_slice(),
            self.filled,
            outbox,
        );
        self.settle(outcome)
    }

    // Offers an entry at this desk.
    pub fn offer<Q: Rota>(
        &mut self,
        rota: &Q,
        content: &[u8],
        outbox: &mut [u8],
    ) -> Result<Answer, Refusal>
        ensures { Tidy self.old → Worked C.Content.kind (offer C.Content.kind self.old.seat.terms (Q.Rota.leads rota.now) self.old.seat.state (blocks_of self.old) content.now (length outbox.old)) self.old outbox.old result self.new outbox.new }
    {
        let outcome = self.seat.offer(rota, content, outbox);
        self.settle(outcome)
    }

    // Gives the slip back, if one is out.
    pub fn sent(&mut self)
        ensures { Tidy self.old → Freed self.old self.new }
    {
        if let Some(slip) = self.slip.take() {
            self.seat.sent(slip);
        }
    }
}
