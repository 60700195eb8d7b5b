// Any call at a desk, and at the desks of a world.
ghost use Rattle.std.specs.Prelude.{◌≡◌, ℕ, length};
ghost use Rattle.agreement.specs.History.{History};
ghost use Rattle.agreement.specs.Setting.{Setting};
ghost use Rattle.world.specs.Performing.{CalledAt, Performed};
ghost use Rattle.world.specs.Worlds.{DeskAt, Rules, Stands, call_of, event_at};

use crate::call::What;
use crate::desk::Desk;
use content::kind::Content;
use content::refusal::Refusal;
use rota::leaders::Rota;
use seals::check::SealCheck;
use state::answer::{Answer, Word};

impl<const L: usize, const S: usize, C: Content<L>> Desk<L, S, C> {
    // Makes a call at this desk.
    pub fn perform<Q: Rota, K: SealCheck<S>>(
        &mut self,
        rota: &Q,
        check: &mut K,
        what: What<'_>,
        outbox: &mut [u8],
    ) -> Result<Answer, Refusal>
        ensures does { (w : Setting) (i : ℕ) (h : History) → Rules w (Q.Rota.leads rota.now) (K.SealCheck.accepts check.old) → DeskAt C.Content.kind w i h self.old → Performed C.Content.kind w i (call_of what.entry (length outbox.old)) h outbox.old result self.new outbox.new }
        ensures check { K.SealCheck.accepts check.new ≡ K.SealCheck.accepts check.old }
    {
        match what {
            What::HandIn(inbox) => self.hand_in(rota, check, inbox, outbox),
            What::Tick => self.tick(outbox),
            What::Offer(content) => self.offer(rota, content, outbox),
            What::Sent => {
                self.sent();
                Ok(Answer::of(Word::Idle))
            }
        }
    }
}

// Makes a call at the desk of a number: refused where there is none. The desks, the rota and the check are no struct: where a
// struct lends the desks, a proof does not know that a desk fits into memory, as a call at it asks.
pub fn call_at<const L: usize, const S: usize, C: Content<L>, Q: Rota, K: SealCheck<S>>(
    desks: &mut [Desk<L, S, C>],
    rota: &Q,
    check: &mut K,
    seat: u8,
    what: What<'_>,
    outbox: &mut [u8],
) -> Result<Answer, Refusal>
    ensures does { (w : Setting) (h : History) → Rules w (Q.Rota.leads rota.now) (K.SealCheck.accepts check.old) → Stands C.Content.kind w h desks.old → CalledAt C.Content.kind w (length desks.old) (event_at seat (call_of what.entry (length outbox.old))) h outbox.old result desks.new outbox.new }
    ensures check { K.SealCheck.accepts check.new ≡ K.SealCheck.accepts check.old }
{
    let at = seat as usize;
    // indexed: after the `get_mut` of a slice nothing is known of its other elements
    if at >= desks.len() {
        return Err(Refusal::OutOfLimits);
    }
    desks[at].perform(rota, check, what, outbox)
}
