// The world: the seats of one log, each at its desk, and the call that replays a list of calls in it.
ghost use Rattle.std.specs.Prelude.{◌≡◌, length};
ghost use Rattle.agreement.specs.History.{History};
ghost use Rattle.agreement.specs.Laws.{LawsOfSeats};
ghost use Rattle.agreement.specs.Run.{Run};
ghost use Rattle.agreement.specs.Setting.{Lawful, Setting};
ghost use Rattle.agreement.specs.Theorem.{Agreement, Agrees};
ghost use Rattle.world.specs.Making.{CanBegin};
ghost use Rattle.world.specs.Replaying.{Ended, Played};
ghost use Rattle.world.specs.Worlds.{Rules, Stands, played};

use crate::call::{Call, Replayed};
use crate::desk::Desk;
use crate::replaying::play;
use content::kind::Content;
use rota::leaders::Rota;
use seals::check::SealCheck;
use std::alloc::Global;

// Replays a list of calls in a world: the seats of one log by their numbers, from 0 on, each at its desk. Every seat and every
// answer is the model's, as far as memory goes; and over every run, this list or any other, sound seats agree. Which seats are
// sound is for the theorem to say: what the others send is handed in like any bytes.
pub fn replay<const L: usize, const S: usize, C: Content<L>, Q: Rota, K: SealCheck<S>>(
    heap: Global,
    world: &mut [Desk<L, S, C>],
    rota: &Q,
    check: &mut K,
    calls: &[Call<'_>],
) -> Replayed
    ensures world { (w : Setting) (h : History) → Rules w (Q.Rota.leads rota.now) (K.SealCheck.accepts check.old) → Stands C.Content.kind w h world.old → Played C.Content.kind w (length result.replies.items) calls.now h (length world.old) world.new result.replies.items }
    ensures begins { CanBegin C.Content.kind (Q.Rota.leads rota.now) (K.SealCheck.accepts check.old) world.old }
    ensures ended { Ended result.ended (length result.replies.items) (length calls.now) }
    ensures check { K.SealCheck.accepts check.new ≡ K.SealCheck.accepts check.old }
    ensures agreement { (w : Setting) (h : History) → Lawful w → Run S C.Content.kind w (played calls.now h) → Agrees S C.Content.kind w (played calls.now h) }
    ensures always { Agreement S C.Content.kind }
    ensures laws { LawsOfSeats S C.Content.kind }
{
    let mut replies = Vec::new(heap);
    let ended = play::<L, S, C, Q, K>(heap, world, rota, check, calls, &mut replies);
    Replayed { replies, ended }
}
