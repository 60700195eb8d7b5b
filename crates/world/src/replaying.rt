// Replaying a list of calls at the desks of a world.
ghost use Rattle.std.specs.Prelude.{◌≡◌, [], length, IfErr};
ghost use Rattle.content.specs.declared.refusal.Refusal.TheVariants.{NoMemory};
ghost use Rattle.agreement.specs.History.{History};
ghost use Rattle.agreement.specs.Setting.{Setting};
ghost use Rattle.world.specs.Replaying.{Counted, Ended, Played, Stepped};
ghost use Rattle.world.specs.Worlds.{Rules, Stands};

use crate::call::{Call, Reply};
use crate::desk::Desk;
use crate::performing::call_at;
use content::kind::Content;
use content::refusal::Refusal;
use rota::leaders::Rota;
use seals::check::SealCheck;
use std::alloc::{AllocError, Global};

// What a call says where memory is wanting. It is not a From of Refusal, since `content` knows no allocator.
fn no_memory(_: AllocError) -> Refusal
    ensures { result ≡ NoMemory }
{
    Refusal::NoMemory
}

// Makes one call, and keeps its reply. Memory is asked for first: where there is none, nothing is done.
pub fn step<const L: usize, const S: usize, C: Content<L>, Q: Rota, K: SealCheck<S>>(
    heap: Global,
    desks: &mut [Desk<L, S, C>],
    rota: &Q,
    check: &mut K,
    call: Call<'_>,
    replies: &mut Vec<Reply>,
) -> Result<(), Refusal>
    ensures does { (w : Setting) (h : History) → Rules w (Q.Rota.leads rota.now) (K.SealCheck.accepts check.old) → Stands C.Content.kind w h desks.old → Stepped C.Content.kind w call.entry h desks.old replies.old.items result desks.new replies.new.items }
    ensures counts { Counted result (length replies.old.items) (length replies.new.items) }
    ensures memory { IfErr result (λ e. e ≡ NoMemory) }
    ensures check { K.SealCheck.accepts check.new ≡ K.SealCheck.accepts check.old }
{
    let mut outbox = vec![in heap; 0; call.room].map_err(no_memory)?;
    replies.reserve(1).map_err(no_memory)?;
    let answer = call_at::<L, S, C, Q, K>(
        desks,
        rota,
        check,
        call.seat,
        call.what,
        outbox.as_mut_slice(),
    );
    replies.push_reserved(Reply { answer, outbox });
    Ok(())
}

// Makes these calls in their order, as far as memory goes, and keeps the replies, of which there are none before.
pub fn play<const L: usize, const S: usize, C: Content<L>, Q: Rota, K: SealCheck<S>>(
    heap: Global,
    desks: &mut [Desk<L, S, C>],
    rota: &Q,
    check: &mut K,
    calls: &[Call<'_>],
    replies: &mut Vec<Reply>,
) -> Result<(), Refusal>
    requires { replies.old.items ≡ [] }
    ensures does { (w : Setting) (h : History) → Rules w (Q.Rota.leads rota.now) (K.SealCheck.accepts check.old) → Stands C.Content.kind w h desks.old → Played C.Content.kind w (length replies.new.items) calls.now h (length desks.old) desks.new replies.new.items }
    ensures ended { Ended result (length replies.new.items) (length calls.now) }
    ensures check { K.SealCheck.accepts check.new ≡ K.SealCheck.accepts check.old }
{
    for call in calls {
        step::<L, S, C, Q, K>(heap, desks, rota, check, *call, replies)?;
    }
    Ok(())
}
