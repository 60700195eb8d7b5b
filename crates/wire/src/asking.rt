// Opening a message: reading it, and asking the seal check about each of its seals.
ghost use Rattle.std.specs.Prelude.{◌≡◌, ◌+◌, ◌*◌, ◌≤◌, [], ◌∷◌, length, take, drop, IfOk};
ghost use Rattle.wire.specs.Asked.{judge, asked, row_asked, asked_one, opened};
ghost use Rattle.wire.specs.Lawful.{LawfulParts};
ghost use Rattle.wire.specs.Layout.{message_bytes};
ghost use Rattle.blocks.specs.Masks.{ones};
ghost use Rattle.wire.specs.Meaning.{plain, plain_parent, meant};
ghost use Rattle.wire.specs.Statements.{tag_of};
ghost use Rattle.wire.specs.declared.message.Parts.TheVariants.{Proposal};

use crate::message::{Certificate, Message, Parts};
use crate::reader::read;
use blocks::block::Block;
use blocks::masks::has;
use blocks::seats::SeatCount;
use content::kind::Content;
use content::refusal::Refusal;
use rota::leaders::Rota;
use seals::check::SealCheck;

// What a seal states, by the byte in front of the body that it is on.
#[derive(Clone, Copy)]
enum Statement {
    Proposal = 1,
    Vote = 2,
    Blame = 3,
}

// Asks about one seal.
fn ask<const S: usize, K: SealCheck<S>>(
    check: &mut K,
    seat: u8,
    statement: Statement,
    body: &[u8],
    seal: &[u8],
) -> Result<(), Refusal>
    ensures value { result ≡ judge (K.SealCheck.accepts check.old) (asked_one seat (tag_of statement ∷ body.now) seal.now ∷ []) }
    ensures kept { K.SealCheck.accepts check.new ≡ K.SealCheck.accepts check.old }
{
    if !check.check(seat, statement as u8, body, seal) {
        return Err(Refusal::BadSeal { seat });
    }
    Ok(())
}

// Asks about a row of seals on one statement, by rising seat: a loop, since each seal can end it, and one that splits the
// row itself, since the proof goes from seat to seat by the seals that are left.
fn ask_row<const S: usize, K: SealCheck<S>>(
    seats: SeatCount,
    check: &mut K,
    mask: u16,
    statement: Statement,
    body: &[u8],
    row: &[u8],
) -> Result<(), Refusal>
    requires { ones mask 0 seats.n * S ≡ length row.now }
    ensures value { result ≡ judge (K.SealCheck.accepts check.old) (row_asked S mask 0 seats.n (tag_of statement ∷ body.now) row.now) }
    ensures kept { K.SealCheck.accepts check.new ≡ K.SealCheck.accepts check.old }
{
    let mut rest = row;
    for seat in 0..seats.get() {
        if has(mask, seat) {
            let (seal, next) = rest.split_at(S);
            ask::<S, K>(check, seat, statement, body, seal)?;
            rest = next;
        }
    }
    Ok(())
}

// Some bytes of a message, as they lie.
fn part(bytes: &[u8], at: usize, len: usize) -> &[u8]
    requires { at + len ≤ length bytes.now }
    ensures { result.now ≡ take len (drop at bytes.now) }
{
    &bytes[at..at + len]
}

// The body of every statement on a block is the block's bytes in the message. The rota and the check are the caller's,
// and are handed on as they came: a struct of them would be made for this one call.
fn ask_proposal<'a, const L: usize, const S: usize, C: Content<L>, Q: Rota, K: SealCheck<S>>(
    seats: SeatCount,
    bytes: &[u8],
    block: &Block<C::Record>,
    seal: &[u8],
    parent: &Option<Certificate<C::Record, &'a [u8]>>,
    rota: &Q,
    check: &mut K,
) -> Result<(), Refusal>
    requires back { message_bytes C.Content.kind (Proposal block.now seal.now (plain_parent parent.now)) ≡ bytes.now }
    requires lawful { LawfulParts C.Content.kind S seats.n (Proposal block.now seal.now (plain_parent parent.now)) }
    ensures value { result ≡ judge (K.SealCheck.accepts check.old) (asked C.Content.kind S seats.n (Q.Rota.leads rota.now) (Proposal block.now seal.now (plain_parent parent.now))) }
    ensures kept { K.SealCheck.accepts check.new ≡ K.SealCheck.accepts check.old }
{
    let leader = rota.leader(block.rank.view);
    ask::<S, K>(
        check,
        leader,
        Statement::Proposal,
        part(bytes, 1, 12 + L),
        seal,
    )?;
    match parent {
        None => Ok(()),
        Some(c) => ask_row::<S, K>(
            seats,
            check,
            c.mask,
            Statement::Vote,
            part(bytes, 13 + L + S, 12 + L),
            c.seals,
        ),
    }
}

// Asks about every seal of a message, in their order, and stops at the first no.
fn ask_all<'a, const L: usize, const S: usize, C: Content<L>, Q: Rota, K: SealCheck<S>>(
    seats: SeatCount,
    bytes: &[u8],
    parts: &Parts<C::Record, &'a [u8]>,
    rota: &Q,
    check: &mut K,
) -> Result<(), Refusal>
    requires back { message_bytes C.Content.kind (plain parts.now) ≡ bytes.now }
    requires lawful { LawfulParts C.Content.kind S seats.n (plain parts.now) }
    ensures value { result ≡ judge (K.SealCheck.accepts check.old) (asked C.Content.kind S seats.n (Q.Rota.leads rota.now) (plain parts.now)) }
    ensures kept { K.SealCheck.accepts check.new ≡ K.SealCheck.accepts check.old }
{
    match parts {
        Parts::Proposal {
            block,
            seal,
            parent,
        } => ask_proposal::<L, S, C, Q, K>(seats, bytes, block, *seal, parent, rota, check),
        Parts::Vote { seat, seal, .. } => {
            let body = part(bytes, 2, 12 + L);
            ask::<S, K>(check, *seat, Statement::Vote, body, seal)
        }
        Parts::Blame { seat, seal, .. } => {
            let body = part(bytes, 2, 2);
            ask::<S, K>(check, *seat, Statement::Blame, body, seal)
        }
        Parts::Certified(c) => {
            let body = part(bytes, 1, 12 + L);
            ask_row::<S, K>(seats, check, c.mask, Statement::Vote, body, c.seals)
        }
        Parts::Notice { mask, seals, .. } => {
            let body = part(bytes, 1, 2);
            ask_row::<S, K>(seats, check, *mask, Statement::Blame, body, seals)
        }
    }
}

// Reads a message and asks the seal check about every seal, in the order in which they lie. No byte is copied.
// The check may keep a state of its own, so whoever is lent it says that its meaning stays (`kept`), here and in the calls above.
pub fn open<'a, const L: usize, const S: usize, C: Content<L>, Q: Rota, K: SealCheck<S>>(
    seats: SeatCount,
    bytes: &'a [u8],
    rota: &Q,
    check: &mut K,
) -> Result<Message<'a, C::Record>, Refusal>
    ensures value { meant result ≡ opened C.Content.kind S seats.n (Q.Rota.leads rota.now) (K.SealCheck.accepts check.old) bytes.now }
    ensures back { IfOk result (λ m. message_bytes C.Content.kind (plain m.parts) ≡ bytes.now) }
    ensures lawful { IfOk result (λ m. LawfulParts C.Content.kind S seats.n (plain m.parts)) }
    ensures kept { K.SealCheck.accepts check.new ≡ K.SealCheck.accepts check.old }
{
    let message = read::<L, S, C>(seats, bytes)?;
    let parts = message.parts();
    ask_all::<L, S, C, Q, K>(seats, bytes, parts, rota, check)?;
    Ok(message)
}
