// A certificate that is handed in, by itself or as the parent's of a proposal.
ghost use Rattle.std.specs.Prelude.{◌≡◌, ◌+◌, ◌≤◌, length, IfOk, Some};
ghost use Rattle.wire.specs.Meaning.{plain_certificate, plain_parent};
ghost use Rattle.wire.specs.Writing.{body_size, parent_size};
ghost use Rattle.wire.specs.declared.message.Parts.TheVariants.{Certified};
ghost use Rattle.shelf.specs.Blocks.{held, size};
ghost use Rattle.state.specs.HandIn.{take_in};
ghost use Rattle.state.specs.Reactions.{parent_taken};
ghost use Rattle.state.specs.Sends.{end_of, item_at, put_item, relay, write};
ghost use Rattle.state.specs.Steps.{Leaves, Steps};

use content::kind::Content;
use content::refusal::Refusal;
use shelf::Shelf;
use state::answer::{Answer, Item, Word};
use state::call::Call;
use state::sending::put;
use state::state::State;
use state::taking::{Verdict, judge_in};
use wire::message::{Certificate, Parts};

// A certificate by itself: a new one is passed on as it came.
pub fn certificate<const L: usize, const S: usize, C: Content<L>>(
    call: &mut Call<'_, S>,
    state: &mut State<S, C::Record>,
    shelf: &mut Shelf<'_, C::Record>,
    c: &Certificate<C::Record, &[u8]>,
) -> Result<Answer, Refusal>
    ensures { Steps C.Content.kind (take_in C.Content.kind state.old (held shelf.old) (size shelf.old) (plain_certificate c.now) relay) call.old state.old shelf.old result call.new state.new shelf.new }
{
    match judge_in::<L, S, C>(state, shelf, &c.block)? {
        Verdict::Known => Ok(Answer::of(Word::Idle)),
        Verdict::New => Ok(Answer {
            height: state.take(shelf, c),
            certificate: Some(Item::Inbox),
            ..Answer::of(Word::Certified)
        }),
    }
}

// Writes a certificate into the outbox, to be sent by itself.
pub fn put_certificate<const L: usize, const S: usize, C: Content<L>>(
    call: &mut Call<'_, S>,
    c: &Certificate<C::Record, &[u8]>,
) -> Item
    requires { 1 + body_size L (plain_certificate c.now) ≤ length call.old.outbox.now }
    ensures item { Some result ≡ item_at C.Content.kind 0 (Some (write (Certified (plain_certificate c.now)))) }
    ensures call { Leaves call.new call.old (put_item C.Content.kind 0 (Some (write (Certified (plain_certificate c.now)))) call.old.outbox.now) }
{
    // field by field, since the check does not follow a copy of the whole from behind the reference
    let parts = Parts::Certified(Certificate {
        block: c.block,
        mask: c.mask,
        seals: c.seals,
    });
    put::<L, C>(&parts, call.outbox, 0)
}

// The parent's certificate: a new one is written into the outbox, to be sent by itself.
fn take_written<const L: usize, const S: usize, C: Content<L>>(
    call: &mut Call<'_, S>,
    state: &mut State<S, C::Record>,
    shelf: &mut Shelf<'_, C::Record>,
    c: &Certificate<C::Record, &[u8]>,
) -> Result<Answer, Refusal>
    requires { 1 + body_size L (plain_certificate c.now) ≤ length call.old.outbox.now }
    ensures steps { Steps C.Content.kind (take_in C.Content.kind state.old (held shelf.old) (size shelf.old) (plain_certificate c.now) (write (Certified (plain_certificate c.now)))) call.old state.old shelf.old result call.new state.new shelf.new }
    ensures end { IfOk result (λ a. end_of a.certificate ≤ 1 + body_size L (plain_certificate c.now)) }
{
    let answer = certificate::<L, S, C>(call, state, shelf, c)?;
    if answer.certificate.is_none() {
        return Ok(answer);
    }
    let item = put_certificate::<L, S, C>(call, c);
    Ok(Answer {
        certificate: Some(item),
        ..answer
    })
}

// The parent's certificate, if the proposal carries one.
pub fn take_parent<const L: usize, const S: usize, C: Content<L>>(
    call: &mut Call<'_, S>,
    state: &mut State<S, C::Record>,
    shelf: &mut Shelf<'_, C::Record>,
    parent: &Option<Certificate<C::Record, &[u8]>>,
) -> Result<Answer, Refusal>
    requires { 1 + parent_size L (plain_parent parent.now) ≤ length call.old.outbox.now }
    ensures steps { Steps C.Content.kind (parent_taken C.Content.kind state.old (held shelf.old) (size shelf.old) (plain_parent parent.now)) call.old state.old shelf.old result call.new state.new shelf.new }
    ensures end { IfOk result (λ a. end_of a.certificate ≤ 1 + parent_size L (plain_parent parent.now)) }
{
    match parent {
        None => Ok(Answer::of(Word::Idle)),
        Some(c) => take_written::<L, S, C>(call, state, shelf, c),
    }
}
