// An offer of the seat's own entry.
ghost use Rattle.std.specs.Prelude.{◌≡◌, ℕ, ◌+◌, ◌*◌, ◌≤◌, [], length, take, replicate, Some, Ok};
ghost use Rattle.wire.specs.Meaning.{plain_parent};
ghost use Rattle.wire.specs.Writing.{parent_size};
ghost use Rattle.wire.specs.declared.message.Parts.TheVariants.{Proposal};
ghost use Rattle.blocks.specs.Masks.{quorum};
ghost use Rattle.state.specs.Offer.{best_body, next_height, offers, offer_step};
ghost use Rattle.state.specs.Sends.{item_at, put_item, write};
ghost use Rattle.state.specs.Steps.{Acts, Leaves};

use blocks::block::Block;
use content::kind::{Content, read_content};
use content::refusal::Refusal;
use rota::leaders::Rota;
use state::answer::{Answer, Item, Word};
use state::call::Call;
use state::sending::put;
use state::state::{Best, State};
use wire::message::{Certificate, Parts};

// Best's seals, without the zeros behind them.
fn seals_of<'a, const S: usize, R>(call: &Call<'_, S>, best: &'a Best<R>) -> &'a [u8]
    ensures row { result.now ≡ take (quorum call.now.terms.now.seats.n * S) best.now.seals }
    ensures size { length result.now ≤ 512 }
{
    let end = call.terms.seats.quorum() as usize * S;
    &best.seals[0..end]
}

// Best's certificate, if there is one.
fn best_certificate<'a, const S: usize, R: Copy>(
    call: &Call<'_, S>,
    best: &'a Option<Best<R>>,
) -> Option<Certificate<R, &'a [u8]>>
    ensures body { plain_parent result ≡ best_body call.now.terms.now S best.now }
    ensures size { (L : ℕ) → parent_size L (plain_parent result) ≤ 526 + L }
{
    let best = best.as_ref()?;
    Some(Certificate {
        block: best.block,
        mask: best.mask,
        seals: seals_of::<S, R>(call, best),
    })
}

// Writes the proposal of a block, with best's certificate if there is one, and zero bytes as its seal, for the signing
// box to fill.
fn put_proposal<const L: usize, const S: usize, C: Content<L>>(
    call: &mut Call<'_, S>,
    block: Block<C::Record>,
    best: &Option<Best<C::Record>>,
) -> Item
    ensures item { Some result ≡ item_at C.Content.kind 0 (Some (write (Proposal block (replicate S 0) (best_body call.old.terms.now S best.now)))) }
    ensures call { Leaves call.new call.old (put_item C.Content.kind 0 (Some (write (Proposal block (replicate S 0) (best_body call.old.terms.now S best.now)))) call.old.outbox.now) }
{
    let seal = [0; S];
    let parts = Parts::Proposal {
        block,
        seal: &seal[..],
        parent: best_certificate::<S, C::Record>(call, best),
    };
    put::<L, C>(&parts, call.outbox, 0)
}

// Proposes an entry: the seat may, and there is a place.
fn propose<const L: usize, const S: usize, C: Content<L>>(
    call: &mut Call<'_, S>,
    state: &mut State<S, C::Record>,
    content: C::Record,
) -> Answer
    requires turn { state.old.turn ≤ 65535 }
    requires height { next_height state.old.best ≤ 4294967295 }
    ensures { Acts C.Content.kind (Ok (offers call.old.terms.now state.old [] content)) call.old state.old (Ok result) call.new state.new }
{
    let block = state.offered_block(content);
    let message = put_proposal::<L, S, C>(call, block, &state.best);
    Answer {
        message: Some(message),
        ..Answer::of(Word::Offered)
    }
}

// Offers the seat's own entry: its content is read, the seat has to be allowed to offer, and then it proposes.
pub fn offer_step<const L: usize, const S: usize, C: Content<L>, Q: Rota>(
    call: &mut Call<'_, S>,
    state: &mut State<S, C::Record>,
    rota: &Q,
    content: &[u8],
) -> Result<Answer, Refusal>
    ensures { Acts C.Content.kind (offer_step C.Content.kind call.old.terms.now (Q.Rota.leads rota.now) state.old [] content.now) call.old state.old result call.new state.new }
{
    let record = read_content::<L, C>(content)?;
    state.may_offer(call.terms, rota)?;
    Ok(propose::<L, S, C>(call, state, record))
}
