// Votes and blames that are handed in, and what a quorum of them makes.
ghost use Rattle.std.specs.Prelude.{◌≡◌, ◌≤◌, true, length, Some, Ok, nat_lt};
ghost use Rattle.blocks.specs.Masks.{count_kept};
ghost use Rattle.shelf.specs.Blocks.{held, size};
ghost use Rattle.state.specs.HandIn.{blame, certificate_of, completed, countable, is_note, notice_of, vote};
ghost use Rattle.state.specs.Sends.{item_at, put_item, write};
ghost use Rattle.state.specs.Steps.{Leaves, Steps};
ghost use Rattle.state.specs.declared.taking.Verdict.TheVariants.{New};

use crate::certified::put_certificate;
use blocks::block::Block;
use blocks::ranks::same_block;
use blocks::rows::SealRow;
use content::kind::Content;
use content::refusal::Refusal;
use shelf::Shelf;
use state::answer::{Answer, Item, Word};
use state::call::Call;
use state::seal::SeatSeal;
use state::sending::put;
use state::state::{LAST_VIEW, Note, State};
use state::taking::{Verdict, judge_in};
use state::tallies::{add_seal, drop_seal, quorate};
use wire::message::{Certificate, Parts};

// The notice of a view from the blames kept for it.
fn put_notice<const L: usize, const S: usize, C: Content<L>>(
    call: &mut Call<'_, S>,
    view: u16,
    blames: &SealRow<S>,
) -> Item
    requires { count_kept blames.now.by_seat ≤ 8 }
    ensures item { Some result ≡ item_at C.Content.kind 0 (Some (write (notice_of view blames.now))) }
    ensures call { Leaves call.new call.old (put_item C.Content.kind 0 (Some (write (notice_of view blames.now))) call.old.outbox.now) }
{
    let row = blames.row();
    let parts = Parts::Notice {
        view,
        mask: blames.mask(),
        seals: &row[0..blames.count() as usize * S],
    };
    put::<L, C>(&parts, call.outbox, 0)
}

// A blame of the seat's own view; the one that completes a quorum makes a notice, and the seat leaves its view.
pub fn blame<const L: usize, const S: usize, C: Content<L>>(
    call: &mut Call<'_, S>,
    state: &mut State<S, C::Record>,
    shelf: &Shelf<'_, C::Record>,
    view: u16,
    seal: &SeatSeal<'_, S>,
) -> Result<Answer, Refusal>
    ensures { Steps C.Content.kind (blame call.old.terms.now state.old (held shelf.now) seal.now.seat view seal.now.bytes.now) call.old state.old shelf.now result call.new state.new shelf.now }
{
    if view == LAST_VIEW {
        return Err(Refusal::LastView);
    }
    if !state.counts_blame(seal.seat, view) {
        return Ok(Answer::of(Word::Idle));
    }
    add_seal(&mut state.blames, seal);
    if !quorate(call.terms, &state.blames) {
        return Ok(Answer::of(Word::Counted));
    }
    let message = put_notice::<L, S, C>(call, view, &state.blames);
    state.leave(view);
    Ok(Answer {
        message: Some(message),
        ..Answer::of(Word::Left)
    })
}

// Whether a block is the note.
fn is_note<const L: usize, C: Content<L>>(
    note: &Option<Note<C::Record>>,
    block: &Block<C::Record>,
) -> bool
    ensures { result ≡ is_note C.Content.kind note.now block.now }
{
    // a match, since no proof was found for is_some_and
    match note {
        None => false,
        Some(note) => same_block::<L, C>(&note.block, block),
    }
}

// Whether a vote counts: for the note of a seat that is on, once a seat.
fn countable<const L: usize, const S: usize, C: Content<L>>(
    state: &State<S, C::Record>,
    seat: u8,
    block: &Block<C::Record>,
) -> bool
    ensures { result ≡ countable C.Content.kind state.entry.now seat block.now }
{
    state.is_on() & (is_note::<L, C>(&state.round.note, block) & !state.round.votes.has(seat))
}

// The certificate of a block from its votes: written, and taken in.
fn certify<const L: usize, const S: usize, C: Content<L>>(
    call: &mut Call<'_, S>,
    state: &mut State<S, C::Record>,
    shelf: &mut Shelf<'_, C::Record>,
    block: &Block<C::Record>,
) -> Answer
    requires cell { nat_lt (length (held shelf.old)) (size shelf.old) ≡ true }
    requires count { count_kept state.old.round.votes.by_seat ≤ 8 }
    ensures { Steps C.Content.kind (Ok (completed state.old (held shelf.old) (certificate_of block.now state.old.round.votes) New)) call.old state.old shelf.old (Ok result) call.new state.new shelf.new }
{
    let row = state.round.votes.row();
    let c = Certificate {
        block: *block,
        mask: state.round.votes.mask(),
        seals: &row[0..state.round.votes.count() as usize * S],
    };
    let certificate = put_certificate::<L, S, C>(call, &c);
    Answer {
        height: state.take(shelf, &c),
        certificate: Some(certificate),
        ..Answer::of(Word::Certified)
    }
}

// A vote for the note; the one that completes a quorum makes a certificate. A vote whose certificate is refused is not kept.
pub fn vote<const L: usize, const S: usize, C: Content<L>>(
    call: &mut Call<'_, S>,
    state: &mut State<S, C::Record>,
    shelf: &mut Shelf<'_, C::Record>,
    block: &Block<C::Record>,
    seal: &SeatSeal<'_, S>,
) -> Result<Answer, Refusal>
    ensures { Steps C.Content.kind (vote C.Content.kind call.old.terms.now state.old (held shelf.old) (size shelf.old) seal.now.seat block.now seal.now.bytes.now) call.old state.old shelf.old result call.new state.new shelf.new }
{
    if !countable::<L, S, C>(state, seal.seat, block) {
        return Ok(Answer::of(Word::Idle));
    }
    add_seal(&mut state.round.votes, seal);
    if !quorate(call.terms, &state.round.votes) {
        return Ok(Answer::of(Word::Counted));
    }
    match judge_in::<L, S, C>(state, shelf, block) {
        Ok(Verdict::New) => Ok(certify::<L, S, C>(call, state, shelf, block)),
        Ok(Verdict::Known) => Ok(Answer::of(Word::Counted)),
        Err(refusal) => {
            drop_seal(&mut state.round.votes, seal.seat);
            Err(refusal)
        }
    }
}
