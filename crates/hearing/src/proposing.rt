// A proposal, after its parent's certificate was taken in.
ghost use Rattle.std.specs.Prelude.{◌≡◌, ◌+◌, ◌≤◌, length, if◌then◌else◌, Some};
ghost use Rattle.wire.specs.Meaning.{plain_parent};
ghost use Rattle.wire.specs.Writing.{parent_size};
ghost use Rattle.shelf.specs.Blocks.{held, size};
ghost use Rattle.state.specs.HandIn.{proposal};
ghost use Rattle.state.specs.Reactions.{accepting, blames_by, fresh, meets, note_or, reacted, reaction, responded};
ghost use Rattle.state.specs.Sends.{end_of, put_item};
ghost use Rattle.state.specs.Steps.{Leaves, Steps};
ghost use Rattle.state.specs.declared.notes.Reaction.TheVariants.{Accepted, Noted};

use crate::certified::take_parent;
use blocks::block::Block;
use blocks::ranks::same_block;
use content::kind::Content;
use content::refusal::Refusal;
use shelf::Shelf;
use state::answer::{Answer, Item, Word};
use state::call::Call;
use state::notes::Reaction;
use state::sending::end_of;
use state::state::{Note, State};
use wire::message::Certificate;

// The slot has no note: the proposal becomes it.
fn first<const S: usize, R: Copy>(state: &mut State<S, R>, block: &Block<R>) -> Reaction
    ensures reaction { result ≡ (if accepting state.old (fresh block.now) then Accepted else Noted) }
    ensures state { state.new ≡ reacted state.old (fresh block.now) result }
{
    let note = Note {
        block: *block,
        accepted: None,
        voted: false,
    };
    if !state.accepting(&note) {
        state.round.note = Some(note);
        return Reaction::Noted;
    }
    state.accept(note);
    Reaction::Accepted
}

// The slot has a note: this is the same proposal again, or a clash.
fn again<const L: usize, const S: usize, C: Content<L>>(
    state: &mut State<S, C::Record>,
    note: Note<C::Record>,
    block: &Block<C::Record>,
) -> Reaction
    ensures reaction { result ≡ meets C.Content.kind state.old block.now (Some note) }
    ensures state { state.new ≡ reacted state.old note (meets C.Content.kind state.old block.now (Some note)) }
{
    if !same_block::<L, C>(&note.block, block) {
        return state.clash();
    }
    if !state.accepting(&note) {
        return Reaction::Nothing;
    }
    state.accept(note);
    Reaction::Accepted
}

// What a proposal does to the seat.
fn react<const L: usize, const S: usize, C: Content<L>>(
    state: &mut State<S, C::Record>,
    block: &Block<C::Record>,
) -> Reaction
    ensures reaction { result ≡ reaction C.Content.kind state.old block.now }
    ensures state { state.new ≡ reacted state.old (note_or block.now state.old.round.note) (reaction C.Content.kind state.old block.now) }
{
    if !state.slot_open(block) {
        return Reaction::Nothing;
    }
    match state.round.note {
        None => first(state, block),
        Some(note) => again::<L, S, C>(state, note, block),
    }
}

// The answer to a proposal, from the one to its parent's certificate; a blame is written behind that certificate.
fn respond<const L: usize, const S: usize, C: Content<L>>(
    call: &mut Call<'_, S>,
    view: u16,
    answer: Answer,
    reaction: Reaction,
) -> Answer
    requires { end_of answer.certificate + (4 + S) ≤ length call.old.outbox.now }
    ensures answer { result ≡ responded C.Content.kind answer (blames_by S call.old.terms.now view reaction) reaction }
    ensures call { Leaves call.new call.old (put_item C.Content.kind (end_of answer.certificate) (blames_by S call.old.terms.now view reaction) call.old.outbox.now) }
{
    match reaction {
        Reaction::Nothing => answer,
        Reaction::Noted => Answer {
            word: Word::Noted,
            ..answer
        },
        Reaction::Accepted => Answer {
            word: Word::Accepted,
            message: Some(Item::Inbox),
            ..answer
        },
        Reaction::Clash => Answer {
            word: Word::Clash,
            message: Some(Item::Inbox),
            ..answer
        },
        Reaction::ClashAndBlame => {
            let from = end_of(&answer.certificate);
            let blame = Some(call.put_blame::<L, C>(view, from));
            Answer {
                word: Word::Clash,
                message: Some(Item::Inbox),
                blame,
                ..answer
            }
        }
    }
}

// A proposal: its parent's certificate is taken in, and then the seat reacts to the block.
pub fn proposal<const L: usize, const S: usize, C: Content<L>>(
    call: &mut Call<'_, S>,
    state: &mut State<S, C::Record>,
    shelf: &mut Shelf<'_, C::Record>,
    block: &Block<C::Record>,
    parent: &Option<Certificate<C::Record, &[u8]>>,
) -> Result<Answer, Refusal>
    requires { 1 + parent_size L (plain_parent parent.now) + (4 + S) ≤ length call.old.outbox.now }
    ensures { Steps C.Content.kind (proposal C.Content.kind call.old.terms.now state.old (held shelf.old) (size shelf.old) block.now (plain_parent parent.now)) call.old state.old shelf.old result call.new state.new shelf.new }
{
    let answer = take_parent::<L, S, C>(call, state, shelf, parent)?;
    let view = state.view;
    let reaction = react::<L, S, C>(state, block);
    Ok(respond::<L, S, C>(call, view, answer, reaction))
}
