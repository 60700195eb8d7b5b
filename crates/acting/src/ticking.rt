// One tick of the clock.
ghost use Rattle.std.specs.Prelude.{◌≡◌, ◌+◌, ◌<◌, ◌≤◌, true, [], length, is_some, if◌then◌else◌, Some, Ok};
ghost use Rattle.shelf.specs.Blocks.{held};
ghost use Rattle.state.specs.HandIn.{own_blame};
ghost use Rattle.state.specs.Parts.{with_blamed};
ghost use Rattle.state.specs.Sends.{item_at, put_item};
ghost use Rattle.state.specs.Steps.{Acts, Leaves};
ghost use Rattle.state.specs.Tick.{after_blame, after_vote, blame_of, entered_at, leaving_tick, on_tick, tick_step, turn_after, vote_of};
ghost use Rattle.state.specs.declared.answer.Word.TheVariants.{Blamed, Idle, Voted};

use content::kind::Content;
use shelf::Shelf;
use state::answer::{Answer, Item, Word};
use state::call::Call;
use state::sending::end_of;
use state::state::{Note, Phase, State};

// The turn at which a view is entered: one above the highest that is certified, or 0.
fn turn_after(top: Option<u16>) -> u32
    ensures { result ≡ turn_after top }
{
    top.map_or(0, |turn| turn as u32 + 1)
}

// Blames the view, once.
fn blame<const L: usize, const S: usize, C: Content<L>>(
    call: &mut Call<'_, S>,
    state: &mut State<S, C::Record>,
    from: usize,
) -> Item
    requires { from + (4 + S) ≤ length call.old.outbox.now }
    ensures item { Some result ≡ item_at C.Content.kind from (Some (own_blame call.old.terms.now state.old)) }
    ensures state { state.new ≡ with_blamed true state.old }
    ensures call { Leaves call.new call.old (put_item C.Content.kind from (Some (own_blame call.old.terms.now state.old)) call.old.outbox.now) }
{
    state.blamed = true;
    call.put_blame::<L, C>(state.view, from)
}

// A seat that entered a view blames it if it is spoiled.
fn entered<const L: usize, const S: usize, C: Content<L>>(
    call: &mut Call<'_, S>,
    state: &mut State<S, C::Record>,
) -> Answer
    ensures { Acts C.Content.kind (Ok (entered_at call.old.terms.now state.old [] state.old.spoiled)) call.old state.old (Ok result) call.new state.new }
{
    if !state.spoiled {
        return Answer::of(Word::Entered);
    }
    Answer {
        blame: Some(blame::<L, S, C>(call, state, 0)),
        ..Answer::of(Word::Blamed)
    }
}

// A seat that is leaving enters the next view after 2D + 1 ticks.
fn leaving_tick<const L: usize, const S: usize, C: Content<L>>(
    call: &mut Call<'_, S>,
    since: u32,
    state: &mut State<S, C::Record>,
    shelf: &Shelf<'_, C::Record>,
) -> Answer
    ensures { Acts C.Content.kind (Ok (leaving_tick call.old.terms.now since state.old (held shelf.now))) call.old state.old (Ok result) call.new state.new }
{
    if !state.has_left(call.terms, since) {
        return Answer::of(Word::Idle);
    }
    let view = state.view.saturating_add(1);
    state.enter(view, turn_after(shelf.top_turn(view)));
    entered::<L, S, C>(call, state)
}

// Blames the view if patience is over: where the blame lies, behind what is written already.
fn blame_if_due<const L: usize, const S: usize, C: Content<L>>(
    call: &mut Call<'_, S>,
    state: &mut State<S, C::Record>,
    from: usize,
) -> Option<Item>
    requires { from + (4 + S) ≤ length call.old.outbox.now }
    ensures item { result ≡ item_at C.Content.kind from (blame_of call.old.terms.now state.old) }
    ensures state { state.new ≡ after_blame call.old.terms.now state.old }
    ensures call { Leaves call.new call.old (put_item C.Content.kind from (blame_of call.old.terms.now state.old) call.old.outbox.now) }
{
    if !state.blame_due(call.terms) {
        return None;
    }
    Some(blame::<L, S, C>(call, state, from))
}

// Votes for a note whose time has come: where the vote lies.
fn vote_for<const L: usize, const S: usize, C: Content<L>>(
    call: &mut Call<'_, S>,
    state: &mut State<S, C::Record>,
    note: Note<C::Record>,
) -> Option<Item>
    ensures item { result ≡ item_at C.Content.kind 0 (vote_of call.old.terms.now state.old (Some note)) }
    ensures state { state.new ≡ after_vote call.old.terms.now state.old (Some note) }
    ensures call { Leaves call.new call.old (put_item C.Content.kind 0 (vote_of call.old.terms.now state.old (Some note)) call.old.outbox.now) }
{
    if !state.vote_due(call.terms, &note) {
        return None;
    }
    state.round.note = Some(Note {
        voted: true,
        ..note
    });
    Some(call.put_vote::<L, C>(&note.block))
}

// Votes for the note, if there is one and its time has come.
fn vote_if_due<const L: usize, const S: usize, C: Content<L>>(
    call: &mut Call<'_, S>,
    state: &mut State<S, C::Record>,
) -> Option<Item>
    ensures item { result ≡ item_at C.Content.kind 0 (vote_of call.old.terms.now state.old state.old.round.note) }
    ensures state { state.new ≡ after_vote call.old.terms.now state.old state.old.round.note }
    ensures call { Leaves call.new call.old (put_item C.Content.kind 0 (vote_of call.old.terms.now state.old state.old.round.note) call.old.outbox.now) }
{
    let note = state.round.note?;
    vote_for::<L, S, C>(call, state, note)
}

// The last thing that a tick did.
fn last_word(message: &Option<Item>, blame: &Option<Item>) -> Word
    ensures { result ≡ (if is_some blame.now then Blamed else (if is_some message.now then Voted else Idle)) }
{
    match (blame, message) {
        (Some(_), _) => Word::Blamed,
        (None, Some(_)) => Word::Voted,
        (None, None) => Word::Idle,
    }
}

// A seat that is on votes, then blames.
fn on_tick<const L: usize, const S: usize, C: Content<L>>(
    call: &mut Call<'_, S>,
    state: &mut State<S, C::Record>,
) -> Answer
    ensures { Acts C.Content.kind (Ok (on_tick call.old.terms.now state.old.round.note state.old [])) call.old state.old (Ok result) call.new state.new }
{
    let message = vote_if_due::<L, S, C>(call, state);
    let blame = blame_if_due::<L, S, C>(call, state, end_of(&message));
    Answer {
        message,
        blame,
        ..Answer::of(last_word(&message, &blame))
    }
}

// One tick of the clock: a seat that is on votes and blames, one that is leaving may enter the next view.
pub fn tick_step<const L: usize, const S: usize, C: Content<L>>(
    call: &mut Call<'_, S>,
    state: &mut State<S, C::Record>,
    shelf: &Shelf<'_, C::Record>,
) -> Answer
    requires { state.old.now < 1000000000 }
    ensures { Acts C.Content.kind (Ok (tick_step call.old.terms.now state.old (held shelf.now))) call.old state.old (Ok result) call.new state.new }
{
    state.now += 1;
    match state.phase {
        Phase::On => on_tick::<L, S, C>(call, state),
        Phase::Leaving { since } => leaving_tick::<L, S, C>(call, since, state, shelf),
    }
}
