// Taking in a certificate: judged first, then shelved.
ghost use Rattle.std.specs.Prelude.{◌≡◌, ◌+◌, min, true, [], ◌∷◌, ◌++◌, length, if◌then◌else◌, nat_lt};
ghost use Rattle.state.specs.Parts.{turn_rises, with_best, with_committed};
ghost use Rattle.wire.specs.Meaning.{plain_certificate};
ghost use Rattle.shelf.specs.Blocks.{held, size};
ghost use Rattle.shelf.specs.Cells.{SameCells};
ghost use Rattle.state.specs.TakeIn.{better, commits, extends, height_of, here, higher_than, judge_in, judge_new, keep_best, parent_there, shelve};

use crate::state::{Best, State};
use blocks::block::{Block, Rank};
use blocks::ranks::same_block;
use blocks::rows::kept_row;
use content::kind::Content;
use content::refusal::Refusal;
use shelf::Shelf;
use wire::message::Certificate;

// What is found before anything is changed: the block is on the shelf already, or it is new.
#[derive(Clone, Copy, PartialEq, Eq)]
pub enum Verdict {
    Known,
    New,
}

impl<const S: usize, R: Copy> State<S, R> {
    // Whether the seat is on in the block's view.
    fn here(&self, block: &Block<R>) -> bool
        ensures { result ≡ here self.entry.now block.now }
    {
        self.is_on() && self.view == block.rank.view
    }

    // Whether the block's certificate would commit it.
    fn commits(&self, block: &Block<R>) -> bool
        ensures { result ≡ commits self.entry.now block.now }
    {
        self.here(block) && !self.spoiled
    }
}

// Whether the block's parent is the root, or on the shelf, one height lower.
fn parent_there<R: Copy>(shelf: &Shelf<'_, R>, block: &Block<R>) -> bool
    ensures { result ≡ parent_there (held shelf.now) block.now }
{
    block.height == 1
        || shelf
            .find(block.parent)
            .is_some_and(|parent| parent.height as u64 + 1 == block.height as u64)
}

// Whether the block last committed is among the ancestors of this one.
fn extends<const L: usize, C: Content<L>>(
    shelf: &Shelf<'_, C::Record>,
    committed: &Option<Block<C::Record>>,
    block: &Block<C::Record>,
) -> Result<Verdict, Refusal>
    ensures { result ≡ extends C.Content.kind (held shelf.now) committed.now block.now }
{
    let Some(last) = committed else {
        return Ok(Verdict::New);
    };
    match shelf.read_below(block.parent_place(), last.height)? {
        Some(found) if same_block::<L, C>(found, last) => Ok(Verdict::New),
        _ => Err(Refusal::Fork),
    }
}

// Judges a block whose rank is not on the shelf.
fn judge_new<const L: usize, const S: usize, C: Content<L>>(
    state: &State<S, C::Record>,
    shelf: &Shelf<'_, C::Record>,
    block: &Block<C::Record>,
) -> Result<Verdict, Refusal>
    ensures { result ≡ judge_new C.Content.kind state.entry.now (held shelf.now) (size shelf.now) block.now }
{
    if !parent_there(shelf, block) {
        return Err(Refusal::Orphan);
    }
    if shelf.is_full() {
        return Err(Refusal::Full);
    }
    if !state.commits(block) {
        return Ok(Verdict::New);
    }
    extends::<L, C>(shelf, &state.committed, block)
}

// Judges the certificate of a block, and changes nothing.
pub fn judge_in<const L: usize, const S: usize, C: Content<L>>(
    state: &State<S, C::Record>,
    shelf: &Shelf<'_, C::Record>,
    block: &Block<C::Record>,
) -> Result<Verdict, Refusal>
    ensures { result ≡ judge_in C.Content.kind state.entry.now (held shelf.now) (size shelf.now) block.now }
{
    match shelf.find(block.rank) {
        None => judge_new::<L, S, C>(state, shelf, block),
        Some(found) if same_block::<L, C>(found, block) => Ok(Verdict::Known),
        Some(_) => Err(Refusal::Rival),
    }
}

// A certificate to keep: its seals, and zeros after them.
impl<R: Copy> From<&Certificate<R, &[u8]>> for Best<R> {
    fn from(c: &Certificate<R, &[u8]>) -> Best<R>
        ensures { result ≡ keep_best (plain_certificate c.now) }
    {
        Best {
            block: c.block,
            mask: c.mask,
            seals: kept_row(c.seals),
        }
    }
}

impl<const S: usize, R: Copy> State<S, R> {
    // Whether a rank is above best.
    fn passes(&self, rank: Rank) -> bool
        ensures { result ≡ higher_than self.entry.now.best rank }
    {
        self.best
            .as_ref()
            .is_none_or(|best| best.block.rank.below(rank))
    }

    // Best becomes the higher rank.
    fn keep_better(&mut self, c: &Certificate<R, &[u8]>)
        ensures { self.exit.now ≡ with_best (better self.entry.now.best (plain_certificate c.now)) self.entry.now }
    {
        if self.passes(c.block.rank) {
            self.best = Some(Best::from(c));
        }
    }

    // The next turn begins.
    fn rise(&mut self)
        ensures { self.exit.now ≡ turn_rises (min (self.entry.now.turn + 1) 4294967295) self.entry.now }
    {
        self.turn = self.turn.saturating_add(1);
        self.new_round();
    }

    // The seat after a new certificate; answers the height that is committed, 0 if none.
    pub fn shelve(&mut self, c: &Certificate<R, &[u8]>) -> u32
        ensures height { result ≡ height_of self.entry.now c.now.block }
        ensures state { self.exit.now ≡ shelve (plain_certificate c.now) self.entry.now }
    {
        let here = self.here(&c.block);
        let commits = self.commits(&c.block);
        self.keep_better(c);
        if here {
            self.rise();
        }
        // an answer's height is 0 where nothing is committed, as docs/SEAT.md has it
        if !commits {
            return 0;
        }
        self.committed = Some(c.block);
        self.progress = self.now;
        c.block.height
    }

    // Takes in a new certificate: its block is shelved, and the seat moves on. Answers the height that is committed.
    pub fn take(&mut self, shelf: &mut Shelf<'_, R>, c: &Certificate<R, &[u8]>) -> u32
        requires { nat_lt (length (held shelf.old)) (size shelf.old) ≡ true }
        ensures height { result ≡ height_of self.entry.now c.now.block }
        ensures state { self.exit.now ≡ shelve (plain_certificate c.now) self.entry.now }
        ensures blocks { held shelf.new ≡ held shelf.old ++ (c.now.block ∷ []) }
        ensures size { size shelf.new ≡ size shelf.old }
        ensures place { SameCells shelf.new shelf.old }
    {
        shelf.store(c.block).unwrap();
        self.shelve(c)
    }
}
