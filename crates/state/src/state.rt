// What a seat keeps.
ghost use Rattle.std.specs.Prelude.{◌≡◌};
ghost use Rattle.state.specs.Parts.{is_on, leave, new_round, new_state, with_round};
ghost use Rattle.state.specs.HandIn.{leaves_by};

use blocks::block::{Block, Rank};
use blocks::rows::SealRow;
use blocks::seats::SeatCount;

// What a seat is made from: the number of seats, its own number, and two times in ticks. Within delta ticks a
// message between sound seats arrives; after patience ticks without a commit the seat blames its view.
#[derive(Clone, Copy)]
pub struct Terms {
    pub seats: SeatCount,
    pub own: u8,
    pub delta: u16,
    pub patience: u16,
}

// A seat is on in its view, or leaving it since a tick.
// Not an Option of the tick, since the names say which of the two it is.
#[derive(Clone, Copy)]
pub enum Phase {
    On,
    Leaving { since: u32 },
}

// The first proposal that a seat saw at its rank, when it accepted it, and whether it voted for it.
#[derive(Clone, Copy)]
pub struct Note<R> {
    pub block: Block<R>,
    pub accepted: Option<u32>,
    pub voted: bool,
}

// What belongs to one turn: the note, the votes for it, and whether this seat offered an entry.
#[derive(Drop)]
pub struct Round<const S: usize, R> {
    pub note: Option<Note<R>>,
    pub votes: SealRow<S>,
    pub offered: bool,
}

// The certificate of the highest rank that a seat took in: its block, the set of seats that voted, and their seals in a row.
// The row is of a fixed size, since a seat takes no heap; the set says how much of it is seals.
#[derive(Drop)]
pub struct Best<R> {
    pub block: Block<R>,
    pub mask: u16,
    pub seals: [u8; 512],
}

#[derive(Drop)]
pub struct State<const S: usize, R> {
    // the clock, in ticks
    pub now: u32,
    pub phase: Phase,
    pub view: u16,
    // one above the last turn certified in this view
    pub turn: u32,
    // what a proposal at turn 0 has to stand on, or above: the root or a rank
    pub lock: Option<Rank>,
    pub best: Option<Best<R>>,
    pub round: Round<S, R>,
    // saw two proposals of one rank
    pub spoiled: bool,
    pub blamed: bool,
    pub blames: SealRow<S>,
    // the tick of the last commit, or of the entry into the view
    pub progress: u32,
    // the block committed last
    pub committed: Option<Block<R>>,
    // the tick of the last entry into a view
    pub entered: u32,
    // a dispatch slip is out
    pub slip: bool,
}

impl<const S: usize, R> Round<S, R> {
    // A turn begins with no note, no votes, nothing offered.
    pub fn new() -> Round<S, R>
        ensures { result ≡ new_round }
    {
        Round {
            note: None,
            votes: SealRow::empty(),
            offered: false,
        }
    }
}

// The last view cannot be blamed.
pub const LAST_VIEW: u16 = 65_535;

impl<const S: usize, R: Copy> State<S, R> {
    // How a seat begins.
    pub fn new() -> State<S, R>
        ensures { result ≡ new_state }
    {
        State {
            now: 0,
            phase: Phase::On,
            view: 0,
            turn: 0,
            lock: None,
            best: None,
            round: Round::new(),
            spoiled: false,
            blamed: false,
            blames: SealRow::empty(),
            progress: 0,
            committed: None,
            entered: 0,
            slip: false,
        }
    }

    pub fn is_on(&self) -> bool
        ensures { result ≡ is_on self.entry.now.phase }
    {
        matches!(self.phase, Phase::On)
    }

    // A new turn begins.
    pub fn new_round(&mut self)
        ensures { self.exit.now ≡ with_round new_round self.entry.now }
    {
        self.round = Round::new();
    }

    // Leaves a view: whatever belongs to a view is cleared.
    pub fn leave(&mut self, view: u16)
        ensures { self.exit.now ≡ leave view self.entry.now }
    {
        self.phase = Phase::Leaving { since: self.now };
        self.view = view;
        self.new_round();
        self.spoiled = false;
        self.blamed = false;
        self.blames = SealRow::empty();
    }

    // Whether a notice of this view leads the seat out of a view.
    pub fn leaves_by(&self, view: u16) -> bool
        ensures { result ≡ leaves_by self.entry.now view }
    {
        (self.view < view) || (self.is_on() && self.view == view)
    }
}
