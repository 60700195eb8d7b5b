// Why a call says no: one enum for the whole product. Each case has a number, which never changes, and a
// detail: the offset of the field for 1 to 6, the seat that was asked for 7, and 0 for every other.
ghost use Rattle.std.specs.Prelude.{◌≡◌, ◌&&◌, nat_eq, Decides};
ghost use Rattle.content.specs.Refusals.{number_of, detail_of};

use thiserror::Error;

// A reason that is followed by a detail is an argument of its own, so that a writer is handed it by itself.
#[derive(Clone, Copy, PartialEq, Eq, Debug, Error)]
pub enum Refusal {
    // 0: no rule of the log was broken
    #[error("no memory is left")]
    NoMemory,
    // 1
    #[error("{}, at byte {at}", "a field does not fit into the bytes that are left")]
    Short { at: usize },
    // 2
    #[error("{}, at byte {at}", "bytes are left over after the last field")]
    Trailing { at: usize },
    // 3
    #[error("the first byte is no kind of message")]
    UnknownKind,
    // 4
    #[error("{}, at byte {at}", "a seat, a mask or a block's numbers break the layout")]
    BadLayout { at: usize },
    // 5
    #[error("{}, at byte {at}", "this is no content of the kind")]
    NoContent { at: usize },
    // 6
    #[error("{}, at byte {at}", "the certificate is not the named parent's")]
    WrongParent { at: usize },
    // 7
    #[error("{} to a seal of seat {seat}", "the seal check says no")]
    BadSeal { seat: u8 },
    // 8
    #[error("the last view cannot be blamed")]
    LastView,
    // 9
    #[error("the parent is not on the shelf, one height lower")]
    Orphan,
    // 10
    #[error("another block of this rank is on the shelf")]
    Rival,
    // 11
    #[error("the shelf has no free cell")]
    Full,
    // 12
    #[error("the block committed last is no ancestor")]
    Fork,
    // 13
    #[error("only the view's leader offers")]
    NotLeader,
    // 14
    #[error("a seat that leaves a view offers nothing")]
    OfferLeaving,
    // 15
    #[error("the view was entered too short a time ago to offer")]
    OfferTooSoon,
    // 16
    #[error("an entry was offered at this turn already")]
    OfferedAlready,
    // 17
    #[error("a seat that saw two proposals at one rank offers nothing")]
    OfferSpoiled,
    // 18
    #[error("the best certified block is no lawful parent at this turn")]
    NoLawfulParent,
    // 19
    #[error("the clock stands at its last tick")]
    LastTick,
    // 20
    #[error("no turn or height is left")]
    NoPlaceLeft,
    // 21
    #[error("the memory to write into is too small")]
    SmallOutbox,
    // 22: made with numbers out of limits
    #[error("the numbers are out of limits")]
    OutOfLimits,
    // 23
    #[error("the shelf misses a parent on the way")]
    BrokenShelf,
    // 24
    #[error("the slip of the last call is not spent")]
    SlipOut,
}

impl Refusal {
    pub fn number(&self) -> u8
        ensures { result ≡ number_of self.now }
    {
        match self {
            Refusal::NoMemory => 0,
            Refusal::Short { .. } => 1,
            Refusal::Trailing { .. } => 2,
            Refusal::UnknownKind => 3,
            Refusal::BadLayout { .. } => 4,
            Refusal::NoContent { .. } => 5,
            Refusal::WrongParent { .. } => 6,
            Refusal::BadSeal { .. } => 7,
            Refusal::LastView => 8,
            Refusal::Orphan => 9,
            Refusal::Rival => 10,
            Refusal::Full => 11,
            Refusal::Fork => 12,
            Refusal::NotLeader => 13,
            Refusal::OfferLeaving => 14,
            Refusal::OfferTooSoon => 15,
            Refusal::OfferedAlready => 16,
            Refusal::OfferSpoiled => 17,
            Refusal::NoLawfulParent => 18,
            Refusal::LastTick => 19,
            Refusal::NoPlaceLeft => 20,
            Refusal::SmallOutbox => 21,
            Refusal::OutOfLimits => 22,
            Refusal::BrokenShelf => 23,
            Refusal::SlipOut => 24,
        }
    }

    pub fn detail(&self) -> usize
        ensures { result ≡ detail_of self.now }
    {
        match self {
            Refusal::Short { at }
            | Refusal::Trailing { at }
            | Refusal::BadLayout { at }
            | Refusal::NoContent { at }
            | Refusal::WrongParent { at } => *at,
            Refusal::BadSeal { seat } => *seat as usize,
            _ => 0,
        }
    }

    // The same as ==, with what it promises: equal are refusals of one number and one detail, and no others.
    pub fn same(&self, other: &Refusal) -> bool
        ensures answer { result ≡ nat_eq (number_of self.now) (number_of other.now) && nat_eq (detail_of self.now) (detail_of other.now) }
        ensures one { Decides result (self.now ≡ other.now) }
    {
        self == other
    }
}
