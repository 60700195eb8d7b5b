// Messages by their parts. T is how a seal, or a row of seals, is held: a part of the bytes that were read.
ghost use Rattle.std.specs.Prelude.{◌≡◌};
ghost use Rattle.wire.specs.Kinds.{kind_of};

use blocks::block::Block;
use content::refusal::Refusal;

// A block with the seals of f + 1 votes for it: which seats sealed, a bit each, and their seals in a row, by rising seat.
#[derive(Clone, Copy)]
pub struct Certificate<R, T> {
    pub block: Block<R>,
    pub mask: u16,
    pub seals: T,
}

#[derive(Clone, Copy)]
pub enum Parts<R, T> {
    // a block, its leader's seal and, above height 1, its parent's certificate
    Proposal {
        block: Block<R>,
        seal: T,
        parent: Option<Certificate<R, T>>,
    },
    Vote {
        seat: u8,
        block: Block<R>,
        seal: T,
    },
    // a seat's word that a view should end
    Blame {
        seat: u8,
        view: u16,
        seal: T,
    },
    Certified(Certificate<R, T>),
    // the seals of f + 1 blames of a view
    Notice {
        view: u16,
        mask: u16,
        seals: T,
    },
}

// What a message is, by its first byte.
#[derive(Clone, Copy)]
pub(crate) enum MessageKind {
    Proposal = 1,
    Vote = 2,
    Blame = 3,
    Certified = 4,
    Notice = 5,
}

impl TryFrom<u8> for MessageKind {
    type Error = Refusal;

    ghost try_from_gives = { λ byte result. result ≡ kind_of byte };

    fn try_from(byte: u8) -> Result<MessageKind, Refusal> {
        match byte {
            1 => Ok(MessageKind::Proposal),
            2 => Ok(MessageKind::Vote),
            3 => Ok(MessageKind::Blame),
            4 => Ok(MessageKind::Certified),
            5 => Ok(MessageKind::Notice),
            _ => Err(Refusal::UnknownKind),
        }
    }
}

// A message that keeps the layout for its number of seats: only reading and the checked maker give one.
// That its parts are lawful is what those promise, and no invariant: the type names no kind, no number of seats and no seal.
#[derive(Drop)]
pub struct Message<'a, R> {
    parts: Parts<R, &'a [u8]>,
}

impl<'a, R> Message<'a, R> {
    // For what has been judged already.
    pub(crate) fn of(parts: Parts<R, &'a [u8]>) -> Message<'a, R>
        ensures { result.parts ≡ parts.entry }
    {
        Message { parts }
    }

    pub fn parts(&self) -> &Parts<R, &'a [u8]>
        ensures { result.now ≡ self.now.parts }
    {
        &self.parts
    }
}
