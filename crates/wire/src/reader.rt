// Reading a message: its first byte chooses the layout, then each field is taken off the front of what is left.
ghost use Rattle.std.specs.Prelude.{◌≡◌, ◌+◌, length, IfOk, OnOk};
ghost use Rattle.wire.specs.Kinds.{read_as};
ghost use Rattle.wire.specs.Lawful.{LawfulParts};
ghost use Rattle.wire.specs.Layout.{message_bytes};
ghost use Rattle.wire.specs.Meaning.{taken, taken_by, plain_certificate, plain, plain_body, plainly, meant};
ghost use Rattle.wire.specs.Reading.{Moved, next, peel_rank, peel_content, peel_block, peel_body, ended, is_parent, read_proposal, read_parts};

use crate::cursor::Cursor;
use crate::message::{Certificate, Message, MessageKind, Parts};
use crate::numbers::lawful_numbers;
use blocks::block::{Block, Rank};
use blocks::seats::SeatCount;
use content::kind::Content;
use content::refusal::Refusal;

impl<'a> Cursor<'a> {
    fn rank(&mut self) -> Result<Rank, Refusal>
        ensures value { taken result self.new.rest.now ≡ peel_rank self.old.at self.old.rest.now }
        ensures moved { OnOk result (Moved 4 self.old.at self.old.rest.now self.new.at self.new.rest.now) }
    {
        let view = self.u16()?;
        let turn = self.u16()?;
        Ok(Rank { view, turn })
    }

    fn content<const L: usize, C: Content<L>>(&mut self) -> Result<C::Record, Refusal>
        ensures value { taken result self.new.rest.now ≡ peel_content C.Content.kind self.old.at self.old.rest.now }
        ensures moved { OnOk result (Moved L self.old.at self.old.rest.now self.new.at self.new.rest.now) }
    {
        let none = Refusal::NoContent { at: self.at() };
        C::read(self.take(L)?).ok_or(none)
    }

    // A block; its numbers are judged before its content is read.
    fn block<const L: usize, C: Content<L>>(&mut self) -> Result<Block<C::Record>, Refusal>
        ensures value { taken result self.new.rest.now ≡ peel_block C.Content.kind self.old.at self.old.rest.now }
        ensures moved { OnOk result (Moved (12 + L) self.old.at self.old.rest.now self.new.at self.new.rest.now) }
    {
        let numbers = Refusal::BadLayout { at: self.at() };
        let rank = self.rank()?;
        let height = self.u32()?;
        let parent = self.rank()?;
        if !lawful_numbers(rank, height, parent) {
            return Err(numbers);
        }
        let content = self.content::<L, C>()?;
        Ok(Block {
            rank,
            height,
            parent,
            content,
        })
    }

    // A block, the seats that sealed it and their seals.
    fn certificate<const L: usize, const S: usize, C: Content<L>>(
        &mut self,
        seats: SeatCount,
    ) -> Result<Certificate<C::Record, &'a [u8]>, Refusal>
        ensures value { taken_by plain_certificate result self.new.rest.now ≡ peel_body C.Content.kind S seats.n self.old.at self.old.rest.now }
        ensures end { OnOk result (self.new.at + length self.new.rest.now ≡ self.old.at + length self.old.rest.now) }
    {
        let block = self.block::<L, C>()?;
        let mask = self.mask(seats)?;
        let seals = self.seals::<S>(seats.quorum())?;
        Ok(Certificate { block, mask, seals })
    }

    // A certificate with nothing behind it.
    fn last_certificate<const L: usize, const S: usize, C: Content<L>>(
        &mut self,
        seats: SeatCount,
    ) -> Result<Certificate<C::Record, &'a [u8]>, Refusal>
        ensures { plain_body result ≡ next (peel_body C.Content.kind S seats.n self.old.at self.old.rest.now) (ended (self.old.at + length self.old.rest.now)) }
    {
        let certificate = self.certificate::<L, S, C>(seats)?;
        self.end(certificate)
    }
}

// Whether a certificate is that of the parent which a block names.
pub(crate) fn is_parent<R: Copy, T: Copy>(block: &Block<R>, certificate: &Certificate<R, T>) -> bool
    ensures { result ≡ is_parent block.now certificate.now }
{
    let below = &certificate.block;
    below.rank.same(block.parent) && below.height as u64 + 1 == block.height as u64
}

// Above height 1 a proposal carries the certificate of its parent.
fn read_proposal<'a, const L: usize, const S: usize, C: Content<L>>(
    seats: SeatCount,
    src: &mut Cursor<'a>,
) -> Result<Parts<C::Record, &'a [u8]>, Refusal>
    requires { src.old.at ≡ 1 }
    ensures { plainly result ≡ read_proposal C.Content.kind S seats.n (1 + length src.old.rest.now) src.old.rest.now }
{
    let block = src.block::<L, C>()?;
    let seal = src.take(S)?;
    if block.height == 1 {
        let parent = None;
        return src.end(Parts::Proposal {
            block,
            seal,
            parent,
        });
    }
    let other = Refusal::WrongParent { at: src.at() };
    let parent = src.last_certificate::<L, S, C>(seats)?;
    if !is_parent(&block, &parent) {
        return Err(other);
    }
    let parent = Some(parent);
    Ok(Parts::Proposal {
        block,
        seal,
        parent,
    })
}

// The kind chooses the layout of the rest.
fn read_as<'a, const L: usize, const S: usize, C: Content<L>>(
    seats: SeatCount,
    kind: MessageKind,
    src: &mut Cursor<'a>,
) -> Result<Parts<C::Record, &'a [u8]>, Refusal>
    requires { src.old.at ≡ 1 }
    ensures { plainly result ≡ read_as C.Content.kind S seats.n (1 + length src.old.rest.now) kind src.old.rest.now }
{
    match kind {
        MessageKind::Proposal => read_proposal::<L, S, C>(seats, src),
        MessageKind::Vote => {
            let seat = src.seat(seats)?;
            let block = src.block::<L, C>()?;
            let seal = src.take(S)?;
            src.end(Parts::Vote { seat, block, seal })
        }
        MessageKind::Blame => {
            let seat = src.seat(seats)?;
            let view = src.u16()?;
            let seal = src.take(S)?;
            src.end(Parts::Blame { seat, view, seal })
        }
        MessageKind::Certified => {
            let certificate = src.last_certificate::<L, S, C>(seats)?;
            Ok(Parts::Certified(certificate))
        }
        MessageKind::Notice => {
            let view = src.u16()?;
            let mask = src.mask(seats)?;
            let seals = src.seals::<S>(seats.quorum())?;
            src.end(Parts::Notice { view, mask, seals })
        }
    }
}

fn read_parts<'a, const L: usize, const S: usize, C: Content<L>>(
    seats: SeatCount,
    bytes: &'a [u8],
) -> Result<Parts<C::Record, &'a [u8]>, Refusal>
    ensures value { plainly result ≡ read_parts C.Content.kind S seats.n bytes.now }
    ensures back { IfOk result (λ m. message_bytes C.Content.kind (plain m) ≡ bytes.now) }
    ensures lawful { IfOk result (λ m. LawfulParts C.Content.kind S seats.n (plain m)) }
{
    let mut src = Cursor::of(bytes);
    let kind = MessageKind::try_from(src.u8()?)?;
    read_as::<L, S, C>(seats, kind, &mut src)
}

// Reads a message. Its seals are parts of the bytes, and writing it gives these bytes again.
pub fn read<'a, const L: usize, const S: usize, C: Content<L>>(
    seats: SeatCount,
    bytes: &'a [u8],
) -> Result<Message<'a, C::Record>, Refusal>
    ensures value { meant result ≡ read_parts C.Content.kind S seats.n bytes.now }
    ensures back { IfOk result (λ m. message_bytes C.Content.kind (plain m.parts) ≡ bytes.now) }
    ensures lawful { IfOk result (λ m. LawfulParts C.Content.kind S seats.n (plain m.parts)) }
{
    read_parts::<L, S, C>(seats, bytes).map(Message::of)
}
