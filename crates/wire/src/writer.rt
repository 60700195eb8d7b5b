// Writing a message into memory, field after field.
ghost use Rattle.std.specs.Prelude.{◌≡◌, ◌+◌, ◌^◌, ◌<◌, ◌≤◌, length};
ghost use Rattle.wire.specs.Layout.{block_bytes, body_bytes, message_bytes};
ghost use Rattle.wire.specs.Meaning.{plain, plain_parent, plain_certificate};
ghost use Rattle.wire.specs.declared.message.Parts.TheVariants.{Proposal};
ghost use Rattle.wire.specs.Writing.{Put, SameMemory, body_size, parent_size, message_size, write_end, write_out, outbox_end, outbox_out};

use crate::message::{Certificate, Message, MessageKind, Parts};
use blocks::block::Block;
use content::kind::Content;
use content::refusal::Refusal;

// Memory that is written field after field. It is lent whole, so an offset in it says where writing goes on;
// that it stays the same memory is no fact of one pen but of the one before and the one after, so each method says it.
#[derive(Drop)]
struct Pen<'a> {
    out: &'a mut [u8],
    at: usize,
}

impl Pen<'_> {
    fn put(&mut self, bytes: &[u8])
        requires { self.old.at + length bytes.now ≤ length self.old.out.now }
        ensures memory { SameMemory self.old.out self.new.out }
        ensures bytes { Put self.old.out.now self.old.at bytes.now self.new.out.now self.new.at }
    {
        let end = self.at + bytes.len();
        self.out[self.at..end].copy_from_slice(bytes);
        self.at = end;
    }

    fn block<const L: usize, C: Content<L>>(&mut self, block: &Block<C::Record>)
        requires { self.old.at + 12 + L ≤ length self.old.out.now }
        ensures memory { SameMemory self.old.out self.new.out }
        ensures bytes { Put self.old.out.now self.old.at (block_bytes C.Content.kind block.now) self.new.out.now self.new.at }
        ensures size { self.new.at ≡ self.old.at + 12 + L }
    {
        self.put(&block.rank.view.to_le_bytes());
        self.put(&block.rank.turn.to_le_bytes());
        self.put(&block.height.to_le_bytes());
        self.put(&block.parent.view.to_le_bytes());
        self.put(&block.parent.turn.to_le_bytes());
        self.put(&C::bytes(&block.content));
    }

    fn body<const L: usize, C: Content<L>>(&mut self, c: &Certificate<C::Record, &[u8]>)
        requires { self.old.at + body_size L (plain_certificate c.now) ≤ length self.old.out.now }
        ensures memory { SameMemory self.old.out self.new.out }
        ensures bytes { Put self.old.out.now self.old.at (body_bytes C.Content.kind (plain_certificate c.now)) self.new.out.now self.new.at }
        ensures size { self.new.at ≡ self.old.at + body_size L (plain_certificate c.now) }
    {
        self.block::<L, C>(&c.block);
        self.put(&c.mask.to_le_bytes());
        self.put(c.seals);
    }

    fn proposal<const L: usize, C: Content<L>>(
        &mut self,
        block: &Block<C::Record>,
        seal: &[u8],
        parent: &Option<Certificate<C::Record, &[u8]>>,
    )
        requires { self.old.at + 13 + L + length seal.now + parent_size L (plain_parent parent.now) ≤ length self.old.out.now }
        ensures memory { SameMemory self.old.out self.new.out }
        ensures bytes { Put self.old.out.now self.old.at (message_bytes C.Content.kind (Proposal block.now seal.now (plain_parent parent.now))) self.new.out.now self.new.at }
        ensures size { self.new.at ≡ self.old.at + 13 + L + length seal.now + parent_size L (plain_parent parent.now) }
    {
        self.put(&[MessageKind::Proposal as u8]);
        self.block::<L, C>(block);
        self.put(seal);
        if let Some(c) = parent {
            self.body::<L, C>(c);
        }
    }

    fn parts<const L: usize, C: Content<L>>(&mut self, parts: &Parts<C::Record, &[u8]>)
        requires { self.old.at + message_size L (plain parts.now) ≤ length self.old.out.now }
        ensures memory { SameMemory self.old.out self.new.out }
        ensures bytes { Put self.old.out.now self.old.at (message_bytes C.Content.kind (plain parts.now)) self.new.out.now self.new.at }
        ensures size { self.new.at ≡ self.old.at + message_size L (plain parts.now) }
    {
        match parts {
            Parts::Proposal {
                block,
                seal,
                parent,
            } => {
                self.proposal::<L, C>(block, seal, parent);
            }
            Parts::Vote { seat, block, seal } => {
                self.put(&[MessageKind::Vote as u8, *seat]);
                self.block::<L, C>(block);
                self.put(seal);
            }
            Parts::Blame { seat, view, seal } => {
                self.put(&[MessageKind::Blame as u8, *seat]);
                self.put(&view.to_le_bytes());
                self.put(seal);
            }
            Parts::Certified(c) => {
                self.put(&[MessageKind::Certified as u8]);
                self.body::<L, C>(c);
            }
            Parts::Notice { view, mask, seals } => {
                self.put(&[MessageKind::Notice as u8]);
                self.put(&view.to_le_bytes());
                self.put(&mask.to_le_bytes());
                self.put(seals);
            }
        }
    }
}

fn body_size<const L: usize, R>(c: &Certificate<R, &[u8]>) -> u128
    ensures is { result ≡ body_size L (plain_certificate c.now) }
    ensures small { result < 2 ^ 66 }
{
    14 + L as u128 + c.seals.len() as u128
}

fn parent_size<const L: usize, R>(parent: &Option<Certificate<R, &[u8]>>) -> u128
    ensures is { result ≡ parent_size L (plain_parent parent.now) }
    ensures small { result < 2 ^ 66 }
{
    // a match, since the check finds no proof of map_or by itself
    match parent {
        None => 0,
        Some(c) => body_size::<L, R>(c),
    }
}

// The length of a message. It may pass what an offset can hold, so it is a wider number.
fn size<const L: usize, R>(parts: &Parts<R, &[u8]>) -> u128
    ensures is { result ≡ message_size L (plain parts.now) }
    ensures small { result < 2 ^ 67 }
{
    match parts {
        Parts::Proposal { seal, parent, .. } => {
            13 + L as u128 + seal.len() as u128 + parent_size::<L, R>(parent)
        }
        Parts::Vote { seal, .. } => 14 + L as u128 + seal.len() as u128,
        Parts::Blame { seal, .. } => 4 + seal.len() as u128,
        Parts::Certified(c) => 1 + body_size::<L, R>(c),
        Parts::Notice { seals, .. } => 5 + seals.len() as u128,
    }
}

// Writes a message into memory from an offset on, and answers the offset behind it. Without room, nothing is written.
pub fn write_parts<const L: usize, C: Content<L>>(
    parts: &Parts<C::Record, &[u8]>,
    out: &mut [u8],
    at: usize,
) -> Result<usize, Refusal>
    ensures answer { result ≡ write_end C.Content.kind out.old at (plain parts.now) }
    ensures bytes { out.new ≡ write_out C.Content.kind out.old at (plain parts.now) }
{
    if at as u128 + size::<L, C::Record>(parts) > out.len() as u128 {
        return Err(Refusal::SmallOutbox);
    }
    let mut pen = Pen { out, at };
    pen.parts::<L, C>(parts);
    Ok(pen.at)
}

// How much memory there has to be to write a message into.
pub const OUTBOX: usize = 1024;

// Writes a message to the front of an outbox, and answers its length.
pub fn write<const L: usize, C: Content<L>>(
    message: &Message<'_, C::Record>,
    out: &mut [u8],
) -> Result<usize, Refusal>
    ensures answer { result ≡ outbox_end C.Content.kind out.old (plain message.now.parts) }
    ensures bytes { out.new ≡ outbox_out C.Content.kind out.old (plain message.now.parts) }
{
    if out.len() < OUTBOX {
        return Err(Refusal::SmallOutbox);
    }
    write_parts::<L, C>(message.parts(), out, 0)
}
