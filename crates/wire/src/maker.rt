// Making a message of its parts: they are judged in the order in which they would lie, and refused as reading would.
ghost use Rattle.std.specs.Prelude.{◌≡◌, ◌+◌, ◌^◌, ◌<◌, Bool, IfOk, Ok, Decides, OnOk};
ghost use Rattle.content.specs.Kinds.{Lawful};
ghost use Rattle.wire.specs.Lawful.{TwoBytes, LawfulBlock, LawfulRow, LawfulBody, LawfulParent, LawfulParts};
ghost use Rattle.wire.specs.Layout.{message_bytes};
ghost use Rattle.wire.specs.Making.{ok_if, judge_block, judge_row, judge_body, judge_parent, judge_parts, ParentFits, PartsFit, verdict};
ghost use Rattle.wire.specs.Meaning.{plain, plain_parent, plain_certificate};
ghost use Rattle.wire.specs.Reading.{read_parts};

use crate::message::{Certificate, Message, Parts};
use crate::numbers::lawful_numbers;
use crate::reader::is_parent;
use blocks::block::Block;
use blocks::masks::lawful_mask;
use blocks::seats::SeatCount;
use content::kind::Content;
use content::refusal::Refusal;

fn ok_if(test: bool, refusal: Refusal) -> Result<(), Refusal>
    ensures { result ≡ ok_if test refusal }
{
    if test { Ok(()) } else { Err(refusal) }
}

// A view lies in two bytes: known of a number that is passed by itself, and not of one behind a reference.
fn held(view: u16)
    ensures { TwoBytes view }
{}

fn judge_block<const L: usize, C: Content<L>>(
    block: &Block<C::Record>,
    at: usize,
) -> Result<(), Refusal>
    requires { at + 12 < 2 ^ 64 }
    ensures answer { (fits : Bool) → Decides fits (Lawful C.Content.kind block.now.content) → result ≡ judge_block fits at block.now }
    ensures lawful { OnOk result (LawfulBlock C.Content.kind block.now) }
{
    ok_if(
        lawful_numbers(block.rank, block.height, block.parent),
        Refusal::BadLayout { at },
    )?;
    ok_if(
        C::lawful(&block.content),
        Refusal::NoContent { at: at + 12 },
    )
}

// The seats and the offset are handed on as they are: a struct of the two would be made anew at every offset.
fn judge_row<const S: usize>(
    seats: SeatCount,
    mask: u16,
    seals: &[u8],
    at: usize,
) -> Result<(), Refusal>
    requires { at + 2 < 2 ^ 64 }
    ensures answer { result ≡ judge_row S seats.n at mask seals.now }
    ensures lawful { OnOk result (LawfulRow S seats.n mask seals.now) }
{
    ok_if(lawful_mask(seats, mask), Refusal::BadLayout { at })?;
    let size = seats.quorum() as u128 * S as u128;
    ok_if(
        seals.len() as u128 == size,
        Refusal::BadLayout { at: at + 2 },
    )
}

fn judge_body<const L: usize, const S: usize, C: Content<L>>(
    seats: SeatCount,
    c: &Certificate<C::Record, &[u8]>,
    at: usize,
) -> Result<(), Refusal>
    requires { at + 14 + L < 2 ^ 64 }
    ensures answer { (fits : Bool) → Decides fits (Lawful C.Content.kind c.now.block.content) → result ≡ judge_body L S seats.n fits at (plain_certificate c.now) }
    ensures lawful { OnOk result (LawfulBody C.Content.kind S seats.n (plain_certificate c.now)) }
{
    judge_block::<L, C>(&c.block, at)?;
    judge_row::<S>(seats, c.mask, c.seals, at + 12 + L)
}

// Above height 1, and only there, the certificate of the parent that the block names.
fn judge_parent<const L: usize, const S: usize, C: Content<L>>(
    seats: SeatCount,
    block: &Block<C::Record>,
    parent: &Option<Certificate<C::Record, &[u8]>>,
    at: usize,
) -> Result<(), Refusal>
    requires { at + 14 + L < 2 ^ 64 }
    ensures answer { (below : Bool) → ParentFits C.Content.kind (plain_parent parent.now) below → result ≡ judge_parent L S seats.n below at block.now (plain_parent parent.now) }
    ensures lawful { OnOk result (LawfulParent C.Content.kind S seats.n block.now (plain_parent parent.now)) }
{
    match parent {
        None => ok_if(block.height == 1, Refusal::WrongParent { at }),
        Some(c) => {
            ok_if(block.height != 1, Refusal::WrongParent { at })?;
            judge_body::<L, S, C>(seats, c, at)?;
            ok_if(is_parent(block, c), Refusal::WrongParent { at })
        }
    }
}

fn judge_parts<const L: usize, const S: usize, C: Content<L>>(
    seats: SeatCount,
    parts: &Parts<C::Record, &[u8]>,
) -> Result<(), Refusal>
    ensures answer { (fits below : Bool) → PartsFit C.Content.kind (plain parts.now) fits below → result ≡ judge_parts L S seats.n fits below (plain parts.now) }
    ensures lawful { OnOk result (LawfulParts C.Content.kind S seats.n (plain parts.now)) }
{
    match parts {
        Parts::Proposal {
            block,
            seal,
            parent,
        } => {
            judge_block::<L, C>(block, 1)?;
            ok_if(seal.len() == S, Refusal::BadLayout { at: 13 + L })?;
            judge_parent::<L, S, C>(seats, block, parent, 13 + L + seal.len())
        }
        Parts::Vote { seat, block, seal } => {
            ok_if(*seat < seats.get(), Refusal::BadLayout { at: 1 })?;
            judge_block::<L, C>(block, 2)?;
            ok_if(seal.len() == S, Refusal::BadLayout { at: 14 + L })
        }
        Parts::Blame { seat, view, seal } => {
            held(*view);
            ok_if(*seat < seats.get(), Refusal::BadLayout { at: 1 })?;
            ok_if(seal.len() == S, Refusal::BadLayout { at: 4 })
        }
        Parts::Certified(c) => judge_body::<L, S, C>(seats, c, 1),
        Parts::Notice { view, mask, seals } => {
            held(*view);
            judge_row::<S>(seats, *mask, seals, 3)
        }
    }
}

// Makes a message of its parts, if they keep the layout. Reading what is written of it gives it back unchanged.
pub fn make<'a, const L: usize, const S: usize, C: Content<L>>(
    seats: SeatCount,
    parts: Parts<C::Record, &'a [u8]>,
) -> Result<Message<'a, C::Record>, Refusal>
    ensures answer { (fits below : Bool) → PartsFit C.Content.kind (plain parts.entry) fits below → verdict result ≡ judge_parts L S seats.n fits below (plain parts.entry) }
    ensures same { IfOk result (λ m. m.parts ≡ parts.entry) }
    ensures lawful { IfOk result (λ m. LawfulParts C.Content.kind S seats.n (plain m.parts)) }
    ensures returns { IfOk result (λ m. read_parts C.Content.kind S seats.n (message_bytes C.Content.kind (plain m.parts)) ≡ Ok (plain m.parts)) }
{
    judge_parts::<L, S, C>(seats, &parts)?;
    Ok(Message::of(parts))
}
