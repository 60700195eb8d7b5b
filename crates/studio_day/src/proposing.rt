// One message: made, written, sealed and opened; damaged, it is refused.
use crate::hex::Hex;
use crate::sealing::KEYS;
use crate::tell::tell;
use blocks::block::{Block, Rank};
use blocks::seats::SeatCount;
use content::edit::Edit;
use content::refusal::Refusal;
use rota::robin::RoundRobin;
use seals::house::HouseSeals;
use std::io;
use wire::asking::open;
use wire::maker::make;
use wire::message::Parts;
use wire::writer::{OUTBOX, write};

// The length of a proposal at height 1.
const LENGTH: usize = 38;

// Where its seal begins. The seal is on what stands before, without the first byte.
const SEAL: usize = 30;

// Seat 1 proposes Ana's trim as the log's first entry.
pub fn proposal(rt: &impl Print) -> io::Result<()> {
    println!(rt;
        "Three seats lead in turn. Seat 1 leads view 1, and proposes Ana's trim as the first entry."
    )?;
    tell(rt, "The proposal", sealed(), |message| shown(rt, &message))
}

fn shown(rt: &impl Print, message: &[u8; LENGTH]) -> io::Result<()> {
    println!(rt; "Sealed, the proposal has {LENGTH} bytes: {}", Hex(message))?;
    fields(rt, message)?;
    handed_in(rt, "The proposal", message)?;
    cut_or_longer(rt, message)?;
    replaced(rt, message)
}

// The message of these parts, written to the front of an outbox. Its seal is zeros, for the signing box to fill.
fn write_unsealed(outbox: &mut [u8; OUTBOX]) -> Result<usize, Refusal> {
    let block = Block {
        rank: Rank { view: 1, turn: 0 },
        height: 1,
        parent: Rank { view: 0, turn: 0 },
        content: Edit::Trim(12.5, 1830.0).record()?,
    };
    let seal: &[u8] = &[0; 8];
    let parts = Parts::Proposal {
        block,
        seal,
        parent: None,
    };
    let message = make::<17, 8, Edit>(SeatCount::new(3)?, parts)?;
    write::<17, Edit>(&message, outbox)
}

// The same with its seal: on the tag 1 and the bytes of the block.
fn sealed() -> Result<[u8; LENGTH], Refusal> {
    let mut outbox = [0; OUTBOX];
    write_unsealed(&mut outbox)?;
    let mut message = [0; LENGTH];
    message.copy_from_slice(&outbox[0..LENGTH]);
    let house = HouseSeals::new(&KEYS, 3)?;
    if let Some(seal) = house.sign(1, 1, &message[1..SEAL]) {
        message[SEAL..].copy_from_slice(&seal);
    }
    Ok(message)
}

// Each field with its offset.
fn fields(rt: &impl Print, message: &[u8; LENGTH]) -> io::Result<()> {
    let fields = [
        ("kind", 0, 1),
        ("view", 1, 3),
        ("turn", 3, 5),
        ("height", 5, 9),
        ("parent's view", 9, 11),
        ("parent's turn", 11, 13),
        ("edit", 13, SEAL),
        ("leader's seal", SEAL, LENGTH),
    ];
    for (name, at, end) in fields {
        let bytes = message.get(at..end).unwrap_or_default();
        println!(rt; "  at byte {at}, the {name}: {}", Hex(bytes))?;
    }
    Ok(())
}

// What opening these bytes says.
fn handed_in(rt: &impl Print, what: &str, bytes: &[u8]) -> io::Result<()> {
    tell(rt, what, opened(bytes), |()| {
        println!(rt; "{what} is opened: its fields are lawful and its seal is good.")
    })
}

// Opens a message of a log of three seats that lead in turn, under the house's keys.
fn opened(bytes: &[u8]) -> Result<(), Refusal> {
    let mut house = HouseSeals::new(&KEYS, 3)?;
    let rota = RoundRobin::new(3)?;
    let seats = SeatCount::new(3)?;
    open::<17, 8, Edit, RoundRobin, HouseSeals>(seats, bytes, &rota, &mut house)?;
    Ok(())
}

fn cut_or_longer(rt: &impl Print, message: &[u8; LENGTH]) -> io::Result<()> {
    handed_in(rt, "No byte at all", &[])?;
    handed_in(
        rt,
        "The proposal without its last byte",
        &message[0..LENGTH - 1],
    )?;
    handed_in(rt, "The proposal with a byte behind it", &longer(message))
}

// A message with a zero behind it.
fn longer(message: &[u8; LENGTH]) -> [u8; LENGTH + 1] {
    let mut out = [0; LENGTH + 1];
    out[..LENGTH].copy_from_slice(message);
    out
}

// Each damage is to one byte of the message.
fn replaced(rt: &impl Print, message: &[u8; LENGTH]) -> io::Result<()> {
    let damages = [
        ("The proposal as a message of kind 9", 0, 9),
        ("The proposal with turn 1", 3, 1),
        ("The proposal of an edit with tag 4", 13, 4),
        (
            "The proposal with a bit of its seal turned",
            SEAL,
            message[SEAL] ^ 1,
        ),
        ("The proposal moved to view 2, which seat 2 leads,", 1, 2),
    ];
    for (what, at, byte) in damages {
        handed_in(rt, what, &with(message, at, byte))?;
    }
    Ok(())
}

// A message with another byte in one place.
fn with(message: &[u8; LENGTH], at: usize, byte: u8) -> [u8; LENGTH] {
    let mut other = *message;
    if let Some(place) = other.get_mut(at) {
        *place = byte;
    }
    other
}
