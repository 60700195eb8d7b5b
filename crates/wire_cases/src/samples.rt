// One message of every kind, for a log of three seats whose entries are edits. Their seals are all zeros.
use blocks::seats::SeatCount;
use content::edit::Edit;
use content::refusal::Refusal;
use std::process::Abort;
use wire::reader::read;

// In view 1: the block of turn 1 and height 2 on that of turn 0 and height 1, an undo on a save.
pub const PROPOSAL: [u8; 85] = [
    1, 1, 0, 1, 0, 2, 0, 0, 0, 1, 0, 0, 0, 2, 0, 0, 0, 0, 0, 0, 0, 0, 0, 0, 0, 0, 0, 0, 0, 0, 0, 0,
    0, 0, 0, 0, 0, 0, 1, 0, 0, 0, 1, 0, 0, 0, 0, 0, 0, 0, 3, 0, 0, 0, 0, 0, 0, 0, 0, 0, 0, 0, 0, 0,
    0, 0, 0, 5, 0, 0, 0, 0, 0, 0, 0, 0, 0, 0, 0, 0, 0, 0, 0, 0, 0,
];

pub const FIRST_PROPOSAL: [u8; 38] = [
    1, 1, 0, 0, 0, 1, 0, 0, 0, 0, 0, 0, 0, 3, 0, 0, 0, 0, 0, 0, 0, 0, 0, 0, 0, 0, 0, 0, 0, 0, 0, 0,
    0, 0, 0, 0, 0, 0,
];

pub const VOTE: [u8; 39] = [
    2, 2, 1, 0, 1, 0, 2, 0, 0, 0, 1, 0, 0, 0, 2, 0, 0, 0, 0, 0, 0, 0, 0, 0, 0, 0, 0, 0, 0, 0, 0, 0,
    0, 0, 0, 0, 0, 0, 0,
];

pub const BLAME: [u8; 12] = [3, 1, 7, 1, 0, 0, 0, 0, 0, 0, 0, 0];

pub const CERTIFIED: [u8; 48] = [
    4, 1, 0, 1, 0, 2, 0, 0, 0, 1, 0, 0, 0, 2, 0, 0, 0, 0, 0, 0, 0, 0, 0, 0, 0, 0, 0, 0, 0, 0, 3, 0,
    0, 0, 0, 0, 0, 0, 0, 0, 0, 0, 0, 0, 0, 0, 0, 0,
];

pub const NOTICE: [u8; 21] = [
    5, 7, 1, 6, 0, 0, 0, 0, 0, 0, 0, 0, 0, 0, 0, 0, 0, 0, 0, 0, 0,
];

// What reading for three seats says.
pub fn reading(bytes: &[u8]) -> Result<(), Refusal> {
    read::<17, 8, Edit>(SeatCount::new(3)?, bytes).map(|_| ())
}

// A message with one byte replaced.
pub fn replaced<const N: usize>(
    rt: &impl Abort,
    message: &[u8; N],
    at: usize,
    byte: u8,
) -> [u8; N] {
    assert!(rt; at < N);
    let mut out = *message;
    out[at] = byte;
    out
}
