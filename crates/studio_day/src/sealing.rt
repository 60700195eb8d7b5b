// Seals of the house: made by its signing box, checked, and refused once a bit is turned.
use crate::hex::Hex;
use crate::tell::tell;
use seals::check::SealCheck;
use seals::house::HouseSeals;
use std::io;

// A key of 16 bytes for each of three seats. Keys of a real house are secret.
pub const KEYS: [u8; 48] = *b"Ana's first key.Ben's other key.Cleo, third key.";

// A statement that view 7 should end: the tag 3, and the view in two bytes.
const BLAME: u8 = 3;

const VIEW: [u8; 2] = [7, 0];

// Seat 1 has its blame of view 7 sealed.
pub fn blame(rt: &impl Print) -> io::Result<()> {
    println!(rt; "Seat 1 states that view 7 should end: 03{}", Hex(&VIEW))?;
    tell(rt, "The row of keys", HouseSeals::new(&KEYS, 3), |house| {
        signed(rt, house)
    })
}

fn signed(rt: &impl Print, mut house: HouseSeals) -> io::Result<()> {
    let Some(seal) = house.sign(1, BLAME, &VIEW) else {
        return println!(rt; "The signing box has no key for seat 1.");
    };
    println!(rt; "The signing box seals it: {}", Hex(&seal))?;
    checked(
        rt,
        "the seal of seat 1",
        house.check(1, BLAME, &VIEW, &seal),
    )?;
    checked(
        rt,
        "the same bytes as a seal of seat 2",
        house.check(2, BLAME, &VIEW, &seal),
    )?;
    let mut turned = seal;
    turned[0] ^= 1;
    println!(rt; "With one bit turned it is {}", Hex(&turned))?;
    checked(rt, "the turned seal", house.check(1, BLAME, &VIEW, &turned))
}

fn checked(rt: &impl Print, what: &str, good: bool) -> io::Result<()> {
    let word = if good { "yes" } else { "no" };
    println!(rt; "To {what} the check says {word}.")
}
