// Seals that are made, checked, and refused once anything is changed.
ghost use Rattle.std.specs.Prelude.{◌/◌, ◌<◌};

use crate::vectors::rising_bytes;
use content::refusal::Refusal;
use seals::asked::{Question, ask, same_in_any_order};
use seals::check::SealCheck;
use seals::house::HouseSeals;
use seals::roll::{Roll, RollLine};
use std::test::Fail;

const BODY: [u8; 12] = [1, 0, 2, 0, 9, 0, 0, 0, 1, 0, 1, 0];

#[test]
fn a_house_seal_stands_until_one_bit_is_turned(rt: HostRuntime) -> Result<(), Fail> {
    let keys = rising_bytes();
    let mut house = HouseSeals::new(&keys[0..48], 3)?;
    let seal = house.sign(1, 2, &BODY).ok_or("no key")?;
    assert!(rt; house.check(1, 2, &BODY, &seal));
    for bit in 0..64 {
        assert!(rt; !house.check(1, 2, &BODY, &turned(seal, bit)));
    }
    for bit in 0..96 {
        assert!(rt; !house.check(1, 2, &turned(BODY, bit), &seal));
    }
    Ok(())
}

// The same bytes with one bit turned.
fn turned<const N: usize>(mut bytes: [u8; N], bit: usize) -> [u8; N]
    requires { bit / 8 < N }
{
    bytes[bit / 8] ^= 1 << (bit % 8);
    bytes
}

#[test]
fn a_house_seal_is_of_one_seat_tag_and_length(rt: HostRuntime) -> Result<(), Fail> {
    let keys = rising_bytes();
    let mut house = HouseSeals::new(&keys[0..48], 3)?;
    let seal = house.sign(1, 2, &BODY).ok_or("no key")?;
    assert!(rt; !house.check(0, 2, &BODY, &seal));
    assert!(rt; !house.check(1, 1, &BODY, &seal));
    assert!(rt; !house.check(1, 2, &BODY, &seal[0..7]));
    assert!(rt; !house.check(1, 2, &BODY, &[]));
    assert!(rt; !house.check(3, 2, &BODY, &seal));
    assert!(rt; house.sign(3, 2, &BODY).is_none());
    assert!(rt; house.sign(255, 2, &BODY).is_none());
    Ok(())
}

#[test]
fn a_row_of_keys_is_sixteen_bytes_a_seat(rt: HostRuntime) {
    let keys = rising_bytes();
    for (len, n) in [(47, 3), (49, 3), (48, 5), (64, 4), (16, 1), (0, 0)] {
        assert_eq!(rt;
            HouseSeals::new(&keys[..len], n).err(),
            Some(Refusal::OutOfLimits)
        );
    }
}

#[test]
fn the_roll_says_yes_to_its_lines_alone(rt: HostRuntime) {
    let lines = [
        RollLine::new(0, &[3, 7, 0], [1, 2, 3, 4, 5, 6, 7, 8]),
        RollLine::new(2, &[], [9; 8]),
    ];
    let mut roll = Roll::new(&lines);
    assert!(rt; roll.check(0, 3, &[7, 0], &[1, 2, 3, 4, 5, 6, 7, 8]));
    assert!(rt; !roll.check(1, 3, &[7, 0], &[1, 2, 3, 4, 5, 6, 7, 8]));
    assert!(rt; !roll.check(0, 3, &[7], &[1, 2, 3, 4, 5, 6, 7, 8]));
    assert!(rt; !roll.check(0, 2, &[7, 0], &[1, 2, 3, 4, 5, 6, 7, 8]));
    assert!(rt; !roll.check(0, 3, &[7, 0], &[1, 2, 3, 4, 5, 6, 7]));
    assert!(rt; !roll.check(2, 0, &[], &[9; 8]));
}

#[test]
fn an_empty_roll_says_no(rt: HostRuntime) {
    assert!(rt; !Roll::new(&[]).check(0, 3, &[7, 0], &[1; 8]));
}

#[test]
fn the_order_of_the_questions_is_free(rt: HostRuntime) -> Result<(), Fail> {
    let keys = rising_bytes();
    let mut house = HouseSeals::new(&keys[0..48], 3)?;
    let seal = house.sign(1, 2, &BODY).ok_or("no key")?;
    let good = Question {
        seat: 1,
        tag: 2,
        body: &BODY,
        seal: &seal,
    };
    let bad = Question { seat: 2, ..good };
    assert!(rt; same_in_any_order(&mut house, good, bad));
    assert!(rt; ask(&mut house, good));
    assert!(rt; !ask(&mut house, bad));
    Ok(())
}
