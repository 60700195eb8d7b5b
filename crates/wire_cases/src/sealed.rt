// Messages under house seals: opened while every seal is good, refused at the first that is not.
use crate::samples::*;
use blocks::seats::SeatCount;
use content::edit::Edit;
use content::refusal::Refusal;
use rota::robin::RoundRobin;
use seals::house::HouseSeals;
use std::process::Abort;
use std::test::Fail;
use wire::asking::open;

const KEYS: [u8; 48] = [
    1, 2, 3, 4, 5, 6, 7, 8, 9, 10, 11, 12, 13, 14, 15, 16, 21, 22, 23, 24, 25, 26, 27, 28, 29, 30,
    31, 32, 33, 34, 35, 36, 41, 42, 43, 44, 45, 46, 47, 48, 49, 50, 51, 52, 53, 54, 55, 56,
];

// What opening says, under the keys of three seats that lead in turn.
fn opening(bytes: &[u8]) -> Result<(), Refusal> {
    let mut house = HouseSeals::new(&KEYS, 3)?;
    let seats = SeatCount::new(3)?;
    let rota = RoundRobin::new(3)?;
    open::<17, 8, Edit, RoundRobin, HouseSeals>(seats, bytes, &rota, &mut house).map(|_| ())
}

// The seal of a seat on a tag and a part of the message, put in place.
fn seal(
    rt: &impl Abort,
    message: &mut [u8],
    seat: u8,
    tag: u8,
    body: (usize, usize),
    at: usize,
) -> Result<(), Fail> {
    let house = HouseSeals::new(&KEYS, 3)?;
    let (from, to) = body;
    assert!(rt; from <= to && to <= message.len());
    assert!(rt; 8 <= message.len() && at <= message.len() - 8);
    let seal = house.sign(seat, tag, &message[from..to]).ok_or("no key")?;
    message[at..at + 8].copy_from_slice(&seal);
    Ok(())
}

// Turns a bit of the seal at an offset.
fn spoilt<const N: usize>(rt: &impl Abort, message: &[u8; N], at: usize) -> [u8; N] {
    assert!(rt; at < N);
    replaced(rt, message, at, message[at] ^ 1)
}

// View 1 is led by seat 1; the parent has the seals of seats 0 and 2.
#[test]
fn a_proposal_is_asked_about_its_own_seal_and_then_its_parents(
    rt: HostRuntime,
) -> Result<(), Fail> {
    let mut m = PROPOSAL;
    seal(&rt, &mut m, 1, 1, (1, 30), 30)?;
    seal(&rt, &mut m, 0, 2, (38, 67), 69)?;
    assert_eq!(rt; opening(&m), Err(Refusal::BadSeal { seat: 2 }));
    seal(&rt, &mut m, 2, 2, (38, 67), 77)?;
    assert_eq!(rt; opening(&m), Ok(()));
    for (at, seat) in [(37, 1), (69, 0), (84, 2)] {
        assert_eq!(rt;
            opening(&spoilt(&rt, &m, at)),
            Err(Refusal::BadSeal { seat })
        );
    }
    assert_eq!(rt; opening(&PROPOSAL), Err(Refusal::BadSeal { seat: 1 }));
    assert_eq!(rt; opening(&m[0..84]), Err(Refusal::Short { at: 77 }));
    Ok(())
}

#[test]
fn votes_blames_certificates_and_notices_are_asked_about_their_seals(
    rt: HostRuntime,
) -> Result<(), Fail> {
    let mut vote = VOTE;
    seal(&rt, &mut vote, 2, 2, (2, 31), 31)?;
    assert_eq!(rt; opening(&vote), Ok(()));
    assert_eq!(rt; opening(&VOTE), Err(Refusal::BadSeal { seat: 2 }));
    let mut blame = BLAME;
    seal(&rt, &mut blame, 1, 3, (2, 4), 4)?;
    assert_eq!(rt; opening(&blame), Ok(()));
    assert_eq!(rt; opening(&BLAME), Err(Refusal::BadSeal { seat: 1 }));
    let mut certified = CERTIFIED;
    seal(&rt, &mut certified, 0, 2, (1, 30), 32)?;
    assert_eq!(rt; opening(&certified), Err(Refusal::BadSeal { seat: 1 }));
    seal(&rt, &mut certified, 1, 2, (1, 30), 40)?;
    assert_eq!(rt; opening(&certified), Ok(()));
    let mut notice = NOTICE;
    seal(&rt, &mut notice, 1, 3, (1, 3), 5)?;
    seal(&rt, &mut notice, 2, 3, (1, 3), 13)?;
    assert_eq!(rt; opening(&notice), Ok(()));
    assert_eq!(rt; opening(&NOTICE), Err(Refusal::BadSeal { seat: 1 }));
    Ok(())
}
