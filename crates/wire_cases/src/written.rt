// What is written of messages that were read or made, and of seals kept by seat.
use crate::samples::*;
use blocks::rows::SealRow;
use blocks::seats::SeatCount;
use content::edit::Edit;
use content::refusal::Refusal;
use std::process::Abort;
use std::test::Fail;
use wire::maker::make;
use wire::message::Parts;
use wire::reader::read;
use wire::writer::write;

// Reads a message, writes it, and compares; the memory behind it stays.
fn written_again(rt: &impl Abort, bytes: &[u8]) -> Result<(), Fail> {
    let message = read::<17, 8, Edit>(SeatCount::new(3)?, bytes)?;
    let mut out = [255; 1024];
    let len = write::<17, Edit>(&message, &mut out)?;
    assert!(rt; len < 1024);
    assert!(rt; &out[0..len] == bytes);
    assert!(rt; out[len] == 255);
    Ok(())
}

#[test]
fn every_message_is_written_as_it_was_read(rt: HostRuntime) -> Result<(), Fail> {
    let messages = [
        &PROPOSAL[..],
        &FIRST_PROPOSAL[..],
        &VOTE[..],
        &BLAME[..],
        &CERTIFIED[..],
        &NOTICE[..],
    ];
    for message in messages {
        written_again(&rt, message)?;
    }
    Ok(())
}

#[test]
fn an_outbox_has_1024_bytes(rt: HostRuntime) -> Result<(), Fail> {
    let message = read::<17, 8, Edit>(SeatCount::new(3)?, &BLAME)?;
    let mut small = [0; 1023];
    assert_eq!(rt;
        write::<17, Edit>(&message, &mut small),
        Err(Refusal::SmallOutbox)
    );
    assert!(rt; small == [0; 1023]);
    Ok(())
}

// What making a blame for three seats says.
fn blaming(seat: u8, seal: &[u8]) -> Result<(), Refusal> {
    let parts = Parts::Blame {
        seat,
        view: 263,
        seal,
    };
    make::<17, 8, Edit>(SeatCount::new(3)?, parts).map(|_| ())
}

#[test]
fn a_blame_is_made_of_a_seat_below_three_and_a_seal_of_eight_bytes(rt: HostRuntime) {
    assert_eq!(rt; blaming(2, &[0; 8]), Ok(()));
    assert_eq!(rt; blaming(3, &[0; 8]), Err(Refusal::BadLayout { at: 1 }));
    assert_eq!(rt; blaming(3, &[0; 7]), Err(Refusal::BadLayout { at: 1 }));
    assert_eq!(rt; blaming(2, &[0; 7]), Err(Refusal::BadLayout { at: 4 }));
    assert_eq!(rt; blaming(2, &[0; 9]), Err(Refusal::BadLayout { at: 4 }));
}

#[test]
fn seals_lie_in_a_row_by_rising_seat(rt: HostRuntime) {
    let mut votes = SealRow::<2>::empty();
    votes.keep(14, &[5, 6]);
    votes.keep(0, &[1, 2]);
    votes.keep(3, &[3, 4]);
    votes.keep(2, &[9]);
    votes.keep(15, &[9, 9]);
    assert_eq!(rt; votes.count(), 3);
    assert_eq!(rt; votes.mask(), 0b100_0000_0000_1001);
    assert!(rt; votes.has(14) && !votes.has(2) && !votes.has(15));
    let row = votes.row();
    assert!(rt; row[0..8] == [1, 2, 3, 4, 5, 6, 0, 0]);
}
