// What reading says to messages that are cut short, run on, or have one byte replaced.
use crate::samples::*;
use content::refusal::Refusal;
use std::process::Abort;

// Where the fields of a message begin: cut anywhere in a field, it is that field which is short.
fn cut_everywhere(rt: &impl Abort, message: &[u8], fields: &[usize]) {
    for len in 0..message.len() {
        let begun = fields.iter().copied().filter(|start| *start <= len);
        let at = begun.last().unwrap_or(0);
        assert_eq!(rt; reading(&message[0..len]), Err(Refusal::Short { at }));
    }
    assert_eq!(rt; reading(message), Ok(()));
}

#[test]
fn a_cut_message_is_short_where_its_field_begins(rt: HostRuntime) {
    cut_everywhere(
        &rt,
        &PROPOSAL,
        &[1, 3, 5, 9, 11, 13, 30, 38, 40, 42, 46, 48, 50, 67, 69, 77],
    );
    cut_everywhere(&rt, &FIRST_PROPOSAL, &[1, 3, 5, 9, 11, 13, 30]);
    cut_everywhere(&rt, &VOTE, &[1, 2, 4, 6, 10, 12, 14, 31]);
    cut_everywhere(&rt, &BLAME, &[1, 2, 4]);
    cut_everywhere(&rt, &CERTIFIED, &[1, 3, 5, 9, 11, 13, 30, 32, 40]);
    cut_everywhere(&rt, &NOTICE, &[1, 3, 5, 13]);
}

#[test]
fn a_message_ends_with_its_last_field(rt: HostRuntime) {
    assert_eq!(rt; reading(&[]), Err(Refusal::Short { at: 0 }));
    for kind in [0, 6, 9, 255] {
        assert_eq!(rt; reading(&[kind]), Err(Refusal::UnknownKind));
    }
    runs_on(&rt, &PROPOSAL, 86);
    runs_on(&rt, &FIRST_PROPOSAL, 96);
    runs_on(&rt, &BLAME, 13);
}

// With zeros behind it, up to a length, a message is refused where it ends.
fn runs_on(rt: &impl Abort, message: &[u8], len: usize) {
    let end = message.len();
    assert!(rt; end <= len && len <= 96);
    let mut longer = [0; 96];
    longer[0..end].copy_from_slice(message);
    assert_eq!(rt;
        reading(&longer[0..len]),
        Err(Refusal::Trailing { at: end })
    );
}

// Each line replaces one byte: its offset, the byte, and what reading then says.
fn damage<const N: usize>(rt: &impl Abort, message: &[u8; N], lines: &[(usize, u8, Refusal)]) {
    for (at, byte, refusal) in lines {
        let damaged = replaced(rt, message, *at, *byte);
        assert_eq!(rt; reading(&damaged), Err(*refusal));
    }
}

const BLOCK: Refusal = Refusal::BadLayout { at: 1 };

const PARENT: Refusal = Refusal::BadLayout { at: 38 };

const NOT_PARENT: Refusal = Refusal::WrongParent { at: 38 };

#[test]
fn a_proposal_with_a_damaged_number_is_refused(rt: HostRuntime) {
    damage(
        &rt,
        &PROPOSAL,
        &[
            (1, 2, BLOCK),
            (2, 1, BLOCK),
            (3, 0, BLOCK),
            (3, 2, BLOCK),
            (4, 1, BLOCK),
            (5, 0, BLOCK),
            (5, 1, BLOCK),
            (5, 3, NOT_PARENT),
            (8, 1, NOT_PARENT),
            (9, 0, BLOCK),
            (10, 1, BLOCK),
            (11, 1, BLOCK),
            (12, 1, BLOCK),
            (13, 4, Refusal::NoContent { at: 13 }),
            (29, 1, Refusal::NoContent { at: 13 }),
        ],
    );
}

#[test]
fn a_proposal_with_a_damaged_parent_is_refused(rt: HostRuntime) {
    damage(
        &rt,
        &PROPOSAL,
        &[
            (38, 2, NOT_PARENT),
            (39, 1, NOT_PARENT),
            (40, 1, PARENT),
            (41, 1, PARENT),
            (42, 0, PARENT),
            (42, 2, NOT_PARENT),
            (45, 1, NOT_PARENT),
            (46, 1, PARENT),
            (47, 1, PARENT),
            (48, 1, PARENT),
            (49, 1, PARENT),
            (50, 9, Refusal::NoContent { at: 50 }),
            (68, 1, Refusal::BadLayout { at: 67 }),
        ],
    );
}

#[test]
fn votes_and_blames_are_of_seats_below_three(rt: HostRuntime) {
    let seat = Refusal::BadLayout { at: 1 };
    let block = Refusal::BadLayout { at: 2 };
    damage(
        &rt,
        &VOTE,
        &[
            (1, 3, seat),
            (1, 255, seat),
            (2, 0, block),
            (4, 0, block),
            (6, 0, block),
        ],
    );
    damage(
        &rt,
        &VOTE,
        &[
            (10, 2, block),
            (12, 1, block),
            (14, 7, Refusal::NoContent { at: 14 }),
        ],
    );
    damage(&rt, &BLAME, &[(1, 3, seat), (0, 0, Refusal::UnknownKind)]);
}

// Of three seats a quorum is two.
#[test]
fn masks_are_of_exactly_a_quorum_of_seats(rt: HostRuntime) {
    for mask in [3, 5, 6] {
        let good = replaced(&rt, &NOTICE, 3, mask);
        assert_eq!(rt; reading(&good), Ok(()));
    }
    let bad = Refusal::BadLayout { at: 3 };
    damage(
        &rt,
        &NOTICE,
        &[
            (3, 0, bad),
            (3, 1, bad),
            (3, 7, bad),
            (3, 12, bad),
            (3, 9, bad),
            (4, 1, bad),
        ],
    );
    damage(
        &rt,
        &CERTIFIED,
        &[
            (30, 7, Refusal::BadLayout { at: 30 }),
            (1, 0, Refusal::BadLayout { at: 1 }),
        ],
    );
}

// Damaged twice, a message is refused for what is judged first.
#[test]
fn numbers_are_judged_before_content_and_masks_before_seals(rt: HostRuntime) {
    let twice = replaced(&rt, &replaced(&rt, &VOTE, 14, 9), 6, 0);
    assert_eq!(rt; reading(&twice), Err(Refusal::BadLayout { at: 2 }));
    assert_eq!(rt; reading(&twice[0..20]), Err(Refusal::BadLayout { at: 2 }));
    let mask = replaced(&rt, &NOTICE, 3, 7);
    assert_eq!(rt; reading(&mask[0..5]), Err(Refusal::BadLayout { at: 3 }));
    runs_on(&rt, &replaced(&rt, &PROPOSAL, 5, 3), 86);
}
