// Edits at every bound.
use content::edit::Edit;
use content::kind::{Content, copy_content};
use content::refusal::Refusal;
use std::num::f64_from_bits_with_nan;
use std::process::Abort;
use std::test::Fail;

// the bits just past a bound, and of numbers that are none
const PAST_DAY: u64 = 0x40f5_1800_0000_0001;

const PAST_LOUDEST: u64 = 0x4028_0000_0000_0001;

const PAST_QUIETEST: u64 = 0xc04e_0000_0000_0001;

const MINUS_ZERO: u64 = 0x8000_0000_0000_0000;

const TINIEST: u64 = 1;

const MINUS_TINIEST: u64 = 0x8000_0000_0000_0001;

const INFINITY: u64 = 0x7ff0_0000_0000_0000;

const MINUS_INFINITY: u64 = 0xfff0_0000_0000_0000;

const QUIET_NAN: u64 = 0x7ff8_0000_0000_0000;

const MINUS_NAN: u64 = 0xfff8_0000_0000_0001;

// The bytes of a tag and two numbers.
fn bytes(tag: u8, first: u64, second: u64) -> [u8; 17] {
    let mut out = [0; 17];
    out[0] = tag;
    out[1..9].copy_from_slice(&first.to_le_bytes());
    out[9..17].copy_from_slice(&second.to_le_bytes());
    out
}

// Reading the bytes gives an edit, whose bytes are these again.
fn stands(rt: &impl Abort, tag: u8, first: u64, second: u64) -> Result<(), Fail> {
    let src = bytes(tag, first, second);
    let mut out = [0xff; 20];
    assert_eq!(rt; Edit::from_bytes(&src)?.write(&mut out)?, 17);
    assert_eq!(rt; &out[0..17], &src[0..17]);
    assert_eq!(rt; &out[17..20], &[0xff; 3][0..3]);
    Ok(())
}

// Reading the bytes is refused, and copying them writes nothing.
fn falls(rt: &impl Abort, tag: u8, first: u64, second: u64) {
    let src = bytes(tag, first, second);
    let mut out = [0xff; 17];
    assert_eq!(rt;
        Edit::from_bytes(&src).err(),
        Some(Refusal::NoContent { at: 0 })
    );
    assert_eq!(rt;
        copy_content::<17, Edit>(&src, &mut out).err(),
        Some(Refusal::NoContent { at: 0 })
    );
    assert_eq!(rt; out, [0xff; 17]);
}

const DAY: u64 = 0x40f5_1800_0000_0000;

const LOUDEST: u64 = 0x4028_0000_0000_0000;

const QUIETEST: u64 = 0xc04e_0000_0000_0000;

#[test]
fn edits_stand_up_to_their_bounds(rt: HostRuntime) -> Result<(), Fail> {
    let lawful = [
        (0, 0, DAY),
        (0, 0, TINIEST),
        (0, TINIEST, 2),
        (1, 0, 0),
        (1, DAY, LOUDEST),
        (1, DAY, QUIETEST),
        (1, TINIEST, TINIEST),
        (1, 0, MINUS_TINIEST),
        (2, 0, 0),
        (3, 0, 0),
    ];
    for (tag, first, second) in lawful {
        stands(&rt, tag, first, second)?;
    }
    Ok(())
}

#[test]
fn numbers_past_a_bound_are_no_content(rt: HostRuntime) {
    let unlawful = [
        (0, 0, PAST_DAY),
        (0, MINUS_TINIEST, DAY),
        (1, PAST_DAY, 0),
        (1, MINUS_TINIEST, 0),
        (1, 0, PAST_LOUDEST),
        (1, 0, PAST_QUIETEST),
        (1, MINUS_ZERO, 0),
        (1, 0, MINUS_ZERO),
        (0, MINUS_ZERO, DAY),
    ];
    for (tag, first, second) in unlawful {
        falls(&rt, tag, first, second);
    }
}

#[test]
fn what_is_no_number_is_no_content(rt: HostRuntime) {
    for bits in [QUIET_NAN, MINUS_NAN, INFINITY, MINUS_INFINITY] {
        falls(&rt, 0, 0, bits);
        falls(&rt, 0, bits, DAY);
        falls(&rt, 1, bits, 0);
        falls(&rt, 1, 0, bits);
    }
}

#[test]
fn a_trim_goes_to_a_later_second(rt: HostRuntime) {
    falls(&rt, 0, 0, 0);
    falls(&rt, 0, DAY, DAY);
    falls(&rt, 0, DAY, 0);
    falls(&rt, 0, 2, TINIEST);
}

#[test]
fn other_tags_and_numbers_of_an_undo_are_no_content(rt: HostRuntime) {
    for tag in [2, 3] {
        falls(&rt, tag, 1, 0);
        falls(&rt, tag, 0, 1);
        falls(&rt, tag, MINUS_ZERO, 0);
    }
    for tag in [4, 5, 128, 255] {
        falls(&rt, tag, 0, 0);
    }
}

#[test]
fn other_lengths_are_refused(rt: HostRuntime) {
    assert_eq!(rt; Edit::from_bytes(&[]).err(), Some(Refusal::Short { at: 0 }));
    assert_eq!(rt;
        Edit::from_bytes(&[2; 16]).err(),
        Some(Refusal::Short { at: 0 })
    );
    assert_eq!(rt;
        Edit::from_bytes(&[2; 18]).err(),
        Some(Refusal::Trailing { at: 17 })
    );
    assert_eq!(rt;
        Edit::from_bytes(&[9; 17]).err(),
        Some(Refusal::NoContent { at: 0 })
    );
}

// Keeping or writing the edit is refused, and nothing is written.
fn unwritten(rt: &impl Abort, edit: Edit) {
    let mut out = [0xff; 17];
    assert_eq!(rt; edit.record().err(), Some(Refusal::NoContent { at: 0 }));
    assert_eq!(rt;
        edit.write(&mut out).err(),
        Some(Refusal::NoContent { at: 0 })
    );
    assert_eq!(rt; out, [0xff; 17]);
}

#[test]
fn unlawful_edits_are_not_written(rt: HostRuntime) {
    for bits in [QUIET_NAN, MINUS_ZERO, PAST_DAY, INFINITY] {
        let x = f64_from_bits_with_nan(bits);
        unwritten(&rt, Edit::Gain(x, 0.0));
        unwritten(&rt, Edit::Trim(x, 5.0));
    }
}

#[test]
fn edits_come_back(rt: HostRuntime) -> Result<(), Fail> {
    for edit in [
        Edit::Trim(0.0, 86400.0),
        Edit::Gain(12.25, -60.0),
        Edit::Undo,
        Edit::Save,
    ] {
        assert_eq!(rt; edit.record()?.edit()?, edit);
    }
    let trim = Edit::Trim(1.0, 2.0).record()?;
    assert!(rt; Edit::same(&trim, &Edit::Trim(1.0, 2.0).record()?));
    assert!(rt; !Edit::same(&trim, &Edit::Trim(1.0, 3.0).record()?));
    assert!(rt; !Edit::same(&trim, &Edit::Gain(1.0, 2.0).record()?));
    Ok(())
}

#[test]
fn small_memories_are_refused_first(rt: HostRuntime) {
    let mut out = [0xff; 16];
    assert_eq!(rt;
        Edit::Save.write(&mut out).err(),
        Some(Refusal::SmallOutbox)
    );
    assert_eq!(rt;
        Edit::Trim(5.0, 5.0).write(&mut out).err(),
        Some(Refusal::SmallOutbox)
    );
    assert_eq!(rt;
        copy_content::<17, Edit>(&[9; 17], &mut out).err(),
        Some(Refusal::SmallOutbox)
    );
    assert_eq!(rt; out, [0xff; 16]);
}
