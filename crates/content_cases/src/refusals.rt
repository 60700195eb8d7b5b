// The number, the detail and the words of every refusal.
use content::refusal::Refusal;
use std::process::Abort;
use std::test::Fail;

fn is(rt: &impl Abort, no: Refusal, number: u8, detail: usize) {
    assert_eq!(rt; no.number(), number);
    assert_eq!(rt; no.detail(), detail);
}

#[test]
fn refusals_of_bytes_have_an_offset(rt: HostRuntime) {
    is(&rt, Refusal::NoMemory, 0, 0);
    is(&rt, Refusal::Short { at: 3 }, 1, 3);
    is(&rt, Refusal::Trailing { at: 17 }, 2, 17);
    is(&rt, Refusal::UnknownKind, 3, 0);
    is(&rt, Refusal::BadLayout { at: 1 }, 4, 1);
    is(&rt, Refusal::NoContent { at: 13 }, 5, 13);
    is(&rt, Refusal::WrongParent { at: 38 }, 6, 38);
    is(&rt, Refusal::BadSeal { seat: 14 }, 7, 14);
}

#[test]
fn other_refusals_have_no_detail(rt: HostRuntime) {
    let others = [
        (Refusal::LastView, 8),
        (Refusal::Orphan, 9),
        (Refusal::Rival, 10),
        (Refusal::Full, 11),
        (Refusal::Fork, 12),
        (Refusal::NotLeader, 13),
        (Refusal::OfferLeaving, 14),
        (Refusal::OfferTooSoon, 15),
        (Refusal::OfferedAlready, 16),
        (Refusal::OfferSpoiled, 17),
        (Refusal::NoLawfulParent, 18),
        (Refusal::LastTick, 19),
        (Refusal::NoPlaceLeft, 20),
        (Refusal::SmallOutbox, 21),
        (Refusal::OutOfLimits, 22),
        (Refusal::BrokenShelf, 23),
        (Refusal::SlipOut, 24),
    ];
    for (no, number) in others {
        is(&rt, no, number, 0);
    }
}

#[test]
fn refusals_are_the_same_by_number_and_detail(rt: HostRuntime) {
    let short = Refusal::Short { at: 3 };
    assert!(rt; short.same(&Refusal::Short { at: 3 }));
    assert!(rt; !short.same(&Refusal::Short { at: 4 }));
    assert!(rt; !short.same(&Refusal::Trailing { at: 3 }));
}

#[test]
fn refusals_say_what_went_wrong(rt: HostRuntime) -> Result<(), Fail> {
    let heap = rt.alloc();
    assert_eq!(rt;
        Refusal::Trailing { at: 17 }.to_string(heap)?.as_str(),
        "bytes are left over after the last field, at byte 17"
    );
    assert_eq!(rt;
        Refusal::BadSeal { seat: 2 }.to_string(heap)?.as_str(),
        "the seal check says no to a seal of seat 2"
    );
    assert_eq!(rt;
        Refusal::SlipOut.to_string(heap)?.as_str(),
        "the slip of the last call is not spent"
    );
    Ok(())
}
