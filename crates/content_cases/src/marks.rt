// Chapter marks at every bound.
use content::kind::{Content, copy_content, read_content};
use content::mark::ChapterMark;
use content::refusal::Refusal;
use std::process::Abort;
use std::test::Fail;

// The 28 bytes of a mark: a start, then one text byte up to an offset, and then a tail.
fn bytes(start: u32, text: u8, end: usize, tail: u8) -> [u8; 28] {
    let mut out = [tail; 28];
    for byte in out.iter_mut().take(end) {
        *byte = text;
    }
    out[..4].copy_from_slice(&start.to_le_bytes());
    out
}

fn stands(rt: &impl Abort, src: [u8; 28]) -> Result<(), Fail> {
    let mut out = [0xff; 30];
    assert_eq!(rt; copy_content::<28, ChapterMark>(&src, &mut out)?, 28);
    assert_eq!(rt; &out[0..28], &src[0..28]);
    assert_eq!(rt; &out[28..30], &[0xff; 2][0..2]);
    Ok(())
}

fn falls(rt: &impl Abort, src: [u8; 28]) {
    assert_eq!(rt;
        read_content::<28, ChapterMark>(&src).err(),
        Some(Refusal::NoContent { at: 0 })
    );
}

#[test]
fn marks_stand_up_to_their_bounds(rt: HostRuntime) -> Result<(), Fail> {
    stands(&rt, bytes(0, 32, 5, 0))?;
    stands(&rt, bytes(86_400, 126, 28, 0))?;
    falls(&rt, bytes(86_401, 65, 5, 0));
    falls(&rt, bytes(4_294_967_295, 65, 5, 0));
    Ok(())
}

#[test]
fn titles_are_text_and_then_zeros(rt: HostRuntime) {
    falls(&rt, bytes(0, 65, 4, 0));
    falls(&rt, bytes(0, 31, 5, 0));
    falls(&rt, bytes(0, 127, 5, 0));
    falls(&rt, bytes(0, 65, 27, 1));
    falls(&rt, bytes(0, 0, 5, 65));
    let mut gap = bytes(0, 65, 10, 0);
    gap[20] = 65;
    falls(&rt, gap);
}

#[test]
fn other_lengths_are_refused(rt: HostRuntime) {
    assert_eq!(rt;
        read_content::<28, ChapterMark>(&[65; 27]).err(),
        Some(Refusal::Short { at: 0 })
    );
    assert_eq!(rt;
        read_content::<28, ChapterMark>(&[65; 29]).err(),
        Some(Refusal::Trailing { at: 28 })
    );
    let mut out = [0; 27];
    assert_eq!(rt;
        copy_content::<28, ChapterMark>(&bytes(0, 65, 5, 0), &mut out).err(),
        Some(Refusal::SmallOutbox)
    );
}

#[test]
fn marks_are_made_from_text(rt: HostRuntime) -> Result<(), Fail> {
    let mark = ChapterMark::new(86_400, b"abcdefghijklmnopqrstuvwx")?;
    assert_eq!(rt; mark.start(), 86_400);
    assert_eq!(rt; mark.title(), b"abcdefghijklmnopqrstuvwx".as_slice());
    assert_eq!(rt; ChapterMark::new(7, b"~")?.title(), b"~".as_slice());
    assert_eq!(rt;
        ChapterMark::new(86_401, b"a").err(),
        Some(Refusal::NoContent { at: 0 })
    );
    for text in [
        b"".as_slice(),
        b"abcdefghijklmnopqrstuvwxy",
        b"a\0",
        b"\x1f",
        b"\x7f",
    ] {
        assert_eq!(rt;
            ChapterMark::new(0, text).err(),
            Some(Refusal::NoContent { at: 0 })
        );
    }
    Ok(())
}

#[test]
fn marks_are_compared_by_their_bytes(rt: HostRuntime) -> Result<(), Fail> {
    let mark = ChapterMark::new(1, b"ab")?;
    assert!(rt; ChapterMark::same(&mark, &ChapterMark::new(1, b"ab")?));
    assert!(rt; !ChapterMark::same(&mark, &ChapterMark::new(2, b"ab")?));
    assert!(rt; !ChapterMark::same(&mark, &ChapterMark::new(1, b"a")?));
    Ok(())
}
