// What studios log: edits and chapter marks, made, written, read back, and refused.
use crate::hex::Hex;
use crate::tell::tell;
use content::edit::Edit;
use content::kind::{Content, copy_content, read_content, write_content};
use content::mark::ChapterMark;
use content::refusal::Refusal;
use std::io;
use std::str::from_utf8;

// An edit goes to its bytes and comes back.
pub fn edit(rt: &impl Print) -> io::Result<()> {
    println!(rt; "Ana trims the interview: it runs from second 12.5 to second 1830.")?;
    let mut memory = [0; 17];
    let written = Edit::Trim(12.5, 1830.0).write(&mut memory);
    tell(rt, "Her edit", written, |n| {
        println!(rt; "Written, her edit has {n} bytes: {}", Hex(&memory))
    })?;
    let read = Edit::from_bytes(&memory);
    tell(rt, "What was written", read, |edit| match edit {
        Edit::Trim(from, to) => println!(rt;
            "Read back, it trims from second {from} to second {to}."
        ),
        _ => println!(rt; "Read back, it is another edit."),
    })
}

// A chapter mark goes to its bytes and comes back.
pub fn mark(rt: &impl Print) -> io::Result<()> {
    println!(rt; "Ben marks a chapter at second 1245: Listener questions.")?;
    let mut memory = [0; 28];
    let written = write_mark(1245, b"Listener questions", &mut memory);
    tell(rt, "His mark", written, |n| {
        println!(rt; "Written, his mark has {n} bytes: {}", Hex(&memory))
    })?;
    let read = read_content::<28, ChapterMark>(&memory);
    tell(rt, "What was written", read, |mark| {
        println!(rt;
            "Read back, it starts at second {} and says: {}.",
            mark.start(),
            text(mark.title())
        )
    })
}

fn write_mark(start: u32, title: &[u8], memory: &mut [u8; 28]) -> Result<usize, Refusal> {
    write_content::<28, ChapterMark>(&ChapterMark::new(start, title)?, memory)
}

// A title's bytes are ASCII, and so they are text.
fn text(title: &[u8]) -> &str {
    from_utf8(title).unwrap_or("")
}

// Edits that break a rule are not kept.
pub fn bad_edits(rt: &impl Print) -> io::Result<()> {
    let edits = [
        ("A gain of 3 decibels at second 60", Edit::Gain(60.0, 3.0)),
        ("A trim from second 5 to second 5", Edit::Trim(5.0, 5.0)),
        ("A trim to second 86400.5", Edit::Trim(0.0, 86400.5)),
        ("A gain of 12.5 decibels", Edit::Gain(60.0, 12.5)),
        ("A gain at second -0", Edit::Gain(-0.0, 3.0)),
    ];
    for (what, edit) in edits {
        tell(rt, what, edit.record(), |_| println!(rt; "{what} is kept."))?;
    }
    Ok(())
}

// Marks that break a rule are not made.
pub fn bad_marks(rt: &impl Print) -> io::Result<()> {
    let marks: [(&str, u32, &[u8]); 3] = [
        ("A mark with no title", 0, b""),
        ("A mark at second 86401", 86_401, b"After midnight"),
        (
            "A mark with a title of 25 bytes",
            60,
            b"abcdefghijklmnopqrstuvwxy",
        ),
    ];
    for (what, start, title) in marks {
        let mark = ChapterMark::new(start, title);
        tell(rt, what, mark, |_| println!(rt; "{what} is made."))?;
    }
    Ok(())
}

// Bytes that are no content are refused by one text for every kind.
pub fn bad_bytes(rt: &impl Print) -> io::Result<()> {
    copied::<17, Edit>(rt, "An undo", &tagged(2))?;
    copied::<17, Edit>(rt, "An edit of 16 bytes", &[0; 16])?;
    copied::<17, Edit>(rt, "An edit of 18 bytes", &[0; 18])?;
    copied::<17, Edit>(rt, "An edit of tag 4", &tagged(4))?;
    copied::<28, ChapterMark>(rt, "A mark of zero bytes only", &[0; 28])
}

// As many bytes as an edit has: a tag, and zeros behind it.
fn tagged(tag: u8) -> [u8; 17] {
    let mut bytes = [0; 17];
    bytes[0] = tag;
    bytes
}

fn copied<const L: usize, C: Content<L>>(
    rt: &impl Print,
    what: &str,
    src: &[u8],
) -> io::Result<()> {
    let mut memory = [0; 64];
    let outcome = copy_content::<L, C>(src, &mut memory);
    tell(rt, what, outcome, |n| {
        println!(rt; "{what} is copied, {n} bytes.")
    })
}
