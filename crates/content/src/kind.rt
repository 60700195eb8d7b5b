// What every kind of content offers: a fixed length of bytes, a record to keep, and the way between the two.
ghost use Rattle.std.specs.Prelude.{◌≡◌, Ok, Decides};
ghost use Rattle.std.specs.Str.{bytes_eq};
ghost use Rattle.content.specs.Kinds.{Kind, Lawful, next, read_content, write_answer, write_memory};

use crate::refusal::Refusal;

// A kind of content of L bytes, 1 to 64.
pub trait Content<const L: usize> {
    // how the content is kept in memory
    type Record: Copy;

    // which lists of bytes are content, as which record, and the laws of both
    ghost kind: { Kind L Self.Record };

    // The record of these bytes, or nothing if they are no content of the kind.
    fn read(src: &[u8]) -> Option<Self::Record>
        ensures { result ≡ kind.reads src.now };

    // The bytes of a record.
    fn bytes(rec: &Self::Record) -> [u8; L]
        ensures { result ≡ kind.shown rec.now };

    // Whether two records have the same bytes.
    fn same(a: &Self::Record, b: &Self::Record) -> bool
        ensures { result ≡ bytes_eq (kind.shown a.now) (kind.shown b.now) };

    // Whether a record is one that reading its own bytes gives.
    fn lawful(rec: &Self::Record) -> bool
        ensures { Decides result (Lawful kind rec.now) };
}

// Reads content from a slice of any length.
pub fn read_content<const L: usize, C: Content<L>>(src: &[u8]) -> Result<C::Record, Refusal>
    ensures { result ≡ read_content C.Content.kind src.now }
{
    if src.len() < L {
        return Err(Refusal::Short { at: 0 });
    }
    if src.len() > L {
        return Err(Refusal::Trailing { at: L });
    }
    C::read(src).ok_or(Refusal::NoContent { at: 0 })
}

// Writes the bytes of a record to the front of `out`, and says how many.
pub fn write_content<const L: usize, C: Content<L>>(
    rec: &C::Record,
    out: &mut [u8],
) -> Result<usize, Refusal>
    ensures answer { result ≡ write_answer L (Ok (C.Content.kind.shown rec.now)) out.old }
    ensures memory { out.new ≡ write_memory L (Ok (C.Content.kind.shown rec.now)) out.old }
{
    let front = out.first_chunk_mut::<L>().ok_or(Refusal::SmallOutbox)?;
    *front = C::bytes(rec);
    Ok(L)
}

// Reads content and writes it to the front of `out`: the very bytes that were read.
pub fn copy_content<const L: usize, C: Content<L>>(
    src: &[u8],
    out: &mut [u8],
) -> Result<usize, Refusal>
    ensures answer { result ≡ write_answer L (next (read_content C.Content.kind src.now) (λ _. Ok src.now)) out.old }
    ensures memory { out.new ≡ write_memory L (next (read_content C.Content.kind src.now) (λ _. Ok src.now)) out.old }
{
    if out.len() < L {
        return Err(Refusal::SmallOutbox);
    }
    let rec = read_content::<L, C>(src)?;
    write_content::<L, C>(&rec, out)
}
