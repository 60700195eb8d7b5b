// An edit of a recording: a trim, a gain, an undo or a save, in 17 bytes.
ghost use Rattle.std.specs.Prelude.{◌≡◌, take, IfOk, Ok, Decides, to_bits};
ghost use Rattle.std.specs.Float.{binary64};
ghost use Rattle.content.specs.Edits.{value, within, is_second, is_gain, below, stands, is_edit, edits, called, kept, edit_of, record_of, edit_from, edit_bytes};
ghost use Rattle.content.specs.Kinds.{Lawful, write_answer, write_memory};

use crate::kind::{Content, read_content, write_content};
use crate::refusal::Refusal;
use std::num::{f64_from_bits_with_nan, f64_to_bits_with_nan};

// the longest recording, in seconds
const LAST_SECOND: f64 = 86_400.0;
// the quietest and the loudest gain, in decibels
const QUIETEST: f64 = -60.0;

const LOUDEST: f64 = 12.0;

// What an edit asks for: to trim from one second to a later one, to set the gain in decibels from a second on,
// to undo, or to save.
#[derive(Clone, Copy, PartialEq, Debug)]
pub enum Edit {
    Trim(f64, f64),
    Gain(f64, f64),
    Undo,
    Save,
}

// An edit as it is kept: its tag, and its two numbers as their bits.
// The tag is a number and no enum, since these are the fields of the 17 bytes; what they stand for is an `Edit`.
#[derive(Clone, Copy, PartialEq, Eq, Debug)]
pub struct EditRecord {
    tag: u8,
    first: u64,
    second: u64,
}

fn in_range(bits: u64, least: f64, most: f64) -> bool
    ensures { result ≡ within least most bits }
{
    let x = f64_from_bits_with_nan(bits);
    least <= x && x <= most && (x != 0.0 || bits == 0)
}

fn is_second(bits: u64) -> bool
    ensures { result ≡ is_second bits }
{
    in_range(bits, 0.0, LAST_SECOND)
}

fn is_gain(bits: u64) -> bool
    ensures { result ≡ is_gain bits }
{
    in_range(bits, QUIETEST, LOUDEST)
}

// Whether one number is below another.
fn is_below(a: u64, b: u64) -> bool
    ensures { result ≡ below a b }
{
    f64_from_bits_with_nan(a) < f64_from_bits_with_nan(b)
}

// The bits of a number, which give it back.
fn bits_of(x: f64) -> u64
    ensures answer { result ≡ to_bits binary64 x }
    ensures back { value result ≡ x }
{
    f64_to_bits_with_nan(x)
}

impl EditRecord {
    // Whether the record is an edit, and so lawful.
    #[tactic(auto, using(crate::proofs::Edits::stands_lawful))]
    fn stands(&self) -> bool
        ensures answer { result ≡ stands self.now }
        ensures lawful { Decides result (Lawful edits self.now) }
    {
        let EditRecord { tag, first, second } = *self;
        match tag {
            0 => is_second(first) && is_second(second) && is_below(first, second),
            1 => is_second(first) && is_gain(second),
            2 | 3 => first == 0 && second == 0,
            _ => false,
        }
    }

    // The edit that the record stands for, if it stands.
    fn called(&self) -> Edit
        ensures answer { result ≡ called self.now }
        ensures back { edit_of self.now ≡ Ok result → record_of result ≡ Ok self.now }
    {
        let x = f64_from_bits_with_nan(self.first);
        let y = f64_from_bits_with_nan(self.second);
        match self.tag {
            0 => Edit::Trim(x, y),
            1 => Edit::Gain(x, y),
            2 => Edit::Undo,
            _ => Edit::Save,
        }
    }

    // The edit that the record stands for.
    pub fn edit(&self) -> Result<Edit, Refusal>
        ensures answer { result ≡ edit_of self.now }
        ensures back { IfOk result (λ e. record_of e ≡ Ok self.now) }
    {
        if self.stands() {
            Ok(self.called())
        } else {
            Err(Refusal::NoContent { at: 0 })
        }
    }
}

impl Edit {
    // how many bytes an edit has
    pub const LEN: usize = 17;

    // The record of the edit as it is, lawful or not.
    fn kept(&self) -> EditRecord
        ensures answer { result ≡ kept self.now }
        ensures back { called result ≡ self.now }
    {
        match self {
            Edit::Trim(x, y) => EditRecord {
                tag: 0,
                first: bits_of(*x),
                second: bits_of(*y),
            },
            Edit::Gain(x, y) => EditRecord {
                tag: 1,
                first: bits_of(*x),
                second: bits_of(*y),
            },
            Edit::Undo => EditRecord {
                tag: 2,
                first: 0,
                second: 0,
            },
            Edit::Save => EditRecord {
                tag: 3,
                first: 0,
                second: 0,
            },
        }
    }

    // The record to keep of the edit; refused if its numbers are unlawful.
    pub fn record(&self) -> Result<EditRecord, Refusal>
        ensures answer { result ≡ record_of self.now }
        ensures back { IfOk result (λ e. edit_of e ≡ Ok self.now) }
        ensures lawful { IfOk result (λ e. Lawful edits e) }
    {
        let kept = self.kept();
        if kept.stands() {
            Ok(kept)
        } else {
            Err(Refusal::NoContent { at: 0 })
        }
    }

    // The edit of these bytes.
    pub fn from_bytes(src: &[u8]) -> Result<Edit, Refusal>
        ensures answer { result ≡ edit_from src.now }
        ensures back { IfOk result (λ e. edit_bytes e ≡ Ok src.now) }
    {
        let rec = read_content::<{ Edit::LEN }, Edit>(src)?;
        rec.edit()
    }

    // Writes the edit's bytes to the front of `out`, and says how many.
    pub fn write(&self, out: &mut [u8]) -> Result<usize, Refusal>
        ensures answer { result ≡ write_answer 17 (edit_bytes self.now) out.old }
        ensures memory { out.new ≡ write_memory 17 (edit_bytes self.now) out.old }
        ensures back { IfOk result (λ n. edit_from (take n out.new) ≡ Ok self.now) }
    {
        if out.len() < Edit::LEN {
            return Err(Refusal::SmallOutbox);
        }
        let rec = self.record()?;
        write_content::<{ Edit::LEN }, Edit>(&rec, out)
    }
}

impl Content<{ Edit::LEN }> for Edit {
    type Record = EditRecord;

    ghost kind = { edits };

    fn read(src: &[u8]) -> Option<EditRecord> {
        let (tag, numbers) = src.split_first()?;
        let (first, second) = numbers.split_first_chunk::<8>()?;
        let second = second.as_array::<8>()?;
        let record = EditRecord {
            tag: *tag,
            first: u64::from_le_bytes(*first),
            second: u64::from_le_bytes(*second),
        };
        record.stands().then_some(record)
    }

    fn bytes(rec: &EditRecord) -> [u8; 17] {
        let mut out = [0; 17];
        out[0] = rec.tag;
        out[1..9].copy_from_slice(&rec.first.to_le_bytes());
        out[9..].copy_from_slice(&rec.second.to_le_bytes());
        out
    }

    // by fields: of whole records a proof over `==` is not told that their numbers fit their types, and comparing
    // their bytes would lay both out each time
    fn same(a: &EditRecord, b: &EditRecord) -> bool {
        a.tag == b.tag && a.first == b.first && a.second == b.second
    }

    fn lawful(rec: &EditRecord) -> bool {
        rec.stands()
    }
}
