// A chapter mark: a start in whole seconds and a title, in 28 bytes.
ghost use Rattle.std.specs.Prelude.{◌≡◌, ◌≤◌, true, ◌&&◌, length, IfOk, Ok, Decides, nat_le};
ghost use Rattle.content.specs.Kinds.{Lawful};
ghost use Rattle.content.specs.Marks.{is_text, text_length, all_zero, is_title, is_mark, mark_shown, marks, is_heading, fill, mark_of, text_of};
ghost use Rattle.std.specs.Str.{bytes_eq};
ghost use Rattle.std.specs.Cmp.Rules.{comparing};
ghost use Rattle.std.proofs.Common.{rules};
ghost use Rattle.std.specs.Cmp as Keys;

use crate::kind::Content;
use crate::refusal::Refusal;

// the longest recording, in seconds
const LAST_SECOND: u32 = 86_400;

// A chapter mark as it is kept: its start, and its title filled up with zero bytes.
#[derive(Clone, Copy, Debug)]
pub struct ChapterMark {
    start: u32,
    title: [u8; 24],
}

fn is_text(b: u8) -> bool
    ensures { result ≡ is_text b }
{
    32 <= b && b <= 126
}

// How many bytes of text stand at the front.
fn text_length(bytes: &[u8]) -> usize
    ensures answer { result ≡ text_length bytes.now }
    ensures within { result ≤ length bytes.now }
{
    bytes.iter().take_while(|b| is_text(**b)).count()
}

fn all_zero(bytes: &[u8]) -> bool
    ensures { result ≡ all_zero bytes.now }
{
    bytes.iter().all(|b| *b == 0)
}

// Whether bytes are text, and then only zero bytes.
fn is_title(title: &[u8]) -> bool
    ensures { result ≡ is_title title.now }
{
    let n = text_length(title);
    0 < n && all_zero(&title[n..])
}

// Whether bytes are the text of a title: 1 to 24 of them, all text.
fn is_heading(text: &[u8]) -> bool
    ensures { result ≡ is_heading text.now }
{
    let n = text.len();
    0 < n && n <= ChapterMark::TITLE && text_length(text) == n
}

// A text filled up with zero bytes.
fn filled(text: &[u8]) -> [u8; 24]
    requires { length text.now ≤ 24 }
    ensures { result ≡ fill text.now }
{
    let mut title = [0; 24];
    title[..text.len()].copy_from_slice(text);
    title
}

// A mark of a lawful start and text.
#[tactic(auto, using(crate::proofs::Marks::made_lawful, crate::proofs::Marks::made_back))]
fn titled(start: u32, text: &[u8]) -> ChapterMark
    requires { (nat_le start 86400 && is_heading text.now) ≡ true }
    ensures answer { Ok result ≡ mark_of start text.now }
    ensures lawful { Lawful marks result }
    ensures back { text_of result.title ≡ text.now }
{
    let title = filled(text);
    ChapterMark { start, title }
}

impl ChapterMark {
    // how many bytes a chapter mark has
    pub const LEN: usize = 28;
    // how many bytes of text a title has at most
    pub const TITLE: usize = 24;

    // A mark from its start and the text of its title.
    pub fn new(start: u32, text: &[u8]) -> Result<ChapterMark, Refusal>
        ensures answer { result ≡ mark_of start text.now }
        ensures lawful { IfOk result (λ m. Lawful marks m) }
        ensures back { IfOk result (λ m. text_of m.title ≡ text.now) }
    {
        if start <= LAST_SECOND && is_heading(text) {
            Ok(titled(start, text))
        } else {
            Err(Refusal::NoContent { at: 0 })
        }
    }

    // Whether the record is a chapter mark, and so lawful.
    fn stands(&self) -> bool
        ensures answer { result ≡ is_mark self.now.start self.now.title }
        ensures lawful { Decides result (Lawful marks self.now) }
    {
        let ChapterMark { start, title } = *self;
        start <= LAST_SECOND && is_title(&title)
    }

    // The second at which the chapter begins.
    pub fn start(&self) -> u32
        ensures { result ≡ self.now.start }
    {
        self.start
    }

    // The text of the title.
    pub fn title(&self) -> &[u8]
        ensures { result.now ≡ text_of self.now.title }
    {
        let n = text_length(&self.title);
        &self.title[..n]
    }
}

impl Content<{ ChapterMark::LEN }> for ChapterMark {
    type Record = ChapterMark;

    ghost kind = { marks };

    fn read(src: &[u8]) -> Option<ChapterMark> {
        let (start, title) = src.split_first_chunk::<4>()?;
        let start = u32::from_le_bytes(*start);
        let title = *title.as_array()?;
        let mark = ChapterMark { start, title };
        mark.stands().then_some(mark)
    }

    fn bytes(rec: &ChapterMark) -> [u8; 28] {
        let mut out = [0; 28];
        out[..4].copy_from_slice(&rec.start.to_le_bytes());
        out[4..].copy_from_slice(&rec.title);
        out
    }

    fn same(a: &ChapterMark, b: &ChapterMark) -> bool {
        a.start == b.start && a.title == b.title
    }

    fn lawful(rec: &ChapterMark) -> bool {
        rec.stands()
    }
}

// Two marks are equal if their bytes are: by hand, since a derived == promises equal fields and nothing of bytes.
impl PartialEq for ChapterMark {
    ghost eq = { λ a b. bytes_eq (mark_shown a) (mark_shown b) };

    ghost laws = { Keys.partial_equiv_from_equiv (Prim.search (comparing, rules)) };

    fn eq(&self, other: &ChapterMark) -> bool {
        <ChapterMark as Content<{ ChapterMark::LEN }>>::same(self, other)
    }
}

impl Eq for ChapterMark {
    ghost laws = { Prim.search (comparing, rules) };
}
