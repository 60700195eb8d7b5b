// The roll: a list of good seals, each with its seat and its statement.
ghost use Rattle.std.specs.Prelude.{◌≡◌, ◌∷◌};
ghost use Rattle.seals.specs.Checks.{eight};
ghost use Rattle.seals.specs.Rolls.{is_line, listed, roll_accepts, roll_sized, OnlyItsLines};

use crate::asked::Question;
use crate::check::SealCheck;

// A good seal of a seat on a statement, which is a tag byte and then a body.
#[derive(Clone, Copy)]
pub struct RollLine<'s> {
    seat: u8,
    statement: &'s [u8],
    seal: [u8; Roll::SEAL_LENGTH],
}

// The lines, lent by whoever keeps them.
#[derive(Clone, Copy)]
pub struct Roll<'a, 's> {
    lines: &'a [RollLine<'s>],
}

impl<'a, 's> Roll<'a, 's> {
    // The length of a seal, in bytes.
    pub const SEAL_LENGTH: usize = 8;

    // The roll of these lines.
    pub fn new(lines: &'a [RollLine<'s>]) -> Roll<'a, 's>
        ensures { result.lines.now ≡ lines.now }
    {
        Roll { lines }
    }

    // Whether one of the lines is the one that the question asks for.
    fn lists(&self, q: Question) -> bool
        ensures { result ≡ listed self.now.lines.now q.entry.seat (q.entry.tag ∷ q.entry.body.now) q.entry.seal.now }
    {
        self.lines.iter().any(|line| line.is(q))
    }
}

impl<'s> RollLine<'s> {
    // The line of this seat, statement and seal.
    pub fn new(seat: u8, statement: &'s [u8], seal: [u8; Roll::SEAL_LENGTH]) -> RollLine<'s>
        ensures whose { result.seat ≡ seat }
        ensures what { result.statement.now ≡ statement.now }
        ensures how { result.seal ≡ seal }
    {
        RollLine {
            seat,
            statement,
            seal,
        }
    }

    // Whether this is the line that the question asks for.
    fn is(&self, q: Question) -> bool
        ensures { result ≡ is_line self.now q.entry.seat (q.entry.tag ∷ q.entry.body.now) q.entry.seal.now }
    {
        self.seat == q.seat && q.is_on(self.statement) && self.seal[..] == q.seal[..]
    }
}

// That the roll says yes exactly for the lines of its list.
pub fn only_its_lines()
    ensures { OnlyItsLines }
{}

impl<'a, 's> SealCheck<{ Roll::SEAL_LENGTH }> for Roll<'a, 's> {
    ghost lengths = { eight };

    ghost accepts = { λ c. roll_accepts c.lines.now };

    ghost sized = { λ c. roll_sized c.lines.now };

    fn check(&mut self, seat: u8, tag: u8, body: &[u8], seal: &[u8]) -> bool {
        let q = Question {
            seat,
            tag,
            body,
            seal,
        };
        seal.len() == Roll::SEAL_LENGTH && self.lists(q)
    }
}
