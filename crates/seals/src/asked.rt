// What holds of every seal check alike: its answers are its meaning, whatever was asked before.
ghost use Rattle.std.specs.Prelude.{◌≡◌, true, ◌∷◌};
ghost use Rattle.std.specs.Str.{bytes_eq};

use crate::check::SealCheck;

// A question to a check.
#[derive(Clone, Copy)]
pub struct Question<'a> {
    pub seat: u8,
    pub tag: u8,
    pub body: &'a [u8],
    pub seal: &'a [u8],
}

impl<'a> Question<'a> {
    // Whether the statement that it asks about, the tag byte and then the body, is these bytes.
    pub(crate) fn is_on(self, bytes: &[u8]) -> bool
        ensures { result ≡ bytes_eq bytes.now (self.entry.tag ∷ self.entry.body.now) }
    {
        bytes
            .split_first()
            .is_some_and(|(first, rest)| *first == self.tag && rest == self.body)
    }
}

// The check's answer to a question.
pub fn ask<const S: usize, K: SealCheck<S>>(check: &mut K, q: Question) -> bool
    ensures answer { result ≡ K.accepts check.old q.entry.seat (q.entry.tag ∷ q.entry.body.now) q.entry.seal.now }
    ensures kept { K.accepts check.new ≡ K.accepts check.old }
{
    check.check(q.seat, q.tag, q.body, q.seal)
}

// Asks two questions, and then both again the other way round: the answers are the same.
pub fn same_in_any_order<const S: usize, K: SealCheck<S>>(
    check: &mut K,
    a: Question,
    b: Question,
) -> bool
    ensures always { result ≡ true }
    ensures kept { K.accepts check.new ≡ K.accepts check.old }
{
    let (a_first, b_first) = (ask(check, a), ask(check, b));
    let (b_again, a_again) = (ask(check, b), ask(check, a));
    a_first == a_again && b_first == b_again
}
