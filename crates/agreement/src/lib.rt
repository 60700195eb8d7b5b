// Agreement: over every run of calls, sound seats commit the same blocks.
#![tactic(auto)]

ghost use Rattle.agreement.specs.Laws.{LawsOfSeats};
ghost use Rattle.agreement.specs.Theorem.{Agreement};
ghost use Rattle.agreement.specs.Witness.{Witness};

use content::kind::Content;

// For every kind of content and every seal length, agreement holds of every history that is a run: sound seats commit
// one block a height, none answers clash under a sound leader, none refuses a certificate as orphan, rival or fork; and
// the laws of sound seats hold at each of its moments.
pub fn agreement_stands<const L: usize, const S: usize, C: Content<L>>()
    ensures agreement { Agreement S C.Content.kind }
    ensures laws { LawsOfSeats S C.Content.kind }
{}

// The theorem speaks of something: a history of three seats, one of them sending two proposals of one rank, is a run in
// which both sound seats commit; and two neighbours of it, one with a notice undelivered, one with a forged vote, are no runs.
pub fn agreement_is_not_empty()
    ensures { Witness }
{}
