// What the clock makes due, and entering a view.
ghost use Rattle.std.specs.Prelude.{◌≡◌, ◌+◌, ◌-◌, ◌*◌, nat_le};
ghost use Rattle.state.specs.Tick.{blame_due, enter, ripe, vote_due};

use crate::state::{Note, Phase, State, Terms};

// Whether a note accepted at a tick has waited D + 1 ticks or more.
fn ripe(terms: &Terms, clock: u32, accepted: Option<u32>) -> bool
    ensures { result ≡ ripe terms.now clock accepted }
{
    accepted.is_some_and(|at| terms.delta as u32 + 1 <= clock.saturating_sub(at))
}

impl<const S: usize, R: Copy> State<S, R> {
    pub fn vote_due(&self, terms: &Terms, note: &Note<R>) -> bool
        ensures { result ≡ vote_due terms.now self.entry.now note.now }
    {
        ripe(terms, self.now, note.accepted) && (!note.voted && !self.spoiled)
    }

    pub fn blame_due(&self, terms: &Terms) -> bool
        ensures { result ≡ blame_due terms.now self.entry.now }
    {
        !self.blamed && (terms.patience as u32 <= self.now.saturating_sub(self.progress))
    }

    // Whether 2D + 1 ticks of leaving are over.
    pub fn has_left(&self, terms: &Terms, since: u32) -> bool
        ensures { result ≡ nat_le (2 * terms.now.delta + 1) (self.entry.now.now - since) }
    {
        2 * terms.delta as u32 + 1 <= self.now.saturating_sub(since)
    }

    // Enters a view: the lock becomes best, and only at turn 0 the note stays.
    pub fn enter(&mut self, view: u16, turn: u32)
        ensures { self.exit.now ≡ enter view turn self.entry.now }
    {
        self.phase = Phase::On;
        self.view = view;
        self.turn = turn;
        self.lock = self.best.as_ref().map(|best| best.block.rank);
        self.progress = self.now;
        self.entered = self.now;
        if turn != 0 {
            self.round.note = None;
        }
    }
}
