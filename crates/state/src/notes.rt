// The note: the first proposal that a seat saw at its place, and what a further one does to it.
ghost use Rattle.std.specs.Prelude.{◌≡◌, not, ◌&&◌};
ghost use Rattle.blocks.specs.Ranks.{at_least, parent_of};
ghost use Rattle.state.specs.Parts.{is_on};
ghost use Rattle.state.specs.HandIn.{acceptable, at_slot, slot_open};
ghost use Rattle.state.specs.Reactions.{accepting, clashing, reacted};
ghost use Rattle.state.specs.declared.notes.Reaction.TheVariants.{Accepted};

use crate::state::{Note, Phase, State};
use blocks::block::Block;
use blocks::ranks::at_least;

// What a proposal does to a seat.
#[derive(Clone, Copy, PartialEq, Eq)]
pub enum Reaction {
    // its slot is closed, or it is the note and nothing more is due
    Nothing,
    Noted,
    Accepted,
    // a second proposal of one rank, in a seat that can't blame its view (any more)
    Clash,
    ClashAndBlame,
}

impl<const S: usize, R: Copy> State<S, R> {
    // Whether the slot of a block is open.
    pub fn slot_open(&self, block: &Block<R>) -> bool
        ensures { result ≡ slot_open self.entry.now block.now }
    {
        !self.spoiled && self.at_slot(block)
    }

    pub fn at_slot(&self, block: &Block<R>) -> bool
        ensures { result ≡ at_slot self.entry.now.phase self.entry.now block.now }
    {
        match self.phase {
            Phase::On => self.view == block.rank.view && self.turn == block.rank.turn as u32,
            Phase::Leaving { .. } => {
                (self.view as u32 + 1 == block.rank.view as u32) && block.rank.turn == 0
            }
        }
    }

    // Whether the block stands on the lock or above.
    fn on_lock(&self, block: &Block<R>) -> bool
        ensures { result ≡ at_least (parent_of block.now) self.entry.now.lock }
    {
        at_least(block.parent_place(), self.lock)
    }

    // Whether a proposal may be accepted: at turn 0 only on the lock or above.
    pub fn acceptable(&self, block: &Block<R>) -> bool
        ensures { result ≡ acceptable self.entry.now block.now }
    {
        self.is_on() && ((0 < self.turn) || self.on_lock(block))
    }

    // Whether the note can be accepted now.
    pub fn accepting(&self, note: &Note<R>) -> bool
        ensures { result ≡ accepting self.entry.now note.now }
    {
        self.acceptable(&note.block) && note.accepted.is_none()
    }

    // Whether a clash is blamed too: once, and while the seat is on.
    pub fn blames_clash(&self) -> bool
        ensures { result ≡ (is_on self.entry.now.phase && not self.entry.now.blamed) }
    {
        self.is_on() && !self.blamed
    }

    // A different proposal spoils the seat.
    pub fn clash(&mut self) -> Reaction
        ensures reaction { result ≡ clashing self.entry.now }
        ensures state { (note : Note R) → self.exit.now ≡ reacted self.entry.now note (clashing self.entry.now) }
    {
        self.spoiled = true;
        if !self.blames_clash() {
            return Reaction::Clash;
        }
        self.blamed = true;
        Reaction::ClashAndBlame
    }

    // The note is accepted.
    pub fn accept(&mut self, note: Note<R>)
        ensures { self.exit.now ≡ reacted self.entry.now note Accepted }
    {
        let accepted = Some(self.now);
        self.round.note = Some(Note { accepted, ..note });
    }
}
