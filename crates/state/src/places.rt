// Where an offered block would stand, and whether it may be offered.
ghost use Rattle.std.specs.Prelude.{◌≡◌, ◌+◌, ◌≤◌, true, ◌&&◌, if◌then◌else◌, ◌==◌, nat_eq, nat_lt};
ghost use Rattle.state.specs.Parts.{with_offered};
ghost use Rattle.state.specs.Offer.{can_carry, may_offer, next_height, no_place, offered_block, rank_of_best, too_soon};

use crate::state::{State, Terms};
use blocks::block::{Block, Rank};
use content::refusal::Refusal;
use rota::leaders::Rota;
use wire::numbers::carries;

// The last turn and the last height that a block can have.
const LAST_TURN: u32 = 65535;

const LAST_HEIGHT: u64 = 4294967295;

impl<const S: usize, R: Copy> State<S, R> {
    // The height above best.
    fn next_height(&self) -> u64
        ensures { result ≡ next_height self.entry.now.best }
    {
        // a match, since no proof was found for map_or
        match &self.best {
            None => 1,
            Some(best) => best.block.height as u64 + 1,
        }
    }

    // The parent that a block on top of best names: best's rank, and zeros on the root.
    fn rank_of_best(&self) -> Rank
        ensures { result ≡ rank_of_best self.entry.now.best }
    {
        // a match, since no proof was found for map_or
        match &self.best {
            None => Rank { view: 0, turn: 0 },
            Some(best) => best.block.rank,
        }
    }

    // Whether best can be the parent: the root carries turn 0.
    fn can_carry(&self) -> bool
        ensures { result ≡ can_carry self.entry.now.view self.entry.now.turn self.entry.now.best }
    {
        // a match, since no proof was found for map_or
        match &self.best {
            None => self.turn == 0,
            Some(best) => carries(best.block.rank, self.view, self.turn),
        }
    }

    pub fn no_place(&self) -> bool
        ensures { result ≡ no_place self.entry.now }
    {
        self.turn > LAST_TURN || self.next_height() > LAST_HEIGHT
    }

    // Soon after entering a view above 0 nothing is offered.
    pub fn too_soon(&self, terms: &Terms) -> bool
        ensures { result ≡ too_soon terms.now self.entry.now }
    {
        0 < self.view && (self.now.saturating_sub(self.entered) < 2 * terms.delta as u32 + 1)
    }

    // Whether this seat leads its view.
    pub fn leads<Q: Rota>(&self, terms: &Terms, rota: &Q) -> bool
        ensures { result ≡ (Q.Rota.leads rota.now self.entry.now.view == terms.now.own) }
    {
        rota.leader(self.view) == terms.own
    }

    // Who may offer, and when.
    pub fn may_offer<Q: Rota>(&self, terms: &Terms, rota: &Q) -> Result<(), Refusal>
        ensures { result ≡ may_offer terms.now (Q.Rota.leads rota.now) self.entry.now tt }
    {
        if !self.leads(terms, rota) {
            return Err(Refusal::NotLeader);
        }
        if !self.is_on() {
            return Err(Refusal::OfferLeaving);
        }
        if self.spoiled {
            return Err(Refusal::OfferSpoiled);
        }
        if self.round.offered {
            return Err(Refusal::OfferedAlready);
        }
        if self.no_place() {
            return Err(Refusal::NoPlaceLeft);
        }
        if self.too_soon(terms) {
            return Err(Refusal::OfferTooSoon);
        }
        if !self.can_carry() {
            return Err(Refusal::NoLawfulParent);
        }
        Ok(())
    }

    // The block on top of best: one is offered a turn.
    pub fn offered_block(&mut self, content: R) -> Block<R>
        requires turn { self.old.turn ≤ 65535 }
        requires height { next_height self.old.best ≤ 4294967295 }
        ensures block { result ≡ offered_block self.entry.now content }
        ensures state { self.exit.now ≡ with_offered true self.entry.now }
    {
        self.round.offered = true;
        Block {
            rank: Rank {
                view: self.view,
                turn: self.turn as u16,
            },
            height: self.next_height() as u32,
            parent: self.rank_of_best(),
            content,
        }
    }
}
