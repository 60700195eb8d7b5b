// A posted rota: the views go round a list of entries that the studio posts.
ghost use Rattle.std.specs.Prelude.{◌≡◌, ◌≤◌, true, length, take};
ghost use Rattle.rota.specs.Leaders.{entry_of, posted};
ghost use Rattle.rota.specs.Limits.{posted_lawful, MadeWithin};
ghost use Rattle.std.proofs.Common.{rules, arith};

use crate::leaders::{Rota, seats_in_limits};
use content::refusal::Refusal;

// The most entries of a rota; the least is one.
pub const MOST_ENTRIES: usize = 16;

#[derive(Clone, Copy)]
pub struct PostedRota {
    // the entries, and room after them; an array with a count, as a rota is copied and takes no heap
    room: [u8; MOST_ENTRIES],
    count: usize,
    n: u8,
    ghost lawful: { posted_lawful n count ≡ true },
    ghost roomy: { length room ≡ 16 },
}

impl PostedRota {
    // These entries, for a log of n seats.
    pub fn new(entries: &[u8], n: u8) -> Result<PostedRota, Refusal>
        ensures { MadeWithin (posted_lawful n (length entries.now)) (λ v. (v.n ≡ n) × (take v.count v.room ≡ entries.now)) result }
    {
        let count = entries.len();
        if !(seats_in_limits(n) && 1 <= count && count <= MOST_ENTRIES) {
            return Err(Refusal::OutOfLimits);
        }
        let mut room = [0; MOST_ENTRIES];
        room[..count].copy_from_slice(entries);
        Ok(PostedRota { room, count, n })
    }

    // The entries, one or more.
    fn entries(&self) -> &[u8]
        ensures { result.now ≡ take self.now.count self.now.room }
    {
        &self.room[..self.count]
    }

    // The entry that a view comes to.
    fn entry_of(&self, view: u16) -> u8
        ensures { result ≡ entry_of (take self.now.count self.now.room) view }
    {
        let entries = self.entries();
        entries[view as usize % entries.len()]
    }
}

impl Rota for PostedRota {
    ghost seats = { λ r. r.n };

    ghost leads = { λ r. posted (take r.count r.room) r.n };

    ghost below = { first_of (Prim.search rules, Prim.grind (arith, Self.row.coded.inj)) };

    fn seat_count(&self) -> u8 {
        self.n
    }

    fn leader(&self, view: u16) -> u8 {
        self.entry_of(view) % self.n
    }
}
