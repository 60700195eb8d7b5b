// Round robin: the views go round the seats.
ghost use Rattle.std.specs.Prelude.{◌≡◌, true};
ghost use Rattle.rota.specs.Leaders.{robin};
ghost use Rattle.rota.specs.Limits.{seats_lawful, MadeWithin};
ghost use Rattle.std.proofs.Common.{rules, arith};

use crate::leaders::{Rota, seats_in_limits};
use content::refusal::Refusal;

#[derive(Clone, Copy)]
pub struct RoundRobin {
    n: u8,
    ghost lawful: { seats_lawful n ≡ true },
}

impl RoundRobin {
    // For a log of n seats.
    pub fn new(n: u8) -> Result<RoundRobin, Refusal>
        ensures { MadeWithin (seats_lawful n) (λ v. v.n ≡ n) result }
    {
        if !seats_in_limits(n) {
            return Err(Refusal::OutOfLimits);
        }
        Ok(RoundRobin { n })
    }
}

impl Rota for RoundRobin {
    ghost seats = { λ r. r.n };

    ghost leads = { λ r. robin r.n };

    ghost below = { first_of (Prim.search rules, Prim.grind (arith, Self.row.coded.inj)) };

    fn seat_count(&self) -> u8 {
        self.n
    }

    fn leader(&self, view: u16) -> u8 {
        (view % self.n as u16) as u8
    }
}
