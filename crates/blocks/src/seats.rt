// The number of seats of a log.
ghost use Rattle.std.specs.Prelude.{◌≡◌, true};
ghost use Rattle.rota.specs.Limits.{seats_lawful, MadeWithin};
ghost use Rattle.blocks.specs.Masks.{quorum};

use content::refusal::Refusal;
use rota::leaders::seats_in_limits;

// A number of seats that a log may have: odd, 3 to 15. RoundRobin keeps the same number, and no SeatCount, since its own
// clauses speak of it as the rota's.
#[derive(Clone, Copy)]
pub struct SeatCount {
    n: u8,
    ghost lawful: { seats_lawful n ≡ true },
}

impl SeatCount {
    pub fn new(n: u8) -> Result<SeatCount, Refusal>
        ensures { MadeWithin (seats_lawful n) (λ s. s.n ≡ n) result }
    {
        if !seats_in_limits(n) {
            return Err(Refusal::OutOfLimits);
        }
        Ok(SeatCount { n })
    }

    // How many seats there are.
    pub fn get(&self) -> u8
        ensures { result ≡ self.now.n }
    {
        self.n
    }

    // How many seats make a quorum: one more than may go wrong.
    pub fn quorum(&self) -> u8
        ensures { result ≡ quorum self.now.n }
    {
        (self.n - 1) / 2 + 1
    }
}
