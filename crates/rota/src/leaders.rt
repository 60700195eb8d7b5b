// What a rota is: a seat for each view, the same whenever it is asked.
ghost use Rattle.std.specs.Prelude.{◌≡◌, ℕ, ◌<◌};
ghost use Rattle.rota.specs.Limits.{seats_lawful};

pub trait Rota {
    // the number of seats
    ghost seats: { Self → ℕ };
    // the seat that leads a view
    ghost leads: { Self → ℕ → ℕ };

    // How many seats the rota is for.
    fn seat_count(&self) -> u8
        ensures { result ≡ seats self.now };

    // The seat that leads this view.
    fn leader(&self, view: u16) -> u8
        ensures { result ≡ leads self.now view };

    // every view's leader is one of the seats
    ghost below: { (r : Self) (view : ℕ) → leads r view < seats r };
}

// The least and the most seats of a log; their number is odd.
pub const FEWEST_SEATS: u8 = 3;

pub const MOST_SEATS: u8 = 15;

// Whether a log may have this many seats.
pub fn seats_in_limits(n: u8) -> bool
    ensures { result ≡ seats_lawful n }
{
    FEWEST_SEATS <= n && n <= MOST_SEATS && n % 2 == 1
}
