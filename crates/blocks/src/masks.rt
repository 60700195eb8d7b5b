// Sets of seats as bits: seat i is in the set if bit i is one.
ghost use Rattle.std.specs.Prelude.{◌≡◌, ◌<◌};
ghost use Rattle.blocks.specs.Masks.{bit, lawful_mask};

use crate::seats::SeatCount;

// Whether a seat is in the set.
pub fn has(mask: u16, seat: u8) -> bool
    requires { seat < 16 }
    ensures { result ≡ bit mask seat }
{
    (mask >> seat) % 2 == 1
}

// Whether the set is exactly a quorum of seats, all below the number of seats.
pub fn lawful_mask(seats: SeatCount, mask: u16) -> bool
    ensures { result ≡ lawful_mask seats.n mask }
{
    mask < 1 << seats.get() && mask.count_ones() == u32::from(seats.quorum())
}
