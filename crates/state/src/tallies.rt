// Seals of votes and blames, kept by seat until a quorum of them stands.
ghost use Rattle.std.specs.Prelude.{◌≡◌, ◌<◌, length};
ghost use Rattle.state.specs.HandIn.{add_seal, counts_blame, drop_seal, quorate};

use crate::seal::SeatSeal;
use crate::state::{State, Terms};
use blocks::rows::SealRow;

// Keeps a seat's seal.
pub fn add_seal<const S: usize>(row: &mut SealRow<S>, seal: &SeatSeal<'_, S>)
    ensures { row.new ≡ add_seal row.old seal.now.seat seal.now.bytes.now }
{
    row.keep(seal.seat, seal.bytes);
}

// Takes it back.
pub fn drop_seal<const S: usize>(row: &mut SealRow<S>, seat: u8)
    requires { seat < 15 }
    ensures { row.new ≡ drop_seal row.old seat }
{
    row.by_seat[seat as usize] = None;
}

// Whether a quorum of seals is there.
pub fn quorate<const S: usize>(terms: &Terms, row: &SealRow<S>) -> bool
    ensures { result ≡ quorate terms.now row.now }
{
    row.count() == terms.seats.quorum()
}

impl<const S: usize, R: Copy> State<S, R> {
    // Whether a blame counts: for the view of a seat that is on, once a seat.
    pub fn counts_blame(&self, seat: u8, view: u16) -> bool
        ensures { result ≡ counts_blame self.entry.now seat view }
    {
        self.is_on() && (self.view == view) & !self.blames.has(seat)
    }
}
