// Seals kept by seat, and seals in a row.
ghost use Rattle.std.specs.Prelude.{◌≡◌, ℕ, ◌≤◌, List, length, replicate, None};
ghost use Rattle.std.specs.Iterator.{IsFinite, AlwaysYields};
ghost use Rattle.blocks.specs.Keeping.{has_kept, keep_seal, padded};
ghost use Rattle.blocks.specs.Masks.{count_kept, mask_kept, row_kept};

// How much memory holds a row of seals: 8 of 64 bytes. It is of a fixed size, since a seat takes no heap; how long the
// row in it is follows from its set of seats.
pub const ROW: usize = 512;

// The seals of some seats on one statement: for each of the 15 possible seats its seal, if it is there.
#[derive(Drop)]
pub struct SealRow<const S: usize> {
    pub by_seat: [Option<[u8; S]>; 15],
}

// How many seals are there: a loop over the seats, since a chain took more than twice its time, and it is asked at each vote.
fn count_kept<const S: usize>(slots: &[Option<[u8; S]>]) -> u8
    requires { length slots.now ≤ 15 }
    ensures { result ≡ count_kept slots.now }
{
    let mut count = 0;
    for i in 0..slots.len() {
        if slots[i].is_some() {
            count += 1;
        }
    }
    count
}

// A row of these bytes: zeros behind them, and what does not fit is cut off.
fn row_of<'a, I: Iterator<Item = &'a u8>>(bytes: I) -> [u8; ROW]
    requires can { I.can_next bytes }
    requires finite { IsFinite (I.remaining bytes) }
    ensures { (xs : List ℕ) → AlwaysYields I.next_gives (λ b. b.now) bytes xs → result ≡ padded 512 xs }
{
    let mut row = [0; ROW];
    // by index: what is written through a zip over iter_mut is not known of the row afterwards
    for (at, byte) in bytes.take(ROW).enumerate() {
        row[at] = *byte;
    }
    row
}

// A row of seals, kept in memory of its own: zeros behind it, and what does not fit is cut off.
pub fn kept_row(row: &[u8]) -> [u8; ROW]
    ensures { result ≡ padded 512 row.now }
{
    row_of(row.iter())
}

impl<const S: usize> SealRow<S> {
    pub fn empty() -> SealRow<S>
        ensures { result.by_seat ≡ replicate 15 None }
    {
        SealRow {
            by_seat: [None; 15],
        }
    }

    // Whether the seat's seal is there.
    pub fn has(&self, seat: u8) -> bool
        ensures { result ≡ has_kept self.now.by_seat seat }
    {
        matches!(self.by_seat.get(seat as usize), Some(Some(_)))
    }

    // How many seals are there.
    pub fn count(&self) -> u8
        ensures { result ≡ count_kept self.now.by_seat }
    {
        count_kept(&self.by_seat)
    }

    // The set of their seats.
    pub fn mask(&self) -> u16
        ensures { result ≡ mask_kept self.now.by_seat }
    {
        let mut mask = 0;
        for (seat, slot) in self.by_seat[..].iter().enumerate() {
            if slot.is_some() {
                mask |= 1 << seat;
            }
        }
        mask
    }

    // The seals in a row, by rising seat.
    pub fn row(&self) -> [u8; ROW]
        ensures { result ≡ padded 512 (row_kept self.now.by_seat) }
    {
        row_of(self.by_seat.iter().flatten().flatten())
    }

    // Keeps a copy of a seat's seal. A seal of another length, or of a seat that cannot be, changes nothing.
    pub fn keep(&mut self, seat: u8, seal: &[u8])
        ensures { self.new.by_seat ≡ keep_seal S self.old.by_seat seat seal.now }
    {
        if seat >= 15 {
            return;
        }
        let Ok(copy) = <[u8; S]>::try_from(seal) else {
            return;
        };
        // by index: what is written through get_mut's reference is not known of the array afterwards
        self.by_seat[seat as usize] = Some(copy);
    }
}
