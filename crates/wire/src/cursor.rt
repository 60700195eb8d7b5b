// The fields of a message, each taken off the front of the bytes that are left.
ghost use Rattle.std.specs.Prelude.{◌≡◌, ◌+◌, ◌^◌, ◌<◌, length, OnOk};
ghost use Rattle.wire.specs.Meaning.{bytes_of, taken, taken_by};
ghost use Rattle.wire.specs.Reading.{Moved, peel, peel_number, peel_seat, peel_mask, peel_seals, ended};

use blocks::masks::lawful_mask;
use blocks::seats::SeatCount;
use content::refusal::Refusal;

// The bytes of a message that are left, and their offset.
#[derive(Drop)]
pub(crate) struct Cursor<'a> {
    rest: &'a [u8],
    at: usize,
    ghost room: { at + length rest.now < 2 ^ 63 },
}

impl<'a> Cursor<'a> {
    pub(crate) fn of(bytes: &'a [u8]) -> Cursor<'a>
        ensures rest { result.rest.now ≡ bytes.now }
        ensures at { result.at ≡ 0 }
    {
        Cursor { rest: bytes, at: 0 }
    }

    pub(crate) fn at(&self) -> usize
        ensures { result ≡ self.now.at }
    {
        self.at
    }

    // Some bytes, as they lie.
    pub(crate) fn take(&mut self, len: usize) -> Result<&'a [u8], Refusal>
        ensures value { taken_by bytes_of result self.new.rest.now ≡ peel len self.old.at self.old.rest.now }
        ensures moved { OnOk result (Moved len self.old.at self.old.rest.now self.new.at self.new.rest.now) }
    {
        let short = Refusal::Short { at: self.at };
        let (front, rest) = self.rest.split_at_checked(len).ok_or(short)?;
        self.at += len;
        self.rest = rest;
        Ok(front)
    }

    // The same, as many as the type says.
    fn array<const N: usize>(&mut self) -> Result<[u8; N], Refusal>
        ensures value { taken result self.new.rest.now ≡ peel N self.old.at self.old.rest.now }
        ensures moved { OnOk result (Moved N self.old.at self.old.rest.now self.new.at self.new.rest.now) }
    {
        Ok(*self.take(N)?.as_array().unwrap())
    }

    // Numbers of one, two and four bytes: a line for each, since it is each type's own `from_le_bytes` that makes them.
    pub(crate) fn u8(&mut self) -> Result<u8, Refusal>
        ensures value { taken result self.new.rest.now ≡ peel_number 1 self.old.at self.old.rest.now }
        ensures moved { OnOk result (Moved 1 self.old.at self.old.rest.now self.new.at self.new.rest.now) }
    {
        Ok(u8::from_le_bytes(self.array()?))
    }

    pub(crate) fn u16(&mut self) -> Result<u16, Refusal>
        ensures value { taken result self.new.rest.now ≡ peel_number 2 self.old.at self.old.rest.now }
        ensures moved { OnOk result (Moved 2 self.old.at self.old.rest.now self.new.at self.new.rest.now) }
    {
        Ok(u16::from_le_bytes(self.array()?))
    }

    pub(crate) fn u32(&mut self) -> Result<u32, Refusal>
        ensures value { taken result self.new.rest.now ≡ peel_number 4 self.old.at self.old.rest.now }
        ensures moved { OnOk result (Moved 4 self.old.at self.old.rest.now self.new.at self.new.rest.now) }
    {
        Ok(u32::from_le_bytes(self.array()?))
    }

    // A seat, below the number of seats.
    pub(crate) fn seat(&mut self, seats: SeatCount) -> Result<u8, Refusal>
        ensures value { taken result self.new.rest.now ≡ peel_seat seats.n self.old.at self.old.rest.now }
        ensures moved { OnOk result (Moved 1 self.old.at self.old.rest.now self.new.at self.new.rest.now) }
    {
        let at = self.at;
        let seat = self.u8()?;
        if seat >= seats.get() {
            return Err(Refusal::BadLayout { at });
        }
        Ok(seat)
    }

    // A set of exactly a quorum of seats, all below the number of seats.
    pub(crate) fn mask(&mut self, seats: SeatCount) -> Result<u16, Refusal>
        ensures value { taken result self.new.rest.now ≡ peel_mask seats.n self.old.at self.old.rest.now }
        ensures moved { OnOk result (Moved 2 self.old.at self.old.rest.now self.new.at self.new.rest.now) }
    {
        let at = self.at;
        let mask = self.u16()?;
        if !lawful_mask(seats, mask) {
            return Err(Refusal::BadLayout { at });
        }
        Ok(mask)
    }

    // As many seals of S bytes in a row, as they lie: a loop, since the first that does not fit is the field that is short.
    pub(crate) fn seals<const S: usize>(&mut self, count: u8) -> Result<&'a [u8], Refusal>
        ensures value { taken_by bytes_of result self.new.rest.now ≡ peel_seals S count self.old.at self.old.rest.now }
        ensures end { OnOk result (self.new.at + length self.new.rest.now ≡ self.old.at + length self.old.rest.now) }
    {
        let bytes = self.rest;
        for _i in 0..count {
            self.take(S)?;
        }
        let (row, _) = bytes.split_at(bytes.len() - self.rest.len());
        Ok(row)
    }

    // What was read, if nothing is left.
    pub(crate) fn end<T: Copy>(&self, whole: T) -> Result<T, Refusal>
        ensures { result ≡ ended (self.now.at + length self.now.rest.now) (whole, self.now.rest.now) }
    {
        if !self.rest.is_empty() {
            return Err(Refusal::Trailing { at: self.at });
        }
        Ok(whole)
    }
}
