// A seal with its seat.
ghost use Rattle.std.specs.Prelude.{◌≡◌, ◌<◌, length};

// A seat's seal on a vote or a blame: the seat is one of the 15 that there can be, and the seal is whole.
#[derive(Clone, Copy)]
pub struct SeatSeal<'a, const S: usize> {
    pub seat: u8,
    pub bytes: &'a [u8],
    ghost possible: { seat < 15 },
    ghost whole: { length bytes.now ≡ S },
}
