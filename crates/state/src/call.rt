// What one call of a seat is given.
ghost use Rattle.std.specs.Prelude.{◌≤◌, length};

use crate::state::Terms;

// What one call of a seat whose seals have S bytes is given beside what the seat keeps: what it was made from, and the
// outbox that the caller lends. Seals have at most 64 bytes, and the outbox has 1,024 or more.
// The state is a parameter of its own: behind a field its size is not known, which its methods ask for.
#[derive(Drop)]
pub struct Call<'c, const S: usize> {
    pub terms: &'c Terms,
    pub outbox: &'c mut [u8],
    ghost short: { S ≤ 64 },
    ghost room: { 1024 ≤ length outbox.now },
}
