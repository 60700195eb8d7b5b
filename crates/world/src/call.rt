// Calls at the seats of a world, and what they answer.
use content::refusal::Refusal;
use state::answer::Answer;

// One of the four calls, with the bytes that it is given.
#[derive(Clone, Copy)]
pub enum What<'c> {
    // a message is handed in
    HandIn(&'c [u8]),
    Tick,
    // an entry is offered
    Offer(&'c [u8]),
    // the slip is given back
    Sent,
}

// A call at the seat of a number, with an outbox of so many bytes.
#[derive(Clone, Copy)]
pub struct Call<'c> {
    pub seat: u8,
    pub what: What<'c>,
    pub room: usize,
}

// What a call answered, and its outbox after it, which held zeros before.
#[derive(Drop)]
pub struct Reply {
    pub answer: Result<Answer, Refusal>,
    pub outbox: Vec<u8>,
}

// What became of a list of calls: the replies to those that were made and, where memory did not suffice for all, the refusal.
#[derive(Drop)]
pub struct Replayed {
    pub replies: Vec<Reply>,
    pub ended: Result<(), Refusal>,
}
