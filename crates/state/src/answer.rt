// What a call answers.
ghost use Rattle.std.specs.Prelude.{◌≡◌};
ghost use Rattle.state.specs.Answers.{saying};

// What a call did, in one word.
#[derive(Clone, Copy, PartialEq, Eq, Debug)]
pub enum Word {
    // nothing that changes the log's course
    Idle,
    // a proposal was noted
    Noted,
    // a proposal was accepted, and is passed on
    Accepted,
    // a second proposal of one rank: the seat is spoiled
    Clash,
    // a certificate was taken in
    Certified,
    // a vote or a blame was counted
    Counted,
    // the seat leaves a view
    Left,
    // the seat's own entry was proposed
    Offered,
    // the seat entered a view
    Entered,
    // the seat voted
    Voted,
    // the seat blamed its view
    Blamed,
}

// Where an item to send lies: the whole message that was handed in, or a part of the outbox.
// Not an Option of the part, since the names say which of the two it is.
#[derive(Clone, Copy, PartialEq, Eq, Debug)]
pub enum Item {
    Inbox,
    Outbox { from: usize, to: usize },
}

// What a call answers: its word, the height that it committed (0 if none), and the items to send, which stand in this order.
#[derive(Clone, Copy)]
pub struct Answer {
    pub word: Word,
    pub height: u32,
    pub certificate: Option<Item>,
    pub message: Option<Item>,
    pub blame: Option<Item>,
}

impl Answer {
    // Only a word: nothing is sent, nothing committed.
    pub fn of(word: Word) -> Answer
        ensures { result ≡ saying word }
    {
        Answer {
            word,
            height: 0,
            certificate: None,
            message: None,
            blame: None,
        }
    }
}
