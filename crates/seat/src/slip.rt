// The dispatch slip: the duty to send what a call answered, before the seat is called again.

// A slip has to be given back by `sent`: it is not dropped, and not made elsewhere. So a slip that is let go, and one
// that is given back twice, do not compile.
#[must_use]
pub struct Slip {
    given: (),
}

impl Slip {
    pub(crate) fn give() -> Slip {
        Slip { given: () }
    }

    pub(crate) fn spend(self) {
        let Slip { given: () } = self;
    }
}
