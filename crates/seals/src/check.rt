// What every seal check offers: a yes or no for each seat, statement and seal.
ghost use Rattle.std.specs.Prelude.{◌≡◌, ℕ, Bool, List, ◌∷◌};
ghost use Rattle.seals.specs.Checks.{SealLength, Sized};

// A check whose seals have S bytes, 1 to 64.
pub trait SealCheck<const S: usize> {
    // S is a lawful length
    ghost lengths: { SealLength S };

    // for a seat, a statement and a seal: whether the seal is good
    ghost accepts: { Self → ℕ → List ℕ → List ℕ → Bool };

    // a good seal has S bytes
    ghost sized: { Sized S accepts };

    // Whether this seal is the seat's on the statement that is the tag byte and then the body. Asking
    // alters no later answer.
    // Four parameters and no struct, and the tag any byte: checks that others write have this signature.
    fn check(&mut self, seat: u8, tag: u8, body: &[u8], seal: &[u8]) -> bool
        ensures answer { result ≡ accepts self.old seat (tag ∷ body.now) seal.now }
        ensures kept { accepts self.new ≡ accepts self.old };
}
