// SipHash-2-4, a keyed hash of 64 bits: eight bytes at a time, and what is left over with the length.
ghost use Rattle.std.specs.Prelude.{◌≡◌, ◌+◌, ◌*◌, ◌%◌, ◌^◌, ◌<◌, ◌∷◌, length};
ghost use Rattle.std.specs.List.{fold};
ghost use Rattle.content.specs.Numbers.{number};
ghost use Rattle.seals.specs.SipHash.{sip_round, sip_rounds, start, compress, absorb_rest, finish, sip_hash, rising};

// The length of a key, in bytes.
pub const KEY_LENGTH: usize = 16;

// The four words that a message goes into.
#[derive(Clone, Copy)]
struct State {
    v0: u64,
    v1: u64,
    v2: u64,
    v3: u64,
}

impl State {
    // The state that a key begins with.
    fn new(key: &[u8; KEY_LENGTH]) -> State
        ensures { result ≡ start key.now }
    {
        let (halves, _) = key.as_chunks::<8>();
        let (k0, k1) = (whole_word(&halves[0]), whole_word(&halves[1]));
        State {
            v0: k0 ^ 0x736f6d6570736575,
            v1: k1 ^ 0x646f72616e646f6d,
            v2: k0 ^ 0x6c7967656e657261,
            v3: k1 ^ 0x7465646279746573,
        }
    }

    fn round(self) -> State
        ensures { result ≡ sip_round self }
    {
        let v0 = self.v0.wrapping_add(self.v1);
        let v2 = self.v2.wrapping_add(self.v3);
        let v1 = self.v1.rotate_left(13) ^ v0;
        let v3 = self.v3.rotate_left(16) ^ v2;
        let v2 = v2.wrapping_add(v1);
        let v0 = v0.rotate_left(32).wrapping_add(v3);
        State {
            v0,
            v1: v1.rotate_left(17) ^ v2,
            v2: v2.rotate_left(32),
            v3: v3.rotate_left(21) ^ v0,
        }
    }

    #[tactic(auto, unfolding(crate::specs::SipHash::sip_rounds))]
    fn rounds(self, count: u8) -> State
        ensures { result ≡ sip_rounds count self }
    {
        let mut state = self;
        for _ in 0..count {
            state = state.round();
        }
        state
    }

    // Takes in a word.
    fn compress(self, word: u64) -> State
        ensures { result ≡ compress self word }
    {
        let met = State {
            v3: self.v3 ^ word,
            ..self
        };
        let mut state = met.rounds(2);
        state.v0 ^= word;
        state
    }

    // The answer, once every word is in.
    fn finish(self) -> u64
        ensures { result ≡ finish self }
    {
        let met = State {
            v2: self.v2 ^ 0xff,
            ..self
        };
        let end = met.rounds(4);
        (end.v0 ^ end.v1) ^ (end.v2 ^ end.v3)
    }

    // Takes in the last word of a message of this size, whose leftover bytes have this number, and answers.
    fn close(self, part: u64, size: usize) -> u64
        requires { part < 2 ^ 56 }
        ensures { result ≡ finish (compress self (part + size % 256 * 2 ^ 56)) }
    {
        self.compress(part + (((size % 256) as u64) << 56)).finish()
    }

    // Takes in these words of eight bytes.
    fn compress_all(self, words: &[[u8; 8]]) -> State
        ensures { result ≡ fold (λ state word. compress state (number word)) self words.now }
    {
        words
            .iter()
            .fold(self, |state, word| state.compress(whole_word(word)))
    }

    // Takes in these last bytes of a message of this size, and answers.
    fn absorb(self, bytes: &[u8], size: usize) -> u64
        ensures { result ≡ finish (absorb_rest self size bytes.now) }
    {
        let (words, rest) = bytes.as_chunks::<8>();
        self.compress_all(words).close(part_word(rest), size)
    }
}

// The hash of a message.
pub fn sip_hash(key: &[u8; KEY_LENGTH], message: &[u8]) -> u64
    ensures { result ≡ sip_hash key.now message.now }
{
    State::new(key).absorb(message, message.len())
}

// A published example: the key is the bytes 0 to 15, and the message the bytes 0 to 14.
pub fn published_example() -> u64
    ensures { result ≡ sip_hash (rising 16 0) (rising 15 0) }
{
    0xa129ca6149be45e5
}

// The hash of the message that is a tag byte and then a body, which need not lie side by side.
pub(crate) fn hash_under(key: &[u8; KEY_LENGTH], tag: u8, body: &[u8]) -> u64
    ensures { result ≡ sip_hash key.now (tag ∷ body.now) }
{
    let state = State::new(key);
    let size = body.len() + 1;
    match body.split_first_chunk::<7>() {
        Some((first, rest)) => state.compress(first_word(tag, first)).absorb(rest, size),
        None => state.close(first_word(tag, body), size),
    }
}

// The number of eight bytes.
#[tactic(auto, using(content::proofs::Numbers::from_le_64))]
fn whole_word(bytes: &[u8; 8]) -> u64
    ensures { result ≡ number bytes.now }
{
    u64::from_le_bytes(*bytes)
}

// The number of fewer than eight bytes: zeros behind them alter nothing.
fn part_word(bytes: &[u8]) -> u64
    requires { length bytes.now < 8 }
    ensures value { result ≡ number bytes.now }
    ensures room { result < 256 ^ length bytes.now }
{
    let mut word = [0; 8];
    word[..bytes.len()].copy_from_slice(bytes);
    whole_word(&word)
}

// The number of a tag byte and at most seven bytes after it.
fn first_word(tag: u8, bytes: &[u8]) -> u64
    requires { length bytes.now < 8 }
    ensures value { result ≡ number (tag ∷ bytes.now) }
    ensures room { result < 256 ^ (length bytes.now + 1) }
{
    tag as u64 + 256 * part_word(bytes)
}
