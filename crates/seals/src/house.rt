// House seals: the house keeps a key for each seat, and a seal is the hash of the statement under the seat's key.
ghost use Rattle.std.specs.Prelude.{◌≡◌, ◌∷◌};
ghost use Rattle.rota.specs.Limits.{MadeWithin};
ghost use Rattle.seals.specs.Checks.{eight};
ghost use Rattle.seals.specs.House.{keys_lawful, house_seal, is_seal, house_accepts, house_sized, OneGoodSeal};

use crate::check::SealCheck;
use crate::siphash::{KEY_LENGTH, hash_under};
use content::refusal::Refusal;
use rota::leaders::seats_in_limits;

// One key for each seat, in a row.
#[derive(Clone, Copy)]
pub struct HouseSeals<'a> {
    keys: &'a [u8],
}

impl<'a> HouseSeals<'a> {
    // The length of a seal, in bytes.
    pub const SEAL_LENGTH: usize = 8;

    // The keys of a log of n seats.
    pub fn new(keys: &'a [u8], n: u8) -> Result<HouseSeals<'a>, Refusal>
        ensures { MadeWithin (keys_lawful n keys.now) (λ v. v.keys.now ≡ keys.now) result }
    {
        if !(seats_in_limits(n) && keys.len() == KEY_LENGTH * n as usize) {
            return Err(Refusal::OutOfLimits);
        }
        Ok(HouseSeals { keys })
    }

    // The signing box: the seat's seal on the statement that is the tag byte and then the body, or nothing if
    // the seat has no key.
    pub fn sign(&self, seat: u8, tag: u8, body: &[u8]) -> Option<[u8; HouseSeals::SEAL_LENGTH]>
        ensures seal { result ≡ house_seal self.now.keys.now seat (tag ∷ body.now) }
        ensures alone { house_accepts self.now.keys.now seat (tag ∷ body.now) ≡ is_seal result }
    {
        let (keys, _) = self.keys.as_chunks::<KEY_LENGTH>();
        let key = keys.get(seat as usize)?;
        Some(hash_under(key, tag, body).to_le_bytes())
    }
}

// That a seal is good exactly if it is the one that the signing box makes.
pub fn one_good_seal()
    ensures { OneGoodSeal }
{}

impl<'a> SealCheck<{ HouseSeals::SEAL_LENGTH }> for HouseSeals<'a> {
    ghost lengths = { eight };

    ghost accepts = { λ c. house_accepts c.keys.now };

    ghost sized = { λ c. house_sized c.keys.now };

    fn check(&mut self, seat: u8, tag: u8, body: &[u8], seal: &[u8]) -> bool {
        matches!(self.sign(seat, tag, body), Some(good) if good[..] == seal[..])
    }
}
