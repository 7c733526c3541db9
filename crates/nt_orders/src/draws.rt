//! Random numbers.
ghost use Rattle.std.specs.Prelude.{◌≡◌, ◌<◌, ◌%◌};
ghost use Rattle.rand_xoshiro.specs.Xoshiro256.{plus_plus};

use rand_core::SeedableRng;
use rand_core::utils::NextWord;
use rand_xoshiro::Xoshiro256PlusPlus;

/// A generator of random numbers, xoshiro256++: the same seed gives the same numbers.
#[derive(Drop)]
pub(crate) struct Draws {
    words: Xoshiro256PlusPlus,
}

impl Draws {
    /// The generator of the seed.
    pub(crate) fn new(seed: u64) -> Draws {
        Draws {
            words: Xoshiro256PlusPlus::seed_from_u64(seed),
        }
    }

    /// A number below the limit: what is left of the next word when it is divided by the limit. For
    /// limits that are small against 2^64 the numbers come about equally often.
    pub(crate) fn below(&mut self, limit: u64) -> u64
        requires { 0 < limit }
        ensures within { result < limit }
        ensures value { result ≡ (plus_plus self.old.words).0 % limit }
        ensures moved { self.new.words ≡ (plus_plus self.old.words).1 }
    {
        self.words.next_word() % limit
    }
}
