//! The generator.
ghost use Rattle.std.specs.Prelude.{◌≡◌, ◌<◌};
ghost use Rattle.nt_load.specs.Draws.{after, draw};

/// A generator of values. Its number is at first the seed.
#[derive(Drop)]
pub struct Draws {
    number: u32,
}

impl Draws {
    /// A generator from a seed.
    pub fn new(seed: u32) -> Draws
        ensures { result.number ≡ seed }
    {
        Draws { number: seed }
    }

    /// Draws a value below `limit`. The product of two numbers below 2^32 and 2^31 and the
    /// increment fit 64 bits.
    #[tactic(auto, unfolding(crate::specs::Draws::after, crate::specs::Draws::next))]
    pub fn draw(&mut self, limit: u32) -> u32
        requires { 0 < limit }
        ensures value { result ≡ draw 0 limit self.old.number }
        ensures within { result < limit }
        ensures moved { self.new.number ≡ after 1 self.old.number }
    {
        let number = (u64::from(self.number) * 1_103_515_245 + 12_345) % 2_147_483_648;
        self.number = number as u32;
        self.number / 65_536 % limit
    }
}
