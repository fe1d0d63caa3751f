//! Dice for tests.
ghost use Rattle.std.specs.Prelude.{◌<◌};

/// Throws of dice, the same ones from the same seed.
#[derive(Clone, Copy)]
pub struct Dice {
    state: u64,
}

impl Dice {
    /// Returns the dice of a seed.
    pub fn new(seed: u64) -> Dice {
        Dice { state: seed }
    }

    /// Returns a number below the count of sides.
    pub fn throw(&mut self, sides: u64) -> u64
        requires sides { 0 < sides }
        ensures below { result < sides }
    {
        self.state = self
            .state
            .wrapping_mul(6_364_136_223_846_793_005)
            .wrapping_add(1_442_695_040_888_963_407);
        (self.state >> 33) % sides
    }
}
