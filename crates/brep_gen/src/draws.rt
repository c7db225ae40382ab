//! Draws of a linear congruential generator.
ghost use Rattle.std.specs.Prelude.{◌≡◌};
ghost use Rattle.brep_gen.specs.Draws.{draw, state_after};

/// The state that the next draw is made from, the seed at first.
#[derive(Drop)]
pub(crate) struct Draws {
    pub(crate) state: u64,
}

impl Draws {
    /// The next draw, of 31 bits.
    pub(crate) fn next(&mut self) -> u64
        ensures state { self.new.state ≡ state_after self.old.state }
        ensures drawn { result ≡ draw self.old.state 0 }
    {
        self.state = self
            .state
            .wrapping_mul(6_364_136_223_846_793_005)
            .wrapping_add(1_442_695_040_888_963_407);
        self.state >> 33
    }
}
