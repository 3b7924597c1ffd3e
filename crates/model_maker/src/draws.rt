//! The draws that follow on a number.

ghost use Rattle.std.specs.Prelude.{◌≡◌};
ghost use Rattle.model_maker.specs.Draws.{drawn, next_state};

/// What is drawn from: each draw gives a number of 32 bits, and goes on to the next state.
#[derive(Drop)]
pub struct Draws {
    /// Where the draws stand; at first the number that the model is made of.
    pub state: u64,
}

impl Draws {
    /// The next number.
    #[inline]
    #[tactic(auto, unfolding(crate::specs::Draws::next_state))]
    pub fn draw(&mut self) -> u32
        ensures state { self.new.state ≡ next_state self.old.state }
        ensures drawn { result ≡ drawn self.new.state }
    {
        self.state = self
            .state
            .wrapping_mul(6_364_136_223_846_793_005)
            .wrapping_add(1_442_695_040_888_963_407);
        (self.state >> 32) as u32
    }
}
