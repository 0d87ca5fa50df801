//! Numbers drawn from a seed.

ghost use Rattle.std.specs.Prelude.{◌≡◌, ◌/◌, ◌^◌};
ghost use Rattle.model_gen.specs.Draws.{next_state, state_after, draw};

const MULTIPLIER: u64 = 6_364_136_223_846_793_005;

const INCREMENT: u64 = 1_442_695_040_888_963_407;

/// A generator of numbers below 2 ^ 31: a linear congruential generator with the constants of Knuth's MMIX. Its first
/// state is the seed.
#[derive(Drop)]
pub struct Generator {
    pub state: u64,
}

impl Generator {
    /// The next number.
    #[tactic(auto, unfolding(crate::specs::Draws::next_state, crate::specs::Draws::state_after, crate::specs::Draws::draw))]
    pub fn draw(&mut self) -> u64
        ensures state { self.new.state ≡ state_after self.old.state 1 }
        ensures drawn { result ≡ draw self.old.state 0 }
    {
        self.step();
        self.state / 8_589_934_592
    }

    #[tactic(auto, unfolding(crate::specs::Draws::next_state))]
    fn step(&mut self)
        ensures { self.new.state ≡ next_state self.old.state }
    {
        self.state = self.state.wrapping_mul(MULTIPLIER).wrapping_add(INCREMENT);
    }
}
