// Drawing numbers.

ghost use Rattle.std.specs.Prelude.{◌≡◌, ◌<◌, ◌^◌};
ghost use Rattle.workload_gen.specs.Draws.{state_of_seed, next_state, drawn};

const MODULUS: u64 = 1 << 31;

const MULTIPLIER: u64 = 1_103_515_245;

const INCREMENT: u64 = 12_345;
// A draw leaves out the last bits of the state, which are the least random ones.
const LEFT_OUT: u64 = 1 << 16;

/// A source of numbers that a seed determines, a linear congruence.
#[derive(Drop)]
pub struct Draws {
    pub state: u64,
    ghost in_range: { state < 2 ^ 31 },
}

impl Draws {
    /// The source at its start.
    #[tactic(auto, unfolding(crate::specs::Draws::state_of_seed))]
    pub fn of_seed(seed: u64) -> Draws
        ensures { result.state ≡ state_of_seed seed }
    {
        Draws {
            state: seed % MODULUS,
        }
    }

    /// The next number, one of so many choices from 0.
    #[tactic(auto, unfolding(crate::specs::Draws::next_state, crate::specs::Draws::value_from, crate::specs::Draws::drawn))]
    pub fn draw(&mut self, choices: u64) -> u64
        requires { 0 < choices }
        ensures value { result ≡ drawn choices self.old.state }
        ensures below { result < choices }
        ensures state { self.new.state ≡ next_state self.old.state }
    {
        self.state = (self.state * MULTIPLIER + INCREMENT) % MODULUS;
        self.state / LEFT_OUT % choices
    }
}
