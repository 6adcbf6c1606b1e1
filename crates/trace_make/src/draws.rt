//! The generator's numbers.
ghost use Rattle.std.specs.Prelude.{◌≡◌, ◌<◌};
ghost use Rattle.trace_make.specs.Draws.{next_state, number_of};

const MULTIPLIER: u64 = 6364136223846793005;

const INCREMENT: u64 = 1442695040888963407;

/// A linear congruential sequence of numbers below 2^64.
#[derive(Drop)]
pub(crate) struct Draws {
    state: u64,
}

impl Draws {
    /// The sequence that begins behind a seed.
    pub(crate) fn from_seed(seed: u32) -> Draws
        ensures { result.state ≡ seed }
    {
        Draws { state: seed as u64 }
    }

    /// The next number, brought below `below`.
    pub(crate) fn draw(&mut self, below: u32) -> u32
        requires { 0 < below }
        ensures drawn { result ≡ number_of below self.new.state }
        ensures moved { self.new.state ≡ next_state self.old.state }
        ensures bounded { result < below }
    {
        self.state = self.state.wrapping_mul(MULTIPLIER).wrapping_add(INCREMENT);
        let upper = (self.state >> 33) as u32;
        upper % below
    }
}
