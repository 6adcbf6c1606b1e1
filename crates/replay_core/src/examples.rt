//! A worked replay, computed: the contract of a function that does nothing.
ghost use Rattle.std.specs.Prelude.{◌≡◌};
ghost use Rattle.replay_core.specs.Examples.{triangle_trace};
ghost use Rattle.replay_core.specs.Solo.{solo};
ghost use Rattle.seq_model.specs.Examples.{triangle_history};

/// The triangle's trace on one thread has the worked history.
#[tactic(auto, using(crate::proofs::Rows::triangle_solo))]
pub fn the_triangle()
    ensures { solo triangle_trace ≡ triangle_history }
{}
