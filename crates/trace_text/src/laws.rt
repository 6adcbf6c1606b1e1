//! How long a trace is: the law is the contract of a function that does nothing.
ghost use Rattle.std.specs.Prelude.{◌≡◌, ◌≤◌, ℕ, List, Ok};
ghost use Rattle.trace_text.specs.Counts.{calls_in, ends_in};
ghost use Rattle.trace_text.specs.Reading.{trace_of};
ghost use Rattle.trace_text.specs.declared.calls.Trace.{Trace};

/// What is read of a text has at most 262144 calls, and no more loans end in it than it has calls.
#[tactic(auto, using(crate::proofs::FewCalls::has_few_calls, crate::proofs::FewCalls::has_few_ends))]
pub fn traces_have_few_calls()
    ensures calls { (bytes : List ℕ) (trace : Trace)
        → trace_of bytes ≡ Ok trace
        → calls_in trace ≤ 262144 }
    ensures ends { (bytes : List ℕ) (trace : Trace)
        → trace_of bytes ≡ Ok trace
        → ends_in trace ≤ calls_in trace }
{}
