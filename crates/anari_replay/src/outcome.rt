//! What a run comes to.
ghost use Rattle.std.specs.Prelude.{◌≡◌, []};
ghost use Rattle.replay_core.specs.Views.{notices_of};
ghost use Rattle.seq_model.specs.Builds.{builds};
ghost use Rattle.seq_model.specs.Legal.{Legal};
ghost use Rattle.seq_model.specs.Told.{told};
ghost use Rattle.anari_replay.specs.Outcome.{status_of, trace_fault_of};

use crate::fault::Fault;
use replay_core::{NoticeList, Replayed};
use seq_model::Journal;
use std::alloc::Global;
use trace_text::TraceFault;

/// What a run of the program comes to.
#[derive(Drop)]
pub struct Outcome {
    /// 0 done, 2 words refused, 3 out of memory, 4 read fault, 5 write fault, 6 trace refused.
    pub status: u8,
    /// The calls that were made, each with its reply, and the notes of the device. With status 3 a
    /// part of them. Empty where there was no replay.
    pub history: Journal,
    /// What the client was told.
    pub told: NoticeList,
    /// How many worlds were prepared.
    pub builds: u64,
    /// Why the trace was refused; there with status 6 alone.
    pub fault: Option<TraceFault>,
    /// How many times a ray was tested against a primitive.
    pub tests: u64,
}

impl Outcome {
    /// The outcome of a replay of which was written what was asked for, or why it was not.
    pub fn of(replayed: Replayed, written: Result<(), Fault>) -> Outcome
        ensures status { result.status ≡ status_of written }
        ensures fault { result.fault ≡ trace_fault_of written }
        ensures history { result.history ≡ replayed.history }
        ensures told { result.told ≡ replayed.told }
        ensures builds { result.builds ≡ replayed.builds }
    {
        let (status, fault) = match written {
            Ok(()) => (0, None),
            Err(Fault::Words) => (2, None),
            Err(Fault::Memory) => (3, None),
            Err(Fault::Read) => (4, None),
            Err(Fault::Write) => (5, None),
            Err(Fault::Trace(fault)) => (6, Some(fault)),
        };
        Outcome {
            status,
            history: replayed.history,
            told: replayed.told,
            builds: replayed.builds,
            fault,
            tests: replayed.tests,
        }
    }

    /// The outcome of a run that made no call.
    #[tactic(auto, unfolding(seq_model::specs::Builds::builds, seq_model::specs::Legal::GoesOn, seq_model::specs::Legal::Legal, seq_model::specs::Told::told, seq_model::specs::Told::told_from))]
    pub fn without_replay(alloc: Global, ending: Result<(), Fault>) -> Outcome
        ensures status { result.status ≡ status_of ending }
        ensures fault { result.fault ≡ trace_fault_of ending }
        ensures unmade { result.history ≡ [] }
        ensures untold { notices_of result.told ≡ [] }
        ensures legal { Legal result.history }
        ensures told { notices_of result.told ≡ told result.history }
        ensures builds { result.builds ≡ builds result.history }
    {
        let nothing = Replayed {
            history: Journal::of(Vec::new(alloc)),
            told: NoticeList::new(alloc),
            builds: 0,
            tests: 0,
            short: false,
        };
        Outcome::of(nothing, ending)
    }

    /// Why the run ended early, whose text is the line on standard error; `None` with status 0.
    pub fn complaint(&self) -> Option<Fault> {
        match (self.status, self.fault) {
            (2, _) => Some(Fault::Words),
            (3, _) => Some(Fault::Memory),
            (4, _) => Some(Fault::Read),
            (5, _) => Some(Fault::Write),
            (_, fault) => fault.map(Fault::Trace),
        }
    }
}
