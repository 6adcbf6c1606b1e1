//! The replay of a trace on one thread: phase after phase, the first caller that has a call left makes it, and a
//! flight that is asked for is finished first.
ghost use Rattle.std.specs.Prelude.{◌≡◌, ◌≤◌, ◌∷◌, ◌++◌, All, None, Option, [], length, false, IfErr, IfOk, Ok, OnOk, fold, true};
ghost use Rattle.std.specs.List.{enumerate_from};
ghost use Rattle.std.specs.Option.{option_to_list};
ghost use Rattle.device_parts.specs.Makes.{array_of};
ghost use Rattle.kind_tables.specs.SceneObjects.{Block};
ghost use Rattle.object_steps.specs.Carrying.{handed};
ghost use Rattle.object_steps.specs.declared.array_loans.ArrayLoan.TheVariants.{Nothing};
ghost use Rattle.replay_core.specs.Held.{IsBlank, loan_by};
ghost use Rattle.replay_core.specs.Labels.{binding_of, call_of, handle_of};
ghost use Rattle.replay_core.specs.Loans.{is_unmap, unmap_by};
ghost use Rattle.replay_core.specs.Solo.{caller_replayed, made, phase_replayed, replayed, solo, unmapped, with_reply};
ghost use Rattle.replay_core.specs.Views.{meaning_of, notices_of};
ghost use Rattle.seq_model.specs.Builds.{builds};
ghost use Rattle.seq_model.specs.Contents.{entered};
ghost use Rattle.seq_model.specs.Endings.{ended, reply_to};
ghost use Rattle.seq_model.specs.Legal.{Legal};
ghost use Rattle.seq_model.specs.Steps.{next_place, start};
ghost use Rattle.seq_model.specs.Told.{told};
ghost use Rattle.solo_device.specs.OneThread.{asked_flight, ready_for, with_call};

use crate::bindings::{Binding, Bindings, Labels};
use crate::calls::{call_of, opens};
use crate::loans::{Unmap, gained, give_up, made_or_short};
use crate::notices::NoticeList;
use dev_types::NoMemory;
use seq_model::{Call, Journal, Reply};
use solo_device::{Ended, Handed, SoloDevice};
use std::alloc::{AllocError, Global};
use std::collections::VecDeque;
use std::marker::Model;
use trace_text::{Caller, Phase, Trace, TraceCall};

/// How many entries the journal of a device has at most.
const MOST_ENTRIES: u32 = 1_048_576;

/// Where a replay stands: the device, what the labels of creations were bound to, and the loans that are open, the
/// innermost first, each with the unmap that ends it where it was granted.
pub struct Replay {
    device: SoloDevice<NoticeList>,
    bound: Bindings,
    loans: VecDeque<Option<Unmap>>,
    ghost heard: { device.told ≡ told device.past.seen },
}

impl Model for Replay {
    ghost use Rattle.replay_core.specs.Solo.{Replay as State};

    ghost Value = { State };

    ghost view = { λ r. record {
      past = r.device.past;
      bound = r.bound;
      loans = r.loans.items;
    } };
}

impl Replay {
    /// Finishes the flight that a call asks for.
    fn finish_asked(&mut self, call: &Call)
        ensures past { self.new ≡ record self.old { past = ready_for self.old.past call.now } }
        ensures landed { asked_flight (ready_for self.old.past call.now) call.now ≡ None }
    {
        self.device.finish_asked(call);
    }

    /// Makes a call that is no unmap, and for which the flight that it asks for has finished. Its reply is
    /// handed out, with the loan of a map.
    fn enter(&mut self, alloc: Global, caller: u32, call: Call) -> Result<(Reply, Handed), NoMemory>
        requires landed { asked_flight self.old.past call ≡ None }
        requires plain { is_unmap call ≡ false }
        ensures past { OnOk result (self.new
            ≡ record self.old { past = with_call caller call self.old.past }) }
        ensures reply { IfOk result (λ r. r.0 ≡ reply_to self.old.past call) }
        ensures loan { IfOk result (λ r. array_of r.1 ≡ handed (next_place self.old.past) call
            r.0 self.old.past.state Nothing) }
    {
        made_or_short(self.device.step(alloc, caller, call, Handed::Nothing))
    }

    /// The place of the next entry.
    fn place(&self) -> u64
        ensures { result ≡ next_place self.now.past }
    {
        self.device.place()
    }

    /// What the reply to a call of the trace gives: a binding, and the unmap of a loan.
    fn gained(
        &self,
        alloc: Global,
        phase: u64,
        caller: u32,
        c: &TraceCall,
        reply: &Reply,
        out: Handed,
        place: u64,
    ) -> Result<(Option<Binding>, Option<Unmap>), NoMemory>
        requires { IsBlank c.now out }
        ensures binding { IfOk result
            (λ g. option_to_list g.0 ≡ binding_of phase caller c.now reply.now) }
        ensures unmap { (content : Option Block)
            → array_of out ≡ loan_by content (handle_of self.now.bound phase caller) c.now reply.now
            → IfOk result (λ g. g.1
            ≡ unmap_by content place (handle_of self.now.bound phase caller) c.now reply.now) }
    {
        let labels = Labels {
            bound: &self.bound,
            own: None,
            phase,
            caller,
        };
        gained(alloc, labels, c, reply, out, place)
    }

    /// Takes in what the reply to a call of the trace gives: a binding, a loan.
    fn take_reply(
        &mut self,
        alloc: Global,
        phase: u64,
        caller: u32,
        c: &TraceCall,
        made: (Reply, Handed),
        place: u64,
    ) -> Result<(), NoMemory>
        requires { IsBlank c.now made.1 }
        ensures { (content : Option Block)
            → array_of made.1
            ≡ loan_by content (handle_of self.old.bound phase caller) c.now made.0
            → OnOk result (self.new ≡ with_reply phase caller c.now
            (unmap_by content place (handle_of self.old.bound phase caller) c.now made.0) made.0
            self.old) }
    {
        let (reply, out) = made;
        let (binding, unmap) = self.gained(alloc, phase, caller, c, &reply, out, place)?;
        if opens(c) {
            self.open(unmap)?;
        }
        self.bind(alloc, binding)
    }

    /// One more loan is open.
    fn open(&mut self, unmap: Option<Unmap>) -> Result<(), NoMemory>
        ensures { OnOk result (self.new ≡ record self.old { loans = unmap ∷ self.old.loans }) }
    {
        self.loans.push_front(unmap).map_err(AllocError::from)?;
        Ok(())
    }

    /// One more label is bound, if there is one.
    fn bind(&mut self, alloc: Global, binding: Option<Binding>) -> Result<(), NoMemory>
        ensures { OnOk result (self.new ≡ record self.old { bound = self.old.bound ++ option_to_list binding }) }
    {
        self.bound.bind_some(alloc, binding)
    }

    /// Ends a loan by its unmap, without the elements that name what is not there.
    fn end_loan(&mut self, alloc: Global, caller: u32, unmap: Unmap) -> Result<(), NoMemory>
        ensures { OnOk result (self.new ≡ record self.old {
          past = with_call caller (entered self.old.past unmap) self.old.past;
        }) }
    {
        let (call, loan) = unmap.into_parts();
        match self.device.step(alloc, caller, call, loan) {
            Ok((_reply, left)) => {
                give_up(left);
                Ok(())
            }
            Err((_refused, _call, loan)) => {
                give_up(loan);
                Err(NoMemory)
            }
        }
    }

    /// Ends the innermost loan, where it was granted.
    fn unmap(&mut self, alloc: Global, caller: u32) -> Result<(), NoMemory>
        ensures { OnOk result (self.new ≡ unmapped caller self.old self.old.loans) }
    {
        match self.loans.pop_front() {
            Some(Some(unmap)) => self.end_loan(alloc, caller, unmap),
            Some(None) => Ok(()),
            None => Ok(()),
        }
    }

    /// Makes a call of the trace after the flight that it asks for is finished.
    fn make(
        &mut self,
        alloc: Global,
        phase: u64,
        caller: u32,
        c: &TraceCall,
        call: Call,
    ) -> Result<(), NoMemory>
        requires { call_of (handle_of self.old.bound phase caller) c.now ≡ Some call }
        ensures { OnOk result (self.new ≡ made phase caller c.now (handle_of self.old.bound phase caller) call self.old) }
    {
        self.finish_asked(&call);
        let place = self.place();
        let made = self.enter(alloc, caller, call)?;
        self.take_reply(alloc, phase, caller, c, made, place)
    }

    /// Replays one call of the trace.
    fn replay_call(
        &mut self,
        alloc: Global,
        phase: u64,
        caller: u32,
        c: &TraceCall,
    ) -> Result<(), NoMemory>
        ensures { OnOk result (self.new ≡ replayed phase caller self.old c.now) }
    {
        if let TraceCall::EndLoan = c {
            return self.unmap(alloc, caller);
        }
        match self.call_of(alloc, phase, caller, c)? {
            Some(call) => self.make(alloc, phase, caller, c, call),
            None => Ok(()),
        }
    }

    /// The call of the device that a call of the trace makes.
    fn call_of(
        &self,
        alloc: Global,
        phase: u64,
        caller: u32,
        c: &TraceCall,
    ) -> Result<Option<Call>, NoMemory>
        ensures { IfOk result (λ call. call ≡ call_of (handle_of self.now.bound phase caller) c.now) }
    {
        let labels = Labels {
            bound: &self.bound,
            own: None,
            phase,
            caller,
        };
        call_of(alloc, &labels, c)
    }

    /// No loan is open.
    fn clear_loans(&mut self)
        ensures { self.new ≡ record self.old { loans = [] } }
    {
        self.loans.clear();
    }

    /// Replays the calls of a caller.
    fn replay_calls(
        &mut self,
        alloc: Global,
        phase: u64,
        caller: u32,
        calls: &[TraceCall],
    ) -> Result<(), NoMemory>
        ensures { OnOk result (self.new ≡ fold (replayed phase caller) self.old calls.now) }
    {
        for c in calls {
            self.replay_call(alloc, phase, caller, c)?;
        }
        Ok(())
    }

    /// Replays all of a caller.
    fn replay_caller(
        &mut self,
        alloc: Global,
        phase: u64,
        index: u32,
        caller: &Caller,
    ) -> Result<(), NoMemory>
        ensures { OnOk result (self.new ≡ caller_replayed phase self.old (index, caller.now)) }
    {
        self.clear_loans();
        self.replay_calls(alloc, phase, index, caller.calls.as_slice())
    }

    /// Replays the callers of a phase, one after the other.
    fn replay_callers(
        &mut self,
        alloc: Global,
        phase: u64,
        callers: &[Caller],
    ) -> Result<(), NoMemory>
        requires { length callers.now ≤ 8 }
        ensures { OnOk result (self.new ≡ fold (caller_replayed phase) self.old (enumerate_from 0 callers.now)) }
    {
        for i in 0..callers.len() {
            self.replay_caller(alloc, phase, i as u32, &callers[i])?;
        }
        Ok(())
    }

    /// Replays the phases, one after the other.
    pub fn replay_phases(&mut self, alloc: Global, phases: &[Phase]) -> Result<(), NoMemory>
        requires { All (λ phase. length phase.callers ≤ 8) phases.now }
        ensures { OnOk result (self.new ≡ fold phase_replayed self.old (enumerate_from 0 phases.now)) }
    {
        for i in 0..phases.len() {
            self.replay_callers(alloc, i as u64, phases[i].callers.as_slice())?;
        }
        Ok(())
    }

    /// A replay at its beginning.
    ///
    /// # Errors
    /// Where there is no memory for a device, a list without notices.
    fn new(alloc: Global) -> Result<Replay, NoticeList>
        ensures ok { IfOk result (λ r. r ≡ record { past = start; bound = []; loans = [] }) }
        ensures err { IfErr result (λ heard. notices_of heard ≡ []) }
    {
        match SoloDevice::new(alloc, NoticeList::new(alloc), MOST_ENTRIES) {
            Ok(device) => Ok(Replay {
                device,
                bound: Bindings::new(alloc),
                loans: VecDeque::new(alloc),
            }),
            Err((NoMemory, heard)) => Err(heard),
        }
    }

    /// Each flight leaves, and the device is closed.
    fn finish(self, short: bool) -> Replayed
        ensures history { result.history ≡ (ended self.past).seen }
        ensures legal { Legal result.history }
        ensures told { notices_of result.told ≡ told result.history }
        ensures builds { result.builds ≡ builds result.history }
        ensures short { result.short ≡ short }
    {
        let Replay {
            device,
            bound: _bound,
            loans: _loans,
        } = self;
        let Ended {
            history,
            client,
            builds,
            tests,
        } = device.finish();
        Replayed {
            history,
            told: client,
            builds,
            tests,
            short,
        }
    }
}

/// What a replay comes to.
#[derive(Drop)]
pub struct Replayed {
    /// All that happened, up to the close of the device.
    pub history: Journal,
    /// What the client was told, in order.
    pub told: NoticeList,
    /// How many worlds were prepared.
    pub builds: u64,
    /// How many times a ray was tested against a primitive beyond its box, up to the greatest number.
    pub tests: u64,
    /// There was too little memory to replay the whole trace. The device was closed all the same.
    pub short: bool,
}

/// The history of a trace without calls, where there was no memory for a device.
fn without_device(alloc: Global, heard: NoticeList) -> Replayed
    requires { notices_of heard ≡ [] }
    ensures legal { Legal result.history }
    ensures told { notices_of result.told ≡ told result.history }
    ensures builds { result.builds ≡ builds result.history }
    ensures short { result.short ≡ true }
{
    Replayed {
        history: Journal::of(Vec::new(alloc)),
        told: heard,
        builds: 0,
        tests: 0,
        short: true,
    }
}

/// Replays a trace on one thread. Nothing but want of memory ends the replay early.
pub fn solo(alloc: Global, trace: &Trace) -> Replayed
    requires { All (λ phase. length phase.callers ≤ 8) trace.now.phases }
    ensures history { result.short ≡ false → result.history ≡ solo trace.now }
    ensures legal { Legal result.history }
    ensures told { notices_of result.told ≡ told result.history }
    ensures builds { result.builds ≡ builds result.history }
{
    let mut replay = match Replay::new(alloc) {
        Ok(replay) => replay,
        Err(heard) => return without_device(alloc, heard),
    };
    let short = replay
        .replay_phases(alloc, trace.phases.as_slice())
        .is_err();
    replay.finish(short)
}
