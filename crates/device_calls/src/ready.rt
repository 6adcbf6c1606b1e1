//! Whether a frame is ready, also for who waits for it.
ghost use Rattle.std.specs.Prelude.{◌≡◌, ◌<◌, ◌^◌, IfErr, IfNone, IfOk, IfSome, OnErr, false, not};
ghost use Rattle.device_parts.specs.Waits.{is_waited_for};
ghost use Rattle.device_parts.specs.declared.handed.Handed.TheVariants.{Nothing};
ghost use Rattle.seq_model.specs.Legal.{Legal};
ghost use Rattle.seq_model.specs.Steps.{after};
ghost use Rattle.seq_model.specs.declared.calls.Call.TheVariants.{FrameReady};
ghost use Rattle.turn_lock.specs.Passes.{IsPassOf, holding, mine};
ghost use Rattle.device_calls.specs.Holds.{AddsCall, AddsNotes, IsCause};
ghost use Rattle.device_calls.specs.Passes.{Sees};
ghost use Rattle.device_calls.specs.Replies.{HasMade, IsReadiness, IsRefused, WasRefused, ready_in, reply_of_ready, told_ready};
ghost use Rattle.device_calls.specs.Sharing.{given_of};

use crate::device::{Device, Pass};
use crate::state::SharedState;
use dev_types::{Client, Handle, NoMemory, Ready, Refused};
use device_core::Handed;
use replay_io::{Gate, OpenGate};
use seq_model::{Call, Reply};
use std::alloc::Global;
use std::sync::Wait;
use std::thread;

impl<C: Client> SharedState<C> {
    /// Sweeps, and tells whether a call that waits for the frame is answered now.
    fn settled(&mut self, h: Handle) -> bool
        ensures noted { AddsNotes self.old.parts.history self.new.parts.history }
        ensures settled { result ≡ not (is_waited_for (after self.new.parts.history) h) }
        ensures given { given_of self.new ≡ given_of self.old }
        ensures legal { Legal self.new.parts.history }
    {
        let settled = self.device.settled(h);
        // Its clause tells the proof that the history is legal.
        self.device.is_device();
        settled
    }

    /// Tells whether a frame is ready, in one hold; `None` where the call waits, and the frame is in
    /// flight and held by the application.
    fn ready(
        &mut self,
        alloc: Global,
        actor: u32,
        h: Handle,
        wait: bool,
    ) -> Option<Result<(Reply, Handed), (Refused, Call, Handed)>>
        ensures made { IfSome result (λ made. IfOk made (λ r. AddsCall actor (FrameReady h wait)
            Nothing r.0 r.1 self.old.parts.history self.new.parts.history)) }
        ensures noted { IfSome result (λ made. OnErr made (AddsNotes self.old.parts.history
            self.new.parts.history)) }
        ensures cause { IfSome result (λ made. IfErr made (λ e. IsCause e.0 self.old.limit
            self.new.parts.history (FrameReady h wait))) }
        ensures waits { IfNone result (AddsNotes self.old.parts.history self.new.parts.history) }
        ensures given { given_of self.new ≡ given_of self.old }
        ensures legal { Legal self.new.parts.history }
    {
        let call = Call::FrameReady { h, wait };
        if !wait {
            return Some(self.step(alloc, actor, call, Handed::Nothing));
        }
        if self.settled(h) {
            Some(self.step(alloc, actor, call, Handed::Nothing))
        } else {
            None
        }
    }
}

/// What is told of a frame by a reply.
fn told_ready(reply: Reply) -> Result<Ready, Refused>
    requires { IsReadiness reply }
    ensures { result ≡ told_ready reply }
{
    match reply {
        Reply::Ready => Ok(Ready::Yes),
        Reply::NotReady { given, of } => Ok(Ready::NotYet { given, of }),
        Reply::Denied(refused) => Err(refused),
        _ => unreachable!(),
    }
}

/// What is told of a frame by what a step answered.
fn ready_in(made: Result<(Reply, Handed), (Refused, Call, Handed)>) -> Result<Ready, Refused>
    requires { IfOk made (λ r. IsReadiness r.0) }
    ensures { result ≡ ready_in made }
{
    match made {
        Ok((reply, out)) => {
            out.give_up();
            told_ready(reply)
        }
        Err((refused, _call, with)) => {
            with.give_up();
            Err(refused)
        }
    }
}

impl<C: Client> Device<C> {
    /// Tells whether a frame is ready, in one hold; `None` where the call waits, and is not answered
    /// yet.
    fn ready_now<R: Wait>(
        &self,
        rt: &R,
        alloc: Global,
        pass: &mut Pass,
        h: Handle,
        wait: bool,
    ) -> Option<Result<Ready, Refused>>
        requires pass { IsPassOf self.now.turn pass.old }
        requires idle { holding pass.old ≡ false }
        ensures pass { IsPassOf self.now.turn pass.new × (holding pass.new ≡ false) }
        ensures sees { Sees pass.old pass.new }
        ensures made { IfSome result (λ told. IfOk told (λ ready. HasMade (FrameReady h wait)
            (reply_of_ready ready) pass.old pass.new)) }
        ensures refused { IfSome result (λ told. IfErr told (λ e. IsRefused (FrameReady h wait) e
            pass.old pass.new)) }
        ensures waits { IfNone result (mine pass.new ≡ mine pass.old) }
    {
        let mut held = self.turn.enter(rt, pass);
        let made = held.state.ready(alloc, pass.caller(), h, wait);
        self.turn.leave(pass, held);
        match made {
            Some(made) => Some(ready_in(made)),
            None => None,
        }
    }

    /// Tells whether a frame is ready (ANARI 1.0 Specification, rendering frames): `NotYet` without
    /// `wait` alone, with as many tiles given as a look in this call read. With `wait` it helps: while
    /// the frame is in flight it renders tiles as [`Device::work_with`] does, and looks again; its one
    /// entry stands where it answers. It calls the gate as that does.
    ///
    /// # Errors
    /// 1, 2, 3, 4, 12, 19.
    pub fn ready_with<R: Wait, G: Gate>(
        &self,
        rt: &R,
        alloc: Global,
        pass: &mut Pass,
        h: Handle,
        wait: bool,
        gate: &G,
        k: u32,
    ) -> Result<Ready, Refused>
        requires pass { IsPassOf self.now.turn pass.old }
        requires idle { holding pass.old ≡ false }
        requires small { k < 2 ^ 31 }
        ensures pass { IsPassOf self.now.turn pass.new × (holding pass.new ≡ false) }
        ensures sees { Sees pass.old pass.new }
        ensures made { IfOk result (λ ready. HasMade (FrameReady h wait) (reply_of_ready ready)
            pass.old pass.new) }
        ensures refused { IfErr result (λ e. WasRefused (FrameReady h wait) e pass.old pass.new) }
    {
        for _ in rt.forever() {
            if let Some(told) = self.ready_now(rt, alloc, pass, h, wait) {
                return told;
            }
            match self.work_with(rt, alloc, pass, gate, k) {
                Ok(_worked) => thread::yield_now(),
                Err(NoMemory) => return Err(Refused::NoMemory),
            }
        }
        unreachable!()
    }

    /// Tells whether a frame is ready, as [`Device::ready_with`] with an open gate.
    ///
    /// # Errors
    /// 1, 2, 3, 4, 12, 19.
    pub fn frame_ready<R: Wait>(
        &self,
        rt: &R,
        alloc: Global,
        pass: &mut Pass,
        h: Handle,
        wait: bool,
    ) -> Result<Ready, Refused>
        requires pass { IsPassOf self.now.turn pass.old }
        requires idle { holding pass.old ≡ false }
        ensures pass { IsPassOf self.now.turn pass.new × (holding pass.new ≡ false) }
        ensures sees { Sees pass.old pass.new }
        ensures made { IfOk result (λ ready. HasMade (FrameReady h wait) (reply_of_ready ready)
            pass.old pass.new) }
        ensures refused { IfErr result (λ e. WasRefused (FrameReady h wait) e pass.old pass.new) }
    {
        self.ready_with(rt, alloc, pass, h, wait, &OpenGate, 0)
    }
}
