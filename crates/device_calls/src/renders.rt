//! Renders of frames.
ghost use Rattle.std.specs.Prelude.{◌≡◌, ◌++◌, ◌∷◌, [], IfErr, IfOk, OnErr, false};
ghost use Rattle.seq_model.specs.Legal.{Legal};
ghost use Rattle.seq_model.specs.declared.calls.Call.TheVariants.{RenderFrame};
ghost use Rattle.seq_model.specs.declared.calls.Reply.TheVariants.{Done};
ghost use Rattle.turn_lock.specs.Passes.{IsPassOf, holding, mine};
ghost use Rattle.device_calls.specs.Holds.{AddsNotes, IsCause};
ghost use Rattle.device_calls.specs.Passes.{Sees};
ghost use Rattle.device_calls.specs.Rendering.{IsTicketed, RendersAt, ticket_told};
ghost use Rattle.device_calls.specs.Replies.{HasMade, IsRefused};
ghost use Rattle.device_calls.specs.Sharing.{given_of};

use crate::device::{Device, Pass};
use crate::state::SharedState;
use dev_types::{Client, Handle, Refused};
use device_core::Handed;
use seq_model::{Call, Reply};
use std::alloc::Global;
use std::sync::Wait;

impl<C: Client> SharedState<C> {
    /// Makes a call that renders a frame, and tells the ticket that the frame has then.
    fn render(
        &mut self,
        alloc: Global,
        actor: u32,
        h: Handle,
    ) -> (
        Result<(Reply, Handed), (Refused, Call, Handed)>,
        Option<u64>,
    )
        ensures made { RendersAt result.0 result.1 actor h self.old.parts.history
            self.new.parts.history }
        ensures noted { OnErr result.0 (AddsNotes self.old.parts.history self.new.parts.history) }
        ensures cause { IfErr result.0 (λ e. IsCause e.0 self.old.limit self.new.parts.history
            (RenderFrame h)) }
        ensures given { given_of self.new ≡ given_of self.old }
        ensures legal { Legal self.new.parts.history }
    {
        let call = Call::RenderFrame { h };
        let made = self.device.step(alloc, actor, call, Handed::Nothing);
        // Its clauses tell the proof that the history is legal, and what holds of the flights.
        self.device.is_device();
        let ticket = self.device.ticket(h);
        (made, ticket)
    }
}

/// What a render hands out: its ticket, or why it was refused.
fn ticket_told(reply: Reply, ticket: Option<u64>) -> Result<u64, Refused>
    requires { IsTicketed reply ticket }
    ensures { result ≡ ticket_told reply ticket }
{
    match reply {
        Reply::Done => match ticket {
            Some(ticket) => Ok(ticket),
            None => unreachable!(),
        },
        Reply::Denied(refused) => Err(refused),
        _ => unreachable!(),
    }
}

impl<C: Client> Device<C> {
    /// Renders a frame (ANARI 1.0 Specification, rendering frames): a flight begins, of which no tile is
    /// claimed. Its ticket is the place of the call.
    ///
    /// # Errors
    /// 1, 2, 3, 4, 9, 11, 13, 15, 16, 17, 19.
    pub fn render_frame<R: Wait>(
        &self,
        rt: &R,
        alloc: Global,
        pass: &mut Pass,
        h: Handle,
    ) -> Result<u64, Refused>
        requires pass { IsPassOf self.now.turn pass.old }
        requires idle { holding pass.old ≡ false }
        ensures pass { IsPassOf self.now.turn pass.new × (holding pass.new ≡ false) }
        ensures sees { Sees pass.old pass.new }
        ensures made { IfOk result (λ t. HasMade (RenderFrame h) Done pass.old pass.new
            × (mine pass.new ≡ mine pass.old ++ t ∷ [])) }
        ensures refused { IfErr result (λ e. IsRefused (RenderFrame h) e pass.old pass.new) }
    {
        let mut held = self.turn.enter(rt, pass);
        let (made, ticket) = held.state.render(alloc, pass.caller(), h);
        self.turn.leave(pass, held);
        match made {
            Ok((reply, out)) => {
                out.give_up();
                ticket_told(reply, ticket)
            }
            Err((refused, _call, with)) => {
                with.give_up();
                Err(refused)
            }
        }
    }
}
