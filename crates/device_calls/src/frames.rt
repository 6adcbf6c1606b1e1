//! Channels of frames that are mapped and unmapped.
ghost use Rattle.std.specs.Prelude.{◌≡◌, ◌⊎◌, false, IfErr, IfOk, OnOk};
ghost use Rattle.device_parts.specs.Maps.{told_of};
ghost use Rattle.device_parts.specs.declared.handed.Handed.TheVariants.{Frame, Nothing};
ghost use Rattle.seq_model.specs.declared.calls.Call.TheVariants.{MapFrame, UnmapFrame};
ghost use Rattle.seq_model.specs.declared.calls.Reply.TheVariants.{Denied, Done};
ghost use Rattle.turn_lock.specs.Passes.{IsPassOf, holding};
ghost use Rattle.device_calls.specs.Passes.{HasCalled, HasDeclined, Sees};
ghost use Rattle.device_calls.specs.Replies.{IsRefused};

use crate::device::{Device, Pass};
use crate::loans::{channel_of, done_or_back, lent_or_refused};
use dev_types::{Channel, Client, Handle, Refused};
use device_core::Handed;
use frame_future::MappedFrame;
use seq_model::{Call, Reply};
use std::alloc::Global;
use std::sync::Wait;

impl<C: Client> Device<C> {
    /// Maps a channel of a frame (ANARI 1.0 Specification, Frame: mapping): its pixels, under the place
    /// of the call.
    ///
    /// # Errors
    /// 1, 2, 3, 4, 11, 12, 13, 14, 19.
    pub fn map_frame<R: Wait>(
        &self,
        rt: &R,
        alloc: Global,
        pass: &mut Pass,
        h: Handle,
        channel: Channel,
    ) -> Result<MappedFrame, Refused>
        requires pass { IsPassOf self.now.turn pass.old }
        requires idle { holding pass.old ≡ false }
        ensures pass { IsPassOf self.now.turn pass.new × (holding pass.new ≡ false) }
        ensures sees { Sees pass.old pass.new }
        ensures made { IfOk result (λ m. HasCalled (MapFrame h channel) Nothing (told_of m) (Frame m)
            pass.old pass.new) }
        ensures refused { IfErr result (λ e. IsRefused (MapFrame h channel) e pass.old pass.new) }
    {
        let call = Call::MapFrame { h, channel };
        match self.make(rt, alloc, pass, call, Handed::Nothing) {
            Ok((reply, out)) => {
                let lent = channel_of(out);
                lent_or_refused(reply, lent)
            }
            Err((refused, _call, with)) => {
                with.give_up();
                Err(refused)
            }
        }
    }

    /// Gives a mapped channel back (ANARI 1.0 Specification, Frame: mapping).
    ///
    /// # Errors
    /// 1, 10, 19; the loan comes back.
    pub fn unmap_frame<R: Wait>(
        &self,
        rt: &R,
        alloc: Global,
        pass: &mut Pass,
        frame: MappedFrame,
    ) -> Result<(), (Refused, MappedFrame)>
        requires pass { IsPassOf self.now.turn pass.old }
        requires idle { holding pass.old ≡ false }
        ensures pass { IsPassOf self.now.turn pass.new × (holding pass.new ≡ false) }
        ensures sees { Sees pass.old pass.new }
        ensures made { OnOk result (HasCalled (UnmapFrame frame.frame frame.number) (Frame frame)
            Done Nothing pass.old pass.new) }
        ensures refused { IfErr result (λ e. HasDeclined (UnmapFrame frame.frame frame.number) e.0
            pass.old pass.new ⊎ HasCalled (UnmapFrame frame.frame frame.number) (Frame frame)
            (Denied e.0) (Frame frame) pass.old pass.new) }
        ensures returned { IfErr result (λ e. e.1 ≡ frame) }
    {
        let h = frame.frame();
        let number = frame.number();
        let call = Call::UnmapFrame { h, number };
        match self.make(rt, alloc, pass, call, Handed::Frame(frame)) {
            Ok((reply, out)) => {
                let back = channel_of(out);
                done_or_back(reply, back)
            }
            Err((refused, _call, with)) => {
                let back = channel_of(with);
                done_or_back(Reply::Denied(refused), back)
            }
        }
    }
}
