//! What the client is told of calls that are refused, and what replies tell of flights.
ghost use Rattle.std.specs.Prelude.{◌≡◌, ◌<◌, ◌≤◌, ◌+◌, ◌++◌, ℕ, length};
ghost use Rattle.seq_model.specs.Told.{source_of, status_at};
ghost use Rattle.seq_model.specs.declared.calls.Entry.TheVariants.{Called};
ghost use Rattle.answered_calls.specs.Tells.{with_given};

use dev_types::{Client, Handle, Refused};
use seq_model::{Call, Reply};

/// The object that a call is made on, and 0 where there is none.
pub fn source_of(call: &Call) -> Handle
    ensures { result ≡ source_of call.now }
{
    match call {
        Call::Retain { h }
        | Call::Release { h }
        | Call::SetParameter { h, .. }
        | Call::UnsetParameter { h, .. }
        | Call::UnsetAll { h }
        | Call::Commit { h }
        | Call::MapArray { h }
        | Call::UnmapArray { h, .. }
        | Call::MapParameterArray { h, .. }
        | Call::UnmapParameterArray { h, .. }
        | Call::RenderFrame { h }
        | Call::FrameReady { h, .. }
        | Call::DiscardFrame { h }
        | Call::MapFrame { h, .. }
        | Call::UnmapFrame { h, .. }
        | Call::GetProperty { h, .. } => *h,
        Call::NewObject { .. }
        | Call::NewArray { .. }
        | Call::Subtypes { .. }
        | Call::ObjectInfo { .. }
        | Call::ParameterInfo { .. } => Handle(0),
    }
}

/// Tells the client the status of a call that was refused. This takes no memory.
pub fn tell_status<C: Client>(client: &mut C, call: &Call, reply: &Reply)
    requires { 0 < C.spare client.old }
    ensures told { (actor : ℕ) → C.notices client.new ≡ C.notices client.old ++ status_at (Called actor call.now reply.now) }
    ensures room { C.spare client.old ≤ C.spare client.new + 1 }
    ensures used { C.spare client.new + length (status_at (Called 0 call.now reply.now)) ≡ C.spare client.old }
{
    if let Reply::Denied(refused) = reply {
        if let Some(status) = refused.status(source_of(call)) {
            client.status(status);
        }
    }
}

/// A reply that tells of a flight, with as many of its tiles given as were seen; any other as it is.
pub fn with_given(reply: Reply, given: u64) -> Reply
    ensures { result ≡ with_given given reply }
{
    match reply {
        Reply::NotReady { of, .. } => Reply::NotReady { given, of },
        Reply::Denied(Refused::InFlight { of, .. }) => Reply::Denied(Refused::InFlight {
            given,
            of,
        }),
        reply => reply,
    }
}
