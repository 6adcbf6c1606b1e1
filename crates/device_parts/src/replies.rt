//! Replies that are copied.
ghost use Rattle.std.specs.Prelude.{◌≡◌, IfOk, IsOk, true};
ghost use Rattle.device_parts.specs.Calls.{is_short};

use dev_types::NoMemory;
use seq_model::Reply;
use std::alloc::Global;

/// The reply once more.
///
/// # Errors
/// `NoMemory`, only for a reply that tells of bytes, names or properties.
pub(crate) fn share(alloc: Global, reply: &Reply) -> Result<Reply, NoMemory>
    ensures same { IfOk result (λ r. r ≡ reply.now) }
    ensures no_memory { is_short reply.now ≡ true → IsOk result }
{
    match reply {
        Reply::Done => Ok(Reply::Done),
        Reply::Ready => Ok(Reply::Ready),
        Reply::NotReady { given, of } => Ok(Reply::NotReady {
            given: *given,
            of: *of,
        }),
        Reply::Denied(refused) => Ok(Reply::Denied(refused.copied())),
        _ => reply.share(alloc),
    }
}
