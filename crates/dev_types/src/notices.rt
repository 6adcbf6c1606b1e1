ghost use Rattle.std.specs.Prelude.{◌≡◌, ◌+◌, ◌≤◌, ◌<◌, ℕ, List, [], ◌∷◌, ◌++◌, IsOk, OnOk};
ghost use Rattle.dev_types.specs.declared.notices.Notice.{Notice};

use crate::blocks::Bytes;
use crate::handles::{Handle, NoMemory};
use crate::refusals::Status;
use std::alloc::Global;

/// What a client is told.
#[derive(Drop)]
pub enum Notice {
    /// A captured array died. `user` is the word that the application gave with its bytes, which are
    /// handed back as they were last.
    Deleted {
        source: Handle,
        user: u64,
        bytes: Bytes,
    },
    /// A shared array died, so the device reads the application's bytes no more.
    LetGo {
        source: Handle,
        user: u64,
    },
    /// A call was refused.
    Told(Status),
}

/// Whom a device tells of the ends of arrays and of refused calls (ANARI 1.0 Specification, array
/// memory and status callbacks). Its meaning is the list of the notices that it was given, and a
/// number, `spare`: how many more it can take without memory.
pub trait Client {
    ghost notices: { Self → List Notice };

    ghost spare: { Self → ℕ };

    /// Makes room for `n` more notices. It never refuses where there is room already. With either answer
    /// the list stays as it was, and there is no less room than before.
    fn reserve(&mut self, alloc: Global, n: u32) -> Result<(), NoMemory>
        ensures room { OnOk result (n ≤ spare self.new) }
        ensures had_room { n ≤ spare self.old → IsOk result }
        ensures list { notices self.new ≡ notices self.old }
        ensures no_less { spare self.old ≤ spare self.new };

    /// The captured array `source` died with these bytes.
    fn deleted(&mut self, source: Handle, user: u64, bytes: Bytes)
        requires { 0 < spare self.old }
        ensures told { notices self.new ≡ notices self.old ++ Notice.Deleted source user bytes ∷ [] }
        ensures one_less { spare self.new + 1 ≡ spare self.old };

    /// The shared array `source` died.
    fn let_go(&mut self, source: Handle, user: u64)
        requires { 0 < spare self.old }
        ensures told { notices self.new ≡ notices self.old ++ Notice.LetGo source user ∷ [] }
        ensures one_less { spare self.new + 1 ≡ spare self.old };

    /// A call was refused with this status.
    fn status(&mut self, status: Status)
        requires { 0 < spare self.old }
        ensures told { notices self.new ≡ notices self.old ++ Notice.Told status ∷ [] }
        ensures one_less { spare self.new + 1 ≡ spare self.old };
}
