ghost use Rattle.std.specs.Prelude.{◌≡◌, ◌≤◌, [], IfOk, IfErr, length};
ghost use Rattle.std.specs.Vec.{vec_capacity};

use crate::handles::NoMemory;
use std::alloc::Global;
use std::marker::Model;
use std::sync::Arc;

/// A shared block of bytes that never changes. Its owners hold one and the same memory, which is given
/// back with the last of them.
#[derive(Drop)]
pub struct Bytes {
    block: Arc<Vec<u8>>,
}

impl Model for Bytes {
    ghost use Rattle.std.specs.Prelude.{ℕ, List};

    ghost Value = { List ℕ };

    ghost view = { λ b. b.block.value.items };
}

impl Bytes {
    /// A block of these bytes, which are moved and not copied. Where there is no memory for the
    /// count of owners, the bytes come back.
    pub fn of(alloc: Global, bytes: Vec<u8>) -> Result<Bytes, (NoMemory, Vec<u8>)>
        ensures value { IfOk result (λ block. block ≡ bytes.items) }
        ensures bytes_returned { IfErr result (λ refused. refused.1 ≡ bytes) }
    {
        match Arc::new(alloc, bytes) {
            Ok(block) => Ok(Bytes { block }),
            Err(failed) => Err((NoMemory, failed.value)),
        }
    }

    pub fn as_slice(&self) -> &[u8]
        ensures { result.now ≡ self.now }
    {
        self.block.as_slice()
    }

    /// One more owner of the same bytes: no byte is copied.
    pub fn share(&self, _alloc: Global) -> Result<Bytes, NoMemory>
        ensures { IfOk result (λ block. block ≡ self.now) }
    {
        Ok(Bytes {
            block: Arc::try_clone(&self.block)?,
        })
    }

    /// The bytes in a `Vec`, without memory: the block's own where this is its last owner, and else copied
    /// into `spare`, which is empty and has room for them. So who has to give a `Vec` back makes such a
    /// spare one before it makes a block of it.
    pub fn into_vec(self, spare: Vec<u8>) -> Vec<u8>
        requires empty { spare.items ≡ [] }
        requires room { length self ≤ vec_capacity spare }
        ensures { result.items ≡ self }
    {
        match Arc::try_unwrap(self.block) {
            Ok(bytes) => bytes,
            Err(block) => copied_into(spare, block.as_slice()),
        }
    }
}

fn copied_into(spare: Vec<u8>, bytes: &[u8]) -> Vec<u8>
    requires empty { spare.items ≡ [] }
    requires room { length bytes.now ≤ vec_capacity spare }
    ensures { result.items ≡ bytes.now }
{
    let mut copy = spare;
    let _there_is_room = copy.extend_from_slice(bytes);
    copy
}
