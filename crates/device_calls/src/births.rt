//! Arrays that are made of a caller's bytes.
ghost use Rattle.std.specs.Prelude.{◌≡◌, ◌≤◌, [], false, length, vec_capacity, IfErr, IfOk};
ghost use Rattle.device_calls.specs.Passes.{Sees};
ghost use Rattle.device_calls.specs.Replies.{HasMade, WasRefused};
ghost use Rattle.seq_model.specs.declared.calls.Call.TheVariants.{NewArray};
ghost use Rattle.seq_model.specs.declared.calls.Reply.TheVariants.{Made};
ghost use Rattle.turn_lock.specs.Passes.{IsPassOf, holding};

use crate::device::{Device, Pass};
use dev_types::{Bytes, Client, DataType, Handle, NoMemory, Origin, Refused};
use seq_model::{Call, Reply};
use std::alloc::Global;
use std::sync::Wait;

/// A share of a block that goes into a call, and what it takes to give its bytes back without memory: an
/// empty `Vec` with room for them, for the journal may keep the block.
#[derive(Drop)]
struct KeptBlock {
    block: Bytes,
    spare: Vec<u8>,
    ghost empty: { spare.items ≡ [] },
    ghost room: { length block ≤ vec_capacity spare },
}

impl KeptBlock {
    /// The bytes as they were handed in: copied only where the journal keeps the block.
    fn into_vec(self) -> Vec<u8>
        ensures { result.items ≡ self.block }
    {
        let KeptBlock { block, spare } = self;
        block.into_vec(spare)
    }
}

/// A block of these bytes, which are moved and not copied, and a share of it that is kept.
///
/// # Errors
/// Want of memory; the bytes come back.
fn kept_block(alloc: Global, bytes: Vec<u8>) -> Result<(Bytes, KeptBlock), Vec<u8>>
    ensures block { IfOk result (λ b. (b.0 ≡ bytes.items) × (b.1.block ≡ bytes.items)) }
    ensures returned { IfErr result (λ back. back.items ≡ bytes.items) }
{
    let Ok(spare) = Vec::with_capacity(alloc, bytes.len()) else {
        return Err(bytes);
    };
    match Bytes::of(alloc, bytes) {
        Ok(block) => match block.share(alloc) {
            Ok(given) => Ok((given, KeptBlock { block, spare })),
            Err(NoMemory) => Err(block.into_vec(spare)),
        },
        Err((NoMemory, bytes)) => Err(bytes),
    }
}

impl<C: Client> Device<C> {
    /// Makes an array of the bytes (ANARI 1.0 Specification, array creation): `count` elements, each
    /// `stride` bytes behind the one before it. The bytes are moved and not copied; the array's handle is
    /// the next one, and is held once.
    ///
    /// # Errors
    /// 1, 2, 3, 4, 6, 8, 19; the bytes come back, and no deleter runs.
    pub fn new_array<R: Wait>(
        &self,
        rt: &R,
        alloc: Global,
        pass: &mut Pass,
        bytes: Vec<u8>,
        elem: DataType,
        count: u64,
        stride: u64,
        origin: Origin,
    ) -> Result<Handle, (Refused, Vec<u8>)>
        requires pass { IsPassOf self.now.turn pass.old }
        requires idle { holding pass.old ≡ false }
        ensures pass { IsPassOf self.now.turn pass.new × (holding pass.new ≡ false) }
        ensures sees { Sees pass.old pass.new }
        ensures made { IfOk result (λ h. HasMade (NewArray elem count stride origin bytes.items)
            (Made h) pass.old pass.new) }
        ensures refused { IfErr result (λ e. WasRefused (NewArray elem count stride origin bytes.items)
            e.0 pass.old pass.new) }
        ensures returned { IfErr result (λ e. e.1.items ≡ bytes.items) }
    {
        let (bytes, kept) = match kept_block(alloc, bytes) {
            Ok(blocks) => blocks,
            Err(bytes) => {
                // The pass sees the history all the same.
                let _reserved = self.reserve_calls(rt, alloc, pass, 0);
                return Err((Refused::NoMemory, bytes));
            }
        };
        let call = Call::NewArray {
            elem,
            count,
            stride,
            origin,
            bytes,
        };
        match self.reply(rt, alloc, pass, call) {
            Ok(reply) => match reply {
                Reply::Made(h) => Ok(h),
                _ => unreachable!(),
            },
            Err(refused) => Err((refused, kept.into_vec())),
        }
    }
}
