//! The loops over sources and sinks.
ghost use Rattle.std.specs.Prelude.{◌≡◌, ◌<◌, ◌≤◌, ◌-◌, ◌++◌, true, length, take, vec_len, IfOk, IfSome, OnOk, OnErr, IsErrOf};
ghost use Rattle.std.specs.Io.KnownBytes.{Appends, Consumes, IsAtEnd};
ghost use Rattle.replay_io.specs.declared.streams.NotRead.TheVariants.{Failed as read-failed, NoMemory as read-no-memory};
ghost use Rattle.replay_io.specs.Faults.{Rose};
ghost use Rattle.replay_io.specs.Streams.{AppendsPrefix, ConsumesUpTo};

use crate::{Failed, NotWritten, Sink, Source};
use std::alloc::{AllocError, Global};

/// How many bytes one read asks for at most.
const PIECE: usize = 65536;

/// Why a source was not read.
#[derive(Clone, Copy, Debug, PartialEq, Eq)]
pub enum NotRead {
    /// The source counted a fault.
    Failed,
    /// There was no memory for its bytes.
    NoMemory,
}

impl From<Failed> for NotRead {
    ghost from_gives = { λ _ e. e ≡ read-failed };

    fn from(_: Failed) -> Self {
        NotRead::Failed
    }
}

impl From<AllocError> for NotRead {
    ghost from_gives = { λ _ e. e ≡ read-no-memory };

    fn from(_: AllocError) -> Self {
        NotRead::NoMemory
    }
}

/// Reads until the end of the input, or until it has `most` bytes. Fewer than `most` bytes are
/// thus all that was left, and the source has met its end. Each read takes a byte, or ends.
///
/// # Errors
/// `Failed` where the source counted a fault in this call, and `NoMemory` where there was no
/// memory for its bytes. The source then lost some bytes, `most` of them at most.
pub fn read_up_to<S: Source>(alloc: Global, source: &mut S, most: usize) -> Result<Vec<u8>, NotRead>
    ensures first { IfOk result (λ bytes.
        IfSome (S.left source.old) (λ left. bytes.items ≡ take most left)) }
    ensures consumed { IfOk result (λ bytes.
        Consumes (S.left source.old) (S.left source.new) bytes.items) }
    ensures within { IfOk result (λ bytes. vec_len bytes ≤ most) }
    ensures ended { IfOk result (λ bytes. vec_len bytes < most → S.ended source.new ≡ true) }
    ensures whole { IfOk result (λ bytes. vec_len bytes < most → IsAtEnd (S.left source.new)) }
    ensures lost { OnErr result (ConsumesUpTo most (S.left source.old) (S.left source.new)) }
    ensures later { S.faults source.old ≤ S.faults source.new }
    ensures failed { IsErrOf result NotRead.Failed
        → Rose (S.faults source.old) (S.faults source.new) }
{
    let mut piece = new_piece(alloc)?;
    let mut bytes = Vec::new(alloc);
    while bytes.len() < most {
        let room = piece.len().min(most - bytes.len());
        if read_piece(source, &mut piece[..room], &mut bytes)? == 0 {
            return Ok(bytes);
        }
    }
    Ok(bytes)
}

/// The buffer that reads go through.
fn new_piece(alloc: Global) -> Result<Vec<u8>, AllocError>
    ensures { IfOk result (λ piece. vec_len piece ≡ PIECE) }
{
    vec![in alloc; 0u8; PIECE]
}

/// Reads once, by way of `piece`, and puts what came at the end of `bytes`.
fn read_piece<S: Source>(
    source: &mut S,
    piece: &mut [u8],
    bytes: &mut Vec<u8>,
) -> Result<usize, NotRead>
    requires { 0 < length piece.old }
    ensures bytes { IfOk result (λ n. bytes.new.items ≡ bytes.old.items ++ take n piece.new) }
    ensures consumed { IfOk result (λ n.
        Consumes (S.left source.old) (S.left source.new) (take n piece.new)) }
    ensures within { IfOk result (λ n. n ≤ length piece.new) }
    ensures ended { IfOk result (λ n. n ≡ 0 → S.ended source.new ≡ true) }
    ensures whole { IfOk result (λ n. n ≡ 0 → IsAtEnd (S.left source.new)) }
    ensures lost { OnErr result
        (ConsumesUpTo (length piece.new) (S.left source.old) (S.left source.new)) }
    ensures later { S.faults source.old ≤ S.faults source.new }
    ensures failed { IsErrOf result NotRead.Failed
        → Rose (S.faults source.old) (S.faults source.new) }
{
    let count = source.read(piece)?;
    bytes.extend_from_slice(&piece[..count])?;
    Ok(count)
}

/// Writes all of `bytes`.
///
/// # Errors
/// `Failed` where the sink counted a fault in this call, and `NoMemory` where it found no
/// memory. The sink then grew by some of the first of `bytes`.
pub fn write_all<K: Sink>(sink: &mut K, bytes: &[u8]) -> Result<(), NotWritten>
    ensures all { OnOk result (Appends (K.written sink.old) (K.written sink.new) bytes.now) }
    ensures some { OnErr result
        (AppendsPrefix (K.written sink.old) (K.written sink.new) bytes.now) }
    ensures later { K.faults sink.old ≤ K.faults sink.new }
    ensures failed { IsErrOf result NotWritten.Failed
        → Rose (K.faults sink.old) (K.faults sink.new) }
{
    let mut done = 0;
    while done < bytes.len() {
        done += sink.write(&bytes[done..])?;
    }
    Ok(())
}
