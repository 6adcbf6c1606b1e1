//! A source and a sink over the readers and writers of `std`.
ghost use Rattle.std.specs.Prelude.{◌≡◌, ◌==◌, ◌<◌, ◌≤◌, false, length, IfOk, IsErrOf};
ghost use Rattle.std.specs.Io.{WritesAtMost};
ghost use Rattle.std.specs.Io.KnownBytes.{WriteAppends};
ghost use Rattle.replay_io.specs.Faults.{Rose};

use crate::{Failed, NotWritten, Sink, Source};
use std::io::{Read, Write};

/// A source over a reader. It tells the bytes that are left where the reader does, as one
/// over a slice; standard input tells none.
///
/// Each error of the reader is a fault, an interrupted read too.
#[derive(Debug, Drop)]
pub struct HostSource<R> {
    reader: R,
    faults: u64,
    ended: bool,
}

impl<R: Read> HostSource<R> {
    /// A source over this reader, with no fault yet.
    pub fn new(reader: R) -> Self
        ensures left { ⟦<HostSource<R> as Source>⟧.left result ≡ R.remaining reader }
        ensures faults { ⟦<HostSource<R> as Source>⟧.faults result ≡ 0 }
        ensures ended { ⟦<HostSource<R> as Source>⟧.ended result ≡ false }
    {
        HostSource {
            reader,
            faults: 0,
            ended: false,
        }
    }
}

impl<R: Read> Source for HostSource<R> {
    ghost left = { λ s. R.remaining s.reader };

    ghost faults = { λ s. s.faults };

    ghost ended = { λ s. s.ended };

    fn read(&mut self, into: &mut [u8]) -> Result<usize, Failed> {
        match self.reader.read(into) {
            Ok(count) => {
                if !into.is_empty() {
                    self.ended = count == 0;
                }
                Ok(count)
            }
            Err(_) => {
                self.faults = self.faults.saturating_add(1);
                Err(Failed)
            }
        }
    }
}

/// A sink over a writer. It tells the bytes that were written where the writer does, as one
/// over a `Vec`; standard output tells none.
///
/// Each error of the writer is a fault, and so is a write that took nothing of a piece that
/// is not empty.
#[derive(Debug, Drop)]
pub struct HostSink<W> {
    writer: W,
    faults: u64,
}

impl<W: Write> HostSink<W> {
    /// A sink over this writer, with no fault yet.
    pub fn new(writer: W) -> Self
        ensures written { ⟦<HostSink<W> as Sink>⟧.written result ≡ W.contents writer }
        ensures faults { ⟦<HostSink<W> as Sink>⟧.faults result ≡ 0 }
    {
        HostSink { writer, faults: 0 }
    }
}

impl<W: Write> Sink for HostSink<W> {
    ghost written = { λ s. W.contents s.writer };

    ghost faults = { λ s. s.faults };

    fn write(&mut self, piece: &[u8]) -> Result<usize, NotWritten>
        ensures bound { WritesAtMost result piece.now }
        ensures bytes { WriteAppends (⟦<HostSink<W> as Sink>⟧.written self.old) (⟦<HostSink<W> as Sink>⟧.written self.new) result
            piece.now }
        ensures progress { IfOk result (λ n. 0 < length piece.now → 0 < n) }
        ensures later { ⟦<HostSink<W> as Sink>⟧.faults self.old ≤ ⟦<HostSink<W> as Sink>⟧.faults self.new }
        ensures failed { IsErrOf result NotWritten.Failed
            → Rose (⟦<HostSink<W> as Sink>⟧.faults self.old) (⟦<HostSink<W> as Sink>⟧.faults self.new) }

        // It takes no memory of its own.
        ensures memory { IsErrOf result NotWritten.NoMemory → ⊥ }
    {
        match self.writer.write(piece) {
            Ok(count) if count > 0 || piece.is_empty() => Ok(count),
            _ => {
                self.faults = self.faults.saturating_add(1);
                Err(NotWritten::Failed)
            }
        }
    }
}
