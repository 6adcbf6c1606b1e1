//! A source and a sink in memory, whose calls fail where they are told to.
ghost use Rattle.std.specs.Prelude.{◌≡◌, ◌==◌, ◌↔◌, if◌then◌else◌, ℕ, ◌<◌, ◌≤◌, ◌++◌, List, [], Some, false, length, take, drop, min, vec_len, is_err, IfOk, OnErr, IsErrOf, MatchBool};
ghost use Rattle.std.specs.Io.{ReadsAtMost, WritesAtMost};
ghost use Rattle.std.specs.Io.KnownBytes.{ReadConsumes, WriteAppends};
ghost use Rattle.replay_io.specs.Faults.{Rose, next_count};
ghost use Rattle.replay_io.specs.Streams.{EndsExactly};
ghost use Rattle.replay_io.specs.Memory.{SourceState, SinkState, is_failing};

use crate::{Failed, NotWritten, Sink, Source};
use std::alloc::Global;
use std::marker::Model;

/// Bytes in memory that are read from the front.
#[derive(Debug, Drop)]
struct Unread {
    bytes: Vec<u8>,
    at: usize,
}

impl Model for Unread {
    ghost Value = { List ℕ };

    ghost view = { λ u. drop u.at u.bytes.items };

    ghost invariant = { λ u. u.at ≤ vec_len u.bytes };
}

impl Unread {
    fn new(bytes: Vec<u8>) -> Self
        ensures { result ≡ bytes.items }
    {
        Unread { bytes, at: 0 }
    }

    fn as_slice(&self) -> &[u8]
        ensures { result.now ≡ self.now }
    {
        &self.bytes[self.at..]
    }

    /// Copies as many bytes as there are and `into` has room for, and answers how many.
    fn read(&mut self, into: &mut [u8]) -> usize
        ensures count { result ≡ min (length self.old) (length into.old) }
        ensures bytes { self.old ≡ take result into.new ++ self.new }
        ensures end { 0 < length into.old → (result ≡ 0) ↔ (self.old ≡ []) }
    {
        let count = copy_front(&self.bytes[self.at..], into);
        self.at += count;
        count
    }
}

/// Copies as many bytes as both have, and answers how many.
fn copy_front(from: &[u8], into: &mut [u8]) -> usize
    ensures count { result ≡ min (length from.now) (length into.old) }
    ensures copied { from.now ≡ take result into.new ++ drop result from.now }
{
    let count = from.len().min(into.len());
    into[..count].copy_from_slice(&from[..count]);
    count
}

/// The calls of a stream, of which some are to fail.
#[derive(Debug, Drop)]
struct Calls {
    failing: Vec<u64>,
    made: u64,
    faults: u64,
}

impl Calls {
    fn new(failing: Vec<u64>) -> Self
        ensures failing { result.failing ≡ failing }
        ensures made { result.made ≡ 0 }
        ensures faults { result.faults ≡ 0 }
    {
        Calls {
            failing,
            made: 0,
            faults: 0,
        }
    }

    /// Counts a call, and a fault where this call is to fail. Answers whether it is.
    fn next_fails(&mut self) -> bool
        ensures fails { result ≡ is_failing self.old.made self.old.failing.items }
        ensures failing { self.new.failing ≡ self.old.failing }
        ensures made { self.new.made ≡ next_count self.old.made }
        ensures faults { self.new.faults
            ≡ (if result then next_count self.old.faults else self.old.faults) }
        ensures later { self.old.faults ≤ self.new.faults }
    {
        self.made = self.made.saturating_add(1);
        let fails = self.failing.contains(&self.made);
        if fails {
            self.faults = self.faults.saturating_add(1);
        }
        fails
    }
}

/// A source over bytes in memory, of whose reads the listed ones fail.
///
/// Each other read gives as many bytes as are left and have room. The number of a call is a
/// `u64`; calls after the last number have that number too.
#[derive(Debug, Drop)]
pub struct MemorySource {
    unread: Unread,
    calls: Calls,
    ended: bool,
}

impl Model for MemorySource {
    ghost Value = { SourceState };

    ghost view = { λ s. record {
      left = s.unread;
      calls = s.calls.made;
      failing = s.calls.failing.items;
      faults = s.calls.faults;
      ended = s.ended;
    } };
}

impl MemorySource {
    /// A source that gives these bytes, and whose reads with the numbers in `failing`,
    /// counted from 1, fail.
    pub fn new(bytes: Vec<u8>, failing: Vec<u64>) -> Self
        ensures { result ≡ record {
          left = bytes.items;
          calls = 0;
          failing = failing.items;
          faults = 0;
          ended = false;
        } }
    {
        MemorySource {
            unread: Unread::new(bytes),
            calls: Calls::new(failing),
            ended: false,
        }
    }

    /// The bytes that were not read.
    pub fn left(&self) -> &[u8]
        ensures { result.now ≡ self.now.left }
    {
        self.unread.as_slice()
    }

    /// How many reads failed.
    pub fn faults(&self) -> u64
        ensures { result ≡ self.now.faults }
    {
        self.calls.faults
    }
}

impl Source for MemorySource {
    ghost left = { λ s. Some s.left };

    ghost faults = { λ s. s.faults };

    ghost ended = { λ s. s.ended };

    fn read(&mut self, into: &mut [u8]) -> Result<usize, Failed>
        ensures bound { ReadsAtMost result into.new }
        ensures bytes { ReadConsumes (Some self.old.left) (Some self.new.left) result into.new }
        ensures end { EndsExactly (Some self.old.left) result (length into.old) }
        ensures ended { IfOk result (λ n. 0 < length into.old → self.new.ended ≡ (n == 0)) }
        ensures kept { OnErr result (self.new.ended ≡ self.old.ended) }
        ensures no_room { length into.old ≡ 0 → self.new.ended ≡ self.old.ended }
        ensures later { self.old.faults ≤ self.new.faults }
        ensures failed { OnErr result (Rose self.old.faults self.new.faults) }

        // What this source adds: which calls fail, and how much a call gives.
        ensures fails { is_err result ≡ is_failing self.old.calls self.old.failing }
        ensures count { IfOk result (λ n. n ≡ min (length self.old.left) (length into.old)) }
        ensures calls { self.new.calls ≡ next_count self.old.calls }
        ensures failing { self.new.failing ≡ self.old.failing }
        ensures faults { self.new.faults
            ≡ (if is_err result then next_count self.old.faults else self.old.faults) }
    {
        if self.calls.next_fails() {
            return Err(Failed);
        }
        let count = self.unread.read(into);
        if !into.is_empty() {
            self.ended = count == 0;
        }
        Ok(count)
    }
}

/// A source over bytes in memory that never fails: its count of faults is 0 for good.
#[derive(Debug, Drop)]
pub struct SteadySource {
    unread: Unread,
    ended: bool,
}

impl SteadySource {
    /// A source that gives these bytes.
    pub fn new(bytes: Vec<u8>) -> Self
        ensures left { ⟦<SteadySource as Source>⟧.left result ≡ Some bytes.items }
        ensures ended { ⟦<SteadySource as Source>⟧.ended result ≡ false }
    {
        SteadySource {
            unread: Unread::new(bytes),
            ended: false,
        }
    }
}

impl Source for SteadySource {
    ghost left = { λ s. Some s.unread };

    ghost faults = { λ _. 0 };

    ghost ended = { λ s. s.ended };

    fn read(&mut self, into: &mut [u8]) -> Result<usize, Failed> {
        let count = self.unread.read(into);
        if !into.is_empty() {
            self.ended = count == 0;
        }
        Ok(count)
    }
}

/// A sink that keeps its bytes in memory, of whose writes the listed ones fail.
///
/// Each other write takes its whole piece, or finds no memory for it. The number of a call is
/// a `u64`; calls after the last number have that number too.
#[derive(Debug, Drop)]
pub struct MemorySink {
    bytes: Vec<u8>,
    calls: Calls,
}

impl Model for MemorySink {
    ghost Value = { SinkState };

    ghost view = { λ s. record {
      written = s.bytes.items;
      calls = s.calls.made;
      failing = s.calls.failing.items;
      faults = s.calls.faults;
    } };
}

impl MemorySink {
    /// An empty sink, whose writes with the numbers in `failing`, counted from 1, fail.
    pub fn new(alloc: Global, failing: Vec<u64>) -> Self
        ensures { result ≡ record {
          written = [];
          calls = 0;
          failing = failing.items;
          faults = 0;
        } }
    {
        MemorySink {
            bytes: Vec::new(alloc),
            calls: Calls::new(failing),
        }
    }

    /// The bytes that were written.
    pub fn written(&self) -> &[u8]
        ensures { result.now ≡ self.now.written }
    {
        &self.bytes
    }

    /// How many writes failed.
    pub fn faults(&self) -> u64
        ensures { result ≡ self.now.faults }
    {
        self.calls.faults
    }
}

impl Sink for MemorySink {
    ghost written = { λ s. Some s.written };

    ghost faults = { λ s. s.faults };

    fn write(&mut self, piece: &[u8]) -> Result<usize, NotWritten>
        ensures bound { WritesAtMost result piece.now }
        ensures bytes { WriteAppends (Some self.old.written) (Some self.new.written) result
            piece.now }
        ensures progress { IfOk result (λ n. 0 < length piece.now → 0 < n) }
        ensures later { self.old.faults ≤ self.new.faults }
        ensures failed { IsErrOf result NotWritten.Failed → Rose self.old.faults self.new.faults }

        // What this sink adds: which calls fail, and that the others take the whole piece.
        ensures fails { MatchBool (is_failing self.old.calls self.old.failing)
            (IsErrOf result NotWritten.Failed) (¬ IsErrOf result NotWritten.Failed) }
        ensures whole { IfOk result (λ n. n ≡ length piece.now) }
        ensures calls { self.new.calls ≡ next_count self.old.calls }
        ensures failing { self.new.failing ≡ self.old.failing }
        ensures faults { self.new.faults ≡ (if is_failing self.old.calls self.old.failing
            then next_count self.old.faults else self.old.faults) }
    {
        if self.calls.next_fails() {
            return Err(NotWritten::Failed);
        }
        self.bytes.extend_from_slice(piece)?;
        Ok(piece.len())
    }
}
