// Streams in memory.
ghost use Rattle.std.specs.Prelude.{◌≡◌, ◌≢◌, ◌<◌, ◌≤◌, ◌↔◌, ◌++◌, if◌then◌else◌, [], min, take, drop, length, Some, IsErr, IsErrOf, IsOkUnless, IfOk, OnOk, OnErr, Contains, is_ok};
ghost use Rattle.std.specs.Io.KnownBytes.{Appends, Consumes, IsAtEnd, Keeps};
ghost use Rattle.book_files.specs.Outside.{AppendsPart, MemStream, Rose, after_read, after_write, fresh, next_call};

use crate::error::{Failed, WriteError};
use crate::sink::Sink;
use crate::source::Source;
use std::alloc::{AllocError, Global};
use std::marker::Model;

/// A source in memory that never fails.
#[derive(Drop)]
pub struct CalmSource {
    bytes: Vec<u8>,
    at: usize,
}

impl Model for CalmSource {
    ghost use Rattle.std.specs.Prelude.{ℕ, List, drop, vec_len, ◌≤◌};

    ghost Value = { List ℕ };

    ghost view = { λ s. drop s.at s.bytes.items };

    ghost invariant = { λ s. s.at ≤ vec_len s.bytes };
}

impl CalmSource {
    /// A source of these bytes.
    pub fn new(bytes: Vec<u8>) -> CalmSource
        ensures { result ≡ bytes.items }
    {
        CalmSource { bytes, at: 0 }
    }

    // Moves as many bytes as there are, and have room, to the front of `buf`.
    fn fill(&mut self, buf: &mut [u8]) -> usize
        ensures count { result ≡ min (length self.old) (length buf.old) }
        ensures front { take result buf.new ≡ take result self.old }
        ensures rest { self.new ≡ drop result self.old }
    {
        let rest = &self.bytes[self.at..];
        let count = rest.len().min(buf.len());
        buf[..count].copy_from_slice(&rest[..count]);
        self.at += count;
        count
    }
}

impl Source for CalmSource {
    ghost left = { λ s. Some s };

    ghost faults = { λ _. 0 };

    fn read(&mut self, buf: &mut [u8]) -> Result<usize, Failed>
        ensures count { result ≡ Ok (min (length self.old) (length buf.old)) }
        ensures front { IfOk result (λ n. take n buf.new ≡ take n self.old) }
        ensures rest { IfOk result (λ n. self.new ≡ drop n self.old) }
    {
        Ok(self.fill(buf))
    }
}

/// A source in memory, of whose calls those with given numbers fail.
pub struct MemSource {
    stream: CalmSource,
    fails: Vec<u64>,
    calls: u64,
    faults: u64,
}

// Written out, so that whoever drops one calls one function.
impl Drop for MemSource {
    fn drop(self) {
        let MemSource {
            stream: _stream,
            fails: _fails,
            calls: _,
            faults: _,
        } = self;
    }
}

impl Model for MemSource {
    ghost use Rattle.book_files.specs.Outside.{MemStream};

    ghost Value = { MemStream };

    ghost view = { λ s. record {
      bytes = s.stream;
      fails = s.fails.items;
      calls = s.calls;
      faults = s.faults;
    } };
}

impl MemSource {
    /// A source of these bytes, whose calls with these numbers, counted from 1, fail.
    pub fn new(bytes: Vec<u8>, fails: Vec<u64>) -> MemSource
        ensures { result ≡ fresh bytes.items fails.items }
    {
        MemSource {
            stream: CalmSource::new(bytes),
            fails,
            calls: 0,
            faults: 0,
        }
    }
}

impl Source for MemSource {
    ghost left = { λ s. Some s.bytes };

    ghost faults = { λ s. s.faults };

    fn read(&mut self, buf: &mut [u8]) -> Result<usize, Failed>
        ensures fails { IsErr result ↔ Contains self.old.fails (next_call self.old) }
        ensures count { IfOk result (λ n. n ≡ min (length self.old.bytes) (length buf.old)) }
        ensures front { IfOk result (λ n. take n buf.new ≡ take n self.old.bytes) }
        ensures after { self.new ≡ after_read self.old result }
        ensures later { self.old.faults ≤ self.new.faults }
    {
        self.calls = self.calls.saturating_add(1);
        if self.fails.contains(&self.calls) {
            self.faults = self.faults.saturating_add(1);
            return Err(Failed);
        }
        Ok(self.stream.fill(buf))
    }
}

/// A sink in memory that fails only for want of memory.
#[derive(Drop)]
pub struct CalmSink {
    bytes: Vec<u8>,
}

impl Model for CalmSink {
    ghost use Rattle.std.specs.Prelude.{ℕ, List};

    ghost Value = { List ℕ };

    ghost view = { λ s. s.bytes.items };
}

impl CalmSink {
    /// An empty sink with room for a first piece.
    pub fn new(alloc: Global) -> Result<CalmSink, AllocError>
        ensures { IfOk result (λ s. s ≡ []) }
    {
        let bytes = Vec::with_capacity(alloc, FIRST_ROOM)?;
        Ok(CalmSink { bytes })
    }

    /// The bytes taken so far.
    pub fn bytes(&self) -> &[u8]
        ensures { result.now ≡ self.now }
    {
        &self.bytes
    }

    // Appends all of `bytes`, or none.
    fn append(&mut self, bytes: &[u8]) -> Result<(), AllocError>
        ensures { self.new ≡ (if is_ok result then self.old ++ bytes.now else self.old) }
    {
        self.bytes.extend_from_slice(bytes)
    }
}

impl Sink for CalmSink {
    ghost taken = { λ s. Some s };

    ghost faults = { λ _. 0 };

    fn write(&mut self, bytes: &[u8]) -> Result<(), WriteError>
        ensures after { self.new ≡ (if is_ok result then self.old ++ bytes.now else self.old) }
        ensures memory { IsOkUnless result WriteError.NoMemory }
    {
        self.append(bytes)?;
        Ok(())
    }
}

/// A sink in memory, of whose calls those with given numbers fail and take nothing.
pub struct MemSink {
    stream: CalmSink,
    fails: Vec<u64>,
    calls: u64,
    faults: u64,
}

// Written out, so that whoever drops one calls one function.
impl Drop for MemSink {
    fn drop(self) {
        let MemSink {
            stream: _stream,
            fails: _fails,
            calls: _,
            faults: _,
        } = self;
    }
}

impl Model for MemSink {
    ghost use Rattle.book_files.specs.Outside.{MemStream};

    ghost Value = { MemStream };

    ghost view = { λ s. record {
      bytes = s.stream;
      fails = s.fails.items;
      calls = s.calls;
      faults = s.faults;
    } };
}

impl MemSink {
    /// An empty sink, whose calls with these numbers, counted from 1, fail.
    pub fn new(alloc: Global, fails: Vec<u64>) -> Result<MemSink, AllocError>
        ensures { IfOk result (λ s. s ≡ fresh [] fails.items) }
    {
        let stream = CalmSink::new(alloc)?;
        Ok(MemSink {
            stream,
            fails,
            calls: 0,
            faults: 0,
        })
    }

    /// The bytes taken so far.
    pub fn bytes(&self) -> &[u8]
        ensures { result.now ≡ self.now.bytes }
    {
        self.stream.bytes()
    }
}

impl Sink for MemSink {
    ghost taken = { λ s. Some s.bytes };

    ghost faults = { λ s. s.faults };

    fn write(&mut self, bytes: &[u8]) -> Result<(), WriteError>
        ensures fails { IsErrOf result WriteError.Failed ↔ Contains self.old.fails (next_call self.old) }
        ensures after { self.new ≡ after_write self.old bytes.now result }
        ensures later { self.old.faults ≤ self.new.faults }
    {
        self.calls = self.calls.saturating_add(1);
        if self.fails.contains(&self.calls) {
            self.faults = self.faults.saturating_add(1);
            return Err(WriteError::Failed);
        }
        self.stream.append(bytes)?;
        Ok(())
    }
}

// The room that a sink in memory starts with.
const FIRST_ROOM: usize = 4096;
