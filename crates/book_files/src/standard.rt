// The standard streams.
ghost use Rattle.std.specs.Prelude.{◌≡◌, ◌<◌, ◌≤◌, take, length, IfOk, IsOkUnless, IsTrue, OnErr, OnOk};
ghost use Rattle.std.specs.Io.KnownBytes.{Appends, Consumes, IsAtEnd, Keeps};
ghost use Rattle.book_files.specs.Outside.{AppendsPart, faults_after};

use crate::error::{Failed, WriteError};
use crate::sink::Sink;
use crate::source::Source;
use std::io::{Input, Print, Printer, Read, Write, writer};
use std::marker::Model;

/// Standard input, or another reader, as a source: it tells the bytes that the reader tells, which
/// are none of the real standard input.
#[derive(Drop)]
pub struct StdSource<R: Read> {
    reader: R,
    faults: u64,
}

impl<R: Read> Model for StdSource<R> {
    ghost use Rattle.book_files.specs.Outside.{Counted};

    ghost Value = { Counted R };

    ghost view = { λ s. record { stream = s.reader; faults = s.faults } };
}

impl<R: Read> StdSource<R> {
    /// The standard input of a runtime.
    pub fn new(rt: &impl Input<Reader = R>) -> StdSource<R>
        ensures { result.faults ≡ 0 }
    {
        StdSource::of(rt.reader(), 0)
    }

    // A reader as a source, of which so many faults were counted.
    pub(crate) fn of(reader: R, faults: u64) -> StdSource<R>
        ensures stream { result.stream ≡ reader }
        ensures faults { result.faults ≡ faults }
    {
        StdSource { reader, faults }
    }

    // How many faults were counted.
    pub(crate) fn faults(&self) -> u64
        ensures { result ≡ self.now.faults }
    {
        self.faults
    }
}

impl<R: Read> Source for StdSource<R> {
    ghost left = { λ s. R.remaining s.stream };

    ghost faults = { λ s. s.faults };

    fn read(&mut self, buf: &mut [u8]) -> Result<usize, Failed>
        requires { 0 < length buf.old }
        ensures bound { IfOk result (λ n. n ≤ length buf.old) }
        ensures taken { IfOk result (λ n.
            Consumes (R.remaining self.old.stream) (R.remaining self.new.stream) (take n buf.new)) }
        ensures end { IfOk result (λ n. n ≡ 0 → IsAtEnd (R.remaining self.new.stream)) }
        ensures failed { OnErr result (Keeps (R.remaining self.old.stream) (R.remaining self.new.stream)) }
        ensures later { self.old.faults ≤ self.new.faults }
        ensures count { self.new.faults ≡ faults_after self.old.faults result }
    {
        match self.reader.read(buf) {
            Ok(count) => Ok(count),
            Err(_) => {
                self.faults = self.faults.saturating_add(1);
                Err(Failed)
            }
        }
    }
}

/// Standard output, or another writer, as a sink: it tells the bytes that the writer tells, which
/// are none of the real standard output.
#[derive(Drop)]
pub struct StdSink<W: Write> {
    writer: W,
    faults: u64,
}

impl<W: Write> Model for StdSink<W> {
    ghost use Rattle.book_files.specs.Outside.{Counted};

    ghost Value = { Counted W };

    ghost view = { λ s. record { stream = s.writer; faults = s.faults } };
}

impl<'a, P: Print> StdSink<Printer<'a, P>> {
    /// The standard output of a runtime.
    pub fn new(rt: &'a P) -> StdSink<Printer<'a, P>>
        ensures { result.faults ≡ 0 }
    {
        StdSink {
            writer: writer(rt),
            faults: 0,
        }
    }
}

impl<W: Write> StdSink<W> {
    // Writes all of `bytes`, and tells whether that was done.
    fn write_whole(&mut self, bytes: &[u8]) -> bool
        ensures whole { IsTrue result
            → Appends (W.contents self.old.stream) (W.contents self.new.stream) bytes.now }
        ensures part { AppendsPart (W.contents self.old.stream) (W.contents self.new.stream) bytes.now }
        ensures faults { self.new.faults ≡ self.old.faults }
    {
        let mut at = 0;
        'writing: while at < bytes.len() {
            match self.writer.write(&bytes[at..]) {
                Ok(0) | Err(_) => return false,
                Ok(count) => at += count,
            }
        }
        self.writer.flush().is_ok()
    }
}

impl<W: Write> Sink for StdSink<W> {
    ghost taken = { λ s. W.contents s.stream };

    ghost faults = { λ s. s.faults };

    fn write(&mut self, bytes: &[u8]) -> Result<(), WriteError>
        ensures all { OnOk result
            (Appends (W.contents self.old.stream) (W.contents self.new.stream) bytes.now) }
        ensures part { AppendsPart (W.contents self.old.stream) (W.contents self.new.stream) bytes.now }
        ensures cause { IsOkUnless result WriteError.Failed }
        ensures later { self.old.faults ≤ self.new.faults }
        ensures count { self.new.faults ≡ faults_after self.old.faults result }
    {
        if self.write_whole(bytes) {
            return Ok(());
        }
        self.faults = self.faults.saturating_add(1);
        Err(WriteError::Failed)
    }
}
