//! Standard input and output as a source and a sink. They tell no bytes: what the system gave or took
//! is trusted, and only the counts of faults are kept.
//!
//! The sink gathers what it takes, up to 64 KiB, and hands that on in one call of the writer: a call of the
//! system for each line would take most of a run's time. So a piece counts as taken when it is gathered, and a
//! fault of the writer comes with a later piece or with `flush`. Whoever makes a `StdSink` calls `flush` at its end, and
//! takes a failed one for a failed write: only then is all that was taken in the writer. After a fault the sink
//! takes nothing more, and `flush` fails. The bytes reach the writer in order, none of them twice and none after a
//! lost one, since what a call of the writer did not take stays in front. When the sink is dropped, what is still
//! gathered is tried once more, and whether that fails nobody hears.
ghost use Rattle.std.specs.Prelude.{◌≡◌, ◌<◌, ◌≤◌, [], None, IfOk, IfSome, IsErr, IsNone, OnOk, OnErr, length, take};
ghost use Rattle.std.specs.Io.Buffered.{writer_contents};
ghost use Rattle.std.specs.Io.KnownBytes.{Appends, Keeps};
ghost use Rattle.gh_io.specs.Counts.{one_more};
ghost use Rattle.gh_io.specs.Streams.{nothing_gathered, gathered};

use crate::sink::Sink;
use crate::source::{Failed, Source};
use std::alloc::{AllocError, Global};
use std::io::{BufWriter, ErrorKind, Read, Write};
use std::marker::Model;

/// A reader as a source: `StdSource::new(rt.stdin())` of standard input.
#[derive(Drop)]
pub struct StdSource<R> {
    reader: R,
    faults: u64,
}

impl<R> Model for StdSource<R> {
    ghost use Rattle.std.specs.Prelude.{ℕ};

    ghost Value = { ℕ };

    ghost view = { λ s. s.faults };
}

impl<R: Read> StdSource<R> {
    /// A source of what the reader gives.
    pub fn new(reader: R) -> Self
        ensures { result ≡ 0 }
    {
        StdSource { reader, faults: 0 }
    }

    /// How many reads failed. The count stands still at the greatest u64.
    pub fn faults(&self) -> u64
        ensures { result ≡ self.now }
    {
        self.faults
    }
}

impl<R: Read> Source for StdSource<R> {
    ghost left = { λ _. None };

    ghost faults = { λ s. s };

    fn read(&mut self, buf: &mut [u8]) -> Result<usize, Failed>
        ensures count { IfOk result (λ n. n ≤ length buf.old) }
        ensures ok { OnOk result (self.new ≡ self.old) }
        ensures err { OnErr result (self.new ≡ one_more self.old) }
        ensures never_falls { self.old ≤ self.new }
    {
        let Some(count) = read_once(&mut self.reader, buf) else {
            self.faults = self.faults.saturating_add(1);
            return Err(Failed);
        };
        Ok(count)
    }
}

// One read, begun again where a signal interrupts it. `None` where it failed.
fn read_once<R: Read>(reader: &mut R, buf: &mut [u8]) -> Option<usize>
    ensures { IfSome result (λ n. n ≤ length buf.old) }
{
    for _ in 0..u64::MAX {
        match reader.read(buf) {
            Ok(count) => return Some(count),
            Err(e) if e.kind() == ErrorKind::Interrupted => {}
            Err(_) => return None,
        }
    }
    None
}

/// A writer as a sink: `StdSink::new(alloc, rt.stdout())` of standard output.
#[derive(Drop)]
pub struct StdSink<W: Write + Drop> {
    writer: BufWriter<W>,
    faults: u64,
}

impl<W: Write + Drop> Model for StdSink<W> {
    ghost use Rattle.std.specs.Io.Buffered.{writer_inner, writer_buffer};
    ghost use Rattle.gh_io.specs.Streams.{Gathering};

    ghost Value = { Gathering W };

    ghost view = { λ s. record {
      writer = writer_inner s.writer;
      held = writer_buffer s.writer;
      faults = s.faults;
    } };
}

// So many bytes are gathered at most.
const MOST_HELD: usize = 65536;

impl<W: Write + Drop> StdSink<W> {
    /// A sink that gathers what it takes, and hands it on to the writer. It takes all its memory here, and
    /// fails only for want of it.
    pub fn new(alloc: Global, writer: W) -> Result<Self, AllocError>
        ensures { IfOk result (λ s. s ≡ nothing_gathered writer) }
    {
        match BufWriter::with_capacity(alloc, MOST_HELD, writer) {
            Ok(writer) => Ok(StdSink { writer, faults: 0 }),
            Err(_) => Err(AllocError),
        }
    }

    /// How many writes failed. The count stands still at the greatest u64.
    pub fn faults(&self) -> u64
        ensures { result ≡ self.now.faults }
    {
        self.faults
    }

    /// Hands on to the writer what is gathered. After a fault it fails, and hands on nothing.
    pub fn flush(&mut self) -> Result<(), Failed>
        ensures all_out { OnOk result (self.new.held ≡ []) }
        ensures told { Keeps (gathered W.contents self.old) (gathered W.contents self.new) }
        ensures ok { OnOk result (self.new.faults ≡ self.old.faults) }
        ensures err { OnErr result (self.new.faults ≡ one_more self.old.faults) }
        ensures broken { 0 < self.old.faults → IsErr result }
    {
        if self.faults > 0 || self.writer.flush().is_err() {
            self.faults = self.faults.saturating_add(1);
            return Err(Failed);
        }
        Ok(())
    }
}

impl<W: Write + Drop> Sink for StdSink<W> {
    ghost taken = { λ _. None };

    ghost faults = { λ s. s.faults };

    fn write(&mut self, buf: &[u8]) -> Result<usize, Failed>
        ensures count { IfOk result (λ n. n ≤ length buf.now) }
        ensures some { IfOk result (λ n. 0 < length buf.now → 0 < n) }
        ensures told { IfOk result (λ n. Appends (gathered W.contents self.old) (gathered W.contents self.new) (take n buf.now)) }
        ensures kept { OnErr result (Keeps (gathered W.contents self.old) (gathered W.contents self.new)) }
        ensures ok { OnOk result (self.new.faults ≡ self.old.faults) }
        ensures err { OnErr result (self.new.faults ≡ one_more self.old.faults) }
        ensures broken { 0 < self.old.faults → IsErr result }
        ensures never_falls { self.old.faults ≤ self.new.faults }
    {
        let count = if self.faults > 0 {
            None
        } else {
            gather(&mut self.writer, buf)
        };
        if count.is_none() {
            self.faults = self.faults.saturating_add(1);
        }
        count.ok_or(Failed)
    }
}

// Gathers the first bytes, fewer than there is room for in all: a piece as large as that would go past
// what is gathered in a call of its own. `None` where what is gathered was to make room, and was not taken.
fn gather<W: Write + Drop>(writer: &mut BufWriter<W>, buf: &[u8]) -> Option<usize>
    ensures count { IfSome result (λ n. n ≤ length buf.now) }
    ensures some { IfSome result (λ n. 0 < length buf.now → 0 < n) }
    ensures told { IfSome result (λ n. Appends (writer_contents W.contents writer.old) (writer_contents W.contents writer.new) (take n buf.now)) }
    ensures kept { IsNone result → Keeps (writer_contents W.contents writer.old) (writer_contents W.contents writer.new) }
{
    let part = &buf[..buf.len().min(MOST_HELD - 1)];
    match writer.write(part) {
        Ok(0) if !part.is_empty() => None,
        Ok(count) => Some(count),
        Err(_) => None,
    }
}
