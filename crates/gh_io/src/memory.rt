//! Streams in memory, which fail at the calls that they are told, and give or take their bytes in
//! pieces where they are told so: for tests, and for theorems about bytes that are known.
ghost use Rattle.std.specs.Prelude.{◌≡◌, ℕ, ◌-◌, ◌<◌, ◌≤◌, ◌↔◌, List, [], ◌++◌, Some, IfOk, OnErr, IsErr, Contains, length, take, drop};
ghost use Rattle.gh_io.specs.Counts.{one_more};
ghost use Rattle.gh_io.specs.Streams.{of_piece, fresh_source, source_in_pieces, given, source_after, source_after_fault};
ghost use Rattle.gh_io.specs.Streams.{fresh_sink, sink_in_pieces, sink_after, sink_after_fault, fitting, SinkRefuses};

use crate::sink::Sink;
use crate::source::{Failed, Source};
use std::alloc::{AllocError, Global};
use std::marker::Model;

// How many of `n` bytes go over in one call: all of them or, in pieces, no more than a piece has.
fn of_piece(piece: Option<u32>, n: usize) -> usize
    ensures { result ≡ of_piece piece n }
{
    match piece {
        Some(most) => n.min(most as usize),
        None => n,
    }
}

/// A source over bytes in memory. A read gives as many bytes as the buffer holds, or all that are
/// left, or a whole piece, whichever is the least.
#[derive(Drop)]
pub struct MemSource {
    bytes: Vec<u8>,
    at: usize,
    piece: Option<u32>,
    fails: Vec<u64>,
    calls: u64,
    faults: u64,
}

impl Model for MemSource {
    ghost use Rattle.std.specs.Prelude.{◌≤◌, drop, vec_len, IfSome};
    ghost use Rattle.gh_io.specs.Streams.{SourceState};

    ghost Value = { SourceState };

    ghost view = { λ s. record {
      left = drop s.at s.bytes.items;
      piece = s.piece;
      failing = s.fails.items;
      calls = s.calls;
      faults = s.faults;
    } };

    ghost invariant = { λ s. (s.at ≤ vec_len s.bytes) × IfSome s.piece (λ n. 1 ≤ n) };
}

impl MemSource {
    /// A source of these bytes, whose calls of these numbers, from 1, fail. It fails only for want of
    /// memory.
    pub fn new(alloc: Global, bytes: &[u8], fails: &[u64]) -> Result<Self, AllocError>
        ensures { IfOk result (λ s. s ≡ fresh_source bytes.now fails.now) }
    {
        Ok(MemSource {
            bytes: Vec::from_slice(alloc, bytes)?,
            at: 0,
            piece: None,
            fails: Vec::from_slice(alloc, fails)?,
            calls: 0,
            faults: 0,
        })
    }

    /// The source, of which each read gives at most `n` bytes from now on.
    pub fn pieces(self, n: u32) -> Self
        requires { 1 ≤ n }
        ensures { result ≡ source_in_pieces self n }
    {
        MemSource {
            piece: Some(n),
            ..self
        }
    }

    /// How many reads failed.
    pub fn faults(&self) -> u64
        ensures { result ≡ self.now.faults }
    {
        self.faults
    }
}

impl Source for MemSource {
    ghost left = { λ s. Some s.left };

    ghost faults = { λ s. s.faults };

    fn read(&mut self, buf: &mut [u8]) -> Result<usize, Failed>
        ensures fails { IsErr result ↔ Contains self.old.failing (one_more self.old.calls) }
        ensures count { IfOk result (λ n. n ≡ given self.old (length buf.old)) }
        ensures end { IfOk result (λ n. n ≡ 0 → 0 < length buf.old → self.new.left ≡ []) }
        ensures bytes { IfOk result (λ n. buf.new ≡ take n self.old.left ++ drop n buf.old) }
        ensures ok { IfOk result (λ n. self.new ≡ source_after self.old n) }
        ensures err { OnErr result (self.new ≡ source_after_fault self.old) }
        ensures untouched { OnErr result (buf.new ≡ buf.old) }
        ensures never_falls { self.old.faults ≤ self.new.faults }
    {
        self.calls = self.calls.saturating_add(1);
        if self.fails.contains(&self.calls) {
            self.faults = self.faults.saturating_add(1);
            return Err(Failed);
        }
        let rest = &self.bytes[self.at..];
        let count = of_piece(self.piece, buf.len().min(rest.len()));
        buf[..count].copy_from_slice(&rest[..count]);
        self.at += count;
        Ok(count)
    }
}

/// A sink that keeps its bytes in memory. A write takes what it is given as far as there is room, and
/// no more than a piece. It fails where there is no room for the first byte.
#[derive(Drop)]
pub struct MemSink {
    bytes: Vec<u8>,
    room: usize,
    piece: Option<u32>,
    fails: Vec<u64>,
    calls: u64,
    faults: u64,
}

impl Model for MemSink {
    ghost use Rattle.std.specs.Prelude.{◌≤◌, vec_len, vec_capacity, IfSome};
    ghost use Rattle.gh_io.specs.Streams.{SinkState};

    ghost Value = { SinkState };

    ghost view = { λ s. record {
      taken = s.bytes.items;
      room = s.room;
      piece = s.piece;
      failing = s.fails.items;
      calls = s.calls;
      faults = s.faults;
    } };

    ghost invariant = { λ s. (vec_len s.bytes ≤ s.room) × (s.room ≤ vec_capacity s.bytes) × IfSome s.piece (λ n. 1 ≤ n) };
}

impl MemSink {
    /// A sink with room for so many bytes, whose calls of these numbers, from 1, fail. It takes all its
    /// memory here, and fails only for want of it.
    pub fn new(alloc: Global, room: usize, fails: &[u64]) -> Result<Self, AllocError>
        ensures { IfOk result (λ s. s ≡ fresh_sink room fails.now) }
    {
        Ok(MemSink {
            bytes: Vec::with_capacity(alloc, room)?,
            room,
            piece: None,
            fails: Vec::from_slice(alloc, fails)?,
            calls: 0,
            faults: 0,
        })
    }

    /// The sink, of which each write takes at most `n` bytes from now on.
    pub fn pieces(self, n: u32) -> Self
        requires { 1 ≤ n }
        ensures { result ≡ sink_in_pieces self n }
    {
        MemSink {
            piece: Some(n),
            ..self
        }
    }

    /// What was taken.
    pub fn bytes(&self) -> &[u8]
        ensures { result.now ≡ self.now.taken }
    {
        self.bytes.as_slice()
    }

    /// How many writes failed.
    pub fn faults(&self) -> u64
        ensures { result ≡ self.now.faults }
    {
        self.faults
    }
}

impl Sink for MemSink {
    ghost taken = { λ s. Some s.taken };

    ghost faults = { λ s. s.faults };

    fn write(&mut self, buf: &[u8]) -> Result<usize, Failed>
        ensures fails { IsErr result ↔ SinkRefuses self.old buf.now }
        ensures count { IfOk result (λ n. n ≡ fitting self.old buf.now) }
        ensures some { IfOk result (λ n. 0 < length buf.now → 0 < n) }
        ensures ok { IfOk result (λ n. self.new ≡ sink_after self.old (take n buf.now)) }
        ensures err { OnErr result (self.new ≡ sink_after_fault self.old) }
        ensures never_falls { self.old.faults ≤ self.new.faults }
    {
        self.calls = self.calls.saturating_add(1);
        let room = self.room - self.bytes.len();
        let count = of_piece(self.piece, buf.len().min(room));
        if self.fails.contains(&self.calls) || (count == 0 && !buf.is_empty()) {
            self.faults = self.faults.saturating_add(1);
            return Err(Failed);
        }
        self.bytes.extend_from_slice(&buf[..count]).unwrap();
        Ok(count)
    }
}
