//! Sources and sinks of memory that never fail.

ghost use Rattle.std.specs.Prelude.{◌≡◌, ◌≢◌, ◌<◌, ◌≤◌, [], length, take, IsOk, IfOk, Some, false, Err};
ghost use Rattle.std.specs.Io.{ReadsAtMost, WritesAtMost};
ghost use Rattle.std.specs.Io.KnownBytes.{ReadConsumes, WriteAppends};
ghost use Rattle.nc_io.specs.Causes.{Rose, HasCause};
ghost use Rattle.nc_io.specs.Ends.{Tells};

use crate::sink::{Sink, Stop};
use crate::source::{Failed, Source};
use std::alloc::Global;
use std::marker::Model;

/// A source over bytes of memory. One read gives at most `chunk` bytes, and no read fails.
#[derive(Drop)]
pub struct SureSource {
    bytes: Vec<u8>,
    at: usize,
    chunk: usize,
    ended: bool,
}

impl Model for SureSource {
    ghost use Rattle.std.specs.Prelude.{◌≤◌, vec_len, drop, ◌<◌};
    ghost use Rattle.nc_io.specs.Streams.{Left};

    ghost Value = { Left };

    ghost view = { λ s. record { left = drop s.at s.bytes.items; chunk = s.chunk; ended = s.ended } };

    ghost invariant = { λ s. (s.at ≤ vec_len s.bytes) × (0 < s.chunk) };
}

impl SureSource {
    /// Makes a source of these bytes, of which one read gives at most `chunk`, which is at least 1.
    pub fn new(bytes: Vec<u8>, chunk: usize) -> SureSource
        requires { 0 < chunk }
        ensures { result ≡ record { left = bytes.items; chunk = chunk; ended = false } }
    {
        SureSource {
            bytes,
            at: 0,
            chunk,
            ended: false,
        }
    }
}

impl Source for SureSource {
    ghost left = { λ s. Some s.left };

    ghost ended = { λ s. s.ended };

    ghost faults = { λ _. 0 };

    fn read(&mut self, buf: &mut [u8]) -> Result<usize, Failed>
        ensures bound { ReadsAtMost result buf.new }
        ensures bytes { ReadConsumes (Some self.old.left) (Some self.new.left) result buf.new }
        ensures end { Tells self.old.ended self.new.ended (length buf.old) result }
        ensures cause { HasCause 0 0 result }
        ensures sure { IsOk result }
        ensures chunk { IfOk result (λ n. n ≤ self.old.chunk) }
        ensures same { self.new.chunk ≡ self.old.chunk }
    {
        let count = give(&self.bytes[self.at..], self.chunk, buf);
        self.at += count;
        self.ended = self.ended || (count == 0 && !buf.is_empty());
        Ok(count)
    }
}

/// Copies a prefix of what is left, at most `chunk` bytes, into the buffer, and returns its length.
fn give(left: &[u8], chunk: usize, buf: &mut [u8]) -> usize
    requires { 0 < chunk }
    ensures within { result ≤ length left.now }
    ensures chunk { result ≤ chunk }
    ensures room { result ≤ length buf.old }
    ensures prefix { take result buf.new ≡ take result left.now }
    ensures none { result ≡ 0 → 0 < length buf.old → left.now ≡ [] }
{
    let count = left.len().min(chunk).min(buf.len());
    buf[..count].copy_from_slice(&left[..count]);
    count
}

/// A sink that keeps in memory what is written to it. No write fails, but memory may run out.
#[derive(Drop)]
pub struct SureSink {
    bytes: Vec<u8>,
}

impl Model for SureSink {
    ghost use Rattle.std.specs.Prelude.{List, ℕ};

    ghost Value = { List ℕ };

    ghost view = { λ s. s.bytes.items };
}

impl SureSink {
    /// Makes an empty sink.
    pub fn new(alloc: Global) -> SureSink
        ensures { result ≡ [] }
    {
        SureSink {
            bytes: Vec::new(alloc),
        }
    }

    /// Returns the bytes that were written so far.
    pub fn bytes(&self) -> &[u8]
        ensures { result.now ≡ self.now }
    {
        &self.bytes
    }
}

impl Sink for SureSink {
    ghost held = { λ s. Some s };

    ghost faults = { λ _. 0 };

    fn write(&mut self, piece: &[u8]) -> Result<usize, Stop>
        ensures bound { WritesAtMost result piece.now }
        ensures bytes { WriteAppends (Some self.old) (Some self.new) result piece.now }
        ensures some { IfOk result (λ n. 0 < length piece.now → 0 < n) }
        ensures later { 0 ≤ 0 }
        ensures cause { result ≡ Err Stop.Failed → Rose 0 0 }
        ensures sure { result ≢ Err Stop.Failed }
    {
        match self.bytes.extend_from_slice(piece) {
            Ok(()) => Ok(piece.len()),
            Err(_) => Err(Stop::NoMemory),
        }
    }
}
