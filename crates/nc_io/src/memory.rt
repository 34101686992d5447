//! Sources and sinks of memory, some of whose calls fail.

ghost use Rattle.std.specs.Prelude.{◌≡◌, ◌+◌, ◌<◌, ◌≤◌, ◌↔◌, ◌^◌, ◌-◌, [], length, min, Contains, IsErr, IsErrOf, IsTrue, Some, false, IfOk, Err};
ghost use Rattle.std.specs.Io.{ReadsAtMost, WritesAtMost};
ghost use Rattle.std.specs.Io.KnownBytes.{ReadConsumes, WriteAppends};
ghost use Rattle.nc_io.specs.Causes.{Rose, HasCause};
ghost use Rattle.nc_io.specs.Ends.{Tells};

use crate::sink::{Sink, Stop};
use crate::source::{Failed, Source};
use crate::sure::{SureSink, SureSource};
use std::alloc::Global;
use std::marker::Model;

/// A source over bytes of memory. One read gives at most `chunk` bytes, and the reads whose indices are listed fail.
#[derive(Drop)]
pub struct MemSource {
    inner: SureSource,
    fails: Vec<u32>,
    calls: u64,
    faults: u64,
}

impl Model for MemSource {
    ghost use Rattle.nc_io.specs.Streams.{Reading};

    ghost Value = { Reading };

    ghost view = { λ s. record {
      left = s.inner.left;
      chunk = s.inner.chunk;
      ended = s.inner.ended;
      fails = s.fails.items;
      calls = s.calls;
      faults = s.faults;
    } };
}

impl MemSource {
    /// Makes a source of these bytes, of which one read gives at most `chunk`, which is at least 1. The calls of `read`
    /// whose indices, counted from 0, are in `fails` fail.
    pub fn new(bytes: Vec<u8>, chunk: usize, fails: Vec<u32>) -> MemSource
        requires { 0 < chunk }
        ensures { result ≡ record { left = bytes.items; chunk = chunk; ended = false; fails = fails.items; calls = 0; faults = 0 } }
    {
        MemSource {
            inner: SureSource::new(bytes, chunk),
            fails,
            calls: 0,
            faults: 0,
        }
    }
}

impl Source for MemSource {
    ghost left = { λ s. Some s.left };

    ghost ended = { λ s. s.ended };

    ghost faults = { λ s. s.faults };

    fn read(&mut self, buf: &mut [u8]) -> Result<usize, Failed>
        ensures bound { ReadsAtMost result buf.new }
        ensures bytes { ReadConsumes (Some self.old.left) (Some self.new.left) result buf.new }
        ensures end { Tells self.old.ended self.new.ended (length buf.old) result }
        ensures cause { HasCause self.old.faults self.new.faults result }
        ensures fails { IsErr result ↔ Contains self.old.fails self.old.calls }
        ensures calls { self.new.calls ≡ min (self.old.calls + 1) (2 ^ 64 - 1) }
        ensures chunk { IfOk result (λ n. n ≤ self.old.chunk) }
        ensures same { (self.new.fails ≡ self.old.fails) × (self.new.chunk ≡ self.old.chunk) }
    {
        let failing = is_listed(&self.fails, self.calls);
        self.calls = self.calls.saturating_add(1);
        if failing {
            self.faults = self.faults.saturating_add(1);
            return Err(Failed);
        }
        self.inner.read(buf)
    }
}

/// Returns whether the index of a call is listed.
fn is_listed(fails: &[u32], call: u64) -> bool
    ensures { IsTrue result ↔ Contains fails.now call }
{
    fails.iter().any(|number| u64::from(*number) == call)
}

/// A sink that keeps in memory what is written to it. The writes whose indices are listed fail.
#[derive(Drop)]
pub struct MemSink {
    inner: SureSink,
    fails: Vec<u32>,
    calls: u64,
    faults: u64,
}

impl Model for MemSink {
    ghost use Rattle.nc_io.specs.Streams.{Writing};

    ghost Value = { Writing };

    ghost view = { λ s. record { held = s.inner; fails = s.fails.items; calls = s.calls; faults = s.faults } };
}

impl MemSink {
    /// Makes an empty sink. The calls of `write` whose indices, counted from 0, are in `fails` fail.
    pub fn new(alloc: Global, fails: Vec<u32>) -> MemSink
        ensures { result ≡ record { held = []; fails = fails.items; calls = 0; faults = 0 } }
    {
        MemSink {
            inner: SureSink::new(alloc),
            fails,
            calls: 0,
            faults: 0,
        }
    }

    /// Returns the bytes that were written so far.
    pub fn bytes(&self) -> &[u8]
        ensures { result.now ≡ self.now.held }
    {
        self.inner.bytes()
    }
}

impl Sink for MemSink {
    ghost held = { λ s. Some s.held };

    ghost faults = { λ s. s.faults };

    fn write(&mut self, piece: &[u8]) -> Result<usize, Stop>
        ensures bound { WritesAtMost result piece.now }
        ensures bytes { WriteAppends (Some self.old.held) (Some self.new.held) result piece.now }
        ensures some { IfOk result (λ n. 0 < length piece.now → 0 < n) }
        ensures later { self.old.faults ≤ self.new.faults }
        ensures cause { result ≡ Err Stop.Failed → Rose self.old.faults self.new.faults }
        ensures fails { IsErrOf result Stop.Failed → Contains self.old.fails self.old.calls }
        ensures listed { Contains self.old.fails self.old.calls → IsErrOf result Stop.Failed }
        ensures calls { self.new.calls ≡ min (self.old.calls + 1) (2 ^ 64 - 1) }
        ensures same { self.new.fails ≡ self.old.fails }
    {
        let failing = is_listed(&self.fails, self.calls);
        self.calls = self.calls.saturating_add(1);
        if failing {
            self.faults = self.faults.saturating_add(1);
            return Err(Stop::Failed);
        }
        self.inner.write(piece)
    }
}
