//! RAM: the bytes of main memory, which the cache domain and the DMA channels read and write.
//!
//! The contract for the crates above: memory is a list of bytes, all zero at the start. A read returns the bytes of its
//! span. A write changes the bytes of its span and no others. `nc_num` has the two definitions, `span` and `splice`,
//! and their laws place by place.
#![tactic(auto)]

ghost use Rattle.std.specs.Prelude.{◌≡◌, ◌+◌, ◌^◌, ◌≤◌, ◌<◌, length, replicate, IfOk};
ghost use Rattle.nc_num.specs.Memory as memory;

use nc_num::{Bytes, NoMemory, Span};
use std::alloc::Global;
use std::marker::Model;

/// Main memory, fewer than 2^32 bytes. Contracts see the list of the bytes, by place.
#[derive(Debug, Drop)]
pub struct Ram {
    bytes: Vec<u8>,
}

impl Model for Ram {
    ghost use Rattle.std.specs.Prelude.{ℕ, List, ◌^◌, ◌<◌, length};

    ghost Value = { List ℕ };

    ghost view = { λ ram. ram.bytes.items };

    ghost invariant = { λ ram. length ram.bytes.items < 2 ^ 32 };
}

impl Ram {
    /// Makes a memory of `len` bytes, all of them 0.
    ///
    /// # Errors
    ///
    /// `NoMemory` where memory runs out.
    pub fn new(alloc: Global, len: u32) -> Result<Ram, NoMemory>
        ensures { IfOk result (λ ram. ram ≡ replicate len 0) }
    {
        let bytes = vec![in alloc; 0; len as usize]?;
        Ok(Ram { bytes })
    }

    /// Returns the number of bytes.
    pub fn len(&self) -> u32
        ensures value { result ≡ length self.now }
        ensures small { length self.now < 2 ^ 32 }
    {
        self.bytes.len() as u32
    }

    /// Returns the bytes of a span, which lies in RAM and has at most 128 bytes.
    #[tactic(auto, unfolding(nc_num::specs::Memory::span))]
    pub fn read(&self, span: Span) -> Bytes
        requires within { span.at + span.len ≤ length self.now }
        requires short { span.len ≤ 128 }
        ensures value { result ≡ memory.span self.now span.at span.len }
        ensures len { length result ≡ span.len }
        ensures small { length self.now < 2 ^ 32 }
    {
        let at = span.at as usize;
        let len = span.len as usize;
        Bytes::of(&self.bytes[at..at + len])
    }

    /// Writes bytes to a span, which lies in RAM and has at most 128 bytes. There are as many bytes as the span is
    /// long.
    #[tactic(auto, unfolding(nc_num::specs::Memory::splice))]
    pub fn write(&mut self, span: Span, bytes: &[u8])
        requires within { span.at + span.len ≤ length self.old }
        requires short { span.len ≤ 128 }
        requires whole { length bytes.now ≡ span.len }
        ensures value { self.new ≡ memory.splice self.old span.at bytes.now }
        ensures len { length self.new ≡ length self.old }
        ensures small { length self.old < 2 ^ 32 }
    {
        let at = span.at as usize;
        let len = span.len as usize;
        self.bytes[at..at + len].copy_from_slice(bytes);
    }
}
