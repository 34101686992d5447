//! A hart: its store queue and the bytes of its last load.

ghost use Rattle.std.specs.Prelude.{◌≡◌, ◌<◌, [], ◌∷◌, ◌++◌, length, remove, IsTrue, IfSome, IfNone};
ghost use Rattle.nc_num.specs.Sizes.{IsBlockSize};
ghost use Rattle.nc_queue.specs.Entries.{Fits};
ghost use Rattle.nc_queue.specs.Rules.{drained};
ghost use Rattle.nc_hart.specs.Issue.{can_issue, issued, OpFits};

use crate::ops::{entry_of, fence_clear, load_clear, needs_entry};
use nc_num::Bytes;
use nc_plan::HartOp;
use nc_queue::{Entry, Queue};
use std::marker::Model;

/// The capacity of a queue, in entries.
const ROOM: u8 = 8;

/// A hart. Contracts see its queue and the bytes of its last load.
#[derive(Debug, Drop)]
pub struct Hart {
    queue: Queue,
    last: Bytes,
}

impl Model for Hart {
    ghost use Rattle.nc_num.specs.Sizes.{IsBlockSize};
    ghost use Rattle.nc_hart.specs.HartState.{HartState};

    ghost Value = { HartState };

    ghost view = { λ h. record { queue = h.queue; last = h.last } };

    ghost invariant = { λ h. IsBlockSize h.queue.size };
}

impl Hart {
    /// Makes a hart that has loaded nothing, with an empty queue for blocks of 32, 64 or 128 bytes.
    pub fn new(block_size: u32) -> Hart
        requires { IsBlockSize block_size }
        ensures { result ≡ record { queue = record { size = block_size; entries = [] }; last = [] } }
    {
        Hart {
            queue: Queue::new(block_size),
            last: Bytes::of(&[]),
        }
    }

    /// Returns whether an operation may be issued now: the queue has room where the operation needs an entry, a fence
    /// that waits finds no entry of its predecessor set, and an IO load finds none of class O. The rules are this
    /// project's own, after the RISC-V FENCE.
    #[tactic(auto, unfolding(crate::specs::Issue::can_issue))]
    pub fn can_issue(&self, op: &HartOp) -> bool
        ensures { result ≡ can_issue self.now op.now }
    {
        (!needs_entry(op) || self.queue.len() < ROOM)
            && fence_clear(&self.queue, op)
            && load_clear(&self.queue, op)
    }

    /// Issues an operation that may be issued: its entry, where it has one, becomes the newest of the queue. A store is
    /// one piece and has as many bytes as its span. A load changes the hart only by `loaded`.
    pub fn issue(&mut self, op: HartOp)
        requires can { IsTrue (can_issue self.old op) }
        requires fits { OpFits self.old.last op }
        ensures { self.new ≡ issued self.old op }
    {
        if let Some(e) = entry_of(&self.last, &op) {
            put(&mut self.queue, e);
        }
    }

    /// Sets the bytes that the last load gave, which a later store may name.
    pub fn loaded(&mut self, bytes: Bytes)
        ensures { self.new ≡ record { queue = self.old.queue; last = bytes } }
    {
        self.last = bytes;
    }

    /// Returns the bytes of the last load, or no bytes before the first load.
    pub fn last(&self) -> &Bytes
        ensures { result.now ≡ self.now.last }
    {
        &self.last
    }

    /// Returns the store queue.
    pub fn queue(&self) -> &Queue
        ensures { result.now ≡ self.now.queue }
    {
        &self.queue
    }

    /// Removes and returns entry `i` of the queue, counted from the oldest, where it may drain. Otherwise the result is
    /// None and the hart is unchanged.
    pub fn drain(&mut self, i: u8) -> Option<Entry>
        ensures entry { result ≡ drained self.old.queue.size self.old.queue.entries i }
        ensures fits { IfSome result (Fits self.old.queue.size) }
        ensures none { IfNone result (self.new ≡ self.old) }
        ensures some { IfSome result (λ _. self.new ≡ record {
          queue = record { size = self.old.queue.size; entries = remove self.old.queue.entries i };
          last = self.old.last;
        }) }
    {
        self.queue.drain(i)
    }
}

/// Adds an entry to a queue that has room for it.
fn put(queue: &mut Queue, e: Entry)
    requires room { length queue.old.entries < 8 }
    requires fits { Fits queue.old.size e }
    ensures { queue.new ≡ record { size = queue.old.size; entries = queue.old.entries ++ e ∷ [] } }
{
    match queue.push(e) {
        Ok(()) => {}
        Err(_) => unreachable!(),
    }
}
