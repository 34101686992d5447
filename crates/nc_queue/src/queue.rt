//! The queue: a ring of eight cells, with a start and a length.

ghost use Rattle.std.specs.Prelude.{◌≡◌, ◌↔◌, ◌≤◌, ◌<◌, List, [], ◌∷◌, ◌++◌, length, remove, slice_get, Ok, Err, IsNone, IsErr, OnOk, OnErr, IfErr, IfSome, IfNone};
ghost use Rattle.nc_num.specs.Sizes.{IsBlockSize};
ghost use Rattle.nc_queue.specs.Entries.{Fits, AllFit};
ghost use Rattle.nc_queue.specs.Ring.{listed};
ghost use Rattle.nc_queue.specs.Rules.{gives, newest, given_at, any_in, may_drain, drained, may_load, lends};

use crate::entry::{Entry, Full, is_io};
use crate::ring::{Entries, ROOM, entries_of, place, take_out};
use crate::rules;
use nc_num::{Label, MemType, Place};
use std::marker::Model;

/// The store queue of a hart. Contracts see the block size in bytes and the list of the entries, the oldest first.
#[derive(Clone, Debug, Drop)]
pub struct Queue {
    cells: [Entry; 8],
    start: u8,
    len: u8,
    size: u32,
}

impl Model for Queue {
    ghost use Rattle.nc_queue.specs.Ring.{window};
    ghost use Rattle.nc_queue.specs.QueueState.{QueueState, IsRing};

    ghost Value = { QueueState };

    ghost view = { λ q. record { size = q.size; entries = window q.start q.len q.cells } };

    ghost invariant = { λ q. IsRing q.cells q.start q.len q.size };
}

impl Queue {
    /// Makes an empty queue for blocks of 32, 64 or 128 bytes.
    pub fn new(block_size: u32) -> Queue
        requires { IsBlockSize block_size }
        ensures { result ≡ record { size = block_size; entries = [] } }
    {
        Queue {
            cells: [Entry::Mark { pred: 0, succ: 0 }; 8],
            start: 0,
            len: 0,
            size: block_size,
        }
    }

    /// Returns the number of entries, 0 to 8. Each of them meets the condition of `push`.
    pub fn len(&self) -> u8
        ensures value { result ≡ length self.now.entries }
        ensures few { result ≤ 8 }
        ensures known { IsBlockSize self.now.size }
        ensures fit { AllFit self.now.size self.now.entries }
    {
        self.len
    }

    /// Adds an entry as the newest. A store has 1 to 8 bytes in one block.
    ///
    /// # Errors
    ///
    /// `Full` with the entry, exactly where eight entries are queued; then the queue is unchanged.
    pub fn push(&mut self, e: Entry) -> Result<(), Full>
        requires { Fits self.old.size e }
        ensures full { IsErr result ↔ (length self.old.entries ≡ 8) }
        ensures given_back { IfErr result (λ f. f.0 ≡ e) }
        ensures err { OnErr result (self.new ≡ self.old) }
        ensures size { self.new.size ≡ self.old.size }
        ensures ok { OnOk result (self.new ≡ record { size = self.old.size; entries = self.old.entries ++ e ∷ [] }) }
    {
        if self.len == ROOM {
            return Err(Full(e));
        }
        self.cells[place(self.start, self.len)] = e;
        self.len += 1;
        Ok(())
    }

    /// Returns whether entry `i`, counted from the oldest, may drain. An entry that is no marker may where no earlier
    /// entry has its block, no earlier one is of class O where it is of class O itself, and no marker holds it back. A
    /// marker may where no earlier entry is of its predecessor set. The rules are this project's own. Where `i` is out
    /// of range the result is false.
    pub fn may_drain(&self, i: u8) -> bool
        ensures { result ≡ may_drain self.now.size self.now.entries i }
    {
        rules::may_drain(self.entries(), i as usize, self.size)
    }

    /// Removes and returns entry `i`, counted from the oldest, where it may drain. Later entries move up. Where it may
    /// not drain, or `i` is out of range, the result is None and the queue is unchanged.
    pub fn drain(&mut self, i: u8) -> Option<Entry>
        ensures entry { result ≡ drained self.old.size self.old.entries i }
        ensures fits { IfSome result (Fits self.old.size) }
        ensures none { IfNone result (self.new ≡ self.old) }
        ensures size { self.new.size ≡ self.old.size }
        ensures some { IfSome result (λ _. self.new ≡ record { size = self.old.size; entries = remove self.old.entries i }) }
    {
        if !rules::may_drain(self.entries(), i as usize, self.size) {
            return None;
        }
        let e = self.cells[place(self.start, i)];
        self.start = take_out(&mut self.cells, self.start, i, self.len);
        self.len -= 1;
        Some(e)
    }

    /// Returns whether a load of this type may be performed: one of type IO waits until no entry of class O is queued.
    pub fn may_load(&self, kind: MemType) -> bool
        ensures { result ≡ may_load self.now.entries kind }
    {
        !(is_io(kind) && rules::any_o(self.entries()))
    }

    /// Returns the index, counted from the oldest, of the newest entry that gives the byte of a place: a store over it,
    /// or a zero of its block. The result is None where no entry gives it.
    pub fn newest(&self, at: Place) -> Option<u8>
        ensures value { result ≡ newest self.now.size self.now.entries at.0 }
        ensures none { IsNone result ↔ (gives self.now.size self.now.entries at.0 ≡ None) }
        ensures byte { IfSome result (λ i. given_at self.now.size self.now.entries at.0 i ≡ gives self.now.size self.now.entries at.0) }
    {
        match rules::newest(self.entries(), at.0, self.size) {
            Some(i) => Some(i as u8),
            None => None,
        }
    }

    /// Returns a copy of entry `i`, counted from the oldest, or None where `i` is out of range.
    pub fn get(&self, i: u8) -> Option<Entry>
        ensures entry { result ≡ slice_get self.now.entries i }
        ensures fits { IfSome result (Fits self.now.size) }
    {
        if i < self.len {
            Some(self.cells[place(self.start, i)])
        } else {
            None
        }
    }

    /// Returns whether some entry is of a class in the FENCE set.
    pub fn holds(&self, set: u8) -> bool
        ensures { result ≡ any_in self.now.entries set }
    {
        rules::any_in(self.entries(), set)
    }

    /// Returns whether an ownership token of the label is queued.
    pub fn lends(&self, label: Label) -> bool
        ensures { result ≡ lends self.now.entries label.0 }
    {
        rules::any_lends(self.entries(), label)
    }

    /// Returns the entries, the oldest first.
    fn entries(&self) -> Entries<'_>
        ensures entries { listed result ≡ self.now.entries }
        ensures few { length (listed result) ≤ 8 }
    {
        entries_of(&self.cells, self.start, self.len)
    }
}
