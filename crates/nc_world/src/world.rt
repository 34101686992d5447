//! The world.

ghost use Rattle.std.specs.Prelude.{◌≡◌, ◌≤◌, ◌<◌, ◌+◌, ◌%◌, ◌++◌, [], length, IfOk, OnOk, OnErr};
ghost use Rattle.nc_slots.specs.SlotWords.{holder_of};
ghost use Rattle.nc_scen.specs.Accepted.{IsAccepted};
ghost use Rattle.nc_scen.specs.Events.{IsThere};
ghost use Rattle.nc_rules.specs.Driver.{left_op, searching};
ghost use Rattle.nc_calls.specs.MachineLaws.{SameShape};
ghost use Rattle.nc_rules.specs.Next.{next, event_records};
ghost use Rattle.nc_rules.specs.View.{bytes_of};
ghost use Rattle.nc_rules.specs.World.{start, driver_of};
ghost use Rattle.nc_world.specs.Looks.{is_ended};
ghost use Rattle.nc_world.specs.WorldView.{answer};

use crate::parts::Parts;
use nc_log::RecordList;
use nc_num::{Bytes, HartNo, NoMemory, Span};
use nc_rules::Record;
use nc_scen::{Event, Scenario};
use std::alloc::Global;
use std::marker::Model;

/// The outcome of an event.
#[derive(Clone, Copy, Debug, PartialEq, Eq)]
pub enum Stepped {
    /// The event was done, and has its records.
    Done,
    /// The event could not happen, and changed nothing.
    Skipped,
}

/// The world of a scenario. Contracts see the written machine's state, and the records since they were last taken.
#[derive(Drop)]
pub struct World {
    parts: Parts,
}

impl Model for World {
    ghost use Rattle.nc_world.specs.WorldView.{WorldView};
    ghost use Rattle.nc_world.specs.State.{state_code, shown_code};
    ghost use Rattle.nc_machine.specs.contracts.machine.Machine as machine_type;
    ghost use Rattle.nc_driver.specs.contracts.driver.Driver as driver_type;
    ghost use Rattle.nc_model.specs.contracts.owners.Owner as owner_type;
    ghost use Rattle.nc_model.specs.contracts.owners.Grant as grant_type;
    ghost use Rattle.nc_slots.specs.contracts.slots.Slots as slots_type;
    ghost use Rattle.nc_coherent.specs.contracts.pages.PagePool as pages_type;
    ghost use Rattle.nc_rules.specs.contracts.records.Record as record_type;

    ghost Value = { WorldView };

    ghost coded = { shown_code (state_code machine_type.the_row.coded driver_type.the_row.coded owner_type.the_row.coded grant_type.the_row.coded slots_type.the_row.coded pages_type.the_row.coded) record_type.the_row.coded };

    ghost use Rattle.nc_world.specs.Inside.{shown, IsSound};

    ghost view = { λ w. shown w.parts };

    ghost invariant = { λ w. IsSound w.parts };
}

impl World {
    // ---- the start

    /// Makes the world at the start of a scenario, without records.
    ///
    /// # Errors
    ///
    /// `NoMemory` where memory runs out.
    pub fn new(alloc: Global, sc: &Scenario) -> Result<World, NoMemory>
        requires { IsAccepted sc.now }
        ensures state { IfOk result (λ w. w.state ≡ start sc.now) }
        ensures records { IfOk result (λ w. w.records ≡ []) }
    {
        let parts = Parts::new(alloc, sc)?;
        Ok(World { parts })
    }

    // ---- one event

    /// Makes one event, or skips it where it may not happen. The hart, block or channel that it names exists. Returns
    /// whether the event was done.
    ///
    /// # Errors
    ///
    /// `NoMemory` where memory runs out; then nothing has changed.
    pub fn step(&mut self, e: Event) -> Result<Stepped, NoMemory>
        requires there { IsThere (length self.old.state.machine.harts) self.old.state.machine.size (length self.old.state.machine.cache.ram) e }
        ensures answer { IfOk result (λ s. s ≡ answer self.old.state e) }
        ensures next { OnOk result (self.new.state ≡ next self.old.state e) }
        ensures records { OnOk result (self.new.records ≡ self.old.records ++ event_records self.old.state e) }
        ensures shape { OnOk result (SameShape self.old.state.machine self.new.state.machine) }
        ensures err { OnErr result (self.new ≡ self.old) }
    {
        self.parts.step(e)
    }

    // ---- queries

    /// Returns the records since they were last taken, in order.
    pub fn records(&self) -> &[Record]
        ensures { result.now ≡ self.now.records }
    {
        self.parts.log.as_slice()
    }

    /// Returns the records, and leaves none. It takes no memory.
    pub fn take_records(&mut self) -> RecordList
        ensures taken { result ≡ self.old.records }
        ensures state { self.new.state ≡ self.old.state }
        ensures none { self.new.records ≡ [] }
    {
        self.parts.log.take()
    }

    /// Removes the records. It takes no memory, and the next event finds the room for its records here.
    pub fn clear_records(&mut self)
        ensures state { self.new.state ≡ self.old.state }
        ensures none { self.new.records ≡ [] }
    {
        self.parts.log.clear();
    }

    /// Returns the number of events that were done. The count does not pass 2^64 - 1.
    pub fn events(&self) -> u64
        ensures { result ≡ self.now.state.events }
    {
        self.parts.events
    }

    /// Returns the number of touches that were reported. The count does not pass 2^64 - 1.
    pub fn touches(&self) -> u64
        ensures { result ≡ self.now.state.touches }
    {
        self.parts.touches
    }

    /// Returns the slot word that the search of hart h's driver tries next, or None where the driver is at no search.
    pub fn searching(&self, h: HartNo) -> Option<u32>
        requires { h.0 < length self.now.state.machine.harts }
        ensures { result ≡ searching (driver_of self.now.state h.0) }
    {
        self.parts.searching(h)
    }

    /// Returns the index of the current operation of hart h's script, counted from 0, or None at the script's end.
    pub fn left(&self, h: HartNo) -> Option<u32>
        requires { h.0 < length self.now.state.machine.harts }
        ensures { result ≡ left_op (driver_of self.now.state h.0) }
    {
        self.parts.left(h)
    }

    /// Returns the hart that holds slot word `k`. None exactly where the word is free or `k` is out of range.
    pub fn holder(&self, k: u32) -> Option<HartNo>
        ensures { result ≡ holder_of self.now.state.slots k }
    {
        self.parts.slots.holder(k)
    }

    /// Returns whether every script is at its end and every store queue is empty.
    pub fn ended(&self) -> bool
        ensures { result ≡ is_ended self.now.state }
    {
        self.parts.at_end() && self.parts.are_empty()
    }

    /// Returns the bytes of a span that lies in one block inside RAM: those of the caches, else those of memory.
    pub fn bytes(&self, span: Span) -> Bytes
        requires block { span.at % self.now.state.machine.size + span.len ≤ self.now.state.machine.size }
        requires inside { span.at + span.len ≤ length self.now.state.machine.cache.ram }
        ensures value { result ≡ bytes_of self.now.state.machine span }
        ensures len { length result ≡ span.len }
    {
        self.parts.machine.bytes(span)
    }

    /// Returns the number of harts, 1 to 4. Each has a driver, a store queue and a cache.
    pub fn harts(&self) -> u8
        ensures machine { result ≡ length self.now.state.machine.harts }
        ensures drivers { result ≡ length self.now.state.drivers }
        ensures some { 1 ≤ result }
        ensures few { result ≤ 4 }
    {
        self.parts.harts()
    }
}
