//! The driver of a script.

ghost use Rattle.std.specs.Prelude.{◌≡◌, ◌<◌, true, length, IfOk, OnErr};
ghost use Rattle.nc_scen.specs.Accepted.{IsAccepted};
ghost use Rattle.nc_rules.specs.declared.steps.Next.TheVariants as nexts;
ghost use Rattle.nc_rules.specs.Driver as due;
ghost use Rattle.nc_rules.specs.Lots.{lot_id};
ghost use Rattle.nc_rules.specs.Start.{first_driver};
ghost use Rattle.nc_scripts.specs.Scripts.{is_act};
ghost use Rattle.nc_scripts.specs.Drivers.{ArePagesOf, IsSeenAt, IsLentAt};
ghost use Rattle.nc_driver.specs.Kept.{DriverInvariant, IsOver};
ghost use Rattle.nc_moves.specs.MovesView.{moves_view};

use crate::course::Course;
use nc_coherent::PagePool;
use nc_moves::Moves;
use nc_num::{HartNo, Label, NoMemory};
use nc_own::Book;
use nc_planned::waited_label;
use nc_rules::{Next, Phase, Seen};
use nc_scen::Scenario;
use std::alloc::Global;
use std::marker::Model;

/// The control of one hart's script: it gives the script's steps one at a time. Contracts see what the written machine
/// keeps of a driver: what it knows from the start, the index of the current operation, its phase in it, the rest of
/// its plan, its lots, and what it saw.
#[derive(Drop)]
pub struct Driver {
    course: Course,
}

impl Model for Driver {
    ghost use Rattle.nc_rules.specs.Driver.{DriverState};
    ghost use Rattle.nc_driver.specs.Kept.{state, IsReady};

    ghost Value = { DriverState };

    ghost view = { λ d. state d.course };

    ghost invariant = { λ d. IsReady (state d.course) d.course.due };
}

impl Driver {
    /// Makes the driver of hart `me` of a scenario, before its first operation.
    ///
    /// # Errors
    ///
    /// `NoMemory` where memory runs out.
    pub fn new(alloc: Global, me: HartNo, sc: &Scenario) -> Result<Driver, NoMemory>
        requires hart { me.0 < length sc.now.harts }
        requires accepted { IsAccepted sc.now }
        ensures { IfOk result (λ d. d ≡ first_driver sc.now me) }
    {
        let course = Course::new(alloc, me, sc)?;
        Ok(Driver { course })
    }

    /// Returns what the driver does next. It takes no memory.
    pub fn next(&self, _book: &Book) -> Next
        ensures next { result ≡ due.next_of self.now }
        ensures there { DriverInvariant self.now }
    {
        self.course.next()
    }

    /// Proves that the driver is one of an accepted scenario. It does nothing.
    pub fn sound(&self)
        ensures { DriverInvariant self.now }
    {
        let _course = &self.course;
    }

    /// Returns the index of the current operation, counted from 0; at the script's end, the number of its operations.
    pub fn op(&self) -> u32
        ensures { result ≡ self.now.op }
    {
        self.course.op
    }

    /// Returns the index of the current operation, counted from 0, or None at the script's end.
    pub fn left(&self) -> Option<u32>
        ensures { result ≡ due.left_op self.now }
    {
        match self.course.in_hand() {
            Some(_) => Some(self.course.op),
            None => None,
        }
    }

    /// Returns whether the current operation is made of the script's own accesses, and not of a plan's.
    pub fn is_script(&self) -> bool
        ensures { result ≡ due.is_script self.now.phase }
    {
        match self.course.phase {
            Phase::Steps(_) => true,
            Phase::Search(_) | Phase::Work => false,
        }
    }

    /// Returns the label whose token must leave the hart's queue before the next step. None where fences are full, and
    /// where the next step is not the first of an operation that takes back, gives or ends what a token is still to
    /// lend.
    #[tactic(auto, unfolding(nc_rules::specs::Driver::waits_for))]
    pub fn waits_for(&self) -> Option<Label>
        ensures { result ≡ due.waits_for self.now }
    {
        if !self.course.setup.light() {
            return None;
        }
        match (self.course.in_hand(), self.course.phase) {
            (Some(op), Phase::Steps(_)) => waited_label(op),
            (None, _) | (_, Phase::Search(_) | Phase::Work) => None,
        }
    }

    /// Makes the next step, which is no operation of the hart: the refusal of the current operation, or its start. The
    /// book is that of the scenario's RAM, and the pages are its pool's. Returns what the step moves.
    ///
    /// # Errors
    ///
    /// `NoMemory` where memory runs out; then the driver is unchanged.
    pub fn start(&mut self, book: &Book, pages: &PagePool) -> Result<Moves, NoMemory>
        requires next { due.next_of self.old ≡ nexts.Start }
        requires book { IsOver book.now.owners self.old }
        requires pages { ArePagesOf self.old.fixed pages.now }
        ensures driver { IfOk result (λ m. self.new ≡ (due.started self.old book.now.owners pages.now).driver) }
        ensures moves { IfOk result (λ m. moves_view m ≡ (due.started self.old book.now.owners pages.now).moves) }
        ensures fixed { self.new.fixed ≡ self.old.fixed }
        ensures err { OnErr result (self.new ≡ self.old) }
    {
        self.course.start(book, pages)
    }

    /// Tells the driver whether it got the slot word that it tried, and returns what this moves. Where the driver is at
    /// no search, nothing changes.
    ///
    /// # Errors
    ///
    /// `NoMemory` where memory runs out; then the driver is unchanged.
    pub fn told(&mut self, got: bool) -> Result<Moves, NoMemory>
        ensures driver { IfOk result (λ m. self.new ≡ (due.told self.old got).driver) }
        ensures moves { IfOk result (λ m. moves_view m ≡ (due.told self.old got).moves) }
        ensures fixed { self.new.fixed ≡ self.old.fixed }
        ensures err { OnErr result (self.new ≡ self.old) }
    {
        self.course.told(got)
    }

    /// Tells the driver what its next step saw, which the machine made: `Claimed` or `Busy` of a claim, `Control` of a
    /// poll, `Value` of a load of a register, and `Nothing` of any other. Returns what the step moves.
    ///
    /// # Errors
    ///
    /// `NoMemory` where memory runs out; then the driver is unchanged.
    pub fn done(&mut self, seen: Seen) -> Result<Moves, NoMemory>
        requires next { is_act (due.next_of self.old) ≡ true }
        requires seen { IsSeenAt (due.next_of self.old) seen }
        ensures driver { IfOk result (λ m. self.new ≡ (due.done self.old seen).driver) }
        ensures moves { IfOk result (λ m. moves_view m ≡ (due.done self.old seen).moves) }
        ensures fixed { self.new.fixed ≡ self.old.fixed }
        ensures err { OnErr result (self.new ≡ self.old) }
    {
        self.course.done(seen)
    }

    /// Tells the driver that the token of a lot has left the hart's queue, with which the lot is the device's. The
    /// token has the lot's label, the index of its first entry and its count of entries. Returns what this moves.
    ///
    /// # Errors
    ///
    /// `NoMemory` where memory runs out; then the driver is unchanged.
    pub fn lent(&mut self, label: Label, first: u8, count: u8) -> Result<Moves, NoMemory>
        requires lent { IsLentAt self.old.lots (lot_id label first) }
        ensures driver { IfOk result (λ m. self.new ≡ (due.lent self.old label first).driver) }
        ensures moves { IfOk result (λ m. moves_view m ≡ (due.lent self.old label first).moves) }
        ensures fixed { self.new.fixed ≡ self.old.fixed }
        ensures err { OnErr result (self.new ≡ self.old) }
    {
        let _count = count;
        self.course.lent(label, first)
    }
}
