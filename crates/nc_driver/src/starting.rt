//! The start of an operation: its refusal, the search for slots, and its opening.

ghost use Rattle.std.specs.Prelude.{ℕ, ◌≡◌, ◌<◌, ◌++◌, true, length, IfOk, OnOk, OnErr, Some};
ghost use Rattle.nc_ops.specs.declared.ops.Op.{Op};
ghost use Rattle.nc_rules.specs.declared.steps.Next.TheVariants as nexts;
ghost use Rattle.nc_rules.specs.Driver as due;
ghost use Rattle.nc_rules.specs.Lots.{some_lot_waits, slot_given};
ghost use Rattle.nc_rules.specs.Operations as rules;
ghost use Rattle.nc_scripts.specs.Drivers.{ArePagesOf};
ghost use Rattle.nc_moves.specs.MovesView.{moves_view};
ghost use Rattle.nc_planned.specs.Lenders.{lender_of};
ghost use Rattle.nc_driver.specs.Kept.{state, IsReady, IsDue, IsFit, ArePlaced, AreNamed, IsSound, IsOver};

use crate::course::Course;
use nc_checks::has_start;
use nc_coherent::PagePool;
use nc_lots::{append, cut, drop_wanted, got, put_back, some_lot_waits, turn};
use nc_moves::Moves;
use nc_num::NoMemory;
use nc_own::Book;
use nc_planned::{Lender, bad_answer, good_answer, plan_of};
use nc_rules::{Answer, Lot, Phase, Refusal, Step, Turn};
use nc_scen::Op;
use std::collections::VecDeque;

impl Course {
    /// Makes a step that is no operation of the hart: the refusal of the current operation, or its start.
    pub(crate) fn start(&mut self, book: &Book, pages: &PagePool) -> Result<Moves, NoMemory>
        requires ready { IsReady (state self.old) self.old.due }
        requires next { due.next_of (state self.old) ≡ nexts.Start }
        requires book { IsOver book.now.owners (state self.old) }
        requires pages { ArePagesOf self.old.setup pages.now }
        ensures driver { IfOk result (λ m. state self.new ≡ (due.started (state self.old) book.now.owners pages.now).driver) }
        ensures moves { IfOk result (λ m. moves_view m ≡ (due.started (state self.old) book.now.owners pages.now).moves) }
        ensures err { OnErr result (state self.new ≡ state self.old) }
        ensures due { IsDue (state self.new) self.new.due }
    {
        let alloc = self.alloc;
        let Some(op) = self.in_hand() else {
            return Ok(Moves::answer(alloc, None));
        };
        if has_start(op) {
            return self.begin(book, pages);
        }
        match self.due {
            Ok(_) => Ok(Moves::answer(alloc, None)),
            Err(refusal) => self.give_up(refusal),
        }
    }

    /// Makes the start step of the current operation, which has one: its refusal, or its new lots and a search or the
    /// opening.
    fn begin(&mut self, book: &Book, pages: &PagePool) -> Result<Moves, NoMemory>
        requires ready { IsReady (state self.old) self.old.due }
        requires next { due.next_of (state self.old) ≡ nexts.Start }
        requires start { (o : Op) → due.in_hand (state self.old) ≡ Some o → rules.has_start o ≡ true }
        requires book { IsOver book.now.owners (state self.old) }
        requires pages { ArePagesOf self.old.setup pages.now }
        ensures driver { (o : Op) → due.in_hand (state self.old) ≡ Some o → IfOk result (λ m. state self.new ≡ (due.started (state self.old) book.now.owners pages.now).driver) }
        ensures moves { (o : Op) → due.in_hand (state self.old) ≡ Some o → IfOk result (λ m. moves_view m ≡ (due.started (state self.old) book.now.owners pages.now).moves) }
        ensures err { OnErr result (state self.new ≡ state self.old) }
        ensures due { IsDue (state self.new) self.new.due }
    {
        let alloc = self.alloc;
        let Some(op) = self.in_hand() else {
            return Ok(Moves::answer(alloc, None));
        };
        match self.setup.begin(alloc, &self.lots, book, pages, op)? {
            Ok(new) => self.add(new),
            Err(refusal) => self.give_up(refusal),
        }
    }

    /// Adds these lots to the hart's, and begins a search where an entry waits for a slot, or makes the opening.
    fn add(&mut self, new: Vec<Lot>) -> Result<Moves, NoMemory>
        requires fit { IsFit self.old.setup }
        requires due { IsDue (state self.old) self.old.due }
        requires here { self.old.op < length self.old.setup.script }
        requires named { AreNamed (self.old.lots.items ++ new.items) }
        requires sound { (o : Op) → due.in_hand (state self.old) ≡ Some o → IsSound (due.placed (due.with_lots (state self.old) (self.old.lots.items ++ new.items)) o) }
        ensures driver { (o : Op) → due.in_hand (state self.old) ≡ Some o → IfOk result (λ m. state self.new ≡ (due.placed (due.with_lots (state self.old) (self.old.lots.items ++ new.items)) o).driver) }
        ensures moves { (o : Op) → due.in_hand (state self.old) ≡ Some o → IfOk result (λ m. moves_view m ≡ (due.placed (due.with_lots (state self.old) (self.old.lots.items ++ new.items)) o).moves) }
        ensures err { OnErr result (state self.new ≡ state self.old) }
        ensures due { IsDue (state self.new) self.new.due }
    {
        let count = self.lots.len();
        append(&mut self.lots, new)?;
        match self.place() {
            Ok(moves) => Ok(moves),
            Err(error) => {
                cut(&mut self.lots, count);
                Err(error)
            }
        }
    }

    /// Begins a search, where an entry waits for a slot, or makes the opening. After an error the step that is due is
    /// unchanged.
    pub(crate) fn place(&mut self) -> Result<Moves, NoMemory>
        requires fit { IsFit self.old.setup }
        requires here { self.old.op < length self.old.setup.script }
        requires named { AreNamed self.old.lots.items }
        requires sound { (o : Op) → due.in_hand (state self.old) ≡ Some o → IsSound (due.placed (state self.old) o) }
        ensures driver { (o : Op) → due.in_hand (state self.old) ≡ Some o → IfOk result (λ m. state self.new ≡ (due.placed (state self.old) o).driver) }
        ensures moves { (o : Op) → due.in_hand (state self.old) ≡ Some o → IfOk result (λ m. moves_view m ≡ (due.placed (state self.old) o).moves) }
        ensures err { OnErr result (state self.new ≡ state self.old) }
        ensures err_due { OnErr result (self.new.due ≡ self.old.due) }
        ensures due { OnOk result (IsDue (state self.new) self.new.due) }
    {
        if some_lot_waits(&self.lots) {
            self.search(0);
            return Ok(Moves::answer(self.alloc, None));
        }
        self.open()
    }

    /// Makes the opening turn of the current operation, and its plan.
    fn open(&mut self) -> Result<Moves, NoMemory>
        requires fit { IsFit self.old.setup }
        requires here { self.old.op < length self.old.setup.script }
        requires placed { ArePlaced self.old.lots.items }
        requires named { AreNamed self.old.lots.items }
        requires sound { (o : Op) → due.in_hand (state self.old) ≡ Some o → IsSound (due.opened (state self.old) o) }
        ensures driver { (o : Op) → due.in_hand (state self.old) ≡ Some o → IfOk result (λ m. state self.new ≡ (due.opened (state self.old) o).driver) }
        ensures moves { (o : Op) → due.in_hand (state self.old) ≡ Some o → IfOk result (λ m. moves_view m ≡ (due.opened (state self.old) o).moves) }
        ensures err { OnErr result (state self.new ≡ state self.old) }
        ensures err_due { OnErr result (self.new.due ≡ self.old.due) }
        ensures due { OnOk result (IsDue (state self.new) self.new.due) }
    {
        let alloc = self.alloc;
        let Some(op) = self.in_hand() else {
            unreachable!()
        };
        let plan = plan_of(alloc, &self.lender(), &self.lots, op)?;
        let opening = self.setup.opening(&self.lots, op);
        let answer = self.opened_answer(op, &plan);
        let moves = self.turned(opening, Turn::Stay, answer)?;
        turn(&mut self.lots, opening);
        self.go(plan);
        Ok(moves)
    }

    /// Returns the answer of an operation with this plan: one with an empty plan ends with its start.
    fn opened_answer(&self, op: &Op, plan: &VecDeque<Step>) -> Option<Answer>
        requires fit { IsFit self.now.setup }
        requires placed { ArePlaced self.now.lots.items }
        ensures { result ≡ due.answered (state self.now) op.now self.now.saw plan.now.items }
    {
        if plan.is_empty() {
            good_answer(self.setup.slots_at(), &self.lots, op, self.saw)
        } else {
            None
        }
    }

    /// Returns what the plans of the hart's operations depend on.
    fn lender(&self) -> Lender
        ensures { result ≡ lender_of self.now.setup }
    {
        Lender {
            effects: *self.setup.effects(),
            size: self.setup.size(),
            slots_at: self.setup.slots_at(),
            light: self.setup.light(),
        }
    }

    /// Refuses the current operation before anything is lent, and ends it: the lots that it made are removed.
    pub(crate) fn give_up(&mut self, refusal: Refusal) -> Result<Moves, NoMemory>
        requires fit { IsFit self.old.setup }
        requires here { self.old.op < length self.old.setup.script }
        requires sound { (o : Op) → due.in_hand (state self.old) ≡ Some o → IsSound (due.give_up (state self.old) o refusal) }
        ensures driver { (o : Op) → due.in_hand (state self.old) ≡ Some o → IfOk result (λ m. state self.new ≡ (due.give_up (state self.old) o refusal).driver) }
        ensures moves { (o : Op) → due.in_hand (state self.old) ≡ Some o → IfOk result (λ m. moves_view m ≡ (due.give_up (state self.old) o refusal).moves) }
        ensures err { OnErr result (state self.new ≡ state self.old) }
        ensures err_due { OnErr result (self.new.due ≡ self.old.due) }
        ensures due { OnOk result (IsDue (state self.new) self.new.due) }
    {
        let alloc = self.alloc;
        let Some(op) = self.in_hand() else {
            unreachable!()
        };
        let moves = Moves::given_up(alloc, &self.lots, bad_answer(op, refusal))?;
        drop_wanted(&mut self.lots);
        self.close();
        Ok(moves)
    }

    /// Tells the driver whether it got the slot word that it tried. Where it is at no search, nothing changes.
    pub(crate) fn told(&mut self, got: bool) -> Result<Moves, NoMemory>
        requires ready { IsReady (state self.old) self.old.due }
        ensures driver { IfOk result (λ m. state self.new ≡ (due.told (state self.old) got).driver) }
        ensures moves { IfOk result (λ m. moves_view m ≡ (due.told (state self.old) got).moves) }
        ensures err { OnErr result (state self.new ≡ state self.old) }
        ensures due { IsDue (state self.new) self.new.due }
    {
        let alloc = self.alloc;
        let Some(_op) = self.in_hand() else {
            return Ok(Moves::answer(alloc, None));
        };
        match self.phase {
            Phase::Search(k) if got => self.take_slot(k),
            Phase::Search(k) => self.miss(k),
            Phase::Steps(_) => Ok(Moves::answer(alloc, None)),
            Phase::Work => Ok(Moves::answer(alloc, None)),
        }
    }

    /// Gives slot `k` to the first entry that waits for one: then comes the search for the next, or the opening.
    fn take_slot(&mut self, k: u32) -> Result<Moves, NoMemory>
        requires fit { IsFit self.old.setup }
        requires here { self.old.op < length self.old.setup.script }
        requires due { IsDue (state self.old) self.old.due }
        requires slot { k < 64 }
        requires waits { some_lot_waits self.old.lots.items ≡ true }
        requires named { AreNamed (slot_given k self.old.lots.items) }
        requires sound { (o : Op) → due.in_hand (state self.old) ≡ Some o → IsSound (due.placed (due.with_lots (state self.old) (slot_given k self.old.lots.items)) o) }
        ensures driver { (o : Op) → due.in_hand (state self.old) ≡ Some o → IfOk result (λ m. state self.new ≡ (due.placed (due.with_lots (state self.old) (slot_given k self.old.lots.items)) o).driver) }
        ensures moves { (o : Op) → due.in_hand (state self.old) ≡ Some o → IfOk result (λ m. moves_view m ≡ (due.placed (due.with_lots (state self.old) (slot_given k self.old.lots.items)) o).moves) }
        ensures err { OnErr result (state self.new ≡ state self.old) }
        ensures due { IsDue (state self.new) self.new.due }
    {
        let at = got(&mut self.lots, k);
        match self.place() {
            Ok(moves) => Ok(moves),
            Err(error) => {
                put_back(&mut self.lots, at);
                Err(error)
            }
        }
    }

    /// Goes on from word `k`, which is held, to the next one. Where there is none, the operation is refused.
    fn miss(&mut self, k: u32) -> Result<Moves, NoMemory>
        requires fit { IsFit self.old.setup }
        requires here { self.old.op < length self.old.setup.script }
        requires due { IsDue (state self.old) self.old.due }
        requires slot { k < 64 }
        requires sound { (o : Op) → due.in_hand (state self.old) ≡ Some o → IsSound (due.missed (state self.old) o k) }
        ensures driver { (o : Op) → due.in_hand (state self.old) ≡ Some o → IfOk result (λ m. state self.new ≡ (due.missed (state self.old) o k).driver) }
        ensures moves { (o : Op) → due.in_hand (state self.old) ≡ Some o → IfOk result (λ m. moves_view m ≡ (due.missed (state self.old) o k).moves) }
        ensures err { OnErr result (state self.new ≡ state self.old) }
        ensures due { IsDue (state self.new) self.new.due }
    {
        if k + 1 < self.setup.slots() {
            self.search(k + 1);
            return Ok(Moves::answer(self.alloc, None));
        }
        self.give_up(Refusal::NoSlot)
    }
}
