//! What a world is made of, and its events.

ghost use Rattle.std.specs.Prelude.{◌≡◌, ◌≤◌, ◌<◌, ◌==◌, [], Some, true, false, length, IfOk, OnOk};
ghost use Rattle.std.specs.List.{list_all};
ghost use Rattle.nc_queue.specs.declared.entry.Entry.TheVariants as entries;
ghost use Rattle.nc_model.specs.Touches.{piece_touch};
ghost use Rattle.nc_scen.specs.Accepted.{IsAccepted};
ghost use Rattle.nc_scen.specs.Events.{IsThere};
ghost use Rattle.nc_rules.specs.Calls.{leaving};
ghost use Rattle.nc_rules.specs.Driver.{next_of, left_op, searching, is_script};
ghost use Rattle.nc_rules.specs.Events.{may_go_on, may_issue_step};
ghost use Rattle.nc_rules.specs.Lines.{at_end};
ghost use Rattle.nc_rules.specs.Sound.{IsMachine, OpIsThere, EntryIsThere, IsBlockIn, IsPieceIn};
ghost use Rattle.nc_rules.specs.EventTouches.{owner_of, issue_touch, op_touch, cbo_touch, drain_touch};
ghost use Rattle.nc_rules.specs.World.{start, driver_of};
ghost use Rattle.nc_calls.specs.MachineLaws.{SameShape};
ghost use Rattle.nc_scripts.specs.Drivers.{EachStaysDriver};
ghost use Rattle.nc_holds.specs.Holds.{MayMove, MovesMayBeMade};
ghost use Rattle.nc_moves.specs.MovesView.{moves_view};
ghost use Rattle.nc_world.specs.Inside.{state_of, IsSound, IsStepped, IsCarried};
ghost use Rattle.nc_world.specs.Looks.{is_token, transaction};
ghost use Rattle.nc_world.specs.Steps.{NextFits, step_touch};

use crate::world::Stepped;
use crate::{acts, setup, steps};
use nc_coherent::PagePool;
use nc_driver::Driver;
use nc_env::CboOp;
use nc_holds::{events_keep_holding, moves_may_be_made, tokens_are_lent, worlds_begin};
use nc_log::Log;
use nc_machine::Machine;
use nc_moves::Moves;
use nc_num::{Block, ChanNo, HartNo, Label, MemType, NoMemory, Span};
use nc_own::{Access, Book, Touch};
use nc_pdma_regs::CONTROL;
use nc_plan::HartOp;
use nc_queue::Entry;
use nc_rules::{Next, Record};
use nc_scen::{Event, Scenario};
use nc_scripts::every_driver_stays;
use nc_slots::Slots;
use nc_touch::{Look, hart_touch, register_touch};
use std::alloc::Global;

/// The parts of a world: the block size in bytes and the coherent pool, both of which the machine has too, the machine,
/// the drivers of its scripts, the owners and grants, the slot words and pages, the records, and the counts of events
/// and touches.
#[derive(Drop)]
pub(crate) struct Parts {
    pub(crate) size: u32,
    pub(crate) pool: Span,
    pub(crate) machine: Machine,
    pub(crate) drivers: Vec<Driver>,
    pub(crate) book: Book,
    pub(crate) slots: Slots,
    pub(crate) pages: PagePool,
    pub(crate) log: Log,
    pub(crate) events: u64,
    pub(crate) touches: u64,
}

#[tactic(auto, unfolding(nc_rules::specs::Events::enabled, nc_rules::specs::Next::next, nc_rules::specs::Next::performed, nc_rules::specs::Next::event_records, nc_rules::specs::Outcomes::outcome))]
impl Parts {
    // ---- the start, and one event

    /// Makes the parts at the start of a scenario. The error comes where memory runs out.
    #[tactic(auto, unfolding(nc_rules::specs::World::start))]
    pub(crate) fn new(alloc: Global, sc: &Scenario) -> Result<Parts, NoMemory>
        requires { IsAccepted sc.now }
        ensures state { IfOk result (λ p. state_of p ≡ start sc.now) }
        ensures records { IfOk result (λ p. p.log.records ≡ []) }
        ensures sound { IfOk result IsSound }
    {
        worlds_begin();
        Ok(Parts {
            size: sc.block_size,
            pool: sc.pool(),
            machine: Machine::new(alloc, sc)?,
            drivers: setup::drivers_of(alloc, sc)?,
            book: setup::book_of(alloc, sc)?,
            slots: Slots::new(alloc, sc.slots)?,
            pages: PagePool::new(alloc, sc.pool_at, sc.pages)?,
            log: Log::new(alloc),
            events: 0,
            touches: 0,
        })
    }

    /// Makes one event, or skips it where it may not happen. The error comes where memory runs out; then nothing has
    /// changed.
    pub(crate) fn step(&mut self, e: Event) -> Result<Stepped, NoMemory>
        requires sound { IsSound self.old }
        requires there { IsThere (length self.old.machine.machine.harts) self.old.machine.machine.size (length self.old.machine.machine.cache.ram) e }
        ensures stepped { IsStepped self.old self.new e result }
        ensures sound { IsSound self.new }
        ensures shape { OnOk result (SameShape self.old.machine.machine self.new.machine.machine) }
    {
        self.laws();
        events_keep_holding();
        self.dispatch(e)
    }

    /// Makes the event by its kind.
    fn dispatch(&mut self, e: Event) -> Result<Stepped, NoMemory>
        requires sound { IsSound self.old }
        requires there { IsThere (length self.old.machine.machine.harts) self.old.machine.machine.size (length self.old.machine.machine.cache.ram) e }
        ensures { IsStepped self.old self.new e result }
    {
        match e {
            Event::Issue(h) => self.issue_step(h),
            Event::Try(h) => self.try_word(h),
            Event::Told(h, got) => self.tell_word(h, got),
            Event::Drain(h, i) => self.drain(h, i),
            Event::Fill(h, b) => self.fill(h, b),
            Event::Evict(h, b) => self.evict(h, b),
            Event::ChanRead(c) => self.transact(c, Access::Read),
            Event::ChanWrite(c) => self.transact(c, Access::Write),
        }
    }

    // ---- looks

    /// Returns the number of harts, 1 to 4.
    pub(crate) fn harts(&self) -> u8
        requires { IsSound self.now }
        ensures machine { result ≡ length self.now.machine.machine.harts }
        ensures drivers { result ≡ length self.now.drivers.items }
        ensures some { 1 ≤ result }
        ensures few { result ≤ 4 }
    {
        self.machine.sound();
        self.drivers.len() as u8
    }

    /// Returns whether every script is at its end.
    pub(crate) fn at_end(&self) -> bool
        ensures { result ≡ at_end (state_of self.now) }
    {
        self.drivers.iter().all(|d| d.left().is_none())
    }

    /// Returns whether every store queue is empty.
    pub(crate) fn are_empty(&self) -> bool
        requires { IsSound self.now }
        ensures { result ≡ list_all (λ h. length h.queue.entries == 0) self.now.machine.machine.harts }
    {
        acts::are_empty(&self.machine, self.harts())
    }

    /// Returns the slot word that the search of hart h's driver tries next, or None where the driver is at no search.
    #[tactic(auto, unfolding(nc_rules::specs::Driver::searching))]
    pub(crate) fn searching(&self, h: HartNo) -> Option<u32>
        requires sound { IsSound self.now }
        requires hart { h.0 < length self.now.machine.machine.harts }
        ensures { result ≡ searching (driver_of (state_of self.now) h.0) }
    {
        match self.next_action(h) {
            Next::Search(k) => Some(k),
            Next::End
            | Next::Start
            | Next::Op(_)
            | Next::Claim(_)
            | Next::Poll(_)
            | Next::Take(_) => None,
        }
    }

    /// Returns the index of the current operation of hart h's script, or None at the script's end.
    pub(crate) fn left(&self, h: HartNo) -> Option<u32>
        requires sound { IsSound self.now }
        requires hart { h.0 < length self.now.machine.machine.harts }
        ensures { result ≡ left_op (driver_of (state_of self.now) h.0) }
    {
        self.drivers[usize::from(h.0)].left()
    }

    /// Proves the laws of every machine, of every driver and of what may be moved.
    fn laws(&self)
        ensures machine { IsMachine self.now.machine.machine }
        ensures stays { EachStaysDriver }
        ensures may { MovesMayBeMade }
    {
        every_driver_stays();
        moves_may_be_made();
        self.machine.sound();
    }

    /// Returns what the driver of hart h does next. What it names exists.
    fn next_action(&self, h: HartNo) -> Next
        requires sound { IsSound self.now }
        requires hart { h.0 < length self.now.machine.machine.harts }
        ensures next { result ≡ next_of (driver_of (state_of self.now) h.0) }
        ensures there { NextFits self.now.machine.machine h.0 result }
    {
        every_driver_stays();
        self.next_of(h)
    }

    /// Returns what the driver of hart h does next.
    fn next_of(&self, h: HartNo) -> Next
        requires sound { IsSound self.now }
        requires hart { h.0 < length self.now.machine.machine.harts }
        ensures { result ≡ next_of (driver_of (state_of self.now) h.0) }
    {
        self.drivers[usize::from(h.0)].next(&self.book)
    }

    /// Returns the index of the current operation of hart h's script.
    fn number(&self, h: HartNo) -> u32
        requires sound { IsSound self.now }
        requires hart { h.0 < length self.now.machine.machine.harts }
        ensures { result ≡ (driver_of (state_of self.now) h.0).op }
    {
        self.drivers[usize::from(h.0)].op()
    }

    /// Returns whether the current operation of hart h's script is made of the script's own accesses, and not of a
    /// plan's.
    fn is_script(&self, h: HartNo) -> bool
        requires sound { IsSound self.now }
        requires hart { h.0 < length self.now.machine.machine.harts }
        ensures { result ≡ is_script (driver_of (state_of self.now) h.0).phase }
    {
        self.drivers[usize::from(h.0)].is_script()
    }

    // ---- touches

    /// Returns the touch that an operation of hart h's driver is, if it is one.
    fn issue_touch(&self, h: HartNo, op: &HartOp) -> Option<Touch>
        requires sound { IsSound self.now }
        requires hart { h.0 < length self.now.machine.machine.harts }
        requires there { OpIsThere self.now.machine.machine h.0 op.now }
        ensures { result ≡ issue_touch (state_of self.now) h (is_script (driver_of (state_of self.now) h.0).phase) op.now }
    {
        if self.is_script(h) {
            self.op_touch(h, op)
        } else {
            None
        }
    }

    /// Returns the touch that an operation of hart h's script is, if it is one.
    #[tactic(auto, unfolding(nc_rules::specs::EventTouches::op_touch))]
    fn op_touch(&self, h: HartNo, op: &HartOp) -> Option<Touch>
        requires sound { IsSound self.now }
        requires there { OpIsThere self.now.machine.machine h.0 op.now }
        ensures { result ≡ op_touch (state_of self.now) h op.now }
    {
        match op {
            HartOp::Load { span, kind } => self.piece_touch(h, Access::Read, *span, *kind),
            HartOp::Store { span, kind, .. } => self.piece_touch(h, Access::Write, *span, *kind),
            HartOp::Cbo { op, block } => self.cbo_touch(h, *op, *block),
            HartOp::IoLoad { chan, off, width } => {
                register_touch(h, *chan, *off, *width, self.machine.grantee(*chan))
            }
            HartOp::Fence { .. } | HartOp::IoStore(_) | HartOp::Mark { .. } => None,
        }
    }

    /// Returns the touch that a piece of a script's load or store is, if it is one.
    fn piece_touch(&self, h: HartNo, access: Access, span: Span, kind: MemType) -> Option<Touch>
        requires sound { IsSound self.now }
        requires there { IsPieceIn (length self.now.machine.machine.cache.ram) span }
        ensures { result ≡ piece_touch (owner_of (state_of self.now)) self.now.book.grants self.now.machine.machine.pool h access span kind }
    {
        self.machine.sound();
        let look = Look::Piece { access, span, kind };
        hart_touch(&self.book, self.pool, h, look)
    }

    /// Returns the touch that a script's cache operation is by its effect, if it is one.
    fn cbo_touch(&self, h: HartNo, op: CboOp, block: Block) -> Option<Touch>
        requires sound { IsSound self.now }
        requires there { IsBlockIn self.now.machine.machine.size (length self.now.machine.machine.cache.ram) block.0 }
        ensures { result ≡ cbo_touch (state_of self.now) h op block.0 }
    {
        self.machine.sound();
        let block = Span {
            at: self.size * block.0,
            len: self.size,
        };
        match op {
            CboOp::Clean | CboOp::Flush => None,
            CboOp::Inval => hart_touch(&self.book, self.pool, h, Look::Discard { block }),
            CboOp::Zero => hart_touch(&self.book, self.pool, h, Look::Zero { block }),
        }
    }

    /// Returns the touch that the drain of an entry of hart h's queue is, if it is one.
    fn drain_touch(&self, h: HartNo, entry: &Entry) -> Option<Touch>
        requires { EntryIsThere self.now.machine.machine entry.now }
        ensures { result ≡ drain_touch (state_of self.now) h entry.now }
    {
        match entry {
            Entry::Reg {
                chan,
                off,
                width,
                ..
            } => register_touch(h, *chan, *off, *width, self.machine.grantee(*chan)),
            Entry::Store { .. }
            | Entry::Cbo { .. }
            | Entry::Mail { .. }
            | Entry::Lend { .. }
            | Entry::Mark { .. } => None,
        }
    }

    /// Returns the touch that the next step of hart h's driver is, if it is one.
    fn step_touch(&self, h: HartNo, next: &Next) -> Option<Touch>
        requires sound { IsSound self.now }
        requires hart { h.0 < length self.now.machine.machine.harts }
        requires there { NextFits self.now.machine.machine h.0 next.now }
        ensures { result ≡ step_touch (state_of self.now) h next.now }
    {
        match next {
            Next::Op(op) => self.issue_touch(h, op),
            Next::Poll(c) => register_touch(h, *c, CONTROL, 4, self.machine.grantee(*c)),
            Next::End | Next::Start | Next::Search(_) | Next::Claim(_) | Next::Take(_) => None,
        }
    }

    // ---- a driver's step

    /// Returns whether the next step of hart h's driver may be made: an operation once the hart may issue it; a claim,
    /// a poll and a take once no entry of class O is queued; a poll once the transfer is over; and a take once the
    /// message has come.
    fn may_go_on(&self, h: HartNo, next: &Next) -> bool
        requires hart { h.0 < length self.now.machine.machine.harts }
        requires there { NextFits self.now.machine.machine h.0 next.now }
        ensures { result ≡ may_go_on (state_of self.now) h next.now }
    {
        match next {
            Next::End | Next::Search(_) => false,
            Next::Start => true,
            Next::Op(op) => self.machine.can_issue(h, op),
            Next::Claim(_) => !self.machine.io_waits(h),
            Next::Poll(c) => !self.machine.io_waits(h) && acts::is_over(self.machine.control(*c)),
            Next::Take(b) => !self.machine.io_waits(h) && self.machine.waits(*b) == Some(h),
        }
    }

    /// Returns whether `next`, the next step of hart h's driver, may be made: no token that it waits for is in the
    /// hart's queue either.
    fn may_issue(&self, h: HartNo, next: &Next) -> bool
        requires sound { IsSound self.now }
        requires hart { h.0 < length self.now.machine.machine.harts }
        requires there { NextFits self.now.machine.machine h.0 next.now }
        requires next { next.now ≡ next_of (driver_of (state_of self.now) h.0) }
        ensures { result ≡ may_issue_step (state_of self.now) h }
    {
        let out = match self.drivers[usize::from(h.0)].waits_for() {
            Some(label) => !self.machine.lends(h, label),
            None => true,
        };
        out && self.may_go_on(h, next)
    }

    /// Makes the next step of hart h's driver, where it may be made.
    fn issue_step(&mut self, h: HartNo) -> Result<Stepped, NoMemory>
        requires sound { IsSound self.old }
        requires hart { h.0 < length self.old.machine.machine.harts }
        ensures { IsStepped self.old self.new (Event.Issue h) result }
    {
        self.laws();
        let next = self.next_action(h);
        if !self.may_issue(h, &next) {
            return Ok(Stepped::Skipped);
        }
        let touch = self.step_touch(h, &next);
        let n = self.number(h);
        let by_script = self.is_script(h);
        let saw = acts::seen(&self.machine, h, &next);
        steps::reserve(&mut self.machine, &mut self.book, &mut self.log)?;
        let moves = steps::issue_step(&mut self.drivers, h, &next, saw, &self.book, &self.pages)?;
        self.log.push(&Record::Event(Event::Issue(h)));
        self.log.touch(touch);
        acts::act(
            &mut self.machine,
            &mut self.log,
            self.size,
            h,
            by_script,
            &next,
        );
        self.touches = steps::touches_after(self.touches, touch);
        self.carry(h, n, &moves);
        Ok(Stepped::Done)
    }

    /// Tries the slot word that is next in the search of hart h's driver, where the driver is at one.
    fn try_word(&mut self, h: HartNo) -> Result<Stepped, NoMemory>
        requires sound { IsSound self.old }
        requires hart { h.0 < length self.old.machine.machine.harts }
        ensures { IsStepped self.old self.new (Event.Try h) result }
    {
        self.laws();
        let Some(k) = self.searching(h) else {
            return Ok(Stepped::Skipped);
        };
        let n = self.number(h);
        let holder = self.slots.holder(k);
        steps::reserve(&mut self.machine, &mut self.book, &mut self.log)?;
        let moves = steps::told(&mut self.drivers, h, steps::is_free(holder))?;
        self.log.push(&Record::Event(Event::Try(h)));
        self.log.tried(h, k, holder);
        let _ = self.slots.try_word(h, k);
        self.carry(h, n, &moves);
        Ok(Stepped::Done)
    }

    /// Tells the search of hart h's driver, where the driver is at one, that its slot word is got, or is not. A word
    /// that is held is not got, whatever was told.
    fn tell_word(&mut self, h: HartNo, got: bool) -> Result<Stepped, NoMemory>
        requires sound { IsSound self.old }
        requires hart { h.0 < length self.old.machine.machine.harts }
        ensures { IsStepped self.old self.new (Event.Told h got) result }
    {
        self.laws();
        let Some(k) = self.searching(h) else {
            return Ok(Stepped::Skipped);
        };
        let n = self.number(h);
        let holder = self.slots.holder(k);
        steps::reserve(&mut self.machine, &mut self.book, &mut self.log)?;
        let moves = steps::told(&mut self.drivers, h, steps::is_got(got, holder))?;
        self.log.push(&Record::Event(Event::Told(h, got)));
        self.log.told(h, k, got, holder);
        steps::take_word(&mut self.slots, h, k, got);
        self.carry(h, n, &moves);
        Ok(Stepped::Done)
    }

    /// Moves what a call of hart h's driver moves, records it with the answer of operation n, and counts the event.
    fn carry(&mut self, h: HartNo, n: u32, moves: &Moves)
        requires may { MayMove (state_of self.old) h self.old.slots (moves_view moves.now) }
        requires changes { 72 ≤ self.old.book.spare }
        requires room { 67 ≤ self.old.log.room }
        ensures { IsCarried self.old self.new h n (moves_view moves.now) }
    {
        steps::carry(&mut self.book, &mut self.slots, &mut self.pages, h, moves);
        self.log.moves(h, n, moves);
        self.events = steps::one_more(self.events);
    }

    // ---- a drain

    /// Drains entry i of hart h's queue, where it may drain.
    fn drain(&mut self, h: HartNo, i: u8) -> Result<Stepped, NoMemory>
        requires sound { IsSound self.old }
        requires hart { h.0 < length self.old.machine.machine.harts }
        ensures { IsStepped self.old self.new (Event.Drain h i) result }
    {
        let Some(entry) = self.machine.peek(h, i) else {
            return Ok(Stepped::Skipped);
        };
        match entry {
            Entry::Lend {
                label,
                first,
                count,
            } => self.drain_token(h, i, label, first, count),
            Entry::Store { .. }
            | Entry::Cbo { .. }
            | Entry::Reg { .. }
            | Entry::Mail { .. }
            | Entry::Mark { .. } => self.drain_entry(h, i, &entry),
        }
    }

    /// Drains entry i of hart h's queue, which is `entry` and no token.
    fn drain_entry(&mut self, h: HartNo, i: u8, entry: &Entry) -> Result<Stepped, NoMemory>
        requires sound { IsSound self.old }
        requires hart { h.0 < length self.old.machine.machine.harts }
        requires leaves { leaving self.old.machine.machine h.0 i ≡ Some entry.now }
        requires plain { is_token entry.now ≡ false }
        ensures { IsStepped self.old self.new (Event.Drain h i) result }
    {
        self.laws();
        let touch = self.drain_touch(h, entry);
        steps::reserve(&mut self.machine, &mut self.book, &mut self.log)?;
        self.log.push(&Record::Event(Event::Drain(h, i)));
        self.log.touch(touch);
        acts::drain(&mut self.machine, &mut self.log, self.size, h, i, entry);
        self.touches = steps::touches_after(self.touches, touch);
        self.events = steps::one_more(self.events);
        Ok(Stepped::Done)
    }

    /// Drains entry i of hart h's queue, which is a token: the lot of this name is the device's.
    fn drain_token(
        &mut self,
        h: HartNo,
        i: u8,
        label: Label,
        first: u8,
        count: u8,
    ) -> Result<Stepped, NoMemory>
        requires sound { IsSound self.old }
        requires hart { h.0 < length self.old.machine.machine.harts }
        requires leaves { leaving self.old.machine.machine h.0 i ≡ Some (entries.Lend label first count) }
        ensures { IsStepped self.old self.new (Event.Drain h i) result }
    {
        self.laws();
        tokens_are_lent();
        let n = self.number(h);
        let entry = Entry::Lend {
            label,
            first,
            count,
        };
        steps::reserve(&mut self.machine, &mut self.book, &mut self.log)?;
        let moves = steps::lent(&mut self.drivers, h, label, first, count)?;
        self.log.push(&Record::Event(Event::Drain(h, i)));
        acts::drain(&mut self.machine, &mut self.log, self.size, h, i, &entry);
        self.carry(h, n, &moves);
        Ok(Stepped::Done)
    }

    // ---- caches and channels

    /// Fills a block into the cache of hart h, where it may.
    fn fill(&mut self, h: HartNo, b: Block) -> Result<Stepped, NoMemory>
        requires sound { IsSound self.old }
        requires hart { h.0 < length self.old.machine.machine.harts }
        requires block { IsBlockIn self.old.machine.machine.size (length self.old.machine.machine.cache.ram) b.0 }
        ensures { IsStepped self.old self.new (Event.Fill h b) result }
    {
        self.machine.sound();
        steps::reserve(&mut self.machine, &mut self.book, &mut self.log)?;
        let Some(bus) = self.machine.fill(h, b) else {
            return Ok(Stepped::Skipped);
        };
        self.log.push(&Record::Event(Event::Fill(h, b)));
        self.log.transfers(self.size, bus.as_slice());
        self.events = steps::one_more(self.events);
        Ok(Stepped::Done)
    }

    /// Evicts a block from the cache of hart h, where the hart has a copy.
    fn evict(&mut self, h: HartNo, b: Block) -> Result<Stepped, NoMemory>
        requires sound { IsSound self.old }
        requires hart { h.0 < length self.old.machine.machine.harts }
        requires block { IsBlockIn self.old.machine.machine.size (length self.old.machine.machine.cache.ram) b.0 }
        ensures { IsStepped self.old self.new (Event.Evict h b) result }
    {
        self.machine.sound();
        self.log.reserve()?;
        let Some(bus) = self.machine.evict(h, b) else {
            return Ok(Stepped::Skipped);
        };
        self.log.push(&Record::Event(Event::Evict(h, b)));
        self.log.transfers(self.size, bus.as_slice());
        self.events = steps::one_more(self.events);
        Ok(Stepped::Done)
    }

    /// Makes a read or a write of a channel, where it may be made.
    fn transact(&mut self, c: ChanNo, access: Access) -> Result<Stepped, NoMemory>
        requires sound { IsSound self.old }
        requires chan { c.0 < 4 }
        ensures { IsStepped self.old self.new (transaction c access) result }
    {
        self.machine.sound();
        self.log.reserve()?;
        let moved = acts::transact(&mut self.machine, c, access);
        if steps::is_idle(&moved) {
            return Ok(Stepped::Skipped);
        }
        let touch = steps::transaction_touch(&self.book, c, access, &moved);
        self.log.push(&Record::Event(acts::transaction(c, access)));
        self.log.touch(touch);
        acts::transacted(&mut self.log, c, access, &moved);
        self.touches = steps::touches_after(self.touches, touch);
        self.events = steps::one_more(self.events);
        Ok(Stepped::Done)
    }
}
