//! The machine, and its calls.

ghost use Rattle.std.specs.Prelude.{◌≡◌, ◌≤◌, ◌<◌, ◌+◌, ◌%◌, length, map, is_err, is_some, IfOk, IfNone, IfSome, IsTrue, true, Some, OnOk, OnErr};
ghost use Rattle.std.specs.List.{range_with_len};
ghost use Rattle.nc_num.specs.Places.{block_at};
ghost use Rattle.nc_hart.specs.Issue.{issued};
ghost use Rattle.nc_queue.specs.Entries.{Fits, StoreFits};
ghost use Rattle.nc_plan.specs.declared.ops.HartOp.TheVariants as ops;
ghost use Rattle.nc_queue.specs.declared.entry.Entry.TheVariants as entries;
ghost use Rattle.nc_rules.specs.declared.answers.Issued.TheVariants.{Loaded};
ghost use Rattle.nc_rules.specs.Machine.{hart_of, queue_of, channel_of, grantee_of, box_of, with_hart, with_box, with_cache};
ghost use Rattle.nc_rules.specs.View.{bytes_of, bytes_seen, below};
ghost use Rattle.nc_rules.specs.Calls.{may_issue, issue_next, issue_answer, asks_caches, cache_loaded, load_transfers, performed, store_transfers, operation_transfers, drain_transfers, leaving, without_entry, drain_next, drain_answer, is_pooled, fill_next, fill_answer, evict_next, evict_answer, chan_read_next, chan_read_step, chan_write_next, chan_write_step, control_of, is_claimed, claim_next, claim_answer, may_take, take_next, io_waits, lends, register_value};
ghost use Rattle.nc_rules.specs.Sound.{IsMachine, IsBlockIn, IsRegister, IsPieceIn, IsMessage, OpIsThere, EntryIsThere};
ghost use Rattle.nc_rules.specs.Start.{first_machine};
ghost use Rattle.nc_machine.specs.Loads.{may_bring};
ghost use Rattle.nc_scen.specs.Accepted.{IsAccepted};

use crate::{engine, harts, start};
use nc_cache::{BusList, Domain};
use nc_env::CboOp;
use nc_hart::Hart;
use nc_mail::Mail;
use nc_mem::Ram;
use nc_num::{Block, Bytes, ChanNo, HartNo, Label, MemType, NoMemory, Place, Span, block_of};
use nc_pdma::{ChanStep, Channel};
use nc_plan::HartOp;
use nc_queue::{Entry, Queue};
use nc_rules::Issued;
use nc_scen::Scenario;
use std::alloc::Global;
use std::marker::Model;

/// The machine of a scenario. Contracts see the written machine, and `spare`, the number of further blocks for which
/// its caches have room.
#[derive(Drop)]
pub struct Machine {
    size: u32,
    pool: Span,
    ram: Ram,
    domain: Domain,
    harts: Vec<Hart>,
    channels: Vec<Channel>,
    grantees: [Option<HartNo>; 4],
    mail: Mail,
}

impl Model for Machine {
    ghost use Rattle.nc_machine.specs.State.{MachineView, machine_code, shown_code};
    ghost use Rattle.nc_cache.specs.contracts.line.Line as line;
    ghost use Rattle.nc_num.specs.contracts.places.Span as span;
    ghost use Rattle.nc_hart.specs.contracts.hart.Hart as hart;
    ghost use Rattle.nc_pdma.specs.contracts.channel.Channel as channel;
    ghost use Rattle.nc_num.specs.contracts.names.HartNo as hart_no;

    ghost Value = { MachineView };

    ghost coded = { shown_code (machine_code line.the_row.coded span.the_row.coded hart.the_row.coded channel.the_row.coded hart_no.the_row.coded) };

    ghost use Rattle.nc_machine.specs.Inside.{shown, IsSound};

    ghost view = { shown };

    ghost invariant = { IsSound };
}

impl Machine {
    // ---- the start, and room

    /// Makes the machine at the start of a scenario: memory has the buffers' initial bytes, and nothing else has
    /// happened.
    ///
    /// # Errors
    ///
    /// `NoMemory` where memory runs out.
    pub fn new(alloc: Global, sc: &Scenario) -> Result<Machine, NoMemory>
        requires { IsAccepted sc.now }
        ensures { IfOk result (λ m. m.machine ≡ first_machine sc.now) }
    {
        let harts = sc.harts.as_slice().len() as u8;
        let boxes = sc.buffers.as_slice().len() as u8;
        Ok(Machine {
            size: sc.block_size,
            pool: sc.pool(),
            ram: start::memory(alloc, sc)?,
            domain: Domain::new(alloc, harts, sc.block_size)?,
            harts: start::fresh_harts(alloc, harts, sc.block_size)?,
            channels: start::new_channels(alloc)?,
            grantees: [None; 4],
            mail: Mail::new(alloc, boxes)?,
        })
    }

    /// Makes room for one more block in the caches, so that the next call that brings one takes no memory.
    ///
    /// # Errors
    ///
    /// `NoMemory` where memory runs out; then the machine and its room are unchanged.
    pub fn reserve(&mut self) -> Result<(), NoMemory>
        ensures ok { OnOk result (1 ≤ self.new.spare) }
        ensures machine { self.new.machine ≡ self.old.machine }
        ensures kept { self.old.spare ≤ self.new.spare }
        ensures err { OnErr result (self.new ≡ self.old) }
    {
        self.domain.reserve()
    }

    // ---- a hart's operation

    /// Returns whether hart h may issue an operation now. An operation that needs an entry needs room in the queue; a
    /// fence that waits needs a queue without entries of its predecessor set; an IO load needs one without entries of
    /// class O.
    pub fn can_issue(&self, h: HartNo, op: &HartOp) -> bool
        requires { h.0 < length self.now.machine.harts }
        ensures value { result ≡ may_issue self.now.machine h.0 op.now }
        ensures sound { IsMachine self.now.machine }
    {
        self.harts[usize::from(h.0)].can_issue(op)
    }

    /// Has hart h issue an operation that it may issue now, and returns the machine's answer. A load or store is one
    /// piece inside RAM, a store has the bytes of its span, and the block, register, buffer or hart that an operation
    /// names exists. Only a load of memory needs room in the caches, for one block.
    #[tactic(auto, unfolding(nc_rules::specs::Calls::issue_next))]
    pub fn issue(&mut self, h: HartNo, op: HartOp) -> Issued
        requires hart { h.0 < length self.old.machine.harts }
        requires there { OpIsThere self.old.machine h.0 op }
        requires can { IsTrue (may_issue self.old.machine h.0 op) }
        requires spare { may_bring op ≡ true → 1 ≤ self.old.spare }
        ensures state { self.new.machine ≡ issue_next self.old.machine h.0 op }
        ensures answer { result ≡ issue_answer self.old.machine h.0 op }
        ensures spare { self.old.spare ≤ self.new.spare + 1 }
    {
        match op {
            HartOp::Load { span, kind } => self.load(h, span, kind),
            HartOp::IoLoad { chan, off, width } => Issued::Value(self.register(chan, off, width)),
            HartOp::Fence { pred, succ } => self.fence(h, pred, succ),
            HartOp::Store { .. } | HartOp::Cbo { .. } | HartOp::IoStore(_) | HartOp::Mark { .. } =>
                {
                    self.put(h, op);
                    Issued::Queued
                }
        }
    }

    // ---- a drain

    /// Drains entry i of hart h's queue, counted from the oldest: the entry leaves the queue and is performed. The
    /// caches have room for one more block. Returns the entry and its bus transfers, in order. None exactly where it
    /// may not drain; then nothing has changed.
    #[tactic(auto, unfolding(nc_rules::specs::Calls::drain_next))]
    pub fn drain(&mut self, h: HartNo, i: u8) -> Option<(Entry, BusList)>
        requires hart { h.0 < length self.old.machine.harts }
        requires spare { 1 ≤ self.old.spare }
        ensures state { self.new.machine ≡ drain_next self.old.machine h.0 i }
        ensures answer { result ≡ drain_answer self.old.machine h.0 i }
        ensures spare { self.old.spare ≤ self.new.spare + 1 }
    {
        let e = self.leave(h, i)?;
        let bus = self.perform(h, &e);
        Some((e, bus))
    }

    // ---- caches, at any moment

    /// Brings a copy of block b to hart h, and returns the bus transfers, in order. The caches have room for one more
    /// block. None exactly where the hart holds the block or the block lies in the coherent pool; then nothing has
    /// changed.
    #[tactic(auto, unfolding(nc_rules::specs::Calls::fill_next))]
    pub fn fill(&mut self, h: HartNo, b: Block) -> Option<BusList>
        requires hart { h.0 < length self.old.machine.harts }
        requires block { IsBlockIn self.old.machine.size (length self.old.machine.cache.ram) b.0 }
        requires spare { 1 ≤ self.old.spare }
        ensures state { self.new.machine ≡ fill_next self.old.machine h.0 b.0 }
        ensures answer { result ≡ fill_answer self.old.machine h.0 b.0 }
        ensures spare { self.old.spare ≤ self.new.spare + 1 }
    {
        if self.domain.holds(h, b) || self.is_pooled(b) {
            return None;
        }
        Some(self.domain.load(&mut self.ram, h, b))
    }

    /// Removes hart h's copy of block b, and writes it back where it is dirty. Returns the bus transfers, in order.
    /// None exactly where the hart has no copy; then nothing has changed.
    #[tactic(auto, unfolding(nc_rules::specs::Calls::evict_next))]
    pub fn evict(&mut self, h: HartNo, b: Block) -> Option<BusList>
        requires hart { h.0 < length self.old.machine.harts }
        requires block { IsBlockIn self.old.machine.size (length self.old.machine.cache.ram) b.0 }
        ensures state { self.new.machine ≡ evict_next self.old.machine h.0 b.0 }
        ensures answer { result ≡ evict_answer self.old.machine h.0 b.0 }
        ensures spare { self.old.spare ≤ self.new.spare }
    {
        self.domain.evict(&mut self.ram, h, b)
    }

    // ---- channels

    /// Makes one read of channel c, 0 to 3, and returns what it did: Idle exactly where the read is disabled; then
    /// nothing has changed.
    #[tactic(auto, unfolding(nc_rules::specs::Calls::chan_read_next))]
    pub fn chan_read(&mut self, c: ChanNo) -> ChanStep
        requires { c.0 < 4 }
        ensures state { self.new.machine ≡ chan_read_next self.old.machine c.0 }
        ensures step { result ≡ chan_read_step self.old.machine c.0 }
        ensures spare { self.old.spare ≤ self.new.spare }
    {
        engine::read_step(&mut self.channels, c, &self.ram)
    }

    /// Makes one write of channel c, 0 to 3, and returns what it did: Idle exactly where the write is disabled; then
    /// nothing has changed.
    #[tactic(auto, unfolding(nc_rules::specs::Calls::chan_write_next))]
    pub fn chan_write(&mut self, c: ChanNo) -> ChanStep
        requires { c.0 < 4 }
        ensures state { self.new.machine ≡ chan_write_next self.old.machine c.0 }
        ensures step { result ≡ chan_write_step self.old.machine c.0 }
        ensures spare { self.old.spare ≤ self.new.spare }
    {
        engine::write_step(&mut self.channels, c, &mut self.ram)
    }

    /// Returns the value of Control of channel c, 0 to 3.
    pub fn control(&self, c: ChanNo) -> u32
        requires { c.0 < 4 }
        ensures value { result ≡ control_of self.now.machine c.0 }
        ensures sound { IsMachine self.now.machine }
    {
        engine::control(&self.channels[usize::from(c.0)])
    }

    /// Claims channel c, 0 to 3, for hart h.
    ///
    /// # Errors
    ///
    /// The hart to which the channel is granted, exactly where the channel is claimed; then nothing has changed.
    #[tactic(auto, unfolding(nc_rules::specs::Calls::claim_next))]
    pub fn claim(&mut self, h: HartNo, c: ChanNo) -> Result<(), HartNo>
        requires hart { h.0 < length self.old.machine.harts }
        requires channel { c.0 < 4 }
        ensures state { self.new.machine ≡ claim_next self.old.machine h c.0 }
        ensures answer { result ≡ claim_answer (grantee_of self.old.machine c.0) }
        ensures claimed { is_err result ≡ is_claimed (channel_of self.old.machine c.0) }
        ensures spare { self.old.spare ≤ self.new.spare }
    {
        if let Some(g) = self.grantees[usize::from(c.0)] {
            return Err(g);
        }
        engine::claim(&mut self.channels, c);
        self.grantees[usize::from(c.0)] = Some(h);
        Ok(())
    }

    /// Returns the hart to which channel c, 0 to 3, is granted: the one whose access set its claim bit. None exactly
    /// where the bit is clear.
    pub fn grantee(&self, c: ChanNo) -> Option<HartNo>
        requires { c.0 < 4 }
        ensures value { result ≡ grantee_of self.now.machine c.0 }
        ensures claimed { is_some result ≡ is_claimed (channel_of self.now.machine c.0) }
        ensures sound { IsMachine self.now.machine }
    {
        self.grantees[usize::from(c.0)]
    }

    // ---- the mailbox

    /// Takes the message from the box of buffer `buf` if it waits for hart h, and returns whether it did.
    #[tactic(auto, unfolding(nc_rules::specs::Calls::take_next))]
    pub fn take(&mut self, h: HartNo, buf: u8) -> bool
        requires { buf < length self.old.machine.boxes }
        ensures state { self.new.machine ≡ take_next self.old.machine h.0 buf }
        ensures answer { result ≡ may_take self.old.machine h.0 buf }
        ensures spare { self.old.spare ≤ self.new.spare }
    {
        self.mail.take(buf, h)
    }

    /// Returns the hart for which a message waits in the box of buffer `buf`, or None where the box is empty.
    pub fn waits(&self, buf: u8) -> Option<HartNo>
        requires { buf < length self.now.machine.boxes }
        ensures value { result ≡ box_of self.now.machine buf }
        ensures sound { IsMachine self.now.machine }
    {
        self.mail.waits(buf)
    }

    // ---- queries

    /// Returns the number of entries of hart h's queue, 0 to 8.
    pub fn queued(&self, h: HartNo) -> u8
        requires { h.0 < length self.now.machine.harts }
        ensures value { result ≡ length (queue_of self.now.machine h.0) }
        ensures few { result ≤ 8 }
        ensures sound { IsMachine self.now.machine }
    {
        self.queue(h).len()
    }

    /// Returns whether hart h's queue has an entry of class O: a store of type IO, to a register or to a mailbox, or an
    /// ownership token.
    pub fn io_waits(&self, h: HartNo) -> bool
        requires { h.0 < length self.now.machine.harts }
        ensures value { result ≡ io_waits self.now.machine h.0 }
        ensures sound { IsMachine self.now.machine }
    {
        !self.queue(h).may_load(MemType::Io)
    }

    /// Returns the entry that a drain of entry i of hart h's queue would perform. None exactly where it may not drain.
    #[tactic(auto, unfolding(nc_queue::specs::Rules::drained))]
    pub fn peek(&self, h: HartNo, i: u8) -> Option<Entry>
        requires { h.0 < length self.now.machine.harts }
        ensures value { result ≡ leaving self.now.machine h.0 i }
        ensures sound { IsMachine self.now.machine }
    {
        let queue = self.queue(h);
        if queue.may_drain(i) {
            queue.get(i)
        } else {
            None
        }
    }

    /// Returns whether hart h's queue has an ownership token of the label.
    pub fn lends(&self, h: HartNo, label: Label) -> bool
        requires { h.0 < length self.now.machine.harts }
        ensures value { result ≡ lends self.now.machine h.0 label.0 }
        ensures sound { IsMachine self.now.machine }
    {
        self.queue(h).lends(label)
    }

    /// Returns the bytes of hart h's last load, or no bytes before the first.
    pub fn last(&self, h: HartNo) -> &Bytes
        requires { h.0 < length self.now.machine.harts }
        ensures value { result.now ≡ (hart_of self.now.machine h.0).last }
        ensures sound { IsMachine self.now.machine }
    {
        self.harts[usize::from(h.0)].last()
    }

    /// Returns the value of a register of channel `chan`, 0 to 3, by its offset and width in bytes; 0 where there is no
    /// such register.
    pub fn register(&self, chan: ChanNo, off: u16, width: u8) -> u64
        requires { chan.0 < 4 }
        ensures value { result ≡ register_value self.now.machine chan.0 off width }
        ensures sound { IsMachine self.now.machine }
    {
        self.channels[usize::from(chan.0)]
            .read(off, width)
            .unwrap_or(0)
    }

    /// Returns the bytes of a span that lies in one block inside RAM: those of the caches, else those of memory.
    #[tactic(auto, unfolding(nc_rules::specs::View::middle))]
    pub fn bytes(&self, span: Span) -> Bytes
        requires one_block { span.at % self.now.machine.size + span.len ≤ self.now.machine.size }
        requires inside { span.at + span.len ≤ length self.now.machine.cache.ram }
        ensures value { result ≡ bytes_of self.now.machine span }
        ensures len { length result ≡ span.len }
        ensures sound { IsMachine self.now.machine }
    {
        self.domain.bytes(&self.ram, span)
    }

    /// Proves that the machine satisfies the invariant of the written machine. It does nothing.
    pub fn sound(&self)
        ensures { IsMachine self.now.machine }
    {
        // the invariant is known where a field is named
        let _ = &self.size;
    }

    // ---- the parts of the calls

    /// Returns the store queue of hart h.
    fn queue(&self, h: HartNo) -> &Queue
        requires { h.0 < length self.now.machine.harts }
        ensures value { result.now ≡ (hart_of self.now.machine h.0).queue }
        ensures size { result.now.size ≡ self.now.machine.size }
        ensures sound { IsMachine self.now.machine }
    {
        self.harts[usize::from(h.0)].queue()
    }

    /// Returns whether a block lies in the coherent pool.
    fn is_pooled(&self, b: Block) -> bool
        requires { IsBlockIn self.now.machine.size (length self.now.machine.cache.ram) b.0 }
        ensures { result ≡ is_pooled self.now.machine b.0 }
    {
        let at = self.size * b.0;
        self.pool.at <= at && at - self.pool.at < self.pool.len
    }

    /// Returns the bytes of a piece below the queues. Those of types NC and IO are memory's, past the caches (Svpbmt).
    #[tactic(auto, using(crate::proofs::Loads::below_rules), unfolding(nc_rules::specs::View::middle))]
    fn below(&self, span: Span, kind: MemType) -> Bytes
        requires { IsPieceIn (length self.now.machine.cache.ram) span }
        ensures value { result ≡ map (λ x. below self.now.machine kind x) (range_with_len span.at span.len) }
        ensures len { length result ≡ span.len }
    {
        match kind {
            MemType::Pma => self.bytes(span),
            MemType::Nc | MemType::Io => self.ram.read(span),
        }
    }

    /// Returns the bytes of a piece that a load of hart h shows: each from the newest entry that gives it, else from
    /// below.
    #[tactic(auto, using(crate::proofs::Loads::overlaid_range), unfolding(nc_rules::specs::View::seen))]
    fn seen(&self, h: HartNo, span: Span, kind: MemType) -> Bytes
        requires hart { h.0 < length self.now.machine.harts }
        requires piece { IsPieceIn (length self.now.machine.cache.ram) span }
        ensures { result ≡ bytes_seen self.now.machine h.0 kind span }
    {
        let below = self.below(span, kind);
        harts::overlaid(self.queue(h), span.at, &below, self.size)
    }

    /// Returns whether a load of hart h asks the caches, and so gets its block: a load of main memory of which some
    /// byte is given by no entry.
    fn asks_caches(&self, h: HartNo, span: Span, kind: MemType) -> bool
        requires hart { h.0 < length self.now.machine.harts }
        requires piece { IsPieceIn (length self.now.machine.cache.ram) span }
        ensures { result ≡ asks_caches self.now.machine h.0 span kind }
    {
        match kind {
            MemType::Pma => harts::reaches_below(self.queue(h), span, self.size),
            MemType::Nc | MemType::Io => false,
        }
    }

    /// Brings the block of a load to hart h, where the load asks the caches, and returns the bus transfers.
    fn bring(&mut self, h: HartNo, span: Span, kind: MemType) -> BusList
        requires hart { h.0 < length self.old.machine.harts }
        requires piece { IsPieceIn (length self.old.machine.cache.ram) span }
        requires spare { 1 ≤ self.old.spare }
        ensures state { self.new.machine ≡ with_cache self.old.machine (cache_loaded self.old.machine h.0 span kind) }
        ensures bus { result ≡ load_transfers self.old.machine h.0 span kind }
        ensures spare { self.old.spare ≤ self.new.spare + 1 }
    {
        if !self.asks_caches(h, span, kind) {
            return BusList::new();
        }
        let block = block_of(Place(span.at), self.size);
        self.domain.load(&mut self.ram, h, block)
    }

    /// Performs a load of one piece by hart h.
    #[tactic(auto, unfolding(nc_rules::specs::Calls::issue_next))]
    fn load(&mut self, h: HartNo, span: Span, kind: MemType) -> Issued
        requires hart { h.0 < length self.old.machine.harts }
        requires piece { IsPieceIn (length self.old.machine.cache.ram) span }
        requires can { IsTrue (may_issue self.old.machine h.0 (ops.Load span kind)) }
        requires spare { 1 ≤ self.old.spare }
        ensures state { self.new.machine ≡ issue_next self.old.machine h.0 (ops.Load span kind) }
        ensures answer { result ≡ Loaded (bytes_seen self.old.machine h.0 kind span) (load_transfers self.old.machine h.0 span kind) }
        ensures spare { self.old.spare ≤ self.new.spare + 1 }
    {
        let bytes = self.seen(h, span, kind);
        let bus = self.bring(h, span, kind);
        harts::give(&mut self.harts, h, bytes);
        Issued::Loaded { bytes, bus }
    }

    /// Appends the entry of an operation that is no load to hart h's queue, where it has an entry.
    fn put(&mut self, h: HartNo, op: HartOp)
        requires hart { h.0 < length self.old.machine.harts }
        requires there { OpIsThere self.old.machine h.0 op }
        requires can { IsTrue (may_issue self.old.machine h.0 op) }
        requires no_load { issue_next self.old.machine h.0 op ≡ with_hart self.old.machine h.0 (issued (hart_of self.old.machine h.0) op) }
        ensures state { self.new.machine ≡ issue_next self.old.machine h.0 op }
        ensures spare { self.old.spare ≤ self.new.spare }
    {
        harts::put(&mut self.harts, h, op);
    }

    /// Issues a fence of hart h, which leaves a marker in the queue or nothing.
    #[tactic(auto, unfolding(nc_rules::specs::Calls::issue_next))]
    fn fence(&mut self, h: HartNo, pred: u8, succ: u8) -> Issued
        requires hart { h.0 < length self.old.machine.harts }
        requires can { IsTrue (may_issue self.old.machine h.0 (ops.Fence pred succ)) }
        ensures state { self.new.machine ≡ issue_next self.old.machine h.0 (ops.Fence pred succ) }
        ensures answer { result ≡ issue_answer self.old.machine h.0 (ops.Fence pred succ) }
        ensures spare { self.old.spare ≤ self.new.spare }
    {
        let before = self.queued(h);
        self.put(h, HartOp::Fence { pred, succ });
        if self.queued(h) > before {
            Issued::Queued
        } else {
            Issued::Passed
        }
    }

    /// Removes entry i from hart h's queue and returns it, where it may drain. What the entry names exists.
    fn leave(&mut self, h: HartNo, i: u8) -> Option<Entry>
        requires hart { h.0 < length self.old.machine.harts }
        ensures entry { result ≡ leaving self.old.machine h.0 i }
        ensures none { IfNone result (self.new ≡ self.old) }
        ensures some { IfSome result (λ _. self.new.machine ≡ with_hart self.old.machine h.0 (without_entry (hart_of self.old.machine h.0) i)) }
        ensures fits { IfSome result (Fits self.new.machine.size) }
        ensures there { IfSome result (EntryIsThere self.new.machine) }
        ensures harts { length self.new.machine.harts ≡ length self.old.machine.harts }
        ensures spare { self.new.spare ≡ self.old.spare }
    {
        harts::leave(&mut self.harts, h, i)
    }

    /// Performs an entry of hart h's queue, and returns the bus transfers.
    #[tactic(auto, unfolding(nc_rules::specs::Calls::performed))]
    fn perform(&mut self, h: HartNo, e: &Entry) -> BusList
        requires hart { h.0 < length self.old.machine.harts }
        requires there { EntryIsThere self.old.machine e.now }
        requires fits { Fits self.old.machine.size e.now }
        requires spare { 1 ≤ self.old.spare }
        ensures state { self.new.machine ≡ performed self.old.machine h.0 e.now }
        ensures bus { result ≡ drain_transfers self.old.machine h.0 e.now }
        ensures spare { self.old.spare ≤ self.new.spare + 1 }
    {
        match e {
            Entry::Store { span, bytes, kind } => self.store(h, *span, bytes, *kind),
            Entry::Cbo { block, op } => self.operate(h, *op, *block),
            Entry::Reg {
                chan,
                off,
                width,
                value,
            } => {
                self.store_register(h, *chan, *off, *width, *value);
                BusList::new()
            }
            Entry::Mail { buf, to } => {
                self.post(*buf, *to);
                BusList::new()
            }
            Entry::Lend { .. } | Entry::Mark { .. } => BusList::new(),
        }
    }

    /// Performs a store: one of main memory goes to the caches, one of another type to memory.
    #[tactic(auto, unfolding(nc_rules::specs::Calls::performed))]
    fn store(&mut self, h: HartNo, span: Span, bytes: &Bytes, kind: MemType) -> BusList
        requires hart { h.0 < length self.old.machine.harts }
        requires there { span.at + span.len ≤ length self.old.machine.cache.ram }
        requires fits { StoreFits self.old.machine.size span bytes.now }
        requires spare { 1 ≤ self.old.spare }
        ensures state { self.new.machine ≡ performed self.old.machine h.0 (entries.Store span bytes.now kind) }
        ensures bus { result ≡ store_transfers self.old.machine h.0 (block_at span.at self.old.machine.size) kind }
        ensures spare { self.old.spare ≤ self.new.spare + 1 }
    {
        match kind {
            MemType::Pma => self.domain.store(&mut self.ram, h, span, bytes.as_slice()),
            MemType::Nc | MemType::Io => {
                self.ram.write(span, bytes.as_slice());
                BusList::new()
            }
        }
    }

    /// Performs a cache operation by its effect (RISC-V CMO 1.0).
    #[tactic(auto, unfolding(nc_rules::specs::Calls::performed))]
    fn operate(&mut self, h: HartNo, op: CboOp, block: Block) -> BusList
        requires hart { h.0 < length self.old.machine.harts }
        requires there { IsBlockIn self.old.machine.size (length self.old.machine.cache.ram) block.0 }
        requires spare { 1 ≤ self.old.spare }
        ensures state { self.new.machine ≡ performed self.old.machine h.0 (entries.Cbo block op) }
        ensures bus { result ≡ operation_transfers self.old.machine h.0 op block.0 }
        ensures spare { self.old.spare ≤ self.new.spare + 1 }
    {
        match op {
            CboOp::Clean => self.domain.clean(&mut self.ram, block),
            CboOp::Flush => self.domain.flush(&mut self.ram, block),
            CboOp::Inval => self.domain.inval(block),
            CboOp::Zero => self.domain.zero(&mut self.ram, h, block),
        }
    }

    /// Performs a store of hart h to a register of a channel. One that sets the claim bit has the channel granted to h.
    #[tactic(auto, unfolding(nc_rules::specs::Calls::performed))]
    fn store_register(&mut self, h: HartNo, chan: ChanNo, off: u16, width: u8, value: u64)
        requires hart { h.0 < length self.old.machine.harts }
        requires there { IsRegister chan.0 off width }
        ensures state { self.new.machine ≡ performed self.old.machine h.0 (entries.Reg chan off width value) }
        ensures spare { self.old.spare ≤ self.new.spare }
    {
        let grantees = &mut self.grantees;
        engine::store(&mut self.channels, grantees, h, chan, off, width, value);
    }

    /// Puts a message about a buffer into its box.
    fn post(&mut self, buf: u8, to: HartNo)
        requires { IsMessage (length self.old.machine.boxes) (length self.old.machine.harts) buf to.0 }
        ensures state { self.new.machine ≡ with_box self.old.machine buf (Some to) }
        ensures spare { self.old.spare ≤ self.new.spare }
    {
        self.mail.post(buf, to);
    }
}
