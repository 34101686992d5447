//! The cache domain: the coherent caches of all harts.

ghost use Rattle.std.specs.Prelude.{◌≡◌, ◌+◌, ◌*◌, ◌/◌, ◌%◌, ◌≤◌, ◌<◌, ℕ, List, Option, Some, None, IfOk, IfSome, IfNone, OnOk, OnErr, length};
ghost use Rattle.std.specs.FinMap as map;
ghost use Rattle.nc_num.specs.Sizes.{IsBlockSize};
ghost use Rattle.nc_cache.specs.Cache.{held_by, with_line, load, own, store, zero_block, clean, flush, inval, evict, bytes_at};
ghost use Rattle.nc_cache.specs.Bus.{load_bus, fill_bus, own_bus, clean_bus, flush_bus, inval_bus, evict_bus};
ghost use Rattle.nc_cache.specs.Facts.{IsLine, IsLineOf};
ghost use Rattle.nc_cache.specs.Directory.{HasBytes, IsDirectory};
ghost use Rattle.nc_cache.specs.State.{IsDomain, Stays};

use crate::bus::BusList;
use crate::directory::{Directory, Row};
use crate::line::{BusRec, Held, Line, Origin, only};
use crate::transfers::{block_span, is_dirty_by, part_of, patched, to_own, write_back, zeros};
use nc_mem::Ram;
use nc_num::{Block, Bytes, HartNo, NoMemory, Span};
use std::alloc::Global;
use std::marker::Model;

/// The caches of one to four harts. Contracts see the block size in bytes, the number of harts, the blocks that some
/// hart holds, and `spare`, the number of further blocks that there is room for.
#[derive(Drop)]
pub struct Domain {
    directory: Directory,
    harts: u8,
    block_size: u32,
}

impl Model for Domain {
    ghost use Rattle.nc_cache.specs.State.{DomainState, state_code};
    ghost use Rattle.nc_cache.specs.contracts.line.Line as line;

    ghost Value = { DomainState };

    ghost coded = { state_code line.the_row.coded };

    ghost use Rattle.nc_cache.specs.State.{IsDomain};

    ghost view = { λ d. record { size = d.block_size; harts = d.harts; lines = d.directory.lines; spare = d.directory.spare } };

    ghost invariant = { λ d. IsDomain (record { size = d.block_size; harts = d.harts; lines = d.directory.lines; spare = d.directory.spare }) };
}

impl Domain {
    /// Makes the caches of 1 to 4 harts, all empty, with blocks of 32, 64 or 128 bytes.
    ///
    /// # Errors
    ///
    /// `NoMemory` where memory runs out.
    pub fn new(alloc: Global, harts: u8, block_size: u32) -> Result<Domain, NoMemory>
        requires some { 1 ≤ harts }
        requires few { harts ≤ 4 }
        requires size { IsBlockSize block_size }
        ensures size { IfOk result (λ d. d.size ≡ block_size) }
        ensures harts { IfOk result (λ d. d.harts ≡ harts) }
        ensures lines { IfOk result (λ d. d.lines ≡ map.empty) }
    {
        Ok(Domain {
            directory: Directory::new(alloc),
            harts,
            block_size,
        })
    }

    /// Makes room for one more block, so that the next call that gives a hart a copy takes no memory.
    ///
    /// # Errors
    ///
    /// `NoMemory` where memory runs out; then the domain is unchanged.
    pub fn reserve(&mut self) -> Result<(), NoMemory>
        ensures ok { OnOk result (1 ≤ self.new.spare) }
        ensures size { self.new.size ≡ self.old.size }
        ensures harts { self.new.harts ≡ self.old.harts }
        ensures lines { self.new.lines ≡ self.old.lines }
        ensures kept { self.old.spare ≤ self.new.spare }
        ensures err { OnErr result (self.new ≡ self.old) }
    {
        self.directory.reserve()
    }

    /// Returns the line of a block, or None where no hart holds it.
    #[tactic(auto, using(crate::proofs::Holders::line_in_four))]
    fn line(&self, b: Block) -> Option<Line>
        ensures line { result ≡ map.get self.now.lines b.0 }
        ensures domain { IsDomain self.now }
        ensures whole { IsLineOf self.now.size self.now.harts result }
        ensures in_four { IsLineOf self.now.size 4 result }
    {
        self.directory.line(b)
    }

    /// Returns the bytes of a block's line, which are the whole block.
    fn line_bytes(&self, b: Block) -> Option<&Bytes>
        ensures none { IfNone result (map.get self.now.lines b.0 ≡ None) }
        ensures some { IfSome result (λ bytes. HasBytes (map.get self.now.lines b.0) bytes.now) }
        ensures whole { IfSome result (λ bytes. length bytes.now ≡ self.now.size) }
        ensures domain { IsDomain self.now }
    {
        self.directory.bytes(b)
    }

    /// Sets the line of a block.
    #[tactic(auto, using(crate::proofs::Holders::held_in_four))]
    fn put(&mut self, b: Block, line: &Line)
        requires spare { 1 ≤ self.old.spare }
        requires whole { IsLine self.old.size self.old.harts line.now }
        ensures lines { self.new.lines ≡ with_line self.old.lines b.0 (Some line.now) }
        ensures size { self.new.size ≡ self.old.size }
        ensures harts { self.new.harts ≡ self.old.harts }
        ensures spare { self.old.spare ≤ self.new.spare + 1 }
    {
        self.directory.put(b, line);
    }

    /// Replaces or removes the line of a block; each holder of the new line is a holder of the old one.
    #[tactic(auto, using(crate::proofs::Holders::held_in_four))]
    fn keep(&mut self, b: Block, line: &Option<Line>)
        requires stays { Stays (map.get self.old.lines b.0) line.now }
        requires whole { IsLineOf self.old.size self.old.harts line.now }
        ensures lines { self.new.lines ≡ with_line self.old.lines b.0 line.now }
        ensures size { self.new.size ≡ self.old.size }
        ensures harts { self.new.harts ≡ self.old.harts }
        ensures spare { self.old.spare ≤ self.new.spare }
    {
        match line {
            None => self.directory.remove(b),
            Some(line) => self.directory.change(b, line),
        }
    }

    /// Returns the directory: a row for each block that some hart holds, ascending by block.
    pub fn rows(&self) -> &[Row]
        ensures { IsDirectory result.now self.now.lines }
    {
        self.directory.rows()
    }

    /// Returns the block size in bytes.
    fn size(&self) -> u32
        ensures size { result ≡ self.now.size }
        ensures domain { IsDomain self.now }
    {
        self.block_size
    }

    /// Returns whether hart `h`, which exists, holds a copy of block `b`.
    pub fn holds(&self, h: HartNo, b: Block) -> bool
        requires { h.0 < self.now.harts }
        ensures value { result ≡ held_by (map.get self.now.lines b.0) h.0 }
        ensures domain { IsDomain self.now }
    {
        self.directory.holds(h, b)
    }

    /// Returns the bytes of a span that lies in one block of memory: the domain's where a hart holds the block, else
    /// memory's.
    pub fn bytes(&self, ram: &Ram, span: Span) -> Bytes
        requires one_block { span.at % self.now.size + span.len ≤ self.now.size }
        requires within { span.at + span.len ≤ length ram.now }
        ensures value { result ≡ bytes_at self.now.size (record { ram = ram.now; lines = self.now.lines }) span.at span.len }
        ensures len { length result ≡ span.len }
    {
        let size = self.size();
        match self.line_bytes(Block(span.at / size)) {
            None => ram.read(span),
            Some(bytes) => part_of(bytes, span.at % size, span.len),
        }
    }

    /// Performs a load of block `b` by hart `h` and returns its transfers. Where `h` does not hold the block, a dirty
    /// holder writes it back, and `h` gets a copy from the lowest numbered holder, or from memory where there is none.
    #[tactic(auto, unfolding(crate::specs::Cache::load))]
    pub fn load(&mut self, ram: &mut Ram, h: HartNo, b: Block) -> BusList
        requires spare { 1 ≤ self.old.spare }
        requires hart { h.0 < self.old.harts }
        requires block { self.old.size * b.0 + self.old.size ≤ length ram.old }
        ensures state { record { ram = ram.new; lines = self.new.lines } ≡ load self.old.size (record { ram = ram.old; lines = self.old.lines }) h.0 b.0 }
        ensures bus { result ≡ load_bus self.old.size ram.old h.0 b.0 (map.get self.old.lines b.0) }
        ensures ram { length ram.new ≡ length ram.old }
        ensures size { self.new.size ≡ self.old.size }
        ensures harts { self.new.harts ≡ self.old.harts }
        ensures spare { self.old.spare ≤ self.new.spare + 1 }
    {
        if self.holds(h, b) {
            return BusList::new();
        }
        let mut bus = BusList::new();
        let size = self.size();
        match self.line(b) {
            None => {
                let bytes = ram.read(block_span(ram, size, b));
                let held = Held::Shared(only(h));
                self.put(b, &Line { bytes, held });
                let from = Origin::Mem(bytes);
                bus.push(BusRec::Fill {
                    hart: h,
                    block: b,
                    from,
                });
            }
            Some(line) => {
                write_back(ram, size, b, &line, &mut bus);
                let mut by = line.held.holders();
                by[h.0 as usize] = true;
                let bytes = line.bytes;
                let held = Held::Shared(by);
                self.put(b, &Line { bytes, held });
                let from = Origin::Hart(line.held.giver());
                bus.push(BusRec::Fill {
                    hart: h,
                    block: b,
                    from,
                });
            }
        }
        bus
    }

    /// Fetches block `b` for hart `h` as a load does and returns its transfers, or None where `h` holds the block; then
    /// nothing changes.
    #[tactic(auto, using(crate::proofs::Places::load_held))]
    pub fn fill(&mut self, ram: &mut Ram, h: HartNo, b: Block) -> Option<BusList>
        requires spare { 1 ≤ self.old.spare }
        requires hart { h.0 < self.old.harts }
        requires block { self.old.size * b.0 + self.old.size ≤ length ram.old }
        ensures state { record { ram = ram.new; lines = self.new.lines } ≡ load self.old.size (record { ram = ram.old; lines = self.old.lines }) h.0 b.0 }
        ensures bus { result ≡ fill_bus self.old.size ram.old h.0 b.0 (map.get self.old.lines b.0) }
        ensures ram { length ram.new ≡ length ram.old }
        ensures size { self.new.size ≡ self.old.size }
        ensures harts { self.new.harts ≡ self.old.harts }
        ensures spare { self.old.spare ≤ self.new.spare + 1 }
    {
        if self.holds(h, b) {
            return None;
        }
        Some(self.load(ram, h, b))
    }

    /// Makes hart `h` the one holder of block `b`, dirty, and returns the transfers. Where `h` has it dirty, nothing
    /// happens. Else all others drop their copies, and `h` gets the bytes from its own copy, from the lowest numbered
    /// holder with no write to memory, or from memory.
    #[tactic(auto, using(crate::proofs::Domains::call_rules), unfolding(crate::specs::Cache::own))]
    pub fn own(&mut self, ram: &mut Ram, h: HartNo, b: Block) -> BusList
        requires spare { 1 ≤ self.old.spare }
        requires hart { h.0 < self.old.harts }
        requires block { self.old.size * b.0 + self.old.size ≤ length ram.old }
        ensures state { record { ram = ram.new; lines = self.new.lines } ≡ own self.old.size (record { ram = ram.old; lines = self.old.lines }) h.0 b.0 }
        ensures bus { result ≡ own_bus self.old.size ram.old h.0 b.0 (map.get self.old.lines b.0) }
        ensures ram { length ram.new ≡ length ram.old }
        ensures size { self.new.size ≡ self.old.size }
        ensures harts { self.new.harts ≡ self.old.harts }
        ensures spare { self.old.spare ≤ self.new.spare + 1 }
    {
        let line = self.line(b);
        if is_dirty_by(&line, h) {
            return BusList::new();
        }
        let (bytes, bus) = to_own(ram, self.size(), h, b, &line);
        let held = Held::Dirty(h);
        self.put(b, &Line { bytes, held });
        bus
    }

    /// Stores bytes of hart `h` to a span that lies in one block of memory and has their length, and returns the
    /// transfers. First `h` comes to own the block, as by `own`; then the bytes are changed.
    #[tactic(auto, using(crate::proofs::Domains::call_rules), unfolding(crate::specs::Cache::store))]
    pub fn store(&mut self, ram: &mut Ram, h: HartNo, span: Span, bytes: &[u8]) -> BusList
        requires spare { 1 ≤ self.old.spare }
        requires hart { h.0 < self.old.harts }
        requires one_block { span.at % self.old.size + span.len ≤ self.old.size }
        requires block { self.old.size * (span.at / self.old.size) + self.old.size ≤ length ram.old }
        requires whole { length bytes.now ≡ span.len }
        ensures state { record { ram = ram.new; lines = self.new.lines } ≡ store self.old.size (record { ram = ram.old; lines = self.old.lines }) h.0 span.at bytes.now }
        ensures bus { result ≡ own_bus self.old.size ram.old h.0 (span.at / self.old.size) (map.get self.old.lines (span.at / self.old.size)) }
        ensures ram { length ram.new ≡ length ram.old }
        ensures size { self.new.size ≡ self.old.size }
        ensures harts { self.new.harts ≡ self.old.harts }
        ensures spare { self.old.spare ≤ self.new.spare + 1 }
    {
        let size = self.size();
        let b = Block(span.at / size);
        let (old, bus) = to_own(ram, size, h, b, &self.line(b));
        let changed = patched(&old, span.at % size, bytes);
        let held = Held::Dirty(h);
        self.put(
            b,
            &Line {
                bytes: changed,
                held,
            },
        );
        bus
    }

    /// Makes hart `h` the owner of block `b`, as by `own`, sets the whole block to zero, and returns the transfers
    /// (RISC-V CMO 1.0, `cbo.zero`).
    #[tactic(auto, using(crate::proofs::Domains::call_rules), unfolding(crate::specs::Cache::zero_block))]
    pub fn zero(&mut self, ram: &mut Ram, h: HartNo, b: Block) -> BusList
        requires spare { 1 ≤ self.old.spare }
        requires hart { h.0 < self.old.harts }
        requires block { self.old.size * b.0 + self.old.size ≤ length ram.old }
        ensures state { record { ram = ram.new; lines = self.new.lines } ≡ zero_block self.old.size (record { ram = ram.old; lines = self.old.lines }) h.0 b.0 }
        ensures bus { result ≡ own_bus self.old.size ram.old h.0 b.0 (map.get self.old.lines b.0) }
        ensures ram { length ram.new ≡ length ram.old }
        ensures size { self.new.size ≡ self.old.size }
        ensures harts { self.new.harts ≡ self.old.harts }
        ensures spare { self.old.spare ≤ self.new.spare + 1 }
    {
        let size = self.size();
        let (_, bus) = to_own(ram, size, h, b, &self.line(b));
        let bytes = zeros(size);
        let held = Held::Dirty(h);
        self.put(b, &Line { bytes, held });
        bus
    }

    /// Removes the copy of block `b` that hart `h` holds, writes it back where it is dirty, and returns the transfers.
    /// The result is None where `h` has no copy; then nothing changes.
    #[tactic(auto, using(crate::proofs::Domains::call_rules), unfolding(crate::specs::Cache::evict))]
    pub fn evict(&mut self, ram: &mut Ram, h: HartNo, b: Block) -> Option<BusList>
        requires hart { h.0 < self.old.harts }
        requires block { self.old.size * b.0 + self.old.size ≤ length ram.old }
        ensures state { record { ram = ram.new; lines = self.new.lines } ≡ evict self.old.size (record { ram = ram.old; lines = self.old.lines }) h.0 b.0 }
        ensures bus { result ≡ evict_bus h.0 b.0 (map.get self.old.lines b.0) }
        ensures ram { length ram.new ≡ length ram.old }
        ensures size { self.new.size ≡ self.old.size }
        ensures harts { self.new.harts ≡ self.old.harts }
        ensures spare { self.old.spare ≤ self.new.spare }
    {
        let copy = self.line(b)?;
        if !copy.held.holds(h) {
            return None;
        }
        let mut bus = BusList::new();
        write_back(ram, self.size(), b, &copy, &mut bus);
        self.keep(b, &copy.without(h));
        bus.push(BusRec::Drop { hart: h, block: b });
        Some(bus)
    }

    /// Cleans block `b` and returns the transfers: a dirty holder writes it back and becomes clean (RISC-V CMO 1.0,
    /// `cbo.clean`).
    #[tactic(auto, using(crate::proofs::Domains::call_rules), unfolding(crate::specs::Cache::clean))]
    pub fn clean(&mut self, ram: &mut Ram, b: Block) -> BusList
        requires block { self.old.size * b.0 + self.old.size ≤ length ram.old }
        ensures state { record { ram = ram.new; lines = self.new.lines } ≡ clean self.old.size (record { ram = ram.old; lines = self.old.lines }) b.0 }
        ensures bus { result ≡ clean_bus b.0 (map.get self.old.lines b.0) }
        ensures ram { length ram.new ≡ length ram.old }
        ensures size { self.new.size ≡ self.old.size }
        ensures harts { self.new.harts ≡ self.old.harts }
        ensures spare { self.old.spare ≤ self.new.spare }
    {
        let mut bus = BusList::new();
        let Some(line) = self.line(b) else {
            return bus;
        };
        let Held::Dirty(g) = line.held else {
            return bus;
        };
        write_back(ram, self.size(), b, &line, &mut bus);
        let bytes = line.bytes;
        let held = Held::Shared(only(g));
        self.keep(b, &Some(Line { bytes, held }));
        bus
    }

    /// Flushes block `b` and returns the transfers: a dirty holder writes it back, and all copies are dropped (RISC-V
    /// CMO 1.0, `cbo.flush`).
    #[tactic(auto, using(crate::proofs::Domains::call_rules), unfolding(crate::specs::Cache::flush))]
    pub fn flush(&mut self, ram: &mut Ram, b: Block) -> BusList
        requires block { self.old.size * b.0 + self.old.size ≤ length ram.old }
        ensures state { record { ram = ram.new; lines = self.new.lines } ≡ flush self.old.size (record { ram = ram.old; lines = self.old.lines }) b.0 }
        ensures bus { result ≡ flush_bus b.0 (map.get self.old.lines b.0) }
        ensures ram { length ram.new ≡ length ram.old }
        ensures size { self.new.size ≡ self.old.size }
        ensures harts { self.new.harts ≡ self.old.harts }
        ensures spare { self.old.spare ≤ self.new.spare }
    {
        let mut bus = BusList::new();
        let Some(line) = self.line(b) else {
            return bus;
        };
        write_back(ram, self.size(), b, &line, &mut bus);
        self.keep(b, &None);
        bus.push_drops(b, &line.held.holders());
        bus
    }

    /// Invalidates block `b` and returns the transfers: all copies are dropped, and nothing is written (RISC-V CMO 1.0,
    /// `cbo.inval`).
    #[tactic(auto, using(crate::proofs::Domains::call_rules), unfolding(crate::specs::Cache::inval))]
    pub fn inval(&mut self, b: Block) -> BusList
        // For each content of memory beside it.
        ensures state { (ram : List ℕ) → record { ram = ram; lines = self.new.lines } ≡ inval (record { ram = ram; lines = self.old.lines }) b.0 }
        ensures bus { result ≡ inval_bus b.0 (map.get self.old.lines b.0) }
        ensures size { self.new.size ≡ self.old.size }
        ensures harts { self.new.harts ≡ self.old.harts }
        ensures spare { self.old.spare ≤ self.new.spare }
    {
        let mut bus = BusList::new();
        let Some(gone) = self.line(b) else {
            return bus;
        };
        self.keep(b, &None);
        bus.push_drops(b, &gone.held.holders());
        bus
    }
}
