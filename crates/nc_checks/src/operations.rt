//! All operations: the steps of each by their index, and the tests and the turn of a start step.

ghost use Rattle.std.specs.Prelude.{true, false, ◌≡◌, ◌+◌, ◌≤◌, length, All, IfOk};
ghost use Rattle.nc_rules.specs.Operations as rules;
ghost use Rattle.nc_rules.specs.Lots.{lot_id, lot_waits};
ghost use Rattle.nc_rules.specs.declared.steps.Turn.TheVariants as turns;
ghost use Rattle.nc_checks.specs.Due.{step_due, ok_as, makes_none};
ghost use Rattle.nc_checks.specs.Safe.{IsSafe, IsShort};

use crate::areas::{free_opening, give_opening, take_opening};
use crate::cache_ops::fence_step;
use crate::mappings::{needs_lot, to_cpu_opening, to_dev_opening, unmap_opening};
use crate::refusals::owned;
use crate::scatter_lists::{unmap_sg_opening, unmap_sg_tests};
use crate::setup::DriverConfig;
use crate::steps::{control_step, plain, single};
use nc_coherent::PagePool;
use nc_num::{Label, NoMemory};
use nc_own::Book;
use nc_rules::{Act, Kind, Lot, LotId, Refusal, Step, Turn};
use nc_scen::{Op, SgEntry};
use std::alloc::Global;

/// Returns whether an operation has a start step.
pub fn has_start(op: &Op) -> bool
    ensures { result ≡ rules.has_start op.now }
{
    match op {
        Op::Map { .. }
        | Op::Unmap(_)
        | Op::ToCpu(_)
        | Op::ToDev(_)
        | Op::MapSg { .. }
        | Op::UnmapSg { .. }
        | Op::Calloc { .. }
        | Op::Cgive(_)
        | Op::Ctake(_)
        | Op::Cfree(_)
        | Op::Hand { .. }
        | Op::Copy { .. } => true,
        Op::Ld { .. }
        | Op::St { .. }
        | Op::Cbo { .. }
        | Op::Fence { .. }
        | Op::Take(_)
        | Op::Claim(_)
        | Op::Free(_)
        | Op::Regs { .. }
        | Op::Run(_)
        | Op::Poll(_)
        | Op::Regr { .. }
        | Op::Regw { .. } => false,
    }
}

/// The lots of an operation that makes none, once its tests have passed.
fn no_lots(alloc: Global, tested: Result<(), Refusal>) -> Result<Vec<Lot>, Refusal>
    ensures { ok_as result (λ v. v.items) ≡ makes_none tested }
{
    tested?;
    Ok(Vec::new(alloc))
}

/// The turn with which a new lot of this label is being lent.
fn lend(label: Label) -> Turn
    ensures { result ≡ turns.Lend (lot_id label 0) }
{
    Turn::Lend(LotId { label, first: 0 })
}

impl DriverConfig {
    /// Returns the step that is due once `n` steps of operation `k` of the script are done. The hart has these lots,
    /// and each of their entries that bounces has its slot. None where `k` is out of range, and where operation `k` has
    /// no step `n`, counted from 0; an operation with a start step has none.
    ///
    /// # Errors
    ///
    /// The refusal of the step, where it is refused.
    pub fn step_due(&self, lots: &[Lot], k: u32, n: u32) -> Result<Option<Step>, Refusal>
        requires safe { IsSafe self.now }
        requires placed { All (λ lot. lot_waits lot ≡ false) lots.now }
        ensures { result ≡ step_due self.now lots.now k n }
    {
        match self.op(k) {
            Some(op) => self.step_at(lots, op, n),
            None => Ok(None),
        }
    }

    /// Returns step n, counted from 0, of an operation without a start step: None where it has no such step, or its
    /// refusal.
    #[tactic(auto, unfolding(nc_rules::specs::Operations::step_at, nc_rules::specs::Operations::meaning, nc_rules::specs::Accesses::load, nc_rules::specs::Accesses::store, nc_rules::specs::CacheOps::cache_operation, nc_rules::specs::CacheOps::fence, nc_rules::specs::Mappings::map_single, nc_rules::specs::Mappings::unmap_single, nc_rules::specs::Mappings::sync_for_cpu, nc_rules::specs::Mappings::sync_for_device, nc_rules::specs::ScatterLists::map_sg, nc_rules::specs::ScatterLists::unmap_sg, nc_rules::specs::Areas::calloc, nc_rules::specs::Areas::give_area, nc_rules::specs::Areas::take_area, nc_rules::specs::Areas::free_area, nc_rules::specs::Handing::hand, nc_rules::specs::Handing::take, nc_rules::specs::Channels::claim, nc_rules::specs::Channels::free, nc_rules::specs::Channels::set_up, nc_rules::specs::Channels::run, nc_rules::specs::Channels::poll, nc_rules::specs::Channels::read_register, nc_rules::specs::Channels::write_register, nc_rules::specs::Copies::copy))]
    fn step_at(&self, lots: &[Lot], op: &Op, n: u32) -> Result<Option<Step>, Refusal>
        requires safe { IsSafe self.now }
        requires short { IsShort op.now }
        requires placed { All (λ lot. lot_waits lot ≡ false) lots.now }
        ensures { result ≡ rules.step_at self.now lots.now op.now n }
    {
        match op {
            Op::Ld { spot, off, len } => self.load(lots, *spot, *off, *len, n),
            Op::St { spot, off, bytes } => self.store(lots, *spot, *off, bytes.as_slice(), n),
            Op::Cbo { op, buf, off } => self.cbo(*op, *buf, *off, n),
            Op::Fence { pred, succ } => Ok(single(fence_step(*pred, *succ), n)),
            Op::Take(buf) => Ok(single(self.take_step(*buf), n)),
            Op::Claim(chan) => Ok(single(plain(Act::Claim(*chan)), n)),
            Op::Free(chan) => Ok(single(control_step(*chan, 0), n)),
            Op::Regs {
                chan,
                src,
                dst,
                len,
                cfg,
            } => self.set_up(lots, *chan, *src, *dst, *len, *cfg, n),
            Op::Run(chan) => Ok(single(control_step(*chan, 3), n)),
            Op::Poll(chan) => Ok(single(plain(Act::Poll(*chan)), n)),
            Op::Regr { chan, off, width } => self.read_register(*chan, *off, *width, n),
            Op::Regw {
                chan,
                off,
                width,
                value,
            } => self.write_register(*chan, *off, *width, *value, n),
            Op::Map { .. }
            | Op::Unmap(_)
            | Op::ToCpu(_)
            | Op::ToDev(_)
            | Op::MapSg { .. }
            | Op::UnmapSg { .. }
            | Op::Calloc { .. }
            | Op::Cgive(_)
            | Op::Ctake(_)
            | Op::Cfree(_)
            | Op::Hand { .. }
            | Op::Copy { .. } => Ok(None),
        }
    }

    /// Makes the tests of a start step, by the lots that the hart has and the current owners and pages. Returns the
    /// lots that the operation makes, or its refusal. An operation without a start step makes no lots.
    ///
    /// # Errors
    ///
    /// `NoMemory` where memory runs out.
    #[tactic(auto, unfolding(nc_rules::specs::Operations::begin, nc_rules::specs::Operations::meaning, nc_rules::specs::Accesses::load, nc_rules::specs::Accesses::store, nc_rules::specs::CacheOps::cache_operation, nc_rules::specs::CacheOps::fence, nc_rules::specs::Mappings::map_single, nc_rules::specs::Mappings::unmap_single, nc_rules::specs::Mappings::sync_for_cpu, nc_rules::specs::Mappings::sync_for_device, nc_rules::specs::ScatterLists::map_sg, nc_rules::specs::ScatterLists::unmap_sg, nc_rules::specs::Areas::calloc, nc_rules::specs::Areas::give_area, nc_rules::specs::Areas::take_area, nc_rules::specs::Areas::free_area, nc_rules::specs::Handing::hand, nc_rules::specs::Handing::take, nc_rules::specs::Channels::claim, nc_rules::specs::Channels::free, nc_rules::specs::Channels::set_up, nc_rules::specs::Channels::run, nc_rules::specs::Channels::poll, nc_rules::specs::Channels::read_register, nc_rules::specs::Channels::write_register, nc_rules::specs::Copies::copy))]
    pub fn begin(
        &self,
        alloc: Global,
        lots: &[Lot],
        book: &Book,
        pages: &PagePool,
        op: &Op,
    ) -> Result<Result<Vec<Lot>, Refusal>, NoMemory>
        requires safe { IsSafe self.now }
        requires short { IsShort op.now }
        requires book { All (λ b. b.at + b.len ≤ length book.now.owners) self.now.buffers }
        requires entries { All (λ lot. All (λ e. e.span.at + e.span.len ≤ length book.now.owners) lot.list.entries) lots.now }
        ensures { IfOk result (λ r. ok_as r (λ v. v.items) ≡ rules.begin self.now lots.now book.now.owners pages.now op.now) }
    {
        match op {
            Op::Map {
                label,
                buf,
                off,
                len,
                dir,
                chan,
            } => {
                let entry = SgEntry {
                    buf: *buf,
                    off: *off,
                    len: *len,
                };
                self.map_begin(alloc, lots, book, *label, entry, *dir, *chan)
            }
            Op::Unmap(label) | Op::ToCpu(label) | Op::ToDev(label) => {
                Ok(no_lots(alloc, needs_lot(lots, *label, Kind::Single)))
            }
            Op::MapSg {
                label,
                entries,
                dir,
                chan,
            } => self.map_sg_begin(alloc, lots, book, *label, entries.as_slice(), *dir, *chan),
            Op::UnmapSg { label, count } => {
                Ok(no_lots(alloc, unmap_sg_tests(lots, *label, *count)))
            }
            Op::Calloc {
                label,
                pages: count,
                chan,
            } => self.calloc_begin(alloc, lots, *label, *count, *chan, pages),
            Op::Cgive(label) | Op::Ctake(label) => {
                Ok(no_lots(alloc, needs_lot(lots, *label, Kind::Area)))
            }
            Op::Cfree(label) => Ok(no_lots(alloc, self.cfree_tests(lots, book, *label))),
            Op::Hand { buf, .. } => {
                Ok(no_lots(alloc, owned(self.me(), book, self.buffer(*buf))))
            }
            Op::Copy {
                chan,
                src,
                src_off,
                dst,
                dst_off,
                len,
                ..
            } => {
                let read = SgEntry {
                    buf: *src,
                    off: *src_off,
                    len: *len,
                };
                let written = SgEntry {
                    buf: *dst,
                    off: *dst_off,
                    len: *len,
                };
                self.copy_begin(alloc, book, read, written, *chan)
            }
            Op::Ld { .. }
            | Op::St { .. }
            | Op::Cbo { .. }
            | Op::Fence { .. }
            | Op::Take(_)
            | Op::Claim(_)
            | Op::Free(_)
            | Op::Regs { .. }
            | Op::Run(_)
            | Op::Poll(_)
            | Op::Regr { .. }
            | Op::Regw { .. } => Ok(no_lots(alloc, Ok(()))),
        }
    }

    /// Returns the opening turn of an operation: it comes with the last slot that the operation waits for, or with its
    /// start where it waits for none. An operation without a start step has the turn Stay.
    #[tactic(auto, unfolding(nc_rules::specs::Operations::opening, nc_rules::specs::Operations::meaning, nc_rules::specs::Accesses::load, nc_rules::specs::Accesses::store, nc_rules::specs::CacheOps::cache_operation, nc_rules::specs::CacheOps::fence, nc_rules::specs::Mappings::map_single, nc_rules::specs::Mappings::unmap_single, nc_rules::specs::Mappings::sync_for_cpu, nc_rules::specs::Mappings::sync_for_device, nc_rules::specs::ScatterLists::map_sg, nc_rules::specs::ScatterLists::unmap_sg, nc_rules::specs::Areas::calloc, nc_rules::specs::Areas::give_area, nc_rules::specs::Areas::take_area, nc_rules::specs::Areas::free_area, nc_rules::specs::Handing::hand, nc_rules::specs::Handing::take, nc_rules::specs::Channels::claim, nc_rules::specs::Channels::free, nc_rules::specs::Channels::set_up, nc_rules::specs::Channels::run, nc_rules::specs::Channels::poll, nc_rules::specs::Channels::read_register, nc_rules::specs::Channels::write_register, nc_rules::specs::Copies::copy))]
    pub fn opening(&self, lots: &[Lot], op: &Op) -> Turn
        ensures { result ≡ rules.opening self.now lots.now op.now }
    {
        match op {
            Op::Map { label, .. } | Op::MapSg { label, .. } | Op::Calloc { label, .. } => {
                lend(*label)
            }
            Op::Unmap(label) => unmap_opening(lots, *label),
            Op::ToCpu(label) => to_cpu_opening(lots, *label),
            Op::ToDev(label) => to_dev_opening(lots, *label),
            Op::UnmapSg { label, .. } => unmap_sg_opening(lots, *label),
            Op::Cgive(label) => give_opening(lots, *label),
            Op::Ctake(label) => take_opening(lots, *label),
            Op::Cfree(label) => free_opening(lots, *label),
            Op::Hand { buf, to } => self.pass(*buf, *to),
            Op::Ld { .. }
            | Op::St { .. }
            | Op::Cbo { .. }
            | Op::Fence { .. }
            | Op::Take(_)
            | Op::Claim(_)
            | Op::Free(_)
            | Op::Regs { .. }
            | Op::Run(_)
            | Op::Poll(_)
            | Op::Regr { .. }
            | Op::Regw { .. }
            | Op::Copy { .. } => Turn::Stay,
        }
    }
}
