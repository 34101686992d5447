//! The answers of all operations.

ghost use Rattle.std.specs.Prelude.{◌≡◌, ◌≤◌, List, false, All};
ghost use Rattle.nc_rules.specs.declared.lots.Lot.{Lot};
ghost use Rattle.nc_rules.specs.Lots.{DriverConfig, lot_waits};
ghost use Rattle.nc_rules.specs.Operations as rules;

use crate::areas::allocated_answer;
use crate::channels::{poll_answer, value_answer};
use crate::copies::copy_answer;
use crate::mappings::mapped_answer;
use crate::scatter_lists::segments_answer;
use nc_num::Label;
use nc_rules::{Answer, Lot, Refusal, Seen};
use nc_scen::Op;

/// Returns the answer of an operation that was not refused, by what its steps saw last, or None where it ends without
/// one. The lots are those that the hart has, and each of their entries that bounces has its slot. The bounce slots
/// start at the place `slots_at`, which is at most 1,048,576.
#[tactic(auto, unfolding(nc_rules::specs::Operations::good_answer, nc_rules::specs::Operations::meaning, nc_rules::specs::Accesses::load, nc_rules::specs::Accesses::store, nc_rules::specs::CacheOps::cache_operation, nc_rules::specs::CacheOps::fence, nc_rules::specs::Handing::hand, nc_rules::specs::Handing::take, nc_rules::specs::Channels::claim, nc_rules::specs::Channels::free, nc_rules::specs::Channels::set_up, nc_rules::specs::Channels::run, nc_rules::specs::Channels::poll, nc_rules::specs::Channels::read_register, nc_rules::specs::Channels::write_register, nc_rules::specs::Mappings::map_single, nc_rules::specs::Mappings::unmap_single, nc_rules::specs::Mappings::sync_for_cpu, nc_rules::specs::Mappings::sync_for_device, nc_rules::specs::ScatterLists::map_sg, nc_rules::specs::ScatterLists::unmap_sg, nc_rules::specs::Areas::calloc, nc_rules::specs::Areas::give_area, nc_rules::specs::Areas::take_area, nc_rules::specs::Areas::free_area, nc_rules::specs::Copies::copy))]
pub fn good_answer(slots_at: u32, lots: &[Lot], op: &Op, saw: Seen) -> Option<Answer>
    requires slots { slots_at ≤ 1048576 }
    requires placed { All (λ lot. lot_waits lot ≡ false) lots.now }
    ensures { (f : DriverConfig) → f.slots_at ≡ slots_at → result ≡ rules.good_answer f lots.now op.now saw }
{
    match op {
        Op::Map { label, .. } => mapped_answer(slots_at, lots, *label),
        Op::Unmap(_) => Some(Answer::Unmapped),
        Op::ToCpu(_) => Some(Answer::Cpu),
        Op::ToDev(_) => Some(Answer::Dev),
        Op::MapSg { label, .. } => segments_answer(slots_at, lots, *label),
        Op::UnmapSg { .. } => Some(Answer::Unmapped),
        Op::Calloc { label, .. } => allocated_answer(slots_at, lots, *label),
        Op::Cgive(_) => Some(Answer::Given),
        Op::Ctake(_) => Some(Answer::Taken),
        Op::Cfree(_) => Some(Answer::Freed),
        Op::Hand { .. } => Some(Answer::Handed),
        Op::Take(_) => Some(Answer::Took),
        Op::Claim(_) => Some(Answer::Claimed),
        Op::Free(_) => Some(Answer::Released),
        Op::Regs { .. } => Some(Answer::Set),
        Op::Run(_) => Some(Answer::Started),
        Op::Poll(_) => poll_answer(saw),
        Op::Regr { .. } => value_answer(saw),
        Op::Regw { .. } => Some(Answer::Wrote),
        Op::Copy { .. } => copy_answer(saw),
        Op::Ld { .. } | Op::St { .. } | Op::Cbo { .. } | Op::Fence { .. } => None,
    }
}

/// Returns the answer of an operation that was refused.
#[tactic(auto, unfolding(nc_rules::specs::Operations::bad_answer, nc_rules::specs::Operations::meaning, nc_rules::specs::Accesses::load, nc_rules::specs::Accesses::store, nc_rules::specs::CacheOps::cache_operation, nc_rules::specs::CacheOps::fence, nc_rules::specs::Handing::hand, nc_rules::specs::Handing::take, nc_rules::specs::Channels::claim, nc_rules::specs::Channels::free, nc_rules::specs::Channels::set_up, nc_rules::specs::Channels::run, nc_rules::specs::Channels::poll, nc_rules::specs::Channels::read_register, nc_rules::specs::Channels::write_register, nc_rules::specs::Mappings::map_single, nc_rules::specs::Mappings::unmap_single, nc_rules::specs::Mappings::sync_for_cpu, nc_rules::specs::Mappings::sync_for_device, nc_rules::specs::ScatterLists::map_sg, nc_rules::specs::ScatterLists::unmap_sg, nc_rules::specs::Areas::calloc, nc_rules::specs::Areas::give_area, nc_rules::specs::Areas::take_area, nc_rules::specs::Areas::free_area, nc_rules::specs::Copies::copy))]
pub fn bad_answer(op: &Op, refusal: Refusal) -> Answer
    ensures { (f : DriverConfig) (lots : List Lot) → result ≡ rules.bad_answer f lots op.now refusal }
{
    match op {
        Op::MapSg { .. } => Answer::NoSegments(refusal),
        Op::Ld { .. }
        | Op::St { .. }
        | Op::Cbo { .. }
        | Op::Fence { .. }
        | Op::Map { .. }
        | Op::Unmap(_)
        | Op::ToCpu(_)
        | Op::ToDev(_)
        | Op::UnmapSg { .. }
        | Op::Calloc { .. }
        | Op::Cgive(_)
        | Op::Ctake(_)
        | Op::Cfree(_)
        | Op::Hand { .. }
        | Op::Take(_)
        | Op::Claim(_)
        | Op::Free(_)
        | Op::Regs { .. }
        | Op::Run(_)
        | Op::Poll(_)
        | Op::Regr { .. }
        | Op::Regw { .. }
        | Op::Copy { .. } => Answer::Refused(refusal),
    }
}

/// Returns the label whose token an operation waits for before its first step where fences are light, or None where it
/// waits for none.
pub fn waited_label(op: &Op) -> Option<Label>
    ensures { result ≡ rules.waited_label op.now }
{
    match op {
        Op::Unmap(label)
        | Op::UnmapSg { label, .. }
        | Op::ToCpu(label)
        | Op::ToDev(label)
        | Op::Cgive(label)
        | Op::Ctake(label)
        | Op::Cfree(label) => Some(*label),
        Op::Ld { .. }
        | Op::St { .. }
        | Op::Cbo { .. }
        | Op::Fence { .. }
        | Op::Map { .. }
        | Op::MapSg { .. }
        | Op::Calloc { .. }
        | Op::Hand { .. }
        | Op::Take(_)
        | Op::Claim(_)
        | Op::Free(_)
        | Op::Regs { .. }
        | Op::Run(_)
        | Op::Poll(_)
        | Op::Regr { .. }
        | Op::Regw { .. }
        | Op::Copy { .. } => None,
    }
}
