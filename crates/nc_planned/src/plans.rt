//! The plans of all operations.

ghost use Rattle.std.specs.Prelude.{◌≡◌, ◌≤◌, ◌++◌, false, IfOk, OnOk, All};
ghost use Rattle.nc_num.specs.Sizes.{IsBlockSize};
ghost use Rattle.nc_planned.specs.Lenders.{lender_of, fixed_by};
ghost use Rattle.nc_rules.specs.Lots.{DriverConfig, lot_waits};
ghost use Rattle.nc_rules.specs.Operations as rules;

use crate::areas::{push_calloc, push_free, push_give, push_take};
use crate::copies::push_copy;
use crate::handing::push_hand;
use crate::lender::Lender;
use crate::mappings::{push_map, push_to_cpu, push_to_dev, push_unmap};
use crate::scatter_lists::push_unmap_sg;
use nc_num::NoMemory;
use nc_rules::{Kind, Lot, Step};
use nc_scen::Op;
use std::alloc::Global;
use std::collections::VecDeque;

/// Appends the plan of an operation.
#[tactic(auto, unfolding(nc_rules::specs::Operations::plan_of, nc_rules::specs::Operations::meaning, nc_rules::specs::Accesses::load, nc_rules::specs::Accesses::store, nc_rules::specs::CacheOps::cache_operation, nc_rules::specs::CacheOps::fence, nc_rules::specs::Handing::hand, nc_rules::specs::Handing::take, nc_rules::specs::Channels::claim, nc_rules::specs::Channels::free, nc_rules::specs::Channels::set_up, nc_rules::specs::Channels::run, nc_rules::specs::Channels::poll, nc_rules::specs::Channels::read_register, nc_rules::specs::Channels::write_register, nc_rules::specs::Mappings::map_single, nc_rules::specs::Mappings::unmap_single, nc_rules::specs::Mappings::sync_for_cpu, nc_rules::specs::Mappings::sync_for_device, nc_rules::specs::ScatterLists::map_sg, nc_rules::specs::ScatterLists::unmap_sg, nc_rules::specs::Areas::calloc, nc_rules::specs::Areas::give_area, nc_rules::specs::Areas::take_area, nc_rules::specs::Areas::free_area, nc_rules::specs::Copies::copy))]
fn push_plan(steps: &mut Vec<Step>, by: &Lender, lots: &[Lot], op: &Op) -> Result<(), NoMemory>
    requires size { IsBlockSize by.now.size }
    requires slots { by.now.slots_at ≤ 1048576 }
    requires placed { All (λ lot. lot_waits lot ≡ false) lots.now }
    ensures { OnOk result (steps.new.items ≡ steps.old.items ++ rules.plan_of (fixed_by by.now) lots.now op.now) }
{
    match op {
        Op::Map { label, .. } => push_map(steps, by, lots, *label, Kind::Single),
        Op::Unmap(label) => push_unmap(steps, by, lots, *label),
        Op::ToCpu(label) => push_to_cpu(steps, by, lots, *label),
        Op::ToDev(label) => push_to_dev(steps, by, lots, *label),
        Op::MapSg { label, .. } => push_map(steps, by, lots, *label, Kind::List),
        Op::UnmapSg { label, .. } => push_unmap_sg(steps, by, lots, *label),
        Op::Calloc { label, .. } => push_calloc(steps, by, lots, *label),
        Op::Cgive(label) => push_give(steps, by, lots, *label),
        Op::Ctake(label) => push_take(steps, lots, *label),
        Op::Cfree(label) => push_free(steps, lots, *label),
        Op::Hand { buf, to } => push_hand(steps, *buf, *to),
        Op::Copy { chan, cfg, .. } => push_copy(steps, by, lots, *chan, *cfg),
        Op::Ld { .. }
        | Op::St { .. }
        | Op::Cbo { .. }
        | Op::Fence { .. }
        | Op::Take(_)
        | Op::Claim(_)
        | Op::Free(_)
        | Op::Regs { .. }
        | Op::Run(_)
        | Op::Poll(_)
        | Op::Regr { .. }
        | Op::Regw { .. } => Ok(()),
    }
}

/// Returns the plan of an operation, which follows its start; it is empty for an operation without a start step. The
/// lots are those that the hart has, the new ones among them, and each of their entries that bounces has its slot.
///
/// # Errors
///
/// `NoMemory` where memory runs out.
#[tactic(auto, using(crate::proofs::PlanLaws::plans_by))]
pub fn plan_of(
    alloc: Global,
    by: &Lender,
    lots: &[Lot],
    op: &Op,
) -> Result<VecDeque<Step>, NoMemory>
    requires size { IsBlockSize by.now.size }
    requires slots { by.now.slots_at ≤ 1048576 }
    requires placed { All (λ lot. lot_waits lot ≡ false) lots.now }
    ensures { (f : DriverConfig) → lender_of f ≡ by.now → IfOk result (λ v. v.items ≡ rules.plan_of f lots.now op.now) }
{
    let mut steps = Vec::new(alloc);
    push_plan(&mut steps, by, lots, op)?;
    Ok(VecDeque::from_vec(steps))
}
