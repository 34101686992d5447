//! Coherent areas (Linux DMA API: `dma_alloc_coherent`, `dma_free_coherent`).

ghost use Rattle.std.specs.Prelude.{◌≡◌, ◌≤◌, ◌++◌, [], false, OnOk};
ghost use Rattle.nc_num.specs.Sizes.{IsBlockSize};
ghost use Rattle.nc_planned.specs.Lenders.{fixed_by};
ghost use Rattle.nc_rules.specs.Lots.{DriverConfig, lot_named, is_own};
ghost use Rattle.nc_rules.specs.declared.lots.Kind.TheVariants.{Area};
ghost use Rattle.nc_rules.specs.Areas as rules;
ghost use Rattle.nc_rules.specs.Mappings.{with_lot};

use crate::lender::Lender;
use crate::lending::push_lending_end;
use crate::steps::{full_step, push, push_ending};
use nc_coherent::plan_alloc;
use nc_lots::{bus_of_lot, lot_named, only_entry};
use nc_num::{Label, NoMemory};
use nc_rules::{Answer, Kind, Lot, Side, Step, Turn};

/// Whether a lot is an area that the hart has.
fn is_own(lot: &Lot) -> bool
    ensures { result ≡ is_own lot.now.side }
{
    match lot.side {
        Side::Own => true,
        Side::Wanted | Side::Lending | Side::Device | Side::Returning | Side::Synced => false,
    }
}

/// Appends the zeroing and flushing of a new area, with a full fence at the end.
pub(crate) fn push_calloc(
    steps: &mut Vec<Step>,
    by: &Lender,
    lots: &[Lot],
    label: Label,
) -> Result<(), NoMemory>
    requires size { IsBlockSize by.now.size }
    ensures { OnOk result (steps.new.items ≡ steps.old.items ++ with_lot [] (rules.calloc_steps (fixed_by by.now)) (lot_named lots.now label Area)) }
{
    match lot_named(lots, label, Kind::Area) {
        Some(lot) => {
            let span = only_entry(lot).span;
            let ops = plan_alloc(*steps.allocator(), &by.effects, by.size, span)?;
            push_ending(steps, ops, Turn::Settle(lot.id))
        }
        None => Ok(()),
    }
}

/// Appends the end of a lending, where the hart has the area.
pub(crate) fn push_give(
    steps: &mut Vec<Step>,
    by: &Lender,
    lots: &[Lot],
    label: Label,
) -> Result<(), NoMemory>
    ensures { OnOk result (steps.new.items ≡ steps.old.items ++ with_lot [] (rules.give_steps (fixed_by by.now)) (lot_named lots.now label Area)) }
{
    match lot_named(lots, label, Kind::Area) {
        Some(lot) if is_own(lot) => push_lending_end(steps, by, lot),
        Some(_) | None => Ok(()),
    }
}

/// Appends the full fence with which the hart has an area again.
pub(crate) fn push_take(steps: &mut Vec<Step>, lots: &[Lot], label: Label) -> Result<(), NoMemory>
    ensures { OnOk result (steps.new.items ≡ steps.old.items ++ with_lot [] rules.take_steps (lot_named lots.now label Area)) }
{
    match lot_named(lots, label, Kind::Area) {
        Some(lot) if !is_own(lot) => push(steps, full_step(Turn::Settle(lot.id))),
        Some(_) | None => Ok(()),
    }
}

/// Appends the full fence with which an area ends.
pub(crate) fn push_free(steps: &mut Vec<Step>, lots: &[Lot], label: Label) -> Result<(), NoMemory>
    ensures { OnOk result (steps.new.items ≡ steps.old.items ++ with_lot [] rules.free_steps (lot_named lots.now label Area)) }
{
    match lot_named(lots, label, Kind::Area) {
        Some(lot) => push(steps, full_step(Turn::End(lot.id))),
        None => Ok(()),
    }
}

/// Returns the answer of an allocation, with the area's bus address.
pub(crate) fn allocated_answer(slots_at: u32, lots: &[Lot], label: Label) -> Option<Answer>
    requires { slots_at ≤ 1048576 }
    ensures { (f : DriverConfig) → f.slots_at ≡ slots_at → result ≡ rules.allocated_answer f (lot_named lots.now label Area) }
{
    let lot = lot_named(lots, label, Kind::Area)?;
    Some(Answer::Allocated(bus_of_lot(slots_at, lot)))
}
