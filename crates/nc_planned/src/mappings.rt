//! Single mappings (Linux DMA API: `dma_map_single`, `dma_unmap_single`, `dma_sync_single_for_cpu` and `_for_device`).

ghost use Rattle.std.specs.Prelude.{◌≡◌, ◌≤◌, ◌++◌, [], false, OnOk, All};
ghost use Rattle.nc_num.specs.Sizes.{IsBlockSize};
ghost use Rattle.nc_planned.specs.Lenders.{fixed_by};
ghost use Rattle.nc_rules.specs.Lots.{DriverConfig, lot_named, lot_waits, is_synced};
ghost use Rattle.nc_rules.specs.declared.lots.Kind.TheVariants.{Single};
ghost use Rattle.nc_rules.specs.Mappings as rules;
ghost use Rattle.nc_rules.specs.Mappings.{with_lot};
ghost use Rattle.nc_rules.specs.Plans.{lend_steps};

use crate::lender::Lender;
use crate::lending::{push_lending, push_return};
use crate::placed::placed_lot;
use nc_lots::{bus_of_lot, lot_named};
use nc_num::{Label, NoMemory};
use nc_rules::{Answer, Kind, Lot, Side, Step, Turn};

/// Whether a lot is synced for the hart.
fn is_synced(lot: &Lot) -> bool
    ensures { result ≡ is_synced lot.now.side }
{
    match lot.side {
        Side::Synced => true,
        Side::Wanted | Side::Lending | Side::Device | Side::Returning | Side::Own => false,
    }
}

/// Appends the lending of a new mapping or list, the lot of this label and kind.
pub(crate) fn push_map(
    steps: &mut Vec<Step>,
    by: &Lender,
    lots: &[Lot],
    label: Label,
    kind: Kind,
) -> Result<(), NoMemory>
    requires size { IsBlockSize by.now.size }
    requires slots { by.now.slots_at ≤ 1048576 }
    requires placed { All (λ lot. lot_waits lot ≡ false) lots.now }
    ensures { OnOk result (steps.new.items ≡ steps.old.items ++ with_lot [] (lend_steps (fixed_by by.now)) (lot_named lots.now label kind)) }
{
    match placed_lot(lots, label, kind) {
        Some(lot) => push_lending(steps, by, lot),
        None => Ok(()),
    }
}

/// Appends the return and the end of a mapping, where it is not synced for the hart.
pub(crate) fn push_unmap(
    steps: &mut Vec<Step>,
    by: &Lender,
    lots: &[Lot],
    label: Label,
) -> Result<(), NoMemory>
    requires size { IsBlockSize by.now.size }
    requires slots { by.now.slots_at ≤ 1048576 }
    requires placed { All (λ lot. lot_waits lot ≡ false) lots.now }
    ensures { OnOk result (steps.new.items ≡ steps.old.items ++ with_lot [] (rules.unmap_steps (fixed_by by.now)) (lot_named lots.now label Single)) }
{
    match placed_lot(lots, label, Kind::Single) {
        Some(lot) if !is_synced(lot) => push_return(steps, by, lot, Turn::End(lot.id)),
        Some(_) | None => Ok(()),
    }
}

/// Appends the return of a mapping that is to be synced for the hart.
pub(crate) fn push_to_cpu(
    steps: &mut Vec<Step>,
    by: &Lender,
    lots: &[Lot],
    label: Label,
) -> Result<(), NoMemory>
    requires size { IsBlockSize by.now.size }
    requires slots { by.now.slots_at ≤ 1048576 }
    requires placed { All (λ lot. lot_waits lot ≡ false) lots.now }
    ensures { OnOk result (steps.new.items ≡ steps.old.items ++ with_lot [] (rules.to_cpu_steps (fixed_by by.now)) (lot_named lots.now label Single)) }
{
    match placed_lot(lots, label, Kind::Single) {
        Some(lot) if !is_synced(lot) => push_return(steps, by, lot, Turn::Sync(lot.id)),
        Some(_) | None => Ok(()),
    }
}

/// Appends the lending of a mapping that is synced for the hart.
pub(crate) fn push_to_dev(
    steps: &mut Vec<Step>,
    by: &Lender,
    lots: &[Lot],
    label: Label,
) -> Result<(), NoMemory>
    requires size { IsBlockSize by.now.size }
    requires slots { by.now.slots_at ≤ 1048576 }
    requires placed { All (λ lot. lot_waits lot ≡ false) lots.now }
    ensures { OnOk result (steps.new.items ≡ steps.old.items ++ with_lot [] (rules.to_dev_steps (fixed_by by.now)) (lot_named lots.now label Single)) }
{
    match placed_lot(lots, label, Kind::Single) {
        Some(lot) if is_synced(lot) => push_lending(steps, by, lot),
        Some(_) | None => Ok(()),
    }
}

/// Returns the answer of a map, with the bus address of the mapping's device range.
pub(crate) fn mapped_answer(slots_at: u32, lots: &[Lot], label: Label) -> Option<Answer>
    requires { slots_at ≤ 1048576 }
    ensures { (f : DriverConfig) → f.slots_at ≡ slots_at → result ≡ rules.mapped_answer f (lot_named lots.now label Single) }
{
    let lot = lot_named(lots, label, Kind::Single)?;
    Some(Answer::Mapped(bus_of_lot(slots_at, lot)))
}
