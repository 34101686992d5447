//! Scatter lists (Linux DMA API: `dma_map_sg`, `dma_unmap_sg`).

ghost use Rattle.std.specs.Prelude.{◌≡◌, ◌≤◌, ◌++◌, [], false, OnOk, All};
ghost use Rattle.nc_num.specs.Sizes.{IsBlockSize};
ghost use Rattle.nc_planned.specs.Lenders.{fixed_by};
ghost use Rattle.nc_rules.specs.Lots.{DriverConfig, lot_named, lot_waits};
ghost use Rattle.nc_rules.specs.declared.lots.Kind.TheVariants.{List as ScatterList};
ghost use Rattle.nc_rules.specs.Mappings.{with_lot};
ghost use Rattle.nc_rules.specs.ScatterLists as rules;

use crate::lender::Lender;
use crate::lending::push_return;
use crate::placed::placed_lot;
use nc_num::{Label, NoMemory};
use nc_rules::{Answer, Kind, Lot, Step, Turn};

/// Appends the return and the end of a list.
pub(crate) fn push_unmap_sg(
    steps: &mut Vec<Step>,
    by: &Lender,
    lots: &[Lot],
    label: Label,
) -> Result<(), NoMemory>
    requires size { IsBlockSize by.now.size }
    requires slots { by.now.slots_at ≤ 1048576 }
    requires placed { All (λ lot. lot_waits lot ≡ false) lots.now }
    ensures { OnOk result (steps.new.items ≡ steps.old.items ++ with_lot [] (rules.unmap_sg_steps (fixed_by by.now)) (lot_named lots.now label ScatterList)) }
{
    match placed_lot(lots, label, Kind::List) {
        Some(lot) => push_return(steps, by, lot, Turn::End(lot.id)),
        None => Ok(()),
    }
}

/// The list's ranges on the bus.
pub(crate) fn segments_answer(slots_at: u32, lots: &[Lot], label: Label) -> Option<Answer>
    requires slots { slots_at ≤ 1048576 }
    requires placed { All (λ lot. lot_waits lot ≡ false) lots.now }
    ensures { (f : DriverConfig) → f.slots_at ≡ slots_at → result ≡ rules.segments_answer f (lot_named lots.now label ScatterList) }
{
    let lot = placed_lot(lots, label, Kind::List)?;
    Some(Answer::Segments(lot.list.seg_list(slots_at)))
}
