//! The lending of a lot, and its return.

ghost use Rattle.std.specs.Prelude.{◌≡◌, ◌≤◌, ◌++◌, false, All, IfOk, OnOk};
ghost use Rattle.nc_num.specs.Sizes.{IsBlockSize};
ghost use Rattle.nc_plan.specs.Parts.{IsPart};
ghost use Rattle.nc_planned.specs.Lenders.{fixed_by};
ghost use Rattle.nc_rules.specs.Lots.{lot_waits, parts};
ghost use Rattle.nc_rules.specs.Plans as rules;

use crate::lender::Lender;
use crate::steps::{O, W, full_step, hart_step, push, push_ending, push_ops};
use nc_num::NoMemory;
use nc_plan::{HartOp, IoTarget, Part, plan_map, plan_unmap};
use nc_rules::{Lot, Step, Turn};
use std::alloc::Global;

/// The ranges of a lot as they are lent.
#[tactic(auto, using(crate::proofs::StepLaws::are_parts))]
fn lot_parts(alloc: Global, by: &Lender, lot: &Lot) -> Result<Vec<Part>, NoMemory>
    requires slots { by.now.slots_at ≤ 1048576 }
    requires placed { lot_waits lot.now ≡ false }
    ensures value { IfOk result (λ ps. ps.items ≡ parts (fixed_by by.now) lot.now) }
    ensures each { IfOk result (λ ps. All IsPart ps.items) }
{
    // the clauses of `entries` say that each part is one
    let _entries = lot.list.entries();
    lot.list.parts(alloc, by.slots_at)
}

/// Returns what is done before a lot may be lent: the lending plan without the fence at its end.
#[tactic(auto, unfolding(nc_plan::specs::Plans::lending))]
fn carried(alloc: Global, by: &Lender, lot: &Lot) -> Result<Vec<HartOp>, NoMemory>
    requires size { IsBlockSize by.now.size }
    requires slots { by.now.slots_at ≤ 1048576 }
    requires placed { lot_waits lot.now ≡ false }
    ensures { IfOk result (λ ops. ops.items ≡ rules.carried by.now.effects by.now.size (parts (fixed_by by.now) lot.now)) }
{
    let parts = lot_parts(alloc, by, lot)?;
    let mut ops = plan_map(alloc, &by.effects, by.size, &parts)?;
    ops.pop();
    Ok(ops)
}

/// Makes a marker of W before O, and a token of the lot.
fn token_steps(lot: &Lot) -> [Step; 2]
    ensures { result ≡ rules.token_steps lot.now }
{
    [
        hart_step(HartOp::Mark { pred: W, succ: O }),
        hart_step(HartOp::IoStore(IoTarget::Lend {
            label: lot.id.label,
            first: lot.id.first,
            count: lot.list.entries().len() as u8,
        })),
    ]
}

/// Appends the end of a lending: a full fence, or a token where fences are light.
pub(crate) fn push_lending_end(
    steps: &mut Vec<Step>,
    by: &Lender,
    lot: &Lot,
) -> Result<(), NoMemory>
    ensures { OnOk result (steps.new.items ≡ steps.old.items ++ rules.lending_end (fixed_by by.now) lot.now) }
{
    if by.light {
        steps.extend_from_slice(&token_steps(lot))?;
        Ok(())
    } else {
        push(steps, full_step(Turn::Give(lot.id)))
    }
}

/// Appends the lending of a lot.
pub(crate) fn push_lending(steps: &mut Vec<Step>, by: &Lender, lot: &Lot) -> Result<(), NoMemory>
    requires size { IsBlockSize by.now.size }
    requires slots { by.now.slots_at ≤ 1048576 }
    requires placed { lot_waits lot.now ≡ false }
    ensures { OnOk result (steps.new.items ≡ steps.old.items ++ rules.lend_steps (fixed_by by.now) lot.now) }
{
    let ops = carried(*steps.allocator(), by, lot)?;
    push_ops(steps, &ops)?;
    push_lending_end(steps, by, lot)
}

/// Appends the return of a lot, whose last step makes this turn.
pub(crate) fn push_return(
    steps: &mut Vec<Step>,
    by: &Lender,
    lot: &Lot,
    turn: Turn,
) -> Result<(), NoMemory>
    requires size { IsBlockSize by.now.size }
    requires slots { by.now.slots_at ≤ 1048576 }
    requires placed { lot_waits lot.now ≡ false }
    ensures { OnOk result (steps.new.items ≡ steps.old.items ++ rules.ending turn (rules.return_steps (fixed_by by.now) lot.now)) }
{
    let alloc = *steps.allocator();
    let parts = lot_parts(alloc, by, lot)?;
    let ops = plan_unmap(alloc, &by.effects, by.size, &parts)?;
    push_ending(steps, ops, turn)
}
