//! Copies by a channel. This project's own.

ghost use Rattle.std.specs.Prelude.{◌≡◌, ◌≤◌, ◌++◌, ◌∷◌, [], false, OnOk, All, map};
ghost use Rattle.std.specs.List.{find};
ghost use Rattle.nc_num.specs.Sizes.{IsBlockSize};
ghost use Rattle.nc_plan.specs.Parts.{IsPart};
ghost use Rattle.nc_memcpy.specs.Copy.{transfer};
ghost use Rattle.nc_planned.specs.Lenders.{fixed_by};
ghost use Rattle.nc_rules.specs.Copies as rules;
ghost use Rattle.nc_rules.specs.Lots.{is_lot, lot_waits};

use crate::lender::Lender;
use crate::lending::{push_lending, push_return};
use crate::placed::placed_end;
use crate::steps::{begin_at, hart_step, plain, push};
use nc_memcpy::{CopyStep, transfer_plan};
use nc_num::{ChanNo, Dir, Label, NoMemory, Span};
use nc_plan::Part;
use nc_rules::{Act, Answer, Lot, LotId, Seen, Step, Turn};
use nc_sg::device;

/// The end that the channel reads.
const SOURCE: LotId = LotId {
    label: Label(1000),
    first: 0,
};

/// The end that the channel writes.
const TARGET: LotId = LotId {
    label: Label(1000),
    first: 1,
};

/// Makes the claim, with whose turns both ends are being lent.
fn claim_step(chan: ChanNo) -> Step
    ensures { result ≡ rules.claim_step chan }
{
    Step {
        act: Act::Claim(chan),
        first: Turn::Lend(SOURCE),
        last: Turn::Lend(TARGET),
    }
}

/// Makes a step of the transfer.
fn copy_step(chan: ChanNo, step: CopyStep) -> Step
    ensures { result ≡ rules.copy_step chan step }
{
    match step {
        CopyStep::Op(op) => hart_step(op),
        CopyStep::Poll => plain(Act::Poll(chan)),
    }
}

/// The range of an end, as it is lent in this direction.
fn end_part(by: &Lender, lot: &Lot, dir: Dir) -> Part
    requires { by.now.slots_at ≤ 1048576 }
    ensures device { result.device ≡ (rules.end_part (fixed_by by.now) lot.now).device }
    ensures part { IsPart result }
{
    match lot.list.entries().first() {
        Some(entry) => Part {
            buffer: entry.span,
            device: device(by.slots_at, entry),
            dir,
        },
        None => Part {
            buffer: Span { at: 0, len: 0 },
            device: Span { at: 0, len: 0 },
            dir,
        },
    }
}

/// Appends the steps of a transfer.
fn push_copy_steps(steps: &mut Vec<Step>, chan: ChanNo, copy: &[CopyStep]) -> Result<(), NoMemory>
    ensures { OnOk result (steps.new.items ≡ steps.old.items ++ map (rules.copy_step chan) copy.now) }
{
    for step in copy {
        push(steps, copy_step(chan, *step))?;
    }
    Ok(())
}

/// Appends the transfer between the two ends: the channel is set, started, waited for and released.
fn push_transfer(
    steps: &mut Vec<Step>,
    by: &Lender,
    chan: ChanNo,
    cfg: u32,
    src: &Lot,
    dst: &Lot,
) -> Result<(), NoMemory>
    requires { by.now.slots_at ≤ 1048576 }
    ensures { OnOk result (steps.new.items ≡ steps.old.items ++ map (rules.copy_step chan) (transfer chan (rules.end_part (fixed_by by.now) src.now) (rules.end_part (fixed_by by.now) dst.now) cfg)) }
{
    let from = end_part(by, src, Dir::ToDev);
    let to = end_part(by, dst, Dir::FromDev);
    let copy = transfer_plan(*steps.allocator(), chan, from, to, cfg)?;
    push_copy_steps(steps, chan, &copy)
}

/// Appends the return of an end: the first of the new steps takes it back, and the last one ends it.
fn push_back(steps: &mut Vec<Step>, by: &Lender, lot: &Lot) -> Result<(), NoMemory>
    requires size { IsBlockSize by.now.size }
    requires slots { by.now.slots_at ≤ 1048576 }
    requires placed { lot_waits lot.now ≡ false }
    ensures { OnOk result (steps.new.items ≡ steps.old.items ++ rules.back_steps (fixed_by by.now) lot.now) }
{
    let from = steps.len();
    push_return(steps, by, lot, Turn::End(lot.id))?;
    begin_at(steps, from, Turn::Return(lot.id));
    Ok(())
}

/// Appends a copy between two ends.
fn push_between(
    steps: &mut Vec<Step>,
    by: &Lender,
    chan: ChanNo,
    cfg: u32,
    src: &Lot,
    dst: &Lot,
) -> Result<(), NoMemory>
    requires size { IsBlockSize by.now.size }
    requires slots { by.now.slots_at ≤ 1048576 }
    requires source { lot_waits src.now ≡ false }
    requires target { lot_waits dst.now ≡ false }
    ensures { OnOk result (steps.new.items ≡ steps.old.items ++ rules.copy_steps (fixed_by by.now) chan cfg src.now dst.now) }
{
    push(steps, claim_step(chan))?;
    push_lending(steps, by, src)?;
    push_lending(steps, by, dst)?;
    push_transfer(steps, by, chan, cfg, src, dst)?;
    push_back(steps, by, dst)?;
    push_back(steps, by, src)
}

/// Appends a copy between the two ends that the hart has.
pub(crate) fn push_copy(
    steps: &mut Vec<Step>,
    by: &Lender,
    lots: &[Lot],
    chan: ChanNo,
    cfg: u32,
) -> Result<(), NoMemory>
    requires size { IsBlockSize by.now.size }
    requires slots { by.now.slots_at ≤ 1048576 }
    requires placed { All (λ lot. lot_waits lot ≡ false) lots.now }
    ensures { OnOk result (steps.new.items ≡ steps.old.items ++ rules.copy_steps_of (fixed_by by.now) chan cfg (find (is_lot rules.source) lots.now) (find (is_lot rules.target) lots.now)) }
{
    match (placed_end(lots, SOURCE), placed_end(lots, TARGET)) {
        (Some(src), Some(dst)) => push_between(steps, by, chan, cfg, src, dst),
        (Some(_), None) | (None, Some(_) | None) => Ok(()),
    }
}

/// Returns CopyFailed where bit 31 of Control is set, else CopyDone.
fn copied(control: u32) -> Answer
    ensures { result ≡ rules.copied control }
{
    if control >> 31 & 1 == 1 {
        Answer::CopyFailed(control)
    } else {
        Answer::CopyDone
    }
}

/// The answer of a copy, by the value of Control that its poll saw.
pub(crate) fn copy_answer(saw: Seen) -> Option<Answer>
    ensures { result ≡ rules.copy_answer saw }
{
    match saw {
        Seen::Control(control) => Some(copied(control)),
        Seen::Nothing | Seen::Claimed | Seen::Busy(_) | Seen::Value(_) => None,
    }
}
