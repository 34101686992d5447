//! Steps, one by one and in lists.

ghost use Rattle.std.specs.Prelude.{◌≡◌, ◌≤◌, ◌++◌, [], ◌∷◌, OnOk, length, take, drop};
ghost use Rattle.nc_plan.specs.Plans.{full};
ghost use Rattle.nc_rules.specs.Plans as rules;

use nc_num::{ChanNo, HartNo, NoMemory};
use nc_pdma_regs::CONTROL;
use nc_plan::{HartOp, IoTarget, Payload};
use nc_rules::{Act, Step, Turn};

/// The FENCE bit of stores to memory (RISC-V FENCE).
pub(crate) const W: u8 = 1;

/// The FENCE bit of stores to I/O (RISC-V FENCE).
pub(crate) const O: u8 = 4;

/// Makes a step without a turn.
pub fn plain(act: Act) -> Step
    ensures { result ≡ rules.step act }
{
    Step {
        act,
        first: Turn::Stay,
        last: Turn::Stay,
    }
}

/// Makes a step that is an operation of the hart.
pub fn hart_step(op: HartOp) -> Step
    ensures { result ≡ rules.hart_step op }
{
    plain(Act::Op(op))
}

/// Returns a step with this turn as its last.
pub fn turning(turn: Turn, step: Step) -> Step
    ensures { result ≡ rules.turning turn step }
{
    Step { last: turn, ..step }
}

/// Returns step `n`, counted from 0, of an operation that has this step alone.
pub fn single(step: Step, n: u32) -> Option<Step>
    ensures { result ≡ rules.single step n }
{
    if n == 0 { Some(step) } else { None }
}

/// Makes a store of 4 bytes to a channel's Control.
pub fn control_step(chan: ChanNo, value: u64) -> Step
    ensures { result ≡ rules.control_step chan value }
{
    hart_step(HartOp::IoStore(IoTarget::Reg {
        chan,
        off: CONTROL,
        width: 4,
        value,
    }))
}

/// Makes a full fence, FENCE iorw, iorw, with this turn as its last.
pub(crate) fn full_step(turn: Turn) -> Step
    ensures { result ≡ rules.turning turn (rules.hart_step full) }
{
    turning(turn, hart_step(HartOp::Fence { pred: 15, succ: 15 }))
}

/// Appends a step. Fails where memory runs out.
pub(crate) fn push(steps: &mut Vec<Step>, step: Step) -> Result<(), NoMemory>
    ensures { OnOk result (steps.new.items ≡ steps.old.items ++ step ∷ []) }
{
    // the prover looks for the types inside a step among those that the function names
    let _inside = (
        Act::Op(HartOp::IoStore(IoTarget::Mail {
            buf: 0,
            to: HartNo(0),
        })),
        Turn::Stay,
        Payload::Last,
    );
    steps.push(step)?;
    Ok(())
}

/// Appends a step for each operation. Fails where memory runs out.
pub(crate) fn push_ops(steps: &mut Vec<Step>, ops: &[HartOp]) -> Result<(), NoMemory>
    ensures { OnOk result (steps.new.items ≡ steps.old.items ++ rules.op_steps ops.now) }
{
    for op in ops {
        push(steps, hart_step(*op))?;
    }
    Ok(())
}

/// Appends a step for each operation, of which the last makes this turn. Fails where memory runs out.
pub(crate) fn push_ending(
    steps: &mut Vec<Step>,
    mut ops: Vec<HartOp>,
    turn: Turn,
) -> Result<(), NoMemory>
    ensures { OnOk result (steps.new.items ≡ steps.old.items ++ rules.ending turn (rules.op_steps ops.items)) }
{
    let last = ops.pop();
    push_ops(steps, &ops)?;
    match last {
        Some(op) => push(steps, turning(turn, hart_step(op))),
        None => Ok(()),
    }
}

/// Sets the first turn of the step at the index `from`, where there is such a step.
pub(crate) fn begin_at(steps: &mut Vec<Step>, from: usize, turn: Turn)
    requires { from ≤ length steps.old.items }
    ensures { steps.new.items ≡ take from steps.old.items ++ rules.beginning turn (drop from steps.old.items) }
{
    if from < steps.len() {
        steps[from].first = turn;
    }
}
