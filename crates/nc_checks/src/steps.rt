//! Steps that are one operation of the hart.

ghost use Rattle.std.specs.Prelude.{◌≡◌};
ghost use Rattle.nc_rules.specs.Plans as rules;

use nc_num::ChanNo;
use nc_pdma_regs::CONTROL;
use nc_plan::{HartOp, IoTarget};
use nc_rules::{Act, Step, Turn};

/// Makes a step without a turn.
pub(crate) fn plain(act: Act) -> Step
    ensures { result ≡ rules.step act }
{
    Step {
        act,
        first: Turn::Stay,
        last: Turn::Stay,
    }
}

/// Makes a step that is an operation of the hart.
pub(crate) fn hart_step(op: HartOp) -> Step
    ensures { result ≡ rules.hart_step op }
{
    plain(Act::Op(op))
}

/// Returns step n of an operation that has one step.
pub(crate) fn single(step: Step, n: u32) -> Option<Step>
    ensures { result ≡ rules.single step n }
{
    if n == 0 { Some(step) } else { None }
}

/// Makes a store to a channel's Control.
pub(crate) fn control_step(chan: ChanNo, value: u64) -> Step
    ensures { result ≡ rules.control_step chan value }
{
    hart_step(HartOp::IoStore(IoTarget::Reg {
        chan,
        off: CONTROL,
        width: 4,
        value,
    }))
}
