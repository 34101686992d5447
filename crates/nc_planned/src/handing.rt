//! Buffers that are passed from hart to hart.

ghost use Rattle.std.specs.Prelude.{◌≡◌, ◌++◌, OnOk};
ghost use Rattle.nc_rules.specs.Handing.{hand_steps};

use crate::steps::{O, W, hart_step};
use nc_num::{HartNo, NoMemory};
use nc_plan::{HartOp, IoTarget};
use nc_rules::Step;

/// Makes a marker of W before O, and the message.
fn hand_steps(buf: u8, to: HartNo) -> [Step; 2]
    ensures { result ≡ hand_steps buf to }
{
    [
        hart_step(HartOp::Mark { pred: W, succ: O }),
        hart_step(HartOp::IoStore(IoTarget::Mail { buf, to })),
    ]
}

/// Appends the plan of a buffer that is passed to a hart.
pub(crate) fn push_hand(steps: &mut Vec<Step>, buf: u8, to: HartNo) -> Result<(), NoMemory>
    ensures { OnOk result (steps.new.items ≡ steps.old.items ++ hand_steps buf to) }
{
    steps.extend_from_slice(&hand_steps(buf, to))?;
    Ok(())
}
