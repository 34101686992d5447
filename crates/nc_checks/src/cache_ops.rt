//! Cache-block operations of a script (RISC-V CMO 1.0), and fences.

ghost use Rattle.std.specs.Prelude.{◌≡◌, slice_get, option_map};
ghost use Rattle.nc_plan.specs.declared.ops.HartOp.TheVariants as hart;
ghost use Rattle.nc_rules.specs.CacheOps as rules;
ghost use Rattle.nc_rules.specs.Meanings.{step_of_way};
ghost use Rattle.nc_rules.specs.Plans as plans;
ghost use Rattle.nc_checks.specs.Safe.{IsSafe};

use crate::refusals::{legal, part_of};
use crate::setup::DriverConfig;
use crate::steps::hart_step;
use nc_env::CboOp;
use nc_num::Block;
use nc_plan::HartOp;
use nc_rules::{Refusal, Step};

/// Returns the step that has an effect on a block.
fn cbo_step(effect: CboOp, block: Block) -> Step
    ensures { result ≡ rules.cbo_step effect block.0 }
{
    hart_step(HartOp::Cbo { op: effect, block })
}

/// Returns the step of a fence.
pub(crate) fn fence_step(pred: u8, succ: u8) -> Step
    ensures { result ≡ plans.hart_step (hart.Fence pred succ) }
{
    hart_step(HartOp::Fence { pred, succ })
}

impl DriverConfig {
    /// Returns block n of a cache operation on the byte at a place.
    fn cbo_block(&self, op: CboOp, at: u32, n: u32) -> Option<Block>
        requires { IsSafe self.now }
        ensures { option_map (λ b. b.0) result ≡ slice_get (rules.cbo_blocks self.now op at) n }
    {
        let (first, count) = match op {
            CboOp::Clean | CboOp::Flush | CboOp::Inval => (at / self.size(), 1),
            CboOp::Zero => {
                let count = self.zero_size() / self.size();
                (at / self.zero_size() * count, count)
            }
        };
        if n < count {
            Some(Block(first + n))
        } else {
            None
        }
    }

    /// Returns the step on block n of a cache operation.
    #[tactic(auto, unfolding(nc_rules::specs::CacheOps::cache_operation))]
    pub(crate) fn cbo(&self, op: CboOp, buf: u8, off: u32, n: u32) -> Result<Option<Step>, Refusal>
        requires { IsSafe self.now }
        ensures { result ≡ step_of_way (rules.cache_operation self.now op buf off).way n }
    {
        let byte = part_of(self.buffer(buf), off, 1)?;
        let effect = legal(self.effect(op))?;
        match self.cbo_block(op, byte.at, n) {
            Some(block) => Ok(Some(cbo_step(effect, block))),
            None => Ok(None),
        }
    }
}
