//! The steps of a copy after the claim of its channel.

ghost use Rattle.std.specs.Prelude.{◌≡◌, ◌+◌, ◌<◌, ◌^◌, ◌++◌, [], ◌∷◌, IfOk, OnOk, map};
ghost use Rattle.nc_num.specs.Sizes.{IsBlockSize};
ghost use Rattle.nc_num.specs.declared.names.Dir.{Dir};
ghost use Rattle.nc_plan.specs.Parts.{IsPart};
ghost use Rattle.nc_plan.specs.Plans.{lending, returning};
ghost use Rattle.nc_memcpy.specs.Copy.{copy_steps, transfer, reg, ops, IsCopy};

use nc_num::{ChanNo, HartNo, NoMemory};
use nc_plan::{Effects, HartOp, IoTarget, Part, Payload, plan_map, plan_unmap};
use std::alloc::Global;

/// A step of a copy.
#[derive(Clone, Copy, Debug, PartialEq, Eq)]
pub enum CopyStep {
    /// The hart issues an operation.
    Op(HartOp),
    /// The hart loads the channel's Control until done or error is set.
    Poll,
}

/// The bus address of RAM's first byte.
const BUS: u64 = 0x8000_0000;

/// Returns the steps of a copy from the claim of its channel to its end, where `cfg` is the value of NextConfig: the
/// source is lent, then the destination; the channel copies; the destination is taken back, then the source. The device
/// reads `src` and writes `dst`, which are equally long. The copy, its order and its registers are this project's own.
///
/// # Errors
///
/// `NoMemory` where memory runs out.
#[tactic(auto, unfolding(crate::specs::Copy::copy_steps))]
pub fn copy_plan(
    alloc: Global,
    e: &Effects,
    block_size: u32,
    chan: ChanNo,
    src: Part,
    dst: Part,
    cfg: u32,
) -> Result<Vec<CopyStep>, NoMemory>
    requires size { IsBlockSize block_size }
    requires src { IsPart src }
    requires dst { IsPart dst }
    requires copy { IsCopy src dst }
    ensures { IfOk result (λ steps. steps.items ≡ copy_steps e.now block_size chan src dst cfg) }
{
    let mut steps = Vec::new(alloc);
    let lent = plan_map(alloc, e, block_size, &[src])?;
    push_ops(&mut steps, &lent)?;
    let lent = plan_map(alloc, e, block_size, &[dst])?;
    push_ops(&mut steps, &lent)?;
    push_transfer(&mut steps, chan, src, dst, cfg)?;
    let back = plan_unmap(alloc, e, block_size, &[dst])?;
    push_ops(&mut steps, &back)?;
    let back = plan_unmap(alloc, e, block_size, &[src])?;
    push_ops(&mut steps, &back)?;
    Ok(steps)
}

/// Returns the steps between the lending of a copy's ranges and their return: the registers of the channel are set, and
/// it is started, polled and released. `cfg` is the value of NextConfig. The copy and its registers are this project's
/// own.
///
/// # Errors
///
/// `NoMemory` where memory runs out.
pub fn transfer_plan(
    alloc: Global,
    chan: ChanNo,
    src: Part,
    dst: Part,
    cfg: u32,
) -> Result<Vec<CopyStep>, NoMemory>
    requires src { IsPart src }
    requires dst { IsPart dst }
    ensures { IfOk result (λ steps. steps.items ≡ transfer chan src dst cfg) }
{
    let mut steps = Vec::new(alloc);
    push_transfer(&mut steps, chan, src, dst, cfg)?;
    Ok(steps)
}

/// Pushes the steps that set the registers of the channel, start it, poll it and release it.
fn push_transfer(
    steps: &mut Vec<CopyStep>,
    chan: ChanNo,
    src: Part,
    dst: Part,
    cfg: u32,
) -> Result<(), NoMemory>
    requires src { IsPart src }
    requires dst { IsPart dst }
    ensures { OnOk result (steps.new.items ≡ steps.old.items ++ transfer chan src dst cfg) }
{
    push(steps, CopyStep::Op(reg(chan, 0x004, 4, u64::from(cfg))))?;
    push(
        steps,
        CopyStep::Op(reg(chan, 0x008, 8, u64::from(src.device.len))),
    )?;
    push(
        steps,
        CopyStep::Op(reg(chan, 0x010, 8, BUS + u64::from(dst.device.at))),
    )?;
    push(
        steps,
        CopyStep::Op(reg(chan, 0x018, 8, BUS + u64::from(src.device.at))),
    )?;
    push(steps, CopyStep::Op(reg(chan, 0x000, 4, 3)))?;
    push(steps, CopyStep::Poll)?;
    push(steps, CopyStep::Op(reg(chan, 0x000, 4, 0)))
}

/// Returns the store of `value` to the register of `width` bytes at offset `off` of a channel.
fn reg(chan: ChanNo, off: u16, width: u8, value: u64) -> HartOp
    ensures { result ≡ reg chan off width value }
{
    HartOp::IoStore(IoTarget::Reg {
        chan,
        off,
        width,
        value,
    })
}

fn push_ops(steps: &mut Vec<CopyStep>, plan: &[HartOp]) -> Result<(), NoMemory>
    ensures { OnOk result (steps.new.items ≡ steps.old.items ++ ops plan.now) }
{
    for op in plan {
        push(steps, CopyStep::Op(*op))?;
    }
    Ok(())
}

fn push(steps: &mut Vec<CopyStep>, step: CopyStep) -> Result<(), NoMemory>
    ensures { OnOk result (steps.new.items ≡ steps.old.items ++ step ∷ []) }
{
    // the prover looks for the types inside a step among those that the function names
    let _inside = (
        HartOp::IoStore(IoTarget::Mail {
            buf: 0,
            to: HartNo(0),
        }),
        Payload::Last,
    );
    steps.push(step)?;
    Ok(())
}
