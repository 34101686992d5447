//! The plans of a coherent area.

ghost use Rattle.std.specs.Prelude.{◌≡◌, ◌+◌, ◌<◌, ◌^◌, ◌++◌, [], ◌∷◌, IfOk};
ghost use Rattle.nc_num.specs.Sizes.{IsBlockSize};
ghost use Rattle.nc_plan.specs.Plans.{full};
ghost use Rattle.nc_coherent.specs.Areas.{allocating};

use nc_env::CboOp;
use nc_num::{NoMemory, Span};
use nc_plan::{Effects, HartOp, push_cbos, push_full};
use std::alloc::Global;

/// Returns the operations that make an area zero and coherent (Linux DMA API: `dma_alloc_coherent`, whose memory is
/// zeroed). Each of its blocks is zeroed, then each is flushed, so that no cache holds one and memory has the zeros,
/// then all is fenced. From then on the area is accessed past the caches (Svpbmt: NC). `block_size` is in bytes.
///
/// # Errors
///
/// `NoMemory` where memory runs out.
#[tactic(auto, unfolding(crate::specs::Areas::allocating))]
pub fn plan_alloc(
    alloc: Global,
    e: &Effects,
    block_size: u32,
    span: Span,
) -> Result<Vec<HartOp>, NoMemory>
    requires size { IsBlockSize block_size }
    requires ends { span.at + span.len < 2 ^ 32 }
    ensures { IfOk result (λ ops. ops.items ≡ allocating e.now block_size span) }
{
    let mut ops = Vec::new(alloc);
    push_cbos(&mut ops, e.zero.unwrap_or(CboOp::Zero), block_size, span)?;
    push_cbos(&mut ops, e.flush.unwrap_or(CboOp::Flush), block_size, span)?;
    push_full(&mut ops)?;
    Ok(ops)
}

/// Returns the one fence by which an area goes to its channel and comes back: no cache holds a block of it.
///
/// # Errors
///
/// `NoMemory` where memory runs out.
pub fn plan_fence(alloc: Global) -> Result<Vec<HartOp>, NoMemory>
    ensures { IfOk result (λ ops. ops.items ≡ full ∷ []) }
{
    let mut ops = Vec::new(alloc);
    push_full(&mut ops)?;
    Ok(ops)
}
