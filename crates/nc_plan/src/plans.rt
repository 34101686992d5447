//! The lending plan and the returning plan.

ghost use Rattle.std.specs.Prelude.{◌≡◌, ◌+◌, ◌-◌, ◌≤◌, ◌<◌, ◌^◌, ◌++◌, [], ◌∷◌, IfOk, OnOk, flat_map, All};
ghost use Rattle.nc_num.specs.Sizes.{IsBlockSize};
ghost use Rattle.nc_plan.specs.Parts.{IsPart};
ghost use Rattle.nc_plan.specs.Plans.{lending, returning, copied_in, written_back, dropped, copied_back, copies, copy_piece, cbos, cbo, BlocksAreMet, PiecesMove, PlansAreFenced, lend_op, return_op, full};

use crate::effects::Effects;
use crate::ops::{HartOp, Payload};
use crate::parts::{Part, comes_back, is_bounced};
use nc_env::CboOp;
use nc_num::{Block, Dir, MemType, NoMemory, Span, first_piece};
use std::alloc::Global;

/// Returns the operations that lend parts to their channel (Linux DMA API: `dma_map_single`, `dma_map_sg`): the lending
/// plan, which writes each block back before the device sees it. `block_size` is in bytes.
///
/// # Errors
///
/// `NoMemory` where memory runs out.
pub fn plan_map(
    alloc: Global,
    e: &Effects,
    block_size: u32,
    parts: &[Part],
) -> Result<Vec<HartOp>, NoMemory>
    requires size { IsBlockSize block_size }
    requires parts { All IsPart parts.now }
    ensures { IfOk result (λ ops. ops.items ≡ lending e.now block_size parts.now) }
{
    lending_plan(alloc, e, block_size, parts)
}

/// Returns the operations that take parts back from their channel (Linux DMA API: `dma_unmap_single`, `dma_unmap_sg`):
/// the returning plan, which drops each block that the device may have written. `block_size` is in bytes.
///
/// # Errors
///
/// `NoMemory` where memory runs out.
pub fn plan_unmap(
    alloc: Global,
    e: &Effects,
    block_size: u32,
    parts: &[Part],
) -> Result<Vec<HartOp>, NoMemory>
    requires size { IsBlockSize block_size }
    requires parts { All IsPart parts.now }
    ensures { IfOk result (λ ops. ops.items ≡ returning e.now block_size parts.now) }
{
    returning_plan(alloc, e, block_size, parts)
}

/// Returns the operations that a sync for the CPU performs before the processor may see a mapping that stays (Linux DMA
/// API: `dma_sync_single_for_cpu`): the returning plan.
///
/// # Errors
///
/// `NoMemory` where memory runs out.
pub fn plan_to_cpu(
    alloc: Global,
    e: &Effects,
    block_size: u32,
    parts: &[Part],
) -> Result<Vec<HartOp>, NoMemory>
    requires size { IsBlockSize block_size }
    requires parts { All IsPart parts.now }
    ensures { IfOk result (λ ops. ops.items ≡ returning e.now block_size parts.now) }
{
    returning_plan(alloc, e, block_size, parts)
}

/// Returns the operations that a sync for the device performs before the device may see a mapping that stays (Linux DMA
/// API: `dma_sync_single_for_device`): the lending plan.
///
/// # Errors
///
/// `NoMemory` where memory runs out.
pub fn plan_to_dev(
    alloc: Global,
    e: &Effects,
    block_size: u32,
    parts: &[Part],
) -> Result<Vec<HartOp>, NoMemory>
    requires size { IsBlockSize block_size }
    requires parts { All IsPart parts.now }
    ensures { IfOk result (λ ops. ops.items ≡ lending e.now block_size parts.now) }
{
    lending_plan(alloc, e, block_size, parts)
}

/// Proves that the blocks of a span are those that it meets, ascending, each once.
pub fn blocks_are_met()
    ensures { BlocksAreMet }
{}

/// Proves that the pieces of a range, moved to one of equal length and equal start mod 8, are the pieces of that range:
/// the loads of a copy cover the one range, and its stores the other.
pub fn pieces_move()
    ensures { PiecesMove }
{}

/// Proves that in each plan the cache operations of the blocks stand before its fence.
pub fn plans_are_fenced()
    ensures { PlansAreFenced }
{}

/// Returns the lending plan: each bounced part goes into its slot, then each block is written back, then all is fenced.
#[tactic(auto, unfolding(crate::specs::Plans::lending))]
fn lending_plan(
    alloc: Global,
    e: &Effects,
    block_size: u32,
    parts: &[Part],
) -> Result<Vec<HartOp>, NoMemory>
    requires size { IsBlockSize block_size }
    requires parts { All IsPart parts.now }
    ensures { IfOk result (λ ops. ops.items ≡ lending e.now block_size parts.now) }
{
    let mut lent = Vec::new(alloc);
    copy_all_in(&mut lent, parts)?;
    write_all_back(&mut lent, e, block_size, parts)?;
    push_full(&mut lent)?;
    Ok(lent)
}

/// Returns the returning plan: each block that the device may have written is dropped, then all is fenced, then each
/// bounced part comes back out of its slot.
#[tactic(auto, unfolding(crate::specs::Plans::returning))]
fn returning_plan(
    alloc: Global,
    e: &Effects,
    block_size: u32,
    parts: &[Part],
) -> Result<Vec<HartOp>, NoMemory>
    requires size { IsBlockSize block_size }
    requires parts { All IsPart parts.now }
    ensures { IfOk result (λ ops. ops.items ≡ returning e.now block_size parts.now) }
{
    let mut back = Vec::new(alloc);
    drop_all(&mut back, e, block_size, parts)?;
    push_full(&mut back)?;
    copy_all_back(&mut back, parts)?;
    Ok(back)
}

/// Adds the copies of the bounced parts into their slots.
fn copy_all_in(ops: &mut Vec<HartOp>, parts: &[Part]) -> Result<(), NoMemory>
    requires { All IsPart parts.now }
    ensures { OnOk result (ops.new.items ≡ ops.old.items ++ flat_map copied_in parts.now) }
{
    for part in parts {
        copy_in(ops, part)?;
    }
    Ok(())
}

/// Adds the write-back of each block of the parts.
fn write_all_back(
    ops: &mut Vec<HartOp>,
    e: &Effects,
    block_size: u32,
    parts: &[Part],
) -> Result<(), NoMemory>
    requires size { IsBlockSize block_size }
    requires parts { All IsPart parts.now }
    ensures { OnOk result (ops.new.items ≡ ops.old.items ++ flat_map (written_back e.now block_size) parts.now) }
{
    for part in parts {
        write_back(ops, e, block_size, part)?;
    }
    Ok(())
}

/// Adds the drop of each block of the parts that the device may have written.
fn drop_all(
    ops: &mut Vec<HartOp>,
    e: &Effects,
    block_size: u32,
    parts: &[Part],
) -> Result<(), NoMemory>
    requires size { IsBlockSize block_size }
    requires parts { All IsPart parts.now }
    ensures { OnOk result (ops.new.items ≡ ops.old.items ++ flat_map (dropped e.now block_size) parts.now) }
{
    for part in parts {
        drop_blocks(ops, e, block_size, part)?;
    }
    Ok(())
}

/// Adds the copies of the bounced parts out of their slots.
fn copy_all_back(ops: &mut Vec<HartOp>, parts: &[Part]) -> Result<(), NoMemory>
    requires { All IsPart parts.now }
    ensures { OnOk result (ops.new.items ≡ ops.old.items ++ flat_map copied_back parts.now) }
{
    for part in parts {
        copy_back(ops, part)?;
    }
    Ok(())
}

/// Adds the copy of a bounced part into its slot.
#[tactic(auto, unfolding(crate::specs::Plans::copied_in))]
fn copy_in(ops: &mut Vec<HartOp>, part: &Part) -> Result<(), NoMemory>
    requires { IsPart part.now }
    ensures { OnOk result (ops.new.items ≡ ops.old.items ++ copied_in part.now) }
{
    if is_bounced(part) {
        push_copies(ops, part.buffer, part.device)?;
    }
    Ok(())
}

/// Adds the write-back of the blocks of a part: a clean where the device only reads them, else a flush.
#[tactic(auto, unfolding(crate::specs::Plans::written_back))]
fn write_back(
    ops: &mut Vec<HartOp>,
    e: &Effects,
    block_size: u32,
    part: &Part,
) -> Result<(), NoMemory>
    requires size { IsBlockSize block_size }
    requires part { IsPart part.now }
    ensures { OnOk result (ops.new.items ≡ ops.old.items ++ written_back e.now block_size part.now) }
{
    push_cbos(ops, lend_op(e, part.dir), block_size, part.device)
}

/// Adds the drop of the blocks of a part that the device may have written.
#[tactic(auto, unfolding(crate::specs::Plans::dropped))]
fn drop_blocks(
    ops: &mut Vec<HartOp>,
    e: &Effects,
    block_size: u32,
    part: &Part,
) -> Result<(), NoMemory>
    requires size { IsBlockSize block_size }
    requires part { IsPart part.now }
    ensures { OnOk result (ops.new.items ≡ ops.old.items ++ dropped e.now block_size part.now) }
{
    if comes_back(part.dir) {
        push_cbos(
            ops,
            e.inval.unwrap_or(CboOp::Inval),
            block_size,
            part.device,
        )?;
    }
    Ok(())
}

/// Adds the copy of a bounced part that the device may have written out of its slot.
#[tactic(auto, unfolding(crate::specs::Plans::copied_back))]
fn copy_back(ops: &mut Vec<HartOp>, part: &Part) -> Result<(), NoMemory>
    requires { IsPart part.now }
    ensures { OnOk result (ops.new.items ≡ ops.old.items ++ copied_back part.now) }
{
    if comes_back(part.dir) && is_bounced(part) {
        push_copies(ops, part.device, part.buffer)?;
    }
    Ok(())
}

/// Returns the operation that the hart performs to write a block back.
fn lend_op(e: &Effects, dir: Dir) -> CboOp
    ensures { result ≡ lend_op e.now dir }
{
    match dir {
        Dir::ToDev => e.clean.unwrap_or(CboOp::Clean),
        Dir::Both | Dir::FromDev => e.flush.unwrap_or(CboOp::Flush),
    }
}

/// Adds to `ops` a cache operation on each block of a span, ascending. `block_size` is in bytes.
///
/// # Errors
///
/// `NoMemory` where memory runs out; the contents of `ops` are then unspecified.
pub fn push_cbos(
    ops: &mut Vec<HartOp>,
    op: CboOp,
    block_size: u32,
    span: Span,
) -> Result<(), NoMemory>
    requires size { IsBlockSize block_size }
    requires ends { span.at + span.len < 2 ^ 32 }
    ensures { OnOk result (ops.new.items ≡ ops.old.items ++ cbos op block_size span) }
{
    if span.len == 0 {
        return Ok(());
    }
    for block in span.at / block_size..(span.at + span.len - 1) / block_size + 1 {
        push(
            ops,
            HartOp::Cbo {
                op,
                block: Block(block),
            },
        )?;
    }
    Ok(())
}

/// Adds the copy of a span, piece by piece: each piece is loaded, and stored as far from the start of `to` as it lies
/// from the start of `from`.
#[tactic(auto, using(crate::proofs::PieceLaws::piece_rules))]
fn push_copies(ops: &mut Vec<HartOp>, from: Span, to: Span) -> Result<(), NoMemory>
    requires from { from.at + from.len < 2 ^ 32 }
    requires to { to.at + to.len < 2 ^ 32 }
    requires length { from.len ≡ to.len }
    ensures { OnOk result (ops.new.items ≡ ops.old.items ++ copies from to) }
{
    let mut left = from;
    while 0 < left.len {
        let piece = first_piece(left);
        push_copy(ops, piece, from.at, to.at)?;
        left = Span {
            at: left.at + piece.len,
            len: left.len - piece.len,
        };
    }
    Ok(())
}

/// Adds the copy of a piece: it is loaded, and stored as far from the place `to` as it lies from the place `from`.
fn push_copy(ops: &mut Vec<HartOp>, piece: Span, from: u32, to: u32) -> Result<(), NoMemory>
    requires after { from ≤ piece.at }
    requires room { to + (piece.at - from) < 2 ^ 32 }
    ensures { OnOk result (ops.new.items ≡ ops.old.items ++ copy_piece from to piece) }
{
    push(
        ops,
        HartOp::Load {
            span: piece,
            kind: MemType::Pma,
        },
    )?;
    push(
        ops,
        HartOp::Store {
            span: Span {
                at: to + (piece.at - from),
                len: piece.len,
            },
            kind: MemType::Pma,
            bytes: Payload::Last,
        },
    )
}

/// Adds to `ops` a full fence, FENCE iorw, iorw (RISC-V).
///
/// # Errors
///
/// `NoMemory` where memory runs out; the contents of `ops` are then unspecified.
pub fn push_full(ops: &mut Vec<HartOp>) -> Result<(), NoMemory>
    ensures { OnOk result (ops.new.items ≡ ops.old.items ++ full ∷ []) }
{
    push(ops, HartOp::Fence { pred: 15, succ: 15 })
}

/// Adds an operation.
fn push(ops: &mut Vec<HartOp>, op: HartOp) -> Result<(), NoMemory>
    ensures { OnOk result (ops.new.items ≡ ops.old.items ++ op ∷ []) }
{
    // The prover looks for the types inside an operation among those that the function names.
    let _inside = Payload::Last;
    ops.push(op)?;
    Ok(())
}
