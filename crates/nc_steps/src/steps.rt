//! Steps by their index.

ghost use Rattle.std.specs.Prelude.{◌≡◌, ◌+◌, ◌≤◌, ◌<◌, ◌^◌, length};
ghost use Rattle.nc_plan.specs.Accesses.{found, load_step, range, store_step};
ghost use Rattle.nc_plan.specs.Registers.{regs_step};
ghost use Rattle.nc_steps.specs.Mapped.{IsFindable, IsMapped, placed};
ghost use Rattle.nc_num.specs.Memory.{span};

use crate::pieces::nth_piece;
use nc_num::{Bytes, ChanNo, MemType, Place, Span};
use nc_plan::{At, HartOp, IoTarget, Payload};
use nc_pte::{PageFault, translate};

/// Returns the places, or the virtual addresses, of an access of `len` bytes.
fn range(to: At, len: u32) -> Span
    ensures { result ≡ range to len }
{
    match to {
        At::Ram { at, .. } | At::Virtual { va: at } => Span { at, len },
    }
}

/// Returns the operation of step `n`, counted from 0, of a load of `len` bytes, or None where the load has no such
/// step.
///
/// # Errors
///
/// `PageFault` where the virtual address of the piece is not translated (RISC-V Privileged Architecture, Svpbmt).
#[tactic(auto, unfolding(nc_plan::specs::Accesses::load_step))]
pub fn load_step(
    to: At,
    pbmte: bool,
    table: &[u64],
    len: u32,
    n: u32,
) -> Result<Option<HartOp>, PageFault>
    requires ends { (range to len).at + len < 2 ^ 32 }
    requires mapped { IsMapped 1048576 to table.now len }
    ensures { result ≡ load_step to pbmte table.now len n }
{
    let Some(piece) = nth_piece(range(to, len), n) else {
        return Ok(None);
    };
    let (kind, span) = placed(to, pbmte, table, piece)?;
    Ok(Some(HartOp::Load { span, kind }))
}

/// Returns the operation of step `n`, counted from 0, of a store of these bytes, or None where the store has no such
/// step. Each piece has its part of the bytes.
///
/// # Errors
///
/// `PageFault` as for a load.
#[tactic(auto, unfolding(nc_plan::specs::Accesses::store_step))]
pub fn store_step(
    to: At,
    pbmte: bool,
    table: &[u64],
    bytes: &[u8],
    n: u32,
) -> Result<Option<HartOp>, PageFault>
    requires ends { (range to (length bytes.now)).at + length bytes.now < 2 ^ 32 }
    requires mapped { IsMapped 1048576 to table.now (length bytes.now) }
    ensures { result ≡ store_step to pbmte table.now bytes.now n }
{
    let range = range(to, bytes.len() as u32);
    let Some(piece) = nth_piece(range, n) else {
        return Ok(None);
    };
    let (kind, span) = placed(to, pbmte, table, piece)?;
    let given = part(bytes, piece.at - range.at, piece.len);
    Ok(Some(HartOp::Store {
        span,
        kind,
        bytes: Payload::Given(given),
    }))
}

/// Returns store `n`, counted from 0, of the four that set a channel up: NextConfig, NextBytes, NextDestination and
/// NextSource, or None from 4 on. The names of the registers are after the SiFive FU540 PDMA; offsets, widths and order
/// are this project's own.
///
/// `src` and `dst` are bus addresses, and `len` is in bytes.
pub fn regs_step(chan: ChanNo, src: u64, dst: u64, len: u64, cfg: u32, n: u32) -> Option<HartOp>
    ensures { result ≡ regs_step chan src dst len cfg n }
{
    let (off, width, value) = match n {
        0 => (0x004, 4, u64::from(cfg)),
        1 => (0x008, 8, len),
        2 => (0x010, 8, dst),
        3 => (0x018, 8, src),
        _ => return None,
    };
    Some(HartOp::IoStore(IoTarget::Reg {
        chan,
        off,
        width,
        value,
    }))
}

/// Returns the type and the places of a piece, both by its first byte.
fn placed(to: At, pbmte: bool, table: &[u64], piece: Span) -> Result<(MemType, Span), PageFault>
    requires { IsFindable to table.now piece.at }
    ensures { result ≡ placed (found to pbmte table.now piece.at) piece.len }
{
    let (kind, place) = match to {
        At::Ram { kind, .. } => (kind, Place(piece.at)),
        At::Virtual { .. } => translate(pbmte, table, piece.at)?,
    };
    let span = Span {
        at: place.0,
        len: piece.len,
    };
    Ok((kind, span))
}

/// Returns `len` of the bytes, from index `from` on.
#[tactic(auto, unfolding(nc_num::specs::Memory::span))]
fn part(bytes: &[u8], from: u32, len: u32) -> Bytes
    requires within { from + len ≤ length bytes.now }
    requires short { len ≤ 8 }
    ensures { result ≡ span bytes.now from len }
{
    Bytes::of(&bytes[from as usize..][..len as usize])
}
