//! The operations of a script.

ghost use Rattle.std.specs.Prelude.{◌≡◌, ℕ, IfOk};
ghost use Rattle.serde_json.specs.View.{view, items_view};
ghost use Rattle.nc_ops.specs.Fits.{FitsOp};
ghost use Rattle.nc_values.specs.Outcomes.{GivesOp};
ghost use Rattle.nc_ops.specs.Operations.{ld_of, st_of, cbo_op, fence_of, map_of, map_sg_of, unmap_sg_of, calloc_of, hand_of, regs_of, regr_of, regw_of, copy_of, label_op, op_1, op_2, op_3, op_4, op_5, op_6, op_7, op_named, op_of};

use crate::arguments::{
    Counts, bus_text, bus_there, check_entries, few_bytes, few_entries, hex_bytes, spot_text,
    spot_there,
};
use crate::ops::Op;
use nc_values::{
    OpFault, Wrong, below, cbo_kind, chan, dir, hart, label, list, most, number, once, text, wide,
};
use serde_json::Value;
use std::alloc::Global;

#[tactic(auto, unfolding(crate::specs::Operations::ld_of))]
fn read_ld(counts: Counts, spot: &Value, off: &Value, len: &Value) -> Result<Op, Wrong>
    ensures value { result ≡ ld_of counts (view spot.now) (view off.now) (view len.now) }
    ensures fits { IfOk result (FitsOp counts.harts counts.buffers) }
{
    let spot = spot_text(spot)?;
    let off = number(off)?;
    let len = number(len)?;
    let spot = spot_there(spot, counts.buffers)?;
    let off = wide(off)?;
    let len = most(len, 4096)? as u32;
    Ok(Op::Ld { spot, off, len })
}

#[tactic(auto, unfolding(crate::specs::Operations::st_of))]
fn read_st(
    alloc: Global,
    counts: Counts,
    spot: &Value,
    off: &Value,
    bytes: &Value,
) -> Result<Op, OpFault>
    ensures gives { GivesOp (λ o. o) result (st_of counts (view spot.now) (view off.now) (view bytes.now)) }
    ensures fits { IfOk result (FitsOp counts.harts counts.buffers) }
{
    let spot = spot_text(spot)?;
    let off = number(off)?;
    let bytes = hex_bytes(alloc, bytes)?;
    let spot = spot_there(spot, counts.buffers)?;
    let off = wide(off)?;
    let bytes = few_bytes(bytes)?;
    Ok(Op::St { spot, off, bytes })
}

#[tactic(auto, unfolding(crate::specs::Operations::cbo_op))]
fn read_cbo(counts: Counts, op: &Value, buf: &Value, off: &Value) -> Result<Op, Wrong>
    ensures value { result ≡ cbo_op counts (view op.now) (view buf.now) (view off.now) }
    ensures fits { IfOk result (FitsOp counts.harts counts.buffers) }
{
    let op = cbo_kind(op)?;
    let buf = number(buf)?;
    let off = number(off)?;
    let buf = below(buf, counts.buffers)?;
    let off = wide(off)?;
    Ok(Op::Cbo { op, buf, off })
}

#[tactic(auto, unfolding(crate::specs::Operations::fence_of))]
fn read_fence(pred: &Value, succ: &Value) -> Result<Op, Wrong>
    ensures value { result ≡ fence_of (view pred.now) (view succ.now) }
    ensures fits { (harts buffers : ℕ) → IfOk result (FitsOp harts buffers) }
{
    let pred = number(pred)?;
    let succ = number(succ)?;
    let pred = most(pred, 15)? as u8;
    let succ = most(succ, 15)? as u8;
    Ok(Op::Fence { pred, succ })
}

#[tactic(auto, unfolding(crate::specs::Operations::map_of))]
fn read_map(
    counts: Counts,
    label_value: &Value,
    buf: &Value,
    off: &Value,
    len: &Value,
    dir_value: &Value,
    chan_value: &Value,
) -> Result<Op, Wrong>
    ensures value { result ≡ map_of counts (view label_value.now) (view buf.now) (view off.now) (view len.now) (view dir_value.now) (view chan_value.now) }
    ensures fits { IfOk result (FitsOp counts.harts counts.buffers) }
{
    let map_label = number(label_value)?;
    let buf = number(buf)?;
    let off = number(off)?;
    let len = number(len)?;
    let map_dir = number(dir_value)?;
    let map_chan = number(chan_value)?;
    let label = label(map_label)?;
    let buf = below(buf, counts.buffers)?;
    let off = wide(off)?;
    let len = wide(len)?;
    let dir = dir(map_dir)?;
    let chan = chan(map_chan)?;
    Ok(Op::Map {
        label,
        buf,
        off,
        len,
        dir,
        chan,
    })
}

#[tactic(auto, unfolding(crate::specs::Operations::map_sg_of))]
fn read_map_sg(
    alloc: Global,
    counts: Counts,
    label_value: &Value,
    list_value: &Value,
    dir_value: &Value,
    chan_value: &Value,
) -> Result<Op, OpFault>
    ensures gives { GivesOp (λ o. o) result (map_sg_of counts (view label_value.now) (view list_value.now) (view dir_value.now) (view chan_value.now)) }
    ensures fits { IfOk result (FitsOp counts.harts counts.buffers) }
{
    let map_label = number(label_value)?;
    let items = list(list_value)?;
    check_entries(items)?;
    let map_dir = number(dir_value)?;
    let map_chan = number(chan_value)?;
    let label = label(map_label)?;
    let entries = few_entries(alloc, items, counts.buffers)?;
    let dir = dir(map_dir)?;
    let chan = chan(map_chan)?;
    Ok(Op::MapSg {
        label,
        entries,
        dir,
        chan,
    })
}

#[tactic(auto, unfolding(crate::specs::Operations::unmap_sg_of))]
fn read_unmap_sg(label_value: &Value, count: &Value) -> Result<Op, Wrong>
    ensures value { result ≡ unmap_sg_of (view label_value.now) (view count.now) }
    ensures fits { (harts buffers : ℕ) → IfOk result (FitsOp harts buffers) }
{
    let sg_label = number(label_value)?;
    let count = number(count)?;
    let label = label(sg_label)?;
    let count = wide(count)?;
    Ok(Op::UnmapSg { label, count })
}

#[tactic(auto, unfolding(crate::specs::Operations::calloc_of))]
fn read_calloc(label_value: &Value, pages: &Value, chan_value: &Value) -> Result<Op, Wrong>
    ensures value { result ≡ calloc_of (view label_value.now) (view pages.now) (view chan_value.now) }
    ensures fits { (harts buffers : ℕ) → IfOk result (FitsOp harts buffers) }
{
    let area_label = number(label_value)?;
    let pages = number(pages)?;
    let area_chan = number(chan_value)?;
    let label = label(area_label)?;
    let pages = most(pages, 64)? as u32;
    let chan = chan(area_chan)?;
    Ok(Op::Calloc { label, pages, chan })
}

#[tactic(auto, unfolding(crate::specs::Operations::hand_of))]
fn read_hand(counts: Counts, buf: &Value, to: &Value) -> Result<Op, Wrong>
    ensures value { result ≡ hand_of counts (view buf.now) (view to.now) }
    ensures fits { IfOk result (FitsOp counts.harts counts.buffers) }
{
    let buf = number(buf)?;
    let to = number(to)?;
    let buf = below(buf, counts.buffers)?;
    let to = hart(to, counts.harts)?;
    Ok(Op::Hand { buf, to })
}

#[tactic(auto, unfolding(crate::specs::Operations::regs_of))]
fn read_regs(
    chan_value: &Value,
    src: &Value,
    dst: &Value,
    len: &Value,
    cfg: &Value,
) -> Result<Op, Wrong>
    ensures value { result ≡ regs_of (view chan_value.now) (view src.now) (view dst.now) (view len.now) (view cfg.now) }
    ensures fits { (harts buffers : ℕ) → IfOk result (FitsOp harts buffers) }
{
    let regs_chan = number(chan_value)?;
    let src = bus_text(src)?;
    let dst = bus_text(dst)?;
    let len = number(len)?;
    let cfg = number(cfg)?;
    let chan = chan(regs_chan)?;
    let src = bus_there(src)?;
    let dst = bus_there(dst)?;
    let cfg = wide(cfg)?;
    Ok(Op::Regs {
        chan,
        src,
        dst,
        len,
        cfg,
    })
}

#[tactic(auto, unfolding(crate::specs::Operations::regr_of))]
fn read_regr(chan_value: &Value, off: &Value, width: &Value) -> Result<Op, Wrong>
    ensures value { result ≡ regr_of (view chan_value.now) (view off.now) (view width.now) }
    ensures fits { (harts buffers : ℕ) → IfOk result (FitsOp harts buffers) }
{
    let reg_chan = number(chan_value)?;
    let off = number(off)?;
    let width = number(width)?;
    let chan = chan(reg_chan)?;
    let off = most(off, 4095)? as u16;
    let width = most(width, 8)? as u8;
    Ok(Op::Regr { chan, off, width })
}

#[tactic(auto, unfolding(crate::specs::Operations::regw_of))]
fn read_regw(chan_value: &Value, off: &Value, width: &Value, value: &Value) -> Result<Op, Wrong>
    ensures value { result ≡ regw_of (view chan_value.now) (view off.now) (view width.now) (view value.now) }
    ensures fits { (harts buffers : ℕ) → IfOk result (FitsOp harts buffers) }
{
    let reg_chan = number(chan_value)?;
    let off = number(off)?;
    let width = number(width)?;
    let value = number(value)?;
    let chan = chan(reg_chan)?;
    let off = most(off, 4095)? as u16;
    let width = most(width, 8)? as u8;
    Ok(Op::Regw {
        chan,
        off,
        width,
        value,
    })
}

#[tactic(auto, unfolding(crate::specs::Operations::copy_of))]
fn read_copy(
    counts: Counts,
    chan_value: &Value,
    src: &Value,
    src_off: &Value,
    dst: &Value,
    dst_off: &Value,
    len: &Value,
    cfg: &Value,
) -> Result<Op, Wrong>
    ensures value { result ≡ copy_of counts (view chan_value.now) (view src.now) (view src_off.now) (view dst.now) (view dst_off.now) (view len.now) (view cfg.now) }
    ensures fits { IfOk result (FitsOp counts.harts counts.buffers) }
{
    let copy_chan = number(chan_value)?;
    let src = number(src)?;
    let src_off = number(src_off)?;
    let dst = number(dst)?;
    let dst_off = number(dst_off)?;
    let len = number(len)?;
    let cfg = number(cfg)?;
    let chan = chan(copy_chan)?;
    let src = below(src, counts.buffers)?;
    let src_off = wide(src_off)?;
    let dst = below(dst, counts.buffers)?;
    let dst_off = wide(dst_off)?;
    let len = wide(len)?;
    let cfg = once(cfg)?;
    Ok(Op::Copy {
        chan,
        src,
        src_off,
        dst,
        dst_off,
        len,
        cfg,
    })
}

/// Reads an operation on one label.
fn read_on_label(name: &str, value: &Value) -> Result<Op, Wrong>
    ensures value { result ≡ label_op name.now (view value.now) }
    ensures fits { (harts buffers : ℕ) → IfOk result (FitsOp harts buffers) }
{
    match name {
        "unmap" => Ok(Op::Unmap(label(number(value)?)?)),
        "to_cpu" => Ok(Op::ToCpu(label(number(value)?)?)),
        "to_dev" => Ok(Op::ToDev(label(number(value)?)?)),
        "cgive" => Ok(Op::Cgive(label(number(value)?)?)),
        "ctake" => Ok(Op::Ctake(label(number(value)?)?)),
        "cfree" => Ok(Op::Cfree(label(number(value)?)?)),
        _ => Err(Wrong::Shape),
    }
}

fn read_1(counts: Counts, name: &str, a: &Value) -> Result<Op, Wrong>
    ensures value { result ≡ op_1 counts name.now (view a.now) }
    ensures fits { IfOk result (FitsOp counts.harts counts.buffers) }
{
    match name {
        "take" => Ok(Op::Take(below(number(a)?, counts.buffers)?)),
        "claim" => Ok(Op::Claim(chan(number(a)?)?)),
        "free" => Ok(Op::Free(chan(number(a)?)?)),
        "run" => Ok(Op::Run(chan(number(a)?)?)),
        "poll" => Ok(Op::Poll(chan(number(a)?)?)),
        _ => read_on_label(name, a),
    }
}

fn read_2(counts: Counts, name: &str, a: &Value, b: &Value) -> Result<Op, Wrong>
    ensures value { result ≡ op_2 counts name.now (view a.now) (view b.now) }
    ensures fits { IfOk result (FitsOp counts.harts counts.buffers) }
{
    match name {
        "fence" => read_fence(a, b),
        "unmap_sg" => read_unmap_sg(a, b),
        "hand" => read_hand(counts, a, b),
        _ => Err(Wrong::Shape),
    }
}

fn read_3(
    alloc: Global,
    counts: Counts,
    name: &str,
    a: &Value,
    b: &Value,
    c: &Value,
) -> Result<Op, OpFault>
    ensures gives { GivesOp (λ o. o) result (op_3 counts name.now (view a.now) (view b.now) (view c.now)) }
    ensures fits { IfOk result (FitsOp counts.harts counts.buffers) }
{
    match name {
        "ld" => Ok(read_ld(counts, a, b, c)?),
        "st" => read_st(alloc, counts, a, b, c),
        "cbo" => Ok(read_cbo(counts, a, b, c)?),
        "calloc" => Ok(read_calloc(a, b, c)?),
        "regr" => Ok(read_regr(a, b, c)?),
        _ => Err(OpFault::Wrong(Wrong::Shape)),
    }
}

fn read_4(
    alloc: Global,
    counts: Counts,
    name: &str,
    a: &Value,
    b: &Value,
    c: &Value,
    d: &Value,
) -> Result<Op, OpFault>
    ensures gives { GivesOp (λ o. o) result (op_4 counts name.now (view a.now) (view b.now) (view c.now) (view d.now)) }
    ensures fits { IfOk result (FitsOp counts.harts counts.buffers) }
{
    match name {
        "map_sg" => read_map_sg(alloc, counts, a, b, c, d),
        "regw" => Ok(read_regw(a, b, c, d)?),
        _ => Err(OpFault::Wrong(Wrong::Shape)),
    }
}

fn read_5(name: &str, a: &Value, b: &Value, c: &Value, d: &Value, e: &Value) -> Result<Op, Wrong>
    ensures value { result ≡ op_5 name.now (view a.now) (view b.now) (view c.now) (view d.now) (view e.now) }
    ensures fits { (harts buffers : ℕ) → IfOk result (FitsOp harts buffers) }
{
    match name {
        "regs" => read_regs(a, b, c, d, e),
        _ => Err(Wrong::Shape),
    }
}

fn read_6(
    counts: Counts,
    name: &str,
    a: &Value,
    b: &Value,
    c: &Value,
    d: &Value,
    e: &Value,
    f: &Value,
) -> Result<Op, Wrong>
    ensures value { result ≡ op_6 counts name.now (view a.now) (view b.now) (view c.now) (view d.now) (view e.now) (view f.now) }
    ensures fits { IfOk result (FitsOp counts.harts counts.buffers) }
{
    match name {
        "map" => read_map(counts, a, b, c, d, e, f),
        _ => Err(Wrong::Shape),
    }
}

fn read_7(
    counts: Counts,
    name: &str,
    a: &Value,
    b: &Value,
    c: &Value,
    d: &Value,
    e: &Value,
    f: &Value,
    g: &Value,
) -> Result<Op, Wrong>
    ensures value { result ≡ op_7 counts name.now (view a.now) (view b.now) (view c.now) (view d.now) (view e.now) (view f.now) (view g.now) }
    ensures fits { IfOk result (FitsOp counts.harts counts.buffers) }
{
    match name {
        "copy" => read_copy(counts, a, b, c, d, e, f, g),
        _ => Err(Wrong::Shape),
    }
}

/// Reads an operation by its name and its arguments.
fn read_named(alloc: Global, counts: Counts, name: &str, arguments: &[Value]) -> Result<Op, OpFault>
    ensures gives { GivesOp (λ o. o) result (op_named counts name.now (items_view arguments.now)) }
    ensures fits { IfOk result (FitsOp counts.harts counts.buffers) }
{
    match arguments {
        [a] => Ok(read_1(counts, name, a)?),
        [a, b] => Ok(read_2(counts, name, a, b)?),
        [a, b, c] => read_3(alloc, counts, name, a, b, c),
        [a, b, c, d] => read_4(alloc, counts, name, a, b, c, d),
        [a, b, c, d, e] => Ok(read_5(name, a, b, c, d, e)?),
        [a, b, c, d, e, f] => Ok(read_6(counts, name, a, b, c, d, e, f)?),
        [a, b, c, d, e, f, g] => Ok(read_7(counts, name, a, b, c, d, e, f, g)?),
        _ => Err(OpFault::Wrong(Wrong::Shape)),
    }
}

/// Returns the operation that a value is, in a scenario of as many harts and buffers as `counts` says.
///
/// # Errors
///
/// `Wrong` with what is wrong with the value; `NoMemory` where memory runs out. The shapes of the name and of all
/// arguments come before the limits of the arguments.
#[tactic(auto, unfolding(crate::specs::Operations::op_of))]
pub fn read_op(alloc: Global, counts: Counts, value: &Value) -> Result<Op, OpFault>
    ensures gives { GivesOp (λ o. o) result (op_of counts (view value.now)) }
    ensures fits { IfOk result (FitsOp counts.harts counts.buffers) }
{
    match list(value)?.as_slice() {
        [name, arguments @ ..] => read_named(alloc, counts, text(name)?, arguments),
        [] => Err(OpFault::Wrong(Wrong::Shape)),
    }
}
