//! The arguments of operations: first their shapes, then their limits.

ghost use Rattle.std.specs.Prelude.{◌≡◌, ◌<◌, ◌≤◌, IfOk, All, length};
ghost use Rattle.serde_json.specs.View.{view, items_view};
ghost use Rattle.nc_ops.specs.Fits.{FitsSpot, FitsBus, FitsEntry};
ghost use Rattle.nc_values.specs.Outcomes.{GivesOp, each, check_each};
ghost use Rattle.nc_ops.specs.Operations.{spot_of, spot_there, bus_of, bus_there, hex_of, few_bytes, entry_numbers, entry_of, few_entries};

use crate::ops::{BusArg, HexBytes, SgEntries, SgEntry, Spot};
use crate::texts::{BusText, SpotText, bus_in, spot_in};
use hex::FromHexError;
use nc_values::{OpFault, Wrong, below, label, list, number, text, wide};
use serde_json::Value;
use std::alloc::Global;

/// The counts of harts and buffers of a scenario.
#[derive(Clone, Copy, Debug, PartialEq, Eq)]
pub struct Counts {
    /// The harts, 1 to 4.
    pub harts: u8,
    /// The buffers, 0 to 64.
    pub buffers: u8,
}

/// Returns what a load or a store names by its text.
///
/// # Errors
///
/// `Shape` where the value is no such text.
pub fn spot_text(value: &Value) -> Result<SpotText, Wrong>
    ensures { result ≡ spot_of (view value.now) }
{
    match spot_in(text(value)?.as_bytes()) {
        Some(spot) => Ok(spot),
        None => Err(Wrong::Shape),
    }
}

/// Returns what a load or a store names, in a scenario of `buffers` buffers.
///
/// # Errors
///
/// `Limit` with the number where no such buffer exists, or the label is above 999.
pub fn spot_there(spot: SpotText, buffers: u8) -> Result<Spot, Wrong>
    ensures value { result ≡ spot_there buffers spot }
    ensures fits { IfOk result (FitsSpot buffers) }
{
    match spot {
        SpotText::Buffer(n) => Ok(Spot::Buffer(below(n, buffers)?)),
        SpotText::Area(n) => Ok(Spot::Area(label(n)?)),
        SpotText::Virtual => Ok(Spot::Virtual),
    }
}

/// Returns what a channel's address names, by its number or text.
///
/// # Errors
///
/// `Shape` where the value is neither.
pub fn bus_text(value: &Value) -> Result<BusText, Wrong>
    ensures { result ≡ bus_of (view value.now) }
{
    if let Some(n) = value.as_u64() {
        return Ok(BusText::At(n));
    }
    match bus_in(text(value)?.as_bytes()) {
        Some(bus) => Ok(bus),
        None => Err(Wrong::Shape),
    }
}

/// Returns a channel's address whose label is at most 999 and whose segment is below 2^32.
///
/// # Errors
///
/// `Limit` with the first number that is out of range.
pub fn bus_there(bus: BusText) -> Result<BusArg, Wrong>
    ensures value { result ≡ bus_there bus }
    ensures fits { IfOk result FitsBus }
{
    match bus {
        BusText::At(n) => Ok(BusArg::At(n)),
        BusText::Map(n) => Ok(BusArg::Map(label(n)?)),
        BusText::Segment(n, s) => {
            let of = label(n)?;
            Ok(BusArg::Segment(of, wide(s)?))
        }
        BusText::Area(n) => Ok(BusArg::Area(label(n)?)),
    }
}

/// Returns the bytes that a hexadecimal text writes, two digits each, of either case.
///
/// # Errors
///
/// `Wrong` with `Shape` where the value is no such text; `NoMemory` where memory runs out.
pub fn hex_bytes(alloc: Global, value: &Value) -> Result<HexBytes, OpFault>
    ensures gives { GivesOp (λ b. b) result (hex_of (view value.now)) }
    ensures bytes { IfOk result (λ b. All (λ x. x < 256) b) }
{
    match hex::decode(alloc, text(value)?.as_bytes()) {
        Ok(bytes) => Ok(HexBytes::new(bytes)),
        Err(FromHexError::OutOfMemory) => Err(OpFault::NoMemory),
        Err(_) => Err(OpFault::Wrong(Wrong::Shape)),
    }
}

/// Tests that the bytes are at most 4,096, and returns them.
///
/// # Errors
///
/// `Limit` with their count where they are more.
pub fn few_bytes(bytes: HexBytes) -> Result<HexBytes, Wrong>
    ensures value { result ≡ few_bytes bytes }
    ensures few { IfOk result (λ b. length b ≤ 4096) }
    ensures same { IfOk result (λ b. b ≡ bytes) }
{
    let count = bytes.as_slice().len();
    if count <= 4096 {
        Ok(bytes)
    } else {
        Err(Wrong::Limit(count as u64))
    }
}

/// Returns the three numbers of an entry of a scatter list: buffer, offset and length.
#[tactic(auto, unfolding(crate::specs::Operations::entry_numbers))]
fn entry_numbers(value: &Value) -> Result<(u64, u64, u64), Wrong>
    ensures { result ≡ entry_numbers (view value.now) }
{
    match list(value)?.as_slice() {
        [buf, off, len] => Ok((number(buf)?, number(off)?, number(len)?)),
        _ => Err(Wrong::Shape),
    }
}

/// Returns the entry of a scatter list that a value is, in a scenario of `buffers` buffers.
#[tactic(auto, unfolding(crate::specs::Operations::entry_of))]
fn entry(value: &Value, buffers: u8) -> Result<SgEntry, Wrong>
    ensures value { result ≡ entry_of buffers (view value.now) }
    ensures fits { IfOk result (FitsEntry buffers) }
{
    let (buf, off, len) = entry_numbers(value)?;
    let buf = below(buf, buffers)?;
    let off = wide(off)?;
    let len = wide(len)?;
    Ok(SgEntry { buf, off, len })
}

/// Tests that each value has the shape of an entry of a scatter list: a list of three numbers.
///
/// # Errors
///
/// `Shape` where one does not.
pub fn check_entries(items: &[Value]) -> Result<(), Wrong>
    ensures { result ≡ check_each (λ i d. entry_numbers d) 0 (items_view items.now) }
{
    for value in items {
        entry_numbers(value)?;
    }
    Ok(())
}

/// Returns the entries of a scatter list, in a scenario of `buffers` buffers.
fn entries(alloc: Global, items: &[Value], buffers: u8) -> Result<SgEntries, OpFault>
    ensures gives { GivesOp (λ e. e) result (each (λ i d. entry_of buffers d) 0 (items_view items.now)) }
    ensures fits { IfOk result (λ e. All (FitsEntry buffers) e) }
    ensures same { IfOk result (λ e. length e ≡ length items.now) }
{
    let mut read = Vec::new(alloc);
    for value in items {
        let entry = entry(value, buffers)?;
        read.push(entry)?;
    }
    Ok(SgEntries::new(read))
}

/// Returns the entries of a scatter list, at most 16, in a scenario of `buffers` buffers.
///
/// # Errors
///
/// `Wrong` with `Limit` and the count where they are more than 16, or with what is wrong with the first wrong entry;
/// `NoMemory` where memory runs out.
#[tactic(auto, using(nc_values::proofs::Items::items_len_view))]
pub fn few_entries(alloc: Global, items: &[Value], buffers: u8) -> Result<SgEntries, OpFault>
    ensures gives { GivesOp (λ e. e) result (few_entries buffers (items_view items.now)) }
    ensures fits { IfOk result (λ e. All (FitsEntry buffers) e) }
    ensures few { IfOk result (λ e. length e ≤ 16) }
{
    if items.len() > 16 {
        return Err(OpFault::Wrong(Wrong::Limit(items.len() as u64)));
    }
    entries(alloc, items, buffers)
}
