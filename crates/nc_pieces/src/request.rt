//! The reading of a request.

ghost use Rattle.std.specs.Prelude.{◌≡◌, ◌≤◌, ◌+◌, ◌*◌, ◌%◌, IfOk, MatchResult, Ok, Err, All, length, codes, nat_le, ◌&&◌};
ghost use Rattle.serde_json.specs.View.{view, items_view, members_view};
ghost use Rattle.nc_values.specs.Outcomes.{GivesOp, each};
ghost use Rattle.nc_values.specs.Values.{sized_of, got};
ghost use Rattle.nc_pieces.specs.Requests.{FitsOp, FitsRequest};
ghost use Rattle.nc_pieces.specs.Reading.{knows, knows_all, keyed, op_named, op_with, op_of, start_of, pages_from, wide_of, request_of};

use nc_values::{OpFault, Wrong, field, list, most, number, sized, text};
use serde_json::{Map, Value};
use std::alloc::Global;
use std::marker::Model;

/// An operation of the command, with its label, 0 to 999.
#[derive(Clone, Copy, Debug, PartialEq, Eq)]
pub enum PieceOp {
    /// The label gets a piece.
    Alloc(u32),
    /// The label's piece is given back.
    Free(u32),
}

/// A request: the pages, the layout of the pool, and at most 4,096 operations.
#[derive(Drop)]
pub struct Request {
    pub(crate) at: u32,
    pub(crate) pages: u32,
    pub(crate) size: u32,
    pub(crate) align: u32,
    pub(crate) boundary: u32,
    pub(crate) ops: Vec<PieceOp>,
}

impl Model for Request {
    ghost use Rattle.nc_pieces.specs.Requests.{Request as Asked, FitsRequest};

    ghost Value = { Asked };

    ghost view = { λ r. record { at = r.at; pages = r.pages; size = r.size; align = r.align; boundary = r.boundary; ops = r.ops.items } };

    ghost invariant = { λ r. FitsRequest (record { at = r.at; pages = r.pages; size = r.size; align = r.align; boundary = r.boundary; ops = r.ops.items }) };
}

/// Returns whether a request may have a key.
fn knows(key: &str) -> bool
    ensures { result ≡ knows key.now }
{
    key == "at"
        || key == "pages"
        || key == "size"
        || key == "align"
        || key == "boundary"
        || key == "ops"
}

/// Returns whether a request has no other keys.
fn knows_all(members: &Map<String, Value>) -> bool
    ensures { result ≡ knows_all (members_view members.now.entries) }
{
    for (key, _) in members {
        if !knows(key.as_str()) {
            return false;
        }
    }
    true
}

/// Tests that a value is an object with no other keys than the six.
fn check_keys(value: &Value) -> Result<(), Wrong>
    ensures { result ≡ keyed (view value.now) }
{
    let Some(members) = value.as_object() else {
        return Err(Wrong::Shape);
    };
    if knows_all(members) {
        Ok(())
    } else {
        Err(Wrong::Shape)
    }
}

/// Returns the operation of a name and a label.
fn named(name: &str, label: u32) -> Result<PieceOp, Wrong>
    requires { label ≤ 999 }
    ensures value { result ≡ op_named name.now label }
    ensures fits { IfOk result FitsOp }
{
    match name {
        "alloc" => Ok(PieceOp::Alloc(label)),
        "free" => Ok(PieceOp::Free(label)),
        _ => Err(Wrong::Shape),
    }
}

fn read_with(name: &Value, label: &Value) -> Result<PieceOp, Wrong>
    ensures value { result ≡ op_with (view name.now) (view label.now) }
    ensures fits { IfOk result FitsOp }
{
    let name = text(name)?;
    let label = most(number(label)?, 999)? as u32;
    named(name, label)
}

/// Returns the operation that a value is.
fn read_op(value: &Value) -> Result<PieceOp, Wrong>
    ensures value { result ≡ op_of (view value.now) }
    ensures fits { IfOk result FitsOp }
{
    match list(value)?.as_slice() {
        [name, label] => read_with(name, label),
        _ => Err(Wrong::Shape),
    }
}

fn read_ops(alloc: Global, items: &[Value]) -> Result<Vec<PieceOp>, OpFault>
    ensures gives { GivesOp (λ v. v.items) result (each (λ i d. op_of d) 0 (items_view items.now)) }
    ensures fits { IfOk result (λ v. All FitsOp v.items) }
    ensures same { IfOk result (λ v. length v.items ≡ length items.now) }
{
    let mut ops = Vec::new(alloc);
    for value in items {
        let op = read_op(value)?;
        ops.push(op)?;
    }
    Ok(ops)
}

/// Returns the place at which the pages start, a multiple of 4,096.
fn start_field(value: &Value) -> Result<u64, Wrong>
    ensures value { result ≡ got start_of (codes "at") (view value.now) }
    ensures whole { IfOk result (λ n. n % 4096 ≡ 0) }
{
    let at = number(field(value, "at")?)?;
    if at % 4096 == 0 {
        Ok(at)
    } else {
        Err(Wrong::Limit(at))
    }
}

/// Returns whether `pages` pages from place `at` on are at most 64, and end at 1,048,576 at most.
fn has_pages(at: u64, pages: u64) -> bool
    ensures { result ≡ (nat_le pages 64 && nat_le (at + 4096 * pages) 1048576) }
{
    pages <= 64 && at <= 1_048_576 && at + 4096 * pages <= 1_048_576
}

/// Returns the number of pages, at most 64, which end at 1,048,576 at most.
fn pages_field(value: &Value, at: u64) -> Result<u64, Wrong>
    ensures value { result ≡ got (pages_from at) (codes "pages") (view value.now) }
    ensures ends { IfOk result (λ n. at + 4096 * n ≤ 1048576) }
{
    let pages = number(field(value, "pages")?)?;
    if has_pages(at, pages) {
        Ok(pages)
    } else {
        Err(Wrong::Limit(pages))
    }
}

/// Returns the number of a key, below 2^32.
fn wide_field(value: &Value, key: &str) -> Result<u32, Wrong>
    ensures { result ≡ got wide_of key.now (view value.now) }
{
    let n = number(field(value, key)?)?;
    Ok(most(n, 4_294_967_295)? as u32)
}

/// Returns the values of the operations, at most 4,096.
fn op_items(value: &Value) -> Result<&Vec<Value>, Wrong>
    ensures { MatchResult result (λ v. (got (sized_of 0 4096) (codes "ops") (view value.now) ≡ Ok (items_view v.now.items)) × (length v.now.items ≤ 4096)) (λ e. got (sized_of 0 4096) (codes "ops") (view value.now) ≡ Err e) }
{
    sized(field(value, "ops")?, 0, 4096)
}

/// Returns the request that a value is.
///
/// # Errors
///
/// `Wrong` with what is wrong with the value; `NoMemory` where memory runs out.
#[tactic(auto, unfolding(crate::specs::Reading::request_of))]
pub fn read_request(alloc: Global, value: &Value) -> Result<Request, OpFault>
    ensures { GivesOp (λ r. r) result (request_of (view value.now)) }
{
    check_keys(value)?;
    let at = start_field(value)?;
    let pages = pages_field(value, at)?;
    let size = wide_field(value, "size")?;
    let align = wide_field(value, "align")?;
    let boundary = wide_field(value, "boundary")?;
    let items = op_items(value)?;
    let ops = read_ops(alloc, items)?;
    Ok(Request {
        at: at as u32,
        pages: pages as u32,
        size,
        align,
        boundary,
        ops,
    })
}
