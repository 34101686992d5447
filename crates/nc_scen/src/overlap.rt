//! The first two regions that share a byte.

ghost use Rattle.std.specs.Prelude.{◌≡◌, ◌<◌, ◌+◌, ◌^◌, Ok, IfSome, length};
ghost use Rattle.nc_values.specs.Outcomes.{Gives};
ghost use Rattle.nc_scen.specs.Regions.{meet, first_meeting, first_overlap, regions};

use crate::scenario::BufferSpec;
use nc_num::Span;
use nc_values::ScenFault;
use std::alloc::Global;

/// Returns whether two regions share a byte.
fn meet(a: &Span, b: &Span) -> bool
    ensures { result ≡ meet a.now b.now }
{
    0 < a.len
        && 0 < b.len
        && u64::from(a.at) < u64::from(b.at) + u64::from(b.len)
        && u64::from(b.at) < u64::from(a.at) + u64::from(a.len)
}

/// Returns the index of the first of `others` that shares a byte with a region, where their indices begin at `j`.
fn first_meeting(r: &Span, j: usize, others: &[Span]) -> Option<usize>
    requires { j + length others.now < 2 ^ 32 }
    ensures value { result ≡ first_meeting r.now j others.now }
    ensures there { IfSome result (λ k. k < j + length others.now) }
{
    for (k, s) in others.iter().enumerate() {
        if meet(r, s) {
            return Some(j + k);
        }
    }
    None
}

/// Returns the indices of the first two regions that share a byte, the lower index first, or None where no two do.
pub fn first_overlap(regions: &[Span]) -> Option<(usize, usize)>
    requires { length regions.now < 2 ^ 31 }
    ensures value { result ≡ first_overlap 0 regions.now }
    ensures first { IfSome result (λ p. p.0 < length regions.now) }
    ensures second { IfSome result (λ p. p.1 < length regions.now) }
{
    for (i, r) in regions.iter().enumerate() {
        if let Some(j) = first_meeting(r, i + 1, &regions[i + 1..]) {
            return Some((i, j));
        }
    }
    None
}

/// Returns the regions in the order of their indices: the buffers, the slots and the pool.
///
/// # Errors
///
/// `NoMemory` where memory runs out.
pub fn regions(
    alloc: Global,
    buffers: &[BufferSpec],
    slots: Span,
    pool: Span,
) -> Result<Vec<Span>, ScenFault>
    ensures { Gives (λ v. v.items) result (Ok (regions buffers.now slots pool)) }
{
    let mut all = Vec::with_capacity(alloc, buffers.len() + 2)?;
    for b in buffers {
        all.push(b.span)?;
    }
    all.push(slots)?;
    all.push(pool)?;
    Ok(all)
}
