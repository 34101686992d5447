//! The reading of a scenario from bytes.

ghost use Rattle.std.specs.Prelude.{◌≡◌, ◌≤◌, ◌<◌, ◌*◌, ◌/◌, IfOk, OnOk, All, length, option_map};
ghost use Rattle.serde_json.specs.Find.{get};
ghost use Rattle.serde_json.specs.View.{view, items_view};
ghost use Rattle.nc_scen.specs.Accepted.{FitsHart, IsAccepted};
ghost use Rattle.nc_scen.specs.Fits.{FitsLand, HasRegionsApart};
ghost use Rattle.nc_values.specs.Outcomes.{Gives};
ghost use Rattle.nc_scen.specs.Parts.{finish_or_true, limit_in, limit_or_default};
ghost use Rattle.nc_scen.specs.Reading.{land_of, apart, terms_of, harts_known, harts_of, scenario_of, reading};

use crate::format::read_format;
use crate::harts::{check_harts, read_harts};
use crate::keys::{Keys, check_keys};
use crate::overlap::{first_overlap, regions};
use crate::regions::{
    Region, RegionKind, least_reach, read_buffers, read_ram, read_reach, read_words, region_or_none,
};
use crate::scenario::{BufferSpecs, HartSpecs, Scenario, Words};
use crate::schedule::{MOST_EVENTS, check_schedule, read_schedule};
use nc_num::Span;
use nc_ops::Counts;
use nc_values::{Path, Refused, ScenFault, Wrong, list_at, most, number, placed, truth, value_of};
use serde_json::Value;
use std::alloc::Global;

const MOST_BYTES: usize = 8_388_608;

/// The page table, the regions of RAM, and the reach of each channel.
#[derive(Debug, Drop)]
pub struct Land {
    /// The page table.
    pub ptes: Words,
    /// The buffers.
    pub buffers: BufferSpecs,
    /// The slots.
    pub slots: Region,
    /// The pool.
    pub pool: Region,
    /// The reach of each channel.
    pub reach: [u32; 4],
}

#[tactic(auto, unfolding(crate::specs::Reading::land_of))]
fn read_land(alloc: Global, ram: u32, harts: u8, value: &Value) -> Result<Land, ScenFault>
    ensures gives { Gives (λ l. l) result (land_of ram harts (view value.now)) }
    ensures fits { IfOk result (FitsLand ram harts) }
{
    let ptes = read_words(alloc, ram, value.get("ptes"))?;
    let items = list_at(alloc, value, &Path::root(alloc), "buffers", 0, 64)?;
    let buffers = read_buffers(alloc, ram, harts, items)?;
    let slots = region_or_none(alloc, RegionKind::Slots, ram, value.get("slots"))?;
    let pool = region_or_none(alloc, RegionKind::Pool, ram, value.get("pool"))?;
    let least = least_reach(slots, pool, ram);
    let reach = read_reach(alloc, least, ram, value.get("reach"))?;
    Ok(Land {
        ptes: Words::new(ptes),
        buffers: BufferSpecs::new(buffers),
        slots,
        pool,
        reach,
    })
}

/// Returns whether finishing rounds follow; they do where the scenario has no such key.
fn finish_or_true(alloc: Global, value: Option<&Value>) -> Result<bool, ScenFault>
    ensures { Gives (λ b. b) result (finish_or_true (option_map (λ v. view v.now) value.entry)) }
{
    let Some(value) = value else {
        return Ok(true);
    };
    placed(alloc, truth(value), &Path::root(alloc), "finish")
}

fn limit_in(value: &Value) -> Result<u64, Wrong>
    ensures value { result ≡ limit_in (view value.now) }
    ensures most { IfOk result (λ n. n ≤ 400000) }
{
    most(number(value)?, MOST_EVENTS)
}

/// Returns how many events are tried at most; 100,000 where the scenario has no such key.
fn limit_or_default(alloc: Global, value: Option<&Value>) -> Result<u64, ScenFault>
    ensures gives { Gives (λ n. n) result (limit_or_default (option_map (λ v. view v.now) value.entry)) }
    ensures most { IfOk result (λ n. n ≤ 400000) }
{
    let Some(value) = value else {
        return Ok(100_000);
    };
    placed(alloc, limit_in(value), &Path::root(alloc), "limit")
}

/// Tests that no two regions share a byte.
fn check_apart(alloc: Global, land: &Land) -> Result<(), ScenFault>
    requires few { length land.now.buffers ≤ 64 }
    requires slots_few { land.now.slots.count ≤ 64 }
    requires pages_few { land.now.pool.count ≤ 64 }
    ensures gives { Gives (λ u. u) result (apart land.now) }
    ensures apart { OnOk result (HasRegionsApart land.now) }
{
    let slots = Span {
        at: land.slots.at,
        len: RegionKind::Slots.unit() * land.slots.count,
    };
    let pool = Span {
        at: land.pool.at,
        len: RegionKind::Pool.unit() * land.pool.count,
    };
    let all = regions(alloc, land.buffers.as_slice(), slots, pool)?;
    match first_overlap(&all) {
        None => Ok(()),
        Some((i, j)) => Err(ScenFault::Refused(Refused::Overlap(i as u32, j as u32))),
    }
}

/// How a run ends.
#[derive(Clone, Copy, Debug, PartialEq, Eq)]
pub struct Terms {
    /// Whether finishing rounds follow the schedule.
    pub finish: bool,
    /// How many events are tried at most.
    pub limit: u64,
}

/// Returns how a run ends.
#[tactic(auto, unfolding(crate::specs::Reading::terms_of))]
fn read_terms(alloc: Global, value: &Value) -> Result<Terms, ScenFault>
    ensures gives { Gives (λ t. t) result (terms_of (view value.now)) }
    ensures most { IfOk result (λ t. t.limit ≤ 400000) }
{
    let finish = finish_or_true(alloc, value.get("finish"))?;
    let limit = limit_or_default(alloc, value.get("limit"))?;
    Ok(Terms { finish, limit })
}

/// Returns the values of the harts, which are tested except for their operations.
fn known_harts(alloc: Global, value: &Value) -> Result<&Vec<Value>, ScenFault>
    ensures gives { Gives (λ v. items_view v.now.items) result (harts_known (view value.now)) }
    ensures least { IfOk result (λ v. 1 ≤ length v.now.items) }
    ensures most { IfOk result (λ v. length v.now.items ≤ 4) }
{
    let items = list_at(alloc, value, &Path::root(alloc), "harts", 1, 4)?;
    check_harts(alloc, items)?;
    Ok(items)
}

/// Returns the harts with their operations.
#[tactic(auto, using(nc_values::proofs::Items::items_len_view))]
fn harts_of(alloc: Global, land: &Land, items: &[Value]) -> Result<HartSpecs, ScenFault>
    requires few { length items.now ≤ 4 }
    requires buffers_few { length land.now.buffers ≤ 64 }
    ensures gives { Gives (λ h. h) result (harts_of land.now (items_view items.now)) }
    ensures fits { IfOk result (λ h. All (FitsHart (length items.now) (length land.now.buffers)) h) }
    ensures same { IfOk result (λ h. length h ≡ length items.now) }
{
    let counts = Counts {
        harts: items.len() as u8,
        buffers: land.buffers.as_slice().len() as u8,
    };
    let harts = read_harts(alloc, counts, items)?;
    Ok(HartSpecs::new(harts))
}

#[tactic(auto, using(nc_values::proofs::Items::items_len_view), unfolding(crate::specs::Reading::scenario_of))]
fn read_scenario(alloc: Global, value: &Value) -> Result<Scenario, ScenFault>
    ensures gives { Gives (λ sc. sc) result (scenario_of (view value.now)) }
    ensures accepted { IfOk result IsAccepted }
{
    check_keys(alloc, value, Keys::Top, &Path::root(alloc))?;
    let format = read_format(alloc, value)?;
    let ram = read_ram(alloc, value)?;
    let items = known_harts(alloc, value)?;
    let count = items.len() as u8;
    let land = read_land(alloc, ram, count, value)?;
    check_schedule(alloc, value)?;
    let terms = read_terms(alloc, value)?;
    check_apart(alloc, &land)?;
    let harts = harts_of(alloc, &land, items)?;
    let plan = read_schedule(alloc, count, ram / format.block_size, value)?;
    Ok(Scenario {
        version: format.version,
        block_size: format.block_size,
        zero_size: format.zero_size,
        light: format.light,
        ram,
        harts,
        ptes: land.ptes,
        buffers: land.buffers,
        slots_at: land.slots.at,
        slots: land.slots.count,
        pool_at: land.pool.at,
        pages: land.pool.count,
        reach: land.reach,
        plan,
        finish: terms.finish,
        limit: terms.limit,
    })
}

/// Returns the scenario that the bytes are, which is then accepted (`specs/Accepted.antt`).
///
/// # Errors
///
/// `Refused` with the first refusal: of length, JSON, keys, values, regions, operations and tokens, in this order.
/// `NoMemory` where memory runs out.
#[tactic(auto, unfolding(crate::specs::Reading::reading))]
pub fn read(alloc: Global, bytes: &[u8]) -> Result<Scenario, ScenFault>
    ensures gives { Gives (λ sc. sc) result (reading bytes.now) }
    ensures accepted { IfOk result IsAccepted }
{
    if bytes.len() > MOST_BYTES {
        return Err(ScenFault::Refused(Refused::TooLong));
    }
    let value = value_of(alloc, bytes)?;
    read_scenario(alloc, &value)
}
