//! The regions of RAM: buffers, slots and pool, and what channels reach.

ghost use Rattle.std.specs.Prelude.{◌≡◌, ◌<◌, ◌≤◌, ◌+◌, ◌*◌, ◌%◌, ◌/◌, ◌==◌, ◌&&◌, All, IfOk, length, codes, option_map};
ghost use Rattle.serde_json.specs.View.{view, items_view};
ghost use Rattle.nc_pte.specs.Words.{IsPteWord};
ghost use Rattle.nc_scen.specs.Accepted.{FitsBuffer};
ghost use Rattle.nc_scen.specs.Fits.{FitsRegion, Reaches};
ghost use Rattle.nc_values.specs.Outcomes.{Gives, each};
ghost use Rattle.nc_values.specs.Values.{got};
ghost use Rattle.nc_scen.specs.Parts.{ram_in, ram_of, word_at, words_or_none, ends_in, len_of, buffer_of, buffer_at, key_of, count_key, keys_of, unit_of, start_of, count_of, region_of, region_or_none, end_of, least_reach, reach_in, reach_at, reach_items, reach_or_ram};

use crate::keys::{Keys, check_keys};
use crate::scenario::BufferSpec;
use nc_num::{HartNo, Span};
use nc_values::{
    Path, Refused, ScenFault, Wrong, below_at, field, is_ram, list, number, number_at,
    number_to_at, placed, sized, word,
};
use serde_json::Value;
use std::alloc::Global;

fn ram_field(value: &Value) -> Result<u32, Wrong>
    ensures value { result ≡ got ram_in (codes "ram") (view value.now) }
    ensures whole { IfOk result (λ n. n % 4096 ≡ 0) }
    ensures some { IfOk result (λ n. 4096 ≤ n) }
    ensures small { IfOk result (λ n. n ≤ 1048576) }
{
    let n = number(field(value, "ram")?)?;
    if is_ram(n) {
        Ok(n as u32)
    } else {
        Err(Wrong::Limit(n))
    }
}

/// Returns the size of RAM in bytes: a multiple of 4,096, from 4,096 to 1,048,576.
///
/// # Errors
///
/// `Refused` with `Shape` or `Limit` at the key `ram`; `NoMemory` where memory runs out.
pub fn read_ram(alloc: Global, value: &Value) -> Result<u32, ScenFault>
    ensures gives { Gives (λ n. n) result (ram_of (view value.now)) }
    ensures whole { IfOk result (λ n. n % 4096 ≡ 0) }
    ensures some { IfOk result (λ n. 4096 ≤ n) }
    ensures small { IfOk result (λ n. n ≤ 1048576) }
{
    placed(alloc, ram_field(value), &Path::root(alloc), "ram")
}

/// Returns word `i` of the page table.
fn read_word(alloc: Global, ram: u32, value: &Value, i: usize) -> Result<u64, ScenFault>
    ensures gives { Gives (λ n. n) result (word_at ram i (view value.now)) }
    ensures valid { IfOk result (IsPteWord ram) }
{
    match word(value, ram) {
        Ok(n) => Ok(n),
        Err(w) => Err(w.at(Path::of(alloc, "ptes")?.position(alloc, i)?)),
    }
}

fn read_word_list(alloc: Global, ram: u32, items: &[Value]) -> Result<Vec<u64>, ScenFault>
    ensures gives { Gives (λ v. v.items) result (each (word_at ram) 0 (items_view items.now)) }
    ensures valid { IfOk result (λ v. All (IsPteWord ram) v.items) }
    ensures same { IfOk result (λ v. length v.items ≡ length items.now) }
{
    let mut words = Vec::new(alloc);
    for (i, value) in items.iter().enumerate() {
        let next = read_word(alloc, ram, value, i)?;
        words.push(next)?;
    }
    Ok(words)
}

/// Returns the words of the page table, at most 256 and valid for a RAM of `ram` bytes (Svpbmt); none where the
/// scenario has no such key.
///
/// # Errors
///
/// `Refused` with the first refusal; `NoMemory` where memory runs out.
pub fn read_words(alloc: Global, ram: u32, value: Option<&Value>) -> Result<Vec<u64>, ScenFault>
    ensures gives { Gives (λ v. v.items) result (words_or_none ram (option_map (λ v. view v.now) value.entry)) }
    ensures valid { IfOk result (λ v. All (IsPteWord ram) v.items) }
    ensures few { IfOk result (λ v. length v.items ≤ 256) }
{
    let Some(value) = value else {
        return Ok(Vec::new(alloc));
    };
    match sized(value, 0, 256) {
        Ok(items) => read_word_list(alloc, ram, items),
        Err(w) => Err(w.at(Path::of(alloc, "ptes")?)),
    }
}

/// Returns whether `len` bytes from place `at` on end in RAM.
fn ends_in(ram: u32, at: u64, len: u64) -> bool
    ensures { result ≡ ends_in ram at len }
{
    let ram = u64::from(ram);
    at <= ram && len <= ram - at
}

fn len_field(value: &Value, at: u64, ram: u32) -> Result<u32, Wrong>
    ensures value { result ≡ got (len_of ram at) (codes "len") (view value.now) }
    ensures some { IfOk result (λ n. 0 < n) }
    ensures short { IfOk result (λ n. n ≤ 65536) }
    ensures ends { IfOk result (λ n. at + n ≤ ram) }
{
    let len = number(field(value, "len")?)?;
    if 0 < len && len <= 65_536 && ends_in(ram, at, len) {
        Ok(len as u32)
    } else {
        Err(Wrong::Limit(len))
    }
}

#[tactic(auto, unfolding(crate::specs::Parts::buffer_of))]
fn read_buffer(
    alloc: Global,
    ram: u32,
    harts: u8,
    value: &Value,
    path: &Path,
) -> Result<BufferSpec, ScenFault>
    ensures gives { Gives (λ b. b) result (buffer_of ram harts path.now (view value.now)) }
    ensures fits { IfOk result (FitsBuffer ram harts) }
{
    check_keys(alloc, value, Keys::Buffer, path)?;
    let at = number_at(alloc, value, path, "at")?;
    let len = placed(alloc, len_field(value, at, ram), path, "len")?;
    let fill = number_to_at(alloc, value, path, "fill", 255)? as u8;
    let step = number_to_at(alloc, value, path, "step", 255)? as u8;
    let owner = below_at(alloc, value, path, "owner", harts)?;
    Ok(BufferSpec {
        span: Span { at: at as u32, len },
        fill,
        step,
        owner: HartNo(owner),
    })
}

/// Returns buffer `i`.
fn read_buffer_at(
    alloc: Global,
    ram: u32,
    harts: u8,
    value: &Value,
    i: usize,
) -> Result<BufferSpec, ScenFault>
    ensures gives { Gives (λ b. b) result (buffer_at ram harts i (view value.now)) }
    ensures fits { IfOk result (FitsBuffer ram harts) }
{
    let path = Path::of(alloc, "buffers")?.position(alloc, i)?;
    read_buffer(alloc, ram, harts, value, &path)
}

/// Returns the buffers of a scenario of `harts` harts and a RAM of `ram` bytes, in order.
///
/// # Errors
///
/// `Refused` with the first refusal; `NoMemory` where memory runs out.
pub fn read_buffers(
    alloc: Global,
    ram: u32,
    harts: u8,
    items: &[Value],
) -> Result<Vec<BufferSpec>, ScenFault>
    ensures gives { Gives (λ v. v.items) result (each (buffer_at ram harts) 0 (items_view items.now)) }
    ensures fits { IfOk result (λ v. All (FitsBuffer ram harts) v.items) }
    ensures same { IfOk result (λ v. length v.items ≡ length items.now) }
{
    let mut buffers = Vec::new(alloc);
    for (i, value) in items.iter().enumerate() {
        let buffer = read_buffer_at(alloc, ram, harts, value, i)?;
        buffers.push(buffer)?;
    }
    Ok(buffers)
}

/// The kind of a region: the slots or the pool.
#[derive(Clone, Copy, Debug, PartialEq, Eq)]
pub enum RegionKind {
    /// The bounce slots, of 2,048 bytes.
    Slots,
    /// The coherent pool, whose pages have 4,096 bytes.
    Pool,
}

impl RegionKind {
    fn key(self) -> &'static str
        ensures { result.now ≡ key_of self }
    {
        match self {
            RegionKind::Slots => "slots",
            RegionKind::Pool => "pool",
        }
    }

    fn count_key(self) -> &'static str
        ensures { result.now ≡ count_key self }
    {
        match self {
            RegionKind::Slots => "count",
            RegionKind::Pool => "pages",
        }
    }

    fn keys(self) -> Keys
        ensures { result ≡ keys_of self }
    {
        match self {
            RegionKind::Slots => Keys::Slots,
            RegionKind::Pool => Keys::Pool,
        }
    }

    /// Returns the size of a slot or of a page, in bytes.
    pub fn unit(self) -> u32
        ensures { result ≡ unit_of self }
    {
        match self {
            RegionKind::Slots => 2048,
            RegionKind::Pool => 4096,
        }
    }
}

/// The region of the slots or of the pool.
#[derive(Clone, Copy, Debug, PartialEq, Eq)]
pub struct Region {
    /// Its first place.
    pub at: u32,
    /// The count of its slots or pages.
    pub count: u32,
}

fn start_field(value: &Value, kind: RegionKind) -> Result<u64, Wrong>
    ensures value { result ≡ got (start_of kind) (codes "at") (view value.now) }
    ensures whole { IfOk result (λ n. n % unit_of kind ≡ 0) }
{
    let at = number(field(value, "at")?)?;
    if at % u64::from(kind.unit()) == 0 {
        Ok(at)
    } else {
        Err(Wrong::Limit(at))
    }
}

fn count_field(value: &Value, kind: RegionKind, at: u64, ram: u32) -> Result<u32, Wrong>
    ensures value { result ≡ got (count_of kind ram at) (count_key kind) (view value.now) }
    ensures few { IfOk result (λ n. n ≤ 64) }
    ensures ends { IfOk result (λ n. at + unit_of kind * n ≤ ram) }
{
    let n = number(field(value, kind.count_key())?)?;
    if n <= 64 && ends_in(ram, at, u64::from(kind.unit()) * n) {
        Ok(n as u32)
    } else {
        Err(Wrong::Limit(n))
    }
}

#[tactic(auto, unfolding(crate::specs::Parts::region_of))]
fn read_region(
    alloc: Global,
    kind: RegionKind,
    ram: u32,
    value: &Value,
) -> Result<Region, ScenFault>
    ensures gives { Gives (λ r. r) result (region_of kind ram (view value.now)) }
    ensures fits { IfOk result (FitsRegion kind ram) }
{
    let path = Path::of(alloc, kind.key())?;
    check_keys(alloc, value, kind.keys(), &path)?;
    let at = placed(alloc, start_field(value, kind), &path, "at")?;
    let count = placed(
        alloc,
        count_field(value, kind, at, ram),
        &path,
        kind.count_key(),
    )?;
    Ok(Region {
        at: at as u32,
        count,
    })
}

/// Returns the region of the slots or of the pool, at most 64 of them, at a multiple of their size and in a RAM of
/// `ram` bytes. It is empty where the scenario has no such key.
///
/// # Errors
///
/// `Refused` with the first refusal; `NoMemory` where memory runs out.
pub fn region_or_none(
    alloc: Global,
    kind: RegionKind,
    ram: u32,
    value: Option<&Value>,
) -> Result<Region, ScenFault>
    ensures gives { Gives (λ r. r) result (region_or_none kind ram (option_map (λ v. view v.now) value.entry)) }
    ensures fits { IfOk result (FitsRegion kind ram) }
{
    match value {
        None => Ok(Region { at: 0, count: 0 }),
        Some(value) => read_region(alloc, kind, ram, value),
    }
}

/// Returns the place at which a region ends, and 0 where it is empty.
fn end_of(kind: RegionKind, r: Region, ram: u32) -> u32
    requires { FitsRegion kind ram r }
    ensures { result ≡ end_of kind r }
{
    if r.count == 0 {
        0
    } else {
        r.at + kind.unit() * r.count
    }
}

/// Returns the least reach of a channel: the later end of the slots and the pool, as far as these are not empty.
pub fn least_reach(slots: Region, pool: Region, ram: u32) -> u32
    requires slots_fit { FitsRegion RegionKind.Slots ram slots }
    requires pool_fits { FitsRegion RegionKind.Pool ram pool }
    ensures { result ≡ least_reach slots pool }
{
    let slots_end = end_of(RegionKind::Slots, slots, ram);
    let pool_end = end_of(RegionKind::Pool, pool, ram);
    slots_end.max(pool_end)
}

fn reach_in(value: &Value, least: u32, ram: u32) -> Result<u32, Wrong>
    ensures value { result ≡ reach_in least ram (view value.now) }
    ensures within { IfOk result (Reaches least ram) }
{
    let n = number(value)?;
    if u64::from(least) <= n && n <= u64::from(ram) {
        Ok(n as u32)
    } else {
        Err(Wrong::Limit(n))
    }
}

/// Returns the reach of channel `i`.
fn reach_at(alloc: Global, least: u32, ram: u32, value: &Value, i: usize) -> Result<u32, ScenFault>
    ensures gives { Gives (λ n. n) result (reach_at least ram i (view value.now)) }
    ensures within { IfOk result (Reaches least ram) }
{
    match reach_in(value, least, ram) {
        Ok(n) => Ok(n),
        Err(w) => Err(w.at(Path::of(alloc, "reach")?.position(alloc, i)?)),
    }
}

fn reach_items(alloc: Global, least: u32, ram: u32, items: &[Value]) -> Result<[u32; 4], ScenFault>
    ensures gives { Gives (λ r. r) result (reach_items least ram (items_view items.now)) }
    ensures within { IfOk result (λ r. All (Reaches least ram) r) }
{
    match items {
        [a, b, c, d] => {
            let a = reach_at(alloc, least, ram, a, 0)?;
            let b = reach_at(alloc, least, ram, b, 1)?;
            let c = reach_at(alloc, least, ram, c, 2)?;
            let d = reach_at(alloc, least, ram, d, 3)?;
            Ok([a, b, c, d])
        }
        _ => Err(ScenFault::Refused(Refused::Shape(Path::of(alloc, "reach")?))),
    }
}

/// Returns the reach of each of the four channels, from `least` to `ram`; all of RAM where the scenario has no such
/// key.
///
/// # Errors
///
/// `Refused` with the first refusal; `NoMemory` where memory runs out.
pub fn read_reach(
    alloc: Global,
    least: u32,
    ram: u32,
    value: Option<&Value>,
) -> Result<[u32; 4], ScenFault>
    requires { least ≤ ram }
    ensures gives { Gives (λ r. r) result (reach_or_ram least ram (option_map (λ v. view v.now) value.entry)) }
    ensures within { IfOk result (λ r. All (Reaches least ram) r) }
{
    let Some(value) = value else {
        return Ok([ram; 4]);
    };
    match list(value) {
        Ok(items) => reach_items(alloc, least, ram, items),
        Err(w) => Err(w.at(Path::of(alloc, "reach")?)),
    }
}
