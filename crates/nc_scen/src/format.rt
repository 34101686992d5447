//! The version of a scenario, with the sizes of blocks and the kind of fences.

ghost use Rattle.std.specs.Prelude.{◌≡◌, ◌≤◌, IfOk, option_map};
ghost use Rattle.serde_json.specs.View.{view};
ghost use Rattle.serde_json.specs.Find.{get};
ghost use Rattle.nc_num.specs.Sizes.{IsBlockSize};
ghost use Rattle.nc_scen.specs.Fits.{IsFormat};
ghost use Rattle.nc_values.specs.Outcomes.{Gives};
ghost use Rattle.nc_values.specs.Values.{got};
ghost use Rattle.nc_scen.specs.Parts.{absent, size_in, size_at, fences_or_full, old_format, new_format, format_of};

use nc_values::{
    Path, Refused, ScenFault, Wrong, fences, field, is_size, number, number_at, placed,
};
use serde_json::Value;
use std::alloc::Global;

/// The version, the sizes in bytes, and whether fences are light.
#[derive(Clone, Copy, Debug, PartialEq, Eq)]
pub struct Format {
    /// The version, 1 or 2.
    pub version: u64,
    /// The size of a block.
    pub block_size: u32,
    /// The size of the range that a cache-block zero sets.
    pub zero_size: u32,
    /// Whether fences are light.
    pub light: bool,
}

/// Tests that the scenario lacks a key, which only a later version has.
fn check_absent(alloc: Global, value: &Value, key: &str) -> Result<(), ScenFault>
    ensures { Gives (λ u. u) result (absent key.now (view value.now)) }
{
    match value.get(key) {
        None => Ok(()),
        Some(_) => Err(ScenFault::Refused(Refused::Shape(Path::of(alloc, key)?))),
    }
}

/// Returns the size at a key, one that a block can have, of at least `least` bytes.
fn size_field(value: &Value, key: &str, least: u32) -> Result<u32, Wrong>
    ensures value { result ≡ got (size_in least) key.now (view value.now) }
    ensures sized { IfOk result IsBlockSize }
    ensures least { IfOk result (λ n. least ≤ n) }
{
    let n = number(field(value, key)?)?;
    if is_size(n) && u64::from(least) <= n {
        Ok(n as u32)
    } else {
        Err(Wrong::Limit(n))
    }
}

fn size_at(alloc: Global, value: &Value, key: &str, least: u32) -> Result<u32, ScenFault>
    ensures gives { Gives (λ n. n) result (size_at least key.now (view value.now)) }
    ensures sized { IfOk result IsBlockSize }
    ensures least { IfOk result (λ n. least ≤ n) }
{
    placed(
        alloc,
        size_field(value, key, least),
        &Path::root(alloc),
        key,
    )
}

/// Returns whether fences are light; they are full where the scenario has no such key.
fn fences_or_full(alloc: Global, value: Option<&Value>) -> Result<bool, ScenFault>
    ensures { Gives (λ b. b) result (fences_or_full (option_map (λ v. view v.now) value.entry)) }
{
    let Some(value) = value else {
        return Ok(false);
    };
    placed(alloc, fences(value), &Path::root(alloc), "fences")
}

#[tactic(auto, unfolding(crate::specs::Parts::old_format))]
fn old_format(alloc: Global, value: &Value) -> Result<Format, ScenFault>
    ensures gives { Gives (λ f. f) result (old_format (view value.now)) }
    ensures fits { IfOk result IsFormat }
{
    check_absent(alloc, value, "block")?;
    check_absent(alloc, value, "zero")?;
    check_absent(alloc, value, "fences")?;
    Ok(Format {
        version: 1,
        block_size: 64,
        zero_size: 64,
        light: false,
    })
}

#[tactic(auto, unfolding(crate::specs::Parts::new_format))]
fn new_format(alloc: Global, value: &Value) -> Result<Format, ScenFault>
    ensures gives { Gives (λ f. f) result (new_format (view value.now)) }
    ensures fits { IfOk result IsFormat }
{
    let block_size = size_at(alloc, value, "block", 0)?;
    let zero_size = size_at(alloc, value, "zero", block_size)?;
    let light = fences_or_full(alloc, value.get("fences"))?;
    Ok(Format {
        version: 2,
        block_size,
        zero_size,
        light,
    })
}

/// Returns the version of a scenario, with the sizes of blocks and the kind of fences.
///
/// # Errors
///
/// `Refused` with `Version` where the version is neither 1 nor 2, or with another first refusal; `NoMemory` where
/// memory runs out.
#[tactic(auto, unfolding(crate::specs::Parts::format_of))]
pub fn read_format(alloc: Global, value: &Value) -> Result<Format, ScenFault>
    ensures gives { Gives (λ f. f) result (format_of (view value.now)) }
    ensures fits { IfOk result IsFormat }
{
    match number_at(alloc, value, &Path::root(alloc), "version")? {
        1 => old_format(alloc, value),
        2 => new_format(alloc, value),
        n => Err(ScenFault::Refused(Refused::Version(n))),
    }
}
