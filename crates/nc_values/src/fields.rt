//! The values of an object's keys, or what is wrong with them and the path where.

ghost use Rattle.std.specs.Prelude.{◌≡◌, ◌<◌, ◌≤◌, IfOk, MatchResult, Some, length};
ghost use Rattle.serde_json.specs.View.{view, items_view};
ghost use Rattle.serde_json.specs.Find.{get};
ghost use Rattle.nc_env.specs.Enables.{IsEnvcfg};
ghost use Rattle.nc_values.specs.Outcomes.{Gives, placed, shaped};
ghost use Rattle.nc_values.specs.Paths.{under};
ghost use Rattle.nc_values.specs.Values.{number_of, mode_of, register_of, number_to, number_under, sized_of, got, field, number_at, number_to_at, list_at};

use crate::refused::{Path, ScenFault};
use crate::values::{below, list, mode, most, number, register};
use crate::wrong::Wrong;
use nc_env::Mode;
use serde_json::Value;
use std::alloc::Global;

/// Returns the value of a key that the object must have.
///
/// # Errors
///
/// `Shape` where the object has no such key, or the value is no object.
pub fn field<'a>(object: &'a Value, key: &str) -> Result<&'a Value, Wrong>
    ensures { MatchResult result (λ v. shaped (get key.now (view object.now)) ≡ Ok (view v.now)) (λ e. shaped (get key.now (view object.now)) ≡ Err e) }
{
    match object.get(key) {
        Some(value) => Ok(value),
        None => Err(Wrong::Shape),
    }
}

/// Returns a value that was read at a key under `path`, or the refusal of what is wrong with it, at that path.
///
/// # Errors
///
/// `Refused` with `Shape` or `Limit` and the path of the key; `NoMemory` where memory runs out.
pub fn placed<T: Drop>(
    alloc: Global,
    read: Result<T, Wrong>,
    path: &Path,
    key: &str,
) -> Result<T, ScenFault>
    ensures { Gives (λ x. x) result (placed (under path.now key.now) read) }
{
    match read {
        Ok(x) => Ok(x),
        Err(w) => Err(w.at(path.under(alloc, key)?)),
    }
}

fn number_field(object: &Value, key: &str) -> Result<u64, Wrong>
    ensures { result ≡ got number_of key.now (view object.now) }
{
    number(field(object, key)?)
}

/// Returns the number of a key that the object must have.
///
/// # Errors
///
/// `Refused` with `Shape` and the path of the key, where it is missing or no number; `NoMemory` where memory runs out.
pub fn number_at(alloc: Global, object: &Value, path: &Path, key: &str) -> Result<u64, ScenFault>
    ensures { Gives (λ n. n) result (number_at path.now key.now (view object.now)) }
{
    placed(alloc, number_field(object, key), path, key)
}

fn number_to_field(object: &Value, key: &str, top: u64) -> Result<u64, Wrong>
    ensures value { result ≡ got (number_to top) key.now (view object.now) }
    ensures most { IfOk result (λ n. n ≤ top) }
{
    most(number_field(object, key)?, top)
}

/// Returns the number of a key that the object must have, at most `top`.
///
/// # Errors
///
/// `Refused` with the path of the key: `Shape` where it is missing or no number, `Limit` where it is above `top`.
/// `NoMemory` where memory runs out.
pub fn number_to_at(
    alloc: Global,
    object: &Value,
    path: &Path,
    key: &str,
    top: u64,
) -> Result<u64, ScenFault>
    ensures gives { Gives (λ n. n) result (number_to_at top path.now key.now (view object.now)) }
    ensures most { IfOk result (λ n. n ≤ top) }
{
    placed(alloc, number_to_field(object, key, top), path, key)
}

fn below_field(object: &Value, key: &str, bound: u8) -> Result<u8, Wrong>
    ensures value { result ≡ got (number_under bound) key.now (view object.now) }
    ensures below { IfOk result (λ n. n < bound) }
{
    below(number_field(object, key)?, bound)
}

/// Returns the number of a key that the object must have, below `bound`.
///
/// # Errors
///
/// `Refused` with the path of the key: `Shape` where it is missing or no number, `Limit` where it is not below `bound`.
/// `NoMemory` where memory runs out.
pub fn below_at(
    alloc: Global,
    object: &Value,
    path: &Path,
    key: &str,
    bound: u8,
) -> Result<u8, ScenFault>
    ensures gives { Gives (λ n. n) result (field (number_under bound) path.now key.now (view object.now)) }
    ensures below { IfOk result (λ n. n < bound) }
{
    placed(alloc, below_field(object, key, bound), path, key)
}

fn mode_field(object: &Value, key: &str) -> Result<Mode, Wrong>
    ensures { result ≡ got mode_of key.now (view object.now) }
{
    mode(field(object, key)?)
}

/// Returns the privilege mode of a key that the object must have (RISC-V Privileged Architecture).
///
/// # Errors
///
/// `Refused` with `Shape` and the path of the key, where it is missing or no mode; `NoMemory` where memory runs out.
pub fn mode_at(alloc: Global, object: &Value, path: &Path, key: &str) -> Result<Mode, ScenFault>
    ensures { Gives (λ m. m) result (field mode_of path.now key.now (view object.now)) }
{
    placed(alloc, mode_field(object, key), path, key)
}

fn register_field(object: &Value, key: &str) -> Result<u64, Wrong>
    ensures value { result ≡ got register_of key.now (view object.now) }
    ensures known { IfOk result IsEnvcfg }
{
    register(field(object, key)?)
}

/// Returns the value of an environment register, of a key that the object must have (RISC-V Privileged Architecture).
///
/// # Errors
///
/// `Refused` with the path of the key: `Shape` where it is missing or no number, `Limit` where its CBIE is the reserved
/// 10. `NoMemory` where memory runs out.
pub fn register_at(alloc: Global, object: &Value, path: &Path, key: &str) -> Result<u64, ScenFault>
    ensures gives { Gives (λ n. n) result (field register_of path.now key.now (view object.now)) }
    ensures known { IfOk result IsEnvcfg }
{
    placed(alloc, register_field(object, key), path, key)
}

/// Returns the values of a list that has from `least` to `top` of them.
///
/// # Errors
///
/// `Shape` where the value is no list; `Limit` with the length where that is out of range.
#[tactic(auto, using(crate::proofs::Items::items_len_view))]
pub fn sized(value: &Value, least: usize, top: usize) -> Result<&Vec<Value>, Wrong>
    ensures value { MatchResult result (λ v. sized_of least top (view value.now) ≡ Ok (items_view v.now.items)) (λ e. sized_of least top (view value.now) ≡ Err e) }
    ensures least { IfOk result (λ v. least ≤ length v.now.items) }
    ensures most { IfOk result (λ v. length v.now.items ≤ top) }
{
    let items = list(value)?;
    if least <= items.len() && items.len() <= top {
        Ok(items)
    } else {
        Err(Wrong::Limit(items.len() as u64))
    }
}

/// Returns the values of a list, of a key that the object must have; the list has from `least` to `top` values.
///
/// # Errors
///
/// `Refused` with the path of the key: `Shape` where it is missing or no list, `Limit` with the length where that is
/// out of range. `NoMemory` where memory runs out.
pub fn list_at<'a>(
    alloc: Global,
    object: &'a Value,
    path: &Path,
    key: &str,
    least: usize,
    top: usize,
) -> Result<&'a Vec<Value>, ScenFault>
    ensures gives { Gives (λ v. items_view v.now.items) result (list_at least top path.now key.now (view object.now)) }
    ensures least { IfOk result (λ v. least ≤ length v.now.items) }
    ensures most { IfOk result (λ v. length v.now.items ≤ top) }
{
    let value = match field(object, key) {
        Ok(value) => value,
        Err(w) => return Err(w.at(path.under(alloc, key)?)),
    };
    match sized(value, least, top) {
        Ok(items) => Ok(items),
        Err(w) => Err(w.at(path.under(alloc, key)?)),
    }
}
