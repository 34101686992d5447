//! The move of a scenario to version 2, from bytes to bytes.

ghost use Rattle.std.specs.Prelude.{◌≡◌, ◌++◌, ◌∷◌, [], false, IfOk, OnOk};
ghost use Rattle.serde_json.specs.Data.{number, unsigned, put};
ghost use Rattle.serde_json.specs.View.{view, members_view};
ghost use Rattle.nc_values.specs.Outcomes.{Gives};
ghost use Rattle.nc_migrate.specs.Migrating.{KeepsReading, migrated, moved, raised};

use nc_scen::read;
use nc_values::{ScenFault, value_of};
use serde_json::{Map, Value};
use std::alloc::{AllocError, Global};

/// Puts a number at a key of an object.
fn put(alloc: Global, members: &mut Map<String, Value>, key: &str, n: u64) -> Result<(), AllocError>
    ensures { OnOk result (members_view members.new.entries ≡ put key.now (number (unsigned n)) (members_view members.old.entries)) }
{
    let key = String::from_str(alloc, key)?;
    members.insert(key, Value::from(n))?;
    Ok(())
}

/// Returns the members of a version 1 value, with version 2 and the sizes that version 1 has.
fn raised(alloc: Global, mut members: Map<String, Value>) -> Result<Map<String, Value>, AllocError>
    ensures { IfOk result (λ m. members_view m.entries ≡ raised (members_view members.entries)) }
{
    put(alloc, &mut members, "version", 2)?;
    put(alloc, &mut members, "block", 64)?;
    put(alloc, &mut members, "zero", 64)?;
    Ok(members)
}

/// Returns the value of a scenario of version `version`, moved to version 2.
fn moved(alloc: Global, value: Value, version: u64) -> Result<Value, AllocError>
    ensures { IfOk result (λ v. view v ≡ moved version (view value)) }
{
    if version != 1 {
        return Ok(value);
    }
    match value {
        Value::Object(members) => Ok(Value::Object(raised(alloc, members)?)),
        other => Ok(other),
    }
}

/// Returns the scenario that the bytes are, moved to version 2, as one line: the compact text of its JSON value with a
/// line feed. A version 1 value gets `version` 2, and `block` and `zero` of 64; a version 2 value is unchanged. Where
/// the line is no longer than a scenario may be, its reading is that of `bytes` with version 2, and moving it again
/// changes nothing. This project's own.
///
/// # Errors
///
/// `Refused` with the first refusal of the scenario; `NoMemory` where memory runs out.
pub fn migrate(alloc: Global, bytes: &[u8]) -> Result<Vec<u8>, ScenFault>
    ensures gives { Gives (λ v. v.items) result (migrated bytes.now) }
    ensures law { IfOk result (λ v. KeepsReading bytes.now v.items) }
{
    let sc = read(alloc, bytes)?;
    let value = value_of(alloc, bytes)?;
    let value = moved(alloc, value, sc.version)?;
    let mut text = value.to_vec(alloc)?;
    text.push(b'\n')?;
    Ok(text)
}
