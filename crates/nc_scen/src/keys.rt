//! The keys of the scenario's objects.

ghost use Rattle.std.specs.Prelude.{◌≡◌, Some, option_map};
ghost use Rattle.serde_json.specs.View.{view, members_view};
ghost use Rattle.nc_scen.specs.Keys.{knows, first_unknown, keyed};
ghost use Rattle.nc_values.specs.Outcomes.{Gives};

use nc_values::{Path, Refused, ScenFault};
use serde_json::{Map, Value};
use std::alloc::Global;

/// An object of the scenario, by the keys that it may have.
#[derive(Clone, Copy, Debug, PartialEq, Eq)]
pub enum Keys {
    /// The whole.
    Top,
    /// A hart.
    Hart,
    /// A buffer.
    Buffer,
    /// The slots.
    Slots,
    /// The pool.
    Pool,
    /// A seeded schedule.
    Seeded,
}

impl Keys {
    /// Returns whether the object may have a key.
    pub fn knows(self, key: &str) -> bool
        ensures { result ≡ knows self key.now }
    {
        match self {
            Keys::Top => knows_top(key),
            Keys::Hart => key == "mode" || key == "menvcfg" || key == "senvcfg" || key == "script",
            Keys::Buffer => {
                key == "at" || key == "len" || key == "fill" || key == "step" || key == "owner"
            }
            Keys::Slots => key == "at" || key == "count",
            Keys::Pool => key == "at" || key == "pages",
            Keys::Seeded => key == "seed" || key == "events",
        }
    }
}

/// Returns whether the whole may have a key.
fn knows_top(key: &str) -> bool
    ensures { result ≡ knows Keys.Top key.now }
{
    key == "version"
        || key == "block"
        || key == "zero"
        || key == "fences"
        || key == "ram"
        || key == "harts"
        || key == "ptes"
        || key == "buffers"
        || key == "slots"
        || key == "pool"
        || key == "reach"
        || key == "schedule"
        || key == "finish"
        || key == "limit"
}

/// Returns the first key of an object that it may not have, or None where it may have all.
fn first_unknown(members: &Map<String, Value>, keys: Keys) -> Option<&str>
    ensures { option_map (λ k. k.now) result ≡ first_unknown keys (members_view members.now.entries) }
{
    for (key, _) in members {
        if !keys.knows(key.as_str()) {
            return Some(key.as_str());
        }
    }
    None
}

/// Tests that the value at `path` is an object, and has no other keys than it may have.
///
/// # Errors
///
/// `Refused` with `Shape`: at the path where the value is no object, and at the first unknown key where it is one.
/// `NoMemory` where memory runs out.
pub fn check_keys(alloc: Global, value: &Value, keys: Keys, path: &Path) -> Result<(), ScenFault>
    ensures { Gives (λ u. u) result (keyed keys path.now (view value.now)) }
{
    let Some(members) = value.as_object() else {
        return Err(ScenFault::Refused(Refused::Shape(path.told(alloc)?)));
    };
    match first_unknown(members, keys) {
        Some(key) => Err(ScenFault::Refused(Refused::Shape(path.under(alloc, key)?))),
        None => Ok(()),
    }
}
