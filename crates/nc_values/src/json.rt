//! The JSON value of some bytes.

ghost use Rattle.serde_json.specs.View.{view};
ghost use Rattle.nc_values.specs.Json.{json_of, json_value};
ghost use Rattle.nc_values.specs.Outcomes.{Gives};

use crate::refused::{Refused, ScenFault};
use serde_json::{Category, Value};
use std::alloc::Global;

/// Returns the JSON value of `bytes`, as serde_json reads it: of UTF-8, at most 127 levels deep.
///
/// # Errors
///
/// `Refused` with `NotJson` where the bytes have no such value; `NoMemory` where memory runs out.
pub fn value_of(alloc: Global, bytes: &[u8]) -> Result<Value, ScenFault>
    ensures { Gives (λ v. view v) result (json_value (json_of bytes.now)) }
{
    match Value::from_slice(alloc, bytes) {
        Ok(value) => Ok(value),
        Err(e) => match e.classify() {
            Category::Memory => Err(ScenFault::NoMemory),
            _ => Err(ScenFault::Refused(Refused::NotJson)),
        },
    }
}
