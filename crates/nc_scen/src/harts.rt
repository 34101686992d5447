//! The harts of a scenario: first without their operations, then with them.

ghost use Rattle.std.specs.Prelude.{◌≡◌, ◌≤◌, IfOk, All, length};
ghost use Rattle.serde_json.specs.View.{view, items_view};
ghost use Rattle.nc_env.specs.Enables.{IsEnvcfg};
ghost use Rattle.nc_scen.specs.Accepted.{FitsHart};
ghost use Rattle.nc_ops.specs.Fits.{FitsOp};
ghost use Rattle.nc_values.specs.Outcomes.{Gives, each, check_each};
ghost use Rattle.nc_scen.specs.Parts.{settings_of, script_items, hart_checked, op_at, script_at, hart_of, hart_at};

use crate::keys::{Keys, check_keys};
use crate::scenario::HartSpec;
use nc_env::Mode;
use nc_ops::{Counts, Op, Ops, read_op};
use nc_values::{OpFault, Path, ScenFault, list_at, mode_at, register_at};
use serde_json::Value;
use std::alloc::Global;

/// A hart without its script.
#[derive(Clone, Copy, Debug, PartialEq, Eq)]
pub struct Settings {
    /// The mode that its script runs in.
    pub mode: Mode,
    /// The register `menvcfg`.
    pub menvcfg: u64,
    /// The register `senvcfg`.
    pub senvcfg: u64,
}

#[tactic(auto, unfolding(crate::specs::Parts::settings_of))]
fn read_settings(alloc: Global, value: &Value, path: &Path) -> Result<Settings, ScenFault>
    ensures gives { Gives (λ s. s) result (settings_of path.now (view value.now)) }
    ensures menvcfg { IfOk result (λ s. IsEnvcfg s.menvcfg) }
    ensures senvcfg { IfOk result (λ s. IsEnvcfg s.senvcfg) }
{
    check_keys(alloc, value, Keys::Hart, path)?;
    let mode = mode_at(alloc, value, path, "mode")?;
    let menvcfg = register_at(alloc, value, path, "menvcfg")?;
    let senvcfg = register_at(alloc, value, path, "senvcfg")?;
    Ok(Settings {
        mode,
        menvcfg,
        senvcfg,
    })
}

/// Returns the values of a script, at most 4,096.
fn script_items<'a>(
    alloc: Global,
    value: &'a Value,
    path: &Path,
) -> Result<&'a Vec<Value>, ScenFault>
    ensures gives { Gives (λ v. items_view v.now.items) result (script_items path.now (view value.now)) }
    ensures most { IfOk result (λ v. length v.now.items ≤ 4096) }
{
    list_at(alloc, value, path, "script", 0, 4096)
}

/// Tests that value `i` of the list is a hart; its operations are not read.
fn check_hart(alloc: Global, value: &Value, i: usize) -> Result<(), ScenFault>
    ensures { Gives (λ u. u) result (hart_checked i (view value.now)) }
{
    let path = Path::of(alloc, "harts")?.position(alloc, i)?;
    read_settings(alloc, value, &path)?;
    script_items(alloc, value, &path)?;
    Ok(())
}

/// Tests that each value is a hart; their operations are not read.
///
/// # Errors
///
/// `Refused` with the first refusal; `NoMemory` where memory runs out.
pub fn check_harts(alloc: Global, items: &[Value]) -> Result<(), ScenFault>
    ensures { Gives (λ u. u) result (check_each hart_checked 0 (items_view items.now)) }
{
    for (i, value) in items.iter().enumerate() {
        check_hart(alloc, value, i)?;
    }
    Ok(())
}

/// Returns operation `i` of a script.
fn read_op_at(
    alloc: Global,
    counts: Counts,
    script: &Path,
    value: &Value,
    i: usize,
) -> Result<Op, ScenFault>
    ensures gives { Gives (λ o. o) result (op_at counts script.now i (view value.now)) }
    ensures fits { IfOk result (FitsOp counts.harts counts.buffers) }
{
    match read_op(alloc, counts, value) {
        Ok(op) => Ok(op),
        Err(OpFault::NoMemory) => Err(ScenFault::NoMemory),
        Err(OpFault::Wrong(w)) => Err(w.at(script.position(alloc, i)?)),
    }
}

/// Returns the operations of the script of the hart at `path`.
fn read_script(
    alloc: Global,
    counts: Counts,
    path: &Path,
    items: &[Value],
) -> Result<Ops, ScenFault>
    ensures gives { Gives (λ o. o) result (script_at counts path.now (items_view items.now)) }
    ensures fits { IfOk result (λ o. All (FitsOp counts.harts counts.buffers) o) }
    ensures same { IfOk result (λ o. length o ≡ length items.now) }
{
    let script = path.under(alloc, "script")?;
    let ops = read_ops(alloc, counts, &script, items)?;
    Ok(Ops::new(ops))
}

/// Returns the operations of the script at path `script`.
fn read_ops(
    alloc: Global,
    counts: Counts,
    script: &Path,
    items: &[Value],
) -> Result<Vec<Op>, ScenFault>
    ensures gives { Gives (λ v. v.items) result (each (op_at counts script.now) 0 (items_view items.now)) }
    ensures fits { IfOk result (λ v. All (FitsOp counts.harts counts.buffers) v.items) }
    ensures same { IfOk result (λ v. length v.items ≡ length items.now) }
{
    let mut ops = Vec::new(alloc);
    for (i, value) in items.iter().enumerate() {
        let op = read_op_at(alloc, counts, script, value, i)?;
        ops.push(op)?;
    }
    Ok(ops)
}

#[tactic(auto, unfolding(crate::specs::Parts::hart_of))]
fn read_hart(
    alloc: Global,
    counts: Counts,
    value: &Value,
    path: &Path,
) -> Result<HartSpec, ScenFault>
    ensures gives { Gives (λ h. h) result (hart_of counts path.now (view value.now)) }
    ensures fits { IfOk result (FitsHart counts.harts counts.buffers) }
{
    let settings = read_settings(alloc, value, path)?;
    let items = script_items(alloc, value, path)?;
    let script = read_script(alloc, counts, path, items)?;
    Ok(HartSpec {
        mode: settings.mode,
        menvcfg: settings.menvcfg,
        senvcfg: settings.senvcfg,
        script,
    })
}

/// Returns hart `i`, with its operations.
fn read_hart_at(
    alloc: Global,
    counts: Counts,
    value: &Value,
    i: usize,
) -> Result<HartSpec, ScenFault>
    ensures gives { Gives (λ h. h) result (hart_at counts i (view value.now)) }
    ensures fits { IfOk result (FitsHart counts.harts counts.buffers) }
{
    let path = Path::of(alloc, "harts")?.position(alloc, i)?;
    read_hart(alloc, counts, value, &path)
}

/// Returns the harts with their operations, in order.
///
/// # Errors
///
/// `Refused` with the first refusal; `NoMemory` where memory runs out.
pub fn read_harts(
    alloc: Global,
    counts: Counts,
    items: &[Value],
) -> Result<Vec<HartSpec>, ScenFault>
    ensures gives { Gives (λ v. v.items) result (each (hart_at counts) 0 (items_view items.now)) }
    ensures fits { IfOk result (λ v. All (FitsHart counts.harts counts.buffers) v.items) }
    ensures same { IfOk result (λ v. length v.items ≡ length items.now) }
{
    let mut harts = Vec::new(alloc);
    for (i, value) in items.iter().enumerate() {
        let hart = read_hart_at(alloc, counts, value, i)?;
        harts.push(hart)?;
    }
    Ok(harts)
}
