//! The schedule of a scenario: first its shape, then its tokens.

ghost use Rattle.std.specs.Prelude.{◌≡◌, ◌<◌, ◌≤◌, ◌*◌, ◌^◌, ℕ, All, IfOk, length};
ghost use Rattle.serde_json.specs.View.{view, items_view};
ghost use Rattle.nc_scen.specs.Accepted.{FitsPlan};
ghost use Rattle.nc_scen.specs.Events.{IsThere};
ghost use Rattle.nc_values.specs.Outcomes.{Gives, each, check_each};
ghost use Rattle.nc_scen.specs.Reading.{seeded_of, tokens_of, text_at, plan_checked, token_at, plan_of, schedule_of, schedule_checked, schedule_read};

use crate::events::Event;
use crate::keys::{Keys, check_keys};
use crate::scenario::{Events, Plan};
use crate::tokens::token_in;
use nc_values::{Path, Refused, ScenFault, field, number_at, number_to_at, sized, text};
use serde_json::Value;
use std::alloc::Global;

/// How many tokens a schedule lists, how many events it draws, and how many a run tries, at most.
pub const MOST_EVENTS: u64 = 400_000;

/// Returns the value of the schedule.
fn schedule_at(alloc: Global, value: &Value) -> Result<&Value, ScenFault>
    ensures { Gives (λ v. view v.now) result (schedule_of (view value.now)) }
{
    match field(value, "schedule") {
        Ok(schedule) => Ok(schedule),
        Err(w) => Err(w.at(Path::of(alloc, "schedule")?)),
    }
}

#[tactic(auto, unfolding(crate::specs::Reading::seeded_of))]
fn read_seeded(alloc: Global, value: &Value) -> Result<Plan, ScenFault>
    ensures gives { Gives (λ p. p) result (seeded_of (view value.now)) }
    ensures fits { (harts size ram : ℕ) → IfOk result (FitsPlan harts size ram) }
{
    let path = Path::of(alloc, "schedule")?;
    check_keys(alloc, value, Keys::Seeded, &path)?;
    let seed = number_at(alloc, value, &path, "seed")?;
    let events = number_to_at(alloc, value, &path, "events", MOST_EVENTS)?;
    Ok(Plan::Seeded { seed, events })
}

fn token_items(alloc: Global, value: &Value) -> Result<&Vec<Value>, ScenFault>
    ensures gives { Gives (λ v. items_view v.now.items) result (tokens_of (view value.now)) }
    ensures most { IfOk result (λ v. length v.now.items ≤ 400000) }
{
    match sized(value, 0, MOST_EVENTS as usize) {
        Ok(items) => Ok(items),
        Err(w) => Err(w.at(Path::of(alloc, "schedule")?)),
    }
}

/// Tests that value `i` of the schedule is a text.
fn check_text(alloc: Global, value: &Value, i: usize) -> Result<(), ScenFault>
    ensures { Gives (λ u. u) result (text_at i (view value.now)) }
{
    match text(value) {
        Ok(_) => Ok(()),
        Err(w) => Err(w.at(Path::of(alloc, "schedule")?.position(alloc, i)?)),
    }
}

fn check_texts(alloc: Global, items: &[Value]) -> Result<(), ScenFault>
    ensures { Gives (λ u. u) result (check_each text_at 0 (items_view items.now)) }
{
    for (i, value) in items.iter().enumerate() {
        check_text(alloc, value, i)?;
    }
    Ok(())
}

/// Tests that a value is a seeded schedule, or a list of texts.
fn check_plan(alloc: Global, value: &Value) -> Result<(), ScenFault>
    ensures { Gives (λ u. u) result (plan_checked (view value.now)) }
{
    if value.as_object().is_some() {
        read_seeded(alloc, value)?;
        return Ok(());
    }
    let items = token_items(alloc, value)?;
    check_texts(alloc, items)
}

/// Returns the event of the token at index `i`.
fn read_token(harts: u8, blocks: u32, value: &Value, i: usize) -> Result<Event, ScenFault>
    requires few { harts ≤ 4 }
    requires fits { i < 2 ^ 32 }
    ensures gives { Gives (λ e. e) result (token_at harts blocks i (view value.now)) }
    ensures there { (size : ℕ) → IfOk result (IsThere harts size (size * blocks)) }
{
    let Some(text) = value.as_str() else {
        return Err(ScenFault::Refused(Refused::Token(i as u32)));
    };
    match token_in(text.as_bytes(), harts, blocks) {
        Some(e) => Ok(e),
        None => Err(ScenFault::Refused(Refused::Token(i as u32))),
    }
}

fn read_tokens(
    alloc: Global,
    harts: u8,
    blocks: u32,
    items: &[Value],
) -> Result<Vec<Event>, ScenFault>
    requires few { harts ≤ 4 }
    requires fits { length items.now ≤ 400000 }
    ensures gives { Gives (λ v. v.items) result (each (token_at harts blocks) 0 (items_view items.now)) }
    ensures there { (size : ℕ) → IfOk result (λ v. All (IsThere harts size (size * blocks)) v.items) }
    ensures same { IfOk result (λ v. length v.items ≡ length items.now) }
{
    let mut events = Vec::new(alloc);
    for (i, value) in items.iter().enumerate() {
        let event = read_token(harts, blocks, value, i)?;
        events.push(event)?;
    }
    Ok(events)
}

/// Returns the schedule that a value is, in a machine of `harts` harts and `blocks` blocks.
fn read_plan(alloc: Global, harts: u8, blocks: u32, value: &Value) -> Result<Plan, ScenFault>
    requires { harts ≤ 4 }
    ensures gives { Gives (λ p. p) result (plan_of harts blocks (view value.now)) }
    ensures fits { (size : ℕ) → IfOk result (FitsPlan harts size (size * blocks)) }
{
    if value.as_object().is_some() {
        return read_seeded(alloc, value);
    }
    let items = token_items(alloc, value)?;
    let events = read_tokens(alloc, harts, blocks, items)?;
    Ok(Plan::List(Events::new(events)))
}

/// Tests that the scenario has a seeded schedule, or a list of texts as its schedule.
///
/// # Errors
///
/// `Refused` with the first refusal; `NoMemory` where memory runs out.
pub fn check_schedule(alloc: Global, value: &Value) -> Result<(), ScenFault>
    ensures { Gives (λ u. u) result (schedule_checked (view value.now)) }
{
    check_plan(alloc, schedule_at(alloc, value)?)
}

/// Returns the schedule of the scenario, in a machine of `harts` harts, at most 4, and `blocks` blocks of RAM.
///
/// # Errors
///
/// `Refused` with the first refusal, of a shape, a limit or a token; `NoMemory` where memory runs out.
pub fn read_schedule(
    alloc: Global,
    harts: u8,
    blocks: u32,
    value: &Value,
) -> Result<Plan, ScenFault>
    requires { harts ≤ 4 }
    ensures gives { Gives (λ p. p) result (schedule_read harts blocks (view value.now)) }
    ensures fits { (size : ℕ) → IfOk result (FitsPlan harts size (size * blocks)) }
{
    read_plan(alloc, harts, blocks, schedule_at(alloc, value)?)
}
