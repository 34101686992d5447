//! A history, and the report of its run, written to a sink.

ghost use Rattle.std.specs.Prelude.{◌≡◌, ◌≢◌, ◌≤◌, ◌++◌, Err, IfOk, OnOk, OnErr};
ghost use Rattle.std.specs.Io.KnownBytes.{Appends};
ghost use Rattle.nc_io.specs.Causes.{Rose};
ghost use Rattle.nc_io.specs.Streams.{GrowsByPrefix};
ghost use Rattle.nc_scen.specs.Accepted.{IsAccepted};
ghost use Rattle.nc_rules.specs.Flat.{AreThere};
ghost use Rattle.nc_rules.specs.Lines.{report, status};
ghost use Rattle.nc_top.specs.Due.{IsAnswer};
ghost use Rattle.nc_turns.specs.Played.{history_lines, live_text, token_line};

use nc_io::{Sink, Stop, write_all};
use nc_num::NoMemory;
use nc_report::{event_line, step_out_with, tail};
use nc_scen::{Event, Scenario};
use nc_top::status_of;
use nc_world::World;
use std::alloc::Global;

/// Writes a history, as its count of events and a token a line, and then the report of its run. A new world makes each
/// event, and the event's lines are written as it happens. Returns the status of the run: 0, 1 or 7.
///
/// # Errors
///
/// `Failed` where a write fails, and `NoMemory` where memory runs out; then a prefix of the text was written.
pub fn write_live<K: Sink>(
    alloc: Global,
    sc: &Scenario,
    history: &[Event],
    out: &mut K,
) -> Result<u8, Stop>
    requires accepted { IsAccepted sc.now }
    requires there { AreThere sc.now history.now }
    ensures status { IfOk result (λ n. n ≡ status sc.now history.now) }
    ensures kind { IfOk result IsAnswer }
    ensures run { IfOk result (λ n. n ≢ 3) }
    ensures text { OnOk result (Appends (K.held out.old) (K.held out.new) (live_text sc.now history.now)) }
    ensures prefix { OnErr result (GrowsByPrefix (K.held out.old) (K.held out.new) (live_text sc.now history.now)) }
    ensures later { K.faults out.old ≤ K.faults out.new }
    ensures cause { result ≡ Err Stop.Failed → Rose (K.faults out.old) (K.faults out.new) }
{
    let Ok(text) = history_text(alloc, history) else {
        return Err(Stop::NoMemory);
    };
    write_all(out, &text)?;
    replay_out(alloc, sc, history, out)
}

/// Returns the count of the events, and a line for each event.
fn history_text(alloc: Global, history: &[Event]) -> Result<Vec<u8>, NoMemory>
    ensures { IfOk result (λ v. v.items ≡ history_lines history.now) }
{
    let count = history.len();
    let mut text = format!(in alloc; "history {count}\n")?.into_bytes();
    for e in history {
        put_token(alloc, &mut text, *e)?;
    }
    Ok(text)
}

/// Appends the line of an event's token to a text: what comes after `e ` in the event's line.
fn put_token(alloc: Global, text: &mut Vec<u8>, e: Event) -> Result<(), NoMemory>
    ensures { OnOk result (text.new.items ≡ text.old.items ++ token_line e) }
{
    let line = event_line(alloc, e)?;
    text.extend_from_slice(&line[2..])?;
    Ok(())
}

/// Makes the events one after another in a new world, and writes the report of their run.
fn replay_out<K: Sink>(
    alloc: Global,
    sc: &Scenario,
    history: &[Event],
    out: &mut K,
) -> Result<u8, Stop>
    requires accepted { IsAccepted sc.now }
    requires there { AreThere sc.now history.now }
    ensures status { IfOk result (λ n. n ≡ status sc.now history.now) }
    ensures kind { IfOk result IsAnswer }
    ensures run { IfOk result (λ n. n ≢ 3) }
    ensures text { OnOk result (Appends (K.held out.old) (K.held out.new) (report sc.now history.now)) }
    ensures prefix { OnErr result (GrowsByPrefix (K.held out.old) (K.held out.new) (report sc.now history.now)) }
    ensures later { K.faults out.old ≤ K.faults out.new }
    ensures cause { result ≡ Err Stop.Failed → Rose (K.faults out.old) (K.faults out.new) }
{
    let Ok(mut w) = World::new(alloc, sc) else {
        return Err(Stop::NoMemory);
    };
    let mut lines = Vec::new(alloc);
    for e in history {
        step_out_with(&mut lines, &mut w, *e, out)?;
    }
    let Ok(text) = tail(alloc, sc, &w) else {
        return Err(Stop::NoMemory);
    };
    write_all(out, &text)?;
    Ok(status_of(&w))
}
