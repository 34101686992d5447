//! The lines of one event, written to a sink as it happens.

ghost use Rattle.std.specs.Prelude.{◌≡◌, ◌≤◌, [], ◌⊎◌, length, Err, IfOk, OnOk, OnErr};
ghost use Rattle.std.specs.Io.KnownBytes.{Appends};
ghost use Rattle.std.specs.List.{flat_map};
ghost use Rattle.nc_io.specs.Causes.{Rose};
ghost use Rattle.nc_io.specs.Streams.{GrowsByPrefix};
ghost use Rattle.nc_scen.specs.Events.{IsThere};
ghost use Rattle.nc_rules.specs.Lines.{line};
ghost use Rattle.nc_calls.specs.MachineLaws.{SameShape};
ghost use Rattle.nc_rules.specs.Next.{next, event_records};
ghost use Rattle.nc_world.specs.WorldView.{answer as stepped};

use crate::lines::put_lines;
use nc_io::{Sink, Stop, write_all};
use nc_scen::Event;
use nc_world::{Stepped, World};
use std::alloc::Global;

/// Makes one event, writes the lines of its records to `out` in one piece, and removes the records. No records wait
/// before, and the hart, block or channel of the event exists. Returns whether the event was done or skipped.
///
/// # Errors
///
/// `Failed` where the write failed: the event is made. `NoMemory` where memory runs out: the event is made, or the
/// world is unchanged. In both cases a prefix of the lines was written, no records wait, and more events may follow.
pub fn step_out<K: Sink>(
    alloc: Global,
    w: &mut World,
    e: Event,
    out: &mut K,
) -> Result<Stepped, Stop>
    requires there { IsThere (length w.old.state.machine.harts) w.old.state.machine.size (length w.old.state.machine.cache.ram) e }
    requires none { w.old.records ≡ [] }
    ensures answer { IfOk result (λ s. s ≡ stepped w.old.state e) }
    ensures world { OnOk result (w.new ≡ record { state = next w.old.state e; records = [] }) }
    ensures shape { OnOk result (SameShape w.old.state.machine w.new.state.machine) }
    ensures written { OnOk result (Appends (K.held out.old) (K.held out.new) (flat_map line (event_records w.old.state e))) }
    ensures prefix { OnErr result (GrowsByPrefix (K.held out.old) (K.held out.new) (flat_map line (event_records w.old.state e))) }
    ensures later { K.faults out.old ≤ K.faults out.new }
    ensures cause { result ≡ Err Stop.Failed → Rose (K.faults out.old) (K.faults out.new) }
    ensures failed { result ≡ Err Stop.Failed → w.new ≡ record { state = next w.old.state e; records = [] } }
    ensures memory { result ≡ Err Stop.NoMemory → (w.new ≡ w.old) ⊎ (w.new ≡ record { state = next w.old.state e; records = [] }) }
{
    step_out_with(&mut Vec::new(alloc), w, e, out)
}

/// Makes one event as `step_out` does. The lines are put in `text`, whose capacity serves the next event again; what it
/// holds before and afterwards is of no account.
///
/// # Errors
///
/// Those of `step_out`.
pub fn step_out_with<K: Sink>(
    text: &mut Vec<u8>,
    w: &mut World,
    e: Event,
    out: &mut K,
) -> Result<Stepped, Stop>
    requires there { IsThere (length w.old.state.machine.harts) w.old.state.machine.size (length w.old.state.machine.cache.ram) e }
    requires none { w.old.records ≡ [] }
    ensures answer { IfOk result (λ s. s ≡ stepped w.old.state e) }
    ensures world { OnOk result (w.new ≡ record { state = next w.old.state e; records = [] }) }
    ensures shape { OnOk result (SameShape w.old.state.machine w.new.state.machine) }
    ensures written { OnOk result (Appends (K.held out.old) (K.held out.new) (flat_map line (event_records w.old.state e))) }
    ensures prefix { OnErr result (GrowsByPrefix (K.held out.old) (K.held out.new) (flat_map line (event_records w.old.state e))) }
    ensures later { K.faults out.old ≤ K.faults out.new }
    ensures cause { result ≡ Err Stop.Failed → Rose (K.faults out.old) (K.faults out.new) }
    ensures failed { result ≡ Err Stop.Failed → w.new ≡ record { state = next w.old.state e; records = [] } }
    ensures memory { result ≡ Err Stop.NoMemory → (w.new ≡ w.old) ⊎ (w.new ≡ record { state = next w.old.state e; records = [] }) }
{
    let Ok(stepped) = w.step(e) else {
        return Err(Stop::NoMemory);
    };
    text.clear();
    let put = put_lines(text, w.records());
    w.clear_records();
    let Ok(()) = put else {
        return Err(Stop::NoMemory);
    };
    write_all(out, text)?;
    Ok(stepped)
}
