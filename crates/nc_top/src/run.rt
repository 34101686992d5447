//! A scenario's run, written event by event.

ghost use Rattle.std.specs.Prelude.{◌≡◌, ◌≢◌, ◌≤◌, IfOk, OnOk, OnErr, Err};
ghost use Rattle.std.specs.Io.KnownBytes.{Appends};
ghost use Rattle.nc_io.specs.Causes.{Rose};
ghost use Rattle.nc_io.specs.Streams.{GrowsByPrefix};
ghost use Rattle.nc_scen.specs.Accepted.{IsAccepted};
ghost use Rattle.nc_rules.specs.Lines.{report, status, status_at, at_end};
ghost use Rattle.nc_rules.specs.Schedule.{sched};
ghost use Rattle.nc_top.specs.Due.{IsAnswer};

use nc_io::{Sink, Stop, write_all};
use nc_num::HartNo;
use nc_report::{step_out_with, tail};
use nc_scen::Scenario;
use nc_sched::Sched;
use nc_world::World;
use std::alloc::Global;

/// Returns whether every script is at its end.
fn at_end(w: &World) -> bool
    ensures { result ≡ at_end w.now.state }
{
    for h in 0..w.harts() {
        if w.left(HartNo(h)).is_some() {
            return false;
        }
    }
    true
}

/// Returns the status of a run: 1 where it has a touch, else 7 where a script is not at its end, else 0.
pub fn status_of(w: &World) -> u8
    ensures value { result ≡ status_at w.now.state }
    ensures kind { IsAnswer result }
    ensures run { result ≢ 3 }
{
    if 0 < w.touches() {
        return 1;
    }
    if at_end(w) {
        return 0;
    }
    7
}

/// Makes the events of the scenario's schedule, and writes the report as they happen. Returns the status of the run.
///
/// # Errors
///
/// `Failed` where a write fails, and `NoMemory` where memory runs out; then a prefix of the report was written.
pub fn run_out<K: Sink>(alloc: Global, sc: &Scenario, out: &mut K) -> Result<u8, Stop>
    requires { IsAccepted sc.now }
    ensures status { IfOk result (λ n. n ≡ status sc.now (sched sc.now)) }
    ensures kind { IfOk result IsAnswer }
    ensures run { IfOk result (λ n. n ≢ 3) }
    ensures text { OnOk result (Appends (K.held out.old) (K.held out.new) (report sc.now (sched sc.now))) }
    ensures prefix { OnErr result (GrowsByPrefix (K.held out.old) (K.held out.new) (report sc.now (sched sc.now))) }
    ensures later { K.faults out.old ≤ K.faults out.new }
    ensures cause { result ≡ Err Stop.Failed → Rose (K.faults out.old) (K.faults out.new) }
{
    let Ok(mut w) = World::new(alloc, sc) else {
        return Err(Stop::NoMemory);
    };
    let mut sched = Sched::new(sc);
    let mut last = None;
    let mut lines = Vec::new(alloc);
    'running: while let Some(e) = sched.next(sc, &w, last) {
        let stepped = step_out_with(&mut lines, &mut w, e, out)?;
        last = Some(stepped);
    }
    let Ok(text) = tail(alloc, sc, &w) else {
        return Err(Stop::NoMemory);
    };
    write_all(out, &text)?;
    Ok(status_of(&w))
}
