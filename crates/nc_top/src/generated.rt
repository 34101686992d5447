//! The run of a generated scenario, of which only counts are kept.

ghost use Rattle.std.specs.Prelude.{◌≡◌, ◌≢◌, ◌<◌, ◌+◌, ◌^◌, [], length, IfOk, OnOk};
ghost use Rattle.std.specs.List.{count_by};
ghost use Rattle.nc_gen.specs.Generator.{scenario as scenario_of};
ghost use Rattle.nc_gen.specs.Summary.{is_copydone, is_noslot, summary as line_of};
ghost use Rattle.nc_scen.specs.Accepted.{IsAccepted};
ghost use Rattle.nc_scen.specs.Events.{IsThere};
ghost use Rattle.nc_calls.specs.MachineLaws.{SameShape};
ghost use Rattle.nc_rules.specs.Lines.{status};
ghost use Rattle.nc_rules.specs.Next.{next, event_records};
ghost use Rattle.nc_rules.specs.Run.{after, records};
ghost use Rattle.nc_rules.specs.Schedule.{sched};
ghost use Rattle.nc_rules.specs.World.{start};
ghost use Rattle.nc_world.specs.WorldView.{answer as stepped};
ghost use Rattle.nc_top.specs.Due.{IsAnswer};
ghost use Rattle.nc_top.specs.Tallies.{counted, tally_of};

use crate::run::status_of;
use nc_gen::{copies_done, scenario, slots_missed, summary};
use nc_num::NoMemory;
use nc_scen::{Event, Scenario};
use nc_sched::Sched;
use nc_world::{Record, Stepped, World};
use std::alloc::Global;

/// The counts of two answers.
#[derive(Clone, Copy, Debug, PartialEq, Eq)]
pub struct Tally {
    /// The count of answers `copydone`.
    pub done: u64,
    /// The count of answers `noslot`.
    pub missed: u64,
}

/// Adds the counts of some records to a tally.
fn counted(tally: Tally, records: &[Record]) -> Tally
    requires done { tally.done + count_by is_copydone records.now < 2 ^ 64 }
    requires missed { tally.missed + count_by is_noslot records.now < 2 ^ 64 }
    ensures { result ≡ counted tally records.now }
{
    Tally {
        done: tally.done + copies_done(records) as u64,
        missed: tally.missed + slots_missed(records) as u64,
    }
}

/// Makes one event, counts its answers, and drops its records.
fn step_counted(w: &mut World, e: Event, tally: Tally) -> Result<(Stepped, Tally), NoMemory>
    requires there { IsThere (length w.old.state.machine.harts) w.old.state.machine.size (length w.old.state.machine.cache.ram) e }
    requires none { w.old.records ≡ [] }
    requires done { tally.done < 2 ^ 32 }
    requires missed { tally.missed < 2 ^ 32 }
    ensures answer { IfOk result (λ r. r.0 ≡ stepped w.old.state e) }
    ensures tally { IfOk result (λ r. r.1 ≡ counted tally (event_records w.old.state e)) }
    ensures world { OnOk result (w.new ≡ record { state = next w.old.state e; records = [] }) }
    ensures shape { OnOk result (SameShape w.old.state.machine w.new.state.machine) }
{
    let stepped = w.step(e)?;
    let tally = counted(tally, w.records());
    w.clear_records();
    Ok((stepped, tally))
}

/// Makes the events of a scenario's schedule, and keeps only the tally of their records.
fn run_counted(alloc: Global, sc: &Scenario) -> Result<(World, Tally), NoMemory>
    requires accepted { IsAccepted sc.now }
    ensures state { IfOk result (λ r. r.0.state ≡ after (start sc.now) (sched sc.now)) }
    ensures tally { IfOk result (λ r. r.1 ≡ tally_of (records (start sc.now) (sched sc.now))) }
{
    let mut w = World::new(alloc, sc)?;
    let mut sched = Sched::new(sc);
    let mut last = None;
    let mut tally = Tally { done: 0, missed: 0 };
    'running: while let Some(e) = sched.next(sc, &w, last) {
        let (stepped, more) = step_counted(&mut w, e, tally)?;
        last = Some(stepped);
        tally = more;
    }
    Ok((w, tally))
}

/// The status and the line that are due for the command `gen`.
#[derive(Debug, Drop)]
pub struct Generated {
    /// The status of the run.
    pub status: u8,
    /// The line that sums the run up.
    pub line: Vec<u8>,
}

/// Runs the scenario that the generator makes of the number `n`, and returns the run's status (0, 1 or 7) and the line
/// that sums the run up.
///
/// # Errors
///
/// `NoMemory` where memory runs out.
pub fn run_generated(alloc: Global, n: u64) -> Result<Generated, NoMemory>
    ensures status { IfOk result (λ g. g.status ≡ status (scenario_of n) (sched (scenario_of n))) }
    ensures kind { IfOk result (λ g. IsAnswer g.status) }
    ensures run { IfOk result (λ g. g.status ≢ 3) }
    ensures line { IfOk result (λ g. g.line.items ≡ line_of n) }
{
    let sc = scenario(alloc, n)?;
    let (w, tally) = run_counted(alloc, &sc)?;
    let harts = sc.harts.as_slice().len() as u8;
    let line = summary(alloc, n, harts, &w, tally.done, tally.missed)?;
    Ok(Generated {
        status: status_of(&w),
        line,
    })
}
