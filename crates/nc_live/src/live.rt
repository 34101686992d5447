//! A scenario's run in threads.

ghost use Rattle.std.specs.Prelude.{◌≡◌, ◌≢◌, ◌≤◌, length, Err, IfOk, OnErr};
ghost use Rattle.nc_io.specs.Causes.{Rose};
ghost use Rattle.nc_scen.specs.Accepted.{IsAccepted};
ghost use Rattle.nc_top.specs.Due.{IsAnswer};
ghost use Rattle.nc_turns.specs.Played.{IsLiveRun};
ghost use Rattle.nc_turns.specs.Threads.{AreThrough};
ghost use Rattle.nc_live.specs.Due.{WroteLive, GrewByLive};

use crate::crew::{Crew, PoolName};
use crate::ends::make_up;
use crate::gate::Gate;
use crate::threads::drive_all;
use nc_copied::copied_law;
use nc_flat::{kept_law, latest_law};
use nc_io::{Sink, Stop};
use nc_num::NoMemory;
use nc_pool::{Pool, PoolRoot};
use nc_scen::Scenario;
use nc_turns::{DoneState, LiveState, SceneName, write_live};
use std::alloc::Global;
use std::marker::Brand;
use std::sync::{Mutex, Wait};
use std::thread::Threads;

/// Makes the turns of all threads over one lock and one pool, and then the turns that they left.
fn with_pool<
    N: SceneName + Send + Sync,
    P: PoolName + Send + Sync,
    R: Threads + Wait + Sync,
    G: Gate,
>(
    rt: &R,
    alloc: Global,
    state: LiveState<N>,
    pool: Pool,
    root: PoolRoot,
    slots: u32,
    gate: &G,
) -> Result<LiveState<N>, NoMemory>
    requires pool { pool.id ≡ P.pool }
    requires size { pool.slots ≡ slots }
    requires scenario { slots ≡ N.scene.slots }
    requires seats { pool.seats ≡ length N.scene.harts }
    requires root { root.pool ≡ P.pool }
    requires next { root.next ≡ 0 }
    ensures { IfOk result (AreThrough N.scene) }
{
    let mut root = root;
    let crew: Crew<N, P> = Crew::new(pool, slots);
    let most = state.most();
    let team = crew.recruit_all(alloc, &mut root, state.harts())?;
    let live = Mutex::new(state);
    let mut team = drive_all(rt, alloc, &live, &crew, gate, team, most)?;
    let mut state = live.into_inner();
    make_up(&mut state, &crew, &mut team)?;
    for worker in team.into_workers() {
        crew.dismiss(&mut root, worker);
    }
    Ok(state)
}

/// Makes the history of a scenario: the turns of its threads, and finishing rounds.
fn make_history<N: SceneName + Send + Sync, R: Threads + Wait + Sync, G: Gate>(
    rt: &R,
    alloc: Global,
    sc: &Scenario,
    gate: &G,
) -> Result<DoneState<N>, NoMemory>
    requires scene { sc.now ≡ N.scene }
    requires accepted { IsAccepted sc.now }
    ensures { IfOk result (λ d. IsLiveRun sc.now d.events) }
{
    let state = LiveState::<N>::new(alloc, sc)?;
    let (pool, root) = Pool::new(alloc, sc.slots, u32::from(state.harts()))?;
    let state = with_pool::<N, Brand, R, G>(rt, alloc, state, pool, root, sc.slots, gate)?;
    let mut done = state.finish();
    done.add_rounds(sc)?;
    Ok(done)
}

/// Runs a scenario in threads, and writes the history that they made and the report of its run. Returns the status of
/// the run: 0, 1 or 7.
///
/// # Errors
///
/// `Failed` where a write fails, and `NoMemory` where memory runs out; then nothing was written, or a prefix of what is
/// due for a history of the scenario's threads.
pub fn live_run<N: SceneName + Send + Sync, R: Threads + Wait + Sync, K: Sink, G: Gate>(
    rt: &R,
    alloc: Global,
    sc: &Scenario,
    out: &mut K,
    gate: &G,
) -> Result<u8, Stop>
    requires scene { sc.now ≡ N.scene }
    requires accepted { IsAccepted sc.now }
    ensures text { IfOk result (λ n. WroteLive (K.held out.old) (K.held out.new) sc.now n) }
    ensures kind { IfOk result IsAnswer }
    ensures run { IfOk result (λ n. n ≢ 3) }
    ensures prefix { OnErr result (GrewByLive (K.held out.old) (K.held out.new) sc.now) }
    ensures later { K.faults out.old ≤ K.faults out.new }
    ensures cause { result ≡ Err Stop.Failed → Rose (K.faults out.old) (K.faults out.new) }
{
    latest_law();
    kept_law();
    copied_law();
    let Ok(done) = make_history::<N, R, G>(rt, alloc, sc, gate) else {
        return Err(Stop::NoMemory);
    };
    let status = write_live(alloc, sc, done.history(), out)?;
    Ok(status)
}
