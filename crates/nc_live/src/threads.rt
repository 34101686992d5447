//! The threads: one for each driver, one for the channels, one for the caches.

ghost use Rattle.std.specs.Prelude.{◌≡◌, ℕ, ◌+◌, ◌<◌, length, get_or, vec_len, IfOk};
ghost use Rattle.nc_live.specs.Turns.{SlotFits};

use crate::crew::{Crew, PoolName, Team, Worker};
use crate::gate::Gate;
use crate::turns::{Ahead, goes_on, step_turn, tell_turn};
use nc_num::{HartNo, NoMemory};
use nc_turns::{LiveState, SceneName, Turner};
use std::alloc::Global;
use std::sync::{Mutex, Wait};
use std::thread;
use std::thread::{Promise, PromisedHandle, Threads};

/// Makes a turn of a driver's thread. It tries a slot before it takes the lock.
fn driver_turn<N: SceneName, P: PoolName, R: Wait>(
    rt: &R,
    live: &Mutex<LiveState<N>>,
    crew: &Crew<N, P>,
    worker: &mut Worker<N, P>,
    ahead: Ahead,
) -> Result<Ahead, NoMemory>
    requires { SlotFits N.scene.slots ahead }
    ensures slot { IfOk result (SlotFits N.scene.slots) }
    ensures hart { worker.new.me ≡ worker.old.me }
{
    match ahead {
        Ahead::Nothing => Ok(Ahead::Nothing),
        Ahead::Event => {
            let mut state = live.lock(rt);
            step_turn(&mut state, crew, worker)
        }
        Ahead::Slot(k) => {
            let answer = worker.try_slot(crew, k)?;
            let mut state = live.lock(rt);
            tell_turn(&mut state, crew, worker, k, &answer)
        }
    }
}

/// Makes at most `most` turns of a driver's thread. The thread stops where memory runs out.
fn drive<N: SceneName, P: PoolName, R: Wait, G: Gate>(
    rt: &R,
    live: &Mutex<LiveState<N>>,
    crew: &Crew<N, P>,
    gate: &G,
    worker: Worker<N, P>,
    most: u64,
) -> Worker<N, P>
    ensures { result.me ≡ worker.me }
{
    let mut worker = worker;
    let mut ahead = Ahead::Event;
    for turn in 0..most {
        gate.before(worker.me().0, turn);
        ahead = match driver_turn(rt, live, crew, &mut worker, ahead) {
            Ok(ahead) => ahead,
            Err(NoMemory) => Ahead::Nothing,
        };
        if ahead == Ahead::Nothing {
            break;
        }
    }
    worker
}

/// Makes a turn of the channels' or the caches' thread, and returns whether the thread goes on.
fn other_turn<N: SceneName, R: Wait>(rt: &R, live: &Mutex<LiveState<N>>, caches: bool) -> bool {
    let t = if caches {
        Turner::Caches
    } else {
        Turner::Channels
    };
    let mut state = live.lock(rt);
    goes_on(&state, t) && state.turn(t).is_ok()
}

/// Makes at most `most` turns of the channels' or the caches' thread. The thread stops where memory runs out.
fn go_round<N: SceneName, R: Wait>(rt: &R, live: &Mutex<LiveState<N>>, caches: bool, most: u64) {
    for _ in 0..most {
        if !other_turn(rt, live, caches) {
            break;
        }
    }
}

/// The promise that the worker that a thread hands back is that of this hart.
#[derive(Clone, Copy)]
struct DriverOf(HartNo);

impl<N: SceneName, P: PoolName> Promise<Worker<N, P>> for DriverOf {
    ghost kept_by = { λ p w. w.me ≡ p.0 };
}

/// Joins the threads of the first harts, and appends the workers of the other harts, for which no thread could be made.
fn gather<N: SceneName, P: PoolName, R: Threads>(
    rt: &R,
    handles: Vec<PromisedHandle<Worker<N, P>, DriverOf>>,
    here: Vec<Worker<N, P>>,
) -> Result<Team<N, P>, NoMemory>
    requires all { vec_len handles + vec_len here ≡ length N.scene.harts }
    requires started { (k : ℕ) (h : _) → k < vec_len handles → (get_or handles.items k h).promise.0.0 ≡ k }
    requires made { (k : ℕ) (w : _) → k < vec_len here → (get_or here.items k w).me.0 ≡ vec_len handles + k }
{
    let mut workers = thread::join_promised(rt, handles)?;
    for worker in here {
        workers.push(worker)?;
    }
    Ok(Team::new(workers))
}

/// Makes at most `most` turns of each driver and of the channels and the caches, each in a thread of its own where one
/// can be made, and hands the workers back.
///
/// # Errors
///
/// `NoMemory` where memory runs out for the threads or the team; then some turns may have been made.
pub fn drive_all<
    'x,
    N: SceneName + Send + Sync,
    P: PoolName + Send + Sync,
    R: Threads + Wait + Sync,
    G: Gate,
>(
    rt: &'x R,
    alloc: Global,
    live: &'x Mutex<LiveState<N>>,
    crew: &'x Crew<N, P>,
    gate: &'x G,
    team: Team<N, P>,
    most: u64,
) -> Result<Team<N, P>, NoMemory> {
    thread::scope(thread::scope_env(), rt, |scope| {
        let mut handles = Vec::new(alloc);
        let mut here = Vec::new(alloc);
        'starting: for worker in team.into_workers() {
            if !here.is_empty() {
                here.push(drive(rt, live, crew, gate, worker, most))?;
                continue;
            }
            let promise = DriverOf(worker.me());
            match scope.spawn_with(promise, move || {
                drive(rt, live, crew, gate, worker, most)
            }) {
                Ok(handle) => {
                    handles.push(handle)?;
                    continue;
                }
                Err(refused) => {
                    here.push((refused.value)())?;
                    continue;
                }
            }
        }
        let channels = scope.spawn(move || go_round(rt, live, false, most));
        let caches = scope.spawn(move || go_round(rt, live, true, most));
        let team = gather(rt, handles, here)?;
        if let Ok(handle) = channels {
            handle.join(rt);
        }
        if let Ok(handle) = caches {
            handle.join(rt);
        }
        Ok(team)
    })
}
