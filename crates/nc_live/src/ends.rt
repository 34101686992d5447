//! The turns that the threads left, which the caller makes once the threads have ended.

ghost use Rattle.std.specs.Prelude.{◌≡◌, ◌+◌, ◌<◌, ◌≤◌, length, OnOk};
ghost use Rattle.nc_turns.specs.Threads.{made_by, most, AreThrough, IsThread};

use crate::crew::{Crew, PoolName, Team, Worker};
use crate::turns::aim;
use nc_num::NoMemory;
use nc_turns::{LiveState, SceneName, Turner};

/// Makes the next event of a driver. At a search its seat tries the slot first.
fn make_event<N: SceneName, P: PoolName>(
    state: &mut LiveState<N>,
    crew: &Crew<N, P>,
    worker: &mut Worker<N, P>,
) -> Result<(), NoMemory>
    requires { made_by (Turner.Driver worker.old.me) state.old < most N.scene }
    ensures one { OnOk result (length state.new ≡ length state.old + 1) }
    ensures hart { worker.new.me ≡ worker.old.me }
{
    let me = worker.me();
    match aim(state, me) {
        Some(k) => {
            let answer = worker.try_slot(crew, k)?;
            state.tell(worker.seat(), me, k, &answer)?;
        }
        None => {
            state.turn(Turner::Driver(me))?;
        }
    }
    worker.release(crew, state.world());
    Ok(())
}

/// Makes the next event of thread `t`, which has made fewer than its most.
fn further_turn<N: SceneName, P: PoolName>(
    state: &mut LiveState<N>,
    crew: &Crew<N, P>,
    team: &mut Team<N, P>,
    t: Turner,
) -> Result<(), NoMemory>
    requires thread { IsThread N.scene t }
    requires room { made_by t state.old < most N.scene }
    ensures one { OnOk result (length state.new ≡ length state.old + 1) }
    ensures few { OnOk result (length state.new ≤ N.scene.limit) }
{
    match t {
        Turner::Driver(h) => {
            make_event(state, crew, &mut team.workers[usize::from(h.0)])?;
        }
        Turner::Channels | Turner::Caches => {
            state.turn(t)?;
        }
    }
    let events = state.history().len();
    prove!(0 < events);
    Ok(())
}

/// Makes the turns that the threads left, until the run is at its end or each thread has made its most.
///
/// # Errors
///
/// `NoMemory` where memory runs out; then some of these turns may have been made.
pub fn make_up<N: SceneName, P: PoolName>(
    state: &mut LiveState<N>,
    crew: &Crew<N, P>,
    team: &mut Team<N, P>,
) -> Result<(), NoMemory>
    ensures { OnOk result (AreThrough N.scene state.new) }
{
    'making: while !state.ended() {
        let Some(t) = state.behind() else {
            return Ok(());
        };
        further_turn(state, crew, team, t)?;
    }
    Ok(())
}
