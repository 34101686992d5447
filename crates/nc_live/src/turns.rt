//! The turns of the threads: what a thread does while it holds the lock.

ghost use Rattle.std.specs.Prelude.{◌≡◌, ◌<◌, length, IfOk, IfSome};
ghost use Rattle.nc_pool.specs.Answers.{found_of};
ghost use Rattle.nc_turns.specs.Threads.{EndsWith, IsThread};
ghost use Rattle.nc_live.specs.Turns.{aim_of, goes_on, SlotFits};

use crate::crew::{Crew, PoolName, Worker};
use nc_num::{HartNo, NoMemory};
use nc_pool::PoolTry;
use nc_turns::{LiveState, SceneName, Turner};

/// Returns whether thread `t` goes on: the run is not at its end, and the thread has made fewer events than its most.
pub fn goes_on<N: SceneName>(state: &LiveState<N>, t: Turner) -> bool
    requires { IsThread N.scene t }
    ensures { result ≡ goes_on N.scene state.now t }
{
    !state.ended() && state.made(t) < state.most()
}

/// Returns the slot word whose answer the next event of hart `h`'s driver tells, or None where that event tells no
/// answer.
pub fn aim<N: SceneName>(state: &LiveState<N>, h: HartNo) -> Option<u32>
    requires { h.0 < length N.scene.harts }
    ensures value { result ≡ aim_of N.scene state.now h }
    ensures slot { IfSome result (λ k. k < N.scene.slots) }
{
    if state.made(Turner::Driver(h)) % 2 == 0 {
        return state.searching(h);
    }
    None
}

/// What a driver's thread does after a turn.
#[derive(Clone, Copy, Debug, PartialEq, Eq)]
pub enum Ahead {
    /// It stops.
    Nothing,
    /// It makes the next event of its driver.
    Event,
    /// It tries this slot word in the pool, and tells its driver the answer.
    Slot(u32),
}

/// Gives back the slots that the world does not have as the hart's, and returns what the driver's thread does next.
fn look<N: SceneName, P: PoolName>(
    state: &LiveState<N>,
    crew: &Crew<N, P>,
    worker: &mut Worker<N, P>,
) -> Ahead
    ensures slot { SlotFits N.scene.slots result }
    ensures hart { worker.new.me ≡ worker.old.me }
{
    worker.release(crew, state.world());
    match aim(state, worker.me()) {
        Some(k) => Ahead::Slot(k),
        None => Ahead::Event,
    }
}

/// Makes a turn of a driver that tells no answer, and returns what its thread does next. It makes no event where the
/// thread does not go on, or where the driver is at a search.
///
/// # Errors
///
/// `NoMemory` where memory runs out.
pub fn step_turn<N: SceneName, P: PoolName>(
    state: &mut LiveState<N>,
    crew: &Crew<N, P>,
    worker: &mut Worker<N, P>,
) -> Result<Ahead, NoMemory>
    ensures slot { IfOk result (SlotFits N.scene.slots) }
    ensures hart { worker.new.me ≡ worker.old.me }
{
    let me = worker.me();
    if !goes_on(state, Turner::Driver(me)) {
        return Ok(Ahead::Nothing);
    }
    if aim(state, me).is_none() {
        state.turn(Turner::Driver(me))?;
    }
    Ok(look(state, crew, worker))
}

/// Makes a turn that tells a driver the pool's answer to the try of slot word `k`, its seat's last try, and returns
/// what the driver's thread does next. It makes no event where the thread does not go on, or where the driver is not at
/// a search for that word.
///
/// # Errors
///
/// `NoMemory` where memory runs out.
pub fn tell_turn<N: SceneName, P: PoolName>(
    state: &mut LiveState<N>,
    crew: &Crew<N, P>,
    worker: &mut Worker<N, P>,
    k: u32,
    answer: &PoolTry,
) -> Result<Ahead, NoMemory>
    requires log { EndsWith worker.old.seat.log (k, found_of answer.now) }
    ensures slot { IfOk result (SlotFits N.scene.slots) }
    ensures hart { worker.new.me ≡ worker.old.me }
{
    let me = worker.me();
    if !goes_on(state, Turner::Driver(me)) {
        return Ok(Ahead::Nothing);
    }
    if aim(state, me) == Some(k) {
        state.tell(worker.seat(), me, k, answer)?;
    }
    Ok(look(state, crew, worker))
}
