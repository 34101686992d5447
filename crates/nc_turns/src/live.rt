//! The state that the threads share.

ghost use Rattle.std.specs.Prelude.{◌≡◌, ◌+◌, ◌<◌, ◌≤◌, [], ◌∷◌, ◌++◌, Some, true, length, IfOk, OnOk, OnErr, IfSome, MatchOption, nat_lt};
ghost use Rattle.nc_pool.specs.Answers.{found_of};
ghost use Rattle.nc_scen.specs.Accepted.{IsAccepted};
ghost use Rattle.nc_scen.specs.Events.{IsThere};
ghost use Rattle.nc_rules.specs.Events.{enabled};
ghost use Rattle.nc_rules.specs.Flat.{AreThere};
ghost use Rattle.nc_world.specs.Looks.{is_ended};
ghost use Rattle.nc_world.specs.WorldView.{answer as stepped};
ghost use Rattle.nc_turns.specs.Threads.{belongs, made_by, most, is_even, next_of, told_by, search_of, world_of, ComesNext, EndsWith, IsFree, IsThread, IsThreaded, AreFull, AreThrough};

use crate::counts::Counts;
use crate::done::DoneState;
use crate::draws::Draws;
use crate::threads::{SceneName, Turner, driver_event};
use nc_flatness::{worlds_start, worlds_stay};
use nc_num::{HartNo, NoMemory};
use nc_pool::{PoolSeat, PoolTry};
use nc_scen::{Event, Scenario};
use nc_sched::{channel_event, seed_of};
use nc_world::{Stepped, World};
use std::alloc::Global;
use std::marker::{Model, PhantomData};

/// A history of threads, with the world that it leads to. Contracts see the history: the world is its run on the
/// scenario that N names, and each event comes next in its thread.
#[derive(Drop)]
pub struct LiveState<N: SceneName> {
    limit: u64,
    harts: u8,
    blocks: u32,
    counts: Counts,
    draws: Draws,
    world: World,
    history: Vec<Event>,
    of: PhantomData<N>,
}

impl<N: SceneName> Model for LiveState<N> {
    ghost use Rattle.std.specs.Prelude.{List};
    ghost use Rattle.nc_scen.specs.declared.events.Event.{Event};
    ghost use Rattle.nc_turns.specs.States.{IsLive};

    ghost Value = { List Event };

    ghost view = { λ s. s.history.items };

    ghost invariant = { λ s. IsLive N.scene s.limit s.harts s.blocks s.counts s.draws s.world s.history.items };
}

impl<N: SceneName> LiveState<N> {
    // ---- the start

    /// Makes the state before any event of the scenario that N names, with an empty history.
    ///
    /// # Errors
    ///
    /// `NoMemory` where memory runs out.
    pub fn new(alloc: Global, sc: &Scenario) -> Result<LiveState<N>, NoMemory>
        requires scene { sc.now ≡ N.scene }
        requires accepted { IsAccepted sc.now }
        ensures { IfOk result (λ s. s ≡ []) }
    {
        worlds_start();
        Ok(LiveState {
            limit: sc.limit,
            harts: sc.harts.as_slice().len() as u8,
            blocks: sc.ram / sc.block_size,
            counts: Counts::none(),
            draws: Draws::new(seed_of(&sc.plan)),
            world: World::new(alloc, sc)?,
            history: Vec::new(alloc),
            of: PhantomData,
        })
    }

    // ---- one event

    /// Makes the next event of thread `t`, done or skipped, and appends it to the history. Returns what the step
    /// answered.
    ///
    /// The thread has made fewer events than its most. It is no driver that is at a search and whose turn it is to
    /// issue.
    ///
    /// # Errors
    ///
    /// `NoMemory` where memory runs out; then the state is unchanged.
    pub fn turn(&mut self, t: Turner) -> Result<Stepped, NoMemory>
        requires thread { IsThread N.scene t }
        requires room { made_by t self.old < most N.scene }
        requires free { IsFree N.scene self.old t }
        ensures event { OnOk result (self.new ≡ self.old ++ next_of N.scene self.old t ∷ []) }
        ensures answer { IfOk result (λ s. s ≡ stepped (world_of N.scene self.old) (next_of N.scene self.old t)) }
        ensures err { OnErr result (self.new ≡ self.old) }
    {
        let e = self.next_event(t);
        self.append(e)
    }

    /// Tells the driver of hart `me` the pool's answer to the seat's last try, and appends this event to the history.
    /// The try was of slot word `k`, which the driver's search tries next. No other call tells an answer.
    ///
    /// # Errors
    ///
    /// `NoMemory` where memory runs out; then the state is unchanged.
    pub fn tell(
        &mut self,
        seat: &PoolSeat,
        me: HartNo,
        k: u32,
        answer: &PoolTry,
    ) -> Result<(), NoMemory>
        requires thread { me.0 < length N.scene.harts }
        requires room { made_by (Turner.Driver me) self.old < most N.scene }
        requires even { is_even (made_by (Turner.Driver me) self.old) ≡ true }
        requires search { search_of N.scene self.old me ≡ Some k }
        requires log { EndsWith seat.now.log (k, found_of answer.now) }
        ensures event { OnOk result (self.new ≡ self.old ++ told_by me answer.now ∷ []) }
        ensures enabled { enabled (world_of N.scene self.old) (told_by me answer.now) ≡ true }
        ensures err { OnErr result (self.new ≡ self.old) }
    {
        self.append(told_event(me, answer))?;
        Ok(())
    }

    // ---- looks

    /// Returns the events so far, in order.
    pub fn history(&self) -> &[Event]
        ensures value { result.now ≡ self.now }
        ensures there { AreThere N.scene self.now }
        ensures few { length self.now ≤ N.scene.limit }
        ensures threaded { IsThreaded N.scene self.now }
    {
        self.history.as_slice()
    }

    /// Returns the world that the history leads to. It has no records.
    pub fn world(&self) -> &World
        ensures state { result.now.state ≡ world_of N.scene self.now }
        ensures none { result.now.records ≡ [] }
        ensures harts { length result.now.state.machine.harts ≡ length N.scene.harts }
    {
        &self.world
    }

    /// Returns the count of events of the history that thread `t` has made.
    pub fn made(&self, t: Turner) -> u64
        requires { IsThread N.scene t }
        ensures value { result ≡ made_by t self.now }
        ensures few { result ≤ most N.scene }
    {
        self.counts.of(t)
    }

    /// Returns the most events that a thread makes: an eighth of the scenario's limit.
    pub fn most(&self) -> u64
        ensures { result ≡ most N.scene }
    {
        self.limit / 8
    }

    /// Returns the count of the scenario's harts.
    pub fn harts(&self) -> u8
        ensures { result ≡ length N.scene.harts }
    {
        self.harts
    }

    /// Returns the slot word that the search of hart `h`'s driver tries next, or None where the driver is at no search.
    pub fn searching(&self, h: HartNo) -> Option<u32>
        requires { h.0 < length N.scene.harts }
        ensures value { result ≡ search_of N.scene self.now h }
        ensures slot { IfSome result (λ k. k < N.scene.slots) }
    {
        self.world.searching(h)
    }

    /// Returns whether every script is at its end and every store queue is empty.
    pub fn ended(&self) -> bool
        ensures { result ≡ is_ended (world_of N.scene self.now) }
    {
        self.world.ended()
    }

    /// Returns a thread that has made fewer events than its most, or None where each has made its most.
    pub fn behind(&self) -> Option<Turner>
        ensures { MatchOption result (AreFull N.scene self.now) (λ t. IsThread N.scene t × (made_by t self.now < most N.scene)) }
    {
        for h in 0..self.harts {
            if self.is_behind(Turner::Driver(HartNo(h))) {
                return Some(Turner::Driver(HartNo(h)));
            }
        }
        if self.is_behind(Turner::Channels) {
            return Some(Turner::Channels);
        }
        if self.is_behind(Turner::Caches) {
            return Some(Turner::Caches);
        }
        None
    }

    // ---- the end

    /// Ends the turns of the threads, which are done: the run is at its end, or each thread has made its most. It takes
    /// no memory.
    pub fn finish(self) -> DoneState<N>
        requires { AreThrough N.scene self }
        ensures events { result.events ≡ self }
        ensures turns { result.turns ≡ length self }
    {
        let LiveState {
            limit,
            harts: _,
            blocks: _,
            counts: _,
            draws: _,
            world,
            history,
            of: _,
        } = self;
        DoneState::of_turns(limit, world, history)
    }

    // ---- what the calls are made of

    /// Returns whether thread `t` has made fewer events than its most.
    fn is_behind(&self, t: Turner) -> bool
        requires { IsThread N.scene t }
        ensures { result ≡ nat_lt (made_by t self.now) (most N.scene) }
    {
        self.made(t) < self.most()
    }

    /// Returns the next event of thread `t`, which is no driver at a search.
    fn next_event(&self, t: Turner) -> Event
        requires { IsThread N.scene t }
        ensures value { result ≡ next_of N.scene self.now t }
        ensures there { IsThere (length N.scene.harts) N.scene.block_size N.scene.ram result }
    {
        match t {
            Turner::Driver(h) => driver_event(h, self.made(t)),
            Turner::Channels => channel_event((self.made(t) % 8) as usize),
            Turner::Caches => self.draws.event(self.harts, self.blocks),
        }
    }

    /// Makes event `e`, which comes next in its thread, and appends it to the history.
    fn append(&mut self, e: Event) -> Result<Stepped, NoMemory>
        requires there { IsThere (length N.scene.harts) N.scene.block_size N.scene.ram e }
        requires next { ComesNext N.scene self.old e }
        requires room { (t : Turner) → belongs t e ≡ true → made_by t self.old < most N.scene }
        ensures event { OnOk result (self.new ≡ self.old ++ e ∷ []) }
        ensures answer { IfOk result (λ s. s ≡ stepped (world_of N.scene self.old) e) }
        ensures err { OnErr result (self.new ≡ self.old) }
    {
        worlds_stay();
        self.history.reserve(1)?;
        let stepped = self.world.step(e)?;
        self.world.clear_records();
        self.history.push_reserved(e);
        self.counts.count(e);
        self.draws.pass(e);
        Ok(stepped)
    }
}

/// Returns the event that tells the driver of hart `me` a pool's answer.
fn told_event(me: HartNo, answer: &PoolTry) -> Event
    ensures { result ≡ told_by me answer.now }
{
    match answer {
        PoolTry::Got => Event::Told(me, true),
        PoolTry::Held(found) => Event::Told(me, *found == 0),
    }
}
