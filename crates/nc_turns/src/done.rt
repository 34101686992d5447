//! The state after the turns of the threads: the history of their turns, and finishing rounds.

ghost use Rattle.std.specs.Prelude.{◌≡◌, ◌≢◌, ◌<◌, ◌≤◌, [], ◌∷◌, ◌++◌, length, take, Bool, IfOk, OnOk, OnErr};
ghost use Rattle.nc_num.specs.declared.names.HartNo.{HartNo};
ghost use Rattle.nc_scen.specs.Events.{IsThere};
ghost use Rattle.nc_rules.specs.Flat.{AreThere};
ghost use Rattle.nc_rules.specs.Schedule.{sched};
ghost use Rattle.nc_world.specs.WorldView.{answer as stepped};
ghost use Rattle.nc_turns.specs.Played.{finished, IsLiveRun};
ghost use Rattle.nc_turns.specs.States.{IsRun};
ghost use Rattle.nc_turns.specs.Threads.{world_of, IsThreaded, AreThrough};

use crate::threads::SceneName;
use nc_flatness::worlds_stay;
use nc_num::NoMemory;
use nc_scen::{Event, Scenario};
use nc_sched::Sched;
use nc_world::{Stepped, World};
use std::marker::{Model, PhantomData};

/// A history whose first events are the turns of threads that are done (the run is at its end, or each thread has made
/// its most), with the world that the history leads to. Contracts see the history and the count of those turns.
#[derive(Drop)]
pub struct DoneState<N: SceneName> {
    limit: u64,
    turns: u64,
    world: World,
    history: Vec<Event>,
    of: PhantomData<N>,
}

impl<N: SceneName> Model for DoneState<N> {
    ghost use Rattle.nc_turns.specs.States.{Past, IsDone};

    ghost Value = { Past };

    ghost view = { λ s. record { events = s.history.items; turns = s.turns } };

    ghost invariant = { λ s. IsDone N.scene s.limit s.turns s.world s.history.items };
}

impl<N: SceneName> DoneState<N> {
    /// Makes the state of a history whose threads are done, with the world that the history leads to.
    pub(crate) fn of_turns(limit: u64, world: World, history: Vec<Event>) -> DoneState<N>
        requires limit { limit ≡ N.scene.limit }
        requires run { IsRun N.scene world history.items }
        requires threaded { IsThreaded N.scene history.items }
        requires through { AreThrough N.scene history.items }
        ensures events { result.events ≡ history.items }
        ensures turns { result.turns ≡ length history.items }
    {
        let turns = history.len() as u64;
        DoneState {
            limit,
            turns,
            world,
            history,
            of: PhantomData,
        }
    }

    // ---- events after the turns

    /// Makes event `e`, done or skipped, and appends it to the history. The event is no answer of a pool. Returns what
    /// the step answered.
    ///
    /// # Errors
    ///
    /// `NoMemory` where memory runs out; then the state is unchanged.
    pub fn add(&mut self, e: Event) -> Result<Stepped, NoMemory>
        requires room { length self.old.events < N.scene.limit }
        requires there { IsThere (length N.scene.harts) N.scene.block_size N.scene.ram e }
        requires tells_nothing { (h : HartNo) (got : Bool) → e ≢ Event.Told h got }
        ensures events { OnOk result (self.new.events ≡ self.old.events ++ e ∷ []) }
        ensures answer { IfOk result (λ s. s ≡ stepped (world_of N.scene self.old.events) e) }
        ensures turns { self.new.turns ≡ self.old.turns }
        ensures err { OnErr result (self.new ≡ self.old) }
    {
        self.append(e)
    }

    /// Makes finishing rounds after the turns, up to the first round in which every event is skipped, or to the
    /// scenario's limit.
    ///
    /// # Errors
    ///
    /// `NoMemory` where memory runs out; then some events of the rounds may have been made.
    pub fn add_rounds(&mut self, sc: &Scenario) -> Result<(), NoMemory>
        requires scene { sc.now ≡ N.scene }
        requires fresh { length self.old.events ≡ self.old.turns }
        ensures events { OnOk result (self.new.events ≡ sched (finished N.scene self.old.events)) }
        ensures live { OnOk result (IsLiveRun N.scene self.new.events) }
        ensures turns { self.new.turns ≡ self.old.turns }
    {
        let mut rounds = Sched::rounds(self.limit - self.turns);
        let mut last = None;
        'adding: while let Some(e) = rounds.next(sc, self.world(), last) {
            let stepped = self.append(e)?;
            last = Some(stepped);
        }
        Ok(())
    }

    // ---- looks

    /// Returns the count of events that the threads made, which are the first of the history.
    pub fn turns(&self) -> u64
        ensures value { result ≡ self.now.turns }
        ensures few { result ≤ length self.now.events }
    {
        self.turns
    }

    /// Returns the events, in order.
    pub fn history(&self) -> &[Event]
        ensures value { result.now ≡ self.now.events }
        ensures there { AreThere N.scene self.now.events }
        ensures few { length self.now.events ≤ N.scene.limit }
        ensures threaded { IsThreaded N.scene (take self.now.turns self.now.events) }
        ensures through { AreThrough N.scene (take self.now.turns self.now.events) }
    {
        self.history.as_slice()
    }

    /// Returns the world that the history leads to. It has no records.
    pub fn world(&self) -> &World
        ensures state { result.now.state ≡ world_of N.scene self.now.events }
        ensures none { result.now.records ≡ [] }
        ensures harts { length result.now.state.machine.harts ≡ length N.scene.harts }
    {
        &self.world
    }

    /// Makes event `e` and appends it to the history.
    fn append(&mut self, e: Event) -> Result<Stepped, NoMemory>
        requires room { length self.old.events < N.scene.limit }
        requires there { IsThere (length N.scene.harts) N.scene.block_size N.scene.ram e }
        ensures events { OnOk result (self.new.events ≡ self.old.events ++ e ∷ []) }
        ensures answer { IfOk result (λ s. s ≡ stepped (world_of N.scene self.old.events) e) }
        ensures turns { self.new.turns ≡ self.old.turns }
        ensures err { OnErr result (self.new ≡ self.old) }
    {
        worlds_stay();
        self.history.reserve(1)?;
        let stepped = self.world.step(e)?;
        self.world.clear_records();
        self.history.push_reserved(e);
        Ok(stepped)
    }
}
