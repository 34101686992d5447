//! The pool of slots that all drivers share, and each driver's seat of it.

ghost use Rattle.std.specs.Prelude.{◌≡◌, ℕ, ◌<◌, ◌+◌, ◌&&◌, not, [], true, length, get_or, vec_len, IfOk};
ghost use Rattle.nc_pool.specs.Views.{has, is_distinct, without};
ghost use Rattle.nc_pool.specs.Answers.{found_of};
ghost use Rattle.nc_turns.specs.Threads.{EndsWith};
ghost use Rattle.nc_live.specs.Names.{is_held_by};

use nc_num::{HartNo, NoMemory};
use nc_pool::{NewSeat, Pool, PoolRoot, PoolSeat, PoolTry};
use nc_turns::SceneName;
use nc_world::World;
use std::alloc::Global;
use std::marker::{Brand, PhantomData};

/// The name of one pool, in contracts alone.
pub trait PoolName {
    ghost use Rattle.atomic_table.specs.Seated.{TableId};

    ghost pool: { TableId };
}

impl PoolName for Brand {
    ghost use Rattle.nc_live.specs.Names.{no_pool};

    ghost pool = { no_pool };
}

/// The pool that P names, with as many slots and seats as the scenario that N names has slots and harts.
#[derive(Drop)]
pub struct Crew<N: SceneName, P: PoolName> {
    pool: Pool,
    slots: u32,
    scene: PhantomData<N>,
    of: PhantomData<P>,
    ghost named: { pool.id ≡ P.pool },
    ghost size: { pool.slots ≡ slots },
    ghost scenario: { slots ≡ N.scene.slots },
    ghost seats: { pool.seats ≡ length N.scene.harts },
}

/// The driver of a hart with its seat of the pool, and the slots that the seat holds.
#[derive(Drop)]
pub struct Worker<N: SceneName, P: PoolName> {
    me: HartNo,
    seat: PoolSeat,
    mine: Vec<u32>,
    scene: PhantomData<N>,
    of: PhantomData<P>,
    ghost hart: { me.0 < length N.scene.harts },
    ghost named: { seat.pool ≡ P.pool },
    ghost same: { seat.held ≡ mine.items },
    ghost distinct: { is_distinct mine.items ≡ true },
}

/// The drivers of all harts, in the order of the harts.
#[derive(Drop)]
pub struct Team<N: SceneName, P: PoolName> {
    pub workers: Vec<Worker<N, P>>,
    ghost all: { vec_len workers ≡ length N.scene.harts },
    ghost seated: { (k : ℕ) (w : _) → k < length N.scene.harts → (get_or workers.items k w).me.0 ≡ k },
}

impl<N: SceneName, P: PoolName> Team<N, P> {
    /// Makes the team of these drivers, one for each hart, in the order of the harts.
    pub fn new(workers: Vec<Worker<N, P>>) -> Team<N, P>
        requires all { vec_len workers ≡ length N.scene.harts }
        requires seated { (k : ℕ) (w : _) → k < length N.scene.harts → (get_or workers.items k w).me.0 ≡ k }
    {
        Team { workers }
    }

    /// Returns the drivers, in the order of their harts.
    pub fn into_workers(self) -> Vec<Worker<N, P>>
        ensures all { vec_len result ≡ length N.scene.harts }
        ensures seated { (k : ℕ) (w : _) → k < length N.scene.harts → (get_or result.items k w).me.0 ≡ k }
    {
        let Team { workers } = self;
        workers
    }
}

impl<N: SceneName, P: PoolName> Worker<N, P> {
    /// Tries slot `k` of the pool once with the driver's seat, and keeps the slot where it was free. Returns what the
    /// pool answered.
    ///
    /// # Errors
    ///
    /// `NoMemory` where memory runs out.
    pub fn try_slot(&mut self, crew: &Crew<N, P>, k: u32) -> Result<PoolTry, NoMemory>
        requires { k < N.scene.slots }
        ensures log { IfOk result (λ a. EndsWith self.new.seat.log (k, found_of a)) }
        ensures hart { self.new.me ≡ self.old.me }
    {
        let Worker { seat, mine, .. } = self;
        mine.reserve(1)?;
        match crew.pool.try_slot(seat, k) {
            PoolTry::Got => {
                mine.push_reserved(k);
                Ok(PoolTry::Got)
            }
            PoolTry::Held(w) => Ok(PoolTry::Held(w)),
        }
    }

    /// Returns the hart of the driver.
    pub fn me(&self) -> HartNo
        ensures { result ≡ self.now.me }
    {
        self.me
    }

    /// Returns the driver's seat of the pool.
    pub fn seat(&self) -> &PoolSeat
        ensures { result.now ≡ self.now.seat }
    {
        &self.seat
    }

    /// Returns whether the seat holds slot `k`.
    fn holds(&self, k: u32) -> bool
        ensures { result ≡ has k self.now.mine.items }
    {
        self.mine.iter().any(|x| *x == k)
    }

    /// Gives back each slot that the seat holds and that the world does not have as the hart's. Such a slot is one
    /// whose word the hart's operation gave back, or one that the search was told was free while the world had its word
    /// as another hart's.
    pub fn release(&mut self, crew: &Crew<N, P>, world: &World)
        ensures slots { (k : ℕ) → k < N.scene.slots → has k self.new.mine.items ≡ (has k self.old.mine.items && is_held_by world.now.state.slots k self.old.me) }
        ensures hart { self.new.me ≡ self.old.me }
    {
        for k in 0..crew.slots {
            if self.is_left(world, k) {
                self.give(crew, k);
            }
        }
    }

    /// Returns whether the seat holds slot `k` and the world does not have it as the hart's.
    fn is_left(&self, world: &World, k: u32) -> bool
        ensures { result ≡ (has k self.now.mine.items && not (is_held_by world.now.state.slots k self.now.me)) }
    {
        self.holds(k) && !self.is_mine(world, k)
    }

    /// Returns whether the world has slot word `k` as the hart's.
    fn is_mine(&self, world: &World, k: u32) -> bool
        ensures { result ≡ is_held_by world.now.state.slots k self.now.me }
    {
        match world.holder(k) {
            Some(g) => g.0 == self.me.0,
            None => false,
        }
    }

    /// Gives slot `k` back.
    fn give(&mut self, crew: &Crew<N, P>, k: u32)
        requires { has k self.old.mine.items ≡ true }
        ensures slots { self.new.mine.items ≡ without k self.old.mine.items }
        ensures hart { self.new.me ≡ self.old.me }
    {
        let Worker { seat, mine, .. } = self;
        crew.pool.give(seat, k);
        mine.retain(|x| *x != k);
    }

    /// Gives all slots back.
    fn give_all(&mut self, crew: &Crew<N, P>)
        ensures slots { self.new.mine.items ≡ [] }
        ensures hart { self.new.me ≡ self.old.me }
    {
        let Worker { seat, mine, .. } = self;
        while let Some(k) = mine.pop() {
            crew.pool.give(seat, k);
        }
    }
}

impl<N: SceneName, P: PoolName> Crew<N, P> {
    /// Makes the crew of a pool with `slots` slots.
    pub fn new(pool: Pool, slots: u32) -> Crew<N, P>
        requires named { pool.id ≡ P.pool }
        requires size { pool.slots ≡ slots }
        requires scenario { slots ≡ N.scene.slots }
        requires seats { pool.seats ≡ length N.scene.harts }
    {
        Crew {
            pool,
            slots,
            scene: PhantomData,
            of: PhantomData,
        }
    }

    /// Takes the next seat of the pool for the driver of hart `me`, which holds no slot yet.
    fn recruit(&self, alloc: Global, root: &mut PoolRoot, me: HartNo) -> Worker<N, P>
        requires hart { me.0 < length N.scene.harts }
        requires root { root.old.pool ≡ P.pool }
        requires next { root.old.next ≡ me.0 }
        ensures root { root.new.pool ≡ P.pool }
        ensures next { root.new.next ≡ me.0 + 1 }
        ensures hart { result.me ≡ me }
    {
        match self.pool.seat(root) {
            NewSeat::Seat(seat) => Worker {
                me,
                seat,
                mine: Vec::new(alloc),
                scene: PhantomData,
                of: PhantomData,
            },
            NewSeat::NoneLeft => unreachable!(),
        }
    }

    /// Takes the seats of all drivers, in the order of their harts, from a root that has given none.
    ///
    /// # Errors
    ///
    /// `NoMemory` where memory runs out; then no team is made.
    pub fn recruit_all(
        &self,
        alloc: Global,
        root: &mut PoolRoot,
        harts: u8,
    ) -> Result<Team<N, P>, NoMemory>
        requires harts { harts ≡ length N.scene.harts }
        requires root { root.old.pool ≡ P.pool }
        requires next { root.old.next ≡ 0 }
        ensures { root.new.pool ≡ P.pool }
    {
        let mut workers = Vec::new(alloc);
        for h in 0..harts {
            workers.push(self.recruit(alloc, root, HartNo(h)))?;
        }
        Ok(Team::new(workers))
    }

    /// Gives back the slots that a driver's seat holds, and gives the seat back to the root.
    pub fn dismiss(&self, root: &mut PoolRoot, worker: Worker<N, P>)
        requires { root.old.pool ≡ P.pool }
        ensures { root.new.pool ≡ P.pool }
    {
        let mut worker = worker;
        worker.give_all(self);
        let Worker {
            me: _,
            seat,
            mine: _,
            scene: _,
            of: _,
        } = worker;
        self.pool.join(root, seat);
    }
}
