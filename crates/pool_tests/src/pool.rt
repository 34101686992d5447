//! What no clause says: that the calls succeed, and that threads take slots at once.

ghost use Rattle.std.specs.Prelude.{◌≡◌, []};

use nc_num::NoMemory;
use nc_pool::{NewSeat, Pool, PoolRoot, PoolSeat, PoolTry, each_slot_is_owned_once};
use std::alloc::Global;
use std::marker::{Brand, PhantomData};
use std::sync::Wait;
use std::test::Fail;
use std::thread;
use std::thread::Threads;

#[test]
fn one_slot_two_seats(rt: HostRuntime) {
    each_slot_is_owned_once();
    let Ok((pool, mut root)) = Pool::new(rt.alloc(), 1, 2) else {
        assert!(rt; false);
        return;
    };
    if let NewSeat::Seat(mut first) = pool.seat(&mut root) {
        if let NewSeat::Seat(mut second) = pool.seat(&mut root) {
            assert_eq!(rt; (first.number(), second.number()), (0, 1));
            let got = pool.search(&mut first);
            assert_eq!(rt; got, Some(0));
            assert_eq!(rt; pool.try_slot(&mut second, 0), PoolTry::Held(1));
            assert_eq!(rt; pool.search(&mut second), None);
            if let Some(k) = got {
                pool.give(&mut first, k);
            }
            assert_eq!(rt; pool.search(&mut second), Some(0));
            assert!(rt; matches!(pool.seat(&mut root), NewSeat::NoneLeft));
            return;
        }
    }
    assert!(rt; false);
}

/// The name of one pool, in contracts alone.
trait PoolName {
    ghost use Rattle.atomic_table.specs.Seated.{TableId};

    ghost pool: { TableId };
}

impl PoolName for Brand {
    ghost use Rattle.std.specs.Prelude.{[]};

    ghost pool = { record { words = 0; slots = 0; views_name = 0; atom = 0; block = 0; offset = 0; slot_names = [] } };
}

/// The pool that P names.
#[derive(Drop)]
struct Crew<P: PoolName> {
    pool: Pool,
    of: PhantomData<P>,
    ghost named: { pool.id ≡ P.pool },
}

/// A seat of the pool that P names, which holds nothing.
#[derive(Drop)]
struct Member<P: PoolName> {
    seat: PoolSeat,
    of: PhantomData<P>,
    ghost named: { seat.pool ≡ P.pool },
    ghost idle: { seat.held ≡ [] },
}

impl<P: PoolName> Crew<P> {
    /// Searches once, and gives back the slot that it got.
    fn once(&self, member: Member<P>) -> Member<P> {
        let Member { mut seat, of } = member;
        if let Some(k) = self.pool.search(&mut seat) {
            self.pool.give(&mut seat, k);
        }
        Member { seat, of }
    }

    fn work(&self, member: Member<P>) -> Member<P> {
        let mut member = member;
        for _ in 0..1000u32 {
            member = self.once(member);
        }
        member
    }

    /// Takes the next seat, or returns None where none is left.
    fn recruit(&self, root: &mut PoolRoot) -> Option<Member<P>>
        requires { root.old.pool ≡ P.pool }
        ensures { root.new.pool ≡ P.pool }
    {
        match self.pool.seat(root) {
            NewSeat::Seat(seat) => Some(Member {
                seat,
                of: PhantomData,
            }),
            NewSeat::NoneLeft => None,
        }
    }

    fn dismiss(&self, root: &mut PoolRoot, member: Member<P>)
        requires { root.old.pool ≡ P.pool }
        ensures { root.new.pool ≡ P.pool }
    {
        let Member { seat, of: _ } = member;
        self.pool.join(root, seat);
    }
}

/// Lets each member work in a thread of its own.
fn all_work<'x, P: PoolName + Send + Sync, R: Threads + Wait + Sync>(
    rt: &'x R,
    alloc: Global,
    crew: &'x Crew<P>,
    members: Vec<Member<P>>,
) -> Result<Vec<Member<P>>, NoMemory> {
    thread::scope(thread::scope_env(), rt, |scope| {
        let mut handles = Vec::new(alloc);
        let mut all = Vec::new(alloc);
        for member in members {
            match scope.spawn(move || crew.work(member)) {
                Ok(handle) => handles.push(handle)?,
                Err(_) => return Err(NoMemory),
            }
        }
        for handle in handles {
            all.push(handle.join(rt))?;
        }
        Ok(all)
    })
}

/// Returns the slot that a new seat finds, after four members have searched 1,000 times each.
fn run_crew<P: PoolName + Send + Sync, R: Threads + Wait + Sync>(
    rt: &R,
    alloc: Global,
    pool: Pool,
    root: PoolRoot,
) -> Result<Option<u32>, NoMemory>
    requires pool { pool.id ≡ P.pool }
    requires root { root.pool ≡ P.pool }
{
    let mut root = root;
    let crew: Crew<P> = Crew {
        pool,
        of: PhantomData,
    };
    let mut members = Vec::new(alloc);
    for _ in 0..4u32 {
        if let Some(member) = crew.recruit(&mut root) {
            members.push(member)?;
        }
    }
    for member in all_work(rt, alloc, &crew, members)? {
        crew.dismiss(&mut root, member);
    }
    let Some(last) = crew.recruit(&mut root) else {
        return Ok(None);
    };
    let Member { mut seat, of: _ } = last;
    Ok(crew.pool.search(&mut seat))
}

fn four_threads<R: Threads + Wait + Sync>(rt: &R, alloc: Global) -> Result<Option<u32>, NoMemory> {
    let (pool, root) = Pool::new(alloc, 2, 5)?;
    run_crew::<Brand, R>(rt, alloc, pool, root)
}

#[test]
fn four_threads_two_slots(rt: HostRuntime) {
    assert_eq!(rt; four_threads(&rt, rt.alloc()), Ok(Some(0)));
}
