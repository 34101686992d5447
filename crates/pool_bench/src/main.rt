//! Fills a pool of 64 pages with pieces of 4 bytes and empties it, as many times as its word says (once without one).
//! `bench/pool` takes the time.
#![tactic(auto)]

ghost use Rattle.std.specs.Prelude.{◌≡◌, IfSome};
ghost use Rattle.nc_dmapool.specs.Pieces.{HasTaken};

use nc_coherent::PagePool;
use nc_dmapool::DmaPool;
use nc_num::Place;
use std::alloc::Global;
use std::env;
use std::process::ExitCode;
use std::rt::Env;

/// The place where the pages start.
const START: u32 = 49152;

/// The count of pieces of 4 bytes on 64 pages.
const PIECES: u32 = 65536;

/// A pool of pieces and the pages that it takes from.
#[derive(Drop)]
struct Both {
    pages: PagePool,
    pool: DmaPool,
}

/// Makes a pool of pieces of 4 bytes over 64 free pages, or returns None where memory runs out.
fn fresh(alloc: Global) -> Option<Both>
    ensures { IfSome result (λ b. HasTaken b.pages b.pool) }
{
    let Ok(pages) = PagePool::new(alloc, START, 64) else {
        return None;
    };
    let Ok(pool) = DmaPool::new(alloc, 4, 4, 0) else {
        return None;
    };
    Some(Both { pages, pool })
}

/// Takes pieces from the pool, and returns the count that it gave.
fn fill(both: &mut Both) -> u32
    requires { HasTaken both.old.pages both.old.pool }
    ensures { HasTaken both.new.pages both.new.pool }
{
    let mut given = 0;
    for _ in 0..PIECES {
        if both.pool.alloc(&mut both.pages).is_ok() {
            given += 1;
        }
    }
    given
}

/// Gives the pieces back, and returns the count that the pool took.
fn empty(both: &mut Both) -> u32
    requires { HasTaken both.old.pages both.old.pool }
    ensures { HasTaken both.new.pages both.new.pool }
{
    let mut taken = 0;
    for piece in 0..PIECES {
        if both.pool.free(Place(START + 4 * piece)).is_ok() {
            taken += 1;
        }
    }
    taken
}

/// Returns the number of the first word, or 1 where it is none or there is no word.
fn rounds<R: Env + AllocGlobal>(rt: &R) -> u32 {
    let Ok(mut words) = env::args(rt) else {
        return 1;
    };
    match words.nth(1) {
        Some(word) => word.parse::<u32>().unwrap_or(1),
        None => 1,
    }
}

fn main(rt: HostRuntime) -> ExitCode {
    let Some(mut both) = fresh(rt.alloc()) else {
        return ExitCode::from(6);
    };
    for _ in 0..rounds(&rt) {
        if fill(&mut both) != PIECES || empty(&mut both) != PIECES {
            return ExitCode::from(1);
        }
    }
    ExitCode::from(0)
}
