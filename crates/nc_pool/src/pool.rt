//! The pool, its seats, and the root that makes them.

ghost use Rattle.std.specs.Prelude.{◌≡◌, ◌≢◌, ℕ, ◌+◌, ◌<◌, ◌≤◌, ◌^◌, [], ◌∷◌, ◌++◌, true, false, IfOk, IfSome, length};
ghost use Rattle.nc_pool.specs.Views.{has, without, held_of, log_of};
ghost use Rattle.nc_pool.specs.Answers.{found_of, held_after, Searches, SeatsNext};

use crate::view::{Giving, PoolKey, PoolRule, PoolView, Seating, Trying};
use atomic_table::{Seat, Table};
use nc_num::NoMemory;
use std::alloc::Global;
use std::marker::Model;

/// The result of a try of a slot.
#[derive(Clone, Copy, PartialEq, Eq, Debug)]
pub enum PoolTry {
    /// The slot was free, and the seat holds it now.
    Got,
    /// The slot was held. The word is the number of the seat that holds it, plus 1: never 0.
    Held(u64),
}

/// The result of a call for a seat.
#[derive(Drop)]
pub enum NewSeat {
    /// The seat with the next number.
    Seat(PoolSeat),
    /// No seat is left: as many were made as the pool has.
    NoneLeft,
}

/// Bounce slots that threads share. Slot k stands in word k + 1, which is 0 where the slot is free and n + 1 where seat
/// n holds it. Contracts see the pool's identity, and how many slots and seats it has.
#[derive(Drop)]
pub struct Pool {
    table: Table<u64, PoolView, PoolKey, PoolRule, Global>,
    slots: u32,
    seats: u32,
}

impl Model for Pool {
    ghost use Rattle.std.specs.Prelude.{◌≡◌, ◌+◌};
    ghost use Rattle.nc_pool.specs.Views.{PoolSize};

    ghost Value = { PoolSize };

    ghost view = { λ p. record { id = p.table.shared.table_id; slots = p.slots; seats = p.seats } };

    ghost invariant = { λ p. (p.table.shared.key ≡ record { slots = p.slots; seats = p.seats }) × (p.table.shared.table_id.words ≡ p.slots + 1) };
}

/// The right to try slots and to hold them; one thread has it. Contracts see its pool, its number, the slots that it
/// holds, in the order got, and the log of its tries, each a slot and the word found there.
#[derive(Drop)]
pub struct PoolSeat {
    seat: Seat<u64, PoolView>,
    number: u64,
}

impl Model for PoolSeat {
    ghost use Rattle.std.specs.Prelude.{◌≡◌, ℕ, ◌+◌, ◌<◌, ◌^◌, [], true};
    ghost use Rattle.nc_pool.specs.Views.{SeatView, has, held_of, log_of};
    ghost use Rattle.nc_pool.specs.declared.view.PoolView.TheVariants.{Live};

    ghost Value = { SeatView };

    ghost view = { λ s. record { pool = s.seat.table_id; number = s.number; held = held_of s.seat.me.0; log = log_of s.seat.me.0 } };

    ghost invariant = { λ s. (s.seat.me ≡ (Live s.number (held_of s.seat.me.0) (log_of s.seat.me.0), [])) × (s.number < 2 ^ 32) × ((k : ℕ) → has k (held_of s.seat.me.0) ≡ true → k + 1 < s.seat.table_id.words) };
}

/// The root of a pool: the right to make its seats and to end them. Contracts see its pool and the next number; all
/// numbers below it are given.
#[derive(Drop)]
pub struct PoolRoot {
    seat: Seat<u64, PoolView>,
    next: u64,
}

impl Model for PoolRoot {
    ghost use Rattle.std.specs.Prelude.{◌≡◌, ◌≤◌, ◌^◌, []};
    ghost use Rattle.nc_pool.specs.Views.{RootView};
    ghost use Rattle.nc_pool.specs.declared.view.PoolView.TheVariants.{Root};

    ghost Value = { RootView };

    ghost view = { λ s. record { pool = s.seat.table_id; next = s.next } };

    ghost invariant = { λ s. (s.seat.me ≡ (Root s.next, [])) × (s.next ≤ 2 ^ 32) };
}

impl PoolSeat {
    /// Returns the seat's number: seats are numbered 0, 1, .. in the order made.
    pub fn number(&self) -> u64
        ensures { result ≡ self.now.number }
    {
        self.number
    }
}

impl Pool {
    /// Makes a pool of `slots` free slots, and its root, which makes `seats` seats in all.
    ///
    /// # Errors
    ///
    /// `NoMemory` where memory runs out.
    pub fn new(alloc: Global, slots: u32, seats: u32) -> Result<(Pool, PoolRoot), NoMemory>
        ensures sizes { IfOk result (λ r. (r.0.slots ≡ slots) × (r.0.seats ≡ seats)) }
        ensures root { IfOk result (λ r. (r.1.pool ≡ r.0.id) × (r.1.next ≡ 0)) }
    {
        let words = vec![in alloc; 0u64; slots as usize + 1]?;
        let key = PoolKey {
            slots: u64::from(slots),
            seats: u64::from(seats),
        };
        let (table, seat) = Table::of_words(alloc, words.as_slice(), &key)?;
        Ok((
            Pool {
                table,
                slots,
                seats,
            },
            PoolRoot { seat, next: 0 },
        ))
    }

    /// Makes the seat with the root's next number, in one atomic step. The seat holds no slot and has tried none.
    /// Returns `NoneLeft`, with the root unchanged, exactly where the pool's seats were all made.
    pub fn seat(&self, root: &mut PoolRoot) -> NewSeat
        requires { root.old.pool ≡ self.now.id }
        ensures pool { root.new.pool ≡ root.old.pool }
        ensures next { SeatsNext root.old.pool root.old.next self.now.seats root.new.next result }
    {
        if root.next >= u64::from(self.seats) {
            return NewSeat::NoneLeft;
        }
        let number = root.next;
        let seat = self.table.shared.split_seat::<Seating>(&mut root.seat);
        root.next = number + 1;
        NewSeat::Seat(PoolSeat { seat, number })
    }

    /// Tries slot `k`, by one compare-exchange of its word. Returns `Got` exactly where the word found is 0, and else
    /// `Held` with the word found.
    pub fn try_slot(&self, seat: &mut PoolSeat, k: u32) -> PoolTry
        requires slot { k < self.now.slots }
        requires pool { seat.old.pool ≡ self.now.id }
        ensures same { (seat.new.pool ≡ seat.old.pool) × (seat.new.number ≡ seat.old.number) }
        ensures log { seat.new.log ≡ seat.old.log ++ (k, found_of result) ∷ [] }
        ensures held { seat.new.held ≡ held_after seat.old.held k result }
        ensures answer { result ≢ PoolTry.Held 0 }
        ensures fresh { result ≡ PoolTry.Got → has k seat.old.held ≡ false }
    {
        let number = seat.number;
        let found = self
            .table
            .shared
            .compare_exchange::<Trying>(&mut seat.seat, k as usize + 1, 0, number + 1);
        if found == 0 {
            PoolTry::Got
        } else {
            PoolTry::Held(found)
        }
    }

    /// Tries the slots 0, 1, .. in order until one is free, and returns that slot, which the seat then holds. Returns
    /// None exactly where each slot was tried and its word was found not 0; each was so at its own try, and not all at
    /// one moment.
    pub fn search(&self, seat: &mut PoolSeat) -> Option<u32>
        requires { seat.old.pool ≡ self.now.id }
        ensures same { (seat.new.pool ≡ seat.old.pool) × (seat.new.number ≡ seat.old.number) }
        ensures found { Searches self.now.slots seat.old seat.new result }
    {
        for k in 0..self.slots {
            match self.try_slot(seat, k) {
                PoolTry::Got => return Some(k),
                PoolTry::Held(_) => {}
            }
        }
        None
    }

    /// Gives back slot `k`, which the seat holds, by one swap of its word to 0.
    pub fn give(&self, seat: &mut PoolSeat, k: u32)
        requires holds { has k seat.old.held ≡ true }
        requires pool { seat.old.pool ≡ self.now.id }
        ensures { seat.new ≡ record seat.old { held = without k seat.old.held } }
    {
        self.table
            .shared
            .swap::<Giving>(&mut seat.seat, k as usize + 1, 0);
    }

    /// Ends a seat that holds no slot, in one atomic step. Its number is not given again.
    pub fn join(&self, root: &mut PoolRoot, seat: PoolSeat)
        requires root { root.old.pool ≡ self.now.id }
        requires seat { seat.pool ≡ self.now.id }
        requires nothing { seat.held ≡ [] }
        ensures { root.new ≡ root.old }
    {
        let PoolSeat { seat, number: _ } = seat;
        self.table.shared.join_seat::<Seating>(&mut root.seat, seat);
    }
}
