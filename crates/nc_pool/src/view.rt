//! The views of a pool's seats, the rule over words and views, and the four kinds of atomic step.

ghost use Rattle.nc_pool.specs.Rules.{EachIsOwned};

use atomic_table::{Join, Play, Split, TableRule};
use std::collections::LinkedList;

/// The view of a seat of the table. Contracts alone speak of it; no value of it is made.
pub enum PoolView {
    /// The root: the number of the next seat.
    Root(u64),
    /// A seat: its number, the slots that it holds, and its tries in order, each the slot and the word found.
    Live(u64, LinkedList<u64>, LinkedList<(u64, u64)>),
    /// A seat that was joined.
    Gone,
}

/// The size of a pool: how many slots it has, and how many seats it makes.
#[derive(Clone, Copy)]
pub struct PoolKey {
    /// The number of slots.
    pub slots: u64,
    /// The number of seats.
    pub seats: u64,
}

/// The rule of a pool, which holds between any two atomic steps.
pub struct PoolRule;

impl TableRule<u64, PoolView, PoolKey> for PoolRule {
    ghost use Rattle.nc_pool.specs.Rules.{Holds};
    ghost use Rattle.nc_pool.specs.declared.view.PoolView.TheVariants.{Root};

    ghost holds = { Holds };

    ghost first = { λ _. Root 0 };
}

/// The step of a try: a compare-exchange of the slot's word.
pub struct Trying;

impl Play<u64, PoolView> for Trying {
    ghost use Rattle.nc_pool.specs.Rules.{Tries};

    ghost then = { Tries };
}

/// The step of giving a slot back: a swap of its word to 0.
pub struct Giving;

impl Play<u64, PoolView> for Giving {
    ghost use Rattle.nc_pool.specs.Rules.{Gives};

    ghost then = { Gives };
}

/// The steps that make a seat and end one: the table's split and join.
pub struct Seating;

impl Split<PoolView> for Seating {
    ghost use Rattle.nc_pool.specs.Views.{after_seat, new_seat};

    ghost left = { after_seat };

    ghost right = { new_seat };
}

impl Join<PoolView> for Seating {
    ghost use Rattle.nc_pool.specs.declared.view.PoolView.TheVariants.{Gone};

    ghost both = { λ v w. v };

    ghost spent = { Gone };
}

/// Proves that, whenever the rule of a pool holds, each slot is free and no view holds it, or its word is n + 1, the
/// live seat n holds it, and no other view does. This project's own.
pub fn each_slot_is_owned_once()
    ensures { EachIsOwned }
{}
