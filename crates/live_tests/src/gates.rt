//! A gate at which two drivers meet.

use nc_live::Gate;
use std::sync::atomic::{AtomicU64, Ordering};

/// How often a driver looks for the other before it goes on alone.
const LOOKS: u64 = 100_000_000;

/// A gate that holds the first turn of each of two drivers until that of the other was announced, and counts the turns
/// of both.
#[derive(Drop)]
pub struct Meeting {
    first: AtomicU64,
    second: AtomicU64,
    alone: AtomicU64,
}

impl Meeting {
    /// Makes a gate that no driver has come to yet.
    pub fn new() -> Meeting {
        Meeting {
            first: AtomicU64::new(0),
            second: AtomicU64::new(0),
            alone: AtomicU64::new(0),
        }
    }

    /// Returns the count of turns of the hart that were announced.
    pub fn turns(&self, hart: u8) -> u64 {
        if hart == 0 {
            return self.first.load(Ordering::SeqCst);
        }
        self.second.load(Ordering::SeqCst)
    }

    /// Returns how often a driver went on although the other had not come.
    pub fn alone(&self) -> u64 {
        self.alone.load(Ordering::SeqCst)
    }

    /// Looks for the other driver, and returns whether it has come.
    fn meets(&self, hart: u8) -> bool {
        for _ in 0..LOOKS {
            if 0 < self.turns(1 - hart.min(1)) {
                return true;
            }
        }
        false
    }
}

impl Gate for Meeting {
    fn before(&self, hart: u8, turn: u64) {
        let count = if hart == 0 { &self.first } else { &self.second };
        count.fetch_add(1, Ordering::SeqCst);
        if turn == 0 && !self.meets(hart) {
            self.alone.fetch_add(1, Ordering::SeqCst);
        }
    }
}
