//! The transfers of one call, in order, kept in place.

ghost use Rattle.std.specs.Prelude.{◌≡◌, ◌≤◌, ◌<◌, length, [], ◌∷◌, ◌++◌};
ghost use Rattle.nc_cache.specs.Bus.{drops};

use crate::line::BusRec;
use nc_num::{Block, HartNo};
use std::marker::Model;

/// A list of at most six transfers, kept in place. Contracts see the list of them.
#[derive(Debug, Drop)]
pub struct BusList {
    records: [BusRec; 6],
    len: usize,
}

impl Model for BusList {
    ghost use Rattle.std.specs.Prelude.{◌≡◌, ◌≤◌, List, take, length};
    ghost use Rattle.nc_cache.specs.declared.line.BusRec.{BusRec};

    ghost Value = { List BusRec };

    ghost view = { λ bus. take bus.len bus.records };

    ghost invariant = { λ bus. (bus.len ≤ 6) × (length bus.records ≡ 6) };
}

impl BusList {
    /// Makes an empty list of transfers.
    pub fn new() -> BusList
        ensures { result ≡ [] }
    {
        let nothing = BusRec::Drop {
            hart: HartNo(0),
            block: Block(0),
        };
        BusList {
            records: [nothing; 6],
            len: 0,
        }
    }

    /// Returns the transfers, in order; at most six.
    pub fn as_slice(&self) -> &[BusRec]
        ensures value { result.now ≡ self.now }
        ensures short { length self.now ≤ 6 }
    {
        &self.records[..self.len]
    }

    /// Adds a transfer.
    pub(crate) fn push(&mut self, transfer: BusRec)
        requires { length self.old < 6 }
        ensures { self.new ≡ self.old ++ transfer ∷ [] }
    {
        self.records[self.len] = transfer;
        self.len += 1;
    }

    /// Adds the drops of the copies of these harts, ascending by hart.
    pub(crate) fn push_drops(&mut self, block: Block, by: &[bool; 4])
        requires { length self.old ≤ 2 }
        ensures { self.new ≡ self.old ++ drops 0 block.0 by.now }
    {
        for (g, held) in by.iter().enumerate() {
            if *held {
                self.push(BusRec::Drop {
                    hart: HartNo(g as u8),
                    block,
                });
            }
        }
    }
}
