//! What an access read or wrote.

ghost use Rattle.std.specs.Prelude.{◌≡◌};

use nc_num::Place;
use std::marker::Model;

/// Bytes, each with the place that names it. Contracts see the list of the pairs.
///
/// The bytes of a channel are named by the places of the buffer that they stand for.
#[derive(Debug, Drop)]
pub struct NamedBytes {
    pairs: Vec<(Place, u8)>,
}

impl Model for NamedBytes {
    ghost use Rattle.std.specs.Prelude.{List, ℕ};
    ghost use Rattle.nc_num.specs.declared.places.Place.{Place};

    ghost Value = { List (Place × ℕ) };

    ghost view = { λ b. b.pairs.items };
}

impl NamedBytes {
    /// Makes a list of these pairs.
    pub fn new(pairs: Vec<(Place, u8)>) -> NamedBytes
        ensures { result ≡ pairs.items }
    {
        NamedBytes { pairs }
    }

    /// Returns the pairs, in order.
    pub fn as_slice(&self) -> &[(Place, u8)]
        ensures { result.now ≡ self.now }
    {
        self.pairs.as_slice()
    }
}

/// One access of a run: a load or store of a script, a transaction of a channel, or the zeroing of a block by a script
/// or by the making of a coherent area. The loads and stores of a plan are not among them.
#[derive(Debug, Drop)]
pub enum Deed {
    /// A read that showed these bytes.
    Read(NamedBytes),
    /// A write of these bytes.
    Write(NamedBytes),
}
