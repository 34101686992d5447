//! A short run of bytes that is kept in place and copied.

ghost use Rattle.std.specs.Prelude.{◌≡◌, ◌≤◌, length};
ghost use Rattle.nc_num.specs.Padded.{padded};

use std::marker::Model;

/// A run of at most 128 bytes: what one transfer of the machine moves. Contracts see the list of the bytes.
#[derive(Clone, Copy, Debug, PartialEq, Eq)]
pub struct Bytes {
    cells: [u8; 128],
    len: usize,
}

impl Model for Bytes {
    ghost use Rattle.std.specs.Prelude.{ℕ, List, take};
    ghost use Rattle.nc_num.specs.Padded.{IsPadded};

    ghost Value = { List ℕ };

    ghost use Rattle.nc_num.specs.Inverse.{fields_of, fields_back};

    ghost view = { λ s. take s.len s.cells };

    ghost invariant = { λ s. IsPadded s.cells s.len };

    ghost inverse = { fields_of };

    ghost inverse_ok = { fields_back };
}

/// Returns the bytes, padded with zeros to 128.
fn cells_of(s: &[u8]) -> [u8; 128]
    requires { length s.now ≤ 128 }
    ensures { result ≡ padded s.now }
{
    let mut cells = [0; 128];
    cells[..s.len()].copy_from_slice(s);
    cells
}

impl Bytes {
    /// Makes a copy of the bytes of a slice, of which there are at most 128.
    pub fn of(s: &[u8]) -> Bytes
        requires { length s.now ≤ 128 }
        ensures { result ≡ s.now }
    {
        let cells = cells_of(s);
        Bytes {
            cells,
            len: s.len(),
        }
    }

    /// Returns the bytes, at most 128 of them.
    pub fn as_slice(&self) -> &[u8]
        ensures value { result.now ≡ self.now }
        ensures short { length self.now ≤ 128 }
    {
        &self.cells[..self.len]
    }
}
