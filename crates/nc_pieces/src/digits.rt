//! Places in hexadecimal digits.

ghost use Rattle.std.specs.Prelude.{Some};
ghost use Rattle.nc_rules.specs.Lines.{hex_digits};

use std::fmt;

/// A number that is printed in at least six hexadecimal digits.
#[derive(Drop)]
pub(crate) struct Six(pub u32);

impl fmt::Display for Six {
    ghost output = { λ n. Some (hex_digits 6 n.0) };

    fn fmt<W: fmt::Write>(&self, f: &mut fmt::Formatter<W>) -> fmt::Result {
        write!(f, "{:06x}", self.0)
    }
}
