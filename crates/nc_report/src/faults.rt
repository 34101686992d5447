//! The lines of refused input.

ghost use Rattle.std.specs.Prelude.{◌≡◌, string_bytes, IfOk};
ghost use Rattle.nc_rules.specs.Lines.{refused_line};

use nc_num::NoMemory;
use nc_scen::Refused;
use std::alloc::{AllocError, Global};

fn refused_text(alloc: Global, refused: &Refused) -> Result<String, AllocError>
    ensures { IfOk result (λ s. string_bytes s ≡ refused_line refused.now) }
{
    match refused {
        Refused::TooLong => format!(in alloc; "refused long\n"),
        Refused::NotJson => format!(in alloc; "refused json\n"),
        Refused::Shape(path) => {
            let path = path.as_str();
            format!(in alloc; "refused shape {path}\n")
        }
        Refused::Version(n) => format!(in alloc; "refused version {n}\n"),
        Refused::Limit(path, n) => {
            let path = path.as_str();
            format!(in alloc; "refused limit {path} {n}\n")
        }
        Refused::Overlap(i, j) => format!(in alloc; "refused overlap {i} {j}\n"),
        Refused::Token(i) => format!(in alloc; "refused token {i}\n"),
    }
}

/// Returns the line that says why an input is refused.
///
/// # Errors
///
/// `NoMemory` where memory runs out.
pub fn refused(alloc: Global, refused: &Refused) -> Result<Vec<u8>, NoMemory>
    ensures { IfOk result (λ v. v.items ≡ refused_line refused.now) }
{
    Ok(refused_text(alloc, refused)?.into_bytes())
}
