//! The faults of the command `pool`.

ghost use Rattle.std.specs.Prelude.{◌≡◌};
ghost use Rattle.nc_pieces.specs.declared.refused.PoolFault.TheVariants as faults;

use nc_dmapool::PoolBad;
use nc_num::NoMemory;
use std::alloc::{AllocError, AllocFailed};

/// The first thing that is wrong with an input.
#[derive(Clone, Copy, Debug, PartialEq, Eq)]
pub enum PoolRefused {
    /// More than 8,388,608 bytes.
    TooLong,
    /// The bytes are no JSON text.
    NotJson,
    /// The value has another form.
    Shape,
    /// A pool of such pieces is refused.
    Pool(PoolBad),
}

/// Why an input gets no answer.
#[derive(Clone, Copy, Debug, PartialEq, Eq)]
pub enum PoolFault {
    /// The input is refused.
    Refused(PoolRefused),
    /// Memory ran out.
    NoMemory,
}

impl From<NoMemory> for PoolFault {
    ghost from_gives = { λ _ e. e ≡ faults.NoMemory };

    fn from(_e: NoMemory) -> PoolFault {
        PoolFault::NoMemory
    }
}

impl From<AllocError> for PoolFault {
    ghost from_gives = { λ _ e. e ≡ faults.NoMemory };

    fn from(_e: AllocError) -> PoolFault {
        PoolFault::NoMemory
    }
}

impl<T: Drop> From<AllocFailed<T>> for PoolFault {
    ghost from_gives = { λ _ e. e ≡ faults.NoMemory };

    fn from(_e: AllocFailed<T>) -> PoolFault {
        PoolFault::NoMemory
    }
}
