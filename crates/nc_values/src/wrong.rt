//! What is wrong with a value, without its path.

ghost use Rattle.std.specs.Prelude.{◌≡◌};
ghost use Rattle.nc_values.specs.declared.wrong.OpFault.TheVariants as op_faults;
ghost use Rattle.nc_values.specs.declared.refused.ScenFault.TheVariants as faults;
ghost use Rattle.nc_values.specs.Outcomes.{wrong_at};

use crate::refused::{Path, Refused, ScenFault};
use std::alloc::{AllocError, AllocFailed};

/// What is wrong with a value.
#[derive(Clone, Copy, Debug, PartialEq, Eq)]
pub enum Wrong {
    /// It has the wrong shape.
    Shape,
    /// It is out of its limits: its number, or its length, is this.
    Limit(u64),
}

impl Wrong {
    /// Returns the refusal of a value at `path` with which this is wrong.
    pub fn at(self, path: Path) -> ScenFault
        ensures { result ≡ faults.Refused (wrong_at path self) }
    {
        match self {
            Wrong::Shape => ScenFault::Refused(Refused::Shape(path)),
            Wrong::Limit(n) => ScenFault::Refused(Refused::Limit(path, n)),
        }
    }
}

/// Why a value gives no operation.
#[derive(Clone, Copy, Debug, PartialEq, Eq)]
pub enum OpFault {
    /// The value is no operation.
    Wrong(Wrong),
    /// Memory ran out.
    NoMemory,
}

impl From<Wrong> for OpFault {
    ghost from_gives = { λ w e. e ≡ op_faults.Wrong w };

    fn from(w: Wrong) -> OpFault {
        OpFault::Wrong(w)
    }
}

impl From<AllocError> for OpFault {
    ghost from_gives = { λ _ e. e ≡ op_faults.NoMemory };

    fn from(_e: AllocError) -> OpFault {
        OpFault::NoMemory
    }
}

impl<T: Drop> From<AllocFailed<T>> for OpFault {
    ghost from_gives = { λ _ e. e ≡ op_faults.NoMemory };

    fn from(_e: AllocFailed<T>) -> OpFault {
        OpFault::NoMemory
    }
}
