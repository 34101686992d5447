//! The effects of cache operations for a hart, and whether the plans of a mapping may use them.

ghost use Rattle.std.specs.Prelude.{◌≡◌};
ghost use Rattle.nc_env.specs.Enables.{IsEnvcfg};
ghost use Rattle.nc_plan.specs.Effects.{effects_of, legal, needs};

use nc_env::{CboOp, Field, Illegal, Mode, decide};
use nc_num::Dir;

/// The operation that each cache operation is performed as for a hart, or the field that makes it illegal (RISC-V CMO
/// 1.0).
#[derive(Clone, Copy, Debug, PartialEq, Eq)]
pub struct Effects {
    /// `cbo.clean`.
    pub clean: Result<CboOp, Illegal>,
    /// `cbo.flush`.
    pub flush: Result<CboOp, Illegal>,
    /// `cbo.inval`.
    pub inval: Result<CboOp, Illegal>,
    /// `cbo.zero`.
    pub zero: Result<CboOp, Illegal>,
}

/// The error of a mapping that needs a cache operation which is illegal, with the field that forbids it.
#[derive(Clone, Copy, Debug, PartialEq, Eq)]
pub struct CboOff(pub Field);

/// Returns the effects of the four operations in a mode, by the registers `menvcfg` and `senvcfg`, neither of which has
/// the reserved value 10 in CBIE (RISC-V CMO 1.0).
pub fn effects_of(mode: Mode, menvcfg: u64, senvcfg: u64) -> Effects
    requires menvcfg_known { IsEnvcfg menvcfg }
    requires senvcfg_known { IsEnvcfg senvcfg }
    ensures { result ≡ effects_of mode menvcfg senvcfg }
{
    Effects {
        clean: decide(mode, menvcfg, senvcfg, CboOp::Clean),
        flush: decide(mode, menvcfg, senvcfg, CboOp::Flush),
        inval: decide(mode, menvcfg, senvcfg, CboOp::Inval),
        zero: decide(mode, menvcfg, senvcfg, CboOp::Zero),
    }
}

/// Checks that a hart may map in this direction, as the Linux DMA API needs it: a mapping to the device is cleaned, and
/// any other is flushed as it is lent and invalidated as it returns.
///
/// # Errors
///
/// `CboOff` with the first field that forbids one of these operations, in this order.
pub fn needs(e: &Effects, dir: Dir) -> Result<(), CboOff>
    ensures { result ≡ needs e.now dir }
{
    match dir {
        Dir::ToDev => legal(e.clean),
        Dir::Both | Dir::FromDev => {
            legal(e.flush)?;
            legal(e.inval)
        }
    }
}

/// Checks that an operation is legal.
fn legal(effect: Result<CboOp, Illegal>) -> Result<(), CboOff>
    ensures { result ≡ legal effect }
{
    match effect {
        Ok(_) => Ok(()),
        Err(Illegal(field)) => Err(CboOff(field)),
    }
}
