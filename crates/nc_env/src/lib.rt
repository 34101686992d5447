//! The enables of cache-block operations (RISC-V CMO 1.0): what a clean, a flush, an invalidate or a zero does in the
//! mode of a hart, by the fields CBIE, CBCFE and CBZE of `menvcfg` and `senvcfg`.
//!
//! The contract for the crates above: `decide` is the table of `specs/Enables.antt`, including the field that it names
//! in a refusal. The definition reads the fields as numbers, where the code tests bits. The plans of a mapping and the
//! driver's cache operations build on it.
#![tactic(auto)]

ghost use Rattle.std.specs.Prelude.{◌≡◌, ◌==◌};
ghost use Rattle.nc_env.specs.Enables.{IsEnvcfg, decided, forbids, as_flush, m_field, s_field, performed};

/// The privilege mode that a hart runs in (RISC-V Privileged Architecture).
#[derive(Clone, Copy, Debug, PartialEq, Eq)]
pub enum Mode {
    /// Machine mode.
    M,
    /// Supervisor mode.
    S,
    /// User mode.
    U,
}

/// A cache-block operation (RISC-V CMO 1.0, Zicbom and Zicboz).
#[derive(Clone, Copy, Debug, PartialEq, Eq)]
pub enum CboOp {
    /// `cbo.clean`: a dirty copy is written back, and the copies stay.
    Clean,
    /// `cbo.flush`: a dirty copy is written back, and all copies go.
    Flush,
    /// `cbo.inval`: all copies go, and nothing is written back.
    Inval,
    /// `cbo.zero`: the whole block becomes zero.
    Zero,
}

/// A field that forbids an operation: its register and its name (RISC-V CMO 1.0).
#[derive(Clone, Copy, Debug, PartialEq, Eq)]
pub enum Field {
    /// `menvcfg.CBIE`, bits 5:4.
    MCbie,
    /// `menvcfg.CBCFE`, bit 6.
    MCbcfe,
    /// `menvcfg.CBZE`, bit 7.
    MCbze,
    /// `senvcfg.CBIE`, bits 5:4.
    SCbie,
    /// `senvcfg.CBCFE`, bit 6.
    SCbcfe,
    /// `senvcfg.CBZE`, bit 7.
    SCbze,
}

/// An operation that is illegal, with the field that forbids it: the one of `menvcfg` where both registers forbid it.
#[derive(Clone, Copy, Debug, PartialEq, Eq)]
pub struct Illegal(pub Field);

/// Returns the operation that is performed for `op` (RISC-V CMO 1.0).
///
/// Mode M is not restricted, mode S is restricted by `menvcfg`, and mode U by both registers. An invalidate is
/// performed as a flush where a register that restricts the mode has the value 01 in CBIE. The reserved value 10 of
/// CBIE is no value of either register. Their other bits mean nothing here.
///
/// # Errors
///
/// `Illegal` with the field that forbids the operation: that of `menvcfg` where both registers forbid it.
#[tactic(auto, unfolding(crate::specs::Enables::decided))]
pub fn decide(mode: Mode, menvcfg: u64, senvcfg: u64, op: CboOp) -> Result<CboOp, Illegal>
    requires menvcfg_known { IsEnvcfg menvcfg }
    requires senvcfg_known { IsEnvcfg senvcfg }
    ensures { result ≡ decided mode menvcfg senvcfg op }
{
    match mode {
        Mode::M => Ok(op),
        Mode::S => {
            if forbids(menvcfg, op) {
                return Err(Illegal(m_field(op)));
            }
            Ok(performed(op, as_flush(menvcfg)))
        }
        Mode::U => {
            if forbids(menvcfg, op) {
                return Err(Illegal(m_field(op)));
            }
            if forbids(senvcfg, op) {
                return Err(Illegal(s_field(op)));
            }
            Ok(performed(op, as_flush(menvcfg) || as_flush(senvcfg)))
        }
    }
}

/// The lower of the two bits of CBIE in an envcfg register.
const CBIE: u32 = 4;

/// The bit of CBCFE.
const CBCFE: u32 = 6;

/// The bit of CBZE.
const CBZE: u32 = 7;

/// Returns whether a register that restricts the mode forbids an operation.
fn forbids(envcfg: u64, op: CboOp) -> bool
    ensures { result ≡ forbids op envcfg }
{
    match op {
        CboOp::Clean | CboOp::Flush => envcfg >> CBCFE & 1 == 0,
        CboOp::Inval => envcfg >> CBIE & 3 == 0,
        CboOp::Zero => envcfg >> CBZE & 1 == 0,
    }
}

/// Returns whether a register has invalidates performed as flushes.
fn as_flush(envcfg: u64) -> bool
    ensures { result ≡ as_flush envcfg }
{
    envcfg >> CBIE & 3 == 1
}

/// Returns what is performed where no register forbids the operation.
fn performed(op: CboOp, as_flush: bool) -> CboOp
    ensures { result ≡ performed op as_flush }
{
    match op {
        CboOp::Inval if as_flush => CboOp::Flush,
        other => other,
    }
}

/// Returns the field of `menvcfg` that enables an operation.
fn m_field(op: CboOp) -> Field
    ensures { result ≡ m_field op }
{
    match op {
        CboOp::Clean | CboOp::Flush => Field::MCbcfe,
        CboOp::Inval => Field::MCbie,
        CboOp::Zero => Field::MCbze,
    }
}

/// Returns the field of `senvcfg` that enables an operation.
fn s_field(op: CboOp) -> Field
    ensures { result ≡ s_field op }
{
    match op {
        CboOp::Clean | CboOp::Flush => Field::SCbcfe,
        CboOp::Inval => Field::SCbie,
        CboOp::Zero => Field::SCbze,
    }
}
