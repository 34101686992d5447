//! Loads and stores of a script, piece by piece.

ghost use Rattle.std.specs.Prelude.{◌≡◌, ◌+◌, ◌<◌, ◌≤◌, ◌^◌, length, IfOk};
ghost use Rattle.nc_ops.specs.declared.ops.Op.TheVariants as ops;
ghost use Rattle.nc_plan.specs.Accesses.{range};
ghost use Rattle.nc_rules.specs.Accesses as rules;
ghost use Rattle.nc_rules.specs.Operations.{step_at};
ghost use Rattle.nc_steps.specs.Mapped.{IsMapped};
ghost use Rattle.nc_checks.specs.Safe.{IsSafe};

use crate::refusals::{named, part_of, some_bytes};
use crate::setup::DriverConfig;
use crate::steps::hart_step;
use nc_lots::only_entry;
use nc_num::MemType;
use nc_plan::HartOp;
use nc_pte::PageFault;
use nc_rules::{Kind, Lot, Refusal, Step};
use nc_scen::Spot;
use nc_steps::{At, load_step, store_step};

/// Returns the step of a piece of an access, or the refusal by its page fault (Svpbmt).
fn piece_step(piece: Result<Option<HartOp>, PageFault>) -> Result<Option<Step>, Refusal>
    ensures { result ≡ rules.piece_step piece }
{
    match piece {
        Ok(None) => Ok(None),
        Ok(Some(op)) => Ok(Some(hart_step(op))),
        Err(PageFault { va, bits }) => Err(Refusal::PageFault(va, bits)),
    }
}

impl DriverConfig {
    /// Returns where an access of `len` bytes starts. An access to a coherent area is of type NC (Svpbmt).
    fn spot_at(&self, lots: &[Lot], spot: Spot, off: u32, len: u32) -> Result<At, Refusal>
        requires { IsSafe self.now }
        ensures value { result ≡ rules.spot_at self.now lots.now spot off len }
        ensures ends { IfOk result (λ to. (range to len).at + len < 2 ^ 32) }
        ensures mapped { IfOk result (λ to. IsMapped 1048576 to self.now.table len) }
    {
        some_bytes(len)?;
        match spot {
            Spot::Buffer(buf) => {
                let range = part_of(self.buffer(buf), off, len)?;
                Ok(At::Ram {
                    at: range.at,
                    kind: MemType::Pma,
                })
            }
            Spot::Virtual => {
                if u64::from(off) + u64::from(len) > 4096 * self.table().len() as u64 {
                    return Err(Refusal::BadRange);
                }
                Ok(At::Virtual { va: off })
            }
            Spot::Area(label) => {
                let lot = named(lots, label, Kind::Area)?;
                let range = part_of(only_entry(lot).span, off, len)?;
                Ok(At::Ram {
                    at: range.at,
                    kind: MemType::Nc,
                })
            }
        }
    }

    /// Returns piece n of a load.
    #[tactic(auto, unfolding(nc_rules::specs::Operations::step_at, nc_rules::specs::Operations::meaning, nc_rules::specs::Accesses::load))]
    pub(crate) fn load(
        &self,
        lots: &[Lot],
        spot: Spot,
        off: u32,
        len: u32,
        n: u32,
    ) -> Result<Option<Step>, Refusal>
        requires { IsSafe self.now }
        ensures { result ≡ step_at self.now lots.now (ops.Ld spot off len) n }
    {
        let to = self.spot_at(lots, spot, off, len)?;
        piece_step(load_step(to, self.pbmte(), self.table(), len, n))
    }

    /// Returns piece n of a store.
    #[tactic(auto, unfolding(nc_rules::specs::Operations::step_at, nc_rules::specs::Operations::meaning, nc_rules::specs::Accesses::store))]
    pub(crate) fn store(
        &self,
        lots: &[Lot],
        spot: Spot,
        off: u32,
        bytes: &[u8],
        n: u32,
    ) -> Result<Option<Step>, Refusal>
        requires safe { IsSafe self.now }
        requires short { length bytes.now ≤ 4096 }
        ensures { result ≡ step_at self.now lots.now (ops.St spot off bytes.now) n }
    {
        let to = self.spot_at(lots, spot, off, bytes.len() as u32)?;
        piece_step(store_step(to, self.pbmte(), self.table(), bytes, n))
    }
}
