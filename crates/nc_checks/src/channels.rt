//! Operations on a channel by its registers.

ghost use Rattle.std.specs.Prelude.{◌≡◌, ◌≤◌, false, All, slice_get};
ghost use Rattle.nc_ops.specs.declared.ops.Op.TheVariants as ops;
ghost use Rattle.nc_rules.specs.Channels as rules;
ghost use Rattle.nc_rules.specs.declared.answers.Refusal.TheVariants as refusals;
ghost use Rattle.nc_rules.specs.Lots.{lot_waits};
ghost use Rattle.nc_rules.specs.Meanings.{step_of_way};
ghost use Rattle.nc_rules.specs.Operations.{step_at};
ghost use Rattle.nc_rules.specs.Refusals.{some_or};
ghost use Rattle.nc_sg.specs.Lists.{segments};
ghost use Rattle.nc_checks.specs.Safe.{IsSafe};

use crate::refusals::named;
use crate::setup::DriverConfig;
use crate::steps::{hart_step, single};
use nc_lots::bus_of_lot;
use nc_num::ChanNo;
use nc_pdma_regs::known as is_register;
use nc_plan::{HartOp, IoTarget, Segment};
use nc_rules::{Kind, Lot, Refusal, Step};
use nc_scen::BusArg;
use nc_steps::regs_step;

/// Tests that a register has this offset and width.
fn known(off: u16, width: u8) -> Result<(), Refusal>
    ensures { result ≡ rules.known off width }
{
    match is_register(off, width) {
        Ok(()) => Ok(()),
        Err(_) => Err(Refusal::BadMmio(off, width)),
    }
}

/// Returns the segment of a list with this index, as its channel sees it.
fn segment(slots_at: u32, lot: &Lot, number: u32) -> Result<Segment, Refusal>
    requires slots { slots_at ≤ 1048576 }
    requires placed { lot_waits lot.now ≡ false }
    ensures { result ≡ some_or refusals.NoLabel (slice_get (segments slots_at lot.now.list.entries) number) }
{
    match lot.list.segment(slots_at, number) {
        Some(segment) => Ok(segment),
        None => Err(Refusal::NoLabel),
    }
}

impl DriverConfig {
    /// Returns the value to which a channel's address register is set. Each entry that bounces has its slot.
    fn bus_of(&self, lots: &[Lot], arg: BusArg) -> Result<u64, Refusal>
        requires safe { IsSafe self.now }
        requires placed { All (λ lot. lot_waits lot ≡ false) lots.now }
        ensures { result ≡ rules.bus_of self.now lots.now arg }
    {
        match arg {
            BusArg::At(bus) => Ok(bus),
            BusArg::Map(label) => {
                let lot = named(lots, label, Kind::Single)?;
                Ok(u64::from(bus_of_lot(self.slots_at(), lot)))
            }
            BusArg::Segment(label, number) => {
                let lot = named(lots, label, Kind::List)?;
                let segment = segment(self.slots_at(), lot, number)?;
                Ok(u64::from(segment.bus))
            }
            BusArg::Area(label) => {
                let lot = named(lots, label, Kind::Area)?;
                Ok(u64::from(bus_of_lot(self.slots_at(), lot)))
            }
        }
    }

    /// Returns store n of a channel's set-up.
    #[tactic(auto, unfolding(nc_rules::specs::Operations::step_at, nc_rules::specs::Operations::meaning, nc_rules::specs::Channels::set_up))]
    pub(crate) fn set_up(
        &self,
        lots: &[Lot],
        chan: ChanNo,
        src: BusArg,
        dst: BusArg,
        len: u64,
        cfg: u32,
        n: u32,
    ) -> Result<Option<Step>, Refusal>
        requires safe { IsSafe self.now }
        requires placed { All (λ lot. lot_waits lot ≡ false) lots.now }
        ensures { result ≡ step_at self.now lots.now (ops.Regs chan src dst len cfg) n }
    {
        let source = self.bus_of(lots, src)?;
        let target = self.bus_of(lots, dst)?;
        match regs_step(chan, source, target, len, cfg, n) {
            Some(op) => Ok(Some(hart_step(op))),
            None => Ok(None),
        }
    }

    /// Returns the load of a register, as step n.
    #[tactic(auto, unfolding(nc_rules::specs::Channels::read_register))]
    pub(crate) fn read_register(
        &self,
        chan: ChanNo,
        off: u16,
        width: u8,
        n: u32,
    ) -> Result<Option<Step>, Refusal>
        ensures { result ≡ step_of_way (rules.read_register chan off width).way n }
    {
        known(off, width)?;
        Ok(single(hart_step(HartOp::IoLoad { chan, off, width }), n))
    }

    /// Returns the store to a register, as step n.
    #[tactic(auto, unfolding(nc_rules::specs::Channels::write_register))]
    pub(crate) fn write_register(
        &self,
        chan: ChanNo,
        off: u16,
        width: u8,
        value: u64,
        n: u32,
    ) -> Result<Option<Step>, Refusal>
        ensures { result ≡ step_of_way (rules.write_register chan off width value).way n }
    {
        known(off, width)?;
        let store = HartOp::IoStore(IoTarget::Reg {
            chan,
            off,
            width,
            value,
        });
        Ok(single(hart_step(store), n))
    }
}
