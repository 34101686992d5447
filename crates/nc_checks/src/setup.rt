//! What a driver knows from the start.

ghost use Rattle.std.specs.Prelude.{◌≡◌, ◌<◌, length, IfOk, IfSome, map, slice_get, option_map};
ghost use Rattle.nc_scen.specs.Accepted.{IsAccepted};
ghost use Rattle.nc_rules.specs.CacheOps.{effect_of};
ghost use Rattle.nc_rules.specs.Lots.{reach_of};
ghost use Rattle.nc_rules.specs.Refusals.{buffer_of};
ghost use Rattle.nc_rules.specs.Start.{fixed_of, hart_spec, pbmte_of};
ghost use Rattle.nc_checks.specs.Safe.{IsSafe, IsShort};

use nc_env::{CboOp, Illegal};
use nc_num::{ChanNo, HartNo, NoMemory, Span};
use nc_plan::{Effects, effects_of};
use nc_scen::{BufferSpec, HartSpec, Op, Scenario};
use std::alloc::Global;
use std::marker::Model;

/// What the driver of a hart knows from the start: the hart's index, the effects of its cache operations, whether it
/// has memory types, the page table, the buffers, the sizes of a block and of a zeroed range in bytes, how far each
/// channel reaches, the bounce slots, the coherent pool, whether fences are light, and the script.
#[derive(Drop)]
pub struct DriverConfig {
    me: HartNo,
    effects: Effects,
    pbmte: bool,
    table: Vec<u64>,
    buffers: Vec<Span>,
    size: u32,
    zero_size: u32,
    reach: [u32; 4],
    slots_at: u32,
    slots: u32,
    pool: Span,
    light: bool,
    script: Vec<Op>,
}

impl Model for DriverConfig {
    ghost use Rattle.nc_rules.specs.Lots.{DriverConfig};

    ghost Value = { DriverConfig };

    ghost view = { λ s. record { me = s.me; effects = s.effects; pbmte = s.pbmte; table = s.table.items; buffers = s.buffers.items; size = s.size; zero_size = s.zero_size; reach = s.reach; slots_at = s.slots_at; slots = s.slots; pool = s.pool; light = s.light; script = s.script.items } };
}

impl DriverConfig {
    /// Makes the configuration of hart `me` of a scenario.
    ///
    /// # Errors
    ///
    /// `NoMemory` where memory runs out.
    pub fn of(alloc: Global, me: HartNo, sc: &Scenario) -> Result<DriverConfig, NoMemory>
        requires hart { me.0 < length sc.now.harts }
        requires accepted { IsAccepted sc.now }
        ensures { IfOk result (λ s. s ≡ fixed_of sc.now me (hart_spec sc.now me.0)) }
    {
        let hart = &sc.harts.as_slice()[me.0 as usize];
        let effects = effects_of(hart.mode, hart.menvcfg, hart.senvcfg);
        let table = Vec::from_slice(alloc, sc.ptes.as_slice())?;
        let buffers = spans_of(alloc, sc.buffers.as_slice())?;
        let script = script_of(alloc, hart.script.as_slice())?;
        Ok(DriverConfig {
            me,
            effects,
            pbmte: has_pbmte(hart.menvcfg),
            table,
            buffers,
            size: sc.block_size,
            zero_size: sc.zero_size,
            reach: sc.reach,
            slots_at: sc.slots_at,
            slots: sc.slots,
            pool: sc.pool(),
            light: sc.light,
            script,
        })
    }

    /// Returns the index of the hart.
    pub fn me(&self) -> HartNo
        ensures { result ≡ self.now.me }
    {
        self.me
    }

    /// Whether the hart has memory types (Svpbmt).
    pub(crate) fn pbmte(&self) -> bool
        ensures { result ≡ self.now.pbmte }
    {
        self.pbmte
    }

    /// The words of the page table.
    pub(crate) fn table(&self) -> &[u64]
        ensures { result.now ≡ self.now.table }
    {
        &self.table
    }

    /// Returns the range of a buffer, or an empty one where there is no such buffer.
    pub(crate) fn buffer(&self, buf: u8) -> Span
        ensures { result ≡ buffer_of self.now buf }
    {
        match self.buffers.get(usize::from(buf)) {
            Some(span) => *span,
            None => Span { at: 0, len: 0 },
        }
    }

    /// Returns, for each cache operation of the hart, the operation that is performed, or the field by which it is
    /// illegal (RISC-V CMO 1.0).
    pub fn effects(&self) -> &Effects
        ensures { result.now ≡ self.now.effects }
    {
        &self.effects
    }

    /// Returns the size of a cache block in bytes.
    pub fn size(&self) -> u32
        ensures { result ≡ self.now.size }
    {
        self.size
    }

    /// The bytes of a zeroed range.
    pub(crate) fn zero_size(&self) -> u32
        ensures { result ≡ self.now.zero_size }
    {
        self.zero_size
    }

    /// Returns where a channel's reach ends, in bytes of RAM; 0 where there is no such channel.
    pub(crate) fn reach(&self, chan: ChanNo) -> u32
        ensures { result ≡ reach_of self.now chan }
    {
        match self.reach.get(usize::from(chan.0)) {
            Some(reach) => *reach,
            None => 0,
        }
    }

    /// Returns the place of the first bounce slot, in bytes of RAM.
    pub fn slots_at(&self) -> u32
        ensures { result ≡ self.now.slots_at }
    {
        self.slots_at
    }

    /// Returns the number of bounce slots.
    pub fn slots(&self) -> u32
        ensures { result ≡ self.now.slots }
    {
        self.slots
    }

    /// Returns the range of the coherent pool, in bytes of RAM.
    pub fn pool(&self) -> Span
        ensures { result ≡ self.now.pool }
    {
        self.pool
    }

    /// Returns the operation that is performed for a cache operation of the script, or the field by which it is illegal
    /// (RISC-V CMO 1.0).
    pub(crate) fn effect(&self, op: CboOp) -> Result<CboOp, Illegal>
        ensures { result ≡ effect_of self.now.effects op }
    {
        match op {
            CboOp::Clean => self.effects.clean,
            CboOp::Flush => self.effects.flush,
            CboOp::Inval => self.effects.inval,
            CboOp::Zero => self.effects.zero,
        }
    }

    /// Returns whether fences are light: a lending ends with a token in the store queue, and not with a fence that
    /// waits.
    pub fn light(&self) -> bool
        ensures { result ≡ self.now.light }
    {
        self.light
    }

    /// Returns operation `n` of the script, counted from 0, or None where `n` is out of range.
    pub fn op(&self, n: u32) -> Option<&Op>
        ensures value { option_map (λ o. o.now) result ≡ slice_get self.now.script n }
        ensures short { IsSafe self.now → IfSome result (λ o. IsShort o.now) }
    {
        self.script.get(n as usize)
    }
}

/// Whether `menvcfg` turns memory types on: PBMTE, bit 62 (Svpbmt).
fn has_pbmte(menvcfg: u64) -> bool
    ensures { result ≡ pbmte_of menvcfg }
{
    menvcfg >> 62 & 1 == 1
}

/// The ranges of the buffers.
fn spans_of(alloc: Global, buffers: &[BufferSpec]) -> Result<Vec<Span>, NoMemory>
    ensures { IfOk result (λ v. v.items ≡ map (λ b. b.span) buffers.now) }
{
    let spans = buffers.iter().map(|b| b.span).collect(alloc)?;
    Ok(spans)
}

/// Returns a copy of a script.
fn script_of(alloc: Global, script: &[Op]) -> Result<Vec<Op>, NoMemory>
    ensures { IfOk result (λ v. v.items ≡ script.now) }
{
    let mut ops = Vec::new(alloc);
    for op in script {
        ops.push(op.try_clone()?)?;
    }
    Ok(ops)
}
