//! A scenario and its parts.

ghost use Rattle.std.specs.Prelude.{◌≡◌};
ghost use Rattle.nc_scen.specs.Accepted.{IsAccepted};
ghost use Rattle.nc_scen.specs.Regions.{pool_of};

use crate::events::Event;
use crate::regions::RegionKind;
use nc_env::Mode;
use nc_num::{HartNo, Span};
use nc_ops::Ops;
use std::marker::Model;

/// A hart: its mode, its two environment registers (RISC-V Privileged Architecture) and its script.
#[derive(Debug, Drop)]
pub struct HartSpec {
    /// The mode that its script runs in.
    pub mode: Mode,
    /// The register `menvcfg`.
    pub menvcfg: u64,
    /// The register `senvcfg`.
    pub senvcfg: u64,
    /// Its operations, at most 4,096.
    pub script: Ops,
}

/// A buffer: its range, its first bytes, and its owner.
#[derive(Clone, Copy, Debug, PartialEq, Eq)]
pub struct BufferSpec {
    /// Its range, 1 to 65,536 bytes, in RAM.
    pub span: Span,
    /// The value of its first byte at the start.
    pub fill: u8,
    /// How much more each next byte is, mod 256.
    pub step: u8,
    /// The hart that owns it at the start.
    pub owner: HartNo,
}

/// The harts of a scenario, 1 to 4, in order.
#[derive(Debug, Drop)]
pub struct HartSpecs {
    items: Vec<HartSpec>,
}

impl Model for HartSpecs {
    ghost use Rattle.std.specs.Prelude.{List};
    ghost use Rattle.nc_scen.specs.declared.scenario.HartSpec.{HartSpec};

    ghost Value = { List HartSpec };

    ghost view = { λ s. s.items.items };
}

impl HartSpecs {
    /// Makes a scenario's harts of these, in order.
    pub fn new(items: Vec<HartSpec>) -> HartSpecs
        ensures { result ≡ items.items }
    {
        HartSpecs { items }
    }

    /// Returns the harts, in order.
    pub fn as_slice(&self) -> &[HartSpec]
        ensures { result.now ≡ self.now }
    {
        &self.items
    }
}

/// The buffers of a scenario, at most 64, in order.
#[derive(Debug, Drop)]
pub struct BufferSpecs {
    items: Vec<BufferSpec>,
}

impl Model for BufferSpecs {
    ghost use Rattle.std.specs.Prelude.{List};
    ghost use Rattle.nc_scen.specs.declared.scenario.BufferSpec.{BufferSpec};

    ghost Value = { List BufferSpec };

    ghost view = { λ s. s.items.items };
}

impl BufferSpecs {
    /// Makes a scenario's buffers of these, in order.
    pub fn new(items: Vec<BufferSpec>) -> BufferSpecs
        ensures { result ≡ items.items }
    {
        BufferSpecs { items }
    }

    /// Returns the buffers, in order.
    pub fn as_slice(&self) -> &[BufferSpec]
        ensures { result.now ≡ self.now }
    {
        &self.items
    }
}

/// The words of the page table, at most 256: word `i` maps virtual page `i`.
#[derive(Debug, Drop)]
pub struct Words {
    items: Vec<u64>,
}

impl Model for Words {
    ghost use Rattle.std.specs.Prelude.{ℕ, List};

    ghost Value = { List ℕ };

    ghost view = { λ s. s.items.items };
}

impl Words {
    /// Makes a page table of these words, in order.
    pub fn new(items: Vec<u64>) -> Words
        ensures { result ≡ items.items }
    {
        Words { items }
    }

    /// Returns the words, in order.
    pub fn as_slice(&self) -> &[u64]
        ensures { result.now ≡ self.now }
    {
        &self.items
    }
}

/// The events of a schedule, at most 400,000, in order.
#[derive(Debug, Drop)]
pub struct Events {
    items: Vec<Event>,
}

impl Model for Events {
    ghost use Rattle.std.specs.Prelude.{List};
    ghost use Rattle.nc_scen.specs.declared.events.Event.{Event};

    ghost Value = { List Event };

    ghost view = { λ s. s.items.items };
}

impl Events {
    /// Makes a list of these events, in order.
    pub fn new(items: Vec<Event>) -> Events
        ensures { result ≡ items.items }
    {
        Events { items }
    }

    /// Returns the events, in order.
    pub fn as_slice(&self) -> &[Event]
        ensures { result.now ≡ self.now }
    {
        &self.items
    }
}

/// The schedule: where the events before the finishing rounds come from.
#[derive(Debug, Drop)]
pub enum Plan {
    /// They are listed.
    List(Events),
    /// They are drawn from a generator.
    Seeded {
        /// The generator's seed.
        seed: u64,
        /// How many are drawn, at most 400,000.
        events: u64,
    },
}

/// A scenario.
#[derive(Debug, Drop)]
pub struct Scenario {
    /// The version of the format: 1 or 2.
    pub version: u64,
    /// The bytes of a cache block: 32, 64 or 128, and 64 in version 1.
    pub block_size: u32,
    /// The bytes that one cache-block zero of a script sets: 32, 64 or 128, at least a block, and 64 in version 1.
    pub zero_size: u32,
    /// Whether lending plans end with a marker and a token in place of a full fence; not in version 1.
    pub light: bool,
    /// The bytes of RAM: a multiple of 4,096, from 4,096 to 1,048,576.
    pub ram: u32,
    /// The harts, 1 to 4.
    pub harts: HartSpecs,
    /// The page table, at most 256 words.
    pub ptes: Words,
    /// The buffers, at most 64.
    pub buffers: BufferSpecs,
    /// The place of the first bounce slot, a multiple of 2,048.
    pub slots_at: u32,
    /// The count of bounce slots of 2,048 bytes, at most 64.
    pub slots: u32,
    /// The place of the first page of the coherent pool, a multiple of 4,096.
    pub pool_at: u32,
    /// The count of the pool's pages of 4,096 bytes, at most 64.
    pub pages: u32,
    /// The end of what each channel reaches without bouncing.
    pub reach: [u32; 4],
    /// The schedule.
    pub plan: Plan,
    /// Whether finishing rounds follow the schedule.
    pub finish: bool,
    /// How many events are tried at most, up to 400,000.
    pub limit: u64,
}

impl Scenario {
    /// Returns the range of the coherent pool of an accepted scenario; it is empty where the pool has no pages.
    pub fn pool(&self) -> Span
        requires { IsAccepted self.now }
        ensures { result ≡ pool_of self.now }
    {
        Span {
            at: self.pool_at,
            len: RegionKind::Pool.unit() * self.pages,
        }
    }
}
