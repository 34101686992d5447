//! The line of a block, and the transfers that the domain reports.

ghost use Rattle.std.specs.Prelude.{◌≡◌, ◌<◌};
ghost use Rattle.std.specs.List.{list_any};
ghost use Rattle.nc_cache.specs.Harts.{only as only_of, lowest as lowest_of};

use nc_num::{Block, Bytes, HartNo};

/// The holders of a block: some harts with clean copies, or one hart with a dirty copy.
#[derive(Clone, Copy, Debug, PartialEq, Eq)]
pub enum Held {
    /// Clean copies in these harts.
    Shared([bool; 4]),
    /// The one copy, in this hart, which memory may not have yet.
    Dirty(HartNo),
}

/// A block that some hart holds: its bytes, which are the same in all copies, and who holds it.
#[derive(Clone, Copy, Debug, PartialEq, Eq)]
pub struct Line {
    /// The bytes of the block.
    pub bytes: Bytes,
    /// The holders of the block.
    pub held: Held,
}

/// The source of a hart's copy.
#[derive(Clone, Copy, Debug, PartialEq, Eq)]
pub enum Origin {
    /// Memory, which had these bytes.
    Mem(Bytes),
    /// The copy of this hart.
    Hart(HartNo),
    /// The clean copy that the hart had already.
    Held,
}

/// One transfer on the bus between caches and memory.
#[derive(Clone, Copy, Debug, PartialEq, Eq)]
pub enum BusRec {
    /// The hart got a clean copy of the block.
    Fill {
        hart: HartNo,
        block: Block,
        from: Origin,
    },
    /// The hart got the block dirty.
    Own {
        hart: HartNo,
        block: Block,
        from: Origin,
    },
    /// The hart wrote its dirty copy, these bytes, back to memory.
    WriteBack {
        hart: HartNo,
        block: Block,
        bytes: Bytes,
    },
    /// The hart dropped its copy.
    Drop {
        hart: HartNo,
        block: Block,
    },
}

/// Returns the set, among four harts, that has this hart alone.
pub(crate) fn only(h: HartNo) -> [bool; 4]
    requires { h.0 < 4 }
    ensures { result ≡ only_of h.0 }
{
    let mut by = [false; 4];
    by[h.0 as usize] = true;
    by
}

/// Returns whether the set has a hart.
fn any_of(by: &[bool; 4]) -> bool
    ensures { result ≡ list_any (λ held. held) by.now }
{
    by.iter().any(|held| *held)
}

/// Returns the lowest numbered hart of the set.
fn lowest(by: &[bool; 4]) -> u8
    ensures { result ≡ lowest_of by.now }
{
    for g in 0..4u8 {
        if by[g as usize] {
            return g;
        }
    }
    4
}

impl Held {
    ghost use Rattle.nc_cache.specs.Cache.{holds, dirty_in, holders};
    ghost use Rattle.nc_cache.specs.Bus.{giver};
    ghost use Rattle.nc_cache.specs.Facts.{IsHeld};

    /// Returns whether hart `h` has a copy.
    pub(crate) fn holds(&self, h: HartNo) -> bool
        requires { h.0 < 4 }
        ensures { result ≡ holds self.now h.0 }
    {
        match self {
            Held::Shared(by) => by[h.0 as usize],
            Held::Dirty(g) => g.0 == h.0,
        }
    }

    /// Returns whether hart `h` has the copy, dirty.
    pub(crate) fn is_dirty_in(&self, h: HartNo) -> bool
        ensures { result ≡ dirty_in self.now h.0 }
    {
        match self {
            Held::Shared(_) => false,
            Held::Dirty(g) => g.0 == h.0,
        }
    }

    /// Returns the harts with a copy.
    pub(crate) fn holders(&self) -> [bool; 4]
        requires { IsHeld 4 self.now }
        ensures { result ≡ holders self.now }
    {
        match self {
            Held::Shared(by) => *by,
            Held::Dirty(g) => only(*g),
        }
    }

    /// Returns the lowest numbered hart with a copy.
    pub(crate) fn giver(&self) -> HartNo
        ensures { result.0 ≡ giver self.now }
    {
        match self {
            Held::Shared(by) => HartNo(lowest(by)),
            Held::Dirty(g) => *g,
        }
    }
}

impl Line {
    ghost use Rattle.nc_cache.specs.Cache.{without};

    /// Returns the line without the copy of hart `h`, or None where that was the only copy.
    pub(crate) fn without(&self, h: HartNo) -> Option<Line>
        requires { h.0 < 4 }
        ensures { result ≡ without h.0 self.now.bytes self.now.held }
    {
        let Held::Shared(by) = self.held else {
            return None;
        };
        let mut rest = by;
        rest[h.0 as usize] = false;
        if !any_of(&rest) {
            return None;
        }
        Some(Line {
            bytes: self.bytes,
            held: Held::Shared(rest),
        })
    }
}
