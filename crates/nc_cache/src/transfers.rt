//! The steps that the calls of the domain share.

ghost use Rattle.std.specs.Prelude.{◌≡◌, ◌+◌, ◌*◌, ◌≤◌, ◌<◌, [], ◌∷◌, ◌++◌, Option, length, replicate};
ghost use Rattle.nc_num.specs.Sizes.{IsBlockSize};
ghost use Rattle.nc_num.specs.Memory as memory;
ghost use Rattle.nc_cache.specs.Cache.{dirty_by, back, block_bytes};
ghost use Rattle.nc_cache.specs.Bus.{written, taken_bus, owned_bus, own_bus};
ghost use Rattle.nc_cache.specs.Facts.{IsHeld, IsLineOf};

use crate::bus::BusList;
use crate::line::{BusRec, Held, Line, Origin};
use nc_mem::Ram;
use nc_num::{Block, Bytes, HartNo, Span};

/// Returns the span of a block that lies in memory.
pub(crate) fn block_span(ram: &Ram, size: u32, b: Block) -> Span
    requires { size * b.0 + size ≤ length ram.now }
    ensures at { result.at ≡ size * b.0 }
    ensures len { result.len ≡ size }
{
    // The length of memory bounds the product.
    let _len = ram.len();
    Span {
        at: size * b.0,
        len: size,
    }
}

/// Writes a line back to memory where a hart has it dirty.
pub(crate) fn write_back(ram: &mut Ram, size: u32, b: Block, line: &Line, bus: &mut BusList)
    requires size { IsBlockSize size }
    requires block { size * b.0 + size ≤ length ram.old }
    requires whole { length line.now.bytes ≡ size }
    requires room { length bus.old < 6 }
    ensures ram { ram.new ≡ back size ram.old b.0 line.now.bytes line.now.held }
    ensures len { length ram.new ≡ length ram.old }
    ensures bus { bus.new ≡ bus.old ++ written b.0 line.now.bytes line.now.held }
    ensures one { length bus.new ≤ length bus.old + 1 }
{
    if let Held::Dirty(g) = line.held {
        ram.write(block_span(ram, size, b), line.bytes.as_slice());
        bus.push(BusRec::WriteBack {
            hart: g,
            block: b,
            bytes: line.bytes,
        });
    }
}

/// Returns whether hart `h` has the line dirty.
pub(crate) fn is_dirty_by(line: &Option<Line>, h: HartNo) -> bool
    ensures { result ≡ dirty_by line.now h.0 }
{
    match line {
        None => false,
        Some(line) => line.held.is_dirty_in(h),
    }
}

/// Returns the transfers by which hart `h` gets a block from other harts.
fn taken(h: HartNo, b: Block, held: &Held) -> BusList
    requires { IsHeld 4 held.now }
    ensures { result ≡ taken_bus h.0 b.0 held.now }
{
    let mut bus = BusList::new();
    let from = Origin::Hart(held.giver());
    bus.push(BusRec::Own {
        hart: h,
        block: b,
        from,
    });
    bus.push_drops(b, &held.holders());
    bus
}

/// Returns the transfers by which hart `h` comes to own a block that some hart holds.
fn owned(h: HartNo, b: Block, held: &Held) -> BusList
    requires hart { h.0 < 4 }
    requires in_four { IsHeld 4 held.now }
    ensures { result ≡ owned_bus h.0 b.0 held.now }
{
    match held {
        Held::Shared(by) => {
            if !by[h.0 as usize] {
                return taken(h, b, held);
            }
            let mut others = *by;
            others[h.0 as usize] = false;
            let mut bus = BusList::new();
            bus.push(BusRec::Own {
                hart: h,
                block: b,
                from: Origin::Held,
            });
            bus.push_drops(b, &others);
            bus
        }
        Held::Dirty(g) => {
            if g.0 == h.0 {
                return BusList::new();
            }
            taken(h, b, held)
        }
    }
}

/// Returns the bytes of a block of which hart `h` becomes the owner, and the transfers.
#[tactic(auto, unfolding(crate::specs::Cache::block_bytes))]
pub(crate) fn to_own(
    ram: &Ram,
    size: u32,
    h: HartNo,
    b: Block,
    line: &Option<Line>,
) -> (Bytes, BusList)
    requires size { IsBlockSize size }
    requires hart { h.0 < 4 }
    requires block { size * b.0 + size ≤ length ram.now }
    requires whole { IsLineOf size 4 line.now }
    ensures bytes { result.0 ≡ block_bytes size ram.now b.0 line.now }
    ensures len { length result.0 ≡ size }
    ensures bus { result.1 ≡ own_bus size ram.now h.0 b.0 line.now }
{
    match line {
        None => {
            let bytes = ram.read(block_span(ram, size, b));
            let mut bus = BusList::new();
            let from = Origin::Mem(bytes);
            bus.push(BusRec::Own {
                hart: h,
                block: b,
                from,
            });
            (bytes, bus)
        }
        Some(line) => (line.bytes, owned(h, b, &line.held)),
    }
}

/// Returns `len` bytes of a block, from `at` on.
#[tactic(auto, unfolding(nc_num::specs::Memory::span))]
pub(crate) fn part_of(block: &Bytes, at: u32, len: u32) -> Bytes
    requires { at + len ≤ length block.now }
    ensures { result ≡ memory.span block.now at len }
{
    let at = at as usize;
    Bytes::of(&block.as_slice()[at..at + len as usize])
}

/// Returns the bytes of a block, with some of them replaced.
#[tactic(auto, unfolding(nc_num::specs::Memory::splice))]
pub(crate) fn patched(block: &Bytes, at: u32, bytes: &[u8]) -> Bytes
    requires { at + length bytes.now ≤ length block.now }
    ensures bytes { result ≡ memory.splice block.now at bytes.now }
    ensures len { length result ≡ length block.now }
{
    let block = block.as_slice();
    let at = at as usize;
    let mut cells = [0; 128];
    let part = &mut cells[..block.len()];
    part.copy_from_slice(block);
    part[at..at + bytes.len()].copy_from_slice(bytes);
    Bytes::of(part)
}

/// Makes a block of zeros.
pub(crate) fn zeros(size: u32) -> Bytes
    requires { size ≤ 128 }
    ensures { result ≡ replicate size 0 }
{
    Bytes::of(&[0; 128][..size as usize])
}
