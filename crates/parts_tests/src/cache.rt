//! What no clause says: that the calls can succeed, and their transfers, in tables worked by hand.

ghost use Rattle.std.specs.Prelude.{◌≡◌, ◌*◌, ◌+◌, ◌≤◌, ◌<◌, length};
ghost use Rattle.nc_num.specs.Sizes.{IsBlockSize};

use nc_cache::{
    BusList, BusRec, Domain, Origin, Row, bytes_are_seen, calls_keep_places, calls_keep_whole,
    calls_write_places, inval_drops, lines_are_held,
};
use nc_mem::Ram;
use nc_num::{Block, Bytes, HartNo, NoMemory, Span};
use std::alloc::Global;
use std::process::Abort;

/// Four harts over a memory of two blocks, of which the calls use the second.
#[derive(Drop)]
struct Machine {
    size: u32,
    ram: Ram,
    domain: Domain,
    ghost harts: { domain.harts ≡ 4 },
    ghost same_size: { domain.size ≡ size },
    ghost some: { 1 ≤ size },
    ghost two_blocks: { 2 * size ≤ length ram },
}

#[derive(Clone, Copy)]
enum Start {
    Nobody,
    OneClean,
    OneDirty,
    ThreeClean,
}

#[derive(Clone, Copy)]
enum Call {
    Own,
    Store,
    Zero,
    Clean,
    Flush,
    Inval,
}

const B: Block = Block(1);

impl Machine {
    /// Makes a machine whose second block begins with the byte 9, and whose other bytes are 0.
    fn new(alloc: Global, size: u32) -> Result<Machine, NoMemory>
        requires { IsBlockSize size }
    {
        let mut ram = Ram::new(alloc, 2 * size)?;
        ram.write(Span { at: size, len: 1 }, b"\x09");
        let domain = Domain::new(alloc, 4, size)?;
        Ok(Machine { size, ram, domain })
    }

    fn load(&mut self, h: HartNo) -> Result<BusList, NoMemory>
        requires { h.0 < 4 }
    {
        self.domain.reserve()?;
        Ok(self.domain.load(&mut self.ram, h, B))
    }

    fn fill(&mut self, h: HartNo) -> Result<Option<BusList>, NoMemory>
        requires { h.0 < 4 }
    {
        self.domain.reserve()?;
        Ok(self.domain.fill(&mut self.ram, h, B))
    }

    fn evict(&mut self, h: HartNo) -> Option<BusList>
        requires { h.0 < 4 }
    {
        self.domain.evict(&mut self.ram, h, B)
    }

    /// Stores one byte to the start of the block.
    fn store(&mut self, h: HartNo, byte: u8) -> Result<BusList, NoMemory>
        requires { h.0 < 4 }
    {
        self.domain.reserve()?;
        let at = self.size;
        Ok(
            self.domain
                .store(&mut self.ram, h, Span { at, len: 1 }, &[byte]),
        )
    }

    fn call(&mut self, call: Call, h: HartNo) -> Result<BusList, NoMemory>
        requires { h.0 < 4 }
    {
        self.domain.reserve()?;
        match call {
            Call::Own => Ok(self.domain.own(&mut self.ram, h, B)),
            Call::Store => self.store(h, 5),
            Call::Zero => Ok(self.domain.zero(&mut self.ram, h, B)),
            Call::Clean => Ok(self.domain.clean(&mut self.ram, B)),
            Call::Flush => Ok(self.domain.flush(&mut self.ram, B)),
            Call::Inval => Ok(self.domain.inval(B)),
        }
    }

    /// Returns the first byte of the block, as the domain has it and as memory has it.
    fn first_byte(&self) -> (u8, u8) {
        let span = Span {
            at: self.size,
            len: 1,
        };
        let seen = self.domain.bytes(&self.ram, span);
        let there = self.ram.read(span);
        (seen.as_slice()[0], there.as_slice()[0])
    }
}

/// Makes a machine whose block is held as `start` says: by no hart, by hart 1, or by harts 0, 1 and 2. A dirty copy
/// begins with the byte 7.
fn prepared(alloc: Global, size: u32, start: Start) -> Result<Machine, NoMemory>
    requires { IsBlockSize size }
{
    let mut made = Machine::new(alloc, size)?;
    match start {
        Start::Nobody => {}
        Start::OneClean => {
            made.load(HartNo(1))?;
        }
        Start::OneDirty => {
            made.store(HartNo(1), 7)?;
        }
        Start::ThreeClean => {
            made.load(HartNo(0))?;
            made.load(HartNo(1))?;
            made.load(HartNo(2))?;
        }
    }
    Ok(made)
}

/// Makes a call by hart 0, which makes these transfers.
fn row(
    rt: &impl Abort,
    alloc: Global,
    size: u32,
    start: Start,
    call: Call,
    want: &[BusRec],
) -> Result<(), NoMemory>
    requires { IsBlockSize size }
{
    let mut machine = prepared(alloc, size, start)?;
    let bus = machine.call(call, HartNo(0))?;
    assert_eq!(rt; bus.as_slice(), want);
    Ok(())
}

/// Makes a block that begins with this byte, and whose other bytes are 0.
fn block(size: u32, first: u8) -> Bytes
    requires some { 1 ≤ size }
    requires short { size ≤ 128 }
{
    let mut cells = [0; 128];
    cells[0] = first;
    Bytes::of(&cells[..size as usize])
}

fn own(h: u8, from: Origin) -> BusRec {
    BusRec::Own {
        hart: HartNo(h),
        block: B,
        from,
    }
}

fn got(h: u8, from: Origin) -> BusRec {
    BusRec::Fill {
        hart: HartNo(h),
        block: B,
        from,
    }
}

fn back(h: u8, bytes: Bytes) -> BusRec {
    BusRec::WriteBack {
        hart: HartNo(h),
        block: B,
        bytes,
    }
}

fn gone(h: u8) -> BusRec {
    BusRec::Drop {
        hart: HartNo(h),
        block: B,
    }
}

/// Tests the transfers of an own, and of a store and a zero, which begin with one.
fn own_rows(rt: &impl Abort, alloc: Global, call: Call) -> Result<(), NoMemory> {
    let from_memory = [own(0, Origin::Mem(block(32, 9)))];
    let from_one = [own(0, Origin::Hart(HartNo(1))), gone(1)];
    let from_three = [own(0, Origin::Held), gone(1), gone(2)];
    row(rt, alloc, 32, Start::Nobody, call, &from_memory)?;
    row(rt, alloc, 64, Start::OneClean, call, &from_one)?;
    row(rt, alloc, 128, Start::OneDirty, call, &from_one)?;
    row(rt, alloc, 64, Start::ThreeClean, call, &from_three)
}

#[test]
fn owns_stores_and_zeros(rt: HostRuntime) -> Result<(), NoMemory> {
    let alloc = rt.alloc();
    own_rows(&rt, alloc, Call::Own)?;
    own_rows(&rt, alloc, Call::Store)?;
    own_rows(&rt, alloc, Call::Zero)
}

#[test]
fn cleans_flushes_and_invalidates(rt: HostRuntime) -> Result<(), NoMemory> {
    let alloc = rt.alloc();
    let flushed = [back(1, block(128, 7)), gone(1)];
    let cleaned = [back(1, block(128, 7))];
    let one = [gone(1)];
    let three = [gone(0), gone(1), gone(2)];
    let empty = BusList::new();
    let none = empty.as_slice();
    row(&rt, alloc, 32, Start::Nobody, Call::Clean, none)?;
    row(&rt, alloc, 64, Start::OneClean, Call::Clean, none)?;
    row(&rt, alloc, 128, Start::OneDirty, Call::Clean, &cleaned)?;
    row(&rt, alloc, 64, Start::ThreeClean, Call::Clean, none)?;
    row(&rt, alloc, 32, Start::Nobody, Call::Flush, none)?;
    row(&rt, alloc, 64, Start::OneClean, Call::Flush, &one)?;
    row(&rt, alloc, 128, Start::OneDirty, Call::Flush, &flushed)?;
    row(&rt, alloc, 64, Start::ThreeClean, Call::Flush, &three)?;
    row(&rt, alloc, 32, Start::Nobody, Call::Inval, none)?;
    row(&rt, alloc, 64, Start::OneClean, Call::Inval, &one)?;
    row(&rt, alloc, 128, Start::OneDirty, Call::Inval, &one)?;
    row(&rt, alloc, 64, Start::ThreeClean, Call::Inval, &three)
}

fn is_told(bus: &Option<BusList>, want: &[BusRec]) -> bool {
    match bus {
        None => false,
        Some(bus) => bus.as_slice() == want,
    }
}

#[test]
fn one_block_through_four_harts(rt: HostRuntime) -> Result<(), NoMemory> {
    let mut m = Machine::new(rt.alloc(), 64)?;
    let mem = got(1, Origin::Mem(block(64, 9)));
    assert!(rt; is_told(&m.fill(HartNo(1))?, &[mem]));
    assert!(rt; m.fill(HartNo(1))?.is_none());
    assert!(rt; m.evict(HartNo(0)).is_none());
    let copy = got(0, Origin::Hart(HartNo(1)));
    assert_eq!(rt; m.load(HartNo(0))?.as_slice(), [copy].as_slice());
    assert!(rt; m.load(HartNo(0))?.as_slice().is_empty());
    let held = [own(0, Origin::Held), gone(1)];
    assert_eq!(rt; m.store(HartNo(0), 7)?.as_slice(), held.as_slice());
    assert!(rt; m.store(HartNo(0), 7)?.as_slice().is_empty());
    assert_eq!(rt; m.first_byte(), (7, 9));
    Ok(())
}

#[test]
fn a_dirty_block_moves(rt: HostRuntime) -> Result<(), NoMemory> {
    let mut m = Machine::new(rt.alloc(), 64)?;
    m.store(HartNo(0), 7)?;
    assert!(rt; m.domain.holds(HartNo(0), B));
    assert!(rt; !m.domain.holds(HartNo(2), B));
    let shared = [back(0, block(64, 7)), got(2, Origin::Hart(HartNo(0)))];
    assert_eq!(rt; m.load(HartNo(2))?.as_slice(), shared.as_slice());
    let taken = [own(3, Origin::Hart(HartNo(0))), gone(0), gone(2)];
    assert_eq!(rt; m.store(HartNo(3), 5)?.as_slice(), taken.as_slice());
    assert_eq!(rt; m.first_byte(), (5, 7));
    let evicted = [back(3, block(64, 5)), gone(3)];
    assert!(rt; is_told(&m.evict(HartNo(3)), &evicted));
    assert_eq!(rt; m.first_byte(), (5, 5));
    Ok(())
}

#[test]
fn laws(_rt: HostRuntime) {
    calls_keep_whole();
    calls_keep_places();
    calls_write_places();
    inval_drops();
    bytes_are_seen();
    lines_are_held();
}

/// Loads a block by a hart of four, with blocks of 64 bytes.
fn load(domain: &mut Domain, ram: &mut Ram, h: u8, b: u32) -> Result<(), NoMemory>
    requires hart { h < 4 }
    requires harts { domain.old.harts ≡ 4 }
    requires size { domain.old.size ≡ 64 }
    requires block { 64 * b + 64 ≤ length ram.old }
    ensures ram { length ram.new ≡ length ram.old }
    ensures harts { domain.new.harts ≡ 4 }
    ensures size { domain.new.size ≡ 64 }
{
    domain.reserve()?;
    domain.load(ram, HartNo(h), Block(b));
    Ok(())
}

fn row_is(row: &Row, block: u32, holders: u8, dirty: Option<HartNo>) -> bool {
    row.block == Block(block) && row.holders == holders && row.dirty == dirty
}

/// Three blocks in falling order, then the first of them dirty, and the last given up: bit h is hart h.
#[test]
fn rows_stand_by_block(rt: HostRuntime) -> Result<(), NoMemory> {
    let mut ram = Ram::new(rt.alloc(), 256)?;
    let mut domain = Domain::new(rt.alloc(), 4, 64)?;
    assert!(rt; domain.rows().is_empty());
    load(&mut domain, &mut ram, 3, 3)?;
    load(&mut domain, &mut ram, 1, 1)?;
    load(&mut domain, &mut ram, 0, 1)?;
    load(&mut domain, &mut ram, 2, 0)?;
    domain.reserve()?;
    domain.own(&mut ram, HartNo(3), Block(3));
    match domain.rows() {
        [a, b, c] => {
            assert!(rt; row_is(a, 0, 0b0100, None));
            assert!(rt; row_is(b, 1, 0b0011, None));
            assert!(rt; row_is(c, 3, 0b1000, Some(HartNo(3))));
            assert!(rt; a.line != b.line && b.line != c.line && a.line != c.line);
        }
        _ => panic!(rt; "not three rows"),
    }
    domain.clean(&mut ram, Block(3));
    domain.evict(&mut ram, HartNo(2), Block(0));
    match domain.rows() {
        [b, c] => {
            assert!(rt; row_is(b, 1, 0b0011, None));
            assert!(rt; row_is(c, 3, 0b1000, None));
        }
        _ => panic!(rt; "not two rows"),
    }
    Ok(())
}
