//! What no clause says: that each call can succeed, and what a few runs show, worked by hand.

ghost use Rattle.std.specs.Prelude.{◌≡◌, ◌<◌, ◌≤◌, [], IfOk, is_some, length, true};
ghost use Rattle.nc_env.specs.declared.Mode.TheVariants.{S};
ghost use Rattle.nc_pdma_regs.specs.Table.{register_at};
ghost use Rattle.nc_rules.specs.Sound.{IsPieceIn, OpIsThere};
ghost use Rattle.nc_scen.specs.Accepted.{IsAccepted};

use nc_cache::{BusList, BusRec, Origin};
use nc_env::{CboOp, Mode};
use nc_machine::{Issued, Machine};
use nc_num::{Block, Bytes, ChanNo, HartNo, Label, MemType, NoMemory, Span};
use nc_pdma::ChanStep;
use nc_plan::{HartOp, IoTarget, Payload};
use nc_queue::Entry;
use nc_scen::{BufferSpec, BufferSpecs, Events, HartSpec, HartSpecs, Ops, Plan, Scenario, Words};
use std::alloc::Global;
use std::process::Abort;

const ZERO: HartNo = HartNo(0);

const ONE: HartNo = HartNo(1);

const C: ChanNo = ChanNo(0);

/// A machine of two harts over 8,192 bytes of RAM in blocks of 64. The 64 bytes from place 128 on are 21, 22, .. (in
/// hexadecimal), and the others 0. The page at place 4,096 is the coherent pool.
#[derive(Drop)]
struct Bench {
    machine: Machine,
    ghost size: { machine.machine.size ≡ 64 },
    ghost ram: { length machine.machine.cache.ram ≡ 8192 },
    ghost harts: { length machine.machine.harts ≡ 2 },
    ghost boxes: { length machine.machine.boxes ≡ 1 },
}

fn hart(alloc: Global) -> HartSpec
    ensures { result ≡ record { mode = S; menvcfg = 0; senvcfg = 0; script = [] } }
{
    HartSpec {
        mode: Mode::S,
        menvcfg: 0,
        senvcfg: 0,
        script: Ops::new(Vec::new(alloc)),
    }
}

fn scenario(alloc: Global) -> Result<Scenario, NoMemory>
    ensures accepted { IfOk result IsAccepted }
    ensures size { IfOk result (λ sc. sc.block_size ≡ 64) }
    ensures ram { IfOk result (λ sc. sc.ram ≡ 8192) }
    ensures harts { IfOk result (λ sc. length sc.harts ≡ 2) }
    ensures buffers { IfOk result (λ sc. length sc.buffers ≡ 1) }
{
    let buffer = BufferSpec {
        span: Span { at: 128, len: 64 },
        fill: 0x21,
        step: 1,
        owner: ZERO,
    };
    let harts = vec![in alloc; hart(alloc), hart(alloc)]?;
    let buffers = vec![in alloc; buffer]?;
    Ok(Scenario {
        version: 2,
        block_size: 64,
        zero_size: 64,
        light: false,
        ram: 8192,
        harts: HartSpecs::new(harts),
        ptes: Words::new(Vec::new(alloc)),
        buffers: BufferSpecs::new(buffers),
        slots_at: 0,
        slots: 0,
        pool_at: 4096,
        pages: 1,
        reach: [8192; 4],
        plan: Plan::List(Events::new(Vec::new(alloc))),
        finish: false,
        limit: 0,
    })
}

impl Bench {
    fn new(alloc: Global) -> Result<Bench, NoMemory> {
        let machine = Machine::new(alloc, &scenario(alloc)?)?;
        Ok(Bench { machine })
    }

    fn reserve(&mut self, rt: &impl Abort)
        ensures spare { 1 ≤ self.new.machine.spare }
        ensures same { self.new.machine.machine ≡ self.old.machine.machine }
    {
        let reserved = self.machine.reserve();
        assert!(rt; reserved.is_ok());
    }

    fn issue(&mut self, rt: &impl Abort, h: HartNo, op: HartOp) -> Issued
        requires hart { h.0 < 2 }
        requires there { OpIsThere self.old.machine.machine h.0 op }
    {
        self.reserve(rt);
        assert!(rt; self.machine.can_issue(h, &op));
        self.machine.issue(h, op)
    }

    /// Issues an operation that puts an entry in the queue.
    fn queue(&mut self, rt: &impl Abort, h: HartNo, op: HartOp)
        requires hart { h.0 < 2 }
        requires there { OpIsThere self.old.machine.machine h.0 op }
    {
        let issued = self.issue(rt, h, op);
        assert!(rt; matches!(issued, Issued::Queued));
    }

    /// Issues a fence that puts no entry in the queue.
    fn pass(&mut self, rt: &impl Abort, h: HartNo, pred: u8, succ: u8)
        requires { h.0 < 2 }
    {
        let issued = self.issue(rt, h, HartOp::Fence { pred, succ });
        assert!(rt; matches!(issued, Issued::Passed));
    }

    /// Issues a load, which shows these bytes and makes these transfers.
    fn load(
        &mut self,
        rt: &impl Abort,
        h: HartNo,
        span: Span,
        kind: MemType,
        want: (&[u8], &[BusRec]),
    )
        requires hart { h.0 < 2 }
        requires piece { IsPieceIn 8192 span }
    {
        match self.issue(rt, h, HartOp::Load { span, kind }) {
            Issued::Loaded { bytes, bus } => {
                assert_eq!(rt; bytes.as_slice(), want.0);
                assert_eq!(rt; bus.as_slice(), want.1);
            }
            _ => panic!(rt; "a load gives bytes"),
        }
    }

    fn store(&mut self, rt: &impl Abort, h: HartNo, at: u32, byte: u8, kind: MemType)
        requires hart { h.0 < 2 }
        requires inside { at < 8192 }
    {
        let span = Span { at, len: 1 };
        let bytes = Payload::Given(Bytes::of(&[byte]));
        self.queue(rt, h, HartOp::Store { span, kind, bytes });
    }

    fn cbo(&mut self, rt: &impl Abort, h: HartNo, op: CboOp, block: Block)
        requires hart { h.0 < 2 }
        requires there { block.0 < 128 }
    {
        self.queue(rt, h, HartOp::Cbo { op, block });
    }

    /// Issues a store to a register of channel 0.
    fn set(&mut self, rt: &impl Abort, h: HartNo, off: u16, width: u8, value: u64)
        requires hart { h.0 < 2 }
        requires known { is_some (register_at off width) ≡ true }
    {
        let target = IoTarget::Reg {
            chan: C,
            off,
            width,
            value,
        };
        self.queue(rt, h, HartOp::IoStore(target));
    }

    /// Issues a load of channel 0's Control, which shows this value.
    fn control(&mut self, rt: &impl Abort, h: HartNo, want: u64)
        requires { h.0 < 2 }
    {
        let load = HartOp::IoLoad {
            chan: C,
            off: 0,
            width: 4,
        };
        let issued = self.issue(rt, h, load);
        assert!(rt; matches!(issued, Issued::Value(value) if value == want));
    }

    fn drained(&mut self, h: HartNo, i: u8) -> Option<(Entry, BusList)>
        requires hart { h.0 < 2 }
        requires spare { 1 ≤ self.old.machine.spare }
    {
        let _ = self.machine.queued(h);
        self.machine.drain(h, i)
    }

    /// Drains entry `i` of hart `h`'s queue, which makes these transfers, or may not drain where there are none; `peek`
    /// showed the same before.
    fn drain(&mut self, rt: &impl Abort, h: HartNo, i: u8, want: Option<&[BusRec]>)
        requires { h.0 < 2 }
    {
        self.reserve(rt);
        let seen = self.machine.peek(h, i);
        match self.drained(h, i) {
            None => assert!(rt; seen.is_none() && want.is_none()),
            Some((e, bus)) => {
                assert!(rt; seen == Some(e));
                assert!(rt; want == Some(bus.as_slice()));
            }
        }
    }

    fn claim(&mut self, h: HartNo) -> Result<(), HartNo>
        requires { h.0 < 2 }
    {
        self.machine.claim(h, C)
    }

    fn take(&mut self, h: HartNo) -> bool {
        self.machine.take(h, 0)
    }

    fn fill(&mut self, rt: &impl Abort, h: HartNo, b: Block) -> Option<BusList>
        requires hart { h.0 < 2 }
        requires there { b.0 < 128 }
    {
        self.reserve(rt);
        let _ = self.machine.queued(h);
        self.machine.fill(h, b)
    }

    fn evict(&mut self, h: HartNo, b: Block) -> Option<BusList>
        requires hart { h.0 < 2 }
        requires there { b.0 < 128 }
    {
        let _ = self.machine.queued(h);
        self.machine.evict(h, b)
    }

    fn chan_read(&mut self) -> ChanStep {
        self.machine.chan_read(C)
    }

    fn chan_write(&mut self) -> ChanStep {
        let _ = self.machine.control(C);
        self.machine.chan_write(C)
    }
}

/// Makes a block that begins with these bytes, and whose other bytes are 0.
fn block(first: &[u8]) -> Bytes
    requires { length first.now ≤ 64 }
{
    let mut cells = [0; 64];
    cells[..first.len()].copy_from_slice(first);
    Bytes::of(&cells)
}

/// Block 0 is taken from memory, where it begins with these bytes, to be written.
fn owned(hart: HartNo, first: &[u8]) -> BusRec
    requires { length first.now ≤ 64 }
{
    BusRec::Own {
        hart,
        block: Block(0),
        from: Origin::Mem(block(first)),
    }
}

/// Block 0 is written back, and begins with these bytes.
fn written(hart: HartNo, first: &[u8]) -> BusRec
    requires { length first.now ≤ 64 }
{
    BusRec::WriteBack {
        hart,
        block: Block(0),
        bytes: block(first),
    }
}

/// The copy of block 0 is dropped.
fn dropped(hart: HartNo) -> BusRec {
    BusRec::Drop {
        hart,
        block: Block(0),
    }
}

const FIRST: Span = Span { at: 0, len: 1 };

/// The first byte of the buffer.
const FILLED: Span = Span { at: 128, len: 1 };

/// The second block.
const B: Block = Block(2);

#[test]
fn a_load_sees_its_own_store_first(rt: HostRuntime) -> Result<(), NoMemory> {
    let mut bench = Bench::new(rt.alloc())?;
    bench.store(&rt, ZERO, 0, 0x11, MemType::Pma);
    bench.load(&rt, ZERO, FIRST, MemType::Pma, (b"\x11", &[]));
    assert_eq!(rt; bench.machine.last(ZERO).as_slice(), b"\x11".as_slice());
    assert_eq!(rt; bench.machine.last(ONE).as_slice(), b"".as_slice());
    assert_eq!(rt; bench.machine.bytes(FIRST).as_slice(), b"\0".as_slice());
    bench.drain(&rt, ZERO, 0, Some(&[owned(ZERO, b"")]));
    assert_eq!(rt; bench.machine.bytes(FIRST).as_slice(), b"\x11".as_slice());
    Ok(())
}

#[test]
fn a_load_joins_its_store_and_a_dirty_line(rt: HostRuntime) -> Result<(), NoMemory> {
    let mut bench = Bench::new(rt.alloc())?;
    let back = written(ONE, b"\xaa");
    let fill = BusRec::Fill {
        hart: ZERO,
        block: Block(0),
        from: Origin::Hart(ONE),
    };
    bench.store(&rt, ONE, 0, 0xaa, MemType::Pma);
    bench.drain(&rt, ONE, 0, Some(&[owned(ONE, b"")]));
    bench.store(&rt, ZERO, 1, 0xbb, MemType::Pma);
    let span = Span { at: 0, len: 2 };
    bench.load(&rt, ZERO, span, MemType::Pma, (b"\xaa\xbb", &[back, fill]));
    Ok(())
}

#[test]
fn nc_goes_past_the_caches(rt: HostRuntime) -> Result<(), NoMemory> {
    let mut bench = Bench::new(rt.alloc())?;
    bench.store(&rt, ZERO, 0, 0x5a, MemType::Pma);
    bench.drain(&rt, ZERO, 0, Some(&[owned(ZERO, b"")]));
    bench.load(&rt, ONE, FIRST, MemType::Nc, (b"\0", &[]));
    bench.store(&rt, ONE, 0, 0x77, MemType::Nc);
    bench.drain(&rt, ONE, 0, Some(&[]));
    bench.load(&rt, ONE, FIRST, MemType::Nc, (b"\x77", &[]));
    bench.load(&rt, ZERO, FIRST, MemType::Pma, (b"\x5a", &[]));
    Ok(())
}

#[test]
fn an_io_load_waits_for_an_io_store(rt: HostRuntime) -> Result<(), NoMemory> {
    let mut bench = Bench::new(rt.alloc())?;
    let load = HartOp::Load {
        span: FILLED,
        kind: MemType::Io,
    };
    bench.store(&rt, ZERO, 129, 0x66, MemType::Io);
    assert!(rt; bench.machine.io_waits(ZERO));
    assert!(rt; !bench.machine.can_issue(ZERO, &load));
    assert!(rt; bench.machine.can_issue(ONE, &load));
    bench.drain(&rt, ZERO, 0, Some(&[]));
    assert!(rt; !bench.machine.io_waits(ZERO));
    let both = Span { at: 128, len: 2 };
    bench.load(&rt, ZERO, both, MemType::Io, (b"\x21\x66", &[]));
    Ok(())
}

#[test]
fn a_flush_stays_behind_a_store_of_its_block(rt: HostRuntime) -> Result<(), NoMemory> {
    let mut bench = Bench::new(rt.alloc())?;
    bench.store(&rt, ZERO, 0, 0x5a, MemType::Pma);
    bench.cbo(&rt, ZERO, CboOp::Flush, Block(0));
    assert_eq!(rt; bench.machine.queued(ZERO), 2);
    bench.drain(&rt, ZERO, 1, None);
    bench.drain(&rt, ZERO, 2, None);
    bench.drain(&rt, ZERO, 0, Some(&[owned(ZERO, b"")]));
    let flushed = [written(ZERO, b"\x5a"), dropped(ZERO)];
    bench.drain(&rt, ZERO, 0, Some(&flushed));
    bench.load(&rt, ONE, FIRST, MemType::Nc, (b"\x5a", &[]));
    Ok(())
}

#[test]
fn an_invalidate_loses_a_zero(rt: HostRuntime) -> Result<(), NoMemory> {
    let mut bench = Bench::new(rt.alloc())?;
    bench.store(&rt, ZERO, 0, 0x88, MemType::Nc);
    bench.drain(&rt, ZERO, 0, Some(&[]));
    bench.cbo(&rt, ONE, CboOp::Zero, Block(0));
    bench.load(&rt, ONE, FIRST, MemType::Nc, (b"\0", &[]));
    bench.drain(&rt, ONE, 0, Some(&[owned(ONE, b"\x88")]));
    bench.load(&rt, ONE, FIRST, MemType::Nc, (b"\x88", &[]));
    bench.cbo(&rt, ZERO, CboOp::Inval, Block(0));
    bench.drain(&rt, ZERO, 0, Some(&[dropped(ONE)]));
    assert_eq!(rt; bench.machine.bytes(FIRST).as_slice(), b"\x88".as_slice());
    Ok(())
}

#[test]
fn no_fill_in_the_pool(rt: HostRuntime) -> Result<(), NoMemory> {
    let mut bench = Bench::new(rt.alloc())?;
    assert!(rt; bench.fill(&rt, ZERO, Block(64)).is_none());
    assert!(rt; bench.fill(&rt, ZERO, Block(127)).is_none());
    assert!(rt; bench.evict(ONE, Block(63)).is_none());
    assert!(rt; bench.fill(&rt, ONE, Block(63)).is_some());
    assert!(rt; bench.fill(&rt, ONE, Block(63)).is_none());
    assert!(rt; bench.evict(ONE, Block(63)).is_some());
    Ok(())
}

#[test]
fn a_register_store_claims_and_releases(rt: HostRuntime) -> Result<(), NoMemory> {
    let mut bench = Bench::new(rt.alloc())?;
    bench.set(&rt, ONE, 0, 4, 1);
    assert_eq!(rt; bench.machine.grantee(C), None);
    bench.drain(&rt, ONE, 0, Some(&[]));
    assert_eq!(rt; bench.machine.grantee(C), Some(ONE));
    bench.control(&rt, ONE, 1);
    assert_eq!(rt; bench.machine.register(C, 0x000, 4), 1);
    assert_eq!(rt; bench.machine.register(C, 0x001, 4), 0);
    bench.machine.sound();
    // a store by another hart leaves the grant
    bench.set(&rt, ZERO, 0, 4, 1);
    bench.drain(&rt, ZERO, 0, Some(&[]));
    assert_eq!(rt; bench.machine.grantee(C), Some(ONE));
    bench.set(&rt, ONE, 0, 4, 0);
    bench.drain(&rt, ONE, 0, Some(&[]));
    assert_eq!(rt; bench.machine.grantee(C), None);
    assert_eq!(rt; bench.machine.control(C), 0);
    Ok(())
}

#[test]
fn a_claim_is_refused_with_its_grantee(rt: HostRuntime) -> Result<(), NoMemory> {
    let mut bench = Bench::new(rt.alloc())?;
    assert!(rt; bench.claim(ZERO) == Ok(()));
    assert!(rt; bench.claim(ONE) == Err(ZERO));
    assert!(rt; bench.claim(ZERO) == Err(ZERO));
    assert_eq!(rt; bench.machine.grantee(C), Some(ZERO));
    assert_eq!(rt; bench.machine.control(C), 1);
    Ok(())
}

/// Writes the registers of a copy of 8 bytes from place 128 to place 64, and starts it. No register has an effect
/// before its store drains.
fn start_copy(rt: &impl Abort, bench: &mut Bench) {
    assert!(rt; bench.claim(ZERO).is_ok());
    bench.set(rt, ZERO, 0x008, 8, 8);
    bench.set(rt, ZERO, 0x010, 8, 0x8000_0040);
    bench.set(rt, ZERO, 0x018, 8, 0x8000_0080);
    bench.set(rt, ZERO, 0x004, 4, 0x6600_0000);
    bench.set(rt, ZERO, 0x000, 4, 3);
    bench.drain(rt, ZERO, 1, None);
    assert!(rt; bench.chan_read() == ChanStep::Idle);
    for _ in 0..5 {
        bench.drain(rt, ZERO, 0, Some(&[]));
    }
}

#[test]
fn a_channel_copies_eight_bytes(rt: HostRuntime) -> Result<(), NoMemory> {
    let mut bench = Bench::new(rt.alloc())?;
    start_copy(&rt, &mut bench);
    let bytes = Bytes::of(b"\x21\x22\x23\x24\x25\x26\x27\x28");
    let to = Span { at: 64, len: 8 };
    let read = ChanStep::Moved {
        span: Span { at: 128, len: 8 },
        bytes,
        done: false,
    };
    let written = ChanStep::Moved {
        span: to,
        bytes,
        done: true,
    };
    assert!(rt; bench.chan_read() == read);
    assert!(rt; bench.chan_write() == written);
    assert!(rt; bench.chan_write() == ChanStep::Idle);
    assert!(rt; bench.machine.bytes(to) == bytes);
    // done, and claimed
    assert_eq!(rt; bench.machine.control(C), 0x4000_0001);
    Ok(())
}

#[test]
fn a_message_waits_until_it_is_taken(rt: HostRuntime) -> Result<(), NoMemory> {
    let mut bench = Bench::new(rt.alloc())?;
    let target = IoTarget::Mail { buf: 0, to: ONE };
    bench.queue(&rt, ZERO, HartOp::IoStore(target));
    assert_eq!(rt; bench.machine.waits(0), None);
    bench.drain(&rt, ZERO, 0, Some(&[]));
    assert_eq!(rt; bench.machine.waits(0), Some(ONE));
    assert!(rt; !bench.take(ZERO));
    assert!(rt; bench.take(ONE));
    assert!(rt; !bench.take(ONE));
    Ok(())
}

#[test]
fn fences_mark_wait_or_pass(rt: HostRuntime) -> Result<(), NoMemory> {
    let mut bench = Bench::new(rt.alloc())?;
    let full = HartOp::Fence { pred: 15, succ: 15 };
    bench.pass(&rt, ZERO, 15, 15);
    bench.pass(&rt, ZERO, 2, 2);
    bench.cbo(&rt, ZERO, CboOp::Clean, B);
    bench.queue(&rt, ZERO, HartOp::Fence { pred: 1, succ: 4 });
    assert!(rt; !bench.machine.can_issue(ZERO, &full));
    bench.queue(&rt, ZERO, HartOp::Mark { pred: 1, succ: 4 });
    Ok(())
}

#[test]
fn a_token_stays_behind_its_marker(rt: HostRuntime) -> Result<(), NoMemory> {
    let mut bench = Bench::new(rt.alloc())?;
    let lend = IoTarget::Lend {
        label: Label(5),
        first: 0,
        count: 1,
    };
    bench.cbo(&rt, ZERO, CboOp::Clean, B);
    bench.queue(&rt, ZERO, HartOp::Mark { pred: 1, succ: 4 });
    bench.queue(&rt, ZERO, HartOp::IoStore(lend));
    assert!(rt; bench.machine.lends(ZERO, Label(5)));
    assert!(rt; !bench.machine.lends(ZERO, Label(6)));
    bench.drain(&rt, ZERO, 2, None);
    for _ in 0..3 {
        bench.drain(&rt, ZERO, 0, Some(&[]));
    }
    assert!(rt; !bench.machine.lends(ZERO, Label(5)));
    Ok(())
}
