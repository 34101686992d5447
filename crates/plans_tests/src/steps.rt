//! What no clause says: the steps of a few accesses, worked by hand.

ghost use Rattle.std.specs.Prelude.{slice_index, EachIndex};
ghost use Rattle.nc_pte.specs.Words.{IsPteWord};

use nc_num::{Bytes, ChanNo, MemType, Span};
use nc_plan::{HartOp, IoTarget, Payload};
use nc_pte::{PageFault, is_pte_word};
use nc_steps::{
    At, load_step, loads_are_pieces, pieces_follow, regs_step, steps_stop, store_step,
    stores_are_pieces, tables_serve,
};

/// Virtual page 0 is page 7 of RAM with PBMT 0, and virtual page 1 is page 1 of RAM with PBMT 1.
const TABLE: [u64; 2] = [0x0000_0000_2000_1cc7, 0x2000_0000_2000_04c7];

/// Two bytes in each of the two pages.
const ACROSS: At = At::Virtual { va: 4094 };

/// Returns step n of a load across the pages.
fn loaded(pbmte: bool, n: u32) -> Result<Option<HartOp>, PageFault>
    requires { EachIndex TABLE (λ k. IsPteWord 1048576 (slice_index TABLE k)) }
{
    load_step(ACROSS, pbmte, &TABLE, 4, n)
}

/// Returns step n of a store across the pages.
fn stored(pbmte: bool, n: u32) -> Result<Option<HartOp>, PageFault>
    requires { EachIndex TABLE (λ k. IsPteWord 1048576 (slice_index TABLE k)) }
{
    store_step(ACROSS, pbmte, &TABLE, b"\x0a\x0b\x0c\x0d", n)
}

#[test]
fn pieces_of_odd_ranges(rt: HostRuntime) {
    pieces_follow();
    loads_are_pieces();
    steps_stop();
    let table = [
        (3, 22, 0, Some((3, 1))),
        (3, 22, 1, Some((4, 4))),
        (3, 22, 2, Some((8, 8))),
        (3, 22, 3, Some((16, 8))),
        (3, 22, 4, Some((24, 1))),
        (3, 22, 5, None),
        (1, 4096, 2, Some((4, 4))),
        (1, 4096, 3, Some((8, 8))),
        (1, 4096, 513, Some((4088, 8))),
        (1, 4096, 514, Some((4096, 1))),
        (1, 4096, 515, None),
        (8, 7, 0, Some((8, 4))),
        (8, 7, 2, Some((14, 1))),
        (8, 7, 4_000_000_000, None),
    ];
    let kind = MemType::Nc;
    for (at, len, n, want) in table {
        let want = want.map(|(at, len)| HartOp::Load {
            span: Span { at, len },
            kind,
        });
        assert!(rt; at < 100 && len <= 4096);
        assert_eq!(rt;
            load_step(At::Ram { at, kind }, false, &[], len, n),
            Ok(want),
            "{at} {n}"
        );
    }
}

#[test]
fn the_second_page_faults(rt: HostRuntime) {
    tables_serve();
    stores_are_pieces();
    assert!(rt; is_pte_word(1_048_576, TABLE[0]) && is_pte_word(1_048_576, TABLE[1]));
    let (pma, nc) = (MemType::Pma, MemType::Nc);
    let first = Span { at: 32766, len: 2 };
    let second = Span { at: 4096, len: 2 };
    let fault = PageFault { va: 4096, bits: 1 };
    let load = |span, kind| Ok(Some(HartOp::Load { span, kind }));
    let loads = [
        (false, 0, load(first, pma)),
        (false, 1, Err(fault)),
        (false, 2, Ok(None)),
        (true, 0, load(first, pma)),
        (true, 1, load(second, nc)),
        (true, 2, Ok(None)),
    ];
    for (pbmte, n, want) in loads {
        assert_eq!(rt; loaded(pbmte, n), want, "{pbmte} {n}");
    }
    let store = |span, kind, bytes: &[u8]| {
        Ok(Some(HartOp::Store {
            span,
            kind,
            bytes: Payload::Given(Bytes::of(bytes)),
        }))
    };
    assert_eq!(rt; stored(true, 0), store(first, pma, b"\x0a\x0b"));
    assert_eq!(rt; stored(true, 1), store(second, nc, b"\x0c\x0d"));
    assert_eq!(rt; stored(true, 2), Ok(None));
    assert_eq!(rt; stored(false, 1), Err(fault));
}

#[test]
fn four_registers_are_set(rt: HostRuntime) {
    let chan = ChanNo(3);
    let table = [
        (0, Some((0x004, 4, 0x4400_0000))),
        (1, Some((0x008, 8, 64))),
        (2, Some((0x010, 8, 0x8000_2000))),
        (3, Some((0x018, 8, 0x8000_1000))),
        (4, None),
        (u32::MAX, None),
    ];
    for (n, want) in table {
        let want = want.map(|(off, width, value)| {
            HartOp::IoStore(IoTarget::Reg {
                chan,
                off,
                width,
                value,
            })
        });
        assert_eq!(rt;
            regs_step(chan, 0x8000_1000, 0x8000_2000, 64, 0x4400_0000, n),
            want,
            "{n}"
        );
    }
}
