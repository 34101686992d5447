//! What no clause says: the registers by the profile's table and rules, worked by hand.

use nc_pdma_regs::{BadMmio, Regs, claim_by_control, known, runs_are_claimed};

const CONTROL: (u16, u8) = (0x000, 4);

const NEXT_CONFIG: (u16, u8) = (0x004, 4);

const NEXT_BYTES: (u16, u8) = (0x008, 8);

const NEXT_DESTINATION: (u16, u8) = (0x010, 8);

const NEXT_SOURCE: (u16, u8) = (0x018, 8);

const EXEC_CONFIG: (u16, u8) = (0x104, 4);

const EXEC_BYTES: (u16, u8) = (0x108, 8);

const EXEC_DESTINATION: (u16, u8) = (0x110, 8);

const EXEC_SOURCE: (u16, u8) = (0x118, 8);

#[test]
fn nine_registers_and_no_other(rt: HostRuntime) {
    claim_by_control();
    runs_are_claimed();
    let mut regs = Regs::new();
    let there = [
        CONTROL,
        NEXT_CONFIG,
        NEXT_BYTES,
        NEXT_DESTINATION,
        NEXT_SOURCE,
        EXEC_CONFIG,
        EXEC_BYTES,
        EXEC_DESTINATION,
        EXEC_SOURCE,
    ];
    for (off, width) in there {
        assert_eq!(rt; known(off, width), Ok(()), "at {off}");
        assert_eq!(rt; regs.read(off, width), Ok(0), "at {off}");
        assert_eq!(rt; regs.write(off, width, 0), Ok(()), "at {off}");
    }
    let refused = [
        (0x000, 8),
        (0x000, 1),
        (0x000, 0),
        (0x002, 2),
        (0x004, 8),
        (0x008, 4),
        (0x00c, 4),
        (0x010, 4),
        (0x018, 2),
        (0x020, 8),
        (0x100, 4),
        (0x104, 8),
        (0x108, 4),
        (0x110, 16),
        (0x118, 4),
        (0x120, 8),
    ];
    for (off, width) in refused {
        let bad = BadMmio { off, width };
        assert_eq!(rt; known(off, width), Err(bad));
        assert_eq!(rt; regs.read(off, width), Err(bad));
        assert_eq!(rt; regs.write(off, width, 1), Err(bad));
    }
}

#[test]
fn each_rule_of_a_write(rt: HostRuntime) {
    // what is written where, and what a register reads then
    let steps = [
        (CONTROL, 2, CONTROL, 0),
        (CONTROL, 3, CONTROL, 1),
        (NEXT_BYTES, 16, NEXT_BYTES, 16),
        (CONTROL, 1, NEXT_BYTES, 16),
        (CONTROL, 0, NEXT_BYTES, 16),
        (NEXT_BYTES, 5, NEXT_BYTES, 16),
        (CONTROL, 1, NEXT_BYTES, 0),
        (CONTROL, 0x1234_ffff, CONTROL, 0x4000_c001),
        (CONTROL, 1, CONTROL, 1),
        (CONTROL, 3, CONTROL, 0x4000_0001),
        (CONTROL, 0xc000_0001, CONTROL, 0x4000_0001),
        (CONTROL, 0x8000_0001, CONTROL, 1),
        (NEXT_CONFIG, 0x1_3300_ffff, NEXT_CONFIG, 0x3300_000c),
        (NEXT_BYTES, 8, NEXT_BYTES, 8),
        (NEXT_DESTINATION, 0x8000_0100, NEXT_DESTINATION, 0x8000_0100),
        (NEXT_SOURCE, 0x8000_0004, NEXT_SOURCE, 0x8000_0004),
        (CONTROL, 0x1_0000_0003, CONTROL, 3),
        (CONTROL, 2, EXEC_BYTES, 8),
        (EXEC_BYTES, 9, EXEC_BYTES, 8),
        (NEXT_BYTES, 24, EXEC_CONFIG, 0x3300_000c),
        (NEXT_SOURCE, 7, EXEC_SOURCE, 0x8000_0004),
        (NEXT_DESTINATION, 7, EXEC_DESTINATION, 0x8000_0100),
        (CONTROL, 3, EXEC_BYTES, 8),
        (CONTROL, 2, CONTROL, 3),
        (CONTROL, 0, CONTROL, 1),
        (CONTROL, 0, CONTROL, 0),
    ];
    let mut regs = Regs::new();
    for ((off, width), value, (read_off, read_width), want) in steps {
        assert_eq!(rt; regs.write(off, width, value), Ok(()));
        assert_eq!(rt;
            regs.read(read_off, read_width),
            Ok(want),
            "after {off} {value}"
        );
    }
}

#[test]
fn lowest_byte_first(rt: HostRuntime) {
    let mut regs = Regs::new();
    assert_eq!(rt; regs.write_bytes(0, &[1, 0, 0, 0]), Ok(()));
    assert_eq!(rt; regs.write_bytes(8, &[8, 7, 6, 5, 4, 3, 2, 1]), Ok(()));
    assert_eq!(rt; regs.read(8, 8), Ok(0x0102_0304_0506_0708));
    let mut long = [0; 8];
    assert_eq!(rt; regs.read_bytes(8, &mut long), Ok(()));
    assert_eq!(rt; long, [8, 7, 6, 5, 4, 3, 2, 1]);
    let mut short = [9; 4];
    assert_eq!(rt; regs.read_bytes(0, &mut short), Ok(()));
    assert_eq!(rt; short, [1, 0, 0, 0]);
    assert_eq!(rt;
        regs.read_bytes(8, &mut short),
        Err(BadMmio { off: 8, width: 4 })
    );
    assert_eq!(rt; short, [1, 0, 0, 0]);
    assert_eq!(rt; regs.write_bytes(0, &[]), Err(BadMmio { off: 0, width: 0 }));
}

#[test]
fn a_transfer_ends_repeats_or_fails(rt: HostRuntime) {
    let mut regs = Regs::new();
    for ((off, width), value) in [
        (CONTROL, 1),
        (NEXT_CONFIG, 4),
        (NEXT_BYTES, 2),
        (CONTROL, 3),
    ] {
        assert_eq!(rt; regs.write(off, width, value), Ok(()));
    }
    let exec = regs.exec();
    assert!(rt; regs.is_running() && exec.bytes == 2 && exec.source == 0 && exec.destination == 0);
    regs.read_on(2);
    assert_eq!(rt; regs.exec().source, 2);
    assert!(rt; !regs.write_on(1));
    let exec = regs.exec();
    assert!(rt; exec.bytes == 1 && exec.destination == 1);
    assert!(rt; regs.write_on(1));
    assert_eq!(rt; regs.exec().source, 0);
    assert_eq!(rt; regs.read(0, 4), Ok(0x4000_0003));
    regs.fail();
    assert_eq!(rt; regs.read(0, 4), Ok(0xc000_0001));
}
