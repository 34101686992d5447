//! What no clause says: two transfers from start to end, errors and a stop, worked by hand.

ghost use Rattle.std.specs.Prelude.{◌≤◌, length};

use nc_mem::Ram;
use nc_num::{Bytes, Span};
use nc_pdma::{
    ChanStep, Channel, channels_stay_sound, claim_by_control, reads_take_the_next_bytes,
    writes_give_the_first_bytes,
};
use std::process::Abort;
use std::test::Fail;

/// RAM of 512 bytes with 1, 2, .. 16 from place 4 on.
const SOURCE: [u8; 16] = [1, 2, 3, 4, 5, 6, 7, 8, 9, 10, 11, 12, 13, 14, 15, 16];

fn moved(at: u32, bytes: &[u8], done: bool) -> ChanStep
    requires { length bytes.now ≤ 128 }
{
    let len = bytes.len() as u32;
    ChanStep::Moved {
        span: Span { at, len },
        bytes: Bytes::of(bytes),
        done,
    }
}

/// Makes a channel that is claimed, with these Next registers, and started.
fn started(rt: &impl Abort, config: u64, bytes: u64, destination: u64, source: u64) -> Channel {
    let mut channel = Channel::new();
    let writes = [
        (0x000, 4, 1),
        (0x004, 4, config),
        (0x008, 8, bytes),
        (0x010, 8, destination),
        (0x018, 8, source),
        (0x000, 4, 3),
    ];
    for (off, width, value) in writes {
        assert_eq!(rt; channel.write(off, width, value), Ok(()));
    }
    channel
}

#[test]
fn ordered_transfer(rt: HostRuntime) -> Result<(), Fail> {
    let mut ram = Ram::new(rt.alloc(), 512).ok().ok_or("memory")?;
    assert_eq!(rt; ram.len(), 512);
    ram.write(Span { at: 4, len: 16 }, &SOURCE);
    let mut channel = started(&rt, 0x3300_0008, 16, 0x8000_0100, 0x8000_0004);
    assert_eq!(rt; channel.read_step(&ram), moved(4, &[1, 2, 3, 4], false));
    assert_eq!(rt; channel.read_step(&ram), ChanStep::Idle);
    assert_eq!(rt;
        channel.write_step(&mut ram),
        moved(256, &[1, 2, 3, 4], false)
    );
    assert_eq!(rt;
        channel.read_step(&ram),
        moved(8, &[5, 6, 7, 8, 9, 10, 11, 12], false)
    );
    assert_eq!(rt;
        channel.write_step(&mut ram),
        moved(260, &[5, 6, 7, 8], false)
    );
    assert_eq!(rt;
        channel.write_step(&mut ram),
        moved(264, &[9, 10, 11, 12], false)
    );
    assert_eq!(rt;
        channel.read_step(&ram),
        moved(16, &[13, 14, 15, 16], false)
    );
    assert_eq!(rt;
        channel.write_step(&mut ram),
        moved(268, &[13, 14, 15, 16], true)
    );
    assert_eq!(rt; channel.write_step(&mut ram), ChanStep::Idle);
    assert_eq!(rt; channel.read(0x000, 4), Ok(0x4000_0001));
    assert_eq!(rt; channel.read(0x108, 8), Ok(0));
    assert_eq!(rt; ram.len(), 512);
    assert_eq!(rt;
        ram.read(Span { at: 256, len: 16 }).as_slice(),
        SOURCE.as_slice()
    );
    Ok(())
}

#[test]
fn repeated_transfer(rt: HostRuntime) -> Result<(), Fail> {
    channels_stay_sound();
    claim_by_control();
    reads_take_the_next_bytes();
    writes_give_the_first_bytes();
    let mut ram = Ram::new(rt.alloc(), 512).ok().ok_or("memory")?;
    assert_eq!(rt; ram.len(), 512);
    ram.write(Span { at: 4, len: 16 }, &SOURCE);
    let mut channel = started(&rt, 0x3300_000c, 8, 0x8000_0100, 0x8000_0004);
    for at in [4, 8] {
        let first = at as u8 - 3;
        let bytes = [first, first + 1, first + 2, first + 3];
        assert_eq!(rt; channel.read_step(&ram), moved(at, &bytes, false));
        assert_eq!(rt;
            channel.write_step(&mut ram),
            moved(at + 252, &bytes, at == 8)
        );
    }
    assert_eq!(rt; channel.read(0x000, 4), Ok(0x4000_0003));
    assert_eq!(rt; channel.read(0x108, 8), Ok(8));
    assert_eq!(rt; channel.read_step(&ram), moved(4, &[1, 2, 3, 4], false));
    Ok(())
}

#[test]
fn errors_and_a_stop(rt: HostRuntime) -> Result<(), Fail> {
    let mut ram = Ram::new(rt.alloc(), 512).ok().ok_or("memory")?;
    let mut channel = started(&rt, 0, 4, 0x8000_0000, 0x7fff_ffff);
    let low = ChanStep::Error {
        bus: 0x7fff_ffff,
        len: 1,
    };
    assert_eq!(rt; channel.read_step(&ram), low);
    assert_eq!(rt; channel.read(0x000, 4), Ok(0x8000_0001));
    assert_eq!(rt; channel.read_step(&ram), ChanStep::Idle);
    let mut channel = started(&rt, 0x6600_0000, 128, 0x8000_01ff, 0x8000_01c0);
    assert_eq!(rt; channel.read_step(&ram), moved(448, &[0; 64], false));
    assert_eq!(rt; channel.read_step(&ram), ChanStep::Idle);
    assert_eq!(rt; channel.write_step(&mut ram), moved(511, &[0], false));
    let end = ChanStep::Error {
        bus: 0x8000_0200,
        len: 1,
    };
    assert_eq!(rt; channel.read_step(&ram), end);
    assert_eq!(rt; channel.write_step(&mut ram), ChanStep::Idle);
    assert_eq!(rt; channel.write(0x000, 4, 0x8000_0003), Ok(()));
    assert_eq!(rt; channel.read(0x000, 4), Ok(0x8000_0003));
    assert_eq!(rt; channel.write_step(&mut ram), ChanStep::Idle);
    assert_eq!(rt; channel.read_step(&ram), moved(448, &[0; 64], false));
    assert_eq!(rt; channel.write(0x000, 4, 1), Ok(()));
    assert_eq!(rt; channel.read(0x000, 4), Ok(1));
    assert_eq!(rt; channel.write(0x000, 4, 3), Ok(()));
    assert_eq!(rt; channel.write_step(&mut ram), ChanStep::Idle);
    Ok(())
}
