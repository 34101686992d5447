//! What no clause says: the line of each form, worked by hand.

use crate::fixtures::{STORE, started};
use nc_cache::Origin;
use nc_env::{CboOp, Field};
use nc_io::SureSink;
use nc_model::{Actor, Owner, Touch, TouchKind};
use nc_num::{Block, Bytes, ChanNo, HartNo, Label, MapId, Place, Span};
use nc_plan::{IoTarget, SegList, Segment};
use nc_report::{event_line, line, refused, step_out, tail};
use nc_rules::{Answer, Record, Refusal, ToldAnswer};
use nc_scen::{Event, Path, Refused};
use nc_slots::TryAnswer;
use nc_world::Stepped;
use std::test::Fail;

const HART: HartNo = HartNo(2);

const OTHER: HartNo = HartNo(3);

const AT: Place = Place(0x1a40);

const SPAN: Span = Span {
    at: 0xff00,
    len: 24,
};

const MAPPING: MapId = MapId {
    hart: HartNo(1),
    label: Label(1000),
    entry: 5,
};

#[test]
fn each_event_has_a_token(rt: HostRuntime) -> Result<(), Fail> {
    let table = [
        (Event::Issue(HART), "e i2\n"),
        (Event::Try(HART), "e t2\n"),
        (Event::Told(HART, true), "e g2\n"),
        (Event::Told(HART, false), "e n2\n"),
        (Event::Drain(HART, 7), "e d2.7\n"),
        (Event::Fill(HART, Block(130)), "e f2.130\n"),
        (Event::Evict(HART, Block(16383)), "e e2.16383\n"),
        (Event::ChanRead(ChanNo(3)), "e r3\n"),
        (Event::ChanWrite(ChanNo(0)), "e w0\n"),
    ];
    for (e, text) in table {
        assert_eq!(rt; event_line(rt.alloc(), e)?.as_slice(), text.as_bytes());
        let entry = Record::Event(e);
        assert_eq!(rt; line(rt.alloc(), &entry)?.as_slice(), text.as_bytes());
    }
    Ok(())
}

#[test]
fn each_kind_of_touch_has_a_line(rt: HostRuntime) -> Result<(), Fail> {
    let hart = Actor::Hart(HART);
    let chan = Actor::Chan(ChanNo(1));
    let owner = Owner::Thread(OTHER);
    let table = [
        (
            TouchKind::Load,
            hart,
            "touch load hart 2 00ff00 24 thread 3\n",
        ),
        (
            TouchKind::Store,
            hart,
            "touch store hart 2 00ff00 24 thread 3\n",
        ),
        (
            TouchKind::Channel,
            chan,
            "touch channel chan 1 00ff00 24 thread 3\n",
        ),
        (
            TouchKind::Register,
            hart,
            "touch register hart 2 00ff00 24 thread 3\n",
        ),
        (
            TouchKind::Alias,
            hart,
            "touch alias hart 2 00ff00 24 thread 3\n",
        ),
        (
            TouchKind::Discard,
            hart,
            "touch discard hart 2 00ff00 24 thread 3\n",
        ),
    ];
    for (kind, who, text) in table {
        let entry = Record::Touched(Touch {
            kind,
            who,
            span: SPAN,
            holder: owner,
        });
        assert_eq!(rt; line(rt.alloc(), &entry)?.as_slice(), text.as_bytes());
    }
    Ok(())
}

#[test]
fn each_owner_has_its_words(rt: HostRuntime) -> Result<(), Fail> {
    let table = [
        (Owner::Thread(HART), "ow 00ff00 24 thread 2\n"),
        (Owner::Passing(HART, OTHER), "ow 00ff00 24 passing 2 3\n"),
        (Owner::Lending(MAPPING), "ow 00ff00 24 lending 1 1000 5\n"),
        (Owner::Device(MAPPING), "ow 00ff00 24 device 1 1000 5\n"),
        (
            Owner::Returning(MAPPING),
            "ow 00ff00 24 returning 1 1000 5\n",
        ),
        (Owner::Synced(MAPPING), "ow 00ff00 24 synced 1 1000 5\n"),
        (Owner::Pool, "ow 00ff00 24 pool\n"),
    ];
    for (owner, text) in table {
        let entry = Record::Ow { span: SPAN, owner };
        assert_eq!(rt; line(rt.alloc(), &entry)?.as_slice(), text.as_bytes());
    }
    Ok(())
}

#[test]
fn pieces_show_their_bytes(rt: HostRuntime) -> Result<(), Fail> {
    let (hart, chan, at) = (HART, ChanNo(1), AT);
    let bytes = Bytes::of(b"\x00\xff\x0a");
    let table = [
        (Record::Ld { hart, at, bytes }, "ld 2 001a40 00ff0a\n"),
        (Record::St { hart, at, bytes }, "st 2 001a40 00ff0a\n"),
        (Record::Pl { hart, at, bytes }, "pl 2 001a40 00ff0a\n"),
        (Record::Ps { hart, at, bytes }, "ps 2 001a40 00ff0a\n"),
        (Record::DrStore { hart, at, bytes }, "dr 2 001a40 00ff0a\n"),
        (Record::Wb { hart, at, bytes }, "wb 2 001a40 00ff0a\n"),
        (Record::Cr { chan, at, bytes }, "cr 1 001a40 00ff0a\n"),
        (Record::Cw { chan, at, bytes }, "cw 1 001a40 00ff0a\n"),
    ];
    for (entry, text) in table {
        assert_eq!(rt; line(rt.alloc(), &entry)?.as_slice(), text.as_bytes());
    }
    Ok(())
}

#[test]
fn operations_and_fences_have_lines(rt: HostRuntime) -> Result<(), Fail> {
    let (hart, at, pred, succ) = (HART, AT, 15, 5);
    let (clean, zero) = (CboOp::Clean, CboOp::Zero);
    let (flush, inval) = (CboOp::Flush, CboOp::Inval);
    let table = [
        (
            Record::Cbo {
                hart,
                op: clean,
                at,
            },
            "cbo 2 clean 001a40\n",
        ),
        (Record::Cbo { hart, op: zero, at }, "cbo 2 zero 001a40\n"),
        (
            Record::DrCbo {
                hart,
                op: flush,
                at,
            },
            "dr 2 flush 001a40\n",
        ),
        (
            Record::DrCbo {
                hart,
                op: inval,
                at,
            },
            "dr 2 inval 001a40\n",
        ),
        (Record::Fence { hart, pred, succ }, "fence 2 15 5\n"),
        (Record::Mark { hart, pred, succ }, "mark 2 15 5\n"),
        (Record::DrMark(hart), "dr 2 mark\n"),
        (Record::Drop { hart, at }, "drop 2 001a40\n"),
    ];
    for (entry, text) in table {
        assert_eq!(rt; line(rt.alloc(), &entry)?.as_slice(), text.as_bytes());
    }
    Ok(())
}

#[test]
fn io_stores_name_their_targets(rt: HostRuntime) -> Result<(), Fail> {
    let hart = HART;
    let target = IoTarget::Reg {
        chan: ChanNo(3),
        off: 0x10,
        width: 8,
        value: 0x8000_1a40,
    };
    let mail = IoTarget::Mail { buf: 63, to: OTHER };
    let lend = IoTarget::Lend {
        label: Label(7),
        first: 1,
        count: 16,
    };
    let table = [
        (
            Record::Io { hart, target },
            "io 2 reg 3 010 0000000080001a40\n",
        ),
        (Record::Io { hart, target: mail }, "io 2 mail 63 3\n"),
        (Record::Io { hart, target: lend }, "io 2 lend 7 1 16\n"),
        (
            Record::DrIo { hart, target },
            "dr 2 reg 3 010 0000000080001a40\n",
        ),
        (Record::DrIo { hart, target: mail }, "dr 2 mail 63 3\n"),
        (Record::DrIo { hart, target: lend }, "dr 2 lend 7 1 16\n"),
    ];
    for (entry, text) in table {
        assert_eq!(rt; line(rt.alloc(), &entry)?.as_slice(), text.as_bytes());
    }
    Ok(())
}

#[test]
fn copies_tell_where_they_came_from(rt: HostRuntime) -> Result<(), Fail> {
    let (hart, at) = (HART, AT);
    let memory = Origin::Mem(Bytes::of(b"\x12\x9c"));
    let other = Origin::Hart(OTHER);
    let held = Origin::Held;
    let table = [
        (
            Record::Fill {
                hart,
                at,
                from: memory,
            },
            "fill 2 001a40 mem 129c\n",
        ),
        (
            Record::Fill {
                hart,
                at,
                from: other,
            },
            "fill 2 001a40 hart 3\n",
        ),
        (
            Record::Own {
                hart,
                at,
                from: memory,
            },
            "own 2 001a40 mem 129c\n",
        ),
        (
            Record::Own {
                hart,
                at,
                from: other,
            },
            "own 2 001a40 hart 3\n",
        ),
        (
            Record::Own {
                hart,
                at,
                from: held,
            },
            "own 2 001a40 held\n",
        ),
    ];
    for (entry, text) in table {
        assert_eq!(rt; line(rt.alloc(), &entry)?.as_slice(), text.as_bytes());
    }
    Ok(())
}

#[test]
fn channels_and_slots_have_lines(rt: HostRuntime) -> Result<(), Fail> {
    let (hart, word) = (HART, 63);
    let chan = ChanNo(1);
    let bus = 0x1_8000_0000;
    let try_held = TryAnswer::Held(OTHER);
    let held = ToldAnswer::Held(OTHER);
    let table = [
        (Record::Cd(chan), "cd 1\n"),
        (
            Record::Ce { chan, bus, len: 64 },
            "ce 1 0000000180000000 64\n",
        ),
        (
            Record::Try {
                hart,
                word,
                answer: TryAnswer::Got,
            },
            "try 2 63 got\n",
        ),
        (
            Record::Try {
                hart,
                word,
                answer: try_held,
            },
            "try 2 63 held 3\n",
        ),
        (
            Record::Told {
                hart,
                word,
                answer: ToldAnswer::Got,
            },
            "told 2 63 got\n",
        ),
        (
            Record::Told {
                hart,
                word,
                answer: ToldAnswer::Miss,
            },
            "told 2 63 miss\n",
        ),
        (
            Record::Told {
                hart,
                word,
                answer: held,
            },
            "told 2 63 held 3\n",
        ),
        (Record::Back { hart, word }, "back 2 63\n"),
    ];
    for (entry, text) in table {
        assert_eq!(rt; line(rt.alloc(), &entry)?.as_slice(), text.as_bytes());
    }
    Ok(())
}

#[test]
fn answers_with_numbers(rt: HostRuntime) -> Result<(), Fail> {
    let list = SegList::of(&[
        Segment {
            bus: 0x8000_0040,
            len: 64,
        },
        Segment {
            bus: 0x8000_f000,
            len: 1,
        },
    ]);
    let table = [
        (Answer::Mapped(0x8000_0040), "ans 2 4095 mapped 80000040\n"),
        (
            Answer::Segments(list),
            "ans 2 4095 segments 2 80000040:64 8000f000:1\n",
        ),
        (
            Answer::NoSegments(Refusal::NoSlot),
            "ans 2 4095 segments 0 noslot\n",
        ),
        (
            Answer::Allocated(0x8000_c000),
            "ans 2 4095 allocated 8000c000\n",
        ),
        (Answer::Done(0x4000_0001), "ans 2 4095 done 40000001\n"),
        (Answer::Error(0x8000_0001), "ans 2 4095 error 80000001\n"),
        (
            Answer::Value(0x6600_0000),
            "ans 2 4095 value 0000000066000000\n",
        ),
        (Answer::CopyFailed(1), "ans 2 4095 copyfailed 00000001\n"),
        (Answer::Refused(Refusal::Empty), "ans 2 4095 empty\n"),
    ];
    for (answer, text) in table {
        let (hart, op) = (HART, 4095);
        let entry = Record::Ans { hart, op, answer };
        assert_eq!(rt; line(rt.alloc(), &entry)?.as_slice(), text.as_bytes());
    }
    Ok(())
}

#[test]
fn answers_of_mappings_and_areas(rt: HostRuntime) -> Result<(), Fail> {
    let table = [
        (Answer::Unmapped, "ans 2 0 unmapped\n"),
        (Answer::Cpu, "ans 2 0 cpu\n"),
        (Answer::Dev, "ans 2 0 dev\n"),
        (Answer::Freed, "ans 2 0 freed\n"),
        (Answer::Given, "ans 2 0 given\n"),
        (Answer::Taken, "ans 2 0 taken\n"),
        (Answer::Handed, "ans 2 0 handed\n"),
    ];
    for (answer, text) in table {
        let (hart, op) = (HART, 0);
        let entry = Record::Ans { hart, op, answer };
        assert_eq!(rt; line(rt.alloc(), &entry)?.as_slice(), text.as_bytes());
    }
    Ok(())
}

#[test]
fn answers_of_channels(rt: HostRuntime) -> Result<(), Fail> {
    let table = [
        (Answer::Took, "ans 2 0 took\n"),
        (Answer::Claimed, "ans 2 0 claimed\n"),
        (Answer::Released, "ans 2 0 released\n"),
        (Answer::Set, "ans 2 0 set\n"),
        (Answer::Started, "ans 2 0 started\n"),
        (Answer::Wrote, "ans 2 0 wrote\n"),
        (Answer::CopyDone, "ans 2 0 copydone\n"),
    ];
    for (answer, text) in table {
        let (hart, op) = (HART, 0);
        let entry = Record::Ans { hart, op, answer };
        assert_eq!(rt; line(rt.alloc(), &entry)?.as_slice(), text.as_bytes());
    }
    Ok(())
}

#[test]
fn refusals_with_numbers(rt: HostRuntime) -> Result<(), Fail> {
    let table = [
        (Refusal::NotYours(Owner::Pool), "ans 2 0 notyours pool\n"),
        (Refusal::ChannelBusy(OTHER), "ans 2 0 channelbusy 3\n"),
        (Refusal::BadCount(16), "ans 2 0 badcount 16\n"),
        (
            Refusal::PageFault(0x5008, 3),
            "ans 2 0 pagefault 00005008 3\n",
        ),
        (Refusal::BadMmio(0x3c, 8), "ans 2 0 badmmio 03c 8\n"),
        (
            Refusal::CboOff(Field::MCbie),
            "ans 2 0 cbooff menvcfg.cbie\n",
        ),
        (
            Refusal::CboOff(Field::MCbcfe),
            "ans 2 0 cbooff menvcfg.cbcfe\n",
        ),
        (
            Refusal::CboOff(Field::SCbze),
            "ans 2 0 cbooff senvcfg.cbze\n",
        ),
    ];
    for (refusal, text) in table {
        let (hart, op, answer) = (HART, 0, Answer::Refused(refusal));
        let entry = Record::Ans { hart, op, answer };
        assert_eq!(rt; line(rt.alloc(), &entry)?.as_slice(), text.as_bytes());
    }
    Ok(())
}

#[test]
fn refusals_by_a_word(rt: HostRuntime) -> Result<(), Fail> {
    let table = [
        (Refusal::BadRange, "ans 2 0 badrange\n"),
        (Refusal::LabelUsed, "ans 2 0 labelused\n"),
        (Refusal::NoLabel, "ans 2 0 nolabel\n"),
        (Refusal::TooBig, "ans 2 0 toobig\n"),
        (Refusal::NoPbmt, "ans 2 0 nopbmt\n"),
        (Refusal::NoPage, "ans 2 0 nopage\n"),
        (
            Refusal::IllegalCbo(Field::MCbze),
            "ans 2 0 illegal menvcfg.cbze\n",
        ),
        (
            Refusal::IllegalCbo(Field::SCbie),
            "ans 2 0 illegal senvcfg.cbie\n",
        ),
        (
            Refusal::IllegalCbo(Field::SCbcfe),
            "ans 2 0 illegal senvcfg.cbcfe\n",
        ),
    ];
    for (refusal, text) in table {
        let (hart, op, answer) = (HART, 0, Answer::Refused(refusal));
        let entry = Record::Ans { hart, op, answer };
        assert_eq!(rt; line(rt.alloc(), &entry)?.as_slice(), text.as_bytes());
    }
    Ok(())
}

#[test]
fn refused_input_has_a_line(rt: HostRuntime) -> Result<(), Fail> {
    let alloc = rt.alloc();
    let key = Path::new(format!(in alloc; "ram")?);
    let script = Path::new(format!(in alloc; "harts.0.script.3")?);
    let table = [
        (Refused::TooLong, "refused long\n"),
        (Refused::NotJson, "refused json\n"),
        (Refused::Shape(key), "refused shape ram\n"),
        (Refused::Version(7), "refused version 7\n"),
        (
            Refused::Limit(script, 4097),
            "refused limit harts.0.script.3 4097\n",
        ),
        (Refused::Overlap(0, 65), "refused overlap 0 65\n"),
        (Refused::Token(399_999), "refused token 399999\n"),
    ];
    for (fault, text) in &table {
        assert_eq!(rt; refused(alloc, fault)?.as_slice(), text.as_bytes());
    }
    Ok(())
}

#[test]
fn an_event_is_written_and_the_end_is_shown(rt: HostRuntime) -> Result<(), Fail> {
    let alloc = rt.alloc();
    let Some((sc, mut w)) = started(alloc, STORE) else {
        assert!(rt; false);
        return Ok(());
    };
    assert_eq!(rt;
        tail(alloc, &sc, &w)?.as_slice(),
        b"buf 0 0708\nbuf 1 feff0001\nleft 1 0\nend events 0 touches 0\n".as_slice()
    );
    assert_eq!(rt; w.harts(), 2);
    let mut out = SureSink::new(alloc);
    let issue = Event::Issue(HartNo(1));
    assert_eq!(rt; step_out(alloc, &mut w, issue, &mut out), Ok(Stepped::Done));
    assert_eq!(rt; out.bytes(), b"e i1\nst 1 00007e 11\n".as_slice());
    assert_eq!(rt; w.records().len(), 0);
    Ok(())
}

#[test]
fn a_world_is_looked_at(rt: HostRuntime) -> Result<(), Fail> {
    let Some((_, mut w)) = started(rt.alloc(), STORE) else {
        assert!(rt; false);
        return Ok(());
    };
    assert_eq!(rt; w.harts(), 2);
    assert!(rt; !w.ended());
    assert_eq!(rt; w.searching(HartNo(1)), None);
    assert_eq!(rt; w.holder(0), None);
    assert_eq!(rt; w.step(Event::Issue(HartNo(1))), Ok(Stepped::Done));
    assert_eq!(rt; w.take_records().as_slice().len(), 2);
    assert!(rt; w.records().is_empty());
    assert_eq!(rt; w.harts(), 2);
    assert!(rt; !w.ended());
    assert_eq!(rt; w.step(Event::Drain(HartNo(1), 0)), Ok(Stepped::Done));
    assert!(rt; w.ended());
    Ok(())
}
