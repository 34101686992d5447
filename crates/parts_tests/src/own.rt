//! What no clause says: the owner table, worked by hand over one book, and that each call answers.

ghost use Rattle.std.specs.Prelude.{◌≡◌, ◌+◌, ◌<◌, ◌≤◌, length, IfOk};

use nc_num::{ChanNo, Dir, HartNo, Label, MapId, NoMemory, Place, Span};
use nc_own::{
    Access, Actor, Book, Grant, Interval, Owner, Touch, TouchKind, book_is_transfers, same_touches,
};
use std::alloc::Global;
use std::test::Fail;

const RAM: u32 = 256;

fn mapping(label: u32) -> MapId
    ensures { result.label.0 ≡ label }
{
    MapId {
        hart: HartNo(0),
        label: Label(label),
        entry: 0,
    }
}

/// Makes a grant of eight bytes from `buffer` on.
fn grant(label: u32, buffer: u32, device: u32, dir: Dir, chan: u8) -> Grant
    ensures label { result.id.label.0 ≡ label }
    ensures buffer { result.buffer.at ≡ buffer }
    ensures device { result.device.at ≡ device }
    ensures buffer_len { result.buffer.len ≡ 8 }
    ensures device_len { result.device.len ≡ 8 }
{
    Grant {
        id: mapping(label),
        buffer: Span { at: buffer, len: 8 },
        device: Span { at: device, len: 8 },
        dir,
        chan: ChanNo(chan),
    }
}

/// Makes a book with a mapping to the device, one from it, and one through a slot.
fn granted(alloc: Global, ram: u32) -> Result<Book, NoMemory>
    requires { 256 ≤ ram }
    ensures { IfOk result (λ b. length b.owners ≡ ram) }
{
    let mut book = Book::new(alloc, ram)?;
    book.reserve(3)?;
    book.add(grant(1, 64, 64, Dir::ToDev, 0));
    book.add(grant(2, 72, 72, Dir::FromDev, 0));
    book.add(grant(3, 80, 200, Dir::Both, 1));
    Ok(book)
}

/// Makes the book of `granted`, where each eight bytes have an owner of their own.
fn owned(alloc: Global, ram: u32) -> Result<Book, NoMemory>
    requires { 256 ≤ ram }
    ensures { IfOk result (λ b. length b.owners ≡ ram) }
{
    let mut book = granted(alloc, ram)?;
    let owners = [
        (0, Owner::Pool),
        (8, Owner::Thread(HartNo(1))),
        (0, Owner::Thread(HartNo(0))),
        (16, Owner::Passing(HartNo(0), HartNo(1))),
        (24, Owner::Lending(mapping(1))),
        (32, Owner::Returning(mapping(1))),
        (40, Owner::Synced(mapping(1))),
        (48, Owner::Synced(mapping(2))),
        (56, Owner::Synced(mapping(9))),
        (64, Owner::Device(mapping(1))),
        (72, Owner::Device(mapping(2))),
        (80, Owner::Device(mapping(3))),
    ];
    for (at, owner) in owners {
        if at < 128 {
            book.reserve(1)?;
            book.transfer(Span { at, len: 8 }, owner);
        }
    }
    Ok(book)
}

#[test]
fn harts_by_owner(rt: HostRuntime) -> Result<(), Fail> {
    let book = owned(rt.alloc(), RAM)?;
    // the place, whether hart 0 may read and write it, and whether hart 1 may
    let table = [
        (0, (true, true), (false, false)),
        (8, (false, false), (true, true)),
        (16, (false, false), (false, false)),
        (24, (false, false), (false, false)),
        (32, (false, false), (false, false)),
        (40, (true, true), (false, false)),
        (48, (true, false), (false, false)),
        (56, (false, false), (false, false)),
        (64, (false, false), (false, false)),
        (72, (false, false), (false, false)),
        (88, (false, false), (false, false)),
    ];
    for (at, first, second) in table {
        assert!(rt; at < 128);
        let span = Span { at, len: 8 };
        for (hart, rights) in [(0, first), (1, second)] {
            let who = Actor::Hart(HartNo(hart));
            let read = book.may(who, Access::Read, span).is_ok();
            let write = book.may(who, Access::Write, span).is_ok();
            assert_eq!(rt; (read, write), rights, "hart {hart} at {at}");
        }
    }
    Ok(())
}

#[test]
fn touches_name_the_first_byte_at_fault(rt: HostRuntime) -> Result<(), Fail> {
    let book = owned(rt.alloc(), RAM)?;
    let hart = Actor::Hart(HartNo(0));
    let chan = Actor::Chan(ChanNo(0));
    let other = Actor::Chan(ChanNo(1));
    let table = [
        (hart, Access::Write, 4, 20, Some(Owner::Thread(HartNo(1)))),
        (hart, Access::Read, 40, 16, None),
        (hart, Access::Write, 44, 8, Some(Owner::Synced(mapping(2)))),
        (hart, Access::Read, 48, 16, Some(Owner::Synced(mapping(9)))),
        (hart, Access::Read, 0, 128, Some(Owner::Thread(HartNo(1)))),
        (chan, Access::Read, 64, 8, None),
        (chan, Access::Read, 68, 8, Some(Owner::Device(mapping(2)))),
        (chan, Access::Write, 72, 8, None),
        (chan, Access::Write, 64, 16, Some(Owner::Device(mapping(1)))),
        (other, Access::Read, 200, 8, None),
        (other, Access::Write, 200, 8, None),
        (other, Access::Write, 200, 9, Some(Owner::Pool)),
        (other, Access::Read, 80, 8, Some(Owner::Device(mapping(3)))),
        (other, Access::Read, 64, 8, Some(Owner::Device(mapping(1)))),
        (chan, Access::Read, 200, 8, Some(Owner::Device(mapping(3)))),
    ];
    for (who, access, at, len, holder) in table {
        assert!(rt; at < 256 && 0 < len && len <= 256 - at);
        let span = Span { at, len };
        let kind = match (who, access) {
            (Actor::Chan(_), _) => TouchKind::Channel,
            (Actor::Hart(_), Access::Read) => TouchKind::Load,
            (Actor::Hart(_), Access::Write) => TouchKind::Store,
        };
        let touch = holder.map(|holder| Touch {
            kind,
            who,
            span,
            holder,
        });
        assert_eq!(rt; book.may(who, access, span).err(), touch, "at {at}");
    }
    Ok(())
}

#[test]
fn grants_come_and_go(rt: HostRuntime) -> Result<(), Fail> {
    book_is_transfers();
    same_touches();
    let mut book = owned(rt.alloc(), RAM)?;
    for (c, at, found) in [
        (0, 66, Some((mapping(1), Place(66)))),
        (0, 72, Some((mapping(2), Place(72)))),
        (1, 203, Some((mapping(3), Place(83)))),
        (0, 203, None),
        (1, 66, None),
        (0, 80, None),
        (0, 300, None),
    ] {
        assert_eq!(rt; book.resolve(ChanNo(c), Place(at)), found, "at {at}");
    }
    book.remove(mapping(3));
    assert_eq!(rt; book.resolve(ChanNo(1), Place(203)), None);
    assert_eq!(rt;
        book.resolve(ChanNo(0), Place(72)),
        Some((mapping(2), Place(72)))
    );
    assert_eq!(rt; book.owner(Place(83)), Owner::Device(mapping(3)));
    assert_eq!(rt; book.owner(Place(7)), Owner::Thread(HartNo(0)));
    assert_eq!(rt; book.owner(Place(255)), Owner::Pool);
    Ok(())
}

fn interval(at: u32, len: u32, owner: Owner) -> Interval {
    Interval {
        span: Span { at, len },
        owner,
    }
}

#[test]
fn intervals_are_cut_and_joined(rt: HostRuntime) -> Result<(), Fail> {
    let mut book = Book::new(rt.alloc(), RAM)?;
    let (hart, pool) = (Owner::Thread(HartNo(0)), Owner::Pool);
    assert_eq!(rt; book.intervals(), [interval(0, 256, pool)].as_slice());
    book.reserve(5)?;
    book.transfer(Span { at: 64, len: 64 }, hart);
    book.transfer(Span { at: 80, len: 16 }, pool);
    book.transfer(Span { at: 128, len: 8 }, hart);
    let cut = [
        interval(0, 64, pool),
        interval(64, 16, hart),
        interval(80, 16, pool),
        interval(96, 40, hart),
        interval(136, 120, pool),
    ];
    assert_eq!(rt; book.intervals(), cut.as_slice());
    book.transfer(Span { at: 0, len: 96 }, hart);
    assert_eq!(rt;
        book.intervals(),
        [interval(0, 136, hart), interval(136, 120, pool)].as_slice()
    );
    book.transfer(Span { at: 0, len: 256 }, pool);
    assert_eq!(rt; book.intervals(), [interval(0, 256, pool)].as_slice());
    Ok(())
}
