//! What no clause says: touches worked by hand over one book, and that each call answers.

ghost use Rattle.std.specs.Prelude.{◌≡◌, ◌≤◌, length, IfOk};

use nc_num::{ChanNo, HartNo, MemType, NoMemory, Span};
use nc_own::{Access, Actor, Book, Owner, Touch, TouchKind};
use nc_touch::{Look, hart_touch, register_touch};
use std::alloc::Global;
use std::process::Abort;
use std::test::Fail;

const RAM: u32 = 256;

const NO_POOL: Span = Span { at: 0, len: 0 };

const POOL: Span = Span { at: 128, len: 64 };

const FIRST: Owner = Owner::Thread(HartNo(0));

const SECOND: Owner = Owner::Thread(HartNo(1));

/// Makes a book where the bytes from 0 and from 128 on are hart 0's, and those from 32 on hart 1's.
fn owned(alloc: Global, ram: u32) -> Result<Book, NoMemory>
    requires { 256 ≤ ram }
    ensures { IfOk result (λ b. length b.owners ≡ ram) }
{
    let mut book = Book::new(alloc, ram)?;
    book.reserve(3)?;
    book.transfer(Span { at: 0, len: 32 }, FIRST);
    book.transfer(Span { at: 32, len: 32 }, SECOND);
    book.transfer(Span { at: 128, len: 32 }, FIRST);
    Ok(book)
}

/// A piece that hart 0 touches: the access, the first byte, the number of bytes, the type, and the touch that is found.
type Piece = (Access, u32, u32, MemType, Option<(TouchKind, Owner)>);

/// Compares what is found in a piece, over a pool.
fn compare(rt: &impl Abort, book: &Book, pool: Span, piece: Piece)
    requires { length book.now.owners ≡ 256 }
{
    let (access, at, len, kind, found) = piece;
    assert!(rt; at < 200 && 0 < len && len <= 8);
    let span = Span { at, len };
    let look = Look::Piece { access, span, kind };
    let touch = found.map(|(kind, holder)| Touch {
        kind,
        who: Actor::Hart(HartNo(0)),
        span,
        holder,
    });
    assert_eq!(rt; hart_touch(book, pool, HartNo(0), look), touch, "at {at}");
}

/// Outside the pool a type other than the memory's own is an alias, but bytes of another owner come first.
#[test]
fn pieces_outside_the_pool(rt: HostRuntime) -> Result<(), Fail> {
    let book = owned(rt.alloc(), RAM)?;
    let load = Some((TouchKind::Load, SECOND));
    let store = Some((TouchKind::Store, SECOND));
    let alias = Some((TouchKind::Alias, FIRST));
    for piece in [
        (Access::Read, 0, 8, MemType::Pma, None),
        (Access::Write, 28, 8, MemType::Pma, store),
        (Access::Read, 40, 8, MemType::Pma, load),
        (Access::Read, 24, 8, MemType::Nc, alias),
        (Access::Write, 0, 1, MemType::Io, alias),
        (Access::Read, 28, 8, MemType::Nc, load),
    ] {
        compare(&rt, &book, POOL, piece);
    }
    for piece in [
        (Access::Read, 128, 8, MemType::Pma, None),
        (Access::Read, 128, 8, MemType::Nc, alias),
    ] {
        compare(&rt, &book, NO_POOL, piece);
    }
    Ok(())
}

/// In the pool a type other than that of memory which is not cached is an alias.
#[test]
fn pieces_inside_the_pool(rt: HostRuntime) -> Result<(), Fail> {
    let book = owned(rt.alloc(), RAM)?;
    let load = Some((TouchKind::Load, Owner::Pool));
    let alias = Some((TouchKind::Alias, FIRST));
    for piece in [
        (Access::Write, 128, 8, MemType::Nc, None),
        (Access::Write, 128, 8, MemType::Pma, alias),
        (Access::Read, 128, 8, MemType::Io, alias),
        (Access::Read, 160, 8, MemType::Nc, load),
    ] {
        compare(&rt, &book, POOL, piece);
    }
    Ok(())
}

#[test]
fn blocks_discarded_and_zeroed(rt: HostRuntime) -> Result<(), Fail> {
    let book = owned(rt.alloc(), RAM)?;
    let table = [
        (0, 32, None, FIRST),
        (32, 32, Some(SECOND), SECOND),
        (0, 64, Some(SECOND), SECOND),
        (64, 32, Some(Owner::Pool), Owner::Pool),
        (128, 64, Some(Owner::Pool), Owner::Pool),
    ];
    for (at, len, refuses, holder) in table {
        assert!(rt; at < 192 && 0 < len && len <= 64);
        let block = Span { at, len };
        let who = Actor::Hart(HartNo(0));
        let discard = Touch {
            kind: TouchKind::Discard,
            who,
            span: block,
            holder,
        };
        let zero = refuses.map(|holder| Touch {
            kind: TouchKind::Store,
            who,
            span: block,
            holder,
        });
        assert_eq!(rt;
            hart_touch(&book, POOL, HartNo(0), Look::Discard { block }),
            Some(discard)
        );
        assert_eq!(rt;
            hart_touch(&book, POOL, HartNo(0), Look::Zero { block }),
            zero
        );
    }
    Ok(())
}

#[test]
fn registers_of_another(rt: HostRuntime) {
    let foreign = Touch {
        kind: TouchKind::Register,
        who: Actor::Hart(HartNo(1)),
        span: Span { at: 8472, len: 8 },
        holder: FIRST,
    };
    let touch = register_touch(HartNo(1), ChanNo(2), 0x118, 8, Some(HartNo(0)));
    assert_eq!(rt; touch, Some(foreign));
    assert_eq!(rt;
        register_touch(HartNo(1), ChanNo(2), 0x118, 8, Some(HartNo(1))),
        None
    );
    assert_eq!(rt; register_touch(HartNo(1), ChanNo(2), 0x118, 8, None), None);
}
