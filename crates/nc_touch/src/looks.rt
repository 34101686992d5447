//! The touches of a hart.

ghost use Rattle.std.specs.Prelude.{◌≡◌, ◌+◌, ◌^◌, ◌<◌, length, IfSome};
ghost use Rattle.std.specs.Option.{option_map};
ghost use Rattle.nc_num.specs.Places.{covers as span_covers};
ghost use Rattle.nc_model.specs.Rights.{is_thread};
ghost use Rattle.nc_model.specs.Touches.{first_fault, is_its_type, alias_touch, discard_touch, register_touch};
ghost use Rattle.nc_own.specs.Books.{owner_in};
ghost use Rattle.nc_touch.specs.Looks.{span_of, IsSpanIn, look_touch};

use nc_num::{ChanNo, HartNo, MemType, Place, Span};
use nc_own::{Access, Actor, Book, Owner, Touch, TouchKind};

/// An access that a script is about to make.
#[derive(Clone, Copy, Debug, PartialEq, Eq)]
pub enum Look {
    /// A piece of a load or a store, by a memory type.
    Piece {
        /// A read for a load, a write for a store.
        access: Access,
        /// The piece.
        span: Span,
        /// The memory type (RISC-V Svpbmt).
        kind: MemType,
    },
    /// A `cbo.inval` that takes effect as an invalidate (RISC-V CMO 1.0).
    Discard {
        /// The block.
        block: Span,
    },
    /// A `cbo.zero` (RISC-V CMO 1.0).
    Zero {
        /// The block.
        block: Span,
    },
}

/// Returns the touch that an access of the script of hart `h` is, or None where it is none (this project's own).
///
/// `pool` is the range of the coherent pool, which may be empty. A piece over a byte that the hart may not use is a
/// `Load` or a `Store`. Any other piece is an `Alias` where it accesses a byte of the coherent pool by another type
/// than NC, or any other byte by another type than PMA. A zero over a byte that the hart may not write is a `Store` of
/// the block. A discard is always a touch.
pub fn hart_touch(book: &Book, pool: Span, h: HartNo, look: Look) -> Option<Touch>
    requires { IsSpanIn (length book.now.owners) (span_of look) }
    ensures { result ≡ look_touch (owner_in book.now.owners) book.now.grants pool h look }
{
    match look {
        Look::Piece { access, span, kind } => match book.may(Actor::Hart(h), access, span) {
            Err(touch) => Some(touch),
            Ok(()) => touch_by_type(book, pool, h, span, kind),
        },
        Look::Discard { block } => Some(touch_by_discard(book, h, block)),
        Look::Zero { block } => book.may(Actor::Hart(h), Access::Write, block).err(),
    }
}

/// Returns the touch that a register access of hart `h` is: one to a channel that is granted to another hart. The
/// result is None where `grantee` is None or `h` (this project's own). `off` and `width` are the register's offset and
/// width in bytes.
pub fn register_touch(
    h: HartNo,
    chan: ChanNo,
    off: u16,
    width: u8,
    grantee: Option<HartNo>,
) -> Option<Touch>
    ensures { result ≡ register_touch h chan off width grantee }
{
    match grantee {
        None => None,
        Some(g) if g == h => None,
        Some(g) => Some(Touch {
            kind: TouchKind::Register,
            who: Actor::Hart(h),
            span: Span {
                at: u32::from(chan.0) * 4096 + u32::from(off),
                len: u32::from(width),
            },
            holder: Owner::Thread(g),
        }),
    }
}

/// Returns the touch of a piece that is accessed by the wrong memory type.
fn touch_by_type(book: &Book, pool: Span, h: HartNo, span: Span, kind: MemType) -> Option<Touch>
    requires { IsSpanIn (length book.now.owners) span }
    ensures { result ≡ alias_touch (owner_in book.now.owners) pool h span kind }
{
    let at = first_alias(pool, span, kind)?;
    Some(Touch {
        kind: TouchKind::Alias,
        who: Actor::Hart(h),
        span,
        holder: book.owner(at),
    })
}

/// Returns the first byte of a span that is accessed by the wrong type.
fn first_alias(pool: Span, span: Span, kind: MemType) -> Option<Place>
    requires { span.at + span.len < 2 ^ 32 }
    ensures first { option_map (λ p. p.0) result ≡ first_fault (is_its_type pool kind) span }
    ensures inside { IfSome result (λ p. p.0 < span.at + span.len) }
{
    for x in span.at..span.at + span.len {
        if !is_its_type(pool, kind, x) {
            return Some(Place(x));
        }
    }
    None
}

/// Returns whether a byte is accessed by its type: NC in the coherent pool, PMA elsewhere.
fn is_its_type(pool: Span, kind: MemType, at: u32) -> bool
    ensures { result ≡ is_its_type pool kind at }
{
    if covers(pool, at) {
        kind == MemType::Nc
    } else {
        kind == MemType::Pma
    }
}

/// Returns whether the place lies in the span.
fn covers(span: Span, at: u32) -> bool
    ensures { result ≡ span_covers span at }
{
    span.at <= at && at - span.at < span.len
}

/// Returns the touch of an invalidate.
fn touch_by_discard(book: &Book, h: HartNo, block: Span) -> Touch
    requires { IsSpanIn (length book.now.owners) block }
    ensures { result ≡ discard_touch (owner_in book.now.owners) h block }
{
    let holder = match first_foreign(book, h, block) {
        None => Owner::Thread(h),
        Some(at) => book.owner(at),
    };
    Touch {
        kind: TouchKind::Discard,
        who: Actor::Hart(h),
        span: block,
        holder,
    }
}

/// Returns the first byte of a block that is not the hart's own.
fn first_foreign(book: &Book, h: HartNo, block: Span) -> Option<Place>
    requires { IsSpanIn (length book.now.owners) block }
    ensures first { option_map (λ p. p.0) result ≡ first_fault (λ x. is_thread h (owner_in book.now.owners x)) block }
    ensures inside { IfSome result (λ p. p.0 < block.at + block.len) }
{
    for x in block.at..block.at + block.len {
        if !is_own(h, book.owner(Place(x))) {
            return Some(Place(x));
        }
    }
    None
}

/// Returns whether the owner is the hart itself.
fn is_own(h: HartNo, owner: Owner) -> bool
    ensures { result ≡ is_thread h owner }
{
    match owner {
        Owner::Thread(g) => g == h,
        _ => false,
    }
}
