//! What no clause says: a pool worked by hand, that the calls succeed, the printed lines, and a scenario moved.

use crate::fixtures::{
    EMPTY_SCRIPT, EMPTY_SCRIPT_MOVED, PIECES, PIECES_ANSWER, ended, given, over, taken_back,
};
use nc_dmapool::{AllocNo, DmaPool, PoolBad, pieces_are_apart};
use nc_migrate::migrate;
use nc_num::{Place, Span};
use nc_pieces::{PoolFault, PoolRefused, pool_answer, pool_refused};
use nc_values::{Refused, ScenFault};

#[test]
fn pieces_are_given_and_taken_back(rt: HostRuntime) {
    pieces_are_apart();
    let Some(mut both) = over(rt.alloc(), 1, 24, 16, 64) else {
        assert!(rt; false);
        return;
    };
    assert_eq!(rt; both.pool.pages_taken(), 0);
    // a place never given
    assert!(rt; !taken_back(&mut both, 0xc000));
    for at in [0xc000u32, 0xc020, 0xc040] {
        assert_eq!(rt; given(&mut both), Ok(Span { at, len: 24 }));
    }
    assert!(rt; taken_back(&mut both, 0xc020));
    // inside a piece, given back already, past the page
    for at in [0xc001u32, 0xc020, 0xd000] {
        assert!(rt; !taken_back(&mut both, at));
    }
    assert_eq!(rt;
        given(&mut both),
        Ok(Span {
            at: 0xc020,
            len: 24
        })
    );
    assert_eq!(rt; both.pool.pages_taken(), 1);
    // with a piece in use
    assert_eq!(rt; ended(both), Some(Place(0xc000)));
}

#[test]
fn pages_are_taken_and_given_back(rt: HostRuntime) {
    let Some(mut both) = over(rt.alloc(), 2, 4096, 4096, 0) else {
        assert!(rt; false);
        return;
    };
    assert_eq!(rt;
        both.pages.span(),
        Span {
            at: 0xc000,
            len: 8192
        }
    );
    assert_eq!(rt;
        given(&mut both),
        Ok(Span {
            at: 0xc000,
            len: 4096
        })
    );
    assert_eq!(rt;
        given(&mut both),
        Ok(Span {
            at: 0xd000,
            len: 4096
        })
    );
    assert_eq!(rt; given(&mut both), Err(AllocNo::NoPage));
    assert!(rt; taken_back(&mut both, 0xc000));
    assert_eq!(rt; both.pages.find(1), None);
    assert!(rt; taken_back(&mut both, 0xd000));
    assert_eq!(rt; ended(both), Some(Place(4096)));
}

#[test]
fn layouts_are_refused(rt: HostRuntime) {
    let alloc = rt.alloc();
    let cases = [
        (0u32, 3u32, 1u32, PoolBad::Size),
        (4097, 4, 0, PoolBad::Size),
        (24, 3, 1, PoolBad::Align),
        (24, 8192, 0, PoolBad::Align),
        (24, 16, 48, PoolBad::Boundary),
        (24, 16, 16, PoolBad::Boundary),
        (24, 16, 8192, PoolBad::Boundary),
    ];
    for (size, align, boundary, bad) in cases {
        match DmaPool::new(alloc, size, align, boundary) {
            Ok(_) => assert!(rt; false, "{size} {align} {boundary}"),
            Err(why) => assert_eq!(rt; why, bad, "{size} {align} {boundary}"),
        }
    }
}

#[test]
fn the_command_answers_line_by_line(rt: HostRuntime) {
    let alloc = rt.alloc();
    let Ok(lines) = pool_answer(alloc, PIECES) else {
        assert!(rt; false);
        return;
    };
    assert_eq!(rt; lines.as_slice(), PIECES_ANSWER);
    match pool_answer(alloc, b"[]") {
        Err(PoolFault::Refused(r)) => {
            assert_eq!(rt; r, PoolRefused::Shape);
            assert_eq!(rt; pool_refused(r), b"refused shape\n".as_slice());
        }
        _ => assert!(rt; false),
    }
}

#[test]
fn an_empty_script_moves_to_version_2(rt: HostRuntime) {
    let alloc = rt.alloc();
    let moved = EMPTY_SCRIPT_MOVED.as_bytes();
    let Ok(text) = migrate(alloc, EMPTY_SCRIPT) else {
        assert!(rt; false);
        return;
    };
    assert_eq!(rt; text.as_slice(), moved);
    let Ok(again) = migrate(alloc, &text) else {
        assert!(rt; false);
        return;
    };
    assert_eq!(rt; again.as_slice(), moved);
    match migrate(alloc, b"{") {
        Err(ScenFault::Refused(r)) => assert!(rt; matches!(r, Refused::NotJson)),
        _ => assert!(rt; false),
    }
}
