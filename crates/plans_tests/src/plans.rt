//! What no clause says: the plans of a few parts, worked by hand.

ghost use Rattle.nc_num.specs.Sizes.{IsBlockSize};
ghost use Rattle.nc_plan.specs.Parts.{IsPart};

use crate::fixtures::{cbo, enabled, full, load, store};
use nc_env::CboOp;
use nc_num::{Dir, Span};
use nc_plan::{
    Effects, HartOp, Part, blocks_are_met, bounces, device_range_is_in_slot, pieces_move, plan_map,
    plan_to_cpu, plan_to_dev, plan_unmap, plans_are_fenced,
};
use std::alloc::Global;

/// Returns whether this is the plan that lends a part, when it is mapped and when it is synced for the device.
#[tactic(auto, using(nc_plan::proofs::PlanLaws::one_part))]
fn lends(alloc: Global, e: &Effects, size: u32, part: &Part, want: &[HartOp]) -> bool
    requires size { IsBlockSize size }
    requires part { IsPart part.now }
{
    let parts = [*part];
    let Ok(map) = plan_map(alloc, e, size, &parts) else {
        return false;
    };
    let Ok(sync) = plan_to_dev(alloc, e, size, &parts) else {
        return false;
    };
    map.as_slice() == want && sync.as_slice() == want
}

/// Returns whether this is the plan that takes a part back, when it is unmapped and when it is synced for the hart.
#[tactic(auto, using(nc_plan::proofs::PlanLaws::one_part))]
fn returns(alloc: Global, e: &Effects, size: u32, part: &Part, want: &[HartOp]) -> bool
    requires size { IsBlockSize size }
    requires part { IsPart part.now }
{
    let parts = [*part];
    let Ok(unmap) = plan_unmap(alloc, e, size, &parts) else {
        return false;
    };
    let Ok(sync) = plan_to_cpu(alloc, e, size, &parts) else {
        return false;
    };
    unmap.as_slice() == want && sync.as_slice() == want
}

#[test]
fn direct_parts(rt: HostRuntime) {
    blocks_are_met();
    pieces_move();
    plans_are_fenced();
    device_range_is_in_slot();
    let a = rt.alloc();
    let e = enabled();
    let block = Span { at: 4096, len: 64 };
    let to_device = Part {
        buffer: block,
        device: block,
        dir: Dir::ToDev,
    };
    assert!(rt; lends(a, &e, 64, &to_device, &[cbo(CboOp::Clean, 64), full()]));
    assert!(rt; returns(a, &e, 64, &to_device, &[full()]));
    let small = [cbo(CboOp::Clean, 128), cbo(CboOp::Clean, 129), full()];
    assert!(rt; lends(a, &e, 32, &to_device, &small));
    assert!(rt; lends(a, &e, 128, &to_device, &[cbo(CboOp::Clean, 32), full()]));
    let three = Span { at: 4096, len: 3 };
    let shared = Part {
        buffer: three,
        device: three,
        dir: Dir::ToDev,
    };
    assert!(rt; lends(a, &e, 64, &shared, &[cbo(CboOp::Clean, 64), full()]));
    let two = Span { at: 4096, len: 128 };
    let both = Part {
        buffer: two,
        device: two,
        dir: Dir::Both,
    };
    let lent = [cbo(CboOp::Flush, 64), cbo(CboOp::Flush, 65), full()];
    assert!(rt; lends(a, &e, 64, &both, &lent));
    let back = [cbo(CboOp::Inval, 64), cbo(CboOp::Inval, 65), full()];
    assert!(rt; returns(a, &e, 64, &both, &back));
    let as_flush = Effects {
        inval: Ok(CboOp::Flush),
        ..e
    };
    assert!(rt; returns(a, &as_flush, 64, &both, &lent));
}

/// Returns whether 100 bytes at 2 mod 8 are copied piece by piece, from the operation `first` of a plan on: 2, 4,
/// eleven times 8, 4 and 2 bytes.
fn copies_100(plan: &[HartOp], first: usize, from: u32, to: u32) -> bool {
    let offsets = [0, 2, 6, 14, 22, 30, 38, 46, 54, 62, 70, 78, 86, 94, 98, 100];
    for i in 0..15 {
        let (at, len) = (offsets[i], offsets[i + 1] - offsets[i]);
        let loaded = load(from.wrapping_add(at), len);
        let stored = store(to.wrapping_add(at), len);
        let place = first.wrapping_add(2 * i);
        match (plan.get(place), plan.get(place.wrapping_add(1))) {
            (Some(l), Some(s)) => {
                if *l != loaded || *s != stored {
                    return false;
                }
            }
            _ => return false,
        }
    }
    true
}

#[test]
#[tactic(auto, using(nc_plan::proofs::PlanLaws::one_part))]
fn a_bounced_part(rt: HostRuntime) {
    let part = Part {
        buffer: Span { at: 4106, len: 100 },
        device: Span {
            at: 32770,
            len: 100,
        },
        dir: Dir::FromDev,
    };
    let Ok(lent) = plan_map(rt.alloc(), &enabled(), 64, &[part]) else {
        assert!(rt; false);
        return;
    };
    assert_eq!(rt; lent.len(), 33);
    assert!(rt; copies_100(&lent, 0, 4106, 32770));
    let fenced = [cbo(CboOp::Flush, 512), cbo(CboOp::Flush, 513), full()];
    assert!(rt; lent.get(30..) == Some(fenced.as_slice()));
    let Ok(back) = plan_unmap(rt.alloc(), &enabled(), 64, &[part]) else {
        assert!(rt; false);
        return;
    };
    assert_eq!(rt; back.len(), 33);
    let dropped = [cbo(CboOp::Inval, 512), cbo(CboOp::Inval, 513), full()];
    assert!(rt; back.get(..3) == Some(dropped.as_slice()));
    assert!(rt; copies_100(&back, 3, 32770, 4106));
}

#[test]
fn which_ranges_bounce(rt: HostRuntime) {
    let table = [
        (4096, 64, Dir::FromDev, 64, 65536, false),
        (4096, 64, Dir::FromDev, 128, 65536, true),
        (4096, 32, Dir::Both, 32, 65536, false),
        (4096, 32, Dir::Both, 64, 65536, true),
        (4106, 100, Dir::FromDev, 64, 65536, true),
        (4106, 100, Dir::ToDev, 64, 65536, false),
        (4096, 64, Dir::ToDev, 64, 4160, false),
        (4096, 64, Dir::ToDev, 64, 4159, true),
        (4096, 64, Dir::Both, 64, 4159, true),
    ];
    for (at, len, dir, size, reach, want) in table {
        assert_eq!(rt;
            bounces_at(at, len, dir, size, reach),
            want,
            "at {at}, {len} bytes"
        );
    }
}

/// Returns whether a range bounces, with blocks of `size` bytes: 32, 64, or else 128.
fn bounces_at(at: u32, len: u32, dir: Dir, size: u32, reach: u32) -> bool {
    let span = Span {
        at: at % 65536,
        len: len % 65536,
    };
    match size {
        32 => bounces(span, dir, 32, reach),
        64 => bounces(span, dir, 64, reach),
        _ => bounces(span, dir, 128, reach),
    }
}
