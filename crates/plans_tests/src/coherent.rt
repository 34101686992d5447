//! What no clause says: runs of pages and the plans of an area, worked by hand.

use crate::fixtures::{cbo, enabled, full};
use nc_coherent::{PagePool, lowest_run_is_lowest, plan_alloc, plan_fence};
use nc_env::CboOp;
use nc_num::Span;

#[test]
#[tactic(auto, unfolding(nc_coherent::specs::Pages::marked))]
fn pages_are_taken_and_given(rt: HostRuntime) {
    lowest_run_is_lowest();
    let Ok(mut pool) = PagePool::new(rt.alloc(), 49152, 4) else {
        assert!(rt; false);
        return;
    };
    let all = Span {
        at: 49152,
        len: 16384,
    };
    let second = Span {
        at: 53248,
        len: 4096,
    };
    let last_two = Span {
        at: 57344,
        len: 8192,
    };
    // an exact fit, and one page too many
    assert_eq!(rt; pool.find(4), Some(all));
    assert_eq!(rt; pool.find(5), None);
    // fragmented: page 1 is taken, so two pages start at page 2
    pool.take(second);
    assert_eq!(rt;
        pool.find(1),
        Some(Span {
            at: 49152,
            len: 4096
        })
    );
    assert_eq!(rt; pool.find(2), Some(last_two));
    assert_eq!(rt; pool.find(3), None);
    pool.give(second);
    // full
    pool.take(all);
    assert_eq!(rt; pool.find(1), None);
    pool.give(all);
    assert_eq!(rt; pool.find(4), Some(all));
}

#[test]
fn an_area_is_zeroed_and_flushed(rt: HostRuntime) {
    let area = Span {
        at: 49152,
        len: 256,
    };
    let Ok(plan) = plan_alloc(rt.alloc(), &enabled(), 128, area) else {
        assert!(rt; false);
        return;
    };
    let want = [
        cbo(CboOp::Zero, 384),
        cbo(CboOp::Zero, 385),
        cbo(CboOp::Flush, 384),
        cbo(CboOp::Flush, 385),
        full(),
    ];
    assert!(rt; plan.as_slice() == want.as_slice());
    let Ok(fence) = plan_fence(rt.alloc()) else {
        assert!(rt; false);
        return;
    };
    assert!(rt; fence.as_slice() == [full()].as_slice());
}
