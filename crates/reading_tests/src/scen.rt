//! What no clause says: that a scenario is read at all, member by member, and the last of two members of a key.

use crate::fixtures::{GOOD, OVERRIDES};
use nc_num::HartNo;
use nc_scen::{Event, Op, Plan, Scenario, Spot, read};
use std::test::Fail;

#[test]
fn a_scenario_is_read(rt: HostRuntime) -> Result<(), Fail> {
    let alloc = rt.alloc();
    let text = format!(in alloc; "{{{GOOD},{OVERRIDES}}}")?;
    let Ok(sc) = read(alloc, text.as_bytes()) else {
        assert!(rt; false);
        return Ok(());
    };
    assert_eq!(rt; (sc.version, sc.block_size, sc.zero_size), (2, 32, 128));
    assert_eq!(rt; (sc.ram, sc.slots, sc.pages, sc.limit), (8192, 0, 0, 9));
    assert!(rt; sc.light && !sc.finish);
    assert_eq!(rt; sc.reach, [8192; 4]);
    assert!(rt; is_listed(&sc.plan));
    assert!(rt; has_load(&sc));
    Ok(())
}

fn is_listed(plan: &Plan) -> bool {
    match plan {
        Plan::List(events) => events.as_slice() == [Event::Told(HartNo(0), true)].as_slice(),
        Plan::Seeded { .. } => false,
    }
}

/// Returns whether the first hart's script is the load of four bytes.
fn has_load(sc: &Scenario) -> bool {
    let Some(hart) = sc.harts.as_slice().first() else {
        return false;
    };
    match hart.script.as_slice() {
        [
            Op::Ld {
                spot,
                off: 3,
                len: 4,
            },
        ] => *spot == Spot::Buffer(0) && hart.menvcfg == 7,
        _ => false,
    }
}
