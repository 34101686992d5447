//! Drawn events, by the published generator.

use crate::fixtures::{DRAWN, started};
use nc_num::{Block, ChanNo, HartNo};
use nc_scen::Event;
use nc_sched::{Sched, replay_law};
use nc_world::Stepped;
use std::test::Fail;

/// The expected events come from PCG XSH RR 64/32 as it is published (O'Neill, pcg-random.org), seeded with 17 on
/// stream 54: two words an event, skipped events among them.
#[test]
fn a_seed_draws_the_events_of_its_stream(rt: HostRuntime) -> Result<(), Fail> {
    replay_law();
    let Some((sc, mut w)) = started(rt.alloc(), DRAWN) else {
        assert!(rt; false);
        return Ok(());
    };
    let events = [
        (Event::ChanWrite(ChanNo(0)), Stepped::Skipped),
        (Event::Issue(HartNo(0)), Stepped::Done),
        (Event::ChanWrite(ChanNo(2)), Stepped::Skipped),
        (Event::Evict(HartNo(1), Block(11)), Stepped::Skipped),
        (Event::Fill(HartNo(0), Block(48)), Stepped::Done),
        (Event::Fill(HartNo(2), Block(20)), Stepped::Done),
        (Event::Drain(HartNo(2), 4), Stepped::Skipped),
        (Event::Issue(HartNo(0)), Stepped::Skipped),
        (Event::ChanRead(ChanNo(0)), Stepped::Skipped),
        (Event::Drain(HartNo(2), 0), Stepped::Skipped),
    ];
    let mut sched = Sched::new(&sc);
    let mut last = None;
    for (event, answer) in events {
        let Some(e) = sched.next(&sc, &w, last) else {
            assert!(rt; false);
            return Ok(());
        };
        assert_eq!(rt; e, event);
        let stepped = w.step(e)?;
        assert_eq!(rt; stepped, answer);
        last = Some(stepped);
    }
    assert_eq!(rt; sched.next(&sc, &w, last), None);
    Ok(())
}
