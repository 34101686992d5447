//! What no clause says: that memory for words can be had, and two harts at one slot, by hand.

use nc_num::{HartNo, NoMemory};
use nc_slots::{Slots, TryAnswer};

#[test]
fn two_harts_at_one_slot(rt: HostRuntime) -> Result<(), NoMemory> {
    let mut slots = Slots::new(rt.alloc(), 2)?;
    assert_eq!(rt; slots.holder(1), None);
    assert_eq!(rt; slots.try_word(HartNo(2), 1), TryAnswer::Got);
    assert_eq!(rt; slots.try_word(HartNo(0), 1), TryAnswer::Held(HartNo(2)));
    assert_eq!(rt; slots.try_word(HartNo(2), 1), TryAnswer::Held(HartNo(2)));
    assert_eq!(rt; slots.holder(1), Some(HartNo(2)));
    assert_eq!(rt; slots.holder(0), None);
    assert_eq!(rt; slots.holder(2), None);
    slots.back(HartNo(2), 1);
    assert_eq!(rt; slots.try_word(HartNo(0), 1), TryAnswer::Got);
    assert_eq!(rt; slots.holder(1), Some(HartNo(0)));
    Ok(())
}
