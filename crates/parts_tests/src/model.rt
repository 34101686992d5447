//! What no clause says: that the calls answer.

use nc_model::{
    NamedBytes, append_is_in_order, first_fault_is_first, grants_stay_apart, later_is_after,
    latest_in_two, newest_transfer_wins, no_touch_is_allowed, one_grant_serves, one_may,
    other_bytes_stay, piece_is_spliced, reads_by_number, touch_ends, unresolved_exactly_outside,
};
use nc_num::Place;
use std::test::Fail;

#[test]
fn bytes_keep_their_names(rt: HostRuntime) -> Result<(), Fail> {
    let pairs = [(Place(4096), 7), (Place(9), 8)];
    let bytes = NamedBytes::new(Vec::from_slice(rt.alloc(), &pairs)?);
    assert!(rt; bytes.as_slice() == pairs.as_slice());
    Ok(())
}

#[test]
fn laws_are_called() {
    newest_transfer_wins();
    later_is_after();
    no_touch_is_allowed();
    grants_stay_apart();
    one_grant_serves();
    latest_in_two();
    one_may();
    first_fault_is_first();
    unresolved_exactly_outside();
    append_is_in_order();
    other_bytes_stay();
    piece_is_spliced();
    reads_by_number();
    touch_ends();
}
