//! Each law of flat memory is called.

use nc_copied::copied_law;
use nc_flat::{events_keep_flat, kept_law, latest_law, runs_keep_flat, uncached_law};
use nc_flatness::{start_is_flat, worlds_start, worlds_stay};

#[test]
fn laws_are_called() {
    worlds_start();
    worlds_stay();
    start_is_flat();
    events_keep_flat();
    runs_keep_flat();
    latest_law();
    kept_law();
    uncached_law();
    copied_law();
}
