//! Each law of the written machine, of its scripts and of its runs is called.

use nc_calls::{
    calls_keep_shape, channels_by_place, drains_by_place, issues_by_place, loads_show_what_is_seen,
    machine_stays_sound, moves_by_place, queues_keep_order, start_is_empty, views_stay,
};
use nc_counts::{counts_law, owners_law, status_law};
use nc_holds::{events_keep_holding, moves_may_be_made, tokens_are_lent, worlds_begin};
use nc_refusals::{
    answers_leave_no_ends, copies_give_back, earlier_events_leave_all, fences_empty_queues,
    refusals_leave_all, starts_are_of_plans, words_are_given_back,
};
use nc_replay::{lines_law, replay_text_law};
use nc_sched::replay_law;
use nc_scripts::{every_driver_begins, every_driver_stays, last_loads_follow, new_lots_are_free};
use nc_slot_laws::{noslot_law, slots_law};
use nc_transfers::{
    copies_go_on, copies_read, copies_set_up, copies_stay_within, copies_tell, copies_write,
};

#[test]
fn laws_are_called() {
    machine_stays_sound();
    calls_keep_shape();
    start_is_empty();
    loads_show_what_is_seen();
    issues_by_place();
    drains_by_place();
    moves_by_place();
    channels_by_place();
    views_stay();
    queues_keep_order();
    every_driver_begins();
    every_driver_stays();
    last_loads_follow();
    new_lots_are_free();
    worlds_begin();
    events_keep_holding();
    moves_may_be_made();
    tokens_are_lent();
    counts_law();
    owners_law();
    status_law();
    replay_law();
    lines_law();
    replay_text_law();
    refusals_leave_all();
    earlier_events_leave_all();
    words_are_given_back();
    fences_empty_queues();
    answers_leave_no_ends();
    copies_give_back();
    starts_are_of_plans();
    slots_law();
    noslot_law();
    copies_set_up();
    copies_read();
    copies_write();
    copies_tell();
    copies_go_on();
    copies_stay_within();
}
