//! The laws of the written machine's calls.
//!
//! The crate has no code. Each law is a public function with an empty body. Its contract says what holds of the
//! definitions of nc_rules: each call keeps a machine sound and of its shape (`specs/MachineLaws`), and what each call
//! does at each place of memory, to each queue, and to the channels and boxes (`specs/PlaceLaws`, `specs/CallLaws`).
//! The contract for the layers above: these laws, and the lemmas of `proofs/` that state them one call at a time.
#![tactic(auto)]

mod laws;

pub use laws::{
    calls_keep_shape, channels_by_place, drains_by_place, issues_by_place, loads_show_what_is_seen,
    machine_stays_sound, moves_by_place, queues_keep_order, start_is_empty, views_stay,
};
