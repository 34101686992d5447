//! Each law is called.

use nc_flat_claims::claims_go;
use nc_flat_moves::moves_go;
use nc_flat_plans::plans_go;
use nc_flat_scripts::{steps_go, transfers_go};
use nc_flat_starts::{book_rows, starts_go};
use nc_lines::{lines_cover, lines_drain, lines_gain};
use nc_row_channels::rows_of_channels;
use nc_row_issues::rows_issue;
use nc_row_moves::{parts_stay, rows_drain, rows_move};
use nc_row_plans::{plans_lend, plans_return, rows_begin, rows_plan};
use nc_rows::{rows_keep, steps_ahead};

#[test]
fn laws_are_called() {
    lines_drain();
    lines_gain();
    lines_cover();
    rows_keep();
    steps_ahead();
    rows_drain();
    rows_move();
    parts_stay();
    rows_of_channels();
    rows_issue();
    rows_begin();
    rows_plan();
    plans_lend();
    plans_return();
    moves_go();
    steps_go();
    book_rows();
    starts_go();
    plans_go();
    claims_go();
    transfers_go();
}
