//! Records that a log handed over.

ghost use Rattle.std.specs.Prelude.{◌≡◌};

use nc_rules::Record;
use std::marker::Model;

/// Records that a log handed over, in order.
#[derive(Drop)]
pub struct RecordList {
    items: Vec<Record>,
}

impl Model for RecordList {
    ghost use Rattle.std.specs.Prelude.{List};
    ghost use Rattle.nc_rules.specs.declared.records.Record.{Record};

    ghost Value = { List Record };

    ghost view = { λ s. s.items.items };
}

impl RecordList {
    /// Makes a list of these records.
    pub(crate) fn new(items: Vec<Record>) -> RecordList
        ensures { result ≡ items.items }
    {
        RecordList { items }
    }

    /// Returns the records, in order.
    pub fn as_slice(&self) -> &[Record]
        ensures { result.now ≡ self.now }
    {
        &self.items
    }
}
