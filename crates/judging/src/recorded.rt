// How a set records a key, if it does, and the mark that it gives.
ghost use Rattle.std.specs.Prelude.{◌≡◌};
ghost use Rattle.rules.specs.Closing.{mark_in};
ghost use Rattle.rules.specs.Becoming.{applied_to};
ghost use Rattle.sheets.specs.Views.{sheet_of, set_of};

use forms::{Sheet, WriteSet};
use rules::{Mark, Record};

// The record that the set has for the key.
pub fn record_of(set: &WriteSet, key: u32) -> Option<Record>
    ensures { result ≡ applied_to (set_of set.now).records key }
{
    for j in 0..set.record_count() {
        let record = set.record(j);
        if record.key == key {
            return Some(record);
        }
    }
    None
}

// The mark that a set of the sheet gives.
pub fn mark_of(sheet: &Sheet, set: &WriteSet) -> Mark
    ensures { result ≡ mark_in (sheet_of sheet.now) (set_of set.now) }
{
    Mark::new(sheet.epoch(), set.sen(), set.csn())
}
