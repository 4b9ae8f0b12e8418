// Which sets are fit: a table of the first key found wrong in each set.
ghost use Rattle.std.specs.Prelude.{◌≡◌};
ghost use Rattle.registers.specs.Views.{register_of};
ghost use Rattle.sheets.specs.Views.{sheet_of, set_of};
ghost use Rattle.judging.specs.Tables.{keys_of, wrong_key, Tells, HasKeyOf, GivesKeys};

use crate::table::Table;
use forms::{Register, Sheet, WriteSet};
use rules::Kind;

// The key of the first record of the set that the register does not bear. Keys ascend in both, so the rows that are passed for one
// record are passed for all: their index goes on from record to record, and is no `for`'s.
fn wrong_key(register: &Register, set: &WriteSet) -> Option<u32>
    ensures { result ≡ wrong_key (register_of register.now) (set_of set.now) }
{
    let rows = register.row_count();
    let mut wrong = None;
    let mut at: usize = 0;
    'records: for j in 0..set.record_count() {
        let record = set.record(j);
        'rows: while at < rows {
            let row = register.row_key(at);
            if record.key < row {
                break 'rows;
            }
            if record.key == row {
                if record.is(Kind::Insert) {
                    wrong = Some(record.key);
                    break 'records;
                }
                continue 'records;
            }
            at += 1;
        }
        if !record.is(Kind::Insert) {
            wrong = Some(record.key);
            break 'records;
        }
    }
    wrong
}

// Puts into a table the keys that a function gives for each set.
#[tactic(auto, using(sheets::specs::SheetSizes::few_sets))]
pub fn fill<F: Fn(&WriteSet) -> Option<u32>>(table: &mut Table, sheet: &Sheet, key_of: F)
    requires called { F.IsAlwaysCallable key_of }
    requires keys { GivesKeys F.Fn key_of }
    ensures { HasKeyOf F.Fn key_of (sheet_of sheet.now) (keys_of table.new) }
{
    for i in 0..sheet.set_count() {
        table.put(i, key_of(&sheet.set(i)));
    }
}

// The table of wrong keys.
pub fn find_wrong(register: &Register, sheet: &Sheet, wrong: &mut Table)
    ensures { Tells (wrong_key (register_of register.now)) (sheet_of sheet.now) (keys_of wrong.new) }
{
    fill(wrong, sheet, |set| wrong_key(register, set))
}
