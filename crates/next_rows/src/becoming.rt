// What closing makes of a row: the value and the mark that it takes by the committed set that names it, or that it is gone; and the row
// that an insert makes. Only a set that commits leaves a mark.
ghost use Rattle.std.specs.Prelude.{◌≡◌};
ghost use Rattle.rules.specs.Becoming.{row_after};
ghost use Rattle.sheets.specs.Views.{sheet_of};
ghost use Rattle.judging.specs.Views.{sets_of};
ghost use Rattle.next_rows.specs.NextRow.{written, rows_of};

use judging::{Committed, Write};
use rules::{Kind, Row};

// A row of the old register: changed and marked, none if it is deleted, or as it stood where no committed set names it.
pub fn becomes(committed: &Committed, old: Row) -> Option<Row>
    ensures { rows_of result ≡ row_after (sheet_of committed.now.sheet) (sets_of committed.now) old }
{
    let Some(Write { record, mark }) = committed.applied(old.key) else {
        return Some(old);
    };
    if record.is(Kind::Delete) {
        return None;
    }
    let value = record.value;
    let row = Row { value, mark, ..old };
    Some(row)
}

// The row of an insert is drawn up as one that no epoch has touched; the set that commits it then marks it.
pub fn inserted(insert: Write) -> Row
    ensures { result ≡ written insert.record insert.mark }
{
    let Write { record, mark } = insert;
    let drawn = Row::untouched(record.key, record.value);
    Row { mark, ..drawn }
}
