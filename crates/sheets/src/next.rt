// From which of two sheets the next set is taken.
ghost use Rattle.std.specs.Prelude.{◌≡◌, ◌<◌, length};
ghost use Rattle.rules.specs.Sheet.{records_bytes};
ghost use Rattle.sheets.specs.SheetReadings.{set_at};
ghost use Rattle.sheets.specs.Taking.{Chosen, taken, next_of};
ghost use Rattle.sheets.specs.Views.{sheet_of, set_of};

use crate::set::WriteSet;
use crate::sheet::Sheet;

// A set of both is passed in both.
#[derive(Clone, Copy)]
pub enum Next {
    First,
    Second,
    Both,
}

// Of set i of one sheet and set j of another, the one that is next: the one with the smaller csn.
pub fn next_set<'a>(a: &Sheet<'a>, i: usize, b: &Sheet<'a>, j: usize, next: Next) -> WriteSet<'a>
    requires { Chosen next (sheet_of a.now) i (sheet_of b.now) j }
    ensures named { set_of result ≡ taken next (set_at (sheet_of a.now) i) (set_at (sheet_of b.now) j) }
    ensures smaller { i < length (sheet_of a.now).sets → j < length (sheet_of b.now).sets → set_of result ≡ next_of (set_at (sheet_of a.now) i) (set_at (sheet_of b.now) j) }
{
    match next {
        Next::First => a.set(i),
        Next::Second | Next::Both => b.set(j),
    }
}

// Its body, as the part of its sheet that it is. A function over two lent sheets hands it back, since the documents name that form.
pub fn next_body<'a>(a: &Sheet<'a>, i: usize, b: &Sheet<'a>, j: usize, next: Next) -> &'a [u8]
    requires { Chosen next (sheet_of a.now) i (sheet_of b.now) j }
    ensures named { result.now ≡ records_bytes (taken next (set_at (sheet_of a.now) i) (set_at (sheet_of b.now) j)).records }
    ensures smaller { i < length (sheet_of a.now).sets → j < length (sheet_of b.now).sets → result.now ≡ records_bytes (next_of (set_at (sheet_of a.now) i) (set_at (sheet_of b.now) j)).records }
{
    next_set(a, i, b, j, next).body()
}
