// How many distinct sets two sheets hold together, of all masters and of each: counted in one walk.
ghost use Rattle.std.specs.Prelude.{◌≡◌, length, replicate};
ghost use Rattle.laws.specs.Joining.{together};
ghost use Rattle.sheets.specs.SheetReadings.{master_count};
ghost use Rattle.sheets.specs.Views.{sheet_of};
ghost use Rattle.walk.specs.Walk.{Tallied};

use crate::walk::Walk;
use forms::{MASTERS, Sheet, count_set};

// The sets of each master are counted in `by`, and all are handed back.
pub fn tally<'a>(a: &Sheet<'a>, b: &Sheet<'a>, by: &mut [u8; MASTERS]) -> usize
    requires { by.old ≡ replicate master_count 0 }
    ensures all { result ≡ length (together (sheet_of a.now) (sheet_of b.now)) }
    ensures each { Tallied (sheet_of a.now) (sheet_of b.now) by.new }
{
    let mut n = 0;
    for set in Walk::new(a, b) {
        count_set(by, set.csn());
        n += 1;
    }
    n
}
