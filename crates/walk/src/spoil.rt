// What spoils the sheet that two sheets are joined to: that one of them is spoiled, or one of the four reasons.
ghost use Rattle.sheets.specs.Views.{sheet_of};
ghost use Rattle.walk.specs.Walk.{JoinsTo};

use crate::clash::clashes;
use crate::notices::notices_spoil;
use crate::tally::tally;
use forms::{MASTERS, Sheet};
use rules::MAX_SETS;

// Of how many sets the sheet is that two sheets are joined to, or none if it is spoiled.
pub fn joined_to<'a>(a: &Sheet<'a>, b: &Sheet<'a>) -> Option<usize>
    ensures { JoinsTo (sheet_of a.now) (sheet_of b.now) result }
{
    if a.is_spoiled() || b.is_spoiled() || clashes(a, b) {
        return None;
    }
    let mut by = [0; MASTERS];
    let n = tally(a, b, &mut by);
    if MAX_SETS < n || notices_spoil(a, b, &by) {
        return None;
    }
    Some(n)
}
