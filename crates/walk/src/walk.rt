// Two sheets walked together in csn order: a set of both is passed in both. From which sheet the next set is taken is decided here, once a turn.
ghost use Rattle.std.specs.Prelude.{◌≡◌, ◌∷◌, ◌≤◌, ◌<◌, length, ltb};
ghost use Rattle.std.specs.Iterator.{YieldsFirstBy, item_count};
ghost use Rattle.rules.specs.Sheet.{sheet_in};
ghost use Rattle.laws.specs.Joining.{together};
ghost use Rattle.sheets.specs.SheetReadings.{set_at};
ghost use Rattle.sheets.specs.Taking.{taken};
ghost use Rattle.sheets.specs.Views.{sheet_of, set_of};

use crate::place::{Place, advance};
use forms::{Next, Sheet, WriteSet, next_set};

// Two sheets, and a place in them.
#[derive(Drop)]
pub struct Walk<'a> {
    pub a: Sheet<'a>,
    pub b: Sheet<'a>,
    pub at: Place,
    ghost first: { at.i ≤ length (sheet_in a.bytes.now).sets },
    ghost second: { at.j ≤ length (sheet_in b.bytes.now).sets },
}

impl<'a> Walk<'a> {
    ghost use Rattle.walk.specs.Walk.{start, passed, Decided};
    ghost use Rattle.walk.specs.Views.{walk_place, left_of, StandsAt};

    // Before all sets of both.
    pub fn new(a: &Sheet<'a>, b: &Sheet<'a>) -> Walk<'a>
        ensures start { StandsAt a.now b.now start result }
        ensures all { left_of result ≡ together (sheet_of a.now) (sheet_of b.now) }
    {
        Walk {
            a: *a,
            b: *b,
            at: Place { i: 0, j: 0 },
        }
    }

    // A set is left in one of the sheets.
    fn has_more(&self) -> bool
        ensures { result ≡ ltb 0 (length (left_of self.now)) }
    {
        self.at.i < self.a.set_count() || self.at.j < self.b.set_count()
    }

    // The sheet with the smaller csn, or the one that has a set left.
    pub fn next_from(&self) -> Next
        requires { 0 < length (left_of self.now) }
        ensures { Decided (sheet_of self.now.a) (sheet_of self.now.b) (walk_place self.now) result }
    {
        if self.at.j == self.b.set_count() {
            return Next::First;
        }
        if self.at.i == self.a.set_count() {
            return Next::Second;
        }
        // By `x.cmp(&y)` putting a set in takes 7 instructions in a hundred more.
        let x = self.a.set(self.at.i).csn();
        let y = self.b.set(self.at.j).csn();
        if x < y {
            Next::First
        } else if y < x {
            Next::Second
        } else {
            Next::Both
        }
    }

    // Passes the next set, in each sheet that has it.
    pub fn pass(&mut self, next: Next)
        requires { Decided (sheet_of self.old.a) (sheet_of self.old.b) (walk_place self.old) next }
        ensures stands { StandsAt self.old.a self.old.b (passed (walk_place self.old) next) self.new }
        ensures leaves { left_of self.old ≡ taken next (set_at (sheet_of self.old.a) self.old.at.i) (set_at (sheet_of self.old.b) self.old.at.j) ∷ left_of self.new }
    {
        self.at = advance(self.at, next);
    }
}

impl<'a> Iterator for Walk<'a> {
    ghost use Rattle.walk.specs.Views.{left_of};

    type Item = WriteSet<'a>;

    ghost next_gives = { YieldsFirstBy set_of left_of };

    ghost remaining = { item_count left_of };

    // Hands back the next set, and passes it.
    fn next(&mut self) -> Option<WriteSet<'a>> {
        if !self.has_more() {
            return None;
        }
        let next = self.next_from();
        let set = next_set(&self.a, self.at.i, &self.b, self.at.j, next);
        self.pass(next);
        Some(set)
    }
}
