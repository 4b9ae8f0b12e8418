// Whether two different sets of two sheets share a csn. Equal sets do not clash.
ghost use Rattle.std.specs.Prelude.{◌≡◌, ◌++◌};
ghost use Rattle.rules.specs.Gathering.{clash, some_two};
ghost use Rattle.sheets.specs.Views.{sheet_of, set_of};

use crate::walk::Walk;
use forms::{Sheet, WriteSet};

// Two different sets of one csn.
fn clash(v: &WriteSet, w: &WriteSet) -> bool
    ensures { result ≡ clash (set_of v.now) (set_of w.now) }
{
    v.csn() == w.csn() && (v.sen() != w.sen() || v.body() != w.body())
}

pub fn clashes<'a>(a: &Sheet<'a>, b: &Sheet<'a>) -> bool
    ensures { result ≡ some_two clash ((sheet_of a.now).sets ++ (sheet_of b.now).sets) }
{
    // Not a `for` over the walk: it hands back one set a turn, and here the first of both sheets are compared.
    let mut walk = Walk::new(a, b);
    while walk.at.i < walk.a.set_count() && walk.at.j < walk.b.set_count() {
        if clash(&walk.a.set(walk.at.i), &walk.b.set(walk.at.j)) {
            return true;
        }
        let next = walk.next_from();
        walk.pass(next);
    }
    false
}
