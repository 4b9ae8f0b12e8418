// The sheet that two sheets are joined to if nothing spoils it, written straight into the lent bytes: head, contents, bodies.
ghost use Rattle.std.specs.Prelude.{◌≡◌, map, ◌≤◌, length};
ghost use Rattle.words.specs.Words.{stored};
ghost use Rattle.rules.specs.Sheet.{masters, contents_from, bodies};
ghost use Rattle.laws.specs.Joining.{notice_together, together, join_held};
ghost use Rattle.sheets.specs.SheetReadings.{notices_place, head_length, contents_place, bodies_place, total};
ghost use Rattle.sheets.specs.Views.{sheet_of};
ghost use Rattle.joining.specs.Writes.{Room, Written};

use forms::{
    MASTERS, Sheet, length_with, next_body, offered_count, put_body, put_entry, put_notice,
    put_sheet_start,
};
use walk::{Walk, notice_together};

fn put_notices(a: &Sheet, b: &Sheet, out: &mut [u8])
    requires { head_length ≤ length out.old }
    ensures { out.new ≡ stored out.old notices_place (map (notice_together (sheet_of a.now) (sheet_of b.now)) masters) }
{
    for m in 0..MASTERS {
        put_notice(out, m, notice_together(a, b, m));
    }
}

// An entry a set; how many records they have together is handed back.
fn put_contents<'a>(a: &Sheet<'a>, b: &Sheet<'a>, out: &mut [u8]) -> usize
    requires { Room (sheet_of a.now) (sheet_of b.now) out.old }
    ensures records { result ≡ total (together (sheet_of a.now) (sheet_of b.now)) }
    ensures contents { out.new ≡ stored out.old contents_place (contents_from 0 (together (sheet_of a.now) (sheet_of b.now))) }
{
    let mut first = 0;
    for (k, set) in Walk::new(a, b).enumerate() {
        let count = set.record_count();
        put_entry(out, k, set.csn(), set.sen(), first, count);
        first += count;
    }
    first
}

// The bodies of the n sets. Each is handed back by a function over the two sheets, a form that the documents name, so no iterator serves.
fn put_bodies<'a>(a: &Sheet<'a>, b: &Sheet<'a>, n: usize, out: &mut [u8])
    requires count { n ≡ length (together (sheet_of a.now) (sheet_of b.now)) }
    requires room { Room (sheet_of a.now) (sheet_of b.now) out.old }
    ensures { out.new ≡ stored out.old (bodies_place n) (bodies (together (sheet_of a.now) (sheet_of b.now))) }
{
    let mut walk = Walk::new(a, b);
    let mut first = 0;
    for k in 0..n {
        let next = walk.next_from();
        let body = next_body(&walk.a, walk.at.i, &walk.b, walk.at.j, next);
        put_body(out, n, first, body);
        first += offered_count(body);
        walk.pass(next);
    }
}

// Of n sets; the length written is handed back.
pub fn put_held<'a>(a: &Sheet<'a>, b: &Sheet<'a>, n: usize, out: &mut [u8]) -> usize
    requires count { n ≡ length (together (sheet_of a.now) (sheet_of b.now)) }
    requires room { Room (sheet_of a.now) (sheet_of b.now) out.old }
    ensures { Written (join_held (sheet_of a.now) (sheet_of b.now)) out.old result out.new }
{
    put_sheet_start(out, a.epoch(), a.roster(), false, n);
    put_notices(a, b, out);
    let records = put_contents(a, b, out);
    put_bodies(a, b, n, out);
    length_with(n, records)
}
