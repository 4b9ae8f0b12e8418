// The notices of two sheets together: what each master noticed, and whether one has two different notices or more sets than it noticed.
ghost use Rattle.std.specs.Prelude.{◌≡◌, ◌<◌};
ghost use Rattle.rules.specs.Lists.{any};
ghost use Rattle.rules.specs.Sheet.{sets_of, masters};
ghost use Rattle.laws.specs.Joining.{notice_together, notices_differ, together, over_at};
ghost use Rattle.sheets.specs.SheetReadings.{master_count};
ghost use Rattle.sheets.specs.Views.{sheet_of};
ghost use Rattle.walk.specs.Walk.{notice_spoils, Tallied};

use forms::{MASTERS, Sheet};
use rules::NO_NOTICE;

// The smaller one: no notice is the largest byte.
#[tactic(auto, unfolding(laws::specs::Joining::notice_together, sheets::specs::SheetReadings::notice_at))]
pub fn notice_together(a: &Sheet, b: &Sheet, m: usize) -> u8
    requires { m < master_count }
    ensures { result ≡ notice_together (sheet_of a.now) (sheet_of b.now) m }
{
    a.notice(m).min(b.notice(m))
}

fn differ_at(a: &Sheet, b: &Sheet, m: usize) -> bool
    requires { m < master_count }
    ensures { result ≡ notices_differ (sheet_of a.now) (sheet_of b.now) m }
{
    let x = a.notice(m);
    let y = b.notice(m);
    x != NO_NOTICE && y != NO_NOTICE && x != y
}

// Whether master m, which has so many sets, noticed fewer.
fn over_at(a: &Sheet, b: &Sheet, m: usize, sets: u8) -> bool
    requires few { m < master_count }
    requires counted { sets ≡ sets_of m (together (sheet_of a.now) (sheet_of b.now)) }
    ensures { result ≡ over_at (sheet_of a.now) (sheet_of b.now) m }
{
    let x = notice_together(a, b, m);
    x != NO_NOTICE && x < sets
}

// One walk over the masters, whose sets are counted, for both reasons.
pub fn notices_spoil(a: &Sheet, b: &Sheet, by: &[u8; MASTERS]) -> bool
    requires { Tallied (sheet_of a.now) (sheet_of b.now) by.now }
    ensures { result ≡ any (notice_spoils (sheet_of a.now) (sheet_of b.now)) masters }
{
    (0..MASTERS).any(|m| differ_at(a, b, m) || over_at(a, b, m, by[m]))
}
