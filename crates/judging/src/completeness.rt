// Whether a sheet is complete: every master of the roster has a notice, and as many sets as it says.
ghost use Rattle.std.specs.Prelude.{◌≡◌, ◌<◌};
ghost use Rattle.rules.specs.Sheet.{sets_of};
ghost use Rattle.rules.specs.Closing.{complete};
ghost use Rattle.sheets.specs.SheetReadings.{master_count};
ghost use Rattle.sheets.specs.Views.{sheet_of};
ghost use Rattle.judging.specs.Judged.{nothing_owed};

use forms::{MASTERS, Sheet};
use rules::NO_NOTICE;

// How many of the sheet's sets are master m's.
fn sets_by(sheet: &Sheet, m: usize) -> usize
    ensures { result ≡ sets_of m (sheet_of sheet.now).sets }
{
    (0..sheet.set_count())
        .filter(|&i| (sheet.set(i).csn() % 16) as usize == m)
        .count()
}

// Whether master m is outside the roster, or has sent all its sets.
fn owes_nothing(sheet: &Sheet, m: usize) -> bool
    requires { m < master_count }
    ensures { result ≡ nothing_owed (sheet_of sheet.now) m }
{
    let said = sheet.notice(m);
    !sheet.in_roster(m as u32) || said != NO_NOTICE && usize::from(said) <= sets_by(sheet, m)
}

pub fn complete(sheet: &Sheet) -> bool
    ensures { result ≡ complete (sheet_of sheet.now) }
{
    (0..MASTERS).all(|m| owes_nothing(sheet, m))
}
