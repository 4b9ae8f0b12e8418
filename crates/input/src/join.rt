// Joining: each sheet that is read is joined to those before it.
ghost use Rattle.std.specs.Prelude.{◌≡◌, ◌≤◌, length, take, Ok, None};
ghost use Rattle.rules.specs.Sheet.{is_sheet};
ghost use Rattle.rules.specs.Refused.{join_outcome, sheet_room};
ghost use Rattle.rules.specs.Promises.{Promise};
ghost use Rattle.input.specs.Reading.{Holds, CameIn, SheetsIn};

use crate::reading::read_sheet;
use rules::{Refusal, SHEET_ROOM};
use std::os::fd::RawFd;

// Another sheet joined to the one in the first n bytes, in its place. The buffer is lent, and its length is handed back, by read_sheets.
fn join_to(sheet: &mut [u8], n: usize, more: &[u8]) -> Result<usize, Refusal>
    requires { (length sheet.old ≡ sheet_room) × (n ≤ sheet_room) }
    ensures { Promise (join_outcome (take n sheet.old) more.now sheet_room) sheet.old result sheet.new }
{
    let mut both = [0u8; SHEET_ROOM];
    let len = merge::join(&sheet[..n], more, &mut both)?;
    sheet[..len].copy_from_slice(&both[..len]);
    Ok(len)
}

// The next sheet joined to the one in the first n bytes, or the end, which changes nothing.
fn join_next(file: RawFd, sheet: &mut [u8], n: usize) -> Result<Option<usize>, Refusal>
    requires { (length sheet.old ≡ sheet_room) × (n ≤ sheet_room) }
    ensures { (CameIn result sheet.new) × (result ≡ Ok None → sheet.new ≡ sheet.old) }
{
    let mut more = [0u8; SHEET_ROOM];
    let Some(m) = read_sheet(file, &mut more)? else {
        return Ok(None);
    };
    let len = join_to(sheet, n, &more[..m])?;
    Ok(Some(len))
}

// All further sheets joined to the first. An input of 2^64 sheets never comes, so none is refused for their number.
fn join_rest(file: RawFd, sheet: &mut [u8], first: usize) -> Result<usize, Refusal>
    requires { (length sheet.old ≡ sheet_room) × Holds is_sheet sheet.old first }
    ensures { SheetsIn result sheet.new }
{
    let mut n = first;
    for _ in 0..u64::MAX {
        let Some(len) = join_next(file, sheet, n)? else {
            return Ok(n);
        };
        n = len;
    }
    Err(Refusal::SheetIllFormed)
}

// The sheet of all sheets joined; without one, the input ended too early.
pub fn read_sheets(file: RawFd, sheet: &mut [u8]) -> Result<usize, Refusal>
    requires { length sheet.old ≡ sheet_room }
    ensures { SheetsIn result sheet.new }
{
    match read_sheet(file, sheet)? {
        Some(first) => join_rest(file, sheet, first),
        None => Err(Refusal::SheetIllFormed),
    }
}
