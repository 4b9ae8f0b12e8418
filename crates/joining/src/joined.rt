// Joining two sheets: what spoils it is decided first, and then the sheet is written straight into the lent bytes.
ghost use Rattle.std.specs.Prelude.{◌≤◌, length};
ghost use Rattle.rules.specs.Gathering.{spoiled_sheet, joined};
ghost use Rattle.rules.specs.Refused.{sheet_room, join_outcome};
ghost use Rattle.rules.specs.Promises.{Promise};
ghost use Rattle.sheets.specs.SheetReadings.{head_length};
ghost use Rattle.sheets.specs.Views.{sheet_of};
ghost use Rattle.joining.specs.Writes.{Written};

use crate::held::put_held;
use forms::{Sheet, length_with, put_no_notices, put_sheet_start};
use rules::{Refusal, SHEET_ROOM};
use walk::joined_to;

// The spoiled sheet of a's epoch and roster, and its length.
fn put_spoiled(a: &Sheet, out: &mut [u8]) -> usize
    requires { head_length ≤ length out.old }
    ensures { Written (spoiled_sheet (sheet_of a.now).epoch (sheet_of a.now).roster) out.old result out.new }
{
    put_sheet_start(out, a.epoch(), a.roster(), true, 0);
    put_no_notices(out);
    length_with(0, 0)
}

// The sheet of both sheets' offers, at the start of out, and its length.
pub fn join_into<'a>(a: &Sheet<'a>, b: &Sheet<'a>, out: &mut [u8]) -> usize
    requires { sheet_room ≤ length out.old }
    ensures { Written (joined (sheet_of a.now) (sheet_of b.now)) out.old result out.new }
{
    match joined_to(a, b) {
        Some(n) => put_held(a, b, n, out),
        None => put_spoiled(a, out),
    }
}

pub fn join<'a>(a: &'a [u8], b: &'a [u8], out: &mut [u8]) -> Result<usize, Refusal>
    ensures { Promise (join_outcome a.now b.now (length out.old)) out.old result out.new }
{
    let a = Sheet::examine(a)?;
    let b = Sheet::examine(b)?;
    if a.epoch() != b.epoch() {
        return Err(Refusal::WrongEpoch);
    }
    if a.roster() != b.roster() {
        return Err(Refusal::WrongRoster);
    }
    if out.len() < SHEET_ROOM {
        return Err(Refusal::BufferShort);
    }
    Ok(join_into(&a, &b, out))
}
