// Closing: the refusals in document 01's order, then the verdicts and the count of the next rows, and only then the writing.
ghost use Rattle.std.specs.Prelude.{◌≡◌, ◌+◌, length, eqb, Some};
ghost use Rattle.rules.specs.Refused.{close_sheet, close_outcome};
ghost use Rattle.rules.specs.Promises.{ClosePromise};
ghost use Rattle.registers.specs.Views.{register_of};
ghost use Rattle.sheets.specs.Views.{sheet_of};
ghost use Rattle.closing.specs.Outcome.{close_complete};

use crate::verdicts::put_verdicts;
use forms::{Register, Sheet, Writing, verdicts_length};
use judging::{Committed, Judged, Table, complete};
use next_rows::Committing;
use rules::{Closed, MAX_ROWS, REGISTER_ROOM, Refusal, VERDICT_ROOM};

// Whether the sheet is of the epoch after the register's snapshot, over whole numbers: none follows the last.
fn follows(register: &Register, sheet: &Sheet) -> bool
    ensures { result ≡ eqb (sheet_of sheet.now).epoch ((register_of register.now).snapshot + 1) }
{
    u64::from(sheet.epoch()) == u64::from(register.snapshot()) + 1
}

// A complete sheet of the right epoch.
#[tactic(auto, using(sheets::specs::SheetSizes::few_sets))]
fn close_complete<'a>(
    register: Register<'a>,
    sheet: Sheet<'a>,
    next: &mut [u8],
    verdicts: &mut [u8],
) -> Result<Closed, Refusal>
    requires { (sheet_of sheet).epoch ≡ (register_of register).snapshot + 1 }
    ensures { ClosePromise (close_complete (register_of register.entry) (sheet_of sheet.entry) (length next.old) (length verdicts.old)) next.old verdicts.old result next.new verdicts.new }
{
    let mut wrong = Table::empty();
    let mut lost = Table::empty();
    let judged = Judged::new(register, sheet, &mut wrong, &mut lost);
    let lost = judged.lost;
    let committed = Committed { sheet, lost };
    let committing = Committing {
        register,
        committed,
    };
    let n = committing.next_count();
    if MAX_ROWS < n {
        return Err(Refusal::TooManyRows);
    }
    if next.len() < REGISTER_ROOM || verdicts.len() < VERDICT_ROOM {
        return Err(Refusal::BufferShort);
    }
    let mut writing = Writing::start(next, sheet.epoch(), n);
    committing.put_rows(&mut writing);
    let length = writing.finish();
    put_verdicts(&judged, verdicts);
    Ok(Closed {
        register: length,
        verdicts: verdicts_length(sheet.set_count()),
    })
}

// A sheet, whatever it holds.
fn close_sheet<'a>(
    register: Register<'a>,
    sheet: Sheet<'a>,
    next: &mut [u8],
    verdicts: &mut [u8],
) -> Result<Closed, Refusal>
    ensures { ClosePromise (close_sheet (Some (register_of register.entry)) (Some (sheet_of sheet.entry)) (length next.old) (length verdicts.old)) next.old verdicts.old result next.new verdicts.new }
{
    if !follows(&register, &sheet) {
        return Err(Refusal::WrongEpoch);
    }
    if sheet.is_spoiled() {
        return Err(Refusal::Spoiled);
    }
    if !complete(&sheet) {
        return Err(Refusal::Incomplete);
    }
    close_complete(register, sheet, next, verdicts)
}

// CLOSE, of any bytes.
pub fn close(
    register: &[u8],
    sheet: &[u8],
    next: &mut [u8],
    verdicts: &mut [u8],
) -> Result<Closed, Refusal>
    ensures { ClosePromise (close_outcome register.now sheet.now (length next.old) (length verdicts.old)) next.old verdicts.old result next.new verdicts.new }
{
    let register = Register::examine(register)?;
    let sheet = Sheet::examine(sheet)?;
    close_sheet(register, sheet, next, verdicts)
}
