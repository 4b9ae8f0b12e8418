// The report of a closed epoch: the head line, a line a set, a line a row. And what is printed of a refusal.
ghost use Rattle.std.specs.Prelude.{◌≡◌, true, map, ◌+◌, ◌*◌, ◌≤◌, length};
ghost use Rattle.rules.specs.Lists.{flat};
ghost use Rattle.rules.specs.Register.{is_register, register_in};
ghost use Rattle.rules.specs.Sheet.{is_sheet, sheet_in, csn_of};
ghost use Rattle.forms.specs.VerdictForm.{verdicts_length, verdicts_in};
ghost use Rattle.report.specs.Report.{Put, line_room, report_room, row_line, set_lines, report, refused_text};

use crate::text::Text;
use forms::{Register, Sheet, set_verdict};

// No report is longer: a line, 64 sets and 1,024 rows.
pub const REPORT_ROOM: usize = 121968;

impl<'a> Text<'a> {
    ghost use Rattle.registers.specs.Views.{register_of};
    ghost use Rattle.sheets.specs.Views.{sheet_of};
    ghost use Rattle.report.specs.Text.{HasRoom, TakesAtMost, Writes};

    // A line for each set; over a sheet here, over a register below, and in two lines each, so one function would be no plainer.
    #[tactic(auto, using(crate::proofs::TextLaws::no_text, crate::proofs::LineLaws::sets_whole), unfolding(crate::specs::Report::set_lines))]
    fn set_lines(&mut self, sheet: &Sheet<'_>, verdicts: &[u8])
        requires told { verdicts_length (length (sheet_of sheet.now).sets) ≤ length verdicts.now }
        requires room { HasRoom self.old (line_room * length (sheet_of sheet.now).sets) }
        ensures writes { Writes (set_lines (map csn_of (sheet_of sheet.now).sets) (verdicts_in (length (sheet_of sheet.now).sets) verdicts.now 0)) self.old self.new }
        ensures room { TakesAtMost (line_room * length (sheet_of sheet.now).sets) self.old self.new }
    {
        for i in 0..sheet.set_count() {
            self.set_line(sheet.set(i).csn(), set_verdict(verdicts, i));
        }
    }

    // A line for each row.
    #[tactic(auto, using(crate::proofs::TextLaws::no_text), unfolding(rules::specs::Lists::flat))]
    fn row_lines(&mut self, register: &Register<'_>)
        requires { HasRoom self.old (line_room * length (register_of register.now).rows) }
        ensures writes { Writes (flat row_line (register_of register.now).rows) self.old self.new }
        ensures room { TakesAtMost (line_room * length (register_of register.now).rows) self.old self.new }
    {
        for i in 0..register.row_count() {
            self.row_line(register.row(i));
        }
    }
}

// THE REPORT, at the start of out, of a next register, a closed sheet and its verdicts.
pub fn write_report(register: &[u8], sheet: &[u8], verdicts: &[u8], out: &mut [u8]) -> usize
    requires { (is_register register.now ≡ true) × (is_sheet sheet.now ≡ true) × (verdicts_length (length (sheet_in sheet.now).sets) ≤ length verdicts.now) × (report_room ≤ length out.old) }
    ensures { (Put (report (register_in register.now) (map csn_of (sheet_in sheet.now).sets) (verdicts_in (length (sheet_in sheet.now).sets) verdicts.now 0)) out.old 0 out.new result) × (result ≤ report_room) }
{
    let register = Register { bytes: register };
    let sheet = Sheet { bytes: sheet };
    let mut text = Text::new(out, 0);
    text.snapshot_line(register.snapshot(), register.row_count());
    text.set_lines(&sheet, verdicts);
    text.row_lines(&register);
    text.at
}

// What is printed of a refusal, whose number it is: any number has its text.
pub fn put_refused(out: &mut [u8], at: usize, number: u32) -> usize
    requires { at + line_room ≤ length out.old }
    ensures { (Put (refused_text number) out.old at out.new result) × (result ≤ at + line_room) }
{
    let mut text = Text::new(out, at);
    text.refused(number);
    text.at
}
