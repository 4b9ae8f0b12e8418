// What is printed of closing a sheet on a register.
ghost use Rattle.std.specs.Prelude.{◌≤◌, length};
ghost use Rattle.report.specs.Report.{Put, report_room};
ghost use Rattle.program.specs.Printed.{closed_text};

use report::{put_refused, write_report};
use rules::{REGISTER_ROOM, VERDICT_ROOM};

// The report or the refusal, at the start of out.
pub fn write_closed(register: &[u8], sheet: &[u8], out: &mut [u8]) -> usize
    requires { report_room ≤ length out.old }
    ensures { (Put (closed_text register.now sheet.now) out.old 0 out.new result) × (result ≤ report_room) }
{
    let mut next = [0u8; REGISTER_ROOM];
    let mut verdicts = [0u8; VERDICT_ROOM];
    match merge::close(register, sheet, &mut next, &mut verdicts) {
        Ok(written) => write_report(&next[..written.register], sheet, &verdicts, out),
        Err(x) => put_refused(out, 0, u32::from(x)),
    }
}
