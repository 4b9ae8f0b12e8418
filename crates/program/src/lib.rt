// The closing program: a register and then one or more sheets are read, the sheets are joined, the epoch is closed, and the report written.
#![tactic(auto)]

mod closed;

ghost use Rattle.std.specs.Prelude.{◌≤◌, length};
ghost use Rattle.report.specs.Report.{report_room};
ghost use Rattle.program.specs.Printed.{Ran};

use closed::write_closed;
use input::{read_register, read_sheets};
use report::put_refused;
use rules::{REGISTER_ROOM, Refusal, SHEET_ROOM};
use std::os::fd::RawFd;

// The text of a run on an open file, at the start of out. The first refusal met is all that is printed.
pub fn run(file: RawFd, out: &mut [u8]) -> usize
    requires { report_room ≤ length out.old }
    ensures { (Ran out.old out.new result) × (result ≤ report_room) }
{
    let mut register = [0u8; REGISTER_ROOM];
    let Some(n) = read_register(file, &mut register) else {
        return put_refused(out, 0, u32::from(Refusal::RegisterIllFormed));
    };
    let mut sheet = [0u8; SHEET_ROOM];
    match read_sheets(file, &mut sheet) {
        Ok(len) => write_closed(&register[..n], &sheet[..len], out),
        Err(x) => put_refused(out, 0, u32::from(x)),
    }
}
