// The operations that write: each is run on a case's numbers and inputs, and hands back what is shown of its answer and its buffers.
// A head may be longer than its 64 bytes, so it is a slice, and each function asks for them.
ghost use Rattle.std.specs.Prelude.{◌≤◌, length};
ghost use Rattle.cases.specs.Case.{case_head};

use crate::head::{FIRST_NUMBER, SECOND_NUMBER, THIRD_NUMBER};
use printing::{Answered, Left, Refused};
use rules::{Closed, Refusal};
use std::fmt;
use words::Word;

pub fn run_open<'a>(head: &[u8], out: &'a mut [u8]) -> Answered<'a>
    requires { case_head ≤ length head.now }
{
    let epoch = u32::get(head, FIRST_NUMBER);
    let roster = u16::get(head, SECOND_NUMBER);
    let answer = merge::open(epoch, roster, out);
    Answered(answer, out)
}

pub fn run_put<'a>(head: &[u8], sheet: &[u8], records: &[u8], out: &'a mut [u8]) -> Answered<'a>
    requires { case_head ≤ length head.now }
{
    let epoch = u32::get(head, FIRST_NUMBER);
    let sen = u32::get(head, SECOND_NUMBER);
    let csn = u64::get(head, THIRD_NUMBER);
    let answer = merge::put(sheet, epoch, sen, csn, records, out);
    Answered(answer, out)
}

pub fn run_notice<'a>(head: &[u8], sheet: &[u8], out: &'a mut [u8]) -> Answered<'a>
    requires { case_head ≤ length head.now }
{
    let epoch = u32::get(head, FIRST_NUMBER);
    let answer = merge::notice(sheet, epoch, head[SECOND_NUMBER], head[THIRD_NUMBER], out);
    Answered(answer, out)
}

pub fn run_join<'a>(first: &[u8], second: &[u8], out: &'a mut [u8]) -> Answered<'a> {
    let answer = merge::join(first, second, out);
    Answered(answer, out)
}

// What closing answered, and what it left in the buffers of the next register and of the verdicts.
#[derive(Clone, Copy)]
pub struct ClosedShown<'a> {
    answer: Result<Closed, Refusal>,
    next: &'a [u8],
    verdicts: &'a [u8],
}

impl fmt::Display for ClosedShown<'_> {
    fn fmt<W: fmt::Write>(&self, f: &mut fmt::Formatter<W>) -> fmt::Result {
        match self.answer {
            Ok(closed) => {
                let (n, m) = (closed.register, closed.verdicts);
                write!(f, "wrote {n}{}", Left(n, self.next))?;
                write!(f, " and {m}{}", Left(m, self.verdicts))
            }
            Err(x) => {
                write!(f, "{}", Refused(x))?;
                write!(f, "{}{}", Left(0, self.next), Left(0, self.verdicts))
            }
        }
    }
}

pub fn run_close<'a>(
    register: &[u8],
    sheet: &[u8],
    next: &'a mut [u8],
    verdicts: &'a mut [u8],
) -> ClosedShown<'a> {
    let answer = merge::close(register, sheet, next, verdicts);
    ClosedShown {
        answer,
        next,
        verdicts,
    }
}
