// Entering, offering and the tag: each is run on a case's numbers and inputs, and hands back what is shown of what it answered and left.
// A head may be longer than its 64 bytes, so it is a slice, and each function asks for them.
ghost use Rattle.std.specs.Prelude.{◌≤◌, length};
ghost use Rattle.rules.specs.Refused.{enter_outcome, offer_outcome};
ghost use Rattle.rules.specs.Promises.{EnterPromise, OfferPromise};
ghost use Rattle.cases.specs.Case.{case_head};

use crate::sets::{SetShown, set_of};
use cases::{FIRST_NUMBER, SECOND_NUMBER, THIRD_NUMBER};
use printing::{Answered, Refused};
use rules::{OpenSet, Refusal};
use std::fmt;
use words::Word;

// What entering answered, and the open set that it left.
#[derive(Clone, Copy)]
pub struct Entered {
    answer: Result<(), Refusal>,
    set: SetShown,
}

impl fmt::Display for Entered {
    fn fmt<W: fmt::Write>(&self, f: &mut fmt::Formatter<W>) -> fmt::Result {
        match self.answer {
            Ok(()) => write!(f, "entered{}", self.set),
            Err(x) => write!(f, "{}{}", Refused(x), self.set),
        }
    }
}

// A record entered into the set, which is handed back. The kind is the byte that C hands.
fn enter(mut set: OpenSet, kind: u8, tag: &[u8], value: u64) -> Entered
    ensures { EnterPromise (enter_outcome set kind tag.now value) set result.answer result.set.0 }
{
    let answer = merge::enter(&mut set, kind, tag, value);
    Entered {
        answer,
        set: SetShown(set),
    }
}

pub fn run_enter(head: &[u8], set: &[u8], tag: &[u8]) -> Entered
    requires { case_head ≤ length head.now }
{
    let value = u64::get(head, THIRD_NUMBER);
    enter(set_of(set), head[FIRST_NUMBER], tag, value)
}

// What offering answered, and the buffer and the open set that it left.
#[derive(Clone, Copy)]
pub struct Offered<'a> {
    answered: Answered<'a>,
    set: SetShown,
}

impl fmt::Display for Offered<'_> {
    fn fmt<W: fmt::Write>(&self, f: &mut fmt::Formatter<W>) -> fmt::Result {
        write!(f, "{} set{}", self.answered, self.set)
    }
}

// The set offered, and handed back.
fn offer<'a>(
    mut set: OpenSet,
    sheet: &[u8],
    epoch: u32,
    sen: u32,
    csn: u64,
    out: &'a mut [u8],
) -> Offered<'a>
    ensures { OfferPromise (offer_outcome set sheet.now epoch sen csn (length out.old)) set out.old result.answered.0 result.set.0 result.answered.1.now }
{
    let answer = merge::offer(&mut set, sheet, epoch, sen, csn, out);
    Offered {
        answered: Answered(answer, out),
        set: SetShown(set),
    }
}

pub fn run_offer<'a>(head: &[u8], sheet: &[u8], set: &[u8], out: &'a mut [u8]) -> Offered<'a>
    requires { case_head ≤ length head.now }
{
    let epoch = u32::get(head, FIRST_NUMBER);
    let sen = u32::get(head, SECOND_NUMBER);
    let csn = u64::get(head, THIRD_NUMBER);
    offer(set_of(set), sheet, epoch, sen, csn, out)
}

pub fn run_tag<'a>(head: &[u8], out: &'a mut [u8]) -> Answered<'a>
    requires { case_head ≤ length head.now }
{
    let key = u32::get(head, FIRST_NUMBER);
    let answer = merge::tag(key, out);
    Answered(answer, out)
}
