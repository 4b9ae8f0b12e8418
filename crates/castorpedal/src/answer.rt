// The answers as C sees them: the documents' numbers.
ghost use Rattle.rules.specs.Refused.{sheet_room};
ghost use Rattle.castorpedal.specs.Exported.{Told, Within, ToldClosed, WithinClosed, ToldChecked};

use rules::{Closed, Failure, Refusal};

// A code (0: done, else the refusal's number) and the length written.
#[repr(C)]
#[derive(Clone, Copy)]
pub struct CAnswer {
    pub code: u32,
    pub len: u32,
}

// The same with the lengths of the next register and of the verdicts.
#[repr(C)]
#[derive(Clone, Copy)]
pub struct CClosed {
    pub code: u32,
    pub register_len: u32,
    pub verdicts_len: u32,
}

// A refusal's number or 0, then the first failing entry's index, key and reason, all three 0 where there is none.
#[repr(C)]
#[derive(Clone, Copy)]
pub struct CChecked {
    pub code: u32,
    pub index: u32,
    pub key: u32,
    pub reason: u32,
}

// No From: a length must fit, which is required.
pub fn answer(a: Result<usize, Refusal>) -> CAnswer
    requires { Within sheet_room a }
    ensures { Told a result }
{
    match a {
        Ok(n) => CAnswer {
            code: 0,
            len: n as u32,
        },
        Err(x) => CAnswer {
            code: u32::from(x),
            len: 0,
        },
    }
}

// No From either, for the same reason.
pub fn closed(a: Result<Closed, Refusal>) -> CClosed
    requires { WithinClosed a }
    ensures { ToldClosed a result }
{
    match a {
        Ok(Closed { register, verdicts }) => CClosed {
            code: 0,
            register_len: register as u32,
            verdicts_len: verdicts as u32,
        },
        Err(x) => CClosed {
            code: u32::from(x),
            register_len: 0,
            verdicts_len: 0,
        },
    }
}

// The index at a pass or a refusal, where no entry failed.
const NO_INDEX: u32 = 0;

impl From<Result<Option<Failure>, Refusal>> for CChecked {
    ghost from_gives = { ToldChecked };

    fn from(a: Result<Option<Failure>, Refusal>) -> CChecked {
        match a {
            Ok(None) => CChecked {
                code: 0,
                index: NO_INDEX,
                key: 0,
                reason: 0,
            },
            Ok(Some(Failure { index, key, reason })) => CChecked {
                code: 0,
                index,
                key,
                reason: u32::from(reason),
            },
            Err(x) => CChecked {
                code: u32::from(x),
                index: NO_INDEX,
                key: 0,
                reason: 0,
            },
        }
    }
}
