// The read check of a register in a mode, entry after entry.
ghost use Rattle.std.specs.Prelude.{◌≡◌, ℕ, ◌<◌, ◌≤◌};
ghost use Rattle.rules.specs.ReadCheck.{fails_row, finding_or, passes};
ghost use Rattle.rules.specs.Refused.{max_reads};
ghost use Rattle.registers.specs.Views.{register_of};
ghost use Rattle.reads.specs.Modes.{mode_number};
ghost use Rattle.reads.specs.Entries.{finding_of};

use crate::find::find;
use crate::mode::Mode;
use forms::Register;
use rules::{Failure, MAX_READS, Read, Reason, Refusal, Row};

// What entries are held against: a register, in a mode, with an lsn that is not above its snapshot.
#[derive(Clone, Copy)]
pub struct Check<'a> {
    register: Register<'a>,
    mode: Mode,
    lsn: u32,
    ghost seen: { lsn ≤ (register_of register).snapshot },
}

impl<'a> Check<'a> {
    ghost use Rattle.reads.specs.Checks.{Opened, reason_for, Gives, Checks};

    // C hands the mode as a byte.
    pub fn new(register: &'a [u8], mode: u8, lsn: u32) -> Result<Check<'a>, Refusal>
        ensures { Opened register.now mode lsn result }
    {
        let register = Register::examine(register)?;
        let Ok(mode) = Mode::try_from(mode) else {
            return Err(Refusal::CheckIllFormed);
        };
        if register.snapshot() < lsn {
            return Err(Refusal::CheckIllFormed);
        }
        Ok(Check {
            register,
            mode,
            lsn,
        })
    }

    // Why an entry fails whose row is there.
    #[tactic(auto, using(std::proofs::lemmas::Bool::Decides::nat_tests), unfolding(rules::specs::ReadCheck::fails_row))]
    fn failing_row(&self, read: Read, row: Row) -> Option<Reason>
        ensures { result ≡ fails_row (mode_number self.now.mode) self.now.lsn read row }
    {
        if self.mode == Mode::RepeatableRead {
            return (row.mark.csn != read.csn).then_some(Reason::OtherCsn);
        }
        // cen − 1 > lsn over whole numbers: neither side wraps
        (u64::from(self.lsn) + 1 < u64::from(row.mark.cen)).then_some(Reason::TooNew)
    }

    // Why an entry fails, if it does.
    #[tactic(auto, using(std::proofs::lemmas::Bool::Decides::nat_tests), unfolding(rules::specs::ReadCheck::failing, rules::specs::ReadCheck::fails_found))]
    fn failing(&self, read: Read) -> Option<Reason>
        ensures { result ≡ reason_for self.now read }
    {
        if self.mode == Mode::ReadCommitted {
            return None;
        }
        match find(&self.register, read.key) {
            Some(row) => self.failing_row(read, row),
            None => Some(Reason::Gone),
        }
    }

    // What an entry at an index, if it fails, is answered with.
    #[tactic(auto, unfolding(rules::specs::ReadCheck::finding_or))]
    fn failure(&self, index: usize, read: Read) -> Option<Failure>
        requires { index < max_reads }
        ensures { finding_of result ≡ finding_or (reason_for self.now read) index read.key passes }
    {
        self.failing(read).map(|reason| Failure {
            index: index as u32,
            key: read.key,
            reason,
        })
    }

    // The first of n entries that fails, where `read` gives entry i; or refused: they are too many, or the key of one is 0.
    pub fn first_failing<F: Fn(usize) -> Read>(
        &self,
        n: usize,
        read: F,
    ) -> Result<Option<Failure>, Refusal>
        requires { (i : ℕ) → i < n → F.pre read i }
        ensures { Checks self.now (Gives n (F.post read)) result }
    {
        if n > MAX_READS {
            return Err(Refusal::CheckIllFormed);
        }
        let mut first = None;
        for i in 0..n {
            let entry = read(i);
            if entry.key == 0 {
                return Err(Refusal::CheckIllFormed);
            }
            first = first.or(self.failure(i, entry));
        }
        Ok(first)
    }
}
