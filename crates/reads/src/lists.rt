// The read check over a list of entries, and over a list of keys and one of csns.
ghost use Rattle.rules.specs.Refused.{reads_outcome, check_outcome};
ghost use Rattle.rules.specs.Promises.{CheckPromise};

use crate::checking::Check;
use rules::{Failure, Read, Refusal};

pub fn check_reads(
    register: &[u8],
    mode: u8,
    lsn: u32,
    reads: &[Read],
) -> Result<Option<Failure>, Refusal>
    ensures { CheckPromise (reads_outcome register.now mode lsn reads.now) result }
{
    let check = Check::new(register, mode, lsn)?;
    check.first_failing(reads.len(), |i| reads[i])
}

pub fn check(
    register: &[u8],
    mode: u8,
    lsn: u32,
    keys: &[u32],
    csns: &[u64],
) -> Result<Option<Failure>, Refusal>
    ensures { CheckPromise (check_outcome register.now mode lsn keys.now csns.now) result }
{
    let check = Check::new(register, mode, lsn)?;
    if keys.len() != csns.len() {
        return Err(Refusal::CheckIllFormed);
    }
    check.first_failing(
        keys.len(),
        |i| Read {
            key: keys[i],
            csn: csns[i],
        },
    )
}
