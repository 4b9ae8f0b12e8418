// The read check, over two lists and over one.
ghost use Rattle.rules.specs.Refused.{reads_outcome, check_outcome};
ghost use Rattle.castorpedal.specs.Exported.{KeptCheck};

use crate::answer::CChecked;
use rules::Read;

#[unsafe(no_mangle)]
pub extern "C" fn castorpedal_check(
    register: &[u8],
    mode: u8,
    lsn: u32,
    keys: &[u32],
    csns: &[u64],
) -> CChecked
    ensures { KeptCheck (check_outcome register.now mode lsn keys.now csns.now) result }
{
    CChecked::from(merge::check(register, mode, lsn, keys, csns))
}

#[unsafe(no_mangle)]
pub extern "C" fn castorpedal_check_reads(
    register: &[u8],
    mode: u8,
    lsn: u32,
    reads: &[Read],
) -> CChecked
    ensures { KeptCheck (reads_outcome register.now mode lsn reads.now) result }
{
    CChecked::from(merge::check_reads(register, mode, lsn, reads))
}
