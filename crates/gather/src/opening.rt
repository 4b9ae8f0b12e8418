// Opening: the sound sheet with no set and no notice.
ghost use Rattle.std.specs.Prelude.{length};
ghost use Rattle.rules.specs.Refused.{open_outcome};
ghost use Rattle.rules.specs.Promises.{Promise};

use forms::{length_with, put_no_notices, put_sheet_start};
use rules::{Refusal, SHEET_ROOM};

pub fn open(epoch: u32, roster: u16, out: &mut [u8]) -> Result<usize, Refusal>
    ensures { Promise (open_outcome epoch roster (length out.old)) out.old result out.new }
{
    if epoch == 0 {
        return Err(Refusal::WrongEpoch);
    }
    if roster == 0 {
        return Err(Refusal::WrongRoster);
    }
    if out.len() < SHEET_ROOM {
        return Err(Refusal::BufferShort);
    }
    put_sheet_start(out, epoch, roster, false, 0);
    put_no_notices(out);
    Ok(length_with(0, 0))
}
