// Closing an epoch.
ghost use Rattle.std.specs.Prelude.{length};
ghost use Rattle.rules.specs.Refused.{close_outcome};
ghost use Rattle.castorpedal.specs.Exported.{KeptClose};

use crate::answer::{CClosed, closed};

#[unsafe(no_mangle)]
pub extern "C" fn castorpedal_close(
    register: &[u8],
    sheet: &[u8],
    next: &mut [u8],
    verdicts: &mut [u8],
) -> CClosed
    ensures { KeptClose (close_outcome register.now sheet.now (length next.old) (length verdicts.old)) next.old verdicts.old result next.new verdicts.new }
{
    closed(merge::close(register, sheet, next, verdicts))
}
