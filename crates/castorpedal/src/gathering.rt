// Gathering: open, put, notice, join.
ghost use Rattle.std.specs.Prelude.{length};
ghost use Rattle.rules.specs.Refused.{open_outcome, put_outcome, notice_outcome, join_outcome};
ghost use Rattle.castorpedal.specs.Exported.{Kept};

use crate::answer::{CAnswer, answer};

#[unsafe(no_mangle)]
pub extern "C" fn castorpedal_open(epoch: u32, roster: u16, out: &mut [u8]) -> CAnswer
    ensures { Kept (open_outcome epoch roster (length out.old)) out.old result out.new }
{
    answer(merge::open(epoch, roster, out))
}

#[unsafe(no_mangle)]
pub extern "C" fn castorpedal_put(
    sheet: &[u8],
    epoch: u32,
    sen: u32,
    csn: u64,
    records: &[u8],
    out: &mut [u8],
) -> CAnswer
    ensures { Kept (put_outcome sheet.now epoch sen csn records.now (length out.old)) out.old result out.new }
{
    answer(merge::put(sheet, epoch, sen, csn, records, out))
}

#[unsafe(no_mangle)]
pub extern "C" fn castorpedal_notice(
    sheet: &[u8],
    epoch: u32,
    master: u8,
    count: u8,
    out: &mut [u8],
) -> CAnswer
    ensures { Kept (notice_outcome sheet.now epoch master count (length out.old)) out.old result out.new }
{
    answer(merge::notice(sheet, epoch, master, count, out))
}

#[unsafe(no_mangle)]
pub extern "C" fn castorpedal_join<'a>(a: &'a [u8], b: &'a [u8], out: &mut [u8]) -> CAnswer
    ensures { Kept (join_outcome a.now b.now (length out.old)) out.old result out.new }
{
    answer(merge::join(a, b, out))
}
