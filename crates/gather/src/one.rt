// The sheet of one offer, written into a small buffer: putting an offer in is joining with it.
ghost use Rattle.std.specs.Prelude.{◌≡◌, true, ◌≤◌, ◌<◌, length};
ghost use Rattle.rules.specs.Sheet.{max_sets, are_records};
ghost use Rattle.sheets.specs.SheetReadings.{master_count, one_room};
ghost use Rattle.gather.specs.OneSheet.{Small, of_set, of_notice};

use forms::{
    MASTERS, length_with, offered_count, put_body, put_entry, put_no_notices, put_notices,
    put_sheet_start,
};
use rules::NO_NOTICE;

// One set: the head, one entry, and its records.
pub fn one_set(out: &mut [u8], epoch: u32, roster: u16, sen: u32, csn: u64, records: &[u8]) -> usize
    requires { (length out.old ≡ one_room) × (are_records records.now ≡ true) }
    ensures { Small (of_set epoch roster sen csn records.now) out.old result out.new }
{
    let n = offered_count(records);
    put_sheet_start(out, epoch, roster, false, 1);
    put_no_notices(out);
    put_entry(out, 0, csn, sen, 0, n);
    put_body(out, 1, 0, records);
    length_with(1, n)
}

// One notice: the head alone.
pub fn one_notice(out: &mut [u8], epoch: u32, roster: u16, master: u8, count: u8) -> usize
    requires { (length out.old ≡ one_room) × (master < master_count) × (count ≤ max_sets) }
    ensures { Small (of_notice epoch roster master count) out.old result out.new }
{
    let m = master as usize;
    let mut notices = [NO_NOTICE; MASTERS];
    notices[m] = count;
    put_sheet_start(out, epoch, roster, false, 0);
    put_notices(out, &notices);
    length_with(0, 0)
}
