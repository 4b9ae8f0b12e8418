// Putting in a set or a notice: examined, admitted, and joined as the sheet of that one offer.
ghost use Rattle.std.specs.Prelude.{length};
ghost use Rattle.rules.specs.Refused.{put_outcome, notice_outcome};
ghost use Rattle.rules.specs.Promises.{Promise};
ghost use Rattle.gather.specs.Offers.{add_outcome};

use crate::offer::Offer;
use forms::{ONE_ROOM, Sheet};
use joining::join_into;
use rules::{Refusal, SHEET_ROOM};

fn add(sheet: &[u8], epoch: u32, offer: &Offer, out: &mut [u8]) -> Result<usize, Refusal>
    ensures { Promise (add_outcome sheet.now epoch offer.now (length out.old)) out.old result out.new }
{
    let sheet = Sheet::examine(sheet)?;
    if !offer.is_good(epoch) {
        return Err(Refusal::OfferIllFormed);
    }
    let master = offer.master();
    if epoch != sheet.epoch() {
        return Err(Refusal::WrongEpoch);
    }
    if !sheet.in_roster(master) {
        return Err(Refusal::WrongRoster);
    }
    if out.len() < SHEET_ROOM {
        return Err(Refusal::BufferShort);
    }
    let mut one = [0u8; ONE_ROOM];
    Ok(join_into(&sheet, &offer.alone(&sheet, &mut one), out))
}

pub fn put(
    sheet: &[u8],
    epoch: u32,
    sen: u32,
    csn: u64,
    records: &[u8],
    out: &mut [u8],
) -> Result<usize, Refusal>
    ensures { Promise (put_outcome sheet.now epoch sen csn records.now (length out.old)) out.old result out.new }
{
    add(sheet, epoch, &Offer::Set { sen, csn, records }, out)
}

pub fn notice(
    sheet: &[u8],
    epoch: u32,
    master: u8,
    count: u8,
    out: &mut [u8],
) -> Result<usize, Refusal>
    ensures { Promise (notice_outcome sheet.now epoch master count (length out.old)) out.old result out.new }
{
    add(sheet, epoch, &Offer::Notice { master, count }, out)
}
