// What is put into a sheet, and the sheet that holds it alone: putting an offer in is joining with that sheet.
ghost use Rattle.std.specs.Prelude.{◌≡◌, true, length};
ghost use Rattle.rules.specs.Sheet.{in_roster};
ghost use Rattle.rules.specs.Gathering.{with_offer, joined};
ghost use Rattle.sheets.specs.SheetReadings.{one_room};
ghost use Rattle.sheets.specs.Views.{sheet_of};
ghost use Rattle.gather.specs.OneSheet.{Joins};

use crate::one::{one_notice, one_set};
use forms::{ONE_ROOM, Sheet, are_records};
use rules::MAX_NOTICE;

// A set with its records' bytes, or how many sets a master noticed.
#[derive(Clone, Copy)]
pub enum Offer<'a> {
    Set {
        sen: u32,
        csn: u64,
        records: &'a [u8],
    },
    Notice {
        master: u8,
        count: u8,
    },
}

impl<'a> Offer<'a> {
    ghost use Rattle.gather.specs.Offers.{good, master_in, offer_of};

    // Whether it is well-formed.
    pub fn is_good(&self, epoch: u32) -> bool
        ensures { result ≡ good epoch self.now }
    {
        match *self {
            Offer::Set { sen, records, .. } => 1 <= epoch && sen <= epoch && are_records(records),
            Offer::Notice { master, count } => 1 <= epoch && master <= 15 && count <= MAX_NOTICE,
        }
    }

    // Whose it is.
    pub fn master(&self) -> u32
        ensures { result ≡ master_in self.now }
    {
        match *self {
            Offer::Set { csn, .. } => (csn % 16) as u32,
            Offer::Notice { master, .. } => master as u32,
        }
    }

    // The sheet of this one offer, of another's epoch and roster, in a small buffer: joining with it is putting the offer in.
    pub fn alone<'b>(&self, sheet: &Sheet, one: &'b mut [u8; ONE_ROOM]) -> Sheet<'b>
        requires good { good (sheet_of sheet.now).epoch self.now ≡ true }
        requires admitted { in_roster (sheet_of sheet.now).roster (master_in self.now) ≡ true }
        ensures { joined (sheet_of sheet.now) (sheet_of result) ≡ with_offer (sheet_of sheet.now) (offer_of self.now) }
    {
        let n = self.put_alone(sheet, one);
        Sheet { bytes: &one[..n] }
    }

    // Its length is handed back.
    fn put_alone(&self, sheet: &Sheet, one: &mut [u8]) -> usize
        requires good { good (sheet_of sheet.now).epoch self.now ≡ true }
        requires admitted { in_roster (sheet_of sheet.now).roster (master_in self.now) ≡ true }
        requires room { length one.old ≡ one_room }
        ensures { Joins (sheet_of sheet.now) (offer_of self.now) one.new result }
    {
        let epoch = sheet.epoch();
        let roster = sheet.roster();
        match *self {
            Offer::Set { sen, csn, records } => one_set(one, epoch, roster, sen, csn, records),
            Offer::Notice { master, count } => one_notice(one, epoch, roster, master, count),
        }
    }
}
