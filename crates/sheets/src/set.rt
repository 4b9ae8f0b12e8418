// A set of an examined sheet, and what it holds.
ghost use Rattle.std.specs.Prelude.{◌≡◌, ◌+◌, ◌≤◌, ◌<◌, length};
ghost use Rattle.rules.specs.Sheet.{sheet_in, record_in, records_bytes};
ghost use Rattle.sheets.specs.SheetReadings.{record_at, entry_place, body_place};

use crate::sheet::Sheet;
use examine::{ENTRY, RECORD, SHEET_HEAD};
use rules::Record;
use words::Word;

// Set i of a sheet.
#[derive(Clone, Copy)]
pub struct WriteSet<'a> {
    pub sheet: Sheet<'a>,
    pub i: usize,
    ghost within: { i < length (sheet_in sheet.bytes.now).sets },
}

#[tactic(auto, using(crate::proofs::SheetPlaces::set_readings), unfolding(crate::specs::SheetReadings::body_place, rules::specs::Sheet::record_in))]
impl<'a> WriteSet<'a> {
    ghost use Rattle.sheets.specs.Views.{sheet_of, set_of};

    // Where its entry in the contents starts.
    fn entry_place(&self) -> usize
        ensures { result ≡ entry_place self.now.i }
    {
        SHEET_HEAD + ENTRY * self.i
    }

    pub fn csn(&self) -> u64
        ensures { result ≡ (set_of self.now).csn }
    {
        u64::get(self.sheet.bytes, self.entry_place())
    }

    pub fn sen(&self) -> u32
        ensures { result ≡ (set_of self.now).sen }
    {
        u32::get(self.sheet.bytes, self.entry_place() + 8)
    }

    pub fn record_count(&self) -> usize
        ensures { result ≡ length (set_of self.now).records }
    {
        u16::get(self.sheet.bytes, self.entry_place() + 14) as usize
    }

    // Where its body starts: behind all entries, and the records of the sets before it.
    fn body_place(&self) -> usize
        ensures { result ≡ body_place (sheet_of self.now.sheet) self.now.i }
    {
        let first = u16::get(self.sheet.bytes, self.entry_place() + 12) as usize;
        SHEET_HEAD + ENTRY * self.sheet.set_count() + RECORD * first
    }

    // Record j, counted from 0.
    pub fn record(&self, j: usize) -> Record
        requires { j < length (set_of self.now).records }
        ensures { result ≡ record_at (set_of self.now) j }
    {
        record_from(self.sheet.bytes, self.body_place() + RECORD * j)
    }

    pub fn record_key(&self, j: usize) -> u32
        requires { j < length (set_of self.now).records }
        ensures { result ≡ (record_at (set_of self.now) j).key }
    {
        u32::get(self.sheet.bytes, self.body_place() + RECORD * j + 4)
    }

    // Its records, as the part of the sheet that they are.
    pub fn body(&self) -> &'a [u8]
        ensures { result.now ≡ records_bytes (set_of self.now).records }
    {
        let at = self.body_place();
        &self.sheet.bytes[at..at + RECORD * self.record_count()]
    }
}

// The record whose bytes start at a place in the sheet: words are read by places.
#[tactic(auto, unfolding(rules::specs::Sheet::record_in))]
fn record_from(b: &[u8], at: usize) -> Record
    requires { at + 16 ≤ length b.now }
    ensures { result ≡ record_in b.now at }
{
    Record {
        kind: b[at],
        key: u32::get(b, at + 4),
        value: u64::get(b, at + 8),
    }
}
