// The contents of a sheet, an entry a set, and the bodies that they point to.
ghost use Rattle.std.specs.Prelude.{◌≡◌, true, false, ◌+◌, ◌*◌, ◌≤◌, ◌<◌, length, get_or, set, MatchOption};
ghost use Rattle.words.specs.Words.{word};
ghost use Rattle.rules.specs.Numbers.{master_of};
ghost use Rattle.examine.specs.SheetForm.{count_at, above, entry_ok, set_ok, sets_ok, Counted};

use crate::head::{Candidate, SHEET_HEAD};
use crate::records::{RECORD, body_ok};
use rules::MAX_RECORDS;
use words::Word;

// How long an entry of the contents is.
pub const ENTRY: usize = 16;

// An entry, at its place among a candidate's bytes.
#[derive(Clone, Copy)]
struct Entry<'a> {
    sheet: Candidate<'a>,
    at: usize,
    ghost within: { at + 16 ≤ length sheet.bytes.now },
}

#[tactic(auto, using(std::proofs::lemmas::Bool::Decides::nat_tests), unfolding(crate::specs::SheetForm::above, crate::specs::SheetForm::entry_ok, crate::specs::SheetForm::set_ok, rules::specs::Lists::run_lists))]
impl Entry<'_> {
    fn csn(&self) -> u64
        ensures { result ≡ word 8 self.now.sheet.bytes.now self.now.at }
    {
        u64::get(self.sheet.bytes, self.at)
    }

    // How many records its set has.
    fn count(&self) -> u16
        ensures { result ≡ count_at self.now.sheet.bytes.now self.now.at }
    {
        u16::get(self.sheet.bytes, self.at + 14)
    }

    // Whether its csn is above that of the set before, `prev`; before the first set stands no record.
    fn is_above(&self, first: usize, prev: u64) -> bool
        ensures { result ≡ above first prev (word 8 self.now.sheet.bytes.now self.now.at) }
    {
        first == 0 || prev < self.csn()
    }

    // Whether it is in order, where `first` records stand before its set's.
    fn is_ok(&self, first: usize) -> bool
        ensures { result ≡ entry_ok first self.now.sheet.bytes.now self.now.at }
    {
        let b = self.sheet.bytes;
        u32::get(b, self.at + 8) <= u32::get(b, 0)
            && self.sheet.in_roster((self.csn() % 16) as u32)
            && first == u16::get(b, self.at + 12) as usize
            && 1 <= self.count()
            && u32::from(self.count()) <= MAX_RECORDS
    }

    // Whether its set, whose body is at a place, is in order, where `first` records and the csn `prev` stand before it.
    fn set_ok(&self, body: usize, first: usize, prev: u64) -> bool
        requires { body ≤ length self.now.sheet.bytes.now }
        ensures { result ≡ set_ok first prev self.now.sheet.bytes.now self.now.at body }
    {
        let b = self.sheet.bytes;
        let count = self.count() as usize;
        self.is_above(first, prev)
            && self.is_ok(first)
            && RECORD * count <= b.len() - body
            && body_ok(b, body, count)
    }
}

// One set more of the csn's master.
pub fn count_set(by: &mut [u8; 16], csn: u64)
    requires { get_or by.old (master_of csn) 0 < 255 }
    ensures { by.new ≡ set by.old (master_of csn) (get_or by.old (master_of csn) 0 + 1) }
{
    by[(csn % 16) as usize] += 1;
}

// How many of the n sets each master has, if every set is in order, its entry and its body, and the bytes end with the last body. The
// counts are for the notices, which so need no second walk.
pub fn sets_by(sheet: &Candidate, n: usize) -> Option<[u8; 16]>
    requires { (24 + 16 * n ≤ length sheet.now.bytes.now) × (n ≤ 255) }
    ensures { MatchOption result (sets_ok 0 0 n sheet.now.bytes.now 24 (24 + 16 * n) ≡ false) (λ by. (sets_ok 0 0 n sheet.now.bytes.now 24 (24 + 16 * n) ≡ true) × Counted n sheet.now.bytes.now by) }
{
    let mut by = [0; 16];
    let mut prev = 0;
    let mut first = 0;
    let mut body = SHEET_HEAD + ENTRY * n;
    for i in 0..n {
        let entry = Entry {
            sheet: *sheet,
            at: SHEET_HEAD + ENTRY * i,
        };
        if !entry.set_ok(body, first, prev) {
            return None;
        }
        prev = entry.csn();
        count_set(&mut by, prev);
        let records = entry.count() as usize;
        first += records;
        body += RECORD * records;
    }
    (body == sheet.bytes.len()).then_some(by)
}
