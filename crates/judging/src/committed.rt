// The sets that commit, and what they do, taken together. They are the sets with none in the table of lost keys, whatever rule filled it.
ghost use Rattle.std.specs.Prelude.{◌≡◌, ◌≤◌, ◌<◌, length};
ghost use Rattle.rules.specs.Sheet.{kind_number};
ghost use Rattle.rules.specs.Becoming.{applied};
ghost use Rattle.sheets.specs.SheetReadings.{max_total};
ghost use Rattle.sheets.specs.Views.{sheet_of, set_of};
ghost use Rattle.judging.specs.Tables.{keys_of, none_at};
ghost use Rattle.judging.specs.Judged.{of_kind, Inserts, InsertsIn, LeastAbove, smaller};

use crate::recorded::{mark_of, record_of};
use crate::table::Table;
use forms::{Sheet, WriteSet};
use rules::{Kind, Mark, Record};

// How many records of a kind a set has.
fn count_in(set: &WriteSet, kind: Kind) -> usize
    ensures { result ≡ of_kind (kind_number kind) (set_of set.now).records }
{
    (0..set.record_count())
        .filter(|&j| set.record(j).is(kind))
        .count()
}

// The first key above `after` that a set inserts.
fn insert_in(set: &WriteSet, after: u32) -> Option<u32>
    ensures { LeastAbove (Inserts (set_of set.now)) after result }
{
    for j in 0..set.record_count() {
        let record = set.record(j);
        if record.is(Kind::Insert) && after < record.key {
            return Some(record.key);
        }
    }
    None
}

// The smaller of two keys, if there are two.
fn smaller(a: Option<u32>, b: Option<u32>) -> Option<u32>
    ensures { result ≡ smaller a b }
{
    match (a, b) {
        (Some(j), Some(k)) => Some(j.min(k)),
        _ => a.or(b),
    }
}

// A record that is applied to its key, and the mark of the set that applies it.
#[derive(Clone, Copy)]
pub struct Write {
    pub record: Record,
    pub mark: Mark,
}

// A sheet, and for each of its sets the first key that it loses.
#[derive(Clone, Copy)]
pub struct Committed<'a> {
    pub sheet: Sheet<'a>,
    pub lost: &'a Table,
}

impl<'a> Committed<'a> {
    ghost use Rattle.judging.specs.Answers.{AppliesTo};
    ghost use Rattle.judging.specs.Views.{sets_of};

    // Whether set i commits.
    #[tactic(auto, using(sheets::specs::SheetSizes::few_sets), unfolding(crate::specs::Tables::none_at))]
    fn commits(&self, i: usize) -> bool
        requires { i < length (sheet_of self.now.sheet).sets }
        ensures { result ≡ none_at (keys_of self.now.lost.now) i }
    {
        self.lost.key(i).is_none()
    }

    // How many records of a kind they have.
    #[tactic(auto, using(sheets::specs::SheetSizes::few_sets))]
    pub fn applied_count(&self, kind: Kind) -> usize
        ensures few { result ≤ max_total }
        ensures counted { result ≡ of_kind (kind_number kind) (applied (sets_of self.now)) }
    {
        let mut count = 0;
        for i in 0..self.sheet.set_count() {
            if self.commits(i) {
                count += count_in(&self.sheet.set(i), kind);
            }
        }
        count
    }

    // The first key above `after` that one of them inserts.
    pub fn next_insert(&self, after: u32) -> Option<u32>
        ensures { LeastAbove (InsertsIn (sheet_of self.now.sheet) (keys_of self.now.lost.now) (length (sheet_of self.now.sheet).sets)) after result }
    {
        let mut least = None;
        for i in 0..self.sheet.set_count() {
            if self.commits(i) {
                least = smaller(least, insert_in(&self.sheet.set(i), after));
            }
        }
        least
    }

    // What is applied to the key. The set that applies a record to it is the one that marks its row, so one walk finds both.
    pub fn applied(&self, key: u32) -> Option<Write>
        ensures { AppliesTo (sheet_of self.now.sheet) (sets_of self.now) key result }
    {
        for i in 0..self.sheet.set_count() {
            let set = self.sheet.set(i);
            if self.commits(i)
                && let Some(record) = record_of(&set, key)
            {
                return Some(Write {
                    record,
                    mark: mark_of(&self.sheet, &set),
                });
            }
        }
        None
    }
}
