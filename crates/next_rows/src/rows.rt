// The rows of the next register, put in the order of their keys: the old ones that remain, and those that committed sets insert.
ghost use Rattle.std.specs.Prelude.{◌≡◌, ◌+◌, ◌≤◌, ◌<◌, length};
ghost use Rattle.registers.specs.RegisterWriting.{RowsWritten};
ghost use Rattle.registers.specs.Views.{register_of};
ghost use Rattle.sheets.specs.Views.{sheet_of};
ghost use Rattle.judging.specs.Views.{sets_of};

use crate::becoming::{becomes, inserted};
use forms::{Register, Writing};
use judging::Committed;
use rules::Kind;

// What is put next.
#[derive(Clone, Copy)]
pub enum Turn {
    Old,
    Insert(u32),
    End,
}

// A register, and the sets of a sheet that commit. That they are rightly chosen, by whatever rule, is asked where it is needed: it can be
// proved in more than one way, and a ghost field cannot.
#[derive(Clone, Copy)]
pub struct Committing<'a> {
    pub register: Register<'a>,
    pub committed: Committed<'a>,
}

impl<'a> Committing<'a> {
    ghost use Rattle.next_rows.specs.NextRow.{inserted_rows, IsNext};
    ghost use Rattle.next_rows.specs.Views.{IsChosen, rows_next, becomes};

    // How many rows the next register has: the old ones and the inserts, less the deletes.
    pub fn next_count(&self) -> usize
        requires { IsChosen self.now }
        ensures { result ≡ length (rows_next self.now) }
    {
        self.register.row_count() + self.committed.applied_count(Kind::Insert)
            - self.committed.applied_count(Kind::Delete)
    }

    // Row i of the old register, if it remains.
    fn put_old(&self, i: usize, next: &mut Writing)
        requires within { i < length (register_of self.now.register).rows }
        requires room { next.old.draft.put + length (becomes self.now i) ≤ next.old.draft.rows }
        ensures { RowsWritten (becomes self.now i) next.old next.new }
    {
        if let Some(row) = becomes(&self.committed, self.register.row(i)) {
            next.put(row);
        }
    }

    // The row of the committed insert of a key, if there is one.
    fn put_insert(&self, key: u32, next: &mut Writing)
        requires { next.old.draft.put < next.old.draft.rows }
        ensures { RowsWritten (inserted_rows (sheet_of self.now.committed.sheet) (sets_of self.now.committed) key) next.old next.new }
    {
        if let Some(insert) = self.committed.applied(key) {
            next.put(inserted(insert));
        }
    }

    // Of the old rows from i on and the inserts to come, the one with the smaller key.
    fn next_turn(&self, i: usize, insert: Option<u32>) -> Turn
        ensures { IsNext (register_of self.now.register) i insert result }
    {
        let rows = self.register.row_count();
        match insert {
            Some(key) if i < rows && self.register.row_key(i) < key => Turn::Old,
            Some(key) => Turn::Insert(key),
            None if i < rows => Turn::Old,
            None => Turn::End,
        }
    }

    // All rows, behind those that are put. The index goes on at an old row alone, so it is no `for`'s.
    pub fn put_rows(&self, next: &mut Writing)
        requires chosen { IsChosen self.now }
        requires room { next.old.draft.put + length (rows_next self.now) ≤ next.old.draft.rows }
        ensures { RowsWritten (rows_next self.now) next.old next.new }
    {
        let mut i = 0;
        let mut insert = self.committed.next_insert(0);
        loop {
            match self.next_turn(i, insert) {
                Turn::Old => {
                    self.put_old(i, next);
                    i += 1;
                }
                Turn::Insert(key) => {
                    self.put_insert(key, next);
                    insert = self.committed.next_insert(key);
                }
                Turn::End => return,
            }
        }
    }
}
