// Who wins a key, and the first key that each set loses. All claims of fit sets count, also of those that lose elsewhere.
ghost use Rattle.std.specs.Prelude.{◌≡◌, ◌<◌, length};
ghost use Rattle.rules.specs.Closing.{winner};
ghost use Rattle.registers.specs.Views.{register_of};
ghost use Rattle.sheets.specs.Views.{sheet_of, set_of};
ghost use Rattle.judging.specs.Answers.{winner_of, earlier_of, won_by};
ghost use Rattle.judging.specs.Tables.{keys_of, claims_by, wrong_key, lost_key, Tells};

use crate::fit::{fill, find_wrong};
use crate::recorded::{mark_of, record_of};
use crate::table::Table;
use forms::{Register, Sheet, WriteSet};
use rules::Mark;

// Who leads once the set of a mark claims the key too: the earlier of two marks.
fn earlier_of(lead: Option<Mark>, mark: Mark) -> Option<Mark>
    ensures { result ≡ earlier_of lead mark }
{
    match lead {
        Some(first) => Some(first.earlier(mark)),
        None => Some(mark),
    }
}

// Whether the winner is the set of this csn: no two sets of a sheet share one.
fn won_by(winner: Option<Mark>, csn: u64) -> bool
    ensures { result ≡ won_by winner csn }
{
    match winner {
        Some(mark) => mark.csn == csn,
        None => false,
    }
}

// A register and a sheet, and the first key that is found wrong in each set. A set with none is fit, and claims its keys.
#[derive(Clone, Copy)]
struct Claims<'a> {
    register: Register<'a>,
    sheet: Sheet<'a>,
    wrong: &'a Table,
    ghost told: { Tells (wrong_key (register_of register)) (sheet_of sheet) (keys_of wrong.now) },
}

impl<'a> Claims<'a> {
    // Whether set i claims the key: it is fit, and names it.
    #[tactic(auto, using(sheets::specs::SheetSizes::few_sets))]
    fn claims(&self, i: usize, key: u32) -> bool
        requires { i < length (sheet_of self.now.sheet).sets }
        ensures { result ≡ claims_by (sheet_of self.now.sheet) (keys_of self.now.wrong.now) i key }
    {
        self.wrong.key(i).is_none() && record_of(&self.sheet.set(i), key).is_some()
    }

    // The mark of the set that wins the key, if a fit set claims it.
    fn winner(&self, key: u32) -> Option<Mark>
        ensures { result ≡ winner_of (sheet_of self.now.sheet) (winner (register_of self.now.register) (sheet_of self.now.sheet) key) }
    {
        let mut lead = None;
        for i in 0..self.sheet.set_count() {
            if self.claims(i, key) {
                lead = earlier_of(lead, mark_of(&self.sheet, &self.sheet.set(i)));
            }
        }
        lead
    }

    // The first key of a set that it does not win.
    fn lost_key(&self, set: &WriteSet) -> Option<u32>
        ensures { result ≡ lost_key (register_of self.now.register) (sheet_of self.now.sheet) (set_of set.now) }
    {
        (0..set.record_count())
            .map(|j| set.record_key(j))
            .find(|&key| !won_by(self.winner(key), set.csn()))
    }

    // The table of lost keys. An unfit set wins nothing, so just those that commit have none.
    fn find_lost(&self, lost: &mut Table)
        ensures { Tells (lost_key (register_of self.now.register) (sheet_of self.now.sheet)) (sheet_of self.now.sheet) (keys_of lost.new) }
    {
        fill(lost, &self.sheet, |set| self.lost_key(set))
    }
}

// A register and a sheet, with both tables: what is found wrong in each set, and what each set loses.
#[derive(Clone, Copy)]
pub struct Judged<'a> {
    pub register: Register<'a>,
    pub sheet: Sheet<'a>,
    pub wrong: &'a Table,
    pub lost: &'a Table,
    ghost tells_wrong: { Tells (wrong_key (register_of register)) (sheet_of sheet) (keys_of wrong.now) },
    ghost tells_lost: { Tells (lost_key (register_of register) (sheet_of sheet)) (sheet_of sheet) (keys_of lost.now) },
}

impl<'a> Judged<'a> {
    // The tables are filled where they stand, whatever they held.
    pub fn new(
        register: Register<'a>,
        sheet: Sheet<'a>,
        wrong: &'a mut Table,
        lost: &'a mut Table,
    ) -> Judged<'a>
        ensures register { register_of result.register ≡ register_of register.entry }
        ensures sheet { sheet_of result.sheet ≡ sheet_of sheet.entry }
    {
        find_wrong(&register, &sheet, wrong);
        let wrong: &'a Table = wrong;
        let claims = Claims {
            register,
            sheet,
            wrong,
        };
        claims.find_lost(lost);
        Judged {
            register,
            sheet,
            wrong,
            lost,
        }
    }
}
