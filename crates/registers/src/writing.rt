// A register written row by row into a lent buffer: begun for a number of rows, each row put behind the last, and ended. Nobody else
// knows where a row lies.
ghost use Rattle.std.specs.Prelude.{◌≡◌, [], ◌∷◌, ◌+◌, ◌≤◌, ◌<◌, length};
ghost use Rattle.words.specs.Words.{stored};
ghost use Rattle.rules.specs.Register.{max_rows, row_bytes};
ghost use Rattle.registers.specs.RegisterForm.{register_length};

use crate::register::place_of;
use rules::Row;
use words::Word;

// A register that is being written: how many rows it is to have, and how many are put.
#[derive(Clone, Copy)]
pub struct Draft {
    pub rows: usize,
    pub put: usize,
}

impl Draft {
    // The length of the register, once all its rows are put.
    #[tactic(auto, unfolding(crate::specs::RegisterForm::register_length))]
    pub fn finish(self) -> usize
        requires { self.rows ≤ max_rows }
        ensures { result ≡ register_length self.rows }
    {
        place_of(self.rows)
    }
}

// A draft and the buffer that is lent for it, which has room for the register.
#[derive(Drop)]
pub struct Writing<'a> {
    pub out: &'a mut [u8],
    pub draft: Draft,
    ghost few: { draft.rows ≤ max_rows },
    ghost room: { register_length draft.rows ≤ length out.now },
}

#[tactic(auto, unfolding(crate::specs::RegisterForm::register_length))]
impl<'a> Writing<'a> {
    ghost use Rattle.registers.specs.RegisterWriting.{RowsPut, RowsWritten};

    // A register of so many rows is begun: its head.
    pub fn start(out: &'a mut [u8], snapshot: u32, rows: usize) -> Writing<'a>
        requires { (rows ≤ max_rows) × (register_length rows ≤ length out.old) }
        ensures lent { result.out.ghost_name ≡ out.entry.ghost_name }
        ensures begun { (result.draft.rows ≡ rows) × RowsPut snapshot [] out.old result.draft result.out.now }
    {
        snapshot.put(out, 0);
        (rows as u32).put(out, 4);
        let draft = Draft { rows, put: 0 };
        Writing { out, draft }
    }

    // One row more.
    pub fn put(&mut self, row: Row)
        requires { self.old.draft.put < self.old.draft.rows }
        ensures { RowsWritten (row ∷ []) self.old self.new }
    {
        store_row(self.out, place_of(self.draft.put), row);
        self.draft.put += 1;
    }

    // The length of the register, once all its rows are put.
    pub fn finish(self) -> usize
        ensures stands { self.exit.0.now ≡ self.entry.out.now }
        ensures long { result ≡ register_length self.entry.draft.rows }
    {
        let Writing { out: _, draft } = self;
        draft.finish()
    }
}

// The bytes of a row, from a place on.
#[tactic(auto, using(crate::proofs::RowsStored::row_stored))]
fn store_row(out: &mut [u8], at: usize, row: Row)
    requires { at + 28 ≤ length out.old }
    ensures { out.new ≡ stored out.old at (row_bytes row) }
{
    row.key.put(out, at);
    row.value.put(out, at + 4);
    row.mark.cen.put(out, at + 12);
    row.mark.sen.put(out, at + 16);
    row.mark.csn.put(out, at + 20);
}
