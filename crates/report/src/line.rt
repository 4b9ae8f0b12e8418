// The lines of the report, each exact on every byte. No line is longer than 112 bytes. They are no impl of Display: write! promises its
// text only where it answers Ok, and nothing promises that it does.
ghost use Rattle.std.specs.Prelude.{◌+◌, ◌≤◌, length};
ghost use Rattle.report.specs.Report.{Put, verdict_text_room, mark_text_room, line_room, snapshot_line, verdict_text, set_line, mark_text, row_line, refused_text};

use crate::text::Text;
use rules::{Mark, Row, Verdict};

impl<'a> Text<'a> {
    ghost use Rattle.report.specs.Text.{HasRoom, TakesAtMost, Writes};

    pub fn snapshot_line(&mut self, snapshot: u32, rows: usize)
        requires { HasRoom self.old line_room }
        ensures writes { Writes (snapshot_line snapshot rows) self.old self.new }
        ensures room { TakesAtMost line_room self.old self.new }
    {
        self.field(b"snapshot ", snapshot as u64);
        self.field(b" rows ", rows as u64);
        self.end_line();
    }

    #[tactic(auto, unfolding(crate::specs::Report::verdict_text))]
    fn verdict(&mut self, verdict: Verdict)
        requires { HasRoom self.old verdict_text_room }
        ensures writes { Writes (verdict_text verdict) self.old self.new }
        ensures room { TakesAtMost verdict_text_room self.old self.new }
    {
        match verdict {
            Verdict::Commit => self.field(b" commit ", 0),
            Verdict::Lost(key) => self.field(b" lost ", key as u64),
            Verdict::Unfit(key) => self.field(b" unfit ", key as u64),
        }
    }

    pub fn set_line(&mut self, csn: u64, verdict: Verdict)
        requires { HasRoom self.old line_room }
        ensures writes { Writes (set_line csn verdict) self.old self.new }
        ensures room { TakesAtMost line_room self.old self.new }
    {
        self.field(b"set ", csn);
        self.verdict(verdict);
        self.end_line();
    }

    fn mark(&mut self, mark: Mark)
        requires { HasRoom self.old mark_text_room }
        ensures writes { Writes (mark_text mark) self.old self.new }
        ensures room { TakesAtMost mark_text_room self.old self.new }
    {
        self.field(b" ", mark.cen as u64);
        self.field(b" ", mark.sen as u64);
        self.field(b" ", mark.csn);
    }

    pub fn row_line(&mut self, row: Row)
        requires { HasRoom self.old line_room }
        ensures writes { Writes (row_line row) self.old self.new }
        ensures room { TakesAtMost line_room self.old self.new }
    {
        self.field(b"row ", row.key as u64);
        self.field(b" ", row.value);
        self.mark(row.mark);
        self.end_line();
    }

    pub fn refused(&mut self, number: u32)
        requires { HasRoom self.old line_room }
        ensures writes { Writes (refused_text number) self.old self.new }
        ensures room { TakesAtMost line_room self.old self.new }
    {
        self.field(b"refused ", number as u64);
        self.end_line();
    }
}
