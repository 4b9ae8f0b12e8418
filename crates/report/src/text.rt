// A text that grows in lent bytes: a word, a number or the end of a line goes behind what is written.
ghost use Rattle.std.specs.Prelude.{◌≡◌, ◌+◌, length};
ghost use Rattle.report.specs.Report.{number_room, field, line_end};

use itoa::Buffer;

// The bytes that are lent, and the place behind what is written. Each writing asks for the room that it takes: a type that had room for a
// whole report would ask more of a refusal's.
#[derive(Drop)]
pub struct Text<'a> {
    pub out: &'a mut [u8],
    pub at: usize,
}

impl<'a> Text<'a> {
    ghost use Rattle.report.specs.Text.{HasRoom, TakesAtMost, Writes};

    pub fn new(out: &'a mut [u8], at: usize) -> Text<'a>
        ensures lent { result.out.ghost_name ≡ out.entry.ghost_name }
        ensures holds { result.out.now ≡ out.old }
        ensures place { result.at ≡ at }
    {
        Text { out, at }
    }

    #[tactic(auto, using(words::specs::WordLaws::part_stored))]
    fn word(&mut self, word: &[u8])
        requires { HasRoom self.old (length word.now) }
        ensures writes { Writes word.now self.old self.new }
        ensures room { TakesAtMost (length word.now) self.old self.new }
    {
        let end = self.at + word.len();
        self.out[self.at..end].copy_from_slice(word);
        self.at = end;
    }

    // A word and the number behind it.
    pub fn field(&mut self, word: &[u8], n: u64)
        requires { HasRoom self.old (length word.now + number_room) }
        ensures writes { Writes (field word.now n) self.old self.new }
        ensures room { TakesAtMost (length word.now + number_room) self.old self.new }
    {
        let mut buffer = Buffer::new();
        let number = buffer.format(n);
        self.word(word);
        self.word(number.as_bytes());
    }

    pub fn end_line(&mut self)
        requires { HasRoom self.old 1 }
        ensures writes { Writes line_end self.old self.new }
        ensures room { TakesAtMost 1 self.old self.new }
    {
        self.word(b"\n");
    }
}
