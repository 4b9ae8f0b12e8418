// The head of a sheet: epoch, roster, state, set count and notices.
ghost use Rattle.std.specs.Prelude.{◌≡◌, ◌≤◌, ◌<◌, length};
ghost use Rattle.words.specs.Words.{word};
ghost use Rattle.rules.specs.Sheet.{in_roster};
ghost use Rattle.examine.specs.SheetForm.{set_count, none_noticed, state_ok, head_ok};

use rules::{MAX_SETS, NO_NOTICE};
use words::Word;

// How long the head is: so many bytes of a stream tell how long head and contents are.
pub const SHEET_HEAD: usize = 24;

// Where the notices start, a byte each.
pub const NOTICES: usize = 8;

// Bytes that may be a sheet: there are enough for its head.
#[derive(Clone, Copy)]
pub struct Candidate<'a> {
    pub bytes: &'a [u8],
    ghost head: { 24 ≤ length bytes.now },
}

#[tactic(auto, using(std::proofs::lemmas::Bool::Decides::nat_tests), unfolding(crate::specs::SheetForm::state_ok, crate::specs::SheetForm::head_ok, rules::specs::Sheet::in_roster, rules::specs::Lists::run_lists))]
impl Candidate<'_> {
    pub fn set_count(&self) -> usize
        ensures { result ≡ set_count self.now.bytes.now }
    {
        self.bytes[7] as usize
    }

    // Whether master m is in the roster.
    pub fn in_roster(&self, m: u32) -> bool
        requires { m < 16 }
        ensures { result ≡ in_roster (word 2 self.now.bytes.now 4) m }
    {
        (u16::get(self.bytes, 4) >> m) % 2 == 1
    }

    // Whether no master has a notice.
    fn no_notices(&self) -> bool
        ensures { result ≡ none_noticed self.now.bytes.now }
    {
        self.bytes[NOTICES..SHEET_HEAD]
            .iter()
            .all(|&notice| notice == NO_NOTICE)
    }

    // Whether the state is sound, or spoiled with no set and no notice.
    fn state_ok(&self) -> bool
        ensures { result ≡ state_ok self.now.bytes.now }
    {
        let state = self.bytes[6];
        state == 0 || state == 1 && self.set_count() == 0 && self.no_notices()
    }

    // Whether the head is in order; the notices are held against the sets later.
    pub fn head_ok(&self) -> bool
        ensures { result ≡ head_ok self.now.bytes.now }
    {
        1 <= u32::get(self.bytes, 0)
            && 1 <= u16::get(self.bytes, 4)
            && self.state_ok()
            && self.set_count() <= MAX_SETS
    }
}
