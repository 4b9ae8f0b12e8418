// How long a sheet is, for a reader of a stream: safe on any bytes.
ghost use Rattle.std.specs.Prelude.{◌≡◌};
ghost use Rattle.sheets.specs.SheetLength.{contents_end, sheet_end};

use examine::{ENTRY, RECORD, SHEET_HEAD};
use rules::MAX_SETS;
use words::Word;

// How long head and contents are of the sheet that starts with these bytes.
#[tactic(auto, using(std::proofs::lemmas::Bool::Decides::nat_tests), unfolding(crate::specs::SheetLength::contents_end, rules::specs::Lists::run_lists))]
pub fn contents_length(b: &[u8]) -> Option<usize>
    ensures { result ≡ contents_end b.now }
{
    if b.len() < SHEET_HEAD {
        return None;
    }
    let n = b[7] as usize;
    (n <= MAX_SETS).then(|| SHEET_HEAD + ENTRY * n)
}

// How long the sheet is that starts with these bytes, if they hold its whole head and contents.
#[tactic(auto, using(crate::proofs::StreamLaws::counts, std::proofs::lemmas::Bool::Decides::nat_tests), unfolding(crate::specs::SheetLength::sheet_end, crate::specs::SheetLength::end_from, crate::specs::SheetLength::contents_end, rules::specs::Lists::run_lists))]
pub fn sheet_length(b: &[u8]) -> Option<usize>
    ensures { result ≡ sheet_end b.now }
{
    let end = contents_length(b)?;
    if b.len() < end {
        return None;
    }
    let mut records = 0;
    for i in 0..b[7] as usize {
        records += u16::get(b, SHEET_HEAD + ENTRY * i + 14) as usize;
    }
    Some(end + RECORD * records)
}
