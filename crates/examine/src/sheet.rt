// Examining a sheet.
ghost use Rattle.std.specs.Prelude.{◌≡◌, ◌+◌, ◌<◌, length, get_or};
ghost use Rattle.words.specs.Words.{word};
ghost use Rattle.rules.specs.Lists.{all};
ghost use Rattle.rules.specs.Sheet.{masters, sound_notice, is_sheet};
ghost use Rattle.examine.specs.SheetForm.{set_count, notice_ok, Counted};

use crate::contents::{ENTRY, sets_by};
use crate::head::{Candidate, NOTICES, SHEET_HEAD};
use rules::{MAX_NOTICE, NO_NOTICE};

// Whether master m, which has so many sets, has no notice, or is in the roster, noticed at most 64 and has no more sets than that.
#[tactic(auto, using(std::proofs::lemmas::Bool::Decides::nat_tests), unfolding(rules::specs::Sheet::sound_notice, rules::specs::Lists::run_lists))]
fn notice_ok(sheet: &Candidate, m: usize, sets: u8) -> bool
    requires { m < 16 }
    ensures { result ≡ sound_notice (word 2 sheet.now.bytes.now 4) m (get_or sheet.now.bytes.now (8 + m) 0) sets }
{
    let notice = sheet.bytes[NOTICES + m];
    notice == NO_NOTICE || sheet.in_roster(m as u32) && notice <= MAX_NOTICE && sets <= notice
}

// Whether each master's notice is in order, where its sets are counted.
fn notices_ok(sheet: &Candidate, by: &[u8; 16]) -> bool
    requires { Counted (set_count sheet.now.bytes.now) sheet.now.bytes.now by.now }
    ensures { result ≡ all (notice_ok sheet.now.bytes.now) masters }
{
    (0..16).all(|m| notice_ok(sheet, m, by[m]))
}

// Whether the bytes are a sheet: every rule of document 01's 'Sheet'.
#[tactic(auto, using(crate::proofs::SheetTests::is_sheet_lem, std::proofs::lemmas::Bool::Decides::nat_tests), unfolding(crate::specs::SheetForm::sheet_ok, rules::specs::Lists::run_lists))]
pub fn is_sheet(bytes: &[u8]) -> bool
    ensures { result ≡ is_sheet bytes.now }
{
    if bytes.len() < SHEET_HEAD {
        return false;
    }
    let sheet = Candidate { bytes };
    let n = sheet.set_count();
    if !sheet.head_ok() || bytes.len() < SHEET_HEAD + ENTRY * n {
        return false;
    }
    match sets_by(&sheet, n) {
        Some(by) => notices_ok(&sheet, &by),
        None => false,
    }
}
