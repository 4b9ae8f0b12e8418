// The records of a set: an offered set's bytes, and a body in a sheet.
ghost use Rattle.std.specs.Prelude.{◌≡◌, ◌+◌, ◌*◌, ◌≤◌, length};
ghost use Rattle.rules.specs.Lists.{◌and◌};
ghost use Rattle.rules.specs.Sheet.{are_records, offered_records, is_kind, sound_value};
ghost use Rattle.examine.specs.SheetForm.{record_ok, body_ok};

use rules::{Kind, MAX_RECORDS};
use words::Word;

// How long a record is.
pub const RECORD: usize = 16;

// Whether a kind is one, and a value one that it may have. The kind is a byte, since it is only now examined.
#[tactic(auto, using(std::proofs::lemmas::Bool::Decides::nat_tests), unfolding(rules::specs::Sheet::is_kind, rules::specs::Sheet::sound_value, rules::specs::Numbers::fits, rules::specs::Lists::run_lists))]
pub fn kind_and_value_ok(kind: u8, value: u64) -> bool
    ensures { result ≡ is_kind kind and sound_value kind value }
{
    match Kind::try_from(kind) {
        Ok(Kind::Delete) => value == 0,
        Ok(_) => true,
        Err(_) => false,
    }
}

// Whether the record at a place is in order; prev is the key before it in its set, or 0. Here and in body_ok the bytes are the whole form's,
// by whose places the definitions go: a slice cut for each record would be no plainer.
#[tactic(auto, using(std::proofs::lemmas::Bool::Decides::nat_tests), unfolding(crate::specs::SheetForm::record_ok, crate::specs::SheetForm::zeros, rules::specs::Sheet::is_kind, rules::specs::Sheet::sound_value, rules::specs::Numbers::fits, rules::specs::Lists::run_lists))]
fn record_ok(b: &[u8], at: usize, prev: u32) -> bool
    requires { at + 16 ≤ length b.now }
    ensures { result ≡ record_ok prev b.now at }
{
    b[at + 1] == 0
        && b[at + 2] == 0
        && b[at + 3] == 0
        && prev < u32::get(b, at + 4)
        && kind_and_value_ok(b[at], u64::get(b, at + 8))
}

// Whether the n records from a place on are a set's.
pub fn body_ok(b: &[u8], at: usize, n: usize) -> bool
    requires { at + 16 * n ≤ length b.now }
    ensures { result ≡ body_ok n 0 b.now at }
{
    let mut prev = 0;
    for i in 0..n {
        let place = at + RECORD * i;
        if !record_ok(b, place, prev) {
            return false;
        }
        prev = u32::get(b, place + 4);
    }
    true
}

// Whether the bytes are the records of a set that can be offered.
#[tactic(auto, using(crate::proofs::RecordsBy::are_records_lem, std::proofs::lemmas::Bool::Decides::nat_tests), unfolding(crate::specs::SheetForm::records_ok, rules::specs::Lists::run_lists))]
pub fn are_records(b: &[u8]) -> bool
    ensures { result ≡ are_records b.now }
{
    let n = b.len() / RECORD;
    b.len() % RECORD == 0 && 1 <= n && n <= MAX_RECORDS as usize && body_ok(b, 0, n)
}

// How many records an offered set has.
#[tactic(auto, using(laws::specs::SheetLaws::records_count), unfolding(rules::specs::Sheet::offered_records))]
pub fn offered_count(b: &[u8]) -> usize
    ensures { result ≡ length (offered_records b.now) }
{
    b.len() / RECORD
}
