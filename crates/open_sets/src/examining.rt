// Whether a struct is an open set, and how many bytes of it are offered.
ghost use Rattle.std.specs.Prelude.{◌≡◌, length, leb, eqb};
ghost use Rattle.rules.specs.Lists.{all};
ghost use Rattle.rules.specs.Sheet.{max_records};
ghost use Rattle.rules.specs.OpenSet.{is_open_set, open_records, offered_bytes};

use examine::are_records;
use rules::{MAX_RECORDS, OpenSet};

// Whether all bytes are zero. Over std's `all` typing eight records takes half as long again: the compiler then tests byte by byte.
fn are_zero(b: &[u8]) -> bool
    ensures { result ≡ all (λ x. eqb x 0) b.now }
{
    for i in 0..b.len() {
        if b[i] != 0 {
            return false;
        }
    }
    true
}

// At most eight records, zeros behind them, and in front of these the bytes of a set, unless there is none.
#[tactic(auto, using(crate::proofs::OpenLaws::open_tests, std::proofs::lemmas::Bool::Decides::nat_tests))]
pub fn is_open_set(set: OpenSet) -> bool
    ensures { result ≡ is_open_set set }
{
    if set.count > MAX_RECORDS {
        return false;
    }
    let (records, rest) = set.records.split_at(16 * set.count as usize);
    are_zero(rest) && (set.count == 0 || are_records(records))
}

// Whether it has as many records as a set may have.
#[tactic(auto, using(laws::specs::OpenSets::open_count, std::proofs::lemmas::Bool::Decides::nat_tests))]
pub fn is_full(set: OpenSet) -> bool
    ensures { result ≡ leb max_records (length (open_records set)) }
{
    set.count >= MAX_RECORDS
}

// How many bytes are offered: those of the records, or none where it is no open set.
#[tactic(auto, using(crate::proofs::OpenLaws::offered_long, crate::proofs::OpenLaws::offered_short))]
pub fn offered_length(set: OpenSet) -> usize
    ensures { result ≡ length (offered_bytes set) }
{
    if is_open_set(set) {
        16 * set.count as usize
    } else {
        0
    }
}
