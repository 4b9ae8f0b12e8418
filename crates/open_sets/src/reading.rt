// An open set searched: whether a record has a key, and where one with a key has its place.
ghost use Rattle.std.specs.Prelude.{◌≡◌, true};
ghost use Rattle.rules.specs.Sheet.{offered_records};
ghost use Rattle.rules.specs.OpenSet.{is_open_set, open_records, has_key};
ghost use Rattle.open_sets.specs.Before.{records_before};

use rules::OpenSet;
use words::Word;

// Whether one of these records has the key.
fn has(records: &[u8], key: u32) -> bool
    ensures { result ≡ has_key key (offered_records records.now) }
{
    (0..records.len() / 16).any(|i| u32::get(records, 16 * i + 4) == key)
}

#[tactic(auto, using(crate::proofs::OpenLaws::few_records))]
pub fn has_key(set: OpenSet, key: u32) -> bool
    requires { is_open_set set ≡ true }
    ensures { result ≡ has_key key (open_records set) }
{
    has(&set.records[..16 * set.count as usize], key)
}

// How many of these records come before one with the key.
pub fn place(records: &[u8], key: u32) -> usize
    ensures { result ≡ records_before key (offered_records records.now) }
{
    let n = records.len() / 16;
    (0..n)
        .position(|i| key < u32::get(records, 16 * i + 4))
        .unwrap_or(n)
}
