// An open set with a record more, in key order.
ghost use Rattle.std.specs.Prelude.{◌≡◌, true, ◌+◌, ◌<◌, ◌≤◌, length};
ghost use Rattle.words.specs.Words.{stored};
ghost use Rattle.rules.specs.Sheet.{record_bytes, records_bytes, offered_records};
ghost use Rattle.rules.specs.OpenSet.{is_open_set, open_records, open_set_of, empty_set, put_record};

use crate::reading::place;
use rules::{OpenSet, Record};
use words::{Word, copy};

// A record's 16 bytes: its kind and three zero bytes are one word.
fn put_record(out: &mut [u8], at: usize, record: Record)
    requires { at + 16 ≤ length out.old }
    ensures { out.new ≡ stored out.old at (record_bytes «record») }
{
    u32::from(record.kind).put(out, at);
    record.key.put(out, at + 4);
    record.value.put(out, at + 8);
}

// These records, and among them one more where its key has its place.
#[tactic(auto, using(crate::proofs::AmongLaws::place_in))]
fn put_among(out: &mut [u8], records: &[u8], record: Record)
    requires { (length records.now + 16 ≤ length out.old) × (records.now ≡ records_bytes (offered_records records.now)) }
    ensures { out.new ≡ stored out.old 0 (records_bytes (put_record «record» (offered_records records.now))) }
{
    let at = 16 * place(records, record.key);
    copy(records, 0, at, out, 0);
    put_record(out, at, record);
    copy(records, at, records.len() - at, out, at + 16);
}

// The open set with no record.
pub fn empty_set() -> OpenSet
    ensures { result ≡ empty_set }
{
    OpenSet {
        count: 0,
        records: [0; 128],
    }
}

#[tactic(auto, using(crate::proofs::OpenLaws::few_records))]
pub fn with_record(set: OpenSet, record: Record) -> OpenSet
    requires { (is_open_set set ≡ true) × (length (open_records set) < 8) }
    ensures { result ≡ open_set_of (put_record «record» (open_records set)) }
{
    let mut records = [0; 128];
    put_among(
        &mut records,
        &set.records[..16 * set.count as usize],
        record,
    );
    OpenSet {
        count: set.count + 1,
        records,
    }
}
