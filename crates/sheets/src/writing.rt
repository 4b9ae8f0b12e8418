// The parts of a sheet, each written exact on every byte. A part asks for the room of its own bytes alone: a type that held the buffer,
// as a register's Writing does, would ask for the whole sheet's room before any part is written.
ghost use Rattle.std.specs.Prelude.{◌≡◌, ◌∷◌, [], ◌+◌, ◌≤◌, ◌<◌, length};
ghost use Rattle.words.specs.Words.{stored};
ghost use Rattle.rules.specs.Sheet.{max_sets, state_byte};
ghost use Rattle.rules.specs.Gathering.{no_notices};
ghost use Rattle.sheets.specs.SheetReadings.{master_count, max_total, notices_place, head_length, entry_place, record_place, sheet_length, start_bytes, entry_bytes};

use examine::{ENTRY, NOTICES, RECORD, SHEET_HEAD};
use rules::NO_NOTICE;
use words::Word;

// The room of the sheet of one offer: a head, one entry, and eight records at most.
pub const ONE_ROOM: usize = 168;

// Epoch, roster, state and set count.
#[tactic(auto, using(crate::proofs::PartsStored::start_stored), unfolding(rules::specs::Sheet::state_byte))]
pub fn put_sheet_start(out: &mut [u8], epoch: u32, roster: u16, spoiled: bool, n: usize)
    requires { (notices_place ≤ length out.old) × (n ≤ max_sets) }
    ensures { out.new ≡ stored out.old 0 (start_bytes epoch roster spoiled n) }
{
    epoch.put(out, 0);
    roster.put(out, 4);
    out[6] = u8::from(spoiled);
    out[7] = n as u8;
}

// The notice byte of master m.
#[tactic(auto, unfolding(words::specs::Words::stored))]
pub fn put_notice(out: &mut [u8], m: usize, notice: u8)
    requires { (head_length ≤ length out.old) × (m < master_count) }
    ensures { out.new ≡ stored out.old (notices_place + m) (notice ∷ []) }
{
    out[NOTICES + m] = notice;
}

// No notice of any master.
#[tactic(auto, using(words::specs::WordLaws::part_stored))]
pub fn put_no_notices(out: &mut [u8])
    requires { head_length ≤ length out.old }
    ensures { out.new ≡ stored out.old notices_place no_notices }
{
    out[NOTICES..SHEET_HEAD].fill(NO_NOTICE);
}

// The notice bytes of all masters.
#[tactic(auto, using(words::specs::WordLaws::part_stored))]
pub fn put_notices(out: &mut [u8], notices: &[u8])
    requires { (head_length ≤ length out.old) × (length notices.now ≡ master_count) }
    ensures { out.new ≡ stored out.old notices_place notices.now }
{
    out[NOTICES..SHEET_HEAD].copy_from_slice(notices);
}

// Entry i of the contents.
#[tactic(auto, using(crate::proofs::PartsStored::entry_stored))]
pub fn put_entry(out: &mut [u8], i: usize, csn: u64, sen: u32, first: usize, count: usize)
    requires { (entry_place (i + 1) ≤ length out.old) × (first + count ≤ max_total) }
    ensures { out.new ≡ stored out.old (entry_place i) (entry_bytes csn sen first count) }
{
    let at = SHEET_HEAD + ENTRY * i;
    csn.put(out, at);
    sen.put(out, at + 8);
    (first as u16).put(out, at + 12);
    (count as u16).put(out, at + 14);
}

// A body, behind n entries and `first` records. By a loop: copy_from_slice would have the archive ask its user for C's memmove.
pub fn put_body(out: &mut [u8], n: usize, first: usize, body: &[u8])
    requires { (n ≤ max_sets) × (first ≤ max_total) × (record_place n first + length body.now ≤ length out.old) }
    ensures { out.new ≡ stored out.old (record_place n first) body.now }
{
    let at = length_with(n, first);
    for i in 0..body.len() {
        out[at + i] = body[i];
    }
}

// The length of a sheet of n sets that have so many records together.
pub fn length_with(n: usize, records: usize) -> usize
    requires { (n ≤ max_sets) × (records ≤ max_total) }
    ensures { result ≡ sheet_length n records }
{
    SHEET_HEAD + ENTRY * n + RECORD * records
}
