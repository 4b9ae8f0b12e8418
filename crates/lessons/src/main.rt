// The closing program on the inputs of docs/LESSONS.md, and on inputs that end early or are refused: each file's name, and what is
// printed of it.
#![tactic(auto)]

use report::REPORT_ROOM;
use std::fs::File;
use std::os::fd::AsRawFd;

const LESSONS: [&str; 7] = [
    "twice",
    "twice_for_two",
    "clash",
    "clash_turned",
    "claims",
    "claims_turned",
    "half_a_set",
];

// Each ends at the first refusal met: 1, then 2, then those of joining and of closing.
const REFUSED: [&str; 16] = [
    "nothing",
    "register_cut_in_head",
    "register_cut",
    "register_of_1025_rows",
    "register_ill_formed",
    "no_sheet",
    "sheet_cut_in_head",
    "sheet_cut_in_contents",
    "sheet_cut_in_bodies",
    "sheet_of_65_sets",
    "sheet_ill_formed",
    "second_sheet_cut",
    "other_epoch",
    "other_roster",
    "register_of_another_epoch",
    "rows_1025",
];

// The name, the end of its line and the report, each by itself: what cannot be written is not told, and the next write is tried.
fn run_file(rt: &HostRuntime, name: &str) {
    match File::open(rt, name) {
        Ok(file) => {
            let mut out = [0u8; REPORT_ROOM];
            let n = program::run(file.as_raw_fd(), &mut out);
            let _ = rt.write_all(name.as_bytes());
            let _ = rt.println(":");
            let _ = rt.write_all(&out[..n]);
        }
        Err(e) => {
            let _ = eprintln!(rt; "{name}: {e}");
        }
    }
}

fn main(rt: HostRuntime) {
    for name in LESSONS.iter().chain(REFUSED.iter()) {
        run_file(&rt, name);
    }
}
