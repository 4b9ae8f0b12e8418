// Runs the cases of the files that its arguments name, and prints a line of each. The layout of a case stands in rust/vectors.
#![tactic(auto)]

mod case;

use case::run_case;
use std::env::{Env, FillError};
use std::fs::File;

// No path is longer.
const PATH_MOST: usize = 4096;

// Every case of an open file. At most 4,294,967,295 are run, so that no file keeps the program for ever.
fn run_cases(rt: &impl Print, file: &mut File) {
    for _ in 0..u32::MAX {
        if !run_case(rt, file) {
            break;
        }
    }
}

fn run_file(rt: &HostRuntime, name: &str) {
    match File::open(rt, name) {
        Ok(mut file) => run_cases(rt, &mut file),
        Err(e) => {
            let _ = eprintln!(rt; "{name}: {e}");
        }
    }
}

// A name that std cannot open, told as one that is not there.
fn tell_unread(rt: &HostRuntime, name: &[u8]) {
    let stderr = rt.stderr();
    let _ = stderr.write_all(name);
    let _ = stderr.println(": not UTF-8");
}

// The file that argument i names. Answers whether there is such an argument; one that is longer than a path may be is taken as empty.
fn run_argument(rt: &HostRuntime, i: usize) -> bool {
    let mut name = [0u8; PATH_MOST];
    match rt.arg(i, &mut name) {
        Ok(n) => match std::str::from_utf8(&name[..n]) {
            Ok(text) => run_file(rt, text),
            Err(_) => tell_unread(rt, &name[..n]),
        },
        Err(FillError::TooLong) => run_file(rt, ""),
        Err(FillError::NotPresent) => return false,
    }
    true
}

fn main(rt: HostRuntime) {
    for i in 1..usize::MAX {
        if !run_argument(&rt, i) {
            break;
        }
    }
}
