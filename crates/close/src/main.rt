// The closing program on standard input: its text goes to standard output. It takes no handle, and reads and writes by descriptor,
// through the kit's io: std's writing would take one more C function on trust, the one that tells errno.
#![tactic(auto)]

use report::REPORT_ROOM;
use std::os::fd::RawFd;

// The descriptors that every program is started with.
const STANDARD_INPUT: RawFd = 0;

const STANDARD_OUTPUT: RawFd = 1;

const STANDARD_ERROR: RawFd = 2;

fn main() {
    let mut out = [0u8; REPORT_ROOM];
    let n = program::run(STANDARD_INPUT, &mut out);
    if !io::write_all(STANDARD_OUTPUT, &out[..n]) {
        io::write_all(STANDARD_ERROR, b"close: the output could not be written\n");
    }
}
