// The read check, over two lists and over a lent list of entries.
// A head may be longer than its 64 bytes, so it is a slice, and each function asks for them.
ghost use Rattle.std.specs.Prelude.{◌≤◌, ◌<◌, length};
ghost use Rattle.cases.specs.Case.{case_head};

use cases::{FIRST_NUMBER, SECOND_NUMBER};
use printing::Refused;
use rules::{Failure, Read, Refusal};
use std::{array, fmt};
use words::Word;

// How many keys or csns of an input are taken, more than a check allows.
const MOST_ENTRIES: usize = 40;

// What the read check answered.
#[derive(Clone, Copy)]
pub struct Checked(Result<Option<Failure>, Refusal>);

impl fmt::Display for Checked {
    fn fmt<W: fmt::Write>(&self, f: &mut fmt::Formatter<W>) -> fmt::Result {
        match self.0 {
            Ok(None) => write!(f, "pass"),
            Ok(Some(Failure { index, key, reason })) => {
                write!(f, "fails")?;
                write!(f, " {index} {key} {}", u32::from(reason))
            }
            Err(x) => write!(f, "{}", Refused(x)),
        }
    }
}

// Word i of an input of words of N bytes, as if zeros followed it.
fn word_at<const N: usize>(input: &[u8], i: usize) -> [u8; N]
    requires { 0 < N }
{
    let mut word = [0; N];
    if let Some(bytes) = input.chunks_exact(N).nth(i) {
        word.copy_from_slice(bytes);
    }
    word
}

// Key i and csn i of an input.
fn key_at(keys: &[u8], i: usize) -> u32 {
    u32::from_le_bytes(word_at(keys, i))
}

fn csn_at(csns: &[u8], i: usize) -> u64 {
    u64::from_le_bytes(word_at(csns, i))
}

pub fn run_check(head: &[u8], register: &[u8], keys: &[u8], csns: &[u8]) -> Checked
    requires { case_head ≤ length head.now }
{
    let k: [u32; MOST_ENTRIES] = array::from_fn(|i| key_at(keys, i));
    let c: [u64; MOST_ENTRIES] = array::from_fn(|i| csn_at(csns, i));
    let n = MOST_ENTRIES.min(keys.len() / 4);
    let m = MOST_ENTRIES.min(csns.len() / 8);
    let lsn = u32::get(head, SECOND_NUMBER);
    Checked(merge::check(register, head[FIRST_NUMBER], lsn, &k[..n], &c[..m]))
}

// A list has three entries.
pub fn run_list(head: &[u8], register: &[u8], keys: &[u8], csns: &[u8]) -> Checked
    requires { case_head ≤ length head.now }
{
    let entries: [Read; 3] = array::from_fn(|i| Read {
        key: key_at(keys, i),
        csn: csn_at(csns, i),
    });
    let lsn = u32::get(head, SECOND_NUMBER);
    Checked(merge::check_reads(register, head[FIRST_NUMBER], lsn, &entries))
}
