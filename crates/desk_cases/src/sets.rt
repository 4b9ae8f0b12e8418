// The open set in a case: the 4 bytes of its count, then those of its records.
use printing::Shown;
use rules::OpenSet;
use std::fmt;
use words::Word;

const COUNT_LENGTH: usize = 4;

const SET_LENGTH: usize = 132;

// The open set of an input, as if zeros followed it.
pub fn set_of(input: &[u8]) -> OpenSet {
    let n = SET_LENGTH.min(input.len());
    let mut bytes = [0u8; SET_LENGTH];
    bytes[..n].copy_from_slice(&input[..n]);
    let mut records = [0u8; 128];
    records.copy_from_slice(&bytes[COUNT_LENGTH..]);
    OpenSet {
        count: u32::get(&bytes, 0),
        records,
    }
}

// The bytes of an open set.
fn bytes_of(set: OpenSet) -> [u8; SET_LENGTH] {
    let mut bytes = [0u8; SET_LENGTH];
    bytes[..COUNT_LENGTH].copy_from_slice(&set.count.to_le_bytes());
    bytes[COUNT_LENGTH..].copy_from_slice(&set.records);
    bytes
}

// An open set, shown by its bytes.
#[derive(Clone, Copy)]
pub struct SetShown(pub OpenSet);

impl fmt::Display for SetShown {
    fn fmt<W: fmt::Write>(&self, f: &mut fmt::Formatter<W>) -> fmt::Result {
        write!(f, "{}", Shown(&bytes_of(self.0)))
    }
}
