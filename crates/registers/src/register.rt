// The register: a head of 8 bytes and rows of 28. Whether bytes are one, and what it holds.
ghost use Rattle.std.specs.Prelude.{◌≡◌, true, ◌+◌, ◌≤◌, ◌<◌, length};
ghost use Rattle.rules.specs.Register.{row_in, is_register};
ghost use Rattle.registers.specs.RegisterReadings.{row_at};
ghost use Rattle.registers.specs.RegisterForm.{place_of, in_order, length_from};

use rules::{MAX_ROWS, Mark, Refusal, Row};
use words::Word;

// How many bytes of a stream tell how long its register is.
pub const REGISTER_HEAD: usize = 8;

const ROW: usize = 28;

// Where row i starts, and how long a register of i rows is.
pub fn place_of(i: usize) -> usize
    requires { place_of i ≤ usize.MAX }
    ensures { result ≡ place_of i }
{
    REGISTER_HEAD + ROW * i
}

// How long the register is that starts with these bytes, from its head.
#[tactic(auto, using(std::proofs::lemmas::Bool::Decides::nat_tests), unfolding(crate::specs::RegisterForm::length_from, rules::specs::Lists::run_lists))]
pub fn register_length(head: &[u8]) -> Option<usize>
    ensures { result ≡ length_from head.now }
{
    if head.len() < REGISTER_HEAD {
        return None;
    }
    let n = u32::get(head, 4) as usize;
    (n <= MAX_ROWS).then(|| place_of(n))
}

// Whether row i is in order, behind a row of the key prev.
#[tactic(auto, using(std::proofs::lemmas::Bool::Decides::nat_tests), unfolding(crate::specs::RegisterForm::in_order, rules::specs::Lists::run_lists))]
fn in_order(b: &[u8], i: usize, prev: u32, snapshot: u32) -> bool
    requires { place_of (i + 1) ≤ length b.now }
    ensures { result ≡ in_order b.now i prev snapshot }
{
    let at = place_of(i);
    let cen = u32::get(b, at + 12);
    prev < u32::get(b, at) && cen <= snapshot && u32::get(b, at + 16) <= cen
}

// Whether the bytes are a register: the length, and each row. Not taken into its callers: there the jumps out of the loop became long ones,
// and a full register took 1.38 times as long.
#[inline(never)]
pub fn is_register(b: &[u8]) -> bool
    ensures { result ≡ is_register b.now }
{
    if register_length(b) != Some(b.len()) {
        return false;
    }
    let snapshot = u32::get(b, 0);
    let mut prev = 0;
    for i in 0..u32::get(b, 4) as usize {
        if !in_order(b, i, prev, snapshot) {
            return false;
        }
        prev = u32::get(b, place_of(i));
    }
    true
}

// Bytes that are a register.
#[derive(Clone, Copy)]
pub struct Register<'a> {
    pub bytes: &'a [u8],
    ghost examined: { is_register bytes.now ≡ true },
}

#[tactic(auto, using(crate::proofs::RegisterBy::readings))]
impl<'a> Register<'a> {
    ghost use Rattle.registers.specs.Views.{Examined, register_of};

    // The bytes as a register, or refused: they are ill-formed.
    pub fn examine(bytes: &'a [u8]) -> Result<Register<'a>, Refusal>
        ensures { Examined bytes.now result }
    {
        if !is_register(bytes) {
            return Err(Refusal::RegisterIllFormed);
        }
        Ok(Register { bytes })
    }

    pub fn snapshot(&self) -> u32
        ensures { result ≡ (register_of self.now).snapshot }
    {
        u32::get(self.bytes, 0)
    }

    pub fn row_count(&self) -> usize
        ensures { result ≡ length (register_of self.now).rows }
    {
        u32::get(self.bytes, 4) as usize
    }

    pub fn row_key(&self, i: usize) -> u32
        requires { i < length (register_of self.now).rows }
        ensures { result ≡ (row_at (register_of self.now) i).key }
    {
        u32::get(self.bytes, place_of(i))
    }

    // Row i, counted from 0.
    pub fn row(&self, i: usize) -> Row
        requires { i < length (register_of self.now).rows }
        ensures { result ≡ row_at (register_of self.now) i }
    {
        row_from(self.bytes, place_of(i))
    }
}

// The row whose bytes start at a place in the register: words are read by places.
#[tactic(auto, unfolding(rules::specs::Register::row_in))]
fn row_from(b: &[u8], at: usize) -> Row
    requires { at + 28 ≤ length b.now }
    ensures { result ≡ row_in b.now at }
{
    Row {
        key: u32::get(b, at),
        value: u64::get(b, at + 4),
        mark: Mark::new(
            u32::get(b, at + 12),
            u32::get(b, at + 16),
            u64::get(b, at + 20),
        ),
    }
}
