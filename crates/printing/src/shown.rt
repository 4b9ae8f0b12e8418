// What is shown of an answer and of the bytes that an operation left.
use rules::{Refusal, VERDICT_ROOM};
use std::fmt;

// What every byte of a buffer holds before the call.
pub const FILLED: u8 = 170;

// A refusal, by its number.
#[derive(Clone, Copy)]
pub struct Refused(pub Refusal);

impl fmt::Display for Refused {
    fn fmt<W: fmt::Write>(&self, f: &mut fmt::Formatter<W>) -> fmt::Result {
        write!(f, "refused {}", u32::from(self.0))
    }
}

// The bytes as one number, the first leading, modulo the prime 2^55 − 55: where one byte changes, so does it.
fn sum(bytes: &[u8]) -> u64 {
    let mut s = 0;
    for &b in bytes {
        s = (s * 256 + u64::from(b)) % 36028797018963913;
    }
    s
}

const DIGITS: [u8; 16] = *b"0123456789abcdef";

// A byte by its two hexadecimal digits, which are one word: `{b:02x}` hands them on one by one, and where a write fails one alone would stand.
fn show_byte<W: fmt::Write>(f: &mut fmt::Formatter<W>, b: u8) -> fmt::Result {
    let digits = [DIGITS[usize::from(b / 16)], DIGITS[usize::from(b % 16)]];
    match std::str::from_utf8(&digits) {
        Ok(word) => f.write_str(word),
        Err(_) => Err(fmt::Error),
    }
}

// Every byte by two hexadecimal digits, or the sum of more bytes than verdicts can have.
#[derive(Clone, Copy)]
pub struct Shown<'a>(pub &'a [u8]);

impl fmt::Display for Shown<'_> {
    fn fmt<W: fmt::Write>(&self, f: &mut fmt::Formatter<W>) -> fmt::Result {
        let bytes = self.0;
        if bytes.is_empty() {
            return Ok(());
        }
        if VERDICT_ROOM < bytes.len() {
            return write!(f, " sum {}", sum(bytes));
        }
        write!(f, " ")?;
        for &b in bytes {
            show_byte(f, b)?;
        }
        Ok(())
    }
}

// What an operation left in a buffer: the n bytes that it wrote, and whether it touched more.
#[derive(Clone, Copy)]
pub struct Left<'a>(pub usize, pub &'a [u8]);

impl fmt::Display for Left<'_> {
    fn fmt<W: fmt::Write>(&self, f: &mut fmt::Formatter<W>) -> fmt::Result {
        let Some((wrote, rest)) = self.1.split_at_checked(self.0) else {
            return write!(f, " and more");
        };
        write!(f, "{}", Shown(wrote))?;
        if rest.iter().all(|&b| b == FILLED) {
            Ok(())
        } else {
            write!(f, " and more")
        }
    }
}

// What an operation with one buffer answered, and what it left there.
#[derive(Clone, Copy)]
pub struct Answered<'a>(pub Result<usize, Refusal>, pub &'a [u8]);

impl fmt::Display for Answered<'_> {
    fn fmt<W: fmt::Write>(&self, f: &mut fmt::Formatter<W>) -> fmt::Result {
        match self.0 {
            Ok(n) => write!(f, "wrote {n}{}", Left(n, self.1)),
            Err(x) => write!(f, "{}{}", Refused(x), Left(0, self.1)),
        }
    }
}
