// The small values that registers, sheets and read lists are made of.
ghost use Rattle.std.specs.Prelude.{◌≡◌, eqb};
ghost use Rattle.rules.specs.Numbers.{untouched};
ghost use Rattle.rules.specs.Sheet.{kind_number, IsKindOf};

use crate::mark::Mark;

// A pay station's row in a register.
#[derive(Clone, Copy)]
pub struct Row {
    pub key: u32,
    pub value: u64,
    pub mark: Mark,
}

impl Row {
    // A row of a register that is first drawn up: no epoch has touched it.
    pub fn untouched(key: u32, value: u64) -> Row
        ensures { result ≡ untouched key value }
    {
        Row {
            key,
            value,
            mark: Mark::FRESH,
        }
    }
}

// What a set does at one key: its kind is a byte, as in a sheet, which says what an unexamined one has too.
#[derive(Clone, Copy, PartialEq, Eq)]
pub struct Record {
    pub kind: u8,
    pub key: u32,
    pub value: u64,
}

// What the kinds of records say.
#[derive(Clone, Copy, PartialEq, Eq)]
pub enum Kind {
    Change = 1,
    Insert = 2,
    Delete = 3,
}

// A byte that is no kind's.
#[derive(Clone, Copy, Debug, PartialEq, Eq)]
pub struct UnknownKind(pub u8);

impl TryFrom<u8> for Kind {
    type Error = UnknownKind;

    ghost try_from_gives = { IsKindOf };

    fn try_from(byte: u8) -> Result<Kind, UnknownKind> {
        match byte {
            1 => Ok(Kind::Change),
            2 => Ok(Kind::Insert),
            3 => Ok(Kind::Delete),
            _ => Err(UnknownKind(byte)),
        }
    }
}

impl Record {
    pub fn is(self, kind: Kind) -> bool
        ensures { result ≡ eqb self.kind (kind_number kind) }
    {
        self.kind == kind as u8
    }
}

// A key that a depot read, and the csn seen with it.
#[repr(C)]
#[derive(Clone, Copy)]
pub struct Read {
    pub key: u32,
    pub csn: u64,
}
