// What the operations answer. The documents' numbers for each case are the definitions in specs/Answers.antt.
ghost use Rattle.std.specs.Prelude.{◌≡◌};
ghost use Rattle.rules.specs.Answers.{refusal_number, reason_number, verdict_code, verdict_key};

// A variant for each row of 'What is refused', and for each refusal of document 02, by its number.
#[derive(Clone, Copy, Debug, PartialEq, Eq)]
pub enum Refusal {
    RegisterIllFormed = 1,
    SheetIllFormed = 2,
    OfferIllFormed = 3,
    WrongEpoch = 4,
    WrongRoster = 5,
    Spoiled = 6,
    Incomplete = 7,
    TooManyRows = 8,
    BufferShort = 9,
    CheckIllFormed = 10,
    BadTag = 11,
    KeyEntered = 12,
    NinthRecord = 13,
}

impl From<Refusal> for u32 {
    ghost from_gives = { λ x n. n ≡ refusal_number x };

    fn from(x: Refusal) -> u32 {
        x as u32
    }
}

// Of a closing that is not refused: the lengths of the next register and of the verdicts.
#[derive(Clone, Copy)]
pub struct Closed {
    pub register: usize,
    pub verdicts: usize,
}

// Why the read check fails an entry.
#[derive(Clone, Copy, Debug, PartialEq, Eq)]
pub enum Reason {
    Gone = 1,
    OtherCsn = 2,
    TooNew = 3,
}

impl From<Reason> for u32 {
    ghost from_gives = { λ x n. n ≡ reason_number x };

    fn from(x: Reason) -> u32 {
        x as u32
    }
}

// Of a read check that does not pass: the first failing entry's index and key, and why.
#[derive(Clone, Copy)]
pub struct Failure {
    pub index: u32,
    pub key: u32,
    pub reason: Reason,
}

// Of one set at closing, with the smallest key lost or found wrong.
#[derive(Clone, Copy)]
pub enum Verdict {
    Commit,
    Lost(u32),
    Unfit(u32),
}

// Two numbers, and no From: a pair would only be taken apart where it is written.
impl Verdict {
    pub fn code(self) -> u8
        ensures { result ≡ verdict_code self }
    {
        match self {
            Verdict::Commit => 1,
            Verdict::Lost(_) => 2,
            Verdict::Unfit(_) => 3,
        }
    }

    pub fn key(self) -> u32
        ensures { result ≡ verdict_key self }
    {
        match self {
            Verdict::Commit => 0,
            Verdict::Lost(key) | Verdict::Unfit(key) => key,
        }
    }
}
