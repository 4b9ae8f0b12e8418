// An examined sheet, and what it holds. Each reading says what it means by the sheet that the bytes are, and not by bytes.
ghost use Rattle.std.specs.Prelude.{◌≡◌, true, ◌<◌, length};
ghost use Rattle.rules.specs.Sheet.{in_roster, is_sheet, sheet_in};
ghost use Rattle.sheets.specs.SheetReadings.{notice_at, set_at, master_count};

use crate::set::WriteSet;
use examine::NOTICES;
use rules::Refusal;
use words::Word;

// How many masters there are.
pub const MASTERS: usize = 16;

// Bytes that are a sheet.
#[derive(Clone, Copy)]
pub struct Sheet<'a> {
    pub bytes: &'a [u8],
    ghost examined: { is_sheet bytes.now ≡ true },
}

#[tactic(auto, using(crate::proofs::SheetPlaces::head_readings), unfolding(rules::specs::Sheet::sheet_in, rules::specs::Sheet::in_roster))]
impl<'a> Sheet<'a> {
    ghost use Rattle.sheets.specs.Views.{Examined, sheet_of, set_of};

    // The bytes as a sheet, or refused: they are ill-formed. A trait over this and a register's would be longer than both.
    pub fn examine(bytes: &'a [u8]) -> Result<Sheet<'a>, Refusal>
        ensures { Examined bytes.now result }
    {
        if !examine::is_sheet(bytes) {
            return Err(Refusal::SheetIllFormed);
        }
        Ok(Sheet { bytes })
    }

    pub fn epoch(&self) -> u32
        ensures { result ≡ (sheet_of self.now).epoch }
    {
        u32::get(self.bytes, 0)
    }

    pub fn roster(&self) -> u16
        ensures { result ≡ (sheet_of self.now).roster }
    {
        u16::get(self.bytes, 4)
    }

    // Whether master m is in the roster. Bytes under examination are asked the same in `examine`: what the two share is this expression.
    pub fn in_roster(&self, m: u32) -> bool
        requires { m < master_count }
        ensures { result ≡ in_roster (sheet_of self.now).roster m }
    {
        (self.roster() >> m) % 2 == 1
    }

    pub fn is_spoiled(&self) -> bool
        ensures { result ≡ (sheet_of self.now).spoiled }
    {
        self.bytes[6] == 1
    }

    // What master m noticed, or 255.
    pub fn notice(&self, m: usize) -> u8
        requires { m < master_count }
        ensures { result ≡ notice_at (sheet_of self.now) m }
    {
        self.bytes[NOTICES + m]
    }

    pub fn set_count(&self) -> usize
        ensures { result ≡ length (sheet_of self.now).sets }
    {
        self.bytes[7] as usize
    }

    // Set i, counted from 0.
    pub fn set(&self, i: usize) -> WriteSet<'a>
        requires { i < length (sheet_of self.now).sets }
        ensures { set_of result ≡ set_at (sheet_of self.now) i }
    {
        WriteSet { sheet: *self, i }
    }
}
