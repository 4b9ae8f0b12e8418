// Reading: each form is examined as soon as it is read. A file is a descriptor, since the kit's read_full tells how much came, and
// takes a read that fails or is interrupted for the input's end; std's read_exact tells nothing, and tries again. The
// buffers are slices as long as a form may be: an array would ask more of whoever has a slice.
ghost use Rattle.std.specs.Prelude.{◌≡◌, IfSome, length};
ghost use Rattle.rules.specs.Sheet.{is_sheet};
ghost use Rattle.rules.specs.Refused.{sheet_room, register_room};
ghost use Rattle.input.specs.Reading.{Holds, RegisterIn, CameIn};

use forms::{
    REGISTER_HEAD, SHEET_HEAD, contents_length, is_register, is_sheet, register_length,
    sheet_length,
};
use rules::Refusal;
use std::os::fd::RawFd;

// Fills buf, or else the input has ended.
fn fill(file: RawFd, buf: &mut [u8]) -> Option<()> {
    (io::read_full(file, buf) == buf.len()).then_some(())
}

// How long the register is that came, if one did.
#[tactic(auto, using(registers::specs::RegisterLength::told_within))]
pub fn read_register(file: RawFd, buf: &mut [u8]) -> Option<usize>
    requires { length buf.old ≡ register_room }
    ensures { RegisterIn result buf.new }
{
    fill(file, &mut buf[..REGISTER_HEAD])?;
    let len = register_length(buf)?;
    fill(file, &mut buf[REGISTER_HEAD..len])?;
    is_register(&buf[..len]).then_some(len)
}

// How long the sheet is whose head has come, if the rest comes and it is one.
#[tactic(auto, using(sheets::specs::LengthLaws::told_within))]
fn read_contents(file: RawFd, buf: &mut [u8]) -> Option<usize>
    requires { length buf.old ≡ sheet_room }
    ensures { IfSome result (Holds is_sheet buf.new) }
{
    let end = contents_length(buf)?;
    fill(file, &mut buf[SHEET_HEAD..end])?;
    let len = sheet_length(buf)?;
    // No contract says what reading left of the head, so both bounds are tested.
    fill(file, buf.get_mut(end..len)?)?;
    is_sheet(&buf[..len]).then_some(len)
}

// How long the sheet is that came; none where the input had ended before it.
pub fn read_sheet(file: RawFd, buf: &mut [u8]) -> Result<Option<usize>, Refusal>
    requires { length buf.old ≡ sheet_room }
    ensures { CameIn result buf.new }
{
    match io::read_full(file, &mut buf[..SHEET_HEAD]) {
        0 => Ok(None),
        SHEET_HEAD => match read_contents(file, buf) {
            Some(len) => Ok(Some(len)),
            None => Err(Refusal::SheetIllFormed),
        },
        _ => Err(Refusal::SheetIllFormed),
    }
}
