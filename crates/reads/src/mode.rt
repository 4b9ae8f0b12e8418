// The modes of the read check.
ghost use Rattle.reads.specs.Modes.{IsModeOf};

#[derive(Clone, Copy, PartialEq, Eq)]
pub enum Mode {
    ReadCommitted = 1,
    RepeatableRead = 2,
    SnapshotIsolation = 3,
}

// A byte that is no mode's.
#[derive(Clone, Copy, Debug, PartialEq, Eq)]
pub struct UnknownMode(pub u8);

impl TryFrom<u8> for Mode {
    type Error = UnknownMode;

    ghost try_from_gives = { IsModeOf };

    fn try_from(byte: u8) -> Result<Mode, UnknownMode> {
        match byte {
            1 => Ok(Mode::ReadCommitted),
            2 => Ok(Mode::RepeatableRead),
            3 => Ok(Mode::SnapshotIsolation),
            _ => Err(UnknownMode(byte)),
        }
    }
}
