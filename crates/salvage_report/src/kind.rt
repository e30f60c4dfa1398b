// What an entry of the report is of, and the byte that stands for it.
ghost use Rattle.salvage_report.specs.Kinds.{StandsFor};

// "0 a slot that isn't kept, 1 N, 2 H, 3 the offset, 4 next, 5 bytes 10-15".
#[derive(Clone, Copy, Debug, PartialEq, Eq)]
pub enum Kind {
    Slot = 0,
    Slots = 1,
    Held = 2,
    Offset = 3,
    Next = 4,
    Rest = 5,
}

// A byte that stands for no kind.
#[derive(Clone, Copy, Debug, PartialEq, Eq)]
pub struct UnknownKind(pub u8);

impl TryFrom<u8> for Kind {
    type Error = UnknownKind;

    ghost try_from_gives = { StandsFor };

    fn try_from(byte: u8) -> Result<Self, UnknownKind> {
        match byte {
            0 => Ok(Kind::Slot),
            1 => Ok(Kind::Slots),
            2 => Ok(Kind::Held),
            3 => Ok(Kind::Offset),
            4 => Ok(Kind::Next),
            5 => Ok(Kind::Rest),
            _ => Err(UnknownKind(byte)),
        }
    }
}
