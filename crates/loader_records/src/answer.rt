// Why a loader file, or a record of one, can't be read. The four bytes of an unknown tag stand beside it.
ghost use Rattle.loader_records.specs.Refusals.{boot_error_number};

use rule_number::RuleNumber;

#[derive(Clone, Copy, Debug, PartialEq, Eq)]
pub enum RkBootError {
    // 70: how many bytes there are
    TooShort(usize),
    // 71: neither `BOOT` nor `LDR `
    UnknownTag,
    // 72, 73, 74: the list (0 for 471, 1 for 472, 2 for loader) and the entry
    // Stays a number for the list: a walk's list is one.
    SizeBelowEntry(u8, u16),
    EntryPastEnd(u8, u16),
    DataPastEnd(u8, u16),
}

impl RuleNumber for RkBootError {
    ghost rule_number = { boot_error_number };

    fn number(self) -> u8 {
        match self {
            RkBootError::TooShort(_) => 70,
            RkBootError::UnknownTag => 71,
            RkBootError::SizeBelowEntry(_, _) => 72,
            RkBootError::EntryPastEnd(_, _) => 73,
            RkBootError::DataPastEnd(_, _) => 74,
        }
    }
}
