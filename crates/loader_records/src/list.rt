// One of the header's three lists, 6 bytes: how many entries there are, where the first starts, and how far it is from one to the next.
ghost use Rattle.std.specs.Prelude.{◌≡◌};
ghost use Rattle.loader_records.specs.Records.{list_of, no_list, read_list};
ghost use Rattle.loader_records.specs.Refusals.{no_tag, ReadMeets};

use crate::answer::RkBootError;
use protocol_bytes::order::u32_from_le_bytes;

// Total size of a list.
pub const RK_BOOT_HEADER_ENTRY_BYTES: usize = 6;

#[derive(Clone, Copy, Debug, PartialEq, Eq)]
pub struct RkBootHeaderEntry {
    pub count: u8,
    pub offset: u32,
    pub size: u8,
}

// Stays a record beside its answer: `ReadMeets` tells zeros at a refusal.
#[derive(Clone, Copy, Debug, PartialEq, Eq)]
pub struct RkBootHeaderEntryRead {
    pub answer: Result<(), RkBootError>,
    pub list: RkBootHeaderEntry,
}

pub(crate) fn list_of(b: &[u8; 6]) -> RkBootHeaderEntry
    ensures { result ≡ list_of b.now }
{
    RkBootHeaderEntry {
        count: b[0],
        offset: u32_from_le_bytes([b[1], b[2], b[3], b[4]]),
        size: b[5],
    }
}

impl RkBootHeaderEntry {
    pub fn from_bytes(bytes: &[u8]) -> RkBootHeaderEntryRead
        ensures { ReadMeets result.answer result.list no_tag no_list (read_list bytes.now) }
    {
        let Some(b) = bytes.first_chunk::<RK_BOOT_HEADER_ENTRY_BYTES>() else {
            return RkBootHeaderEntryRead {
                answer: Err(RkBootError::TooShort(bytes.len())),
                list: list_of(&[0; 6]),
            };
        };
        RkBootHeaderEntryRead {
            answer: Ok(()),
            list: list_of(b),
        }
    }
}
