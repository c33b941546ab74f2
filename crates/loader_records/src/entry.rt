// An entry of a list, 57 bytes: what its data is called, where it stands in the file, and how long to wait after it.
ghost use Rattle.std.specs.Prelude.{◌≡◌};
ghost use Rattle.loader_records.specs.Records.{name_of, entry_of, no_entry, read_entry};
ghost use Rattle.loader_records.specs.Refusals.{no_tag, ReadMeets};

use crate::answer::RkBootError;
use protocol_bytes::order::{u16_from_le_bytes, u32_from_le_bytes};

// Total size of an entry.
pub const RK_BOOT_ENTRY_BYTES: usize = 57;

#[derive(Clone, Copy, Debug, PartialEq, Eq)]
pub struct RkBootEntry {
    // of this entry
    pub size: u8,
    pub type_: u32,
    // UTF-16
    pub name: [u16; 20],
    // where its data stands in the file, and how much of it there is
    pub data_offset: u32,
    pub data_size: u32,
    // milliseconds to wait after the data was uploaded
    pub data_delay: u32,
}

// Stays a record beside its answer: `ReadMeets` tells zeros at a refusal.
#[derive(Clone, Copy, Debug, PartialEq, Eq)]
pub struct RkBootEntryRead {
    pub answer: Result<(), RkBootError>,
    pub entry: RkBootEntry,
}

fn name_of(b: &[u8; 57]) -> [u16; 20]
    ensures { result ≡ name_of b.now }
{
    let mut name = [0; 20];
    // Stays a `for` by places: with `array::from_fn` the proof has to ask each of twenty calls what it gave.
    for i in 0..20 {
        name[i] = u16_from_le_bytes([b[5 + 2 * i], b[6 + 2 * i]]);
    }
    name
}

fn entry_of(b: &[u8; 57]) -> RkBootEntry
    ensures { result ≡ entry_of b.now }
{
    RkBootEntry {
        size: b[0],
        type_: u32_from_le_bytes([b[1], b[2], b[3], b[4]]),
        name: name_of(b),
        data_offset: u32_from_le_bytes([b[45], b[46], b[47], b[48]]),
        data_size: u32_from_le_bytes([b[49], b[50], b[51], b[52]]),
        data_delay: u32_from_le_bytes([b[53], b[54], b[55], b[56]]),
    }
}

impl RkBootEntry {
    // What stands where no entry was read.
    pub fn none() -> RkBootEntry
        ensures { result ≡ no_entry }
    {
        RkBootEntry {
            size: 0,
            type_: 0,
            name: [0; 20],
            data_offset: 0,
            data_size: 0,
            data_delay: 0,
        }
    }

    pub fn from_bytes(bytes: &[u8]) -> RkBootEntryRead
        ensures { ReadMeets result.answer result.entry no_tag no_entry (read_entry bytes.now) }
    {
        let Some(b) = bytes.first_chunk::<RK_BOOT_ENTRY_BYTES>() else {
            return RkBootEntryRead {
                answer: Err(RkBootError::TooShort(bytes.len())),
                entry: RkBootEntry::none(),
            };
        };
        RkBootEntryRead {
            answer: Ok(()),
            entry: entry_of(b),
        }
    }
}
