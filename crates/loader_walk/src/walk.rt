// A walk over the entries of a lent loader file: list by list, entry by entry.
ghost use Rattle.std.specs.Prelude.{◌≡◌, ◌<◌};
ghost use Rattle.loader_walk.specs.Entries.{list_at, start_of, lookup};
ghost use Rattle.loader_walk.specs.Walking.{new_walk, next_of, WalkMeets};
ghost use Rattle.loader_walk.specs.Code.{stopped, found_step, looked_up_told, SeeksFor};

use loader_records::answer::RkBootError;
use loader_records::entry::{RK_BOOT_ENTRY_BYTES, RkBootEntry};
use loader_records::header::RkBootHeader;
use loader_records::list::RkBootHeaderEntry;

// The header's lists.
const LISTS: u8 = 3;

// Where a walk stands: a list (0 for 471, 1 for 472, 2 for loader), and the entry of it that is looked for next. An entry past its list's last is the
// next list's first, and a list past the third is the end.
// Stays a number for the list, and no enum: a walk is a record of any values (docs/RULES.md).
#[derive(Clone, Copy, Debug, PartialEq, Eq)]
pub struct Walk {
    pub list: u8,
    pub entry: u16,
}

// An entry that was found: its list, its number there, and its data's place and length in the file.
#[derive(Clone, Copy, Debug, PartialEq, Eq)]
pub struct EntryPlace {
    pub list: u8,
    pub entry: u16,
    pub place: usize,
    pub length: usize,
}

#[derive(Clone, Copy, Debug, PartialEq, Eq)]
pub struct WalkStep {
    // the entry's place, none at the end
    pub answer: Result<Option<EntryPlace>, RkBootError>,
    // the entry that was found, zeros otherwise
    pub entry: RkBootEntry,
    // the four bytes of an unknown tag, zeros otherwise
    pub unknown_tag: [u8; 4],
    pub walk: Walk,
}

// The list of this number, an empty one behind the third.
#[tactic(auto, unfolding(crate::specs::Entries::list_at, loader_records::specs::Records::list_of, promise::specs::Bytes::from_low))]
pub fn list_at(header: RkBootHeader, list: u8) -> RkBootHeaderEntry
    ensures { result ≡ list_at header list }
{
    // Stays a number and its `match`: a walk is a record of any values, and behind the third list there is none.
    match list {
        0 => header.entry_471,
        1 => header.entry_472,
        2 => header.entry_loader,
        _ => RkBootHeaderEntry {
            count: 0,
            offset: 0,
            size: 0,
        },
    }
}

// Nothing found: the walk stays where it is.
fn stopped(
    walk: Walk,
    answer: Result<Option<EntryPlace>, RkBootError>,
    unknown_tag: [u8; 4],
) -> WalkStep
    ensures { result ≡ stopped walk answer unknown_tag }
{
    WalkStep {
        answer,
        entry: RkBootEntry::none(),
        unknown_tag,
        walk,
    }
}

// Where an entry of a list starts: below 2^33.
pub fn start_of(list: RkBootHeaderEntry, entry: u16) -> usize
    ensures value { result ≡ start_of list entry }
    ensures upper_bound { result < 8589934592 }
{
    list.offset as usize + (entry as usize) * (list.size as usize)
}

// The entry that stands there, its data in the file.
fn found(at: Walk, entry: RkBootEntry) -> WalkStep
    requires { at.entry < 255 }
    ensures { result ≡ found_step at.list at.entry entry }
{
    WalkStep {
        answer: Ok(Some(EntryPlace {
            list: at.list,
            entry: at.entry,
            place: entry.data_offset as usize,
            length: entry.data_size as usize,
        })),
        entry,
        unknown_tag: [0; 4],
        walk: Walk {
            list: at.list,
            entry: at.entry + 1,
        },
    }
}

// The entry at a place of a list.
fn look_up(file: &[u8], at: Walk, list: RkBootHeaderEntry) -> Result<RkBootEntry, RkBootError>
    requires { at.entry < list.count }
    ensures { looked_up_told at.list at.entry result ≡ lookup file.now at.list list at.entry }
{
    if (list.size as usize) < RK_BOOT_ENTRY_BYTES {
        return Err(RkBootError::SizeBelowEntry(at.list, at.entry));
    }
    let start = start_of(list, at.entry);
    if file.len() < start + RK_BOOT_ENTRY_BYTES {
        return Err(RkBootError::EntryPastEnd(at.list, at.entry));
    }
    let entry = RkBootEntry::from_bytes(&file[start..]).entry;
    if file.len() < (entry.data_offset as usize) + (entry.data_size as usize) {
        return Err(RkBootError::DataPastEnd(at.list, at.entry));
    }
    Ok(entry)
}

impl Walk {
    // At the first entry of the first list.
    pub fn new() -> Walk
        ensures { result ≡ new_walk }
    {
        Walk { list: 0, entry: 0 }
    }

    // The first place at or behind this one that has an entry.
    fn seek(self, header: RkBootHeader) -> Option<Walk>
        ensures { SeeksFor header self result }
    {
        let mut entry = self.entry;
        for list in self.list..LISTS {
            if entry < list_at(header, list).count as u16 {
                return Some(Walk { list, entry });
            }
            entry = 0;
        }
        None
    }

    // The next entry, or the end, or why there is none.
    pub fn step(self, file: &[u8]) -> WalkStep
        ensures { WalkMeets result self (next_of self file.now) }
    {
        let read = RkBootHeader::from_bytes(file);
        if let Err(error) = read.answer {
            return stopped(self, Err(error), read.unknown_tag);
        }
        let header = read.header;
        let Some(at) = self.seek(header) else {
            return stopped(self, Ok(None), [0; 4]);
        };
        match look_up(file, at, list_at(header, at.list)) {
            Ok(entry) => found(at, entry),
            Err(error) => stopped(self, Err(error), [0; 4]),
        }
    }
}
