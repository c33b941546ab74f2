// The last line: that the file is whole, or where it is refused and why.
use crate::text::{Four, list_name};
use deck_io::within;
use loader_records::answer::RkBootError;
use loader_records::entry::RkBootEntry;
use loader_records::header::RkBootHeader;
use loader_records::list::RkBootHeaderEntry;
use loader_walk::walk::{list_at, start_of};
use loader_walk::whole::{EntryCounts, examine};
use rule_number::RuleNumber;
use std::fmt::{self, Display, Formatter};
use std::io::{Result, Write};

// A list, and the entry's number within it.
#[derive(Clone, Copy)]
struct Place(u8, u16);

impl Display for Place {
    fn fmt<W: fmt::Write>(&self, f: &mut Formatter<W>) -> fmt::Result {
        write!(f, "list {}, entry {}", list_name(self.0), self.1)
    }
}

// The list that is refused, and the entry.
fn refused_list(file: &[u8], list: u8) -> RkBootHeaderEntry {
    list_at(RkBootHeader::from_bytes(file).header, list)
}

fn refused_entry(file: &[u8], list: u8, entry: u16) -> RkBootEntry {
    let start = within(start_of(refused_list(file, list), entry), file);
    RkBootEntry::from_bytes(&file[start..]).entry
}

fn print_whole<W: Write>(to: &mut W, counts: EntryCounts) -> Result<()> {
    let all = counts.entry_471 as u64 + counts.entry_472 as u64 + counts.entry_loader as u64;
    writeln!(to, "whole: entries in all: {all}")
}

fn print_refused<W: Write>(
    to: &mut W,
    file: &[u8],
    error: RkBootError,
    tag: [u8; 4],
) -> Result<()> {
    write!(to, "refused: {} in ", error.number())?;
    match error {
        RkBootError::TooShort(length) => writeln!(
            to,
            "the header: the file has {length} bytes, and a header has 102"
        ),
        RkBootError::UnknownTag => writeln!(
            to,
            "the header: the tag is neither BOOT nor LDR and a space, but {}",
            Four(tag)
        ),
        RkBootError::SizeBelowEntry(list, entry) => writeln!(
            to,
            "{}: the list's size field is {}, and an entry has 57 bytes",
            Place(list, entry),
            refused_list(file, list).size
        ),
        RkBootError::EntryPastEnd(list, entry) => writeln!(
            to,
            "{}: it starts at byte {}, and its 57 bytes pass the file's end",
            Place(list, entry),
            start_of(refused_list(file, list), entry)
        ),
        RkBootError::DataPastEnd(list, entry) => {
            let says = refused_entry(file, list, entry);
            writeln!(
                to,
                "{}: its data, at place {} with length {}, passes the file's end",
                Place(list, entry),
                says.data_offset,
                says.data_size
            )
        }
    }
}

pub(crate) fn print_verdict<W: Write>(to: &mut W, file: &[u8]) -> Result<()> {
    let examined = examine(file);
    match examined.answer {
        Ok(counts) => print_whole(to, counts),
        Err(error) => print_refused(to, file, error, examined.unknown_tag),
    }
}
