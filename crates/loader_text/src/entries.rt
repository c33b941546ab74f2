// A line for each entry.
use crate::text::{Name, list_name};
use loader_records::entry::RkBootEntry;
use loader_walk::walk::{EntryPlace, Walk};
use std::io::{Result, Write};

// Three lists of 255 entries.
const MOST: usize = 765;

fn print_entry<W: Write>(to: &mut W, at: EntryPlace, entry: RkBootEntry) -> Result<()> {
    write!(to, "{:<6}{:>8}", list_name(at.list), at.entry)?;
    write!(
        to,
        "{:>12}{:>12}{:>12}",
        at.place, at.length, entry.data_delay
    )?;
    writeln!(to, "  {}", Name(entry.name))
}

// Up to the end, or to the first that is refused.
pub(crate) fn print_entries<W: Write>(to: &mut W, file: &[u8]) -> Result<()> {
    writeln!(
        to,
        "list     entry       place      length    delay ms  name"
    )?;
    let mut walk = Walk::new();
    // Stays bounded: a proved loop has to end.
    for _ in 0..MOST {
        let step = walk.step(file);
        let Ok(Some(at)) = step.answer else {
            break;
        };
        print_entry(to, at, step.entry)?;
        walk = step.walk;
    }
    Ok(())
}
