// What a loader file says, in words: its header, a line for each entry, and at the end whether the file is whole or why it is not.
//
// This is what the program `loader` prints and `try_loader` tries. Its functions promise that they are safe and end.

#![tactic(auto)]

mod entries;
mod header;
mod text;
mod verdict;

use loader_records::header::RkBootHeader;
use std::io::{Result, Write};

// The whole list of a file, up to the first text that cannot be written.
pub fn list<W: Write>(to: &mut W, file: &[u8]) -> Result<()> {
    writeln!(to, "file           {} bytes", file.len())?;
    let read = RkBootHeader::from_bytes(file);
    // the header and the entries, as far as they can be read
    if read.answer.is_ok() {
        header::print_header(to, read.header)?;
        writeln!(to)?;
        entries::print_entries(to, file)?;
    }
    writeln!(to)?;
    verdict::print_verdict(to, file)
}
