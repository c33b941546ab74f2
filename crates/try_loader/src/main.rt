// Loader files listed over `loader_text`: standard input is a good one, and each case puts other bytes at a place of it and takes its first ones.

#![tactic(auto)]

use deck_io::input::read_full;
use deck_io::within;
use loader_text::list;
use std::io::{Result, Write};

// The file's length.
const ALL: usize = 1182;

// Where the header has its tag, its time with the chip behind it, its lists and the sign flag.
const TAG: usize = 0;

const TIME: usize = 14;

const LIST_471: usize = 25;

const LIST_472: usize = 31;

const LIST_LOADER: usize = 37;

const SIGN: usize = 43;

// Where the first entry of the list 471 has its name, and then the place and the length of its data.
const NAME: usize = 107;

const DATA: usize = 147;

// The same of the last entry of the list loader.
const LAST_DATA: usize = 489;

fn put_at(file: &mut [u8], at: usize, new: &[u8]) {
    let from = within(at, file);
    let rest = &mut file[from..];
    if new.len() <= rest.len() {
        rest[..new.len()].copy_from_slice(new);
    }
}

// The file's first bytes, with these in it.
// Stays with its place and its count: they are the case.
fn try_file<W: Write>(
    to: &mut W,
    file: &[u8; 1182],
    at: usize,
    new: &[u8],
    count: usize,
) -> Result<()> {
    writeln!(to, "\n{} other bytes at {at}", new.len())?;
    let mut other = *file;
    put_at(&mut other, at, new);
    let n = within(count, &other);
    list(to, &other[..n])
}

// Where other bytes are put, what they are, and how many bytes are listed.
const CASES: [(usize, &[u8], usize); 24] = [
    // 70 and 71, and the other tag
    (TAG, b"", 0),
    (TAG, b"", 101),
    (TAG, b"boot", ALL),
    (TAG, b"LDR_", 102),
    (TAG, b"LDR ", ALL),
    // 72: a size field of 56, in the second list too, and of 0; a list that is empty, of which nothing else is looked at
    (LIST_471, b"\x02\x66\x00\x00\x00\x38", ALL),
    (LIST_472, b"\x02\xd8\x00\x00\x00\x38", ALL),
    (LIST_LOADER, b"\x03\xff\xff\xff\xff\x00", ALL),
    (LIST_472, b"\x00\xff\xff\xff\xff\x38", ALL),
    (
        LIST_471,
        b"\x00\x00\x00\x00\x00\x00\x00\x00\x00\x00\x00\x00\x00\x00\x00\x00\x00\x00",
        102,
    ),
    // 73: at the first entry, at a later one by a byte, at the largest place
    (TAG, b"", 102),
    (DATA, b"\x00\x00\x00\x00\x00\x00\x00\x00", 215),
    (LIST_LOADER, b"\xff\xff\xff\xff\xff\xff", ALL),
    // 74: by a byte, in each list; data of no length at the file's end and behind it; the largest place and length
    (TAG, b"", 650),
    (TAG, b"", 985),
    (TAG, b"", 1178),
    (TAG, b"", 1177),
    (LAST_DATA, b"\x9e\x04\x00\x00\x00\x00\x00\x00", ALL),
    (LAST_DATA, b"\x9f\x04\x00\x00\x00\x00\x00\x00", ALL),
    (DATA, b"\xff\xff\xff\xff\xff\xff\xff\xff", ALL),
    // a time that is none and a chip of no letters; a flag; names of 20 units and of none
    (TIME, b"\xff\xff\xff\x00\xff\x00\xff\x00\x5c\x7f\xff", ALL),
    (SIGN, b"S\x00", ALL),
    (
        NAME,
        b"\x5c\x00 \x00\x7e\x00\x7f\x00\x1f\x00S0\x00\xd8\x80\x00A\x00B\x00C\x00D\x00E\x00F\x00G\x00H\x00I\x00J\x00K\x00L\x00",
        ALL,
    ),
    (NAME, b"\x00\x00", ALL),
];

fn main(rt: HostRuntime) -> Result<()> {
    let mut file = [0u8; 1182];
    let mut output = rt.stdout();
    read_full(&mut rt.stdin(), &mut file)?;
    list(&mut output, &file)?;
    for (at, new, count) in CASES {
        try_file(&mut output, &file, at, new, count)?;
    }
    Ok(())
}
