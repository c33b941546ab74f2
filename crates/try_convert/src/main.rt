// Decks converted over `deck_convert`: standard input is two blocks for the tags 2^32 - 1 and 0, and then a deck of 18 blocks and a part of the next; each
// case begins with it as it was.

#![tactic(auto)]

use deck_convert::Convert;
use deck_io::input::read_full;
use deck_io::within;
use std::io::{Result, Write};

const BLOCK: usize = 512;

// Where the deck starts, and its length.
const DECK: usize = 1024;

const LENGTH: usize = 9316;

// More turns than any of the decks has chunks: the last ones are empty.
const TURNS: usize = 25;

// The kind and the check of each block.
fn print_blocks<W: Write>(to: &mut W, deck: &[u8; 10340]) -> Result<()> {
    write!(to, "kinds and checks")?;
    let (blocks, _) = deck.as_chunks::<BLOCK>();
    for block in blocks {
        write!(to, " {:02x}:{:02x}{:02x}", block[0], block[510], block[511])?;
    }
    writeln!(to)
}

fn is_kind_or_check(at: usize) -> bool {
    at < 10240 && (at % BLOCK == 0 || at % BLOCK >= 510)
}

// Whether all bytes are as before but kinds and checks, which are printed.
fn is_as_before(old: &[u8; 10340], new: &[u8; 10340]) -> bool {
    old.iter().zip(new).enumerate().all(|(at, (before, after))| before == after
        || is_kind_or_check(at))
}

fn print_convert<W: Write>(to: &mut W, convert: Convert) -> Result<()> {
    writeln!(
        to,
        "tag {}, converted {}, left {}",
        convert.tag, convert.converted, convert.left
    )
}

// What a deck came to.
// Stays with these parameters: the writer and the buffers are lent by main.
fn show<W: Write>(
    to: &mut W,
    old: &[u8; 10340],
    new: &[u8; 10340],
    convert: Convert,
) -> Result<()> {
    print_blocks(to, new)?;
    let rest = if is_as_before(old, new) {
        "all else is as before"
    } else {
        "SOMETHING ELSE CHANGED"
    };
    writeln!(to, "{rest}")?;
    print_convert(to, convert)
}

// The chunk of at most so many bytes that starts here.
fn convert_next(convert: Convert, deck: &mut [u8], from: usize, size: usize) -> Convert {
    let at = within(from, deck);
    let rest = &mut deck[at..];
    let n = within(size, rest);
    convert.convert_chunk(&mut rest[..n])
}

// The `length` bytes that start here, behind this record, in chunks of `size` bytes.
// Stays with its length and its size: they are the case.
fn convert_part(
    convert: Convert,
    deck: &mut [u8],
    start: usize,
    length: usize,
    size: usize,
) -> Convert {
    let at = within(start, deck);
    let rest = &mut deck[at..];
    let n = within(length, rest);
    let mut next = convert;
    let mut from = 0usize;
    // Stays bounded: a proved loop has to end, and the turns behind the last chunk are tried too.
    for _ in 0..TURNS {
        next = convert_next(next, &mut rest[..n], from, size);
        from = from.wrapping_add(size);
    }
    next
}

fn try_first<W: Write>(to: &mut W, old: [u8; 10340], length: usize, size: usize) -> Result<()> {
    let mut deck = old;
    writeln!(to, "\n{length} bytes in chunks of {size}")?;
    let convert = convert_part(Convert::new(), &mut deck, DECK, length, size);
    show(to, &old, &deck, convert)
}

// The deck with one byte more by one.
fn changed(mut deck: [u8; 10340], at: usize) -> [u8; 10340] {
    if let Some(byte) = deck.get_mut(at) {
        *byte = byte.wrapping_add(1);
    }
    deck
}

fn try_changed<W: Write>(to: &mut W, old: [u8; 10340], at: usize) -> Result<()> {
    let other = changed(old, at);
    let mut deck = other;
    writeln!(to, "\nbyte {at} is more by one")?;
    let convert = convert_part(Convert::new(), &mut deck, DECK, LENGTH, 8192);
    show(to, &other, &deck, convert)
}

fn try_again<W: Write>(to: &mut W, old: [u8; 10340]) -> Result<()> {
    let mut deck = old;
    writeln!(to, "\na deck that has been converted")?;
    let first = convert_part(Convert::new(), &mut deck, DECK, LENGTH, 8192);
    show(to, &old, &deck, first)?;
    let once = deck;
    let second = convert_part(Convert::new(), &mut deck, DECK, LENGTH, 8192);
    show(to, &once, &deck, second)
}

// The `length` bytes that start here, behind a record of one's own.
fn try_from<W: Write>(
    to: &mut W,
    old: [u8; 10340],
    start: usize,
    length: usize,
    convert: Convert,
) -> Result<()> {
    let mut deck = old;
    writeln!(to, "\n{length} bytes from byte {start} behind")?;
    print_convert(to, convert)?;
    let next = convert_part(convert, &mut deck, start, length, 8192);
    show(to, &old, &deck, next)
}

// A part's length, and that of its chunks.
const EDGES: [(usize, usize); 11] = [
    (0, 8192),
    (1, 8192),
    (511, 8192),
    (512, 8192),
    (513, 8192),
    (8192, 8192),
    (8193, 8192),
    (LENGTH, 8192),
    (LENGTH, 512),
    (LENGTH, 1536),
    (LENGTH, LENGTH),
];

// In block 1 the kind, the last byte before the check and the check's low byte; then the kind of block 2, whose check is wrong.
const CHANGES: [usize; 4] = [1024, 1533, 1535, 1536];

// Where a part starts, its length, and the tag and the counts of the record before it.
const RECORDS: [(usize, usize, u32, u64, u64); 5] = [
    (0, 10340, 4294967294, 0, 0),
    (DECK, LENGTH, 1, 0, 0),
    (DECK, 511, u32::MAX, 7, 8),
    (DECK, 1024, 0, u64::MAX, u64::MAX),
    (DECK, 2048, 0, 18446744073709551614, 18446744073709551614),
];

fn try_all<W: Write>(to: &mut W, old: [u8; 10340]) -> Result<()> {
    for (length, size) in EDGES {
        try_first(to, old, length, size)?;
    }
    for at in CHANGES {
        try_changed(to, old, at)?;
    }
    try_again(to, old)?;
    for (start, length, tag, converted, left) in RECORDS {
        let before = Convert {
            tag,
            converted,
            left,
        };
        try_from(to, old, start, length, before)?;
    }
    Ok(())
}

// Stays beside that of try_recheck: each program is whole.
fn main(rt: HostRuntime) -> Result<()> {
    let mut old = [0; 10340];
    let n = read_full(&mut rt.stdin(), &mut old)?;
    let mut output = rt.stdout();
    writeln!(output, "{n} bytes")?;
    try_all(&mut output, old)
}
