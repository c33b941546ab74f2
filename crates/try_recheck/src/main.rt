// Old decks rechecked over `deck_recheck`: standard input is one of 18 blocks and a part of the next, and each case begins with it as it was.

#![tactic(auto)]

use deck_io::input::read_full;
use deck_io::within;
use deck_recheck::{Recheck, RecheckStep, stop_number};
use std::io::{Result, Write};

const BLOCK: usize = 512;

// More turns than any of the decks has chunks: the last ones are empty, or are refused again.
const TURNS: usize = 20;

// The check of each block that was rechecked.
fn print_checks<W: Write>(to: &mut W, deck: &[u8; 9316], rechecked: usize) -> Result<()> {
    write!(to, "checks")?;
    let (blocks, _) = deck.as_chunks::<BLOCK>();
    for block in blocks.iter().take(rechecked / BLOCK) {
        write!(to, " {:02x}{:02x}", block[510], block[511])?;
    }
    writeln!(to)
}

fn is_in_check(at: usize, rechecked: usize) -> bool {
    at < rechecked && at % BLOCK >= 510
}

// Whether all bytes are as before but the checks of what was rechecked.
fn is_as_before(old: &[u8; 9316], new: &[u8; 9316], rechecked: usize) -> bool {
    old.iter().zip(new).enumerate().all(|(at, (before, after))| before == after
        || is_in_check(at, rechecked))
}

fn print_recheck<W: Write>(to: &mut W, recheck: Recheck) -> Result<()> {
    let stop = stop_number(recheck.stop);
    writeln!(
        to,
        "block {}, tag {}, stop {stop}",
        recheck.number, recheck.tag
    )
}

// What a deck came to.
// Stays with these parameters: the writer and the buffers are lent by main.
fn show<W: Write>(to: &mut W, old: &[u8; 9316], new: &[u8; 9316], step: RecheckStep) -> Result<()> {
    print_checks(to, new, step.bytes)?;
    let rest = if is_as_before(old, new, step.bytes) {
        "all else is as before"
    } else {
        "SOMETHING ELSE CHANGED"
    };
    writeln!(to, "{} bytes rechecked; {rest}", step.bytes)?;
    print_recheck(to, step.recheck)
}

// One chunk of at most so many bytes, behind those that are rechecked.
fn recheck_next(step: RecheckStep, deck: &mut [u8], size: usize) -> RecheckStep {
    let at = within(step.bytes, deck);
    let rest = &mut deck[at..];
    let n = within(size, rest);
    let next = step.recheck.recheck_chunk(&mut rest[..n]);
    RecheckStep {
        bytes: at.wrapping_add(next.bytes),
        recheck: next.recheck,
    }
}

// The deck's first `length` bytes behind this record, in chunks of `size` bytes.
// Stays with its length and its size: they are the case.
fn recheck_first(recheck: Recheck, deck: &mut [u8], length: usize, size: usize) -> RecheckStep {
    let n = within(length, deck);
    let mut step = RecheckStep { bytes: 0, recheck };
    // Stays bounded: a proved loop has to end, and the turns behind the last chunk are tried too.
    for _ in 0..TURNS {
        step = recheck_next(step, &mut deck[..n], size);
    }
    step
}

fn try_first<W: Write>(to: &mut W, old: [u8; 9316], length: usize, size: usize) -> Result<()> {
    let mut deck = old;
    writeln!(to, "\n{length} bytes in chunks of {size}")?;
    let step = recheck_first(Recheck::new(), &mut deck, length, size);
    show(to, &old, &deck, step)
}

// The deck with one byte more by one.
fn changed(mut deck: [u8; 9316], at: usize) -> [u8; 9316] {
    if let Some(byte) = deck.get_mut(at) {
        *byte = byte.wrapping_add(1);
    }
    deck
}

fn try_changed<W: Write>(to: &mut W, old: [u8; 9316], at: usize) -> Result<()> {
    let bad = changed(old, at);
    let mut deck = bad;
    writeln!(to, "\nbyte {at} is more by one")?;
    let step = recheck_first(Recheck::new(), &mut deck, 9216, 8192);
    show(to, &bad, &deck, step)
}

// A deck that stops, and then two blocks that are right.
fn try_behind<W: Write>(
    to: &mut W,
    old: [u8; 9316],
    mut stopping: [u8; 9316],
    length: usize,
) -> Result<()> {
    let mut deck = old;
    let recheck = recheck_first(Recheck::new(), &mut stopping, length, 8192).recheck;
    writeln!(to, "\ntwo right blocks behind a stop at")?;
    print_recheck(to, recheck)?;
    let step = recheck_first(recheck, &mut deck, 1024, 8192);
    show(to, &old, &deck, step)
}

fn try_again<W: Write>(to: &mut W, old: [u8; 9316]) -> Result<()> {
    let mut deck = old;
    recheck_first(Recheck::new(), &mut deck, 9216, 8192);
    let once = deck;
    writeln!(to, "\na deck that has been rechecked")?;
    let step = recheck_first(Recheck::new(), &mut deck, 9216, 8192);
    show(to, &once, &deck, step)
}

// The first `length` bytes behind a record of one's own.
fn try_from<W: Write>(
    to: &mut W,
    old: [u8; 9316],
    number: u64,
    tag: u32,
    length: usize,
) -> Result<()> {
    let mut deck = old;
    let recheck = Recheck {
        number,
        tag,
        stop: None,
    };
    writeln!(to, "\n{length} bytes behind")?;
    print_recheck(to, recheck)?;
    let step = recheck_first(recheck, &mut deck, length, 8192);
    show(to, &old, &deck, step)
}

// A deck's length, and that of its chunks.
const EDGES: [(usize, usize); 11] = [
    (0, 8192),
    (1, 8192),
    (511, 8192),
    (512, 8192),
    (8192, 8192),
    (8193, 8192),
    (8704, 8192),
    (9316, 8192),
    (9316, 512),
    (9316, 1536),
    (9316, 9316),
];

// The kind of block 1; the last zero of block 3; the check of block 16, its high byte; that of block 18, its low byte.
const CHANGES: [usize; 4] = [0, 1533, 8190, 9215];

// A record's number and tag, and how many bytes come behind it.
const RECORDS: [(u64, u32, usize); 5] = [
    (u64::MAX, u32::MAX, 512),
    (18446744073709551614, 4294967294, 1024),
    (4294967295, u32::MAX, 1024),
    (u64::MAX, u32::MAX, 511),
    // the one tag of 1 to 65,535 at which the new check is the old one
    (39359, 39359, 512),
];

fn try_all<W: Write>(to: &mut W, old: [u8; 9316]) -> Result<()> {
    for (length, size) in EDGES {
        try_first(to, old, length, size)?;
    }
    for at in CHANGES {
        try_changed(to, old, at)?;
    }
    try_behind(to, old, changed(old, 1533), 9216)?;
    try_behind(to, old, old, 612)?;
    try_again(to, old)?;
    for (number, tag, length) in RECORDS {
        try_from(to, old, number, tag, length)?;
    }
    Ok(())
}

// Stays beside that of try_convert: each program is whole.
fn main(rt: HostRuntime) -> Result<()> {
    let mut old = [0; 9316];
    let n = read_full(&mut rt.stdin(), &mut old)?;
    let mut output = rt.stdout();
    writeln!(output, "{n} bytes")?;
    try_all(&mut output, old)
}
