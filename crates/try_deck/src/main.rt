// Decks that end at each edge of a chunk, dealt over `deck_chunk`: standard input is the longest of them, and the others are its first bytes.

#![tactic(auto)]

use deck::bench::Bench;
use deck_chunk::Deck;
use deck_io::input::read_full;
use deck_io::within;
use rule_number::RuleNumber;
use std::io::{Result, Write};

// More turns than any of the decks has chunks: the chunks behind its end are empty.
const TURNS: usize = 20;

// A deck's length, and that of its chunks.
const DECKS: [(usize, usize); 9] = [
    (0, 8192),
    (1, 8192),
    (512, 8192),
    (8192, 8192),
    (8193, 8192),
    (8704, 8192),
    (9215, 8192),
    (8704, 512),
    (9215, 1536),
];

// A deck on its way, at a head of its own.
#[derive(Drop)]
struct Dealing {
    deck: Deck,
    flash: [u8; 65536],
    store: [u8; 65536],
}

impl Dealing {
    fn new() -> Dealing {
        let mut flash = [0; 65536];
        let store = [0; 65536];
        let start = Bench::new(&mut flash, &store);
        Dealing {
            deck: Deck::new(start.bench),
            flash,
            store,
        }
    }

    // Prints a chunk's lines, or the number of its refusal.
    fn deal<W: Write>(&mut self, to: &mut W, blocks: &[u8], lines: &mut [u8]) -> Result<()> {
        let step = self
            .deck
            .deal_chunk(blocks, lines, &mut self.flash, &mut self.store);
        self.deck = step.deck;
        let answer = step.answer;
        let Ok(count) = answer else {
            return writeln!(to, "{}", answer.number());
        };
        let used = within(count.bytes, lines);
        to.write_all(&lines[..used])
    }
}

// The first `length` bytes of the input as a deck of its own, in chunks of `size` bytes, and empty ones then.
// Stays with its length and its size: they are the case.
fn deal_first<W: Write>(to: &mut W, input: &[u8], length: usize, size: usize) -> Result<()> {
    writeln!(to, "{length} bytes in chunks of {size}")?;
    let mut dealing = Dealing::new();
    let mut lines = [0; 2048];
    let n = within(length, input);
    let mut rest = &input[..n];
    // Stays bounded: a proved loop has to end, and the turns behind the last chunk are tried too.
    for _ in 0..TURNS {
        let (chunk, behind) = rest.split_at(within(size, rest));
        dealing.deal(to, chunk, &mut lines)?;
        rest = behind;
    }
    Ok(())
}

// A buffer that is a byte too short for one line, and then the same block with one that is not.
fn short_buffer<W: Write>(to: &mut W, input: &[u8]) -> Result<()> {
    writeln!(to, "room for 63 bytes, then for 64")?;
    let mut dealing = Dealing::new();
    let n = within(512, input);
    dealing.deal(to, &input[..n], &mut [0; 63])?;
    dealing.deal(to, &input[..n], &mut [0; 64])
}

// The start of a bench with a flash of whole sectors, and with one of a byte less.
fn starts<W: Write>(to: &mut W) -> Result<()> {
    let mut flash = [0; 1024];
    let mut less = [0; 1023];
    let store = [0; 8];
    writeln!(to, "a flash of 1024 bytes, then of 1023")?;
    let whole = Bench::new(&mut flash, &store);
    writeln!(to, "{}", whole.answer.result.number())?;
    let odd = Bench::new(&mut less, &store);
    writeln!(to, "{}", odd.answer.result.number())
}

fn try_all<W: Write>(to: &mut W, input: &[u8]) -> Result<()> {
    for (length, size) in DECKS {
        deal_first(to, input, length, size)?;
    }
    short_buffer(to, input)?;
    starts(to)
}

fn main(rt: HostRuntime) -> Result<()> {
    let mut deck = [0; 9215];
    let n = read_full(&mut rt.stdin(), &mut deck)?;
    try_all(&mut rt.stdout(), &deck[..n])
}
