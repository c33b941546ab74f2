// Answers the kind `decks` of the language of cases (differential/LANGUAGE.md): a line in, a line out.

#![tactic(auto)]

mod dealt;
mod printed;

use dealt::{BLOCK, block_bytes};
use deck::bench::{Bench, BenchStart, DeckStep};
use mock_base::error::MockTransportError;
use printed::{block, device};
use replay_answers::out::Output;
use replay_lines::buffer::first;
use replay_lines::input::Lines;
use replay_lines::names::Call;
use replay_lines::tokens::Tokens;
use std::io::{self, Write};

// The bench, whether its deck takes another block, and the buffers that its flash and its store stand in.
#[derive(Drop)]
struct Table<'a> {
    bench: Bench,
    is_open: bool,
    flash: &'a mut [u8],
    store: &'a mut [u8],
}

// The store is only read: as a `&` beside the flash of one table the borrow check has no rule for it yet.
fn fresh(flash: &mut [u8], store: &mut [u8]) -> BenchStart {
    Bench::new(flash, store)
}

impl<'a> Table<'a> {
    // A fresh bench, with no deck yet.
    fn new(flash: &'a mut [u8], store: &'a mut [u8]) -> Table<'a> {
        let BenchStart { answer: _, bench } = fresh(flash, store);
        Table {
            bench,
            is_open: false,
            flash,
            store,
        }
    }

    // `dck`: what the bench's start came to.
    fn begin(&mut self) -> Result<(), MockTransportError> {
        let start = fresh(self.flash, self.store);
        self.bench = start.bench;
        self.is_open = true;
        start.answer.result
    }

    // `blk`: a short block is the last.
    fn deal(&mut self, block: &[u8]) -> Option<DeckStep> {
        if !self.is_open {
            return None;
        }
        let step = self.bench.deal(block, self.flash, self.store);
        self.bench = step.bench;
        self.is_open = block.len() == BLOCK;
        Some(step)
    }

    // The answer's number and the device, where the line ends there.
    fn print_device<W: Write>(
        &self,
        out: &mut W,
        answer: Result<(), MockTransportError>,
        rest: Tokens,
    ) -> io::Result<()> {
        match rest.end() {
            Some(()) => device(out, answer, self.bench.device, self.flash, self.store),
            None => out.write_all(b"outside"),
        }
    }
}

// A line's answer.
// Stays a `match`: each call reads its own tokens.
// Stays with these parameters: the buffers are lent by main.
fn answer<W: Write>(
    out: &mut W,
    line: &[u8],
    table: &mut Table,
    data: &mut [u8; 512],
) -> io::Result<()> {
    let mut tokens = Tokens::new(line);
    match tokens.call() {
        Some(Call::FreshDeck) => {
            let started = table.begin();
            table.print_device(out, started, tokens)
        }
        Some(Call::Block) => {
            let len = block_bytes(tokens, data);
            match table.deal(first(len, data)) {
                Some(step) => block(out, step),
                None => out.write_all(b"outside"),
            }
        }
        Some(Call::DeckDevice) => table.print_device(out, Ok(()), tokens),
        _ => out.write_all(b"outside"),
    }
}

fn main(rt: HostRuntime) -> io::Result<()> {
    let mut chunk = [0u8; 65536];
    let mut line = [0u8; 4096];
    let mut buffer = [0u8; 65536];
    let mut data = [0u8; 512];
    let mut flash = [0u8; 65536];
    let mut store = [0u8; 65536];
    let mut table = Table::new(&mut flash, &mut store);
    let mut lines = Lines::new(rt.stdin(), &mut chunk);
    let mut out = Output::new(rt.stdout(), &mut buffer);
    // a proved loop has to end, and nothing says that the input does: no run uses up so many turns
    for _ in 0..u64::MAX {
        let Some(line) = lines.next_line(&mut line) else {
            break;
        };
        answer(&mut out, line, &mut table, &mut data)?;
        out.write_all(b"\n")?;
        out.after_line()?;
    }
    out.flush()
}
