// Deals the deck on standard input to a stand-in head, and prints a line for each block.

#![tactic(auto)]

use deck::bench::Bench;
use deck_chunk::Deck;
use deck_io::complaint::say;
use deck_io::input::{fill, usable_bytes};
use deck_io::output::write_out;
use deck_io::within;
use std::io::{Read, Write};
use std::ops::ControlFlow;

// A deck on its way, chunk by chunk. There is room for the lines of every block of a chunk, so that it is not refused.
// Flash and store are lent by main from call to call, so that they stand once on the stack.
#[derive(Drop)]
struct Run<R: Drop, W: Drop, E: Drop> {
    from: R,
    to: W,
    errors: E,
    chunk: [u8; 8192],
    lines: [u8; 1024],
    deck: Deck,
}

impl<R: Read + Drop, W: Write + Drop, E: Write + Drop> Run<R, W, E> {
    fn say_unread(&mut self) {
        let dealt = self.deck.bench.number;
        say(
            &mut self.errors,
            format_args!(
                "bench: blocks that were dealt before that: {dealt}; what was read behind them was not; deal the deck again from its first block"
            ),
        );
    }

    // Writes the lines; where they were not written, what to do is said behind the reason.
    fn print_lines(&mut self, bytes: usize) -> ControlFlow<()> {
        let used = within(bytes, &self.lines);
        let output = write_out(
            &mut self.to,
            &mut self.errors,
            &self.lines[..used],
            b"bench: a line could not be written",
        );
        if output.is_err() {
            say(
                &mut self.errors,
                "bench: not every line could be written; run it again with an output that takes them",
            );
            return ControlFlow::Break(());
        }
        ControlFlow::Continue(())
    }

    // The blocks in the chunk's first bytes.
    fn deal_and_print(
        &mut self,
        bytes: usize,
        flash: &mut [u8; 65536],
        store: &mut [u8; 65536],
    ) -> ControlFlow<()> {
        let used = within(bytes, &self.chunk);
        let step = self
            .deck
            .deal_chunk(&self.chunk[..used], &mut self.lines, flash, store);
        self.deck = step.deck;
        let Ok(count) = step.answer else {
            say(
                &mut self.errors,
                "bench: a chunk was refused by 20: this program has to be mended",
            );
            return ControlFlow::Break(());
        };
        self.print_lines(count.bytes)
    }

    // Goes on where there may be more of the deck.
    fn deal_once(&mut self, flash: &mut [u8; 65536], store: &mut [u8; 65536]) -> ControlFlow<()> {
        let input = fill(
            &mut self.from,
            &mut self.errors,
            &mut self.chunk,
            b"bench: the deck could not be read on",
        );
        let printed = self.deal_and_print(usable_bytes(input), flash, store);
        if input.has_failed {
            self.say_unread();
        }
        printed?;
        if input.is_over {
            return ControlFlow::Break(());
        }
        ControlFlow::Continue(())
    }
}

// Chunk after chunk; a proved loop has to end, and no deck has as many.
fn main(rt: HostRuntime) {
    let mut errors = rt.stderr();
    let mut flash = [0; 65536];
    let mut store = [0; 65536];
    let start = Bench::new(&mut flash, &store);
    if start.answer.result.is_err() {
        say(
            &mut errors,
            "bench: the stand-in refused its flash by 60 or 61: this program has to be mended",
        );
        return;
    }
    let mut run = Run {
        from: rt.stdin(),
        to: rt.stdout(),
        errors,
        chunk: [0; 8192],
        lines: [0; 1024],
        deck: Deck::new(start.bench),
    };
    for _ in 0..u64::MAX {
        if run.deal_once(&mut flash, &mut store).is_break() {
            return;
        }
    }
}
