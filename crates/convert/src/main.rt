// Converts the deck on standard input: the same deck, its right blocks of kind 13 as kind 12, on standard output.

#![tactic(auto)]

use deck_convert::Convert;
use deck_io::complaint::say;
use deck_io::input::{Input, fill, usable_bytes};
use deck_io::output::write_out;
use deck_io::within;
use std::io::{Read, Write};
use std::ops::ControlFlow;

const BLOCK: usize = 512;

// A deck on its way, chunk by chunk, and how many whole blocks of it were read.
#[derive(Drop)]
struct Run<R: Drop, W: Drop, E: Drop> {
    from: R,
    to: W,
    errors: E,
    chunk: [u8; 8192],
    convert: Convert,
    blocks: u64,
}

// That the whole deck was copied, whether a block of kind 13 is still in it, and whether it ends inside a block.
fn say_done<E: Write>(errors: &mut E, convert: Convert, rest: usize) {
    say(
        errors,
        format_args!("convert: blocks converted: {}", convert.converted),
    );
    if convert.left != 0 {
        say(
            errors,
            format_args!(
                "convert: blocks of kind 13 that were copied as they are, because their check is wrong: {}; an old deck goes through recheck first, and what that writes through convert; else copy the deck again and convert it from its first block, or make it again from its lines",
                convert.left
            ),
        );
    }
    if rest != 0 {
        say(
            errors,
            format_args!(
                "convert: the deck ends inside a block, of which so many bytes were copied as they are: {rest}; it was cut short: copy it again and convert it from its first block (a file of lines is no deck: tools/make-deck makes one of it)"
            ),
        );
    }
}

// Stays beside that of recheck: each program says its own text.
fn say_unread<E: Write>(errors: &mut E, blocks: u64) {
    say(
        errors,
        format_args!(
            "convert: whole blocks that were written before that: {blocks}; what was read behind them was not written; convert the deck again from its first block"
        ),
    );
}

impl<R: Read + Drop, W: Write + Drop, E: Write + Drop> Run<R, W, E> {
    // Writes the chunk's first bytes; where they were not written, what to do is said behind the reason.
    // Stays beside that of recheck: each program says its own text.
    fn write_first(&mut self, used: usize) -> ControlFlow<()> {
        let used = within(used, &self.chunk);
        let output = write_out(
            &mut self.to,
            &mut self.errors,
            &self.chunk[..used],
            b"convert: a block could not be written",
        );
        if output.is_err() {
            say(
                &mut self.errors,
                "convert: not every block could be written; run it again with an output that takes them",
            );
            return ControlFlow::Break(());
        }
        ControlFlow::Continue(())
    }

    // Goes on where there may be more of the deck. Where there is none, standard error says how it ended.
    fn goes_on(&mut self, input: Input, rest: usize) -> ControlFlow<()> {
        if !input.is_over {
            return ControlFlow::Continue(());
        }
        if input.has_failed {
            say_unread(&mut self.errors, self.blocks);
        } else {
            say_done(&mut self.errors, self.convert, rest);
        }
        ControlFlow::Break(())
    }

    fn convert_once(&mut self) -> ControlFlow<()> {
        let input = fill(
            &mut self.from,
            &mut self.errors,
            &mut self.chunk,
            b"convert: the deck could not be read on",
        );
        let used = within(usable_bytes(input), &self.chunk);
        self.convert = self.convert.convert_chunk(&mut self.chunk[..used]);
        self.blocks = self.blocks.wrapping_add((used / BLOCK) as u64);
        self.write_first(used)?;
        self.goes_on(input, used % BLOCK)
    }
}

// Chunk after chunk; a proved loop has to end, and no deck has as many.
fn main(rt: HostRuntime) {
    let mut run = Run {
        from: rt.stdin(),
        to: rt.stdout(),
        errors: rt.stderr(),
        chunk: [0; 8192],
        convert: Convert::new(),
        blocks: 0,
    };
    for _ in 0..u64::MAX {
        if run.convert_once().is_break() {
            return;
        }
    }
}
