// Rechecks the old deck on standard input: the same deck, with the checks of today, on standard output.

#![tactic(auto)]

use deck_io::complaint::say;
use deck_io::input::{Input, fill, usable_bytes};
use deck_io::output::write_out;
use deck_io::within;
use deck_recheck::{Recheck, Stop};
use std::io::{Read, Write};
use std::ops::ControlFlow;

// A deck on its way, chunk by chunk.
#[derive(Drop)]
struct Run<R: Drop, W: Drop, E: Drop> {
    from: R,
    to: W,
    errors: E,
    chunk: [u8; 8192],
    recheck: Recheck,
}

// At block 1 the deck may be one of today: that is refused there, and not at a later block.
// Stays beside `say_short`: it has other words in three places.
fn say_bad_check<E: Write>(errors: &mut E, number: u64) {
    let before = if number == 1 {
        "nothing was written; a deck of today needs no recheck; else"
    } else {
        "the blocks before it were written, and they are not the whole deck;"
    };
    say(
        errors,
        format_args!(
            "recheck: block {number}: its old check is wrong (40); {before} copy the old deck again and recheck it from its first block, or make the deck again from its lines, which then needs no recheck"
        ),
    );
}

// Stays beside `say_bad_check`: it has other words in three places.
fn say_short<E: Write>(errors: &mut E, number: u64) {
    let before = if number == 1 {
        "nothing was written; a file of lines is no deck (tools/make-deck makes one of it); else"
    } else {
        "the blocks before it were written, and they are not the whole deck;"
    };
    say(
        errors,
        format_args!(
            "recheck: block {number}: it is short (44); {before} copy the old deck again and recheck it from its first block"
        ),
    );
}

// Stays beside that of convert: each program says its own text.
fn say_unread<E: Write>(errors: &mut E, rechecked: u64) {
    say(
        errors,
        format_args!(
            "recheck: blocks that were rechecked before that: {rechecked}; what was read behind them was not; recheck the deck again from its first block"
        ),
    );
}

impl<R: Read + Drop, W: Write + Drop, E: Write + Drop> Run<R, W, E> {
    // Writes the chunk's first bytes; where they were not written, what to do is said behind the reason.
    // Stays beside that of convert: each program says its own text.
    fn write_first(&mut self, bytes: usize) -> ControlFlow<()> {
        let used = within(bytes, &self.chunk);
        let output = write_out(
            &mut self.to,
            &mut self.errors,
            &self.chunk[..used],
            b"recheck: a block could not be written",
        );
        if output.is_err() {
            say(
                &mut self.errors,
                "recheck: not every block could be written; run it again with an output that takes them",
            );
            return ControlFlow::Break(());
        }
        ControlFlow::Continue(())
    }

    // Goes on where there may be more of the deck. Where it ends before its end, standard error says why.
    fn goes_on(&mut self, input: Input) -> ControlFlow<()> {
        let number = self.recheck.number;
        match self.recheck.stop {
            Some(Stop::BadCheck) => {
                say_bad_check(&mut self.errors, number);
                ControlFlow::Break(())
            }
            Some(Stop::Short) => {
                say_short(&mut self.errors, number);
                ControlFlow::Break(())
            }
            None if input.has_failed => {
                say_unread(&mut self.errors, number);
                ControlFlow::Break(())
            }
            None if input.is_over => ControlFlow::Break(()),
            None => ControlFlow::Continue(()),
        }
    }

    fn recheck_once(&mut self) -> ControlFlow<()> {
        let input = fill(
            &mut self.from,
            &mut self.errors,
            &mut self.chunk,
            b"recheck: the deck could not be read on",
        );
        let used = within(usable_bytes(input), &self.chunk);
        let step = self.recheck.recheck_chunk(&mut self.chunk[..used]);
        self.recheck = step.recheck;
        self.write_first(step.bytes)?;
        self.goes_on(input)
    }
}

// Chunk after chunk; a proved loop has to end, and no deck has as many.
fn main(rt: HostRuntime) {
    let mut run = Run {
        from: rt.stdin(),
        to: rt.stdout(),
        errors: rt.stderr(),
        chunk: [0; 8192],
        recheck: Recheck::new(),
    };
    for _ in 0..u64::MAX {
        if run.recheck_once().is_break() {
            return;
        }
    }
}
