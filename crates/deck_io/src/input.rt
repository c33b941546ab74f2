// Standard input in chunks of whole blocks, whatever the reads bring.
ghost use Rattle.std.specs.Prelude.{◌≡◌, length};
ghost use Rattle.std.specs.Io.{ReadsAtMost};
ghost use Rattle.deck_io.specs.Moved.{Moved, EndsIf};
ghost use Rattle.deck_io.specs.Input.{usable_bytes};

use crate::MOST_TRIES;
use crate::complaint::complain_why;
use std::io::{ErrorKind, Read, Result, Write};

const BLOCK: usize = 512;

// How many bytes of the chunk were read, and whether the input is over or could not be read on.
// Stays a record of two flags: a caller may hand in any, and the contracts are over them.
#[derive(Clone, Copy, Debug, PartialEq, Eq)]
pub struct Input {
    pub count: usize,
    pub is_over: bool,
    pub has_failed: bool,
}

// A read that a signal interrupts is made again, though not for ever.
// Stays beside `write_some` of the output: the two have two traits.
fn read_some<R: Read>(from: &mut R, rest: &mut [u8]) -> Result<usize>
    ensures { ReadsAtMost result rest.new }
{
    for _ in 1..MOST_TRIES {
        match from.read(rest) {
            Err(why) if why.kind() == ErrorKind::Interrupted => {}
            read => return read,
        }
    }
    from.read(rest)
}

// Fills the chunk, up to the end of the input. Where a read fails, `what` is said before the system's reason.
pub fn fill<R: Read, E: Write>(from: &mut R, errors: &mut E, chunk: &mut [u8], what: &[u8]) -> Input
    ensures moved { Moved result.is_over result.count (length chunk.old) }
    ensures ends_if { EndsIf result.has_failed result.is_over }
{
    let mut count = 0;
    // Stays a `while`: each read says how far it came.
    while count < chunk.len() {
        match read_some(from, &mut chunk[count..]) {
            Ok(0) => {
                return Input {
                    count,
                    is_over: true,
                    has_failed: false,
                };
            }
            Ok(more) => count += more,
            Err(why) => {
                complain_why(errors, what, why);
                return Input {
                    count,
                    is_over: true,
                    has_failed: true,
                };
            }
        }
    }
    Input {
        count,
        is_over: false,
        has_failed: false,
    }
}

// Fills a buffer of any length, up to the end of the input, and answers how many bytes came. A read that fails is the answer.
pub fn read_full<R: Read>(from: &mut R, buffer: &mut [u8]) -> Result<usize>
    ensures { ReadsAtMost result buffer.new }
{
    let mut count = 0;
    // Stays a `while`, as that of `fill`.
    while count < buffer.len() {
        let more = read_some(from, &mut buffer[count..])?;
        if more == 0 {
            break;
        }
        count += more;
    }
    Ok(count)
}

// All that was read; where a read failed, its whole blocks, since the one behind them need not be the deck's last.
#[tactic(auto, unfolding(crate::specs::Input::usable_bytes))]
pub fn usable_bytes(input: Input) -> usize
    ensures { result ≡ usable_bytes input.has_failed input.count }
{
    if input.has_failed {
        input.count / BLOCK * BLOCK
    } else {
        input.count
    }
}
