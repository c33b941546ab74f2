// Bytes to standard output, whatever the writes take.
ghost use Rattle.std.specs.Prelude.{length};
ghost use Rattle.std.specs.Io.{WritesAtMost};
ghost use Rattle.deck_io.specs.Moved.{Moved};
ghost use Rattle.deck_io.specs.Output.{is_shut, written};

use crate::MOST_TRIES;
use crate::complaint::complain_why;
use std::io::{self, ErrorKind, Write};

// The output takes no more, and took so many bytes before.
#[derive(Clone, Copy, Debug, PartialEq, Eq)]
pub struct Shut(pub usize);

// A write that a signal interrupts is made again, though not for ever.
// Stays beside `read_some` of the input: the two have two traits.
fn write_some<W: Write>(to: &mut W, rest: &[u8]) -> io::Result<usize>
    ensures { WritesAtMost result rest.now }
{
    for _ in 1..MOST_TRIES {
        match to.write(rest) {
            Err(why) if why.kind() == ErrorKind::Interrupted => {}
            written => return written,
        }
    }
    to.write(rest)
}

// Writes all bytes, unless the output takes no more. Where a write fails, `what` is said before the system's reason.
pub fn write_out<W: Write, E: Write>(
    to: &mut W,
    errors: &mut E,
    bytes: &[u8],
    what: &[u8],
) -> Result<usize, Shut>
    ensures { Moved (is_shut result) (written result) (length bytes.now) }
{
    let mut count = 0;
    // Stays a `while`: each write says how far it came.
    while count < bytes.len() {
        match write_some(to, &bytes[count..]) {
            Ok(0) => return Err(Shut(count)),
            Ok(more) => count += more,
            Err(why) => {
                complain_why(errors, what, why);
                return Err(Shut(count));
            }
        }
    }
    Ok(count)
}
