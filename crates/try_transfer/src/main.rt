// Tells in words how a sector write ended: a line in has the tag, the bytes asked and the status that came from a head, a line out says how much was
// moved. README.md beside says what the lines are and how the stored ones were worked out.

#![tactic(auto)]

use operation::starts::write_lba;
use operation::steps::{UsbOperation, UsbStep};
use operation_finish::{SectorTransfer, UsbReply};
use replay_lines::buffer::first;
use replay_lines::input::Lines;
use replay_lines::tokens::Tokens;
use rule_number::{OutOfSteps, RuleNumber};
use std::io::{Read, Result, Write};

// the sector data that there is to lend
const ROOM: usize = 65536;

// a status
const STATUS: usize = 13;

// no write has more steps than command, data, status and finish
const STEPS: usize = 4;

// What a line says: the tag, the bytes asked, and how many bytes of status came.
#[derive(Clone, Copy)]
struct Asked {
    tag: u32,
    size: usize,
    came: usize,
}

fn print_refused<W: Write, E: RuleNumber>(to: &mut W, error: E) -> Result<()> {
    writeln!(to, "refused: {}", error.number())
}

fn print_reply<W: Write>(to: &mut W, reply: UsbReply) -> Result<()> {
    match reply {
        UsbReply::Sectors(SectorTransfer::Whole(moved)) => {
            writeln!(to, "whole: {} bytes moved", moved.0)
        }
        UsbReply::Sectors(SectorTransfer::Short(short)) => writeln!(
            to,
            "short: {} of {} bytes moved",
            short.moved.0, short.asked.0
        ),
        // a write has no other reply
        _ => writeln!(to, "no transfer"),
    }
}

// Step after step, with the status where one asks for that; a host would send the command and the data here. A status of at most 13 bytes is always
// taken.
// Stays with these parameters: the writer and the buffers are lent by main.
fn carry_out<W: Write>(
    to: &mut W,
    operation: UsbOperation,
    status: &[u8],
    sectors: &mut [u8; 65536],
) -> Result<()> {
    let mut next = operation;
    let mut out = [0; 31];
    // Stays bounded: a proved loop has to end.
    for _ in 0..STEPS {
        let done = next.step(sectors, &mut out);
        next = done.next;
        match done.step {
            Ok(UsbStep::Finished(reply)) => return print_reply(to, reply),
            Ok(UsbStep::ReadStatus(_)) => next = next.give(status, sectors).next,
            Ok(_) => {}
            Err(error) => return print_refused(to, error),
        }
    }
    print_refused(to, OutOfSteps)
}

fn tell<W: Write>(
    to: &mut W,
    asked: Asked,
    status: &[u8],
    sectors: &mut [u8; 65536],
) -> Result<()> {
    let start = write_lba(asked.tag, 0, asked.size);
    if let Err(error) = start.answer {
        return print_refused(to, error);
    }
    if asked.size > ROOM {
        return writeln!(to, "not tried: above 65536 bytes");
    }
    carry_out(to, start.operation, status, sectors)
}

// `TAG ASKED STATUS`
fn read_line(line: &[u8], status: &mut [u8]) -> Option<Asked> {
    let mut tokens = Tokens::new(line);
    let tag = u32::try_from(tokens.first_number()?).ok()?;
    let size = usize::try_from(tokens.u64()?).ok()?;
    tokens.gap()?;
    if tokens.byte()? != b'x' {
        return None;
    }
    let came = tokens.spelled(status);
    tokens.end()?;
    if came <= STATUS {
        Some(Asked { tag, size, came })
    } else {
        None
    }
}

fn answer_line<W: Write>(to: &mut W, line: &[u8], sectors: &mut [u8; 65536]) -> Result<()> {
    let mut status = [0; 13];
    match read_line(line, &mut status) {
        Some(asked) => tell(to, asked, first(asked.came, &status), sectors),
        None => writeln!(to, "unreadable line"),
    }
}

// A proved loop has to end, and nothing says that the input does: no run uses up so many turns.
fn run<R: Read + Drop, W: Write>(
    from: R,
    to: &mut W,
    block: &mut [u8],
    sectors: &mut [u8; 65536],
) -> Result<()> {
    let mut lines = Lines::new(from, block);
    let mut line = [0; 127];
    for _ in 0..u64::MAX {
        let Some(line) = lines.next_line(&mut line) else {
            break;
        };
        answer_line(to, line, sectors)?;
    }
    Ok(())
}

fn main(rt: HostRuntime) -> Result<()> {
    let mut block = [0; 65536];
    let mut sectors = [0; 65536];
    run(rt.stdin(), &mut rt.stdout(), &mut block, &mut sectors)
}
