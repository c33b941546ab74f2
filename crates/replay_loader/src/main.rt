// Answers the kind `loader` of the language of cases (differential/LANGUAGE.md): a line in, a line out. What stays from line to line is the current
// file.

#![tactic(auto)]

mod asked;

use asked::{Asked, ask};
use loader_records::entry::{RkBootEntry, RkBootEntryRead};
use loader_records::header::{RkBootHeader, RkBootHeaderRead};
use loader_records::list::{RkBootHeaderEntry, RkBootHeaderEntryRead};
use loader_records::time::{RkTime, RkTimeRead};
use loader_walk::data_of;
use loader_walk::whole::examine;
use replay_answers::out::{Output, bytes};
use replay_lines::buffer::{behind_mut, copy, first, first_mut};
use replay_lines::input::Lines;
use replay_records::{shown, told, walked};
use std::io::{Result, Write};

const NO_TAG: [u8; 4] = [0, 0, 0, 0];

// The current file: the first `len` bytes of a lent buffer.
// Stays a buffer with its length: nothing here allocates.
#[derive(Drop)]
struct File<'a> {
    buffer: &'a mut [u8],
    len: usize,
}

impl File<'_> {
    fn bytes(&self) -> &[u8] {
        first(self.len, self.buffer)
    }

    // `fil`
    fn replace(&mut self, given: &[u8]) {
        self.len = copy(given, self.buffer);
    }

    // `put`: what passes the file's end is left out.
    fn put(&mut self, place: usize, given: &[u8]) {
        let len = self.len;
        copy(given, behind_mut(place, first_mut(len, self.buffer)));
    }

    fn print_len<W: Write>(&self, out: &mut W) -> Result<()> {
        let len = self.len;
        write!(out, "0 {len}")
    }
}

fn read_time<W: Write>(out: &mut W, given: &[u8]) -> Result<()> {
    let RkTimeRead { answer, time } = RkTime::from_bytes(given);
    let told = told::read(answer, NO_TAG);
    write!(out, "{told}")?;
    shown::time(out, time)
}

fn read_list<W: Write>(out: &mut W, given: &[u8]) -> Result<()> {
    let RkBootHeaderEntryRead { answer, list } = RkBootHeaderEntry::from_bytes(given);
    let told = told::read(answer, NO_TAG);
    write!(out, "{told}")?;
    shown::list(out, list)
}

fn read_entry<W: Write>(out: &mut W, given: &[u8]) -> Result<()> {
    let RkBootEntryRead { answer, entry } = RkBootEntry::from_bytes(given);
    let told = told::read(answer, NO_TAG);
    write!(out, "{told}")?;
    shown::entry(out, entry)
}

fn read_header<W: Write>(out: &mut W, given: &[u8]) -> Result<()> {
    let RkBootHeaderRead {
        answer,
        header,
        unknown_tag,
    } = RkBootHeader::from_bytes(given);
    let told = told::read(answer, unknown_tag);
    write!(out, "{told}")?;
    shown::header(out, header)
}

fn print_examined<W: Write>(out: &mut W, file: &[u8]) -> Result<()> {
    let examined = examine(file);
    let told = told::examined(examined.answer, examined.unknown_tag);
    write!(out, "{told}")
}

fn print_data<W: Write>(out: &mut W, part: &[u8]) -> Result<()> {
    out.write_all(b"0 ")?;
    bytes(out, part)
}

// The answer to what is asked, with the DATA that stands in the buffer.
// Stays a `match`: each case takes arguments of its own.
// Stays with these parameters: the buffers are lent by main.
fn answer<W: Write>(out: &mut W, asked: Asked, given: &[u8], file: &mut File) -> Result<()> {
    match asked {
        Asked::Time(len) => read_time(out, first(len, given)),
        Asked::List(len) => read_list(out, first(len, given)),
        Asked::Entry(len) => read_entry(out, first(len, given)),
        Asked::Header(len) => read_header(out, first(len, given)),
        Asked::File(len) => {
            file.replace(first(len, given));
            file.print_len(out)
        }
        Asked::Put { place, len } => {
            file.put(place, first(len, given));
            file.print_len(out)
        }
        Asked::Step(walk) => shown::step(out, walk.step(file.bytes())),
        Asked::Walk => walked::whole(out, file.bytes()),
        Asked::Examine => print_examined(out, file.bytes()),
        Asked::Data { start, len } => print_data(out, data_of(file.bytes(), start, len)),
    }
}

fn answer_line<W: Write>(out: &mut W, line: &[u8], into: &mut [u8], file: &mut File) -> Result<()> {
    match ask(line, into) {
        Some(asked) => answer(out, asked, into, file)?,
        None => out.write_all(b"outside")?,
    }
    out.write_all(b"\n")
}

fn main(rt: HostRuntime) -> Result<()> {
    let mut block = [0u8; 65536];
    let mut line = [0u8; 4096];
    let mut buffer = [0u8; 65536];
    let mut into = [0u8; 65536];
    let mut held = [0u8; 65536];
    let mut file = File {
        buffer: &mut held,
        len: 0,
    };
    let mut lines = Lines::new(rt.stdin(), &mut block);
    let mut out = Output::new(rt.stdout(), &mut buffer);
    // a proved loop has to end, and nothing says that the input does: no run uses up so many turns
    for _ in 0..u64::MAX {
        let Some(line) = lines.next_line(&mut line) else {
            break;
        };
        answer_line(&mut out, line, &mut into, &mut file)?;
        out.after_line()?;
    }
    out.flush()
}
