// A line's answer, by value: what it is told, which bytes stand behind that, and the sections that are a count or the room.
use crate::out::{bytes, section};
use crate::told::Told;
use replay_lines::buffer::{copy, first};
use std::io::{Result, Write};

// Bytes that stand behind the values.
// Stays an enum with `Nothing`: it is one of the five rows of `print_tail`.
#[derive(Clone, Copy)]
pub enum Tail {
    Nothing,
    // the first bytes of `small`
    Small(usize),
    // the first bytes of the room as they are: a text with a space before it
    Text(usize),
    // the first bytes of the room
    Room(usize),
    // the first bytes of the current operation's data
    Own(usize),
}

// The bytes of a small tail stand beside it. A run has steps, and a call with OUTLEN and FILL the room.
// Stays a buffer beside its length: nothing here allocates.
#[derive(Clone, Copy)]
pub struct Answer {
    pub told: Told,
    pub tail: Tail,
    pub small: [u8; 16],
    pub steps: Option<u32>,
    pub room: Option<usize>,
}

impl From<Told> for Answer {
    fn from(told: Told) -> Answer {
        Answer::with_tail(told, Tail::Nothing)
    }
}

fn spaced<W: Write>(out: &mut W, part: &[u8]) -> Result<()> {
    out.write_all(b" ")?;
    bytes(out, part)
}

impl Answer {
    pub fn with_tail(told: Told, tail: Tail) -> Answer {
        Answer {
            told,
            tail,
            small: [0; 16],
            steps: None,
            room: None,
        }
    }

    // With these bytes behind what is told, at most 16.
    pub fn with_small(told: Told, part: &[u8]) -> Answer {
        let mut answer = Answer::from(told);
        answer.tail = Tail::Small(copy(part, &mut answer.small));
        answer
    }

    pub fn with_steps(mut self, steps: u32) -> Answer {
        self.steps = Some(steps);
        self
    }

    pub fn with_room(mut self, len: usize) -> Answer {
        self.room = Some(len);
        self
    }

    // A step that is the finish: the values of what it came to stand behind a 3.
    pub fn as_finish(mut self) -> Answer {
        self.told = self.told.behind(0, 3);
        self
    }

    fn print_tail<W: Write>(&self, out: &mut W, room: &[u8], own: &[u8]) -> Result<()> {
        match self.tail {
            Tail::Nothing => Ok(()),
            Tail::Small(n) => spaced(out, first(n, &self.small)),
            Tail::Text(n) => out.write_all(first(n, room)),
            Tail::Room(n) => spaced(out, first(n, room)),
            Tail::Own(n) => spaced(out, first(n, own)),
        }
    }

    // What is told and what stands behind it, the steps and the room.
    pub fn print<W: Write>(&self, out: &mut W, room: &[u8], own: &[u8]) -> Result<()> {
        let told = self.told;
        write!(out, "{told}")?;
        self.print_tail(out, room, own)?;
        if let Some(steps) = self.steps {
            write!(out, " | {steps}")?;
        }
        if let Some(len) = self.room {
            section(out, first(len, room))?;
        }
        Ok(())
    }
}

// The whole line of an answer that has no other section. A line that is not of the language, or about a thing that is not there, is outside.
pub fn print_line<W: Write>(out: &mut W, answer: Option<Answer>, room: &[u8]) -> Result<()> {
    match answer {
        Some(answer) => answer.print(out, room, b"")?,
        None => out.write_all(b"outside")?,
    }
    out.write_all(b"\n")
}
