// Answers on their way out.
use replay_lines::buffer::{behind_mut, copy, first, first_mut};
use std::io::{Result, Write};

// The writer, and what is to be written, in the first `len` bytes of a lent buffer.
// Stays a buffer with its length: nothing here allocates.
#[derive(Drop)]
pub struct Output<'a, W> {
    to: W,
    buffer: &'a mut [u8],
    len: usize,
}

impl<'a, W: Write> Output<'a, W> {
    pub fn new(to: W, buffer: &'a mut [u8]) -> Output<'a, W> {
        Output { to, buffer, len: 0 }
    }

    fn write_out(&mut self) -> Result<()> {
        let len = self.len;
        self.len = 0;
        self.to.write_all(first_mut(len, self.buffer))
    }

    // Behind a line: all that waits is written out, where it is more than half of the buffer. So whole lines are written at a time.
    pub fn after_line(&mut self) -> Result<()> {
        if self.len > self.buffer.len() / 2 {
            self.write_out()?;
        }
        Ok(())
    }
}

impl<W: Write> Write for Output<'_, W> {
    fn write(&mut self, bytes: &[u8]) -> Result<usize> {
        if self.len >= self.buffer.len() {
            self.write_out()?;
        }
        let len = self.len;
        let n = copy(bytes, behind_mut(len, self.buffer));
        self.len = len.wrapping_add(n);
        Ok(n)
    }

    fn flush(&mut self) -> Result<()> {
        self.write_out()?;
        self.to.flush()
    }
}

// Stays by hand: a write for each byte takes twice the time.
fn digit(nibble: u8) -> u8 {
    match nibble {
        0..=9 => b'0' + nibble,
        10..=15 => b'a' + (nibble - 10),
        _ => b'?',
    }
}

// Sixty-four bytes at a time, since a write for each takes twice the time.
pub fn hex<W: Write>(out: &mut W, bytes: &[u8]) -> Result<()> {
    for part in bytes.chunks(64) {
        let mut text = [0u8; 128];
        for (pair, byte) in text.chunks_exact_mut(2).zip(part) {
            pair.copy_from_slice(&[digit(byte >> 4), digit(byte & 15)]);
        }
        out.write_all(first(part.len().wrapping_mul(2), &text))?;
    }
    Ok(())
}

// A digest with one more number in it.
pub fn digest_step(h: u32, n: u32) -> u32 {
    ((h as u64 * 16777619 + n as u64 + 1) % 4294967291) as u32
}

fn digest(bytes: &[u8]) -> u32 {
    bytes
        .iter()
        .fold(1, |h, byte| digest_step(h, u32::from(*byte)))
}

// The language's BYTES: spelled out up to 64, a digest above.
pub fn bytes<W: Write>(out: &mut W, bytes: &[u8]) -> Result<()> {
    let len = bytes.len();
    if len <= 64 {
        write!(out, "{len}:")?;
        hex(out, bytes)
    } else {
        let digest = digest(bytes);
        write!(out, "{len}#{digest:08x}")
    }
}

// Bytes as a section.
pub fn section<W: Write>(out: &mut W, part: &[u8]) -> Result<()> {
    out.write_all(b" | ")?;
    bytes(out, part)
}
