// Standard input cut into lines, whatever the reads bring.
use crate::buffer::{behind, behind_mut, copy, first};
use std::io::Read;

// What of the block that was read last is not cut up yet: what stands from `start` to `end`.
#[derive(Clone, Copy, Debug, PartialEq, Eq)]
pub struct Input {
    start: usize,
    end: usize,
}

// Nothing was read yet.
pub fn start() -> Input {
    Input { start: 0, end: 0 }
}

// The reader, the block that was read last, and what of it is left.
// Stays a buffer with its places: nothing here allocates.
#[derive(Drop)]
pub struct Lines<'a, R> {
    from: R,
    block: &'a mut [u8],
    left: Input,
}

impl<'a, R: Read> Lines<'a, R> {
    pub fn new(from: R, block: &'a mut [u8]) -> Lines<'a, R> {
        Lines {
            from,
            block,
            left: start(),
        }
    }

    // Whether there is more. A read that fails ends the input, as one that brings nothing does.
    fn read_on(&mut self) -> bool {
        let end = self.from.read(self.block).unwrap_or(0);
        self.left = Input { start: 0, end };
        end > 0
    }

    // Bytes of the block go to the rest of a line, up to a line feed: how many, and whether the line feed was there. A line that is too long fills
    // its buffer.
    fn take(&mut self, rest: &mut [u8]) -> (usize, bool) {
        let Input { start, end } = self.left;
        let left = behind(start, first(end, self.block));
        let found = left.iter().position(|byte| *byte == b'\n');
        let n = found.unwrap_or(left.len());
        let taken = copy(&left[..n], rest);
        self.left.start = start.wrapping_add(n).wrapping_add(1);
        (taken, found.is_some())
    }

    // How many bytes of its buffer the next line takes. A proved loop has to end, and nothing says that the input does: no run uses up so many turns.
    fn read_line(&mut self, line: &mut [u8]) -> Option<usize> {
        let mut len = 0usize;
        for _ in 0..u64::MAX {
            if self.left.start >= self.left.end && !self.read_on() {
                break;
            }
            let (taken, is_whole) = self.take(behind_mut(len, line));
            len = len.wrapping_add(taken);
            if is_whole {
                return Some(len);
            }
        }
        // what stands behind the last line feed is a line, if it is anything
        if len > 0 { Some(len) } else { None }
    }

    // The next line, in a lent buffer. One that fills it was too long, and counts as empty.
    pub fn next_line<'l>(&mut self, line: &'l mut [u8]) -> Option<&'l [u8]> {
        let len = self.read_line(line)?;
        if len < line.len() {
            Some(first(len, line))
        } else {
            Some(b"")
        }
    }
}
