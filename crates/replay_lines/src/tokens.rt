// A line of the language, read token by token: each reader takes its token off what is left of the line. Where the line is not of the language there
// is nothing to read, and the line is answered `outside`.

// What is left of a line.
#[derive(Clone, Copy)]
pub struct Tokens<'a> {
    rest: &'a [u8],
}

// One more digit, where the number still fits.
// Stays by hand: `parse` reads text, and a line is bytes.
fn with_digit(number: u64, digit: u8) -> Option<u64> {
    number
        .checked_mul(10)?
        .checked_add(digit.wrapping_sub(b'0') as u64)
}

impl<'a> Tokens<'a> {
    pub fn new(line: &'a [u8]) -> Tokens<'a> {
        Tokens { rest: line }
    }

    // Whether the line ends here.
    pub fn end(self) -> Option<()> {
        if self.rest.is_empty() { Some(()) } else { None }
    }

    pub fn byte(&mut self) -> Option<u8> {
        self.rest.split_off_first().copied()
    }

    // Past the one space that stands before every token but the first.
    pub fn gap(&mut self) -> Option<()> {
        self.rest = self.rest.strip_prefix(b" ")?;
        Some(())
    }

    // The bytes from here on for which this holds.
    fn run<F: Fn(&u8) -> bool + Drop>(&mut self, is_one: F) -> &'a [u8]
        requires { F.IsAlwaysCallable is_one }
    {
        let end = self.rest.iter().position(|byte| !is_one(byte));
        let (run, rest) = self.rest.split_at(end.unwrap_or(self.rest.len()));
        self.rest = rest;
        run
    }

    // The digits that stand here.
    pub fn digits(&mut self) -> &'a [u8] {
        self.run(u8::is_ascii_digit)
    }

    // The lower-case letters that stand here.
    pub fn word(&mut self) -> &'a [u8] {
        self.run(u8::is_ascii_lowercase)
    }

    // The three letters of a name.
    pub fn name(&mut self) -> Option<[u8; 3]> {
        let (name, rest) = self.rest.split_first_chunk::<3>()?;
        self.rest = rest;
        Some(*name)
    }

    // A number without leading zeros, with no space before it.
    pub fn first_number(&mut self) -> Option<u64> {
        match self.digits() {
            [] | [b'0', _, ..] => None,
            digits => digits
                .iter()
                .try_fold(0u64, |number, digit| with_digit(number, *digit)),
        }
    }

    pub fn u64(&mut self) -> Option<u64> {
        self.gap()?;
        self.first_number()
    }

    pub fn u32(&mut self) -> Option<u32> {
        u32::try_from(self.u64()?).ok()
    }

    pub fn u16(&mut self) -> Option<u16> {
        u16::try_from(self.u64()?).ok()
    }

    pub fn u8(&mut self) -> Option<u8> {
        u8::try_from(self.u64()?).ok()
    }

    // A number of at most `most`.
    pub fn at_most(&mut self, most: usize) -> Option<usize> {
        let number = usize::try_from(self.u64()?).ok()?;
        if number <= most { Some(number) } else { None }
    }
}
