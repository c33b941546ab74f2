// The four forms of DATA, into a lent buffer.
use crate::buffer::first_mut;
use crate::tokens::Tokens;

// the most of a LEN, but of an image's
pub const LEN: usize = 65536;

// the most of the current upload's image
pub const IMAGE: usize = 100000;

// A form that is not spelled out, but grows from a number.
#[derive(Clone, Copy, PartialEq, Eq)]
pub enum Form {
    Same,
    Ramp,
    Seeded,
}

// Stays by hand: the language has lower-case digits alone.
fn nibble(digit: u8) -> Option<u8> {
    match digit {
        b'0'..=b'9' => Some(digit - b'0'),
        b'a'..=b'f' => Some(digit - b'a' + 10),
        _ => None,
    }
}

fn ramp(part: &mut [u8], start: u8) {
    let mut next = start % 251;
    for place in part {
        *place = next;
        next = next.wrapping_add(1) % 251;
    }
}

fn seeded(part: &mut [u8], seed: u32) {
    let mut state = seed;
    for place in part {
        state = state.wrapping_mul(1664525).wrapping_add(1013904223);
        let [high, _, _, _] = state.to_be_bytes();
        *place = high;
    }
}

impl Form {
    // Stays `of`: the error of a `TryFrom` would say no more than `None`.
    pub fn of(letter: u8) -> Option<Form> {
        match letter {
            b'f' => Some(Form::Same),
            b'r' => Some(Form::Ramp),
            b's' => Some(Form::Seeded),
            _ => None,
        }
    }

    // Grows a part from this number, of which only a seed has more than its low byte.
    pub fn grow(self, part: &mut [u8], given: u32) {
        let [.., low] = given.to_be_bytes();
        match self {
            Form::Same => part.fill(low),
            Form::Ramp => ramp(part, low),
            Form::Seeded => seeded(part, given),
        }
    }
}

impl Tokens<'_> {
    // A byte as two digits of hex.
    pub fn pair(&mut self) -> Option<u8> {
        let mut behind = *self;
        let high = nibble(behind.byte()?)?;
        let low = nibble(behind.byte()?)?;
        *self = behind;
        Some(high << 4 | low)
    }

    // The bytes that are spelled out here, to the front of a lent buffer: how many they are, with those that it has no room for.
    pub fn spelled(&mut self, into: &mut [u8]) -> usize {
        let mut places = into.iter_mut();
        let mut n = 0usize;
        // a proved loop has to end, and no line has so many pairs
        for _ in 0..usize::MAX {
            let Some(byte) = self.pair() else {
                break;
            };
            if let Some(place) = places.next() {
                *place = byte;
            }
            n = n.wrapping_add(1);
        }
        n
    }

    // OUTLEN FILL: the first OUTLEN bytes of a lent room are FILL. How many they are.
    pub fn room(&mut self, room: &mut [u8]) -> Option<usize> {
        let len = self.at_most(LEN)?;
        let fill = self.u8()?;
        first_mut(len, room).fill(fill);
        Some(len)
    }

    // DATA of at most `most` bytes, or spelled out, to the front of a lent buffer: how many they are, with those that it has no room for.
    // Stays forms taken one by one: each reads its own tokens.
    pub fn data(&mut self, most: usize, into: &mut [u8]) -> Option<usize> {
        self.gap()?;
        let letter = self.byte()?;
        if letter == b'x' {
            return Some(self.spelled(into));
        }
        let form = Form::of(letter)?;
        let len = self.at_most(most)?;
        let given = if form == Form::Seeded {
            self.u32()?
        } else {
            u32::from(self.u8()?)
        };
        form.grow(first_mut(len, into), given);
        Some(len)
    }

    // DATA of exactly so many bytes.
    pub fn array<const N: usize>(&mut self) -> Option<[u8; N]> {
        let mut bytes = [0; N];
        if self.data(LEN, &mut bytes)? == N {
            Some(bytes)
        } else {
            None
        }
    }
}
