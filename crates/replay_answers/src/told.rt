// What a line is told: a number with its values.
use rule_number::RuleNumber;
use std::fmt;

// A number, and the first `count` of the values.
// Stays numbers with their count: a line is told numbers (differential/LANGUAGE.md), and nothing here allocates.
#[derive(Clone, Copy)]
pub struct Told {
    pub number: u8,
    count: usize,
    values: [u64; 9],
}

impl Told {
    // With these values, of which there are at most nine.
    pub fn of(number: u8, values: &[u64]) -> Told {
        let mut told = Told {
            number,
            count: 0,
            values: [0; 9],
        };
        for (place, value) in told.values.iter_mut().zip(values) {
            *place = *value;
        }
        told.count = values.len().min(9);
        told
    }

    // The number of an answer, with no values.
    pub fn numbered<A: RuleNumber>(answer: A) -> Told {
        Told::of(answer.number(), &[])
    }

    // With these four bytes as its values.
    pub fn of_bytes(number: u8, bytes: [u8; 4]) -> Told {
        Told::of(number, &bytes.map(u64::from))
    }

    // The same values behind another.
    pub fn behind(self, number: u8, first: u64) -> Told {
        let [a, b, c, d, e, f, g, h, _] = self.values;
        Told {
            number,
            count: self.count.min(8) + 1,
            values: [first, a, b, c, d, e, f, g, h],
        }
    }
}

// NUMBER VALUES
impl fmt::Display for Told {
    fn fmt<W: fmt::Write>(&self, f: &mut fmt::Formatter<W>) -> fmt::Result {
        let number = self.number;
        write!(f, "{number}")?;
        for value in self.values.iter().take(self.count) {
            write!(f, " {value}")?;
        }
        Ok(())
    }
}
