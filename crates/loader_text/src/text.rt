// Letters, four bytes, and the names of lists.
use std::fmt::{Display, Formatter, Result, Write};

const BACKSLASH: u16 = 0x5C;

// A unit of UTF-16: as its letter where that is ASCII that can be seen, a space among it, and else as `\u` and four digits in hex. The backslash starts
// what stands for all else.
#[derive(Clone, Copy)]
pub(crate) struct Unit(pub u16);

impl Display for Unit {
    fn fmt<W: Write>(&self, f: &mut Formatter<W>) -> Result {
        match self.0 {
            unit @ 0x20..=0x7E if unit != BACKSLASH => f.write_char(unit as u8 as char),
            unit => write!(f, "\\u{unit:04x}"),
        }
    }
}

// Four bytes as letters, and in hex.
#[derive(Clone, Copy)]
pub(crate) struct Four(pub [u8; 4]);

impl Display for Four {
    fn fmt<W: Write>(&self, f: &mut Formatter<W>) -> Result {
        for byte in self.0 {
            write!(f, "{}", Unit(byte as u16))?;
        }
        write!(f, " ({:08x})", u32::from_be_bytes(self.0))
    }
}

// The units of a name up to the first 0.
#[derive(Clone, Copy)]
pub(crate) struct Name(pub [u16; 20]);

impl Display for Name {
    fn fmt<W: Write>(&self, f: &mut Formatter<W>) -> Result {
        for unit in self.0 {
            if unit == 0 {
                break;
            }
            write!(f, "{}", Unit(unit))?;
        }
        Ok(())
    }
}

// The name of a walk's list.
// Stays a number: a walk's list is one.
pub(crate) fn list_name(list: u8) -> &'static str {
    match list {
        0 => "471",
        1 => "472",
        _ => "loader",
    }
}
