// A header's lines.
use crate::text::Four;
use loader_records::header::RkBootHeader;
use loader_records::time::RkTime;
use std::fmt::{self, Display, Formatter};
use std::io::{Result, Write};

// As a date where it is one, and else as the same numbers.
#[derive(Clone, Copy)]
struct Time(RkTime);

impl Display for Time {
    fn fmt<W: fmt::Write>(&self, f: &mut Formatter<W>) -> fmt::Result {
        let t = self.0;
        write!(f, "{:04}-{:02}-{:02} ", t.year, t.month, t.day)?;
        write!(f, "{:02}:{:02}:{:02}", t.hour, t.minute, t.second)
    }
}

pub(crate) fn print_header<W: Write>(to: &mut W, header: RkBootHeader) -> Result<()> {
    writeln!(to, "tag            {}", Four(header.tag))?;
    writeln!(to, "version        0x{:08x}", header.version)?;
    writeln!(to, "merge version  0x{:08x}", header.merge_version)?;
    writeln!(to, "release time   {}", Time(header.release))?;
    writeln!(to, "chip           {}", Four(header.supported_chip))?;
    writeln!(to, "sign flag      0x{:02x}", header.sign_flag)?;
    writeln!(to, "RC4 flag       0x{:02x}", header.rc4_flag)?;
    writeln!(
        to,
        "entries        471: {}, 472: {}, loader: {}",
        header.entry_471.count, header.entry_472.count, header.entry_loader.count
    )
}
