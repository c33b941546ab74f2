// The check over messages whose values were computed by something other than this code (README.md beside says how):
// a line of length and check for each.

#![tactic(auto)]

use std::io::{Result, Write};

const LENGTHS: [usize; 8] = [1, 2, 255, 256, 257, 4095, 4096, 4097];

// Byte i is (i * 7 + 3) % 256.
fn ramp() -> [u8; 4097] {
    let mut bytes = [0; 4097];
    let mut next: u8 = 3;
    for byte in &mut bytes {
        *byte = next;
        next = next.wrapping_add(7);
    }
    bytes
}

fn print_check<W: Write>(to: &mut W, message: &[u8]) -> Result<()> {
    writeln!(to, "{} {:04x}", message.len(), crc::checksum(message))
}

fn print_single_bytes<W: Write>(to: &mut W) -> Result<()> {
    for byte in 0..=u8::MAX {
        print_check(to, &[byte])?;
    }
    Ok(())
}

// The ramp's first bytes.
fn print_lengths<W: Write>(to: &mut W) -> Result<()> {
    let bytes = ramp();
    for length in LENGTHS {
        if let Some(message) = bytes.get(..length) {
            print_check(to, message)?;
        }
    }
    Ok(())
}

fn main(rt: HostRuntime) -> Result<()> {
    let mut output = rt.stdout();
    print_check(&mut output, b"123456789")?;
    print_check(&mut output, b"")?;
    print_single_bytes(&mut output)?;
    print_lengths(&mut output)
}
