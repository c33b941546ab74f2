// What `ffi_c` exports to C and Rust: the proved functions over numbers, byte slices and a pair of counts, each with the contract of the one that it calls.
// `commands` has commands as numbers, `sectors` sector operations, `uploads` uploads to their end, `driving` the loops of an upload.
// Stays a number for a refusal, at every export: C takes no other answer.
// Stays: a clause stands three times, here, in `ffi_c` and at what is called, since an export has the clauses of what it calls.

#![tactic(auto)]

pub mod commands;
mod driving;
pub mod sectors;
pub mod uploads;

ghost use Rattle.std.specs.Prelude.{◌≡◌, length};
ghost use Rattle.promise.specs.Bytes.{front};
ghost use Rattle.promise.specs.Told.{number};
ghost use Rattle.crc.specs.Check.{crc_over};
ghost use Rattle.protocol.specs.Commands.{read_lba_command};
ghost use Rattle.protocol.specs.CommandBytes.{read_command, write_command};
ghost use Rattle.ffi.specs.Drive.{DriveMeets, whole_drive, part_drive};
ghost use Rattle.ffi.specs.Sectors.{SectorsMeet, read_sectors, write_sectors};
ghost use Rattle.ffi.specs.Command.{command_number};

// The register after all of `bytes`.
pub fn otterarch_crc_update(crc: u16, bytes: &[u8]) -> u16
    ensures { result ≡ crc_over crc bytes.now }
{
    crc::update(crc, bytes)
}

// The same a byte at a time by the 256-entry table, as the original does it.
pub fn otterarch_crc_update_by_table(crc: u16, bytes: &[u8]) -> u16
    ensures { result ≡ crc_over crc bytes.now }
{
    crc::update_by_table(crc, bytes)
}

// A whole upload to its finish, each transfer at the front of `out`: 0 or the number of the refusal, 28 past `budget` steps.
pub fn otterarch_upload_whole(area: u16, image: &[u8], out: &mut [u8], budget: u32) -> u8
    ensures { DriveMeets result out.new (whole_drive area image.now out.old budget) }
{
    crate::uploads::whole(area, image, out, budget)
}

// A whole upload in parts of `size` bytes, handed over by `budget` calls at most.
pub fn otterarch_upload_parts(
    area: u16,
    size: usize,
    image: &[u8],
    out: &mut [u8],
    budget: u64,
) -> u8
    ensures { DriveMeets result out.new (part_drive area size image.now out.old budget) }
{
    crate::uploads::parts(area, size, image, out, budget)
}

// The command that reads `sectors` from sector `first`, into the first 24 bytes of `out`: 0 or 20.
pub fn otterarch_command_write(tag: u32, first: u32, sectors: u16, out: &mut [u8]) -> u8
    ensures { (result ≡ number (write_command (read_lba_command tag first sectors) (length out.old)).told) × (out.new ≡ front (write_command (read_lba_command tag first sectors) (length out.old)).sent out.old) }
{
    crate::commands::write_command(tag, first, sectors, out)
}

// Code, address and count of a command as one number, or the number of the refusal above them.
pub fn otterarch_command_read(bytes: &[u8]) -> u64
    ensures { result ≡ command_number (read_command bytes.now) }
{
    crate::commands::read_command(bytes)
}

// Sectors of the flash from `first` on into all of `data`: 0, or the number of the refusal.
// At 0 `counts` has how many bytes were moved, then how many were asked for; at a refusal it is as it was.
pub fn otterarch_read_sectors(
    first: u32,
    flash: &mut [u8],
    data: &mut [u8],
    counts: &mut [u32; 2],
) -> u8
    ensures { SectorsMeet result flash.new «data».new counts.new (read_sectors first flash.old «data».old counts.old) }
{
    crate::sectors::read_sectors(first, flash, data, counts)
}

// All of `data` to the flash from sector `first` on: 0, or the number of the refusal.
// At 0 `counts` has how many bytes were moved, then how many were asked for; at a refusal it is as it was.
pub fn otterarch_write_sectors(
    first: u32,
    flash: &mut [u8],
    data: &[u8],
    counts: &mut [u32; 2],
) -> u8
    ensures { SectorsMeet result flash.new «data».now counts.new (write_sectors first flash.old «data».now counts.old) }
{
    crate::sectors::write_sectors(first, flash, data, counts)
}
