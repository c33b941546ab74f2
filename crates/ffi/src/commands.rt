// A command over numbers and byte slices: one that reads sectors written, and any read as one number.
ghost use Rattle.std.specs.Prelude.{◌≡◌, length};
ghost use Rattle.promise.specs.Bytes.{front};
ghost use Rattle.promise.specs.Told.{given, number};
ghost use Rattle.protocol.specs.Commands.{read_lba_command};
ghost use Rattle.protocol.specs.CommandBytes.{read_command, write_command};
ghost use Rattle.ffi.specs.Command.{command_number};

use protocol::CommandBlock;
use rule_number::RuleNumber;

// A command as one number.
fn number_of(block: CommandBlock) -> u64
    ensures { result ≡ command_number (given block) }
{
    (u8::from(block.cd_code) as u64)
        + (block.cd_address as u64) * 0x100
        + (block.cd_length as u64) * 0x100_0000_0000
}

// The command that reads `sectors` from sector `first`, into the first 24 bytes of `out`: 0 or 20.
pub fn write_command(tag: u32, first: u32, sectors: u16, out: &mut [u8]) -> u8
    ensures { (result ≡ number (write_command (read_lba_command tag first sectors) (length out.old)).told) × (out.new ≡ front (write_command (read_lba_command tag first sectors) (length out.old)).sent out.old) }
{
    CommandBlock::read_lba(tag, first, sectors)
        .to_bytes(out)
        .number()
}

// Code, address and count of a command as one number, or the number of the refusal above them.
pub fn read_command(bytes: &[u8]) -> u64
    ensures { result ≡ command_number (read_command bytes.now) }
{
    match CommandBlock::from_bytes(bytes).answer {
        Ok(block) => number_of(block),
        Err(error) => (error.number() as u64) * 0x100_0000_0000_0000,
    }
}
