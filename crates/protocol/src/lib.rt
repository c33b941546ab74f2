// The command block: what our operations ask, written into 31 bytes and read back.

#![tactic(auto)]

ghost use Rattle.std.specs.Prelude.{◌≡◌, List, ℕ, ◌≤◌, length};
ghost use Rattle.protocol.specs.Commands.{reply_command, opcode_command, sector_command, flash_id_command, flash_info_command, capability_command, chip_info_command, storage_command, erase_lba_command, erase_force_command, read_lba_command, write_lba_command, reset_command, switch_command};
ghost use Rattle.protocol.specs.CommandBytes.{BlockFits, command_bytes, block_of, read_command, write_command};
ghost use Rattle.protocol.specs.CommandMeets.{CommandMeets, command_error_number, command_told};
ghost use Rattle.promise.specs.Told.{number};
ghost use Rattle.protocol_bytes.specs.Writing.{WriteMeets};

use protocol_bytes::SECTOR_SIZE;
use protocol_bytes::order::{
    u16_from_be_bytes, u16_to_be_bytes, u32_from_be_bytes, u32_from_le_bytes, u32_to_be_bytes,
    u32_to_le_bytes,
};
use protocol_bytes::signature::{Parse, parsed, starts_with};
use protocol_codes::{
    CommandCode, Direction, ResetOpcode, StorageIndex, UnknownCode, UnknownDirection,
};
use rule_number::{OutputTooShort, RuleNumber};

// Total size of a command block.
pub const COMMAND_BLOCK_BYTES: usize = 31;

const SIGNATURE: [u8; 4] = *b"USBC";

// Length of the command data block: for a command with nothing but an opcode, and for one over sectors.
const SHORT_CDB: u8 = 0x6;

const LONG_CDB: u8 = 0xa;

#[derive(Clone, Copy, Debug, PartialEq, Eq)]
pub struct CommandBlock {
    pub tag: u32,
    pub transfer_length: u32,
    pub flags: Direction,
    pub lun: u8,
    pub cdb_length: u8,
    pub cd_code: CommandCode,
    pub cd_opcode: u8,
    pub cd_address: u32,
    pub cd_length: u16,
}

// Why bytes are no command block. The signature's bytes stand beside it.
#[derive(Clone, Copy, Debug, PartialEq, Eq)]
pub enum CommandBlockParseError {
    InvalidSignature,
    UnknownCommandCode(u8),
    UnknownFlags(u8),
    InvalidLength(usize),
}

impl RuleNumber for CommandBlockParseError {
    ghost rule_number = { command_error_number };

    #[tactic(auto, unfolding(crate::specs::CommandMeets::command_error_number))]
    fn number(self) -> u8 {
        match self {
            CommandBlockParseError::InvalidLength(_) => 1,
            CommandBlockParseError::InvalidSignature => 2,
            CommandBlockParseError::UnknownFlags(_) => 3,
            CommandBlockParseError::UnknownCommandCode(_) => 4,
        }
    }
}

// A request for `length` bytes of reply.
fn reply_command(tag: u32, length: u32, code: CommandCode) -> CommandBlock
    ensures { result ≡ reply_command tag length code }
{
    CommandBlock {
        tag,
        transfer_length: length,
        flags: Direction::In,
        lun: 0,
        cdb_length: SHORT_CDB,
        cd_code: code,
        cd_opcode: 0,
        cd_address: 0,
        cd_length: 0,
    }
}

// A command with an opcode and no data.
fn opcode_command(tag: u32, code: CommandCode, opcode: u8) -> CommandBlock
    ensures { result ≡ opcode_command tag code opcode }
{
    CommandBlock {
        tag,
        transfer_length: 0,
        flags: Direction::Out,
        lun: 0,
        cdb_length: SHORT_CDB,
        cd_code: code,
        cd_opcode: opcode,
        cd_address: 0,
        cd_length: 0,
    }
}

// A command over `count` sectors from sector `first`, with `length` bytes of data.
fn sector_command(
    tag: u32,
    length: u32,
    flags: Direction,
    code: CommandCode,
    first: u32,
    count: u16,
) -> CommandBlock
    ensures { result ≡ sector_command tag length flags code first count }
{
    CommandBlock {
        tag,
        transfer_length: length,
        flags,
        lun: 0,
        cdb_length: LONG_CDB,
        cd_code: code,
        cd_opcode: 0,
        cd_address: first,
        cd_length: count,
    }
}

// The block that stands in at least 31 bytes, its direction and code already read.
#[tactic(auto, using(protocol_bytes::proofs::Short::field_elements), unfolding(crate::specs::CommandBytes::block_of))]
fn block_of(bytes: &[u8], flags: Direction, code: CommandCode) -> CommandBlock
    requires { 31 ≤ length bytes.now }
    ensures { result ≡ block_of bytes.now flags code }
{
    CommandBlock {
        tag: u32_from_be_bytes([bytes[4], bytes[5], bytes[6], bytes[7]]),
        transfer_length: u32_from_le_bytes([bytes[8], bytes[9], bytes[10], bytes[11]]),
        flags,
        lun: bytes[13],
        cdb_length: bytes[14],
        cd_code: code,
        cd_opcode: bytes[16],
        cd_address: u32_from_be_bytes([bytes[17], bytes[18], bytes[19], bytes[20]]),
        cd_length: u16_from_be_bytes([bytes[22], bytes[23]]),
    }
}

impl CommandBlock {
    // Stay, all to `switch_storage`: the Rust's names, each with its constant.
    pub fn flash_id(tag: u32) -> CommandBlock
        ensures { result ≡ flash_id_command tag }
    {
        reply_command(tag, 5, CommandCode::ReadFlashId)
    }

    pub fn flash_info(tag: u32) -> CommandBlock
        ensures { result ≡ flash_info_command tag }
    {
        reply_command(tag, 11, CommandCode::ReadFlashInfo)
    }

    pub fn capability(tag: u32) -> CommandBlock
        ensures { result ≡ capability_command tag }
    {
        reply_command(tag, 8, CommandCode::ReadCapability)
    }

    pub fn chip_info(tag: u32) -> CommandBlock
        ensures { result ≡ chip_info_command tag }
    {
        reply_command(tag, 16, CommandCode::ReadChipInfo)
    }

    pub fn storage(tag: u32) -> CommandBlock
        ensures { result ≡ storage_command tag }
    {
        reply_command(tag, 4, CommandCode::GetStorageMedia)
    }

    pub fn erase_lba(tag: u32, first: u32, count: u16) -> CommandBlock
        ensures { result ≡ erase_lba_command tag first count }
    {
        sector_command(tag, 0, Direction::Out, CommandCode::EraseLBA, first, count)
    }

    pub fn erase_force(tag: u32, first: u32, count: u16) -> CommandBlock
        ensures { result ≡ erase_force_command tag first count }
    {
        sector_command(
            tag,
            0,
            Direction::Out,
            CommandCode::EraseForce,
            first,
            count,
        )
    }

    // Stays beside `write_lba`: the Rust's two names; what they share is `sector_command`.
    pub fn read_lba(tag: u32, first: u32, sectors: u16) -> CommandBlock
        ensures { result ≡ read_lba_command tag first sectors }
    {
        let length = (sectors as u32) * (SECTOR_SIZE as u32);
        sector_command(
            tag,
            length,
            Direction::In,
            CommandCode::ReadLBA,
            first,
            sectors,
        )
    }

    pub fn write_lba(tag: u32, first: u32, sectors: u16) -> CommandBlock
        ensures { result ≡ write_lba_command tag first sectors }
    {
        let length = (sectors as u32) * (SECTOR_SIZE as u32);
        sector_command(
            tag,
            length,
            Direction::Out,
            CommandCode::WriteLBA,
            first,
            sectors,
        )
    }

    pub fn reset_device(tag: u32, opcode: ResetOpcode) -> CommandBlock
        ensures { result ≡ reset_command tag opcode }
    {
        opcode_command(tag, CommandCode::DeviceReset, u8::from(opcode))
    }

    pub fn switch_storage(tag: u32, index: StorageIndex) -> CommandBlock
        ensures { result ≡ switch_command tag index }
    {
        opcode_command(tag, CommandCode::SwitchStorage, u8::from(index))
    }

    pub fn tag(self) -> u32
        ensures { result ≡ self.tag }
    {
        self.tag
    }

    pub fn transfer_length(self) -> u32
        ensures { result ≡ self.transfer_length }
    {
        self.transfer_length
    }

    pub fn direction(self) -> Direction
        ensures { result ≡ self.flags }
    {
        self.flags
    }

    pub fn cd_code(self) -> CommandCode
        ensures { result ≡ self.cd_code }
    {
        self.cd_code
    }

    pub fn cd_opcode(self) -> u8
        ensures { result ≡ self.cd_opcode }
    {
        self.cd_opcode
    }

    pub fn cd_address(self) -> u32
        ensures { result ≡ self.cd_address }
    {
        self.cd_address
    }

    pub fn cd_length(self) -> u16
        ensures { result ≡ self.cd_length }
    {
        self.cd_length
    }

    #[tactic(auto, unfolding(promise::specs::Bytes::low_first, promise::specs::Bytes::high_first, crate::specs::CommandBytes::command_bytes))]
    fn bytes(self) -> [u8; 24]
        ensures { result ≡ command_bytes self }
    {
        let tag = u32_to_be_bytes(self.tag);
        let length = u32_to_le_bytes(self.transfer_length);
        let flags = self.flags;
        let code = self.cd_code;
        let address = u32_to_be_bytes(self.cd_address);
        let count = u16_to_be_bytes(self.cd_length);
        [
            0x55,
            0x53,
            0x42,
            0x43,
            tag[0],
            tag[1],
            tag[2],
            tag[3],
            length[0],
            length[1],
            length[2],
            length[3],
            u8::from(flags),
            self.lun,
            self.cdb_length,
            u8::from(code),
            self.cd_opcode,
            address[0],
            address[1],
            address[2],
            address[3],
            0,
            count[0],
            count[1],
        ]
    }

    // Fills the first 24 bytes and answers 31: the rest is the caller's.
    // Stays beside that of the status block: two arrays of two sizes, each with a fact of its own block beside (`BlockFits`, `StatusFits`).
    #[tactic(auto, unfolding(crate::specs::CommandBytes::write_command, protocol_bytes::specs::Writing::writing, protocol_bytes::specs::Writing::written_told, promise::specs::Rules::or_refuse))]
    pub fn to_bytes(self, out: &mut [u8]) -> Result<usize, OutputTooShort>
        ensures write_meets { WriteMeets result out.old out.new (write_command self (length out.old)) }
        ensures block_fits { BlockFits self }
    {
        if out.len() < COMMAND_BLOCK_BYTES {
            return Err(OutputTooShort);
        }
        let block = self.bytes();
        out[..24].copy_from_slice(&block);
        Ok(COMMAND_BLOCK_BYTES)
    }

    pub fn from_bytes(bytes: &[u8]) -> Parse<CommandBlock, CommandBlockParseError>
        ensures { CommandMeets result (read_command bytes.now) }
    {
        if bytes.len() < COMMAND_BLOCK_BYTES {
            return parsed(Err(CommandBlockParseError::InvalidLength(bytes.len())));
        }
        if !starts_with(bytes, SIGNATURE) {
            return Parse {
                answer: Err(CommandBlockParseError::InvalidSignature),
                signature: [bytes[0], bytes[1], bytes[2], bytes[3]],
            };
        }
        let Ok(flags) = Direction::try_from(bytes[12]) else {
            return parsed(Err(CommandBlockParseError::UnknownFlags(bytes[12])));
        };
        let Ok(code) = CommandCode::try_from(bytes[15]) else {
            return parsed(Err(CommandBlockParseError::UnknownCommandCode(bytes[15])));
        };
        parsed(Ok(block_of(bytes, flags, code)))
    }
}
