// The operations of a device in the full USB protocol, each at its start.
ghost use Rattle.std.specs.Prelude.{◌≡◌};
ghost use Rattle.protocol.specs.Commands.{chip_info_command, flash_id_command, flash_info_command, capability_command, storage_command, erase_lba_command, erase_force_command, reset_command, switch_command, read_lba_command, write_lba_command};
ghost use Rattle.protocol_reply.specs.Sectors.{sector_told};
ghost use Rattle.operation.specs.Record.{fresh};
ghost use Rattle.operation.specs.Start.{sectors_or0, StartMeets};

use crate::steps::UsbOperation;
use operation_finish::Kind;
use protocol::CommandBlock;
use protocol_codes::{ResetOpcode, StorageIndex};
use protocol_reply::size::{SectorCount, SectorError, sector_count};

// How many sectors the data has, or 23 or 24 with an operation of length 0.
// Stays a record beside its answer: `StartMeets` tells the record at a refusal too.
#[derive(Clone, Copy)]
pub struct UsbStart {
    pub answer: Result<SectorCount, SectorError>,
    pub operation: UsbOperation,
}

// Stay nine, to `switch_storage`: the Rust's names, each with its constant.
pub fn chip_info(tag: u32) -> UsbOperation
    ensures { result ≡ fresh Kind.ChipInfo (chip_info_command tag) }
{
    UsbOperation::new(Kind::ChipInfo, CommandBlock::chip_info(tag))
}

pub fn flash_id(tag: u32) -> UsbOperation
    ensures { result ≡ fresh Kind.FlashId (flash_id_command tag) }
{
    UsbOperation::new(Kind::FlashId, CommandBlock::flash_id(tag))
}

pub fn flash_info(tag: u32) -> UsbOperation
    ensures { result ≡ fresh Kind.FlashInfo (flash_info_command tag) }
{
    UsbOperation::new(Kind::FlashInfo, CommandBlock::flash_info(tag))
}

pub fn capability(tag: u32) -> UsbOperation
    ensures { result ≡ fresh Kind.Capability (capability_command tag) }
{
    UsbOperation::new(Kind::Capability, CommandBlock::capability(tag))
}

pub fn storage(tag: u32) -> UsbOperation
    ensures { result ≡ fresh Kind.Storage (storage_command tag) }
{
    UsbOperation::new(Kind::Storage, CommandBlock::storage(tag))
}

pub fn erase_lba(tag: u32, first: u32, count: u16) -> UsbOperation
    ensures { result ≡ fresh Kind.Nothing (erase_lba_command tag first count) }
{
    UsbOperation::new(Kind::Nothing, CommandBlock::erase_lba(tag, first, count))
}

pub fn erase_force(tag: u32, first: u32, count: u16) -> UsbOperation
    ensures { result ≡ fresh Kind.Nothing (erase_force_command tag first count) }
{
    UsbOperation::new(Kind::Nothing, CommandBlock::erase_force(tag, first, count))
}

pub fn reset_device(tag: u32, opcode: ResetOpcode) -> UsbOperation
    ensures { result ≡ fresh Kind.Nothing (reset_command tag opcode) }
{
    UsbOperation::new(Kind::Nothing, CommandBlock::reset_device(tag, opcode))
}

pub fn switch_storage(tag: u32, index: StorageIndex) -> UsbOperation
    ensures { result ≡ fresh Kind.Nothing (switch_command tag index) }
{
    UsbOperation::new(Kind::Nothing, CommandBlock::switch_storage(tag, index))
}

// A refusal stands beside an operation over no sectors.
#[tactic(auto, unfolding(crate::specs::Start::sectors_or0, protocol_reply::specs::Sectors::sector_told))]
fn sectors_or_0(answer: Result<SectorCount, SectorError>) -> u16
    ensures { result ≡ sectors_or0 (sector_told answer) }
{
    let Ok(sectors) = answer else {
        return 0;
    };
    sectors.0
}

// Reads into data of `size` bytes, which is lent at each step and giving.
// `read_lba` and `write_lba` stay two: the Rust's names, each with a kind and a command of its own, and what they share is `sectors_or_0`.
pub fn read_lba(tag: u32, start_sector: u32, size: usize) -> UsbStart
    ensures { StartMeets result Kind.Read (read_lba_command tag start_sector) size }
{
    let answer = sector_count(size);
    let command = CommandBlock::read_lba(tag, start_sector, sectors_or_0(answer));
    let operation = UsbOperation::new(Kind::Read, command);
    UsbStart { answer, operation }
}

// Writes data of `size` bytes, which is lent at each step.
pub fn write_lba(tag: u32, start_sector: u32, size: usize) -> UsbStart
    ensures { StartMeets result Kind.Write (write_lba_command tag start_sector) size }
{
    let answer = sector_count(size);
    let command = CommandBlock::write_lba(tag, start_sector, sectors_or_0(answer));
    let operation = UsbOperation::new(Kind::Write, command);
    UsbStart { answer, operation }
}
