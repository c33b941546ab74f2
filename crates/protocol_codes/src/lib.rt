// The enums of the protocol that have a number: each is written as its number, and a number is read as the value whose number it is.
// The names are the Rust's.

#![tactic(auto)]

ghost use Rattle.std.specs.Prelude.{◌≡◌};
ghost use Rattle.protocol_codes.specs.Numbers.{code_number, direction_number, status_number, reset_number, storage_number};
ghost use Rattle.protocol_codes.specs.Reading.{code_of, code_read_told, direction_of, direction_read_told, status_of, status_read_told, reset_of, reset_read_told, storage_of, unknown_direction_number, unknown_code_number, unknown_status_number, unknown_reset_number};

use rule_number::RuleNumber;

// Which way the data of a command goes, seen from the host.
#[derive(Clone, Copy, Debug, PartialEq, Eq)]
pub enum Direction {
    In = 0x80,
    Out = 0x00,
}

// 3: a flags byte that is no direction.
// Stay four, with `UnknownCode`, `UnknownStatus` and `UnknownReset`: none passes for another, and each has a number of its own.
#[derive(Clone, Copy, Debug, PartialEq, Eq)]
pub struct UnknownDirection(pub u8);

impl RuleNumber for UnknownDirection {
    ghost rule_number = { unknown_direction_number };

    fn number(self) -> u8 {
        3
    }
}

impl From<Direction> for u8 {
    ghost from_gives = { λ direction number. number ≡ direction_number direction };

    fn from(direction: Direction) -> u8 {
        direction as u8
    }
}

impl TryFrom<u8> for Direction {
    type Error = UnknownDirection;

    ghost try_from_gives = { λ number read. direction_read_told read ≡ direction_of number };

    #[tactic(auto, unfolding(crate::specs::Reading::by_number, crate::specs::Reading::known, crate::specs::Reading::direction_of, crate::specs::Reading::direction_read_told))]
    fn try_from(number: u8) -> Result<Direction, UnknownDirection> {
        match number {
            0x80 => Ok(Direction::In),
            0x00 => Ok(Direction::Out),
            _ => Err(UnknownDirection(number)),
        }
    }
}

// What a command asks the device to do.
#[derive(Clone, Copy, Debug, PartialEq, Eq)]
pub enum CommandCode {
    TestUnitReady = 0x00,
    ReadFlashId = 0x01,
    TestBadBlock = 0x03,
    ReadSector = 0x04,
    WriteSector = 0x05,
    EraseNormal = 0x06,
    EraseForce = 0x0B,
    ReadLBA = 0x14,
    WriteLBA = 0x15,
    EraseSystemDisk = 0x16,
    ReadSDram = 0x17,
    WriteSDram = 0x18,
    ExecuteSDram = 0x19,
    ReadFlashInfo = 0x1A,
    ReadChipInfo = 0x1B,
    SetResetFlag = 0x1E,
    WriteEFuse = 0x1F,
    ReadEFuse = 0x20,
    ReadSPIFlash = 0x21,
    WriteSPIFlash = 0x22,
    WriteNewEfuse = 0x23,
    ReadNewEfuse = 0x24,
    EraseLBA = 0x25,
    SwitchStorage = 0x2A,
    GetStorageMedia = 0x2B,
    ReadCapability = 0xAA,
    DeviceReset = 0xFF,
}

// 4: a code byte that is not listed.
#[derive(Clone, Copy, Debug, PartialEq, Eq)]
pub struct UnknownCode(pub u8);

impl RuleNumber for UnknownCode {
    ghost rule_number = { unknown_code_number };

    fn number(self) -> u8 {
        4
    }
}

impl From<CommandCode> for u8 {
    ghost from_gives = { λ code number. number ≡ code_number code };

    fn from(code: CommandCode) -> u8 {
        code as u8
    }
}

impl TryFrom<u8> for CommandCode {
    type Error = UnknownCode;

    ghost try_from_gives = { λ number read. code_read_told read ≡ code_of number };

    #[tactic(auto, unfolding(crate::specs::Reading::by_number, crate::specs::Reading::known, crate::specs::Reading::code_of, crate::specs::Reading::code_read_told))]
    fn try_from(number: u8) -> Result<CommandCode, UnknownCode> {
        match number {
            0x00 => Ok(CommandCode::TestUnitReady),
            0x01 => Ok(CommandCode::ReadFlashId),
            0x03 => Ok(CommandCode::TestBadBlock),
            0x04 => Ok(CommandCode::ReadSector),
            0x05 => Ok(CommandCode::WriteSector),
            0x06 => Ok(CommandCode::EraseNormal),
            0x0B => Ok(CommandCode::EraseForce),
            0x14 => Ok(CommandCode::ReadLBA),
            0x15 => Ok(CommandCode::WriteLBA),
            0x16 => Ok(CommandCode::EraseSystemDisk),
            0x17 => Ok(CommandCode::ReadSDram),
            0x18 => Ok(CommandCode::WriteSDram),
            0x19 => Ok(CommandCode::ExecuteSDram),
            0x1A => Ok(CommandCode::ReadFlashInfo),
            0x1B => Ok(CommandCode::ReadChipInfo),
            0x1E => Ok(CommandCode::SetResetFlag),
            0x1F => Ok(CommandCode::WriteEFuse),
            0x20 => Ok(CommandCode::ReadEFuse),
            0x21 => Ok(CommandCode::ReadSPIFlash),
            0x22 => Ok(CommandCode::WriteSPIFlash),
            0x23 => Ok(CommandCode::WriteNewEfuse),
            0x24 => Ok(CommandCode::ReadNewEfuse),
            0x25 => Ok(CommandCode::EraseLBA),
            0x2A => Ok(CommandCode::SwitchStorage),
            0x2B => Ok(CommandCode::GetStorageMedia),
            0xAA => Ok(CommandCode::ReadCapability),
            0xFF => Ok(CommandCode::DeviceReset),
            _ => Err(UnknownCode(number)),
        }
    }
}

// How the device says that a command went.
#[derive(Clone, Copy, Debug, PartialEq, Eq)]
pub enum Status {
    SUCCESS = 0,
    FAILED = 1,
}

// 7: a status byte above 1.
#[derive(Clone, Copy, Debug, PartialEq, Eq)]
pub struct UnknownStatus(pub u8);

impl RuleNumber for UnknownStatus {
    ghost rule_number = { unknown_status_number };

    fn number(self) -> u8 {
        7
    }
}

impl From<Status> for u8 {
    ghost from_gives = { λ status number. number ≡ status_number status };

    fn from(status: Status) -> u8 {
        status as u8
    }
}

impl TryFrom<u8> for Status {
    type Error = UnknownStatus;

    ghost try_from_gives = { λ number read. status_read_told read ≡ status_of number };

    #[tactic(auto, unfolding(crate::specs::Reading::by_number, crate::specs::Reading::known, crate::specs::Reading::status_of, crate::specs::Reading::status_read_told))]
    fn try_from(number: u8) -> Result<Status, UnknownStatus> {
        match number {
            0 => Ok(Status::SUCCESS),
            1 => Ok(Status::FAILED),
            _ => Err(UnknownStatus(number)),
        }
    }
}

// What the device becomes after a reset.
#[derive(Clone, Copy, Debug, PartialEq, Eq)]
pub enum ResetOpcode {
    Reset = 0,
    MSC = 1,
    PowerOff = 2,
    Maskrom = 3,
    Disconnect = 4,
}

// 52: a reset's opcode above 4.
#[derive(Clone, Copy, Debug, PartialEq, Eq)]
pub struct UnknownReset(pub u8);

impl RuleNumber for UnknownReset {
    ghost rule_number = { unknown_reset_number };

    fn number(self) -> u8 {
        52
    }
}

impl From<ResetOpcode> for u8 {
    ghost from_gives = { λ opcode number. number ≡ reset_number opcode };

    fn from(opcode: ResetOpcode) -> u8 {
        opcode as u8
    }
}

impl TryFrom<u8> for ResetOpcode {
    type Error = UnknownReset;

    ghost try_from_gives = { λ number read. reset_read_told read ≡ reset_of number };

    #[tactic(auto, unfolding(crate::specs::Reading::by_number, crate::specs::Reading::known, crate::specs::Reading::reset_of, crate::specs::Reading::reset_read_told))]
    fn try_from(number: u8) -> Result<ResetOpcode, UnknownReset> {
        match number {
            0 => Ok(ResetOpcode::Reset),
            1 => Ok(ResetOpcode::MSC),
            2 => Ok(ResetOpcode::PowerOff),
            3 => Ok(ResetOpcode::Maskrom),
            4 => Ok(ResetOpcode::Disconnect),
            _ => Err(UnknownReset(number)),
        }
    }
}

// A storage medium by its place among the boot types: every byte is one, by name or by its number.
// Stays: `Unknown` is no refusal, since every byte is an index.
#[derive(Clone, Copy, Debug, PartialEq, Eq)]
pub enum StorageIndex {
    Nand,
    Emmc,
    Sd0,
    Sd1,
    SpiNor,
    SpiNand,
    Ram,
    MtdBlkNand,
    MtdBlkSpiNand,
    MtdBlkSpiNor,
    Sata,
    Pcie,
    Ufs,
    Unknown(u8),
}

impl From<StorageIndex> for u8 {
    ghost from_gives = { λ index number. number ≡ storage_number index };

    fn from(index: StorageIndex) -> u8 {
        match index {
            StorageIndex::Nand => 0,
            StorageIndex::Emmc => 1,
            StorageIndex::Sd0 => 2,
            StorageIndex::Sd1 => 3,
            StorageIndex::SpiNor => 4,
            StorageIndex::SpiNand => 5,
            StorageIndex::Ram => 6,
            StorageIndex::MtdBlkNand => 7,
            StorageIndex::MtdBlkSpiNand => 8,
            StorageIndex::MtdBlkSpiNor => 9,
            StorageIndex::Sata => 10,
            StorageIndex::Pcie => 11,
            StorageIndex::Ufs => 12,
            StorageIndex::Unknown(number) => number,
        }
    }
}

impl From<u8> for StorageIndex {
    ghost from_gives = { λ number index. index ≡ storage_of number };

    #[tactic(auto, unfolding(crate::specs::Reading::by_number, crate::specs::Reading::storage_of))]
    fn from(number: u8) -> StorageIndex {
        match number {
            0 => StorageIndex::Nand,
            1 => StorageIndex::Emmc,
            2 => StorageIndex::Sd0,
            3 => StorageIndex::Sd1,
            4 => StorageIndex::SpiNor,
            5 => StorageIndex::SpiNand,
            6 => StorageIndex::Ram,
            7 => StorageIndex::MtdBlkNand,
            8 => StorageIndex::MtdBlkSpiNand,
            9 => StorageIndex::MtdBlkSpiNor,
            10 => StorageIndex::Sata,
            11 => StorageIndex::Pcie,
            12 => StorageIndex::Ufs,
            _ => StorageIndex::Unknown(number),
        }
    }
}
