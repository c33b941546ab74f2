// Counts of bytes and of sectors, which never pass for each other.
ghost use Rattle.std.specs.Prelude.{◌≡◌};
ghost use Rattle.protocol_reply.specs.Sectors.{sector_error_number, sector_told, sectors_in};

use protocol_bytes::SECTOR_SIZE;
use rule_number::RuleNumber;

// Bytes transferred.
#[derive(Clone, Copy, Debug, PartialEq, Eq)]
pub struct Transferred(pub u32);

// Sectors of a command.
#[derive(Clone, Copy, Debug, PartialEq, Eq)]
pub struct SectorCount(pub u16);

// Why data is no sectors of one command.
#[derive(Clone, Copy, Debug, PartialEq, Eq)]
pub enum SectorError {
    // 23: not a multiple of 512
    NotSectors,
    // 24: above 65,535 sectors
    TooMany,
}

impl RuleNumber for SectorError {
    ghost rule_number = { sector_error_number };

    fn number(self) -> u8 {
        match self {
            SectorError::NotSectors => 23,
            SectorError::TooMany => 24,
        }
    }
}

const MOST_SECTORS: usize = 65535;

// The sectors that data of `length` bytes is.
#[tactic(auto, unfolding(promise::specs::Rules::or_refuse, crate::specs::Sectors::sectors_in, crate::specs::Sectors::sector_told))]
pub fn sector_count(length: usize) -> Result<SectorCount, SectorError>
    ensures { sector_told result ≡ sectors_in length }
{
    let sector = SECTOR_SIZE as usize;
    if length % sector != 0 {
        return Err(SectorError::NotSectors);
    }
    let sectors = length / sector;
    if MOST_SECTORS < sectors {
        return Err(SectorError::TooMany);
    }
    Ok(SectorCount(sectors as u16))
}
