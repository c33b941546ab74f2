// A lent flash in sectors: its own size, and the ranges that lie in it.
ghost use Rattle.std.specs.Prelude.{◌≡◌};
ghost use Rattle.mock_base.specs.Told.{Answers};
ghost use Rattle.mock_base.specs.Flash.{flash_sectors, size_told, size_done, range_in, range_told, out_of_range_number};

use super::error::{MockAnswer, MockTransportError};
use protocol_bytes::SECTOR_SIZE;
use rule_number::RuleNumber;

const MOST_FLASH_SECTORS: usize = 65536;

// Sectors of a flash, all of which it has.
#[derive(Clone, Copy, Debug, PartialEq, Eq)]
pub struct FlashRange {
    pub first: u32,
    pub count: u16,
}

// 57: a range that the flash doesn't have whole.
#[derive(Clone, Copy, Debug, PartialEq, Eq)]
pub struct OutOfRange;

impl RuleNumber for OutOfRange {
    ghost rule_number = { out_of_range_number };

    fn number(self) -> u8 {
        57
    }
}

// How many sectors a flash has.
#[tactic(auto, unfolding(promise::specs::Rules::or_refuse, crate::specs::Told::error_values, crate::specs::Flash::flash_rules, crate::specs::Flash::size_told, crate::specs::Flash::flash_sectors))]
pub fn flash_sectors(length: usize) -> Result<usize, MockTransportError>
    ensures { size_told result ≡ flash_sectors length }
{
    let size = SECTOR_SIZE as usize;
    if length % size != 0 {
        return Err(MockTransportError::FlashSize(length));
    }
    if MOST_FLASH_SECTORS < length / size {
        return Err(MockTransportError::TooManySectors);
    }
    Ok(length / size)
}

// Done, or 60 or 61.
pub fn size_answer(size: Result<usize, MockTransportError>) -> MockAnswer
    ensures { Answers result (size_done size) }
{
    MockAnswer {
        result: size.map(|_| ()),
        signature: [0; 4],
    }
}

#[tactic(auto, unfolding(promise::specs::Rules::or_refuse, crate::specs::Flash::fits_in, crate::specs::Flash::range_in, crate::specs::Flash::range_told))]
pub fn flash_range(sectors: usize, start_sector: u32, count: u16) -> Result<FlashRange, OutOfRange>
    ensures { range_told result ≡ range_in sectors start_sector count }
{
    if sectors < (start_sector as usize) + (count as usize) {
        return Err(OutOfRange);
    }
    Ok(FlashRange {
        first: start_sector,
        count,
    })
}
