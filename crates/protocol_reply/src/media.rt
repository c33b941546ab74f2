// The storage reply: one bit of a 32-bit word, whose place is the index.
ghost use Rattle.std.specs.Prelude.{◌≡◌};
ghost use Rattle.protocol_reply.specs.Media.{not_one_bit_number, storage_told, read_storage};

use protocol_bytes::order::u32_from_le_bytes;
use protocol_codes::StorageIndex;
use rule_number::RuleNumber;

// 14: not exactly one bit set.
#[derive(Clone, Copy, Debug, PartialEq, Eq)]
pub struct NotOneBit;

impl RuleNumber for NotOneBit {
    ghost rule_number = { not_one_bit_number };

    fn number(self) -> u8 {
        14
    }
}

pub fn storage_index(reply: [u8; 4]) -> Result<StorageIndex, NotOneBit>
    ensures { storage_told result ≡ read_storage reply }
{
    let word = u32_from_le_bytes(reply);
    if word.count_ones() != 1 {
        return Err(NotOneBit);
    }
    let place = word.trailing_zeros();
    Ok(StorageIndex::from(place as u8))
}
