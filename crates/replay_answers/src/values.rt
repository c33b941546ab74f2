// Storage indices and reset opcodes, read and told.
use crate::told::Told;
use protocol_codes::{ResetOpcode, StorageIndex};
use replay_lines::tokens::Tokens;

// A storage index is two numbers.
pub fn storage(index: StorageIndex) -> Told {
    match index {
        StorageIndex::Unknown(n) => Told::of(0, &[0, u64::from(n)]),
        _ => Told::of(0, &[1, u64::from(u8::from(index))]),
    }
}

// NAMED INDEX. Named are 0 to 12 only; any number may be unknown.
// Stays apart from `From`: that reads an index from one number, and here it is two.
pub fn read_storage(tokens: &mut Tokens) -> Option<StorageIndex> {
    let named = tokens.at_most(1)?;
    let n = tokens.u8()?;
    match named {
        0 => Some(StorageIndex::Unknown(n)),
        _ if n > 12 => None,
        _ => Some(StorageIndex::from(n)),
    }
}

pub fn read_reset(tokens: &mut Tokens) -> Option<ResetOpcode> {
    ResetOpcode::try_from(tokens.u8()?).ok()
}
