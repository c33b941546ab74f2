// The operations that a line names, with their arguments, as command blocks.
use protocol::CommandBlock;
use replay_answers::values::{read_reset, read_storage};
use replay_lines::names::OperationName;
use replay_lines::tokens::Tokens;

// The block of OP TAG ARGS.
// Stays a `match`: each operation reads its own tokens.
pub(crate) fn command(tokens: &mut Tokens) -> Option<CommandBlock> {
    let name = tokens.operation()?;
    let tag = tokens.u32()?;
    match name {
        OperationName::ChipInfo => Some(CommandBlock::chip_info(tag)),
        OperationName::FlashId => Some(CommandBlock::flash_id(tag)),
        OperationName::FlashInfo => Some(CommandBlock::flash_info(tag)),
        OperationName::Capability => Some(CommandBlock::capability(tag)),
        OperationName::Storage => Some(CommandBlock::storage(tag)),
        OperationName::ResetDevice => { Some(CommandBlock::reset_device(tag, read_reset(tokens)?)) }
        OperationName::SwitchStorage => {
            Some(CommandBlock::switch_storage(tag, read_storage(tokens)?))
        }
        _ => ranged(name, tag, tokens.u32()?, tokens.u16()?),
    }
}

fn ranged(name: OperationName, tag: u32, first: u32, count: u16) -> Option<CommandBlock> {
    match name {
        OperationName::EraseLba => Some(CommandBlock::erase_lba(tag, first, count)),
        OperationName::EraseForce => Some(CommandBlock::erase_force(tag, first, count)),
        OperationName::ReadLba => Some(CommandBlock::read_lba(tag, first, count)),
        OperationName::WriteLba => Some(CommandBlock::write_lba(tag, first, count)),
        _ => None,
    }
}
