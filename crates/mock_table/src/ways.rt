// What the table asks of the flash's variety.
ghost use Rattle.std.specs.Prelude.{◌≡◌};
ghost use Rattle.mock_table.specs.Ways.{stored_by, moved_by, is_multiple, splits, switches, switched};

use super::outcome::Effect;
use mock_base::cells::Variety;
use mock_base::range::FlashRange;
use protocol::CommandBlock;
use protocol_codes::{CommandCode, Direction, Status};

const NOR_STORAGE: u8 = 4;

#[tactic(auto, unfolding(crate::specs::Ways::stored_by))]
fn stored_by(variety: Variety, range: FlashRange) -> Effect
    ensures { result ≡ stored_by variety range }
{
    match variety {
        Variety::First => Effect::Store(range),
        Variety::Nor => Effect::Program(range),
    }
}

#[tactic(auto, unfolding(crate::specs::Ways::moved_by))]
pub(crate) fn moved_by(variety: Variety, direction: Direction, range: FlashRange) -> Effect
    ensures { result ≡ moved_by variety direction range }
{
    match direction {
        Direction::In => Effect::Supply(range),
        Direction::Out => stored_by(variety, range),
    }
}

#[tactic(auto, unfolding(crate::specs::Ways::is_multiple))]
fn is_multiple(n: u32, block_size: u16) -> bool
    ensures { result ≡ is_multiple n block_size }
{
    n.is_multiple_of(block_size as u32)
}

#[tactic(auto, unfolding(crate::specs::Ways::splits))]
pub(crate) fn splits(variety: Variety, block_size: u16, command: CommandBlock) -> bool
    ensures { result ≡ splits variety block_size command }
{
    match variety {
        Variety::First => false,
        Variety::Nor => {
            !(is_multiple(command.cd_address, block_size)
                && is_multiple(command.cd_length as u32, block_size))
        }
    }
}

#[tactic(auto, unfolding(crate::specs::Ways::switches, crate::specs::Turn::has_code))]
pub(crate) fn switches(variety: Variety, command: CommandBlock) -> bool
    ensures { result ≡ switches variety command }
{
    matches!(
        (variety, command.cd_code),
        (Variety::Nor, CommandCode::SwitchStorage)
    )
}

#[tactic(auto, unfolding(crate::specs::Ways::switched))]
pub(crate) fn switched(opcode: u8) -> Status
    ensures { result ≡ switched opcode }
{
    if opcode == NOR_STORAGE {
        Status::SUCCESS
    } else {
        Status::FAILED
    }
}
