// A bulk write: a command, or the data that one awaits.
ghost use Rattle.std.specs.Prelude.{◌≡◌};
ghost use Rattle.mock_table.specs.Turn.{is_erase, OutcomeMeets};
ghost use Rattle.mock_table.specs.Code.{block_refused};
ghost use Rattle.mock_table.specs.Table.{reset_turn, erase_turn, zero_length_turn, start_turn, write_io_turn, write_turn};
ghost use Rattle.protocol.specs.CommandBytes.{read_command};

use super::outcome::{Effect, Outcome};
use super::rows::{Row, has_code};
use super::session::{CommandState, Session};
use super::ways::{splits, switched, switches};
use mock_base::cells::Variety;
use mock_base::error::{MockAnswer, MockTransportError};
use mock_base::range::flash_range;
use protocol::{CommandBlock, CommandBlockParseError};
use protocol_bytes::signature::Parse;
use protocol_codes::{CommandCode, Direction, ResetOpcode, Status};

#[tactic(auto, unfolding(crate::specs::Turn::is_erase, crate::specs::Turn::has_code))]
fn is_erase(command: CommandBlock) -> bool
    ensures { result ≡ is_erase command }
{
    matches!(
        command.cd_code,
        CommandCode::EraseLBA | CommandCode::EraseForce
    )
}

impl Row {
    fn handle_reset(self, command: CommandBlock) -> Outcome
        ensures { OutcomeMeets result (reset_turn self.reset command) }
    {
        let opcode = command.cd_opcode;
        let Ok(known) = ResetOpcode::try_from(opcode) else {
            return self.refuse(MockTransportError::InvalidReset(opcode));
        };
        let row = Row {
            reset: Some(known),
            ..self
        };
        row.settle(
            CommandState::Status(command, Status::SUCCESS),
            Effect::Nothing,
        )
    }

    fn handle_erase(self, block_size: u16, command: CommandBlock) -> Outcome
        ensures { OutcomeMeets result (erase_turn self.variety block_size self.reset command self.sectors) }
    {
        let Ok(range) = flash_range(self.sectors, command.cd_address, command.cd_length) else {
            return self.refuse(MockTransportError::OutOfRange);
        };
        if splits(self.variety, block_size, command) {
            return self.refuse(MockTransportError::UnalignedErase);
        }
        self.settle(
            CommandState::Status(command, Status::SUCCESS),
            Effect::Fill(range),
        )
    }

    fn handle_zero_length_command(self, block_size: u16, command: CommandBlock) -> Outcome
        ensures { OutcomeMeets result (zero_length_turn self.variety block_size self.reset command self.sectors) }
    {
        // Stays `if` by `if`: each test is a definition of its own (`is_erase`, `has_code`, `switches`).
        if is_erase(command) {
            return self.handle_erase(block_size, command);
        }
        if has_code(command, CommandCode::DeviceReset) {
            return self.handle_reset(command);
        }
        if switches(self.variety, command) {
            let status = switched(command.cd_opcode);
            return self.settle(CommandState::Status(command, status), Effect::Nothing);
        }
        self.refuse(MockTransportError::UnknownCommand(command.cd_code))
    }

    // 56: bytes that are no command. The signature's bytes stand beside the refusal.
    fn refuse_block(self, error: CommandBlockParseError, signature: [u8; 4]) -> Outcome
        ensures { result ≡ block_refused self.reset error signature }
    {
        Outcome {
            answer: MockAnswer {
                result: Err(MockTransportError::CommandBlockError(error)),
                signature,
            },
            session: Session {
                current_command: CommandState::None,
                last_reset: self.reset,
            },
            effect: Effect::Nothing,
        }
    }

    fn start_command(self, block_size: u16, data: &[u8]) -> Outcome
        ensures { OutcomeMeets result (start_turn self.variety block_size (read_command «data».now) self.reset self.sectors) }
    {
        let Parse { answer, signature } = CommandBlock::from_bytes(data);
        let command = match answer {
            Ok(command) => command,
            Err(error) => return self.refuse_block(error, signature),
        };
        if command.transfer_length == 0 {
            return self.handle_zero_length_command(block_size, command);
        }
        self.settle(CommandState::IO(command), Effect::Nothing)
    }

    fn write_io(self, command: CommandBlock, actual: usize) -> Outcome
        ensures { OutcomeMeets result (write_io_turn self.variety self.reset command self.sectors actual) }
    {
        let Direction::Out = command.flags else {
            return self.refuse(MockTransportError::UnexpectedWrite);
        };
        if !has_code(command, CommandCode::WriteLBA) {
            return self.refuse(MockTransportError::UnexpectedWrite);
        }
        self.sector_io(command, Direction::Out, actual)
    }
}

pub fn write_outcome(
    session: Session,
    variety: Variety,
    block_size: u16,
    sectors: usize,
    data: &[u8],
) -> Outcome
    ensures { OutcomeMeets result (write_turn variety block_size session sectors «data».now) }
{
    let row = Row {
        variety,
        reset: session.last_reset,
        sectors,
    };
    // Stays a `match`: each state brings other values.
    match session.current_command {
        CommandState::None => row.start_command(block_size, data),
        CommandState::IO(command) => row.write_io(command, data.len()),
        CommandState::Status(_, _) => row.refuse(MockTransportError::UnexpectedWrite),
    }
}
