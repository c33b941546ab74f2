// A bulk read: the data that a command awaits, or its status.
ghost use Rattle.std.specs.Prelude.{◌≡◌};
ghost use Rattle.mock_table.specs.Turn.{OutcomeMeets, reply_size};
ghost use Rattle.mock_table.specs.Table.{reply_turn, code_turn, read_io_turn, status_turn, read_turn};

use super::outcome::{Effect, Outcome, ReplyKind};
use super::rows::Row;
use super::session::{CommandState, Session};
use mock_base::cells::Variety;
use mock_base::error::MockTransportError;
use protocol::CommandBlock;
use protocol_codes::{CommandCode, Direction, Status};

#[tactic(auto, unfolding(crate::specs::Turn::reply_size))]
fn reply_size(reply: ReplyKind) -> usize
    ensures { result ≡ reply_size reply }
{
    // Stays a `match`: its arms are the rows of `reply_size`.
    match reply {
        ReplyKind::FlashId => 5,
        ReplyKind::FlashInfo => 11,
        ReplyKind::ChipInfo => 16,
        ReplyKind::Capability => 8,
        ReplyKind::Storage => 4,
        ReplyKind::Status(_, _) => 13,
    }
}

impl Row {
    fn copy_reply(self, command: CommandBlock, reply: ReplyKind, actual: usize) -> Outcome
        ensures { OutcomeMeets result (reply_turn self.reset command reply actual) }
    {
        let expected = reply_size(reply);
        if actual != expected {
            return self.refuse(MockTransportError::InvalidTransferLength { expected, actual });
        }
        self.settle(
            CommandState::Status(command, Status::SUCCESS),
            Effect::Reply(reply),
        )
    }

    fn read_code(self, command: CommandBlock, actual: usize) -> Outcome
        ensures { OutcomeMeets result (code_turn self.variety self.reset command self.sectors actual) }
    {
        // Stays a `match`: its arms are the rows of `code_turn`.
        match (command.cd_code, self.variety) {
            (CommandCode::ReadFlashId, _) => self.copy_reply(command, ReplyKind::FlashId, actual),
            (CommandCode::ReadFlashInfo, _) => {
                self.copy_reply(command, ReplyKind::FlashInfo, actual)
            }
            (CommandCode::ReadChipInfo, _) => self.copy_reply(command, ReplyKind::ChipInfo, actual),
            (CommandCode::ReadCapability, _) => {
                self.copy_reply(command, ReplyKind::Capability, actual)
            }
            (CommandCode::ReadLBA, _) => self.sector_io(command, Direction::In, actual),
            (CommandCode::GetStorageMedia, Variety::Nor) => {
                self.copy_reply(command, ReplyKind::Storage, actual)
            }
            _ => self.refuse(MockTransportError::UnexpectedRead),
        }
    }

    fn read_io(self, command: CommandBlock, actual: usize) -> Outcome
        ensures { OutcomeMeets result (read_io_turn self.variety self.reset command self.sectors actual) }
    {
        let Direction::In = command.flags else {
            return self.refuse(MockTransportError::UnexpectedRead);
        };
        self.read_code(command, actual)
    }

    fn read_status(self, command: CommandBlock, status: Status, actual: usize) -> Outcome
        ensures { OutcomeMeets result (status_turn self.reset command status actual) }
    {
        let reply = ReplyKind::Status(command.tag, status);
        if actual != reply_size(reply) {
            return self.refuse(MockTransportError::UnexpectedRead);
        }
        self.settle(CommandState::None, Effect::Reply(reply))
    }
}

pub fn read_outcome(session: Session, variety: Variety, sectors: usize, actual: usize) -> Outcome
    ensures { OutcomeMeets result (read_turn variety session sectors actual) }
{
    let row = Row {
        variety,
        reset: session.last_reset,
        sectors,
    };
    // Stays a `match`: each state brings other values.
    match session.current_command {
        CommandState::None => row.refuse(MockTransportError::UnexpectedRead),
        CommandState::IO(command) => row.read_io(command, actual),
        CommandState::Status(command, status) => row.read_status(command, status, actual),
    }
}
