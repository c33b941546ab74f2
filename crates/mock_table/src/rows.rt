// What the rows of a write and of a read share.
ghost use Rattle.std.specs.Prelude.{◌≡◌};
ghost use Rattle.mock_table.specs.Turn.{has_code, OutcomeMeets};
ghost use Rattle.mock_table.specs.Code.{refused_with, settled};
ghost use Rattle.mock_table.specs.Table.{sector_turn};

use super::outcome::{Effect, Outcome};
use super::session::{CommandState, Session};
use super::ways::moved_by;
use mock_base::cells::Variety;
use mock_base::error::{MockAnswer, MockTransportError};
use mock_base::range::flash_range;
use protocol::CommandBlock;
use protocol_bytes::SECTOR_SIZE;
use protocol_codes::{CommandCode, Direction, ResetOpcode, Status};

// What every row of a bulk call is over: the flash's variety and its number of sectors, and the reset that the session remembers.
// The block size is not here: a read has none.
#[derive(Clone, Copy)]
pub(crate) struct Row {
    pub(crate) variety: Variety,
    pub(crate) reset: Option<ResetOpcode>,
    pub(crate) sectors: usize,
}

#[tactic(auto, unfolding(crate::specs::Turn::has_code))]
pub(crate) fn has_code(command: CommandBlock, code: CommandCode) -> bool
    ensures { result ≡ has_code command code }
{
    command.cd_code == code
}

impl Row {
    // A refusal ends the transaction.
    pub(crate) fn refuse(self, error: MockTransportError) -> Outcome
        ensures { result ≡ refused_with self.reset error }
    {
        Outcome {
            answer: MockAnswer {
                result: Err(error),
                signature: [0; 4],
            },
            session: Session {
                current_command: CommandState::None,
                last_reset: self.reset,
            },
            effect: Effect::Nothing,
        }
    }

    pub(crate) fn settle(self, state: CommandState, effect: Effect) -> Outcome
        ensures { result ≡ settled state self.reset effect }
    {
        Outcome {
            answer: MockAnswer {
                result: Ok(()),
                signature: [0; 4],
            },
            session: Session {
                current_command: state,
                last_reset: self.reset,
            },
            effect,
        }
    }

    // The data of a command over sectors: `actual` bytes into the flash or out of it.
    pub(crate) fn sector_io(
        self,
        command: CommandBlock,
        direction: Direction,
        actual: usize,
    ) -> Outcome
        ensures { OutcomeMeets result (sector_turn self.variety self.reset command direction self.sectors actual) }
    {
        let Ok(range) = flash_range(self.sectors, command.cd_address, command.cd_length) else {
            return self.refuse(MockTransportError::OutOfRange);
        };
        let expected = (command.cd_length as usize) * (SECTOR_SIZE as usize);
        if actual != expected {
            return self.refuse(MockTransportError::InvalidTransferLength { expected, actual });
        }
        self.settle(
            CommandState::Status(command, Status::SUCCESS),
            moved_by(self.variety, direction, range),
        )
    }
}
