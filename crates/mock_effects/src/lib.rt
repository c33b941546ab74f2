// A bulk call over the session alone: the table's outcome, applied.
// Stays: lent buffers are parameters of their own, since a contract tells each before and after.

#![tactic(auto)]

mod apply;

ghost use Rattle.std.specs.Prelude.{◌≡◌};
ghost use Rattle.mock_effects.specs.Steps.{StepMeets, failed, pend, pended, write_step_by, read_step_by, write_step, read_step};

use apply::{apply_to_buffer, apply_to_flash};
use mock_base::cells::Variety;
use mock_base::config::MockDeviceConfig;
use mock_base::error::MockAnswer;
use mock_base::range::{flash_sectors, size_answer};
use mock_table::outcome::Outcome;
use mock_table::reading::read_outcome;
use mock_table::session::{CommandState, Session};
use mock_table::writing::write_outcome;
use protocol_codes::Status;

// Stays a pair: document 01 has the record handed back beside the answer.
#[derive(Clone, Copy)]
pub struct SessionStep {
    pub answer: MockAnswer,
    pub session: Session,
}

#[tactic(auto, unfolding(crate::specs::Steps::failed))]
fn failed(state: CommandState) -> CommandState
    ensures { result ≡ failed state }
{
    match state {
        CommandState::Status(command, _) => CommandState::Status(command, Status::FAILED),
        CommandState::None | CommandState::IO(_) => state,
    }
}

#[tactic(auto, unfolding(crate::specs::Steps::pend))]
fn pend(status: Status, state: CommandState) -> CommandState
    ensures { result ≡ pend status state }
{
    match status {
        Status::SUCCESS => state,
        Status::FAILED => failed(state),
    }
}

// The session that the table gave, with the status that applying its effect answered.
fn pended(status: Status, session: Session) -> Session
    ensures { result ≡ pended status session }
{
    Session {
        current_command: pend(status, session.current_command),
        ..session
    }
}

// A bulk write at a flash of this variety and block size.
pub fn write_step_by(
    session: Session,
    variety: Variety,
    block_size: u16,
    flash: &mut [u8],
    data: &[u8],
) -> SessionStep
    ensures { StepMeets result flash.new (write_step_by variety block_size session flash.old «data».now) }
{
    let size = flash_sectors(flash.len());
    let Ok(sectors) = size else {
        return SessionStep {
            answer: size_answer(size),
            session,
        };
    };
    let outcome = write_outcome(session, variety, block_size, sectors, data);
    let pending = apply_to_flash(outcome.effect, flash, data);
    SessionStep {
        answer: outcome.answer,
        session: pended(pending, outcome.session),
    }
}

// A bulk read at a flash of this variety.
pub fn read_step_by(
    session: Session,
    variety: Variety,
    config: MockDeviceConfig,
    flash: &[u8],
    data: &mut [u8],
) -> SessionStep
    ensures { StepMeets result «data».new (read_step_by variety session config flash.now «data».old) }
{
    let size = flash_sectors(flash.len());
    let Ok(sectors) = size else {
        return SessionStep {
            answer: size_answer(size),
            session,
        };
    };
    let outcome = read_outcome(session, variety, sectors, data.len());
    apply_to_buffer(outcome.effect, config, flash, data);
    SessionStep {
        answer: outcome.answer,
        session: outcome.session,
    }
}

// At a flash of the first variety.
pub fn write_step(session: Session, flash: &mut [u8], data: &[u8]) -> SessionStep
    ensures { StepMeets result flash.new (write_step session flash.old «data».now) }
{
    write_step_by(session, Variety::First, 0, flash, data)
}

// At a flash of the first variety.
pub fn read_step(
    session: Session,
    config: MockDeviceConfig,
    flash: &[u8],
    data: &mut [u8],
) -> SessionStep
    ensures { StepMeets result «data».new (read_step session config flash.now «data».old) }
{
    read_step_by(session, Variety::First, config, flash, data)
}
