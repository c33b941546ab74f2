// The record by value: untouched, and started over a flash.
ghost use Rattle.std.specs.Prelude.{◌≡◌, [], length};
ghost use Rattle.mock_effects.specs.Steps.{StepMeets};
ghost use Rattle.mock_session.specs.Start.{fresh_session, start_step};

use mock_base::range::{flash_sectors, size_answer};
use mock_effects::SessionStep;
use mock_table::session::{CommandState, Session};

pub fn fresh() -> Session
    ensures { result ≡ fresh_session }
{
    Session {
        current_command: CommandState::None,
        last_reset: None,
    }
}

// A record that is refused its flash stays as it was.
pub fn start_step(session: Session, flash: &[u8]) -> SessionStep
    ensures { StepMeets result [] (start_step session (length flash.now)) }
{
    let size = flash_sectors(flash.len());
    let answer = size_answer(size);
    match size {
        Ok(_) => SessionStep {
            answer,
            session: fresh(),
        },
        Err(_) => SessionStep { answer, session },
    }
}
