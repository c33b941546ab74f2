// The calls over a session of the first variety that is lent. Each hands a copy of the record to the by-value step, stores what comes back, and
// returns the answer.
// Stays function by function: document 01's thin calls over the by-value ones.
ghost use Rattle.std.specs.Prelude.{◌≡◌, [], length};
ghost use Rattle.mock_effects.specs.Steps.{write_step, read_step};
ghost use Rattle.mock_session.specs.Start.{start_step};
ghost use Rattle.mock_session.specs.Lent.{CallMeets};

use super::record::start_step;
use mock_base::config::MockDeviceConfig;
use mock_base::error::MockAnswer;
use mock_effects::{read_step, write_step};
use mock_table::session::Session;

pub fn start(session: &mut Session, flash: &[u8]) -> MockAnswer
    ensures { CallMeets result session.new [] (start_step session.old (length flash.now)) }
{
    let step = start_step(*session, flash);
    *session = step.session;
    step.answer
}

pub fn write_bulk(session: &mut Session, flash: &mut [u8], data: &[u8]) -> MockAnswer
    ensures { CallMeets result session.new flash.new (write_step session.old flash.old «data».now) }
{
    let step = write_step(*session, flash, data);
    *session = step.session;
    step.answer
}

pub fn read_bulk(
    session: &mut Session,
    config: MockDeviceConfig,
    flash: &[u8],
    data: &mut [u8],
) -> MockAnswer
    ensures { CallMeets result session.new «data».new (read_step session.old config flash.now «data».old) }
{
    let step = read_step(*session, config, flash, data);
    *session = step.session;
    step.answer
}

// A copy of the record, for whoever only looks.
pub fn look(session: &Session) -> Session
    ensures { result ≡ session.now }
{
    *session
}
