// What the stand-in remembers from one bulk call to the next.
use protocol::CommandBlock;
use protocol_codes::{ResetOpcode, Status};

// The transaction.
// Stays an enum: document 01's transaction, of which two cases have a command.
#[derive(Clone, Copy)]
pub enum CommandState {
    // No current command
    None,
    // Waiting on I/O for current command
    IO(CommandBlock),
    // Waiting for status read for current command, which is told this
    Status(CommandBlock, Status),
}

#[derive(Clone, Copy)]
pub struct Session {
    pub current_command: CommandState,
    pub last_reset: Option<ResetOpcode>,
}
