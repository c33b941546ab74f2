// What an operation's finish refuses with. The signature's bytes stand beside it.
ghost use Rattle.std.specs.Prelude.{ℕ, ◌≡◌, List};
ghost use Rattle.protocol_status.specs.Failure.{failure_number, failure_told, at_finish};
ghost use Rattle.protocol_status.specs.StatusMeets.{status_error_told};

use super::report::CommandStatusParseError;
use rule_number::RuleNumber;

#[derive(Clone, Copy, Debug, PartialEq, Eq)]
pub enum UsbOperationError {
    TagMismatch,
    InvalidStatusSignature,
    InvalidStatusStatus(u8),
    InvalidStatusLength,
    ReplyParseFailure,
    FailedStatus,
}

impl RuleNumber for UsbOperationError {
    ghost rule_number = { failure_number };

    #[tactic(auto, unfolding(crate::specs::Failure::failure_number))]
    fn number(self) -> u8 {
        match self {
            UsbOperationError::TagMismatch => 10,
            UsbOperationError::InvalidStatusSignature => 11,
            UsbOperationError::InvalidStatusStatus(_) => 12,
            UsbOperationError::InvalidStatusLength => 13,
            UsbOperationError::ReplyParseFailure => 14,
            UsbOperationError::FailedStatus => 15,
        }
    }
}

impl From<CommandStatusParseError> for UsbOperationError {
    ghost from_gives = { λ error failure. (signature : List ℕ) → failure_told failure signature ≡ at_finish (status_error_told error signature) };

    #[tactic(auto, unfolding(crate::specs::Failure::failure_number, crate::specs::Failure::failure_values, crate::specs::Failure::at_finish, crate::specs::StatusMeets::status_error_told))]
    fn from(error: CommandStatusParseError) -> UsbOperationError {
        match error {
            CommandStatusParseError::InvalidSignature => UsbOperationError::InvalidStatusSignature,
            CommandStatusParseError::InvalidLength(_) => UsbOperationError::InvalidStatusLength,
            CommandStatusParseError::InvalidStatus(byte) => UsbOperationError::InvalidStatusStatus(
                byte,
            ),
        }
    }
}
