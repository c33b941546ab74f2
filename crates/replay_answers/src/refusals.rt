// Refusals with their values.
use crate::told::Told;
use protocol::CommandBlockParseError;
use protocol_status::failure::UsbOperationError;
use rule_number::RuleNumber;

// Stays a `match`: each refusal has values of its own.
pub fn command_error(error: CommandBlockParseError, signature: [u8; 4]) -> Told {
    let number = error.number();
    match error {
        CommandBlockParseError::InvalidLength(n) => Told::of(number, &[n as u64]),
        CommandBlockParseError::InvalidSignature => Told::of_bytes(number, signature),
        CommandBlockParseError::UnknownFlags(byte) => Told::of(number, &[u64::from(byte)]),
        CommandBlockParseError::UnknownCommandCode(byte) => Told::of(number, &[u64::from(byte)]),
    }
}

pub fn operation_error(error: UsbOperationError, signature: [u8; 4]) -> Told {
    let number = error.number();
    match error {
        UsbOperationError::InvalidStatusSignature => Told::of_bytes(number, signature),
        UsbOperationError::InvalidStatusStatus(byte) => Told::of(number, &[u64::from(byte)]),
        _ => Told::numbered(error),
    }
}
