// The stand-in's answers: done, or one of the refusals 50 to 63 and 65.
ghost use Rattle.mock_base.specs.Told.{error_number};

use protocol::CommandBlockParseError;
use protocol_codes::CommandCode;
use rule_number::RuleNumber;

#[derive(Clone, Copy, Debug, PartialEq, Eq)]
pub enum MockTransportError {
    // 50
    InvalidTransferLength {
        expected: usize,
        actual: usize,
    },
    // 51
    UnsupportedControl {
        request_type: u8,
        request: u8,
        value: u16,
    },
    // 52
    InvalidReset(u8),
    // 53
    UnknownCommand(CommandCode),
    // 54
    UnexpectedRead,
    // 55
    UnexpectedWrite,
    // 56: the signature's bytes stand beside it
    CommandBlockError(CommandBlockParseError),
    // 57
    OutOfRange,
    // 58
    NoSlot,
    // 59
    SlotFull,
    // 60
    FlashSize(usize),
    // 61
    TooManySectors,
    // 62, of a head with NOR flash alone
    ZeroBlockSize,
    // 63, of a head with NOR flash alone
    UnalignedErase,
    // 65
    StoreLength,
}

#[derive(Clone, Copy)]
pub struct MockAnswer {
    pub result: Result<(), MockTransportError>,
    // the four bytes of a command's invalid signature, zeros otherwise
    pub signature: [u8; 4],
}

impl RuleNumber for MockTransportError {
    ghost rule_number = { error_number };

    fn number(self) -> u8 {
        match self {
            MockTransportError::InvalidTransferLength { .. } => 50,
            MockTransportError::UnsupportedControl { .. } => 51,
            MockTransportError::InvalidReset(_) => 52,
            MockTransportError::UnknownCommand(_) => 53,
            MockTransportError::UnexpectedRead => 54,
            MockTransportError::UnexpectedWrite => 55,
            MockTransportError::CommandBlockError(_) => 56,
            MockTransportError::OutOfRange => 57,
            MockTransportError::NoSlot => 58,
            MockTransportError::SlotFull => 59,
            MockTransportError::FlashSize(_) => 60,
            MockTransportError::TooManySectors => 61,
            MockTransportError::ZeroBlockSize => 62,
            MockTransportError::UnalignedErase => 63,
            MockTransportError::StoreLength => 65,
        }
    }
}
