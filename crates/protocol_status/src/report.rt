// The status block: how the device says that a command went, in 13 bytes.
ghost use Rattle.std.specs.Prelude.{◌≡◌, ◌≤◌, length};
ghost use Rattle.protocol_status.specs.StatusBytes.{StatusFits, status_bytes, report_of, read_status, write_status};
ghost use Rattle.protocol_status.specs.StatusMeets.{StatusMeets, status_error_number};
ghost use Rattle.protocol_bytes.specs.Writing.{WriteMeets};

use protocol_bytes::order::{
    u32_from_be_bytes, u32_from_le_bytes, u32_to_be_bytes, u32_to_le_bytes,
};
use protocol_bytes::signature::{Parse, parsed, starts_with};
use protocol_codes::{Status, UnknownStatus};
use rule_number::{OutputTooShort, RuleNumber};

// Total size of a status block.
pub const COMMAND_STATUS_BYTES: usize = 13;

const SIGNATURE: [u8; 4] = *b"USBS";

#[derive(Clone, Copy, Debug, PartialEq, Eq)]
pub struct CommandStatus {
    pub tag: u32,
    pub residue: u32,
    pub status: Status,
}

// Why bytes are no status block. The signature's bytes stand beside it.
#[derive(Clone, Copy, Debug, PartialEq, Eq)]
pub enum CommandStatusParseError {
    InvalidSignature,
    InvalidLength(usize),
    InvalidStatus(u8),
}

impl RuleNumber for CommandStatusParseError {
    ghost rule_number = { status_error_number };

    fn number(self) -> u8 {
        match self {
            CommandStatusParseError::InvalidLength(_) => 5,
            CommandStatusParseError::InvalidSignature => 6,
            CommandStatusParseError::InvalidStatus(_) => 7,
        }
    }
}

// The status that stands in at least 13 bytes, its last byte already read.
#[tactic(auto, using(protocol_bytes::proofs::Short::field_elements), unfolding(crate::specs::StatusBytes::report_of))]
fn report_of(bytes: &[u8], status: Status) -> CommandStatus
    requires { 13 ≤ length bytes.now }
    ensures { result ≡ report_of bytes.now status }
{
    CommandStatus {
        tag: u32_from_be_bytes([bytes[4], bytes[5], bytes[6], bytes[7]]),
        residue: u32_from_le_bytes([bytes[8], bytes[9], bytes[10], bytes[11]]),
        status,
    }
}

impl CommandStatus {
    #[tactic(auto, unfolding(promise::specs::Bytes::low_first, promise::specs::Bytes::high_first, crate::specs::StatusBytes::status_bytes))]
    fn bytes(self) -> [u8; 13]
        ensures { result ≡ status_bytes self }
    {
        let tag = u32_to_be_bytes(self.tag);
        let residue = u32_to_le_bytes(self.residue);
        let status = self.status;
        [
            0x55,
            0x53,
            0x42,
            0x53,
            tag[0],
            tag[1],
            tag[2],
            tag[3],
            residue[0],
            residue[1],
            residue[2],
            residue[3],
            u8::from(status),
        ]
    }

    #[tactic(auto, unfolding(crate::specs::StatusBytes::write_status, protocol_bytes::specs::Writing::writing, protocol_bytes::specs::Writing::written_told, promise::specs::Rules::or_refuse))]
    pub fn to_bytes(self, out: &mut [u8]) -> Result<usize, OutputTooShort>
        ensures write_meets { WriteMeets result out.old out.new (write_status self (length out.old)) }
        ensures status_fits { StatusFits self }
    {
        if out.len() < COMMAND_STATUS_BYTES {
            return Err(OutputTooShort);
        }
        let block = self.bytes();
        out[..13].copy_from_slice(&block);
        Ok(COMMAND_STATUS_BYTES)
    }

    pub fn from_bytes(bytes: &[u8]) -> Parse<CommandStatus, CommandStatusParseError>
        ensures { StatusMeets result (read_status bytes.now) }
    {
        if bytes.len() < COMMAND_STATUS_BYTES {
            return parsed(Err(CommandStatusParseError::InvalidLength(bytes.len())));
        }
        if !starts_with(bytes, SIGNATURE) {
            return Parse {
                answer: Err(CommandStatusParseError::InvalidSignature),
                signature: [bytes[0], bytes[1], bytes[2], bytes[3]],
            };
        }
        let Ok(status) = Status::try_from(bytes[12]) else {
            return parsed(Err(CommandStatusParseError::InvalidStatus(bytes[12])));
        };
        parsed(Ok(report_of(bytes, status)))
    }
}
