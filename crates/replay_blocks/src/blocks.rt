// "Blocks": command and status blocks, read and written.
use protocol::CommandBlock;
use protocol_bytes::signature::Parse;
use protocol_codes::Status;
use protocol_status::failure::UsbOperationError;
use protocol_status::report::{CommandStatus, CommandStatusParseError};
use replay_answers::refusals::{command_error, operation_error};
use replay_answers::told::Told;
use replay_lines::tokens::Tokens;
use rule_number::{OutputTooShort, RuleNumber};

fn fields(block: CommandBlock) -> Told {
    Told::of(
        0,
        &[
            u64::from(block.tag()),
            u64::from(block.transfer_length()),
            u64::from(u8::from(block.direction())),
            u64::from(block.lun),
            u64::from(block.cdb_length),
            u64::from(u8::from(block.cd_code())),
            u64::from(block.cd_opcode()),
            u64::from(block.cd_address()),
            u64::from(block.cd_length()),
        ],
    )
}

// `crd`
pub(crate) fn read_command(bytes: &[u8]) -> Told {
    let Parse { answer, signature } = CommandBlock::from_bytes(bytes);
    match answer {
        Ok(block) => fields(block),
        Err(error) => command_error(error, signature),
    }
}

// Stays a `match`: each refusal has values of its own.
fn status_error(error: CommandStatusParseError, signature: [u8; 4]) -> Told {
    let number = error.number();
    match error {
        CommandStatusParseError::InvalidLength(n) => Told::of(number, &[n as u64]),
        CommandStatusParseError::InvalidSignature => Told::of_bytes(number, signature),
        CommandStatusParseError::InvalidStatus(byte) => Told::of(number, &[u64::from(byte)]),
    }
}

fn report(status: CommandStatus) -> Told {
    let CommandStatus {
        tag,
        residue,
        status,
    } = status;
    Told::of(
        0,
        &[
            u64::from(tag),
            u64::from(residue),
            u64::from(u8::from(status)),
        ],
    )
}

// `srd`
pub(crate) fn read_status(bytes: &[u8]) -> Told {
    let Parse { answer, signature } = CommandStatus::from_bytes(bytes);
    match answer {
        Ok(status) => report(status),
        Err(error) => status_error(error, signature),
    }
}

// `smp`
pub(crate) fn map_status(bytes: &[u8]) -> Told {
    let Parse { answer, signature } = CommandStatus::from_bytes(bytes);
    match answer {
        Ok(_) => Told::of(0, &[]),
        Err(error) => { operation_error(UsbOperationError::from(error), signature) }
    }
}

fn written(answer: Result<usize, OutputTooShort>) -> Told {
    match answer {
        Ok(n) => Told::of(0, &[n as u64]),
        Err(error) => Told::numbered(error),
    }
}

// `cwr`
pub(crate) fn write_command(block: CommandBlock, room: &mut [u8]) -> Told {
    written(block.to_bytes(room))
}

// `cnv`
pub(crate) fn convert_command(bytes: &[u8], room: &mut [u8]) -> Told {
    let Parse { answer, signature } = CommandBlock::from_bytes(bytes);
    match answer {
        Ok(block) => written(block.to_bytes(room)),
        Err(error) => command_error(error, signature),
    }
}

// TAG RESIDUE STATUS
pub(crate) fn status(tokens: &mut Tokens) -> Option<CommandStatus> {
    let tag = tokens.u32()?;
    let residue = tokens.u32()?;
    let status = Status::try_from(tokens.u8()?).ok()?;
    Some(CommandStatus {
        tag,
        residue,
        status,
    })
}

// `swr`
pub(crate) fn write_status(status: CommandStatus, room: &mut [u8]) -> Told {
    written(status.to_bytes(room))
}
