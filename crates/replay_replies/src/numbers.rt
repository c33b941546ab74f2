// "Numbers": a number read as a direction, a code, a status, a reset opcode.
use protocol_codes::{CommandCode, Direction, ResetOpcode, Status};
use replay_answers::told::Told;
use rule_number::RuleNumber;

// The number of the value that was read, or that of the refusal with the number that was given.
fn told<E: RuleNumber>(read: Result<u8, E>, given: u8) -> Told {
    match read {
        Ok(number) => Told::of(0, &[u64::from(number)]),
        Err(error) => Told::of(error.number(), &[u64::from(given)]),
    }
}

pub fn direction(n: u8) -> Told {
    told(Direction::try_from(n).map(u8::from), n)
}

pub fn code(n: u8) -> Told {
    told(CommandCode::try_from(n).map(u8::from), n)
}

pub fn status(n: u8) -> Told {
    told(Status::try_from(n).map(u8::from), n)
}

pub fn reset(n: u8) -> Told {
    told(ResetOpcode::try_from(n).map(u8::from), n)
}
