// What comes of a bulk call: an answer, the next session, and what is to happen to the lent bytes.
use super::session::Session;
use mock_base::error::MockAnswer;
use mock_base::range::FlashRange;
use protocol_codes::Status;

// What a read is given that is not the flash's.
#[derive(Clone, Copy)]
pub enum ReplyKind {
    FlashId,
    FlashInfo,
    ChipInfo,
    Capability,
    Storage,
    // the status of the command with this tag
    Status(u32, Status),
}

// Stays an enum with `Nothing`: each table over effects has a row for it.
#[derive(Clone, Copy)]
pub enum Effect {
    Nothing,
    // 0xFF
    Fill(FlashRange),
    // the call's data into the flash
    Store(FlashRange),
    // the call's data into NOR cells, which clears bits alone
    Program(FlashRange),
    // the flash into the call's buffer
    Supply(FlashRange),
    Reply(ReplyKind),
}

#[derive(Clone, Copy)]
pub struct Outcome {
    pub answer: MockAnswer,
    pub session: Session,
    pub effect: Effect,
}
