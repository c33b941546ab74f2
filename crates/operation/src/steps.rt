// One USB operation, step by step: the command out, data if there is any, the status in, the finish; then it starts again.
ghost use Rattle.std.specs.Prelude.{◌≡◌, List, ◌++◌, ℕ, ◌≤◌, length, take, drop, replicate};
ghost use Rattle.operation.specs.declared.steps.StepError.TheVariants.{Failed};
ghost use Rattle.operation.specs.Record.{fresh, io_of, after_command, turned, with_status};
ghost use Rattle.operation.specs.Step.{step_error_number, StepMeets, command_step, io_step, status_step, finish_step, usb_step};
ghost use Rattle.operation.specs.Code.{finished_by, plain, sectored};

use operation_finish::{Beside, Kind, UsbReply, finish_of};
use protocol::CommandBlock;
use protocol_status::failure::UsbOperationError;
use rule_number::{OutputTooShort, RuleNumber};

// Where an operation stands: what its next step does.
#[derive(Clone, Copy)]
pub enum Operation {
    CommandBlock,
    IO,
    CommandStatus,
    Finish,
}

// Where the data of an operation is.
#[derive(Clone, Copy)]
pub enum IOBytes {
    Inband,
    Read,
    Write,
}

// What the last step asked to be read and nothing was given for yet.
// Stays an enum of four: `Nothing` is a row of each table over it (`nothing_asked`, `asks_for`, `owed`, `received`) like the other three.
#[derive(Clone, Copy)]
pub enum Asked {
    Nothing,
    Inband,
    Sectors,
    Status,
}

// `command_bytes` are the first 13 bytes of the command once it is out: the status is read over them. `data` are the in-band bytes, which stay from
// round to round.
#[derive(Clone, Copy)]
pub struct UsbOperation {
    pub kind: Kind,
    pub command: CommandBlock,
    pub command_bytes: [u8; 13],
    pub data: [u8; 16],
    pub next: Operation,
    pub asked: Asked,
}

#[derive(Clone, Copy)]
pub enum UsbStep {
    // Write the first 31 bytes of the output.
    WriteCommand,
    // Write that many bytes of the caller's data.
    WriteData(usize),
    // Read that many bytes and give them: a reply, the caller's data, the status.
    ReadInband(usize),
    ReadData(usize),
    ReadStatus(usize),
    Finished(UsbReply),
}

// Why a step asks for nothing.
#[derive(Clone, Copy, Debug, PartialEq, Eq)]
pub enum StepError {
    // 10 to 15, at the finish
    Failed(UsbOperationError),
    // 20
    OutputTooShort,
    // 27
    DataDiffers,
}

impl From<UsbOperationError> for StepError {
    ghost from_gives = { λ error step. step ≡ Failed error };

    fn from(error: UsbOperationError) -> StepError {
        StepError::Failed(error)
    }
}

impl RuleNumber for StepError {
    ghost rule_number = { step_error_number };

    fn number(self) -> u8 {
        match self {
            StepError::Failed(error) => error.number(),
            StepError::OutputTooShort => 20,
            StepError::DataDiffers => 27,
        }
    }
}

// Stays a pair: document 01 has the record handed back beside the answer.
#[derive(Clone, Copy)]
pub struct UsbStepped {
    pub step: Result<UsbStep, StepError>,
    pub beside: Beside,
    pub next: UsbOperation,
}

pub(crate) const INBAND: usize = 16;

pub(crate) const STATUS: usize = 13;

fn io_of(kind: Kind) -> IOBytes
    ensures { result ≡ io_of kind }
{
    match kind {
        Kind::Read => IOBytes::Read,
        Kind::Write => IOBytes::Write,
        _ => IOBytes::Inband,
    }
}

// "data if the transfer length isn't 0"
#[tactic(auto, unfolding(crate::specs::Record::after_command))]
fn after_command(length: u32) -> Operation
    ensures { result ≡ after_command length }
{
    if length == 0 {
        return Operation::CommandStatus;
    }
    Operation::IO
}

// The finish's answer, passed on.
fn finished(answer: Result<UsbReply, UsbOperationError>) -> Result<UsbStep, StepError>
    ensures { result ≡ finished_by answer }
{
    Ok(UsbStep::Finished(answer?))
}

// Bytes 24 to 30 of the command, which its writer leaves alone.
fn zero_tail(out: &mut [u8])
    requires { 31 ≤ length out.old }
    ensures { out.new ≡ take 24 out.old ++ (replicate 7 0 ++ drop 31 out.old) }
{
    out[24..31].fill(0);
}

// Stays: of a lent slice, where `first_of` of operation_finish is of an array by value.
fn first_13(out: &[u8]) -> [u8; 13]
    requires { 13 ≤ length out.now }
    ensures { result ≡ take 13 out.now }
{
    let mut first = [0u8; 13];
    first.copy_from_slice(&out[..13]);
    first
}

impl UsbOperation {
    // An operation at its command, with nothing received.
    pub fn new(kind: Kind, command: CommandBlock) -> UsbOperation
        ensures { result ≡ fresh kind command }
    {
        let command_bytes = [0u8; 13];
        let data = [0u8; 16];
        UsbOperation {
            kind,
            command,
            command_bytes,
            data,
            next: Operation::CommandBlock,
            asked: Asked::Nothing,
        }
    }

    pub(crate) fn turned_to(mut self, next: Operation, asked: Asked) -> UsbOperation
        ensures { result ≡ turned self next asked }
    {
        self.next = next;
        self.asked = asked;
        self
    }

    // The status is given.
    pub(crate) fn with_status(mut self, command_bytes: [u8; 13]) -> UsbOperation
        ensures { result ≡ with_status self command_bytes }
    {
        self.command_bytes = command_bytes;
        self.asked = Asked::Nothing;
        self
    }

    // An answer with nothing beside it.
    fn answers(self, step: Result<UsbStep, StepError>) -> UsbStepped
        ensures { result ≡ plain step self }
    {
        let beside = Beside::blank([0, 0, 0, 0]);
        UsbStepped {
            step,
            beside,
            next: self,
        }
    }

    fn command_step(self, out: &mut [u8]) -> UsbStepped
        ensures { StepMeets result out.old out.new (command_step self (length out.old)) }
    {
        let command = self.command;
        let Ok(_) = command.to_bytes(out) else {
            return self.answers(Err(StepError::OutputTooShort));
        };
        zero_tail(out);
        let command_bytes = first_13(out);
        let next = after_command(command.transfer_length);
        self.with_status(command_bytes)
            .turned_to(next, Asked::Nothing)
            .answers(Ok(UsbStep::WriteCommand))
    }

    // The data step over the caller's data.
    fn sector_step(self, lent: usize, step: UsbStep, asked: Asked) -> UsbStepped
        ensures { result ≡ sectored self lent step asked }
    {
        if lent < (self.command.transfer_length as usize) {
            return self.answers(Err(StepError::DataDiffers));
        }
        self.turned_to(Operation::CommandStatus, asked)
            .answers(Ok(step))
    }

    #[tactic(auto, unfolding(crate::specs::Step::io_step, crate::specs::Step::step_told, crate::specs::Step::beside_at, crate::specs::Step::beside_asks, promise::specs::Rules::or_refuse, operation_finish::specs::Reply::beside_of, protocol_bytes::specs::Signature::signature_in))]
    fn io_step(self, lent: usize) -> UsbStepped
        ensures { (out : List ℕ) → StepMeets result out out (io_step (io_of self.kind) self lent) }
    {
        let length = self.command.transfer_length as usize;
        match io_of(self.kind) {
            IOBytes::Inband => {
                let step = Ok(UsbStep::ReadInband(length.min(INBAND)));
                self.turned_to(Operation::CommandStatus, Asked::Inband)
                    .answers(step)
            }
            IOBytes::Read => self.sector_step(lent, UsbStep::ReadData(length), Asked::Sectors),
            IOBytes::Write => self.sector_step(lent, UsbStep::WriteData(length), Asked::Nothing),
        }
    }

    #[tactic(auto, unfolding(crate::specs::Step::status_step, crate::specs::Step::step_told, crate::specs::Step::beside_at, crate::specs::Step::beside_asks))]
    fn status_step(self) -> UsbStepped
        ensures { (out : List ℕ) → StepMeets result out out (status_step self) }
    {
        self.turned_to(Operation::Finish, Asked::Status)
            .answers(Ok(UsbStep::ReadStatus(STATUS)))
    }

    #[tactic(auto, using(crate::proofs::Cases::finish_meets), unfolding(crate::specs::Step::finish_step, crate::specs::Step::step_told))]
    fn finish_step(self) -> UsbStepped
        ensures { (out : List ℕ) → StepMeets result out out (finish_step self) }
    {
        let end = finish_of(
            self.kind,
            self.command.tag,
            self.command.transfer_length,
            self.command_bytes,
            self.data,
        );
        UsbStepped {
            step: finished(end.answer),
            beside: end.beside,
            next: self.turned_to(Operation::CommandBlock, Asked::Nothing),
        }
    }

    // The next step. The caller's data is looked at for its length alone, and only where the operation is over sectors.
    #[tactic(auto, unfolding(crate::specs::Step::step_of))]
    pub fn step(self, data: &[u8], out: &mut [u8]) -> UsbStepped
        ensures { StepMeets result out.old out.new (usb_step self (length «data».now) (length out.old)) }
    {
        // Stays a `match`: four places, each with arguments of its own; closures would be made for one call each.
        match self.next {
            Operation::CommandBlock => self.command_step(out),
            Operation::IO => self.io_step(data.len()),
            Operation::CommandStatus => self.status_step(),
            Operation::Finish => self.finish_step(),
        }
    }
}
