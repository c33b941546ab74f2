// One turn of a run: a step of an operation and the transfer that it asks for, at the stand-in device.

#![tactic(auto)]

ghost use Rattle.std.specs.Prelude.{◌≡◌, List, [], ℕ, ◌≤◌, length, take, replicate};
ghost use Rattle.promise.specs.Told.{Told};
ghost use Rattle.mock_base.specs.Told.{Answers};
ghost use Rattle.operation.specs.declared.steps.Asked.TheVariants as asked;
ghost use Rattle.operation.specs.Step.{StepMeets, usb_step};
ghost use Rattle.operation.specs.Give.{usb_give};
ghost use Rattle.mock.specs.Device.{write_bulk, read_bulk};
ghost use Rattle.run_turn.specs.Turn.{usb_state, onward, wrote, got, is_write, lent_to, usb_turn};
ghost use Rattle.run_turn.specs.Answers.{stop_error_number, TurnMeets, LentMeets};
ghost use Rattle.run_turn.specs.Code.{stop_of, turn_after, where_done, ended_by};

use mock::device::{MockState, MockStep};
use mock_base::error::{MockAnswer, MockTransportError};
use operation::steps::{StepError, UsbOperation, UsbStep, UsbStepped};
use operation_finish::{Beside, Kind, UsbReply};
use protocol_status::failure::UsbOperationError;
use rule_number::RuleNumber;
use std::ops::ControlFlow;

// Why a run stops before its budget is used.
#[derive(Clone, Copy, Debug, PartialEq, Eq)]
pub enum StopError {
    // 10 to 15
    Failed(UsbOperationError),
    // 50 to 63, 65
    Device(MockTransportError),
    // 20, which a run's own output is never too short for
    OutputTooShort,
    // 27
    DataDiffers,
}

impl From<StepError> for StopError {
    ghost from_gives = { λ step stop. stop ≡ stop_of step };

    fn from(step: StepError) -> StopError {
        match step {
            StepError::Failed(error) => StopError::Failed(error),
            StepError::OutputTooShort => StopError::OutputTooShort,
            StepError::DataDiffers => StopError::DataDiffers,
        }
    }
}

impl RuleNumber for StopError {
    ghost rule_number = { stop_error_number };

    fn number(self) -> u8 {
        match self {
            StopError::Failed(error) => error.number(),
            StopError::Device(error) => error.number(),
            StopError::OutputTooShort => 20,
            StopError::DataDiffers => 27,
        }
    }
}

// What one step and its transfer come to: the run goes on, or it ends with the operation's value or a refusal.
// Stays a pair: document 01 has the record handed back beside the answer.
#[derive(Clone, Copy)]
pub struct UsbTurned {
    pub turn: ControlFlow<Result<UsbReply, StopError>>,
    pub beside: Beside,
    pub operation: UsbOperation,
    pub device: MockState,
}

// Whether an operation of this kind writes the data that it is lent.
#[tactic(auto, unfolding(crate::specs::Turn::is_write))]
pub fn is_write(kind: Kind) -> bool
    ensures { result ≡ is_write kind }
{
    kind == Kind::Write
}

// What the device's answer to a transfer makes of the run.
#[tactic(auto, unfolding(crate::specs::Code::turn_after))]
fn turn_after(answer: MockAnswer) -> ControlFlow<Result<UsbReply, StopError>>
    ensures { result ≡ turn_after answer.result }
{
    match answer.result {
        Ok(()) => ControlFlow::Continue(()),
        Err(error) => ControlFlow::Break(Err(StopError::Device(error))),
    }
}

// After a transfer that the device answered so. Its answer has a signature where it is refused with one, and zeros elsewhere, as a run's has.
fn after_transfer(operation: UsbOperation, done: MockStep) -> UsbTurned
    ensures { (told : Told Unit) (flash bytes : List ℕ) → Answers done.answer told → TurnMeets result flash bytes (onward told (usb_state operation done.state flash bytes)) }
{
    let turn = turn_after(done.answer);
    let beside = Beside::blank(done.answer.signature);
    UsbTurned {
        turn,
        beside,
        operation,
        device: done.state,
    }
}

fn write_turn(
    operation: UsbOperation,
    device: MockState,
    flash: &mut [u8],
    bytes: &[u8],
) -> UsbTurned
    ensures { (lent : List ℕ) → TurnMeets result flash.new lent (wrote (usb_state operation device flash.old lent) (write_bulk device flash.old bytes.now)) }
{
    let written = device.write_bulk(flash, bytes);
    after_transfer(operation, written)
}

// The operation once it is given what a read brought, or as it is where the read was refused.
fn given_after(
    operation: UsbOperation,
    answer: MockAnswer,
    bytes: &[u8],
    room: &mut [u8],
) -> UsbOperation
    ensures value { result ≡ where_done answer.result (usb_give operation bytes.now (length room.old)).next operation }
    ensures room_unchanged { bytes.now ≡ [] → room.new ≡ room.old }
{
    let Ok(()) = answer.result else {
        return operation;
    };
    let given = operation.give(bytes, room);
    given.next
}

// A status or a reply, read into the run's own buffer.
fn reply_turn(operation: UsbOperation, device: MockState, flash: &[u8], size: usize) -> UsbTurned
    requires { size ≤ 16 }
    ensures { (lent : List ℕ) → TurnMeets result flash.now lent (got asked.Status (usb_state operation device flash.now lent) (read_bulk device flash.now (replicate size 0))) }
{
    let mut reply = [0u8; 16];
    let read = device.read_bulk(flash, &mut reply[..size]);
    let mut none = [0u8; 0];
    let next = given_after(operation, read.answer, &reply[..size], &mut none);
    after_transfer(next, read)
}

// Sectors into the first bytes of the caller's data, which an empty giving leaves there.
fn sectors_turn(
    operation: UsbOperation,
    device: MockState,
    flash: &[u8],
    room: &mut [u8],
    size: usize,
) -> UsbTurned
    requires { size ≤ length room.old }
    ensures { TurnMeets result flash.now room.new (got asked.Sectors (usb_state operation device flash.now room.old) (read_bulk device flash.now (take size room.old))) }
{
    let read = device.read_bulk(flash, &mut room[..size]);
    let none = [0u8; 0];
    let next = given_after(operation, read.answer, &none, room);
    after_transfer(next, read)
}

// The operation's step, lent the data that its kind has.
fn step_over(operation: UsbOperation, source: &[u8], room: &[u8], out: &mut [u8]) -> UsbStepped
    ensures { StepMeets result out.old out.new (usb_step operation (length (lent_to operation.kind source.now room.now)) (length out.old)) }
{
    if is_write(operation.kind) {
        operation.step(source, out)
    } else {
        operation.step(room, out)
    }
}

// The end of a run, at a step that asks for no transfer.
fn ended(stop: Result<UsbReply, StopError>, stepped: UsbStepped, device: MockState) -> UsbTurned
    ensures { result ≡ ended_by stop stepped.beside stepped.next device }
{
    UsbTurned {
        turn: ControlFlow::Break(stop),
        beside: stepped.beside,
        operation: stepped.next,
        device,
    }
}

// One turn. Sectors are written from `source` and read into `room`: of the two the operation's kind has use for one, and `room` stays as it was where
// that is `source`.
pub fn take_turn(
    operation: UsbOperation,
    device: MockState,
    flash: &mut [u8],
    source: &[u8],
    room: &mut [u8],
) -> UsbTurned
    ensures { LentMeets result operation.kind source.now room.old flash.new room.new (usb_turn (usb_state operation device flash.old (lent_to operation.kind source.now room.old))) }
{
    let mut out = [0u8; 31];
    let stepped = step_over(operation, source, room, &mut out);
    let step = match stepped.step {
        Ok(step) => step,
        Err(error) => return ended(Err(StopError::from(error)), stepped, device),
    };
    // Stays a `match`: six steps, each with what it brings and what it is lent.
    match step {
        UsbStep::WriteCommand => write_turn(stepped.next, device, flash, &out),
        UsbStep::WriteData(size) => write_turn(stepped.next, device, flash, &source[..size]),
        UsbStep::ReadInband(size) => reply_turn(stepped.next, device, flash, size),
        UsbStep::ReadData(size) => sectors_turn(stepped.next, device, flash, room, size),
        UsbStep::ReadStatus(_) => reply_turn(stepped.next, device, flash, 13),
        UsbStep::Finished(reply) => ended(Ok(reply), stepped, device),
    }
}
