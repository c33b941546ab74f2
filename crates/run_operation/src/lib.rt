// Budgeted runs of an operation against the stand-in device.

#![tactic(auto)]

ghost use Rattle.std.specs.Prelude.{◌≡◌, List, [], length};
ghost use Rattle.promise.specs.Rules.{pick};
ghost use Rattle.promise.specs.Run.{runs};
ghost use Rattle.run_turn.specs.Turn.{usb_state, is_write, lent_to, usb_turn};
ghost use Rattle.run_operation.specs.declared.RunError.TheVariants.{Stopped};
ghost use Rattle.run_operation.specs.Run.{sector_data, whole_budget, usb_run};
ghost use Rattle.run_operation.specs.Answers.{run_error_number, RunMeets};
ghost use Rattle.run_operation.specs.Code.{run_ended, unstarted_by};

use mock::device::MockState;
use mock_base::error::MockTransportError;
use mock_base::range::flash_sectors;
use operation::steps::UsbOperation;
use operation_finish::{Beside, Kind, UsbReply};
use rule_number::RuleNumber;
use run_turn::{StopError, is_write, take_turn};
use std::ops::ControlFlow;

// Command, data, status and finish.
const WHOLE_BUDGET: u32 = 4;

// Why a run gives no value.
// Stays beside `LoadError`: theorems name each (`run_number`, `answer_number`), and a generic one would hide which stop it holds.
#[derive(Clone, Copy, Debug, PartialEq, Eq)]
pub enum RunError {
    Stopped(StopError),
    // 28
    OutOfSteps,
}

impl From<StopError> for RunError {
    ghost from_gives = { λ stop error. error ≡ Stopped stop };

    fn from(stop: StopError) -> RunError {
        RunError::Stopped(stop)
    }
}

impl RuleNumber for RunError {
    ghost rule_number = { run_error_number };

    fn number(self) -> u8 {
        match self {
            RunError::Stopped(stop) => stop.number(),
            RunError::OutOfSteps => 28,
        }
    }
}

// `beside` has what no enum can hold: a reply's bytes, or the signature of 11 or 56. `operation` and `device` are as the last step left them, `steps`
// counts the run's own step calls.
// Stays a pair: document 01 has the record handed back beside the answer.
#[derive(Clone, Copy)]
pub struct UsbRun {
    pub answer: Result<UsbReply, RunError>,
    pub beside: Beside,
    pub operation: UsbOperation,
    pub device: MockState,
    pub steps: u32,
}

#[tactic(auto, unfolding(crate::specs::Run::sector_data))]
fn sector_data(kind: Kind, size: usize) -> usize
    ensures { result ≡ sector_data kind size }
{
    match kind {
        Kind::Read | Kind::Write => size,
        _ => 0,
    }
}

fn lent_length(kind: Kind, source: usize, room: usize) -> usize
    ensures { result ≡ pick (is_write kind) source room }
{
    if is_write(kind) { source } else { room }
}

// How a run ends that stops before its budget is used.
fn ended(stop: Result<UsbReply, StopError>) -> Result<UsbReply, RunError>
    ensures { result ≡ run_ended stop }
{
    Ok(stop?)
}

// A run that is refused before its first step.
fn unstarted(stop: StopError, operation: UsbOperation, device: MockState) -> UsbRun
    ensures { result ≡ unstarted_by stop operation device }
{
    let beside = Beside::blank([0, 0, 0, 0]);
    UsbRun {
        answer: Err(RunError::Stopped(stop)),
        beside,
        operation,
        device,
        steps: 0,
    }
}

// Turn after turn, until the finish, a refusal or the end of the budget.
fn run_on(
    operation: UsbOperation,
    device: MockState,
    flash: &mut [u8],
    source: &[u8],
    room: &mut [u8],
    budget: u32,
) -> UsbRun
    ensures { RunMeets result flash.new (lent_to operation.kind source.now room.new) (runs usb_turn budget (usb_state operation device flash.old (lent_to operation.kind source.now room.old))) }
{
    let mut now_operation = operation;
    let mut now_device = device;
    let mut beside = Beside::blank([0, 0, 0, 0]);
    let mut steps: u32 = 0;
    // Stays a `loop` left by `break`, with its count: document 01's form of the run.
    let answer = loop {
        if steps == budget {
            break Err(RunError::OutOfSteps);
        }
        steps += 1;
        let turned = take_turn(now_operation, now_device, flash, source, room);
        now_operation = turned.operation;
        now_device = turned.device;
        beside = turned.beside;
        if let ControlFlow::Break(stop) = turned.turn {
            break ended(stop);
        }
    };
    UsbRun {
        answer,
        beside,
        operation: now_operation,
        device: now_device,
        steps,
    }
}

// Checks, then turns. Sectors are written from `source` and read into `room`.
fn run_over(
    operation: UsbOperation,
    device: MockState,
    flash: &mut [u8],
    store: usize,
    source: &[u8],
    room: &mut [u8],
    budget: u32,
) -> UsbRun
    ensures { RunMeets result flash.new (lent_to operation.kind source.now room.new) (usb_run (usb_state operation device flash.old (lent_to operation.kind source.now room.old)) store budget) }
{
    if let Err(error) = flash_sectors(flash.len()) {
        return unstarted(StopError::Device(error), operation, device);
    }
    if store != device.store_length {
        return unstarted(
            StopError::Device(MockTransportError::StoreLength),
            operation,
            device,
        );
    }
    let kind = operation.kind;
    let size = operation.command.transfer_length as usize;
    if lent_length(kind, source.len(), room.len()) < sector_data(kind, size) {
        return unstarted(StopError::DataDiffers, operation, device);
    }
    run_on(operation, device, flash, source, room, budget)
}

// Runs an operation from wherever it stands: a read fills the data, a write takes its bytes from it, any other leaves it.
// Stay two of each (`run_write`, `run_whole_write`): one is lent data for reading alone.
pub fn run(
    operation: UsbOperation,
    device: MockState,
    flash: &mut [u8],
    store: &[u8],
    data: &mut [u8],
    budget: u32,
) -> UsbRun
    ensures { RunMeets result flash.new «data».new (usb_run (usb_state operation device flash.old «data».old) (length store.now) budget) }
{
    let kind = operation.kind;
    if is_write(kind) {
        let mut none = [0u8; 0];
        return run_over(
            operation,
            device,
            flash,
            store.len(),
            data,
            &mut none,
            budget,
        );
    }
    let none = [0u8; 0];
    run_over(operation, device, flash, store.len(), &none, data, budget)
}

// Runs an operation with data that is only written from: one that would read sectors is lent none.
pub fn run_write(
    operation: UsbOperation,
    device: MockState,
    flash: &mut [u8],
    store: &[u8],
    data: &[u8],
    budget: u32,
) -> UsbRun
    ensures { RunMeets result flash.new (lent_to operation.kind «data».now []) (usb_run (usb_state operation device flash.old (lent_to operation.kind «data».now [])) (length store.now) budget) }
{
    let mut none = [0u8; 0];
    run_over(
        operation,
        device,
        flash,
        store.len(),
        data,
        &mut none,
        budget,
    )
}

// One whole operation: a budget that is enough from every record.
pub fn run_whole(
    operation: UsbOperation,
    device: MockState,
    flash: &mut [u8],
    store: &[u8],
    data: &mut [u8],
) -> UsbRun
    ensures { RunMeets result flash.new «data».new (usb_run (usb_state operation device flash.old «data».old) (length store.now) whole_budget) }
{
    run(operation, device, flash, store, data, WHOLE_BUDGET)
}

// One whole operation with data that is only written from.
pub fn run_whole_write(
    operation: UsbOperation,
    device: MockState,
    flash: &mut [u8],
    store: &[u8],
    data: &[u8],
) -> UsbRun
    ensures { RunMeets result flash.new (lent_to operation.kind «data».now []) (usb_run (usb_state operation device flash.old (lent_to operation.kind «data».now [])) (length store.now) whole_budget) }
{
    run_write(operation, device, flash, store, data, WHOLE_BUDGET)
}
