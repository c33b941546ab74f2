// A whole upload run against the stand-in, with a budget of steps.

#![tactic(auto)]

ghost use Rattle.std.specs.Prelude.{◌≡◌, ◌≤◌, length, take};
ghost use Rattle.promise.specs.Told.{given};
ghost use Rattle.promise.specs.Rules.{unless};
ghost use Rattle.promise.specs.Run.{runs};
ghost use Rattle.run_upload.specs.declared.LoadStopError.TheVariants.{Device};
ghost use Rattle.run_upload.specs.declared.LoadError.TheVariants.{Stopped};
ghost use Rattle.run_upload.specs.Load.{load_state, carried, load_turn, load_rules, load_run, upload_budget};
ghost use Rattle.mock.specs.Device.{write_control};
ghost use Rattle.run_upload.specs.Answers.{stop_error_number, load_error_number, stop_by_step, load_stop_told, TurnMeets, RunMeets};
ghost use Rattle.run_upload.specs.Code.{turned_by, run_by, after_control};

use maskrom::{Control, UploadError, UploadStep, WholeUpload};
use mock::device::{MockState, MockStep};
use mock_base::error::MockTransportError;
use mock_base::range::flash_sectors;
use rule_number::RuleNumber;
use std::ops::ControlFlow;

// Why a turn is the last of a run before the finish.
#[derive(Clone, Copy, Debug, PartialEq, Eq)]
pub enum LoadStopError {
    // 51, 58 to 61, 65
    Device(MockTransportError),
    // 20, which a run's own block is never too short for
    OutputTooShort,
    // 27
    ImageDiffers,
}

impl RuleNumber for LoadStopError {
    ghost rule_number = { stop_error_number };

    fn number(self) -> u8 {
        match self {
            LoadStopError::Device(error) => error.number(),
            LoadStopError::OutputTooShort => 20,
            LoadStopError::ImageDiffers => 27,
        }
    }
}

impl From<MockTransportError> for LoadStopError {
    ghost from_gives = { λ error stop. stop ≡ Device error };

    fn from(error: MockTransportError) -> LoadStopError {
        LoadStopError::Device(error)
    }
}

impl From<UploadError> for LoadStopError {
    ghost from_gives = { λ error stop. stop ≡ stop_by_step error };

    fn from(error: UploadError) -> LoadStopError {
        match error {
            UploadError::OutputTooShort => LoadStopError::OutputTooShort,
            UploadError::ImageDiffers => LoadStopError::ImageDiffers,
        }
    }
}

// Why a run ends before the finish.
// Stays beside `RunError` of run_operation: theorems name each (`run_number`, `answer_number`), and a generic one would hide which stop it holds.
#[derive(Clone, Copy, Debug, PartialEq, Eq)]
pub enum LoadError {
    Stopped(LoadStopError),
    // 28
    OutOfSteps,
}

impl RuleNumber for LoadError {
    ghost rule_number = { load_error_number };

    fn number(self) -> u8 {
        match self {
            LoadError::Stopped(error) => error.number(),
            LoadError::OutOfSteps => 28,
        }
    }
}

impl From<LoadStopError> for LoadError {
    ghost from_gives = { λ stop error. error ≡ Stopped stop };

    fn from(stop: LoadStopError) -> LoadError {
        LoadError::Stopped(stop)
    }
}

// What one step and its transfer come to: one more, or the end of the run.
// Stays a pair, as `LoadRun` does: document 01 has the record handed back beside the answer.
#[derive(Clone, Copy)]
pub struct LoadTurned {
    pub turn: ControlFlow<Result<(), LoadStopError>>,
    pub upload: WholeUpload,
    pub device: MockState,
}

#[derive(Clone, Copy)]
pub struct LoadRun {
    pub answer: Result<(), LoadError>,
    pub steps: u32,
    pub upload: WholeUpload,
    pub device: MockState,
}

fn turned(
    turn: ControlFlow<Result<(), LoadStopError>>,
    upload: WholeUpload,
    device: MockState,
) -> LoadTurned
    ensures { result ≡ turned_by turn upload device }
{
    LoadTurned {
        turn,
        upload,
        device,
    }
}

// A transfer that the device refuses is the end.
fn after_control(upload: WholeUpload, sent: MockStep) -> LoadTurned
    ensures { result ≡ after_control upload sent }
{
    match sent.answer.result {
        Ok(()) => turned(ControlFlow::Continue(()), upload, sent.state),
        Err(error) => turned(ControlFlow::Break(Err(error.into())), upload, sent.state),
    }
}

// The control write that a step asks for, with the bytes at the front of its block.
fn carry(
    upload: WholeUpload,
    device: MockState,
    c: Control,
    block: &[u8],
    store: &mut [u8],
) -> LoadTurned
    requires { c.size ≤ length block.now }
    ensures { TurnMeets result store.new (carried upload (write_control device c.request_type c.request c.value c.index (take c.size block.now) store.old)) }
{
    let sent = device.write_control(
        c.request_type,
        c.request,
        c.value,
        c.index,
        &block[..c.size],
        store,
    );
    after_control(upload, sent)
}

// One step of the upload, and the transfer that it asks for.
pub fn load_turn(
    upload: WholeUpload,
    device: MockState,
    image: &[u8],
    store: &mut [u8],
) -> LoadTurned
    ensures { TurnMeets result store.new (load_turn image.now (load_state upload device store.old)) }
{
    let mut block = [0; 4096];
    let stepped = upload.step(image, &mut block);
    let next = stepped.next;
    match stepped.step {
        Ok(UploadStep::WriteControl(c)) => carry(next, device, c, &block, store),
        Ok(UploadStep::Finished) => turned(ControlFlow::Break(Ok(())), next, device),
        Err(error) => turned(ControlFlow::Break(Err(error.into())), next, device),
    }
}

fn ran(answer: Result<(), LoadError>, steps: u32, upload: WholeUpload, device: MockState) -> LoadRun
    ensures { result ≡ run_by answer steps upload device }
{
    LoadRun {
        answer,
        steps,
        upload,
        device,
    }
}

// Step after step, until the finish, a refusal or the end of the budget.
fn run_on(
    mut upload: WholeUpload,
    mut device: MockState,
    image: &[u8],
    store: &mut [u8],
    budget: u32,
) -> LoadRun
    ensures { RunMeets result store.new (runs (load_turn image.now) budget (load_state upload device store.old)) }
{
    for used in 0..budget {
        let turned = load_turn(upload, device, image, store);
        upload = turned.upload;
        device = turned.device;
        if let ControlFlow::Break(stop) = turned.turn {
            return ran(stop.map_err(LoadError::Stopped), used + 1, upload, device);
        }
    }
    ran(Err(LoadError::OutOfSteps), budget, upload, device)
}

// What a run checks before its first step.
fn checked(
    upload: &WholeUpload,
    device: &MockState,
    flash: &[u8],
    store: &[u8],
    image: &[u8],
) -> Result<(), LoadStopError>
    ensures { load_stop_told result ≡ unless (load_rules (load_state upload.now device.now store.now) (length flash.now) (length image.now)) (given tt) }
{
    flash_sectors(flash.len())?;
    if store.len() != device.store_length {
        return Err(LoadStopError::Device(MockTransportError::StoreLength));
    }
    if image.len() != upload.length as usize {
        return Err(LoadStopError::ImageDiffers);
    }
    Ok(())
}

// Runs an upload, from wherever it stands.
pub fn run_upload(
    upload: WholeUpload,
    device: MockState,
    flash: &[u8],
    store: &mut [u8],
    image: &[u8],
    budget: u32,
) -> LoadRun
    ensures { RunMeets result store.new (load_run image.now (length flash.now) budget (load_state upload device store.old)) }
{
    if let Err(error) = checked(&upload, &device, flash, store, image) {
        return ran(Err(error.into()), 0, upload, device);
    }
    run_on(upload, device, image, store, budget)
}

// Runs a whole upload with as many steps as one of its length can need.
pub fn run_whole_upload(
    upload: WholeUpload,
    device: MockState,
    flash: &[u8],
    store: &mut [u8],
    image: &[u8],
) -> LoadRun
    ensures { RunMeets result store.new (load_run image.now (length flash.now) (upload_budget upload.length) (load_state upload device store.old)) }
{
    let budget = upload.length / 4096 + 3;
    run_upload(upload, device, flash, store, image, budget)
}
