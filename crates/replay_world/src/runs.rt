// "Runs": the current operation or the current upload, run against the current device with a budget of steps.
use operation_finish::{Beside, UsbReply};
use replay_answers::answer::Answer;
use replay_answers::refusals::operation_error;
use replay_answers::told::Told;
use replay_device::devices::{Device, Devices, refusal};
use replay_lines::buffer::first_mut;
use replay_lines::tokens::Tokens;
use replay_steps::held::Held;
use replay_steps::operations::{Operations, reply_value};
use replay_steps::uploads::Uploads;
use run_operation::RunError;
use run_turn::StopError;
use run_upload::{LoadError, LoadStopError, run_upload};

fn run_answer(answer: Result<UsbReply, RunError>, beside: Beside) -> Answer {
    match answer {
        Ok(reply) => reply_value(reply, beside),
        Err(RunError::Stopped(StopError::Failed(error))) => {
            Answer::from(operation_error(error, beside.signature))
        }
        Err(RunError::Stopped(StopError::Device(error))) => {
            Answer::from(refusal(error, beside.signature))
        }
        Err(error) => Answer::from(Told::numbered(error)),
    }
}

fn load_told(answer: Result<(), LoadError>) -> Told {
    match answer {
        Ok(()) => Told::of(0, &[]),
        Err(LoadError::Stopped(LoadStopError::Device(error))) => refusal(error, [0; 4]),
        Err(error) => Told::numbered(error),
    }
}

// `run`
pub fn run(
    operations: &mut Operations,
    devices: &mut Devices,
    mut tokens: Tokens,
) -> Option<Answer> {
    let Held { record, length } = operations.current?;
    let Device { state, flash } = devices.current?;
    let budget = tokens.u32()?;
    tokens.end()?;
    let done = run_operation::run(
        record,
        state,
        first_mut(flash, devices.flash),
        first_mut(state.store_length, devices.store),
        first_mut(length, operations.own),
        budget,
    );
    operations.current = Some(Held {
        record: done.operation,
        length,
    });
    devices.current = Some(Device {
        state: done.device,
        flash,
    });
    Some(run_answer(done.answer, done.beside).with_steps(done.steps))
}

// `urn`
pub fn load(uploads: &mut Uploads, devices: &mut Devices, mut tokens: Tokens) -> Option<Answer> {
    let Held { record, length } = uploads.current?;
    let Device { state, flash } = devices.current?;
    let budget = tokens.u32()?;
    tokens.end()?;
    let done = run_upload(
        record,
        state,
        first_mut(flash, devices.flash),
        first_mut(state.store_length, devices.store),
        first_mut(length, uploads.image),
        budget,
    );
    uploads.current = Some(Held {
        record: done.upload,
        length,
    });
    devices.current = Some(Device {
        state: done.device,
        flash,
    });
    Some(Answer::from(load_told(done.answer)).with_steps(done.steps))
}
