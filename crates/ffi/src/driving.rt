// An upload driven to its end over one lent output, with a budget of calls.
// Stays a number from here on, in each pace and in `HandedOver`: C is told it.
ghost use Rattle.std.specs.Prelude.{◌≡◌, ℕ};
ghost use Rattle.promise.specs.Told.{Told};
ghost use Rattle.promise.specs.Does.{Does};
ghost use Rattle.promise.specs.Run.{runs};
ghost use Rattle.maskrom.specs.Answers.{Asks, step_told, part_told};
ghost use Rattle.ffi.specs.Drive.{DriveMeets, step_drive, handing, part_turn};
ghost use Rattle.ffi.specs.Code.{pace_of, part_pace, IsNumbered, HandsOver, CallsMeet};

use maskrom::{MaskRomOperation, PartError, PartStep, UploadError, UploadStep};
use rule_number::{OutOfSteps, RuleNumber};
use std::ops::ControlFlow;

// How the handing over ended, a refusal by the number that C is told of it, and the operation as it is left.
#[derive(Clone, Copy)]
pub(crate) struct HandedOver {
    pub answer: Result<(), u8>,
    pub operation: MaskRomOperation,
}

// Whether one more step follows, or the number that the upload ends with.
#[tactic(auto, using(crate::proofs::Stepping::last_pace), unfolding(maskrom::specs::Answers::step_told, crate::specs::Code::pace_of))]
fn pace_of(step: Result<UploadStep, UploadError>) -> ControlFlow<u8>
    ensures { result ≡ pace_of (step_told step) }
{
    match step {
        Ok(UploadStep::WriteControl(_)) => ControlFlow::Continue(()),
        Ok(UploadStep::Finished) => ControlFlow::Break(0),
        Err(error) => ControlFlow::Break(error.number()),
    }
}

// How many bytes a part took, or the number of its refusal.
#[tactic(auto, using(crate::proofs::Handing::refused_pace, crate::proofs::Handing::numbered), unfolding(maskrom::specs::Answers::part_told, crate::specs::Code::part_pace))]
fn part_pace(step: Result<PartStep, PartError>) -> Result<usize, u8>
    ensures tells { result ≡ part_pace (part_told step) }
    ensures numbered { IsNumbered result }
{
    match step {
        Ok(PartStep::Taken(n)) => Ok(n),
        Ok(PartStep::WriteControl(n, _)) => Ok(n),
        Err(error) => Err(error.number()),
    }
}

// Step after step, until the finish, a refusal or the end of the budget. It promises the drive of any `comes` that every call of `step` meets.
pub(crate) fn drive<S: Copy, F: Fn(S, &mut [u8]) -> (Result<UploadStep, UploadError>, S)>(
    start: S,
    budget: u32,
    out: &mut [u8],
    step: F,
) -> u8
    requires { F.IsAlwaysCallable step }
    ensures { (comes : S → ℕ → Told (Does Asks S)) → CallsMeet (F.post step) comes → DriveMeets result out.new (step_drive comes budget start out.old) }
{
    let mut upload = start;
    for _ in 0..budget {
        let (stepped, next) = step(upload, out);
        upload = next;
        if let ControlFlow::Break(number) = pace_of(stepped) {
            return number;
        }
    }
    OutOfSteps.number()
}

// Part after part, what was not taken again with the next, until nothing is left.
pub(crate) fn hand_over(
    mut operation: MaskRomOperation,
    size: usize,
    image: &[u8],
    out: &mut [u8],
    budget: u64,
) -> HandedOver
    ensures { HandsOver result out.new (runs (part_turn size) budget (handing operation image.now out.old)) }
{
    let mut from = 0;
    for _ in 0..budget {
        if from == image.len() {
            return HandedOver {
                answer: Ok(()),
                operation,
            };
        }
        let end = from + size.min(image.len() - from);
        let stepped = operation.part(&image[from..end], out);
        operation = stepped.next;
        match part_pace(stepped.step) {
            Ok(n) => from += n,
            Err(number) => {
                return HandedOver {
                    answer: Err(number),
                    operation,
                };
            }
        }
    }
    HandedOver {
        answer: Err(OutOfSteps.number()),
        operation,
    }
}
