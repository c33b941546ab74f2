// Uploads driven to their end over one lent output: 0 or the number of the refusal.

ghost use Rattle.ffi.specs.Drive.{DriveMeets, whole_drive, part_drive};

use maskrom::{MaskRomOperation, write_area};
use rule_number::RuleNumber;

// An image that was handed over whole is closed by two transfers at most and the finish.
const MOST_CLOSING: u32 = 3;

// A whole upload to its finish, each transfer at the front of `out`: 28 past `budget` steps.
pub fn whole(area: u16, image: &[u8], out: &mut [u8], budget: u32) -> u8
    ensures { DriveMeets result out.new (whole_drive area image.now out.old budget) }
{
    let started = write_area(area, image);
    if let Err(refusal) = started.start {
        return refusal.number();
    }
    crate::driving::drive(started.upload, budget, out, |upload, out| {
        let stepped = upload.step(image, out);
        (stepped.step, stepped.next)
    })
}

// A whole upload in parts of `size` bytes, handed over by `budget` calls at most.
pub fn parts(area: u16, size: usize, image: &[u8], out: &mut [u8], budget: u64) -> u8
    ensures { DriveMeets result out.new (part_drive area size image.now out.old budget) }
{
    let over = crate::driving::hand_over(MaskRomOperation::new(area), size, image, out, budget);
    if let Err(number) = over.answer {
        return number;
    }
    crate::driving::drive(over.operation, MOST_CLOSING, out, |operation, out| {
        let stepped = operation.close(out);
        (stepped.step, stepped.next)
    })
}
