// An image is uploaded in control writes of 4,096 bytes and a shorter last one, handed over part by part (`MaskRomOperation`) or lent whole at
// every step (`write_area`, `WholeUpload`).

#![tactic(auto)]

ghost use Rattle.std.specs.Prelude.{◌≡◌, ◌+◌, ◌≤◌, min, length};
ghost use Rattle.crc.specs.Check.{crc_over};
ghost use Rattle.promise.specs.Told.{given};
ghost use Rattle.promise.specs.Does.{Meets};
ghost use Rattle.maskrom.specs.Answers.{control, part_told, step_told, start_told, part_error_number, upload_error_number, image_too_long_number};
ghost use Rattle.maskrom.specs.PartWise.{fresh, waiting, holding, asks, with_moved};
ghost use Rattle.maskrom.specs.Whole.{fresh_whole, StartMeets, most, sent_on, sends_on};
ghost use Rattle.maskrom.specs.Calls.{PartMeets, CloseMeets, StepMeets};
ghost use Rattle.maskrom.specs.Code.{parted, closed_with, stepped_with};

use maskrom_transfer::{MaskRomSteps, Moved};
use rule_number::RuleNumber;

const BLOCK: usize = 4096;

const LONGEST: usize = u32::MAX as usize;

const CRC_START: u16 = 0xFFFF;

// As many as `SHORT` of crc.
const FEW: usize = 16;

// A control write with the first `size` bytes of the output.
#[derive(Clone, Copy, Debug, PartialEq, Eq)]
pub struct Control {
    pub request_type: u8,
    pub request: u8,
    pub value: u16,
    pub index: u16,
    pub size: usize,
}

#[derive(Clone, Copy, Debug, PartialEq, Eq)]
pub enum PartStep {
    // That many bytes were taken.
    Taken(usize),
    // That many were taken, and the block is full.
    WriteControl(usize, Control),
}

// 20, 26, 25: why a part is refused.
#[derive(Clone, Copy, Debug, PartialEq, Eq)]
pub enum PartError {
    OutputTooShort,
    AlreadyClosed,
    ImageTooLong,
}

impl RuleNumber for PartError {
    ghost rule_number = { part_error_number };

    fn number(self) -> u8 {
        match self {
            PartError::OutputTooShort => 20,
            PartError::AlreadyClosed => 26,
            PartError::ImageTooLong => 25,
        }
    }
}

#[derive(Clone, Copy, Debug, PartialEq, Eq)]
pub enum UploadStep {
    WriteControl(Control),
    Finished,
}

// 20, 27: why a closing or whole-upload step is refused.
#[derive(Clone, Copy, Debug, PartialEq, Eq)]
pub enum UploadError {
    OutputTooShort,
    ImageDiffers,
}

impl RuleNumber for UploadError {
    ghost rule_number = { upload_error_number };

    fn number(self) -> u8 {
        match self {
            UploadError::OutputTooShort => 20,
            UploadError::ImageDiffers => 27,
        }
    }
}

// 25: an image that is too long for any upload.
#[derive(Clone, Copy, Debug, PartialEq, Eq)]
pub struct ImageTooLong;

impl RuleNumber for ImageTooLong {
    ghost rule_number = { image_too_long_number };

    fn number(self) -> u8 {
        25
    }
}

// A part-wise upload. The first `taken % 4096` bytes of the block wait for their transfer; the check covers all that was taken.
// Stays a block with its count: nothing here allocates, and `taken` counts the whole image.
#[derive(Clone, Copy, Debug, PartialEq, Eq)]
pub struct MaskRomOperation {
    pub area: u16,
    pub taken: u32,
    pub crc: u16,
    pub steps: MaskRomSteps,
    pub block: [u8; 4096],
}

// Stay pairs: document 01 has the record handed back beside the answer.
// Stay three types: `PartMeets`, `CloseMeets`, `StepMeets` and the theorems over them name each.
#[derive(Clone, Copy, Debug, PartialEq, Eq)]
pub struct PartStepped {
    pub step: Result<PartStep, PartError>,
    pub next: MaskRomOperation,
}

#[derive(Clone, Copy, Debug, PartialEq, Eq)]
pub struct CloseStepped {
    pub step: Result<UploadStep, UploadError>,
    pub next: MaskRomOperation,
}

// A whole upload, of an image that is lent at every step.
#[derive(Clone, Copy, Debug, PartialEq, Eq)]
pub struct WholeUpload {
    pub area: u16,
    pub length: u32,
    pub taken: u32,
    pub crc: u16,
    pub steps: MaskRomSteps,
}

// Stays a record beside its answer: `StartMeets` tells the record at a refusal too.
#[derive(Clone, Copy, Debug, PartialEq, Eq)]
pub struct WholeStart {
    pub start: Result<(), ImageTooLong>,
    pub upload: WholeUpload,
}

#[derive(Clone, Copy, Debug, PartialEq, Eq)]
pub struct WholeStepped {
    pub step: Result<UploadStep, UploadError>,
    pub next: WholeUpload,
}

fn control_of(area: u16, size: usize) -> Control
    ensures { result ≡ control area size }
{
    Control {
        request_type: 0x40,
        request: 0xc,
        value: 0,
        index: area,
        size,
    }
}

// What is asked of the transport: a control write, or nothing any more.
#[tactic(auto, unfolding(crate::specs::Answers::step_told, crate::specs::PartWise::asks))]
fn asked(steps: MaskRomSteps, area: u16, size: usize) -> UploadStep
    ensures { step_told (Ok result) ≡ given (asks steps area size) }
{
    match steps {
        MaskRomSteps::Done => UploadStep::Finished,
        _ => UploadStep::WriteControl(control_of(area, size)),
    }
}

impl MaskRomOperation {
    pub fn new(area: u16) -> MaskRomOperation
        ensures { result ≡ fresh area }
    {
        MaskRomOperation {
            area,
            taken: 0,
            crc: CRC_START,
            steps: MaskRomSteps::Writing,
            block: [0; 4096],
        }
    }

    // Bytes that the block has room for are put behind those that wait.
    fn hold(mut self, more: &[u8]) -> MaskRomOperation
        requires { (waiting self + length more.now ≤ 4096) × (self.taken + length more.now ≤ 4294967295) }
        ensures { result ≡ holding self more.now }
    {
        let at = (self.taken % 4096) as usize;
        self.block[at..at + more.len()].copy_from_slice(more);
        self.taken += more.len() as u32;
        self.crc = crc::update(self.crc, more);
        self
    }

    fn after_part(self, step: Result<PartStep, PartError>) -> PartStepped
        ensures { result ≡ parted step self }
    {
        PartStepped { step, next: self }
    }

    // Hands over the next bytes of the image.
    #[tactic(auto, unfolding(crate::specs::Answers::part_told, crate::specs::PartWise::part_step, crate::specs::PartWise::closed, promise::specs::Rules::or_refuse, promise::specs::Does::said, promise::specs::Does::sent, promise::specs::Does::after))]
    pub fn part(self, part: &[u8], out: &mut [u8]) -> PartStepped
        ensures { PartMeets result self part.now out.old out.new }
    {
        if out.len() < BLOCK {
            return self.after_part(Err(PartError::OutputTooShort));
        }
        let MaskRomSteps::Writing = self.steps else {
            return self.after_part(Err(PartError::AlreadyClosed));
        };
        let taken = self.taken as usize;
        if LONGEST < taken + part.len() {
            return self.after_part(Err(PartError::ImageTooLong));
        }
        let at = taken % BLOCK;
        let n = (BLOCK - at).min(part.len());
        let next = self.hold(&part[..n]);
        if at + n < BLOCK {
            return next.after_part(Ok(PartStep::Taken(n)));
        }
        out[..BLOCK].copy_from_slice(&next.block);
        next.after_part(Ok(PartStep::WriteControl(n, control_of(self.area, BLOCK))))
    }

    fn moved_to(mut self, moved: Moved) -> MaskRomOperation
        ensures { result ≡ with_moved self moved.crc moved.steps }
    {
        self.crc = moved.crc;
        self.steps = moved.steps;
        self
    }

    fn after_close(self, step: Result<UploadStep, UploadError>) -> CloseStepped
        ensures { result ≡ closed_with step self }
    {
        CloseStepped { step, next: self }
    }

    // The image is complete: its next transfer, or the finish.
    pub fn close(self, out: &mut [u8]) -> CloseStepped
        ensures { CloseMeets result self out.old out.new }
    {
        let n = (self.taken % 4096) as usize;
        let sent = maskrom_transfer::send(self.steps, self.crc, self.block, n, out);
        let Ok(to) = sent else {
            return self.after_close(Err(UploadError::OutputTooShort));
        };
        let step = asked(self.steps, self.area, to.size);
        self.moved_to(to).after_close(Ok(step))
    }
}

fn new_whole(area: u16, length: u32) -> WholeUpload
    ensures { result ≡ fresh_whole area length }
{
    WholeUpload {
        area,
        length,
        taken: 0,
        crc: CRC_START,
        steps: MaskRomSteps::Writing,
    }
}

// Starts the upload of a whole image.
#[tactic(auto, unfolding(crate::specs::Answers::start_told, crate::specs::Whole::start_step, promise::specs::Rules::or_refuse, promise::specs::Does::said, promise::specs::Does::after))]
pub fn write_area(area: u16, image: &[u8]) -> WholeStart
    ensures { StartMeets result area image.now }
{
    let Ok(length) = u32::try_from(image.len()) else {
        return WholeStart {
            start: Err(ImageTooLong),
            upload: new_whole(area, 0),
        };
    };
    WholeStart {
        start: Ok(()),
        upload: new_whole(area, length),
    }
}

// How many bytes of the image go with the next step, of those that are left.
#[tactic(auto, unfolding(crate::specs::Whole::most))]
fn chunk_size(steps: MaskRomSteps, left: usize) -> usize
    ensures { result ≡ min (most steps) left }
{
    match steps {
        MaskRomSteps::Writing => BLOCK.min(left),
        _ => 0,
    }
}

// Stays beside `crc::update`, the check over the chunk: one of few bytes goes by the table at once. `crc::update` would do no other with them, but it
// holds room on the stack for the table of its other way besides.
fn crc_over(crc: u16, chunk: &[u8]) -> u16
    ensures { result ≡ crc_over crc chunk.now }
{
    if chunk.len() < FEW {
        crc::update_by_table(crc, chunk)
    } else {
        crc::update(crc, chunk)
    }
}

impl WholeUpload {
    fn moved_on(mut self, n: usize, to: Moved) -> WholeUpload
        requires { self.taken + n ≤ 4294967295 }
        ensures { result ≡ sent_on self n to.crc to.steps }
    {
        self.taken += n as u32;
        self.crc = to.crc;
        self.steps = to.steps;
        self
    }

    fn after_step(self, step: Result<UploadStep, UploadError>) -> WholeStepped
        ensures { result ≡ stepped_with step self }
    {
        WholeStepped { step, next: self }
    }

    fn send_on(self, chunk: &[u8], out: &mut [u8]) -> WholeStepped
        requires { (length chunk.now ≤ 4096) × (self.taken + length chunk.now ≤ 4294967295) }
        ensures { Meets (step_told result.step) result.next out.old out.new self (sends_on self chunk.now (length out.old)) }
    {
        let crc = crc_over(self.crc, chunk);
        let sent = maskrom_transfer::send_lent(self.steps, crc, chunk, out);
        let Ok(to) = sent else {
            return self.after_step(Err(UploadError::OutputTooShort));
        };
        let step = asked(self.steps, self.area, to.size);
        self.moved_on(chunk.len(), to).after_step(Ok(step))
    }

    // The next transfer of the image, or the finish.
    #[tactic(auto, unfolding(crate::specs::Answers::step_told, crate::specs::Whole::whole_step, promise::specs::Rules::or_refuse, promise::specs::Does::said, promise::specs::Does::sent, promise::specs::Does::after))]
    pub fn step(self, image: &[u8], out: &mut [u8]) -> WholeStepped
        ensures { StepMeets result self image.now out.old out.new }
    {
        if out.len() < BLOCK {
            return self.after_step(Err(UploadError::OutputTooShort));
        }
        let length = image.len();
        if length != self.length as usize {
            return self.after_step(Err(UploadError::ImageDiffers));
        }
        let from = length.min(self.taken as usize);
        let end = from + chunk_size(self.steps, length - from);
        self.send_on(&image[from..end], out)
    }
}
