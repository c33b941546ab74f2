// The things that stay from line to line, alone and with their buffers, and where a call leads.
use crate::runs;
use maskrom::WholeUpload;
use operation::steps::UsbOperation;
use replay_answers::answer::Answer;
use replay_device::devices::{Device, Devices};
use replay_lines::names::Call;
use replay_lines::tokens::Tokens;
use replay_steps::held::Held;
use replay_steps::operations::Operations;
use replay_steps::uploads::Uploads;

// Each thing, where there is one.
#[derive(Clone, Copy)]
pub struct World {
    pub operation: Option<Held<UsbOperation>>,
    pub upload: Option<Held<WholeUpload>>,
    pub device: Option<Device>,
}

// Nothing yet.
pub fn new_world() -> World {
    World {
        operation: None,
        upload: None,
        device: None,
    }
}

// The things, and the buffers that they stand in.
#[derive(Drop)]
pub struct Things<'a> {
    pub operations: Operations<'a>,
    pub uploads: Uploads<'a>,
    pub devices: Devices<'a>,
}

impl Things<'_> {
    // What a line's call is told, where the line is of these kinds and about a thing that is there.
    // Stays a `match`: each call reads its own tokens.
    // Stays with these parameters: the buffers are lent by main.
    pub fn answer(
        &mut self,
        call: Call,
        tokens: Tokens,
        data: &mut [u8],
        room: &mut [u8],
    ) -> Option<Answer> {
        match call {
            Call::Open => self.operations.open(tokens, data),
            Call::Step => self.operations.step(tokens, room),
            Call::Give => self.operations.give(tokens, data),
            Call::Upload => self.uploads.start(tokens, data),
            Call::UploadStep => self.uploads.step(tokens, room),
            Call::RunOperation => runs::run(&mut self.operations, &mut self.devices, tokens),
            Call::RunUpload => runs::load(&mut self.uploads, &mut self.devices, tokens),
            _ => self.devices.answer(call, tokens, data, room),
        }
    }
}
