// "The device": raw calls on the current device.
use mock::config::MockDeviceConfig;
use mock::device::{MockState, MockStep};
use mock_areas::Stretch;
use mock_base::error::{MockAnswer, MockTransportError};
use protocol_codes::ResetOpcode;
use replay_answers::answer::{Answer, Tail};
use replay_answers::refusals::command_error;
use replay_answers::told::Told;
use replay_lines::buffer::{behind, copy, first, first_mut};
use replay_lines::data::LEN;
use replay_lines::names::Call;
use replay_lines::tokens::Tokens;
use rule_number::RuleNumber;

// A device's record, and the length of its flash.
// Stays a length beside a buffer: nothing here allocates.
#[derive(Clone, Copy)]
pub struct Device {
    pub state: MockState,
    pub flash: usize,
}

// The current device, where there is one, and the buffers that its flash and its store stand in.
#[derive(Drop)]
pub struct Devices<'a> {
    pub current: Option<Device>,
    pub flash: &'a mut [u8],
    pub store: &'a mut [u8],
}

// Stays a `match`: each refusal has values of its own.
pub fn refusal(error: MockTransportError, signature: [u8; 4]) -> Told {
    let number = error.number();
    match error {
        MockTransportError::InvalidTransferLength { expected, actual } => {
            Told::of(number, &[expected as u64, actual as u64])
        }
        MockTransportError::UnsupportedControl {
            request_type,
            request,
            value,
        } => Told::of(
            number,
            &[
                u64::from(request_type),
                u64::from(request),
                u64::from(value),
            ],
        ),
        MockTransportError::InvalidReset(opcode) => Told::of(number, &[u64::from(opcode)]),
        MockTransportError::UnknownCommand(code) => Told::of(number, &[u64::from(u8::from(code))]),
        // the inner number and its values
        MockTransportError::CommandBlockError(inner) => {
            let told = command_error(inner, signature);
            told.behind(number, u64::from(told.number))
        }
        MockTransportError::FlashSize(n) => Told::of(number, &[n as u64]),
        _ => Told::numbered(error),
    }
}

fn told_of(answer: MockAnswer) -> Told {
    match answer.result {
        Ok(()) => Told::of(0, &[]),
        Err(error) => refusal(error, answer.signature),
    }
}

// BLOCKSIZE CHIP FLASHID CAPABILITY EXTRA
fn configuration(tokens: &mut Tokens) -> Option<MockDeviceConfig> {
    let block_size_sectors = tokens.u16()?;
    let chip_info = tokens.array()?;
    let flash_id = tokens.array()?;
    let capability = tokens.array()?;
    let flash_info_extra = tokens.array()?;
    Some(MockDeviceConfig {
        chip_info,
        flash_id,
        capability,
        block_size_sectors,
        flash_info_extra,
    })
}

pub fn last_reset(last: Option<ResetOpcode>) -> Told {
    match last {
        None => Told::of(0, &[0]),
        Some(opcode) => Told::of(0, &[1, u64::from(u8::from(opcode))]),
    }
}

impl Devices<'_> {
    // A block size of 0 is told, and the device is there all the same.
    fn made(&mut self, made: MockStep, flash: usize) -> Answer {
        if let Ok(()) | Err(MockTransportError::ZeroBlockSize) = made.answer.result {
            self.current = Some(Device {
                state: made.state,
                flash,
            });
        }
        Answer::from(told_of(made.answer))
    }

    // `dvd`
    fn start_default(&mut self, mut tokens: Tokens) -> Option<Answer> {
        let store = tokens.at_most(LEN)?;
        tokens.end()?;
        let flash = MockDeviceConfig::default_sectors() * 512;
        first_mut(flash, self.flash).fill(255);
        let made = MockState::new(
            MockDeviceConfig::default(),
            first_mut(flash, self.flash),
            first_mut(store, self.store),
        );
        Some(self.made(made, flash))
    }

    // `dvc`, `dvn`: the STORE, and a configuration with its FLASH
    fn start_configured(
        &mut self,
        call: Call,
        mut tokens: Tokens,
        data: &mut [u8],
    ) -> Option<Answer> {
        let store = tokens.at_most(LEN)?;
        let config = configuration(&mut tokens)?;
        let flash = tokens.data(LEN, data)?;
        tokens.end()?;
        copy(first(flash, data), self.flash);
        let flash_bytes = first_mut(flash, self.flash);
        let store_bytes = first_mut(store, self.store);
        let made = if call == Call::StartNor {
            MockState::new_nor(config, flash_bytes, store_bytes)
        } else {
            MockState::new(config, flash_bytes, store_bytes)
        };
        Some(self.made(made, flash))
    }

    // The device as a call left it, and what the call is told.
    fn called(&mut self, step: MockStep, flash: usize) -> Answer {
        self.current = Some(Device {
            state: step.state,
            flash,
        });
        Answer::from(told_of(step.answer))
    }

    // `bwr`
    fn write_bulk(&mut self, mut tokens: Tokens, data: &mut [u8]) -> Option<Answer> {
        let Device { state, flash } = self.current?;
        let len = tokens.data(LEN, data)?;
        tokens.end()?;
        let step = state.write_bulk(first_mut(flash, self.flash), first(len, data));
        Some(self.called(step, flash))
    }

    // `brd`
    fn read_bulk(&mut self, mut tokens: Tokens, room: &mut [u8]) -> Option<Answer> {
        let Device { state, flash } = self.current?;
        let len = tokens.room(room)?;
        tokens.end()?;
        let step = state.read_bulk(first(flash, self.flash), first_mut(len, room));
        Some(self.called(step, flash).with_room(len))
    }

    // `ctl`: TYPE REQUEST VALUE INDEX DATA
    fn write_control(&mut self, mut tokens: Tokens, data: &mut [u8]) -> Option<Answer> {
        let Device { state, flash } = self.current?;
        let request_type = tokens.u8()?;
        let request = tokens.u8()?;
        let value = tokens.u16()?;
        let index = tokens.u16()?;
        let len = tokens.data(LEN, data)?;
        tokens.end()?;
        let step = state.write_control(
            request_type,
            request,
            value,
            index,
            first(len, data),
            first_mut(state.store_length, self.store),
        );
        Some(self.called(step, flash))
    }

    // `are`
    fn area(&self, mut tokens: Tokens, room: &mut [u8]) -> Option<Answer> {
        let Device { state, flash: _ } = self.current?;
        let number = tokens.u16()?;
        tokens.end()?;
        match state.maskrom_area(number) {
            None => Some(Answer::from(Told::of(0, &[0]))),
            Some(Stretch { start, length }) => {
                copy(first(length, behind(start, self.store)), room);
                Some(Answer::with_tail(Told::of(0, &[1]), Tail::Room(length)))
            }
        }
    }

    // `lst`
    fn last_reset(&self, tokens: Tokens) -> Option<Answer> {
        let Device { state, flash: _ } = self.current?;
        tokens.end()?;
        Some(Answer::from(last_reset(state.last_reset())))
    }

    // What a call on the device is told.
    // Stays a `match`: each call reads its own tokens.
    // Stays with these parameters: the buffers are lent by main.
    pub fn answer(
        &mut self,
        call: Call,
        tokens: Tokens,
        data: &mut [u8],
        room: &mut [u8],
    ) -> Option<Answer> {
        match call {
            Call::StartDefault => {
                self.current = None;
                self.start_default(tokens)
            }
            Call::StartConfigured | Call::StartNor => {
                self.current = None;
                self.start_configured(call, tokens, data)
            }
            Call::WriteBulk => self.write_bulk(tokens, data),
            Call::ReadBulk => self.read_bulk(tokens, room),
            Call::WriteControl => self.write_control(tokens, data),
            Call::Area => self.area(tokens, room),
            Call::LastReset => self.last_reset(tokens),
            _ => None,
        }
    }
}
