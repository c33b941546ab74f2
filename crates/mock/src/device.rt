// The device's record, handed in and back by value; its flash and its area store are lent.
// Stays: lent buffers are parameters of their own, since a contract tells each before and after.
ghost use Rattle.std.specs.Prelude.{◌≡◌, length};
ghost use Rattle.mock.specs.Device.{is_upload, session_of, MockMeets, CreateMeets, fresh_state, create_told, created, write_bulk, read_bulk, write_control, maskrom_area};
ghost use Rattle.mock_base.specs.Told.{Answers};
ghost use Rattle.mock_base.specs.declared.cells.Variety.TheVariants.{First, Nor};
ghost use Rattle.mock.specs.Code.{area_error, after_session, after_areas, refused_by};

use mock_areas::{AreaError, AreaStep, Areas, Stretch};
use mock_base::cells::Variety;
use mock_base::config::MockDeviceConfig;
use mock_base::error::{MockAnswer, MockTransportError};
use mock_base::range::{flash_sectors, size_answer};
use mock_effects::{SessionStep, read_step_by, write_step_by};
use mock_table::session::{CommandState, Session};
use protocol_codes::ResetOpcode;

#[derive(Clone, Copy)]
pub struct MockState {
    pub config: MockDeviceConfig,
    pub variety: Variety,
    pub areas: Areas,
    // of the area store, at creation
    pub store_length: usize,
    pub last_reset: Option<ResetOpcode>,
    // with the status that is pending, where it awaits that
    pub current_command: CommandState,
}

// Stays a pair: document 01 has the record handed back beside the answer.
#[derive(Clone, Copy)]
pub struct MockStep {
    pub answer: MockAnswer,
    pub state: MockState,
}

#[tactic(auto, unfolding(crate::specs::Device::is_upload))]
fn is_upload(request_type: u8, request: u8, value: u16) -> bool
    ensures { result ≡ is_upload request_type request value }
{
    request_type == 0x40 && request == 0xc && value == 0
}

// Stays a function, with no From: both types are of other crates, of which neither stands on the other.
#[tactic(auto, unfolding(crate::specs::Code::area_error))]
fn area_error(error: AreaError) -> MockTransportError
    ensures { result ≡ area_error error }
{
    match error {
        AreaError::NoSlot => MockTransportError::NoSlot,
        AreaError::SlotFull => MockTransportError::SlotFull,
    }
}

// A head with NOR flash: 60 and 61, then 62.
fn nor_answer(block_size: u16, length: usize) -> MockAnswer
    ensures { Answers result (create_told Nor block_size length) }
{
    let size = flash_sectors(length);
    let Ok(_) = size else {
        return size_answer(size);
    };
    if block_size == 0 {
        return MockAnswer {
            result: Err(MockTransportError::ZeroBlockSize),
            signature: [0; 4],
        };
    }
    MockAnswer {
        result: Ok(()),
        signature: [0; 4],
    }
}

impl MockState {
    #[tactic(auto, unfolding(crate::specs::Device::fresh_state))]
    fn fresh(variety: Variety, config: MockDeviceConfig, store_length: usize) -> MockState
        ensures { result ≡ fresh_state variety config store_length }
    {
        MockState {
            config,
            variety,
            areas: Areas::new(),
            store_length,
            last_reset: None,
            current_command: CommandState::None,
        }
    }

    // Beside 60 or 61 stands the record as if unrefused.
    pub fn new(config: MockDeviceConfig, flash: &[u8], store: &[u8]) -> MockStep
        ensures { CreateMeets result (created First config (length flash.now) (length store.now)) }
    {
        MockStep {
            answer: size_answer(flash_sectors(flash.len())),
            state: MockState::fresh(Variety::First, config, store.len()),
        }
    }

    // A head with NOR flash. Beside 60, 61 or 62 stands the record as if unrefused.
    pub fn new_nor(config: MockDeviceConfig, flash: &[u8], store: &[u8]) -> MockStep
        ensures { CreateMeets result (created Nor config (length flash.now) (length store.now)) }
    {
        MockStep {
            answer: nor_answer(config.block_size_sectors, flash.len()),
            state: MockState::fresh(Variety::Nor, config, store.len()),
        }
    }

    fn session(self) -> Session
        ensures { result ≡ session_of self }
    {
        Session {
            current_command: self.current_command,
            last_reset: self.last_reset,
        }
    }

    fn after_session(mut self, step: SessionStep) -> MockStep
        ensures { result ≡ after_session self step }
    {
        self.current_command = step.session.current_command;
        self.last_reset = step.session.last_reset;
        MockStep {
            answer: step.answer,
            state: self,
        }
    }

    fn after_areas(mut self, step: AreaStep) -> MockStep
        ensures { result ≡ after_areas self step }
    {
        self.areas = step.areas;
        MockStep {
            answer: MockAnswer {
                result: step.answer.map_err(area_error),
                signature: [0; 4],
            },
            state: self,
        }
    }

    fn refused(self, error: MockTransportError) -> MockStep
        ensures { result ≡ refused_by self error }
    {
        MockStep {
            answer: MockAnswer {
                result: Err(error),
                signature: [0; 4],
            },
            state: self,
        }
    }

    pub fn write_bulk(self, flash: &mut [u8], data: &[u8]) -> MockStep
        ensures { MockMeets result flash.new (write_bulk self flash.old «data».now) }
    {
        let block_size = self.config.block_size_sectors;
        self.after_session(write_step_by(self.session(), self.variety, block_size, flash, data))
    }

    pub fn read_bulk(self, flash: &[u8], data: &mut [u8]) -> MockStep
        ensures { MockMeets result «data».new (read_bulk self flash.now «data».old) }
    {
        self.after_session(read_step_by(self.session(), self.variety, self.config, flash, data))
    }

    // Stays at (request_type, request, value, index): they are the Rust's parameters.
    pub fn write_control(
        self,
        request_type: u8,
        request: u8,
        value: u16,
        index: u16,
        data: &[u8],
        store: &mut [u8],
    ) -> MockStep
        ensures { MockMeets result store.new (write_control self request_type request value index «data».now store.old) }
    {
        if store.len() != self.store_length {
            return self.refused(MockTransportError::StoreLength);
        }
        if !is_upload(request_type, request, value) {
            return self.refused(MockTransportError::UnsupportedControl {
                request_type,
                request,
                value,
            });
        }
        self.after_areas(self.areas.append(index, data, store))
    }

    // Where an area's bytes stand in the store.
    pub fn maskrom_area(self, area: u16) -> Option<Stretch>
        ensures { result ≡ maskrom_area self area }
    {
        self.areas.find(area, self.store_length)
    }

    pub fn last_reset(self) -> Option<ResetOpcode>
        ensures { result ≡ self.last_reset }
    {
        self.last_reset
    }
}
