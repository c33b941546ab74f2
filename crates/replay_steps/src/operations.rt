// "Operations": the current operation, stepped by hand.
use crate::held::Held;
use operation::starts::{
    UsbStart, capability, chip_info, erase_force, erase_lba, flash_id, flash_info, read_lba,
    reset_device, storage, switch_storage, write_lba,
};
use operation::steps::{StepError, UsbOperation, UsbStep};
use operation_finish::{Beside, SectorTransfer, UsbReply};
use replay_answers::answer::{Answer, Tail};
use replay_answers::refusals::operation_error;
use replay_answers::told::Told;
use replay_answers::values;
use replay_answers::values::{read_reset, read_storage};
use replay_lines::buffer::{copy, first, first_mut};
use replay_lines::data::LEN;
use replay_lines::names::OperationName;
use replay_lines::tokens::Tokens;

// The current operation, where there is one, and the buffer that the caller's data stands in.
#[derive(Drop)]
pub struct Operations<'a> {
    pub current: Option<Held<UsbOperation>>,
    pub own: &'a mut [u8],
}

// The record of an operation without sector data, from its ARGS.
// Stays a `match`: each operation reads its own tokens.
fn plain(name: OperationName, tag: u32, tokens: &mut Tokens) -> Option<UsbOperation> {
    match name {
        OperationName::ChipInfo => Some(chip_info(tag)),
        OperationName::FlashId => Some(flash_id(tag)),
        OperationName::FlashInfo => Some(flash_info(tag)),
        OperationName::Capability => Some(capability(tag)),
        OperationName::Storage => Some(storage(tag)),
        OperationName::EraseLba => Some(erase_lba(tag, tokens.u32()?, tokens.u16()?)),
        OperationName::EraseForce => Some(erase_force(tag, tokens.u32()?, tokens.u16()?)),
        OperationName::ResetDevice => Some(reset_device(tag, read_reset(tokens)?)),
        OperationName::SwitchStorage => Some(switch_storage(tag, read_storage(tokens)?)),
        OperationName::ReadLba | OperationName::WriteLba => None,
    }
}

// Bytes: what was moved, and of a short transfer what was asked behind it.
fn transfer_value(transfer: SectorTransfer) -> Told {
    match transfer {
        SectorTransfer::Whole(moved) => Told::of(0, &[u64::from(moved.0)]),
        SectorTransfer::Short(short) => {
            Told::of(0, &[u64::from(short.moved.0), u64::from(short.asked.0)])
        }
    }
}

// What a finished operation tells: 0 with its value.
// Stays a `match`: each reply has a value of its own.
pub fn reply_value(reply: UsbReply, beside: Beside) -> Answer {
    let none = Told::of(0, &[]);
    match reply {
        UsbReply::ChipInfo => Answer::with_small(none, &beside.chip_info.inner()),
        UsbReply::FlashId => Answer::with_small(none, &beside.flash_id.inner()),
        UsbReply::FlashInfo => Answer::with_small(none, &beside.flash_info.inner()),
        UsbReply::Capability => Answer::with_small(none, &beside.capability.inner()),
        UsbReply::Nothing => Answer::from(none),
        UsbReply::Storage(index) => Answer::from(values::storage(index)),
        UsbReply::Sectors(transfer) => Answer::from(transfer_value(transfer)),
    }
}

fn step_answer(step: UsbStep, beside: Beside) -> Answer {
    match step {
        UsbStep::WriteCommand => Answer::with_tail(Told::of(0, &[1]), Tail::Room(31)),
        UsbStep::WriteData(n) => Answer::with_tail(Told::of(0, &[1]), Tail::Own(n)),
        UsbStep::ReadInband(n) | UsbStep::ReadData(n) | UsbStep::ReadStatus(n) => {
            Answer::from(Told::of(0, &[2, n as u64]))
        }
        UsbStep::Finished(reply) => reply_value(reply, beside).as_finish(),
    }
}

fn step_refused(error: StepError, beside: Beside) -> Told {
    match error {
        StepError::Failed(error) => operation_error(error, beside.signature),
        _ => Told::numbered(error),
    }
}

impl Operations<'_> {
    // FIRST DATA of a sector operation.
    // Stays with these parameters: the buffers are lent by main.
    fn open_sectors(
        &mut self,
        name: OperationName,
        tag: u32,
        mut tokens: Tokens,
        data: &mut [u8],
    ) -> Option<Answer> {
        let sector = tokens.u32()?;
        let length = tokens.data(LEN, data)?;
        tokens.end()?;
        let UsbStart { answer, operation } = if name == OperationName::ReadLba {
            read_lba(tag, sector, length)
        } else {
            write_lba(tag, sector, length)
        };
        if answer.is_ok() {
            copy(first(length, data), self.own);
            self.current = Some(Held {
                record: operation,
                length,
            });
        }
        Some(Answer::from(Told::numbered(answer)))
    }

    // `opn`
    pub fn open(&mut self, mut tokens: Tokens, data: &mut [u8]) -> Option<Answer> {
        self.current = None;
        let name = tokens.operation()?;
        let tag = tokens.u32()?;
        if name == OperationName::ReadLba || name == OperationName::WriteLba {
            return self.open_sectors(name, tag, tokens, data);
        }
        let record = plain(name, tag, &mut tokens)?;
        tokens.end()?;
        self.current = Some(Held { record, length: 0 });
        Some(Answer::from(Told::of(0, &[])))
    }

    // `stp`
    pub fn step(&mut self, mut tokens: Tokens, room: &mut [u8]) -> Option<Answer> {
        let Held { record, length } = self.current?;
        let len = tokens.room(room)?;
        tokens.end()?;
        let done = record.step(first(length, self.own), first_mut(len, room));
        self.current = Some(Held {
            record: done.next,
            length,
        });
        let answer = match done.step {
            Ok(step) => step_answer(step, done.beside),
            Err(error) => Answer::from(step_refused(error, done.beside)),
        };
        Some(answer.with_room(len))
    }

    // `giv`
    pub fn give(&mut self, mut tokens: Tokens, data: &mut [u8]) -> Option<Answer> {
        let Held { record, length } = self.current?;
        let len = tokens.data(LEN, data)?;
        tokens.end()?;
        let done = record.give(first(len, data), first_mut(length, self.own));
        self.current = Some(Held {
            record: done.next,
            length,
        });
        Some(Answer::from(Told::numbered(done.answer)))
    }
}
