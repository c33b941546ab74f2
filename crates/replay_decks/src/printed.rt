// The answers: a block's line, or the bench's number and its device.
use deck::bench::DeckStep;
use deck::verdict::RefusalNumber;
use mock::device::MockState;
use mock_base::error::MockTransportError;
use operation_finish::{Beside, SectorTransfer, UsbReply};
use replay_answers::out::hex;
use rule_number::RuleNumber;
use std::io::{self, Write};

// The bytes moved; of a short transfer, a slash and the bytes asked stand behind them.
fn transfer<W: Write>(out: &mut W, transfer: SectorTransfer) -> io::Result<()> {
    match transfer {
        SectorTransfer::Whole(moved) => {
            let moved = moved.0;
            write!(out, "{moved}")
        }
        SectorTransfer::Short(short) => {
            let moved = short.moved.0;
            let asked = short.asked.0;
            write!(out, "{moved}/{asked}")
        }
    }
}

// Bytes for chip info, flash id, flash info and capability, a count for sectors, and nothing else.
// Stays a `match`: each reply has bytes of its own beside it.
fn reply<W: Write>(out: &mut W, reply: UsbReply, beside: Beside) -> io::Result<()> {
    match reply {
        UsbReply::ChipInfo => hex(out, &beside.chip_info.0),
        UsbReply::FlashId => hex(out, &beside.flash_id.0),
        UsbReply::FlashInfo => hex(out, &beside.flash_info.0),
        UsbReply::Capability => hex(out, &beside.capability.0),
        UsbReply::Sectors(came) => transfer(out, came),
        _ => out.write_all(b"-"),
    }
}

// The line of the block that was dealt last.
pub(crate) fn block<W: Write>(out: &mut W, step: DeckStep) -> io::Result<()> {
    let block = step.bench.number;
    match step.verdict {
        Ok(done) => {
            write!(out, "{block} 0 ")?;
            reply(out, done, step.beside)
        }
        Err(RefusalNumber(number)) => write!(out, "{block} {number} -"),
    }
}

// The answer's number and the device.
pub(crate) fn device<W: Write>(
    out: &mut W,
    answer: Result<(), MockTransportError>,
    state: MockState,
    flash: &[u8],
    store: &[u8],
) -> io::Result<()> {
    write!(out, "{}", answer.number())?;
    replay_shown::device(out, state, flash, store)
}
