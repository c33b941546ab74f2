// Shows in words how a head with NOR flash answers: a line in is one call, run as one whole operation against the one head, and a line out says how
// it ended. README.md beside says what the lines are and how the stored ones were worked out.

#![tactic(auto)]

use mock::config::MockDeviceConfig;
use mock::device::{MockState, MockStep};
use mock_base::error::MockTransportError;
use operation::starts::{erase_lba, read_lba, storage, switch_storage, write_lba};
use operation::steps::UsbOperation;
use operation_finish::{SectorTransfer, UsbReply};
use protocol_codes::StorageIndex;
use protocol_status::failure::UsbOperationError;
use replay_lines::buffer::{first, first_mut};
use replay_lines::input::Lines;
use replay_lines::tokens::Tokens;
use rule_number::RuleNumber;
use run_operation::{RunError, run_whole};
use run_turn::StopError;
use std::io::{Read, Result, Write};

// the most sectors of a head, and of a read or a write
const SECTORS: usize = 32;

const MOVED: usize = 4;

// of the head that stands before the first line
const FIRST_SECTORS: u32 = 16;

const SECTOR: usize = 512;

const ERASED: u8 = 0xFF;

// What a line asks.
#[derive(Clone, Copy, PartialEq, Eq)]
enum Call {
    Head { sectors: u32, block_size: u16 },
    Storage,
    Switch(u8),
    Write { first: u32, count: u16, byte: u8 },
    Read { first: u32, count: u16 },
    Erase { first: u32, count: u16 },
}

// The head that stands, and how many sectors of the flash it has.
// Stays a length beside a buffer: nothing here allocates.
#[derive(Clone, Copy)]
struct Head {
    device: MockState,
    sectors: u32,
}

impl Call {
    // The line read whole.
    // Stays a `match`: each call reads its own tokens.
    // Stays `of`: the error of a `TryFrom` would say no more than `None`.
    fn of(line: &[u8]) -> Option<Call> {
        let mut tokens = Tokens::new(line);
        let call = match tokens.word() {
            b"head" => Call::Head {
                sectors: u32::try_from(tokens.at_most(SECTORS)?).ok()?,
                block_size: tokens.u16()?,
            },
            b"storage" => Call::Storage,
            b"switch" => Call::Switch(tokens.u8()?),
            b"write" => {
                let first = tokens.u32()?;
                let count = u16::try_from(tokens.at_most(MOVED)?).ok()?;
                tokens.gap()?;
                let byte = tokens.pair()?;
                Call::Write { first, count, byte }
            }
            b"read" => Call::Read {
                first: tokens.u32()?,
                count: u16::try_from(tokens.at_most(MOVED)?).ok()?,
            },
            b"erase" => Call::Erase {
                first: tokens.u32()?,
                count: tokens.u16()?,
            },
            _ => return None,
        };
        tokens.end()?;
        Some(call)
    }

    // The bytes that it moves.
    fn size(self) -> usize {
        match self {
            Call::Write { count, .. } | Call::Read { count, .. } => count as usize * SECTOR,
            _ => 0,
        }
    }

    // Stays a `match`: each case takes arguments of its own.
    fn operation(self, tag: u32) -> UsbOperation {
        match self {
            Call::Switch(number) => switch_storage(tag, StorageIndex::from(number)),
            Call::Write { first, .. } => write_lba(tag, first, self.size()).operation,
            Call::Read { first, .. } => read_lba(tag, first, self.size()).operation,
            Call::Erase { first, count } => erase_lba(tag, first, count),
            _ => storage(tag),
        }
    }
}

// A refusal of the head's.
fn print_device<W: Write>(to: &mut W, error: MockTransportError, block_size: u16) -> Result<()> {
    match error {
        MockTransportError::UnknownCommand(_) => {
            writeln!(to, "refused (53): the head knows no such command")
        }
        MockTransportError::OutOfRange => writeln!(to, "refused (57): past the end of the flash"),
        MockTransportError::ZeroBlockSize => writeln!(to, "refused (62): a block size of 0"),
        MockTransportError::UnalignedErase => writeln!(
            to,
            "refused (63): erases take whole blocks of {block_size} sectors"
        ),
        _ => writeln!(to, "refused: {}", error.number()),
    }
}

fn print_refused<W: Write>(to: &mut W, error: RunError, call: Call, block_size: u16) -> Result<()> {
    match error {
        RunError::Stopped(StopError::Failed(UsbOperationError::FailedStatus)) => match call {
            Call::Write { .. } => writeln!(to, "failed (15): the cells did not take it"),
            _ => writeln!(to, "failed (15): the head did not take it"),
        },
        RunError::Stopped(StopError::Device(error)) => print_device(to, error, block_size),
        _ => writeln!(to, "refused: {}", error.number()),
    }
}

fn print_bytes<W: Write>(to: &mut W, bytes: &[u8]) -> Result<()> {
    // past a buffer's end stands a line feed
    let first = bytes.first().copied().unwrap_or(b'\n');
    if bytes.iter().all(|byte| *byte == first) {
        writeln!(to, "{first:02x} in each")
    } else {
        writeln!(to, "not all alike, first {first:02x}")
    }
}

fn print_moved<W: Write>(to: &mut W, moved: u32, call: Call, bytes: &[u8]) -> Result<()> {
    if let Call::Write { .. } = call {
        return writeln!(to, "{moved} bytes written");
    }
    write!(to, "{moved} bytes read: ")?;
    print_bytes(to, first(moved as usize, bytes))
}

fn print_reply<W: Write>(to: &mut W, reply: UsbReply, call: Call, bytes: &[u8]) -> Result<()> {
    match reply {
        UsbReply::Storage(index) => writeln!(to, "storage {}", u8::from(index)),
        UsbReply::Sectors(SectorTransfer::Whole(moved)) => print_moved(to, moved.0, call, bytes),
        UsbReply::Sectors(SectorTransfer::Short(short)) => print_moved(
            to,
            short.moved.0,
            call,
            bytes,
        ),
        _ => writeln!(to, "done"),
    }
}

// A fresh head, with all of its flash erased.
fn fresh(sectors: u32, block_size: u16, flash: &mut [u8; 16384]) -> MockStep {
    let mut config = MockDeviceConfig::default();
    config.block_size_sectors = block_size;
    let cells = first_mut(sectors as usize * SECTOR, flash);
    cells.fill(ERASED);
    MockState::new_nor(config, cells, b"")
}

impl Head {
    fn new(flash: &mut [u8; 16384]) -> Head {
        Head {
            device: fresh(FIRST_SECTORS, 4, flash).state,
            sectors: FIRST_SECTORS,
        }
    }

    // A block size of 0 is told, and the head is there all the same.
    // Stays with these parameters: the writer and the buffers are lent by main.
    fn begin<W: Write>(&mut self, to: &mut W, call: Call, flash: &mut [u8; 16384]) -> Result<()> {
        let Call::Head {
            sectors,
            block_size,
        } = call
        else {
            return Ok(());
        };
        let made = fresh(sectors, block_size, flash);
        self.device = made.state;
        self.sectors = sectors;
        match made.answer.result {
            Ok(()) => writeln!(
                to,
                "a NOR head of {sectors} sectors, erased in blocks of {block_size}"
            ),
            Err(error) => print_device(to, error, block_size),
        }
    }

    // One whole operation.
    fn carry_out<W: Write>(
        &mut self,
        to: &mut W,
        tag: u32,
        call: Call,
        flash: &mut [u8; 16384],
    ) -> Result<()> {
        let byte = match call {
            Call::Write { byte, .. } => byte,
            _ => 0,
        };
        let block_size = self.device.config.block_size_sectors;
        let mut bytes = [byte; 2048];
        let done = run_whole(
            call.operation(tag),
            self.device,
            first_mut(self.sectors as usize * SECTOR, flash),
            b"",
            first_mut(call.size(), &mut bytes),
        );
        self.device = done.device;
        match done.answer {
            Ok(reply) => print_reply(to, reply, call, &bytes),
            Err(error) => print_refused(to, error, call, block_size),
        }
    }

    fn answer<W: Write>(
        &mut self,
        to: &mut W,
        tag: u32,
        line: &[u8],
        flash: &mut [u8; 16384],
    ) -> Result<()> {
        let Some(call) = Call::of(line) else {
            return writeln!(
                to,
                "not understood; the calls: head SECTORS BLOCKSIZE (32 sectors at most), storage, switch NUMBER, write FIRST COUNT BYTE and read FIRST COUNT (4 sectors at most), erase FIRST COUNT"
            );
        };
        match call {
            Call::Head { .. } => self.begin(to, call, flash),
            _ => self.carry_out(to, tag, call, flash),
        }
    }
}

// A line's number is its operation's tag. A proved loop has to end, and nothing says that the input does: no run uses up so many turns.
fn run<R: Read + Drop, W: Write>(
    from: R,
    to: &mut W,
    block: &mut [u8],
    flash: &mut [u8; 16384],
) -> Result<()> {
    let mut head = Head::new(flash);
    let mut lines = Lines::new(from, block);
    let mut line = [0; 128];
    let mut tag = 0u32;
    for _ in 0..u64::MAX {
        let Some(line) = lines.next_line(&mut line) else {
            break;
        };
        head.answer(to, tag, line, flash)?;
        tag = tag.wrapping_add(1);
    }
    Ok(())
}

fn main(rt: HostRuntime) -> Result<()> {
    let mut block = [0; 4096];
    let mut flash = [0; 16384];
    run(rt.stdin(), &mut rt.stdout(), &mut block, &mut flash)
}
