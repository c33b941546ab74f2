// One session of the stand-in, lent from call to call: a start, a write, a read, an erase, a reset and a refusal, then a start that is refused and one
// that is not. A line for each call and one for the record after each command; README.md beside says how the expected lines were worked out.

#![tactic(auto)]

ghost use Rattle.std.specs.Prelude.{◌≡◌, [], length};
ghost use Rattle.mock_effects.specs.Steps.{StepMeets, write_step, read_step};
ghost use Rattle.mock_session.specs.Start.{start_step};

use mock_base::config::MockDeviceConfig;
use mock_base::error::MockAnswer;
use mock_effects::SessionStep;
use mock_session::bulk::{look, read_bulk, start, write_bulk};
use mock_session::record::fresh;
use mock_table::session::{CommandState, Session};
use rule_number::RuleNumber;
use std::io::{Result, Write};

// A start of a record that stands in a local and is lent for the time of the call.
fn lent_start(mut session: Session, flash: &[u8]) -> SessionStep
    ensures { StepMeets result [] (start_step session (length flash.now)) }
{
    let answer = start(&mut session, flash);
    SessionStep { answer, session }
}

// A look at such a record.
fn lent_look(session: Session) -> Session
    ensures { result ≡ session }
{
    look(&session)
}

// One bulk write over a record that stands in a local and is lent for the time of the call.
fn lent_write(mut session: Session, flash: &mut [u8], data: &[u8]) -> SessionStep
    ensures { StepMeets result flash.new (write_step session flash.old «data».now) }
{
    let answer = write_bulk(&mut session, flash, data);
    SessionStep { answer, session }
}

// One bulk read over such a record.
fn lent_read(
    mut session: Session,
    config: MockDeviceConfig,
    flash: &mut [u8],
    data: &mut [u8],
) -> SessionStep
    ensures { StepMeets result «data».new (read_step session config flash.old «data».old) × (flash.new ≡ flash.old) }
{
    let answer = read_bulk(&mut session, config, flash, data);
    SessionStep { answer, session }
}

// The first byte of each sector.
fn print_sectors<W: Write>(to: &mut W, bytes: &[u8]) -> Result<()> {
    for sector in bytes.chunks(512) {
        if let Some(byte) = sector.first() {
            write!(to, " {byte:02x}")?;
        }
    }
    writeln!(to)
}

// What was called, and the number that came back.
fn print_call<W: Write>(to: &mut W, name: &str, answer: MockAnswer) -> Result<()> {
    write!(to, "{name} {}", answer.result.number())
}

fn state_name(state: CommandState) -> &'static str {
    match state {
        CommandState::None => "none",
        CommandState::IO(_) => "awaiting data",
        CommandState::Status(_, _) => "awaiting status",
    }
}

// The record's line, of what a look at it sees.
fn show<W: Write>(to: &mut W, session: Session) -> Result<()> {
    let seen = lent_look(session);
    write!(
        to,
        "transaction {}, last reset ",
        state_name(seen.current_command)
    )?;
    match seen.last_reset {
        None => writeln!(to, "none"),
        Some(opcode) => writeln!(to, "{}", u8::from(opcode)),
    }
}

// A bulk write, with its line.
// Stays with these parameters: the writer and the buffers are lent by main.
fn send<W: Write>(
    to: &mut W,
    name: &str,
    session: Session,
    flash: &mut [u8],
    data: &[u8],
) -> Result<SessionStep> {
    let step = lent_write(session, flash, data);
    print_call(to, name, step.answer)?;
    writeln!(to)?;
    Ok(step)
}

// The status in, with its line.
fn settle<W: Write>(to: &mut W, session: Session, flash: &mut [u8]) -> Result<Session> {
    let mut status = [0u8; 13];
    let step = lent_read(session, MockDeviceConfig::default(), flash, &mut status);
    print_call(to, "status in", step.answer)?;
    write!(to, " ")?;
    for byte in status {
        write!(to, "{byte:02x}")?;
    }
    writeln!(to)?;
    Ok(step.session)
}

// Two sectors in, with the first byte of each.
fn receive<W: Write>(to: &mut W, session: Session, flash: &mut [u8]) -> Result<SessionStep> {
    let mut data = [0u8; 1024];
    let step = lent_read(session, MockDeviceConfig::default(), flash, &mut data);
    print_call(to, "data in", step.answer)?;
    print_sectors(to, &data)?;
    Ok(step)
}

// Command out, data out, status in; a refusal ends the command.
fn write<W: Write>(
    to: &mut W,
    session: Session,
    flash: &mut [u8],
    command: &[u8],
) -> Result<Session> {
    let told = send(to, "command out", session, flash, command)?;
    if told.answer.result.is_err() {
        return Ok(told.session);
    }
    let data = [0xA5u8; 512];
    let moved = send(to, "data out", told.session, flash, &data)?;
    if moved.answer.result.is_err() {
        return Ok(moved.session);
    }
    settle(to, moved.session, flash)
}

// Command out, data in, status in; a refusal ends the command.
fn read<W: Write>(
    to: &mut W,
    session: Session,
    flash: &mut [u8],
    command: &[u8],
) -> Result<Session> {
    let told = send(to, "command out", session, flash, command)?;
    if told.answer.result.is_err() {
        return Ok(told.session);
    }
    let moved = receive(to, told.session, flash)?;
    if moved.answer.result.is_err() {
        return Ok(moved.session);
    }
    settle(to, moved.session, flash)
}

// Command out, status in; a refusal ends the command.
fn plain<W: Write>(
    to: &mut W,
    session: Session,
    flash: &mut [u8],
    command: &[u8],
) -> Result<Session> {
    let told = send(to, "command out", session, flash, command)?;
    if told.answer.result.is_err() {
        return Ok(told.session);
    }
    settle(to, told.session, flash)
}

// A start, with its line and that of the record after it.
fn begin<W: Write>(to: &mut W, session: Session, flash: &[u8]) -> Result<Session> {
    let step = lent_start(session, flash);
    print_call(to, "start", step.answer)?;
    writeln!(to)?;
    show(to, step.session)?;
    Ok(step.session)
}

// A write and a read.
fn write_and_read<W: Write>(to: &mut W, session: Session, flash: &mut [u8]) -> Result<Session> {
    // WriteLBA, tag 1: 512 bytes out, sector 1, count 1
    let block =
        b"USBC\x00\x00\x00\x01\x00\x02\x00\x00\x00\x00\x0A\x15\x00\x00\x00\x00\x01\x00\x00\x01\x00\x00\x00\x00\x00\x00\x00";
    let stored = write(to, session, flash, block)?;
    show(to, stored)?;
    // ReadLBA, tag 2: 1,024 bytes in, sector 1, count 2
    let block =
        b"USBC\x00\x00\x00\x02\x00\x04\x00\x00\x80\x00\x0A\x14\x00\x00\x00\x00\x01\x00\x00\x02\x00\x00\x00\x00\x00\x00\x00";
    let seen = read(to, stored, flash, block)?;
    show(to, seen)?;
    Ok(seen)
}

// An erase, a reset and a write that is refused.
fn erase_and_reset<W: Write>(to: &mut W, session: Session, flash: &mut [u8]) -> Result<Session> {
    // EraseLBA, tag 3: no data, sector 2, count 1
    let block =
        b"USBC\x00\x00\x00\x03\x00\x00\x00\x00\x00\x00\x0A\x25\x00\x00\x00\x00\x02\x00\x00\x01\x00\x00\x00\x00\x00\x00\x00";
    let erased = plain(to, session, flash, block)?;
    show(to, erased)?;
    // DeviceReset, tag 4: no data, opcode 3
    let block =
        b"USBC\x00\x00\x00\x04\x00\x00\x00\x00\x00\x00\x06\xFF\x03\x00\x00\x00\x00\x00\x00\x00\x00\x00\x00\x00\x00\x00\x00";
    let reset = plain(to, erased, flash, block)?;
    show(to, reset)?;
    // WriteLBA, tag 5: 512 bytes out, sector 4, count 1, of a flash of 4 sectors
    let block =
        b"USBC\x00\x00\x00\x05\x00\x02\x00\x00\x00\x00\x0A\x15\x00\x00\x00\x00\x04\x00\x00\x01\x00\x00\x00\x00\x00\x00\x00";
    let refused = write(to, reset, flash, block)?;
    show(to, refused)?;
    Ok(refused)
}

// A write's command, whose data is awaited from then on.
fn open<W: Write>(to: &mut W, session: Session, flash: &mut [u8]) -> Result<Session> {
    // WriteLBA, tag 6: 512 bytes out, sector 0, count 1
    let block =
        b"USBC\x00\x00\x00\x06\x00\x02\x00\x00\x00\x00\x0A\x15\x00\x00\x00\x00\x00\x00\x00\x01\x00\x00\x00\x00\x00\x00\x00";
    let told = send(to, "command out", session, flash, block)?;
    show(to, told.session)?;
    Ok(told.session)
}

fn main(rt: HostRuntime) -> Result<()> {
    let mut output = rt.stdout();
    let mut flash = [0x11u8; 2048];
    let untouched = fresh();
    show(&mut output, untouched)?;
    let started = begin(&mut output, untouched, &flash)?;
    let seen = write_and_read(&mut output, started, &mut flash)?;
    let reset = erase_and_reset(&mut output, seen, &mut flash)?;
    let opened = open(&mut output, reset, &mut flash)?;
    // no whole number of sectors
    let odd = [0x11u8; 700];
    let kept = begin(&mut output, opened, &odd)?;
    begin(&mut output, kept, &flash)?;
    write!(output, "flash")?;
    print_sectors(&mut output, &flash)
}
