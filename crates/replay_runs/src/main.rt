// Answers the kinds `operations`, `device`, `runs` and `nor` of the language of cases (differential/LANGUAGE.md): a line in, a line out.

#![tactic(auto)]

use replay_answers::answer::Answer;
use replay_answers::out::{Output, section};
use replay_device::devices::{Device, Devices};
use replay_lines::buffer::first;
use replay_lines::input::Lines;
use replay_lines::names::Call;
use replay_lines::tokens::Tokens;
use replay_steps::held::Held;
use replay_steps::operations::Operations;
use replay_steps::uploads::Uploads;
use replay_world::world::{Things, World, new_world};
use std::io::{Result, Write};

// The lengths of the buffers, which differential/larger makes larger: of the room, the caller's data and the flash,
const ROOM: usize = 65536;

// of the store,
const STORE: usize = 65536;

// and of an image and a line's DATA.
const IMAGE: usize = 100000;

// Whether the answer of a call has the caller's data, where there is an operation.
fn has_own(call: Call) -> bool {
    matches!(call, Call::Step | Call::Give | Call::RunOperation)
}

// Whether it has the device, where there is one.
fn has_device(call: Call) -> bool {
    matches!(
        call,
        Call::StartDefault
            | Call::StartConfigured
            | Call::StartNor
            | Call::WriteBulk
            | Call::ReadBulk
            | Call::WriteControl
            | Call::RunOperation
            | Call::RunUpload
    )
}

// The sections of the things that stay.
fn print_things<W: Write>(out: &mut W, call: Call, things: &Things) -> Result<()> {
    if has_own(call)
        && let Some(Held { record: _, length }) = things.operations.current
    {
        section(out, first(length, things.operations.own))?;
    }
    if has_device(call)
        && let Some(Device { state, flash }) = things.devices.current
    {
        let flash = first(flash, things.devices.flash);
        let store = first(state.store_length, things.devices.store);
        replay_shown::device(out, state, flash, store)?;
    }
    Ok(())
}

fn print<W: Write>(
    out: &mut W,
    call: Call,
    answer: Answer,
    things: &Things,
    room: &[u8],
) -> Result<()> {
    answer.print(out, room, things.operations.own)?;
    print_things(out, call, things)
}

// A line's answer with its line feed.
// Stays with these parameters: the buffers are lent by main.
fn answer_line<W: Write>(
    out: &mut W,
    line: &[u8],
    things: &mut Things,
    data: &mut [u8; IMAGE],
    room: &mut [u8; ROOM],
) -> Result<()> {
    let mut tokens = Tokens::new(line);
    if let Some(call) = tokens.call()
        && let Some(answer) = things.answer(call, tokens, data, room)
    {
        print(out, call, answer, things, room)?;
    } else {
        out.write_all(b"outside")?;
    }
    out.write_all(b"\n")
}

// The things of a world in the buffers that they stand in, which become slices here and not in `main`: that knows all of their bytes.
fn in_buffers<'a>(
    world: World,
    own: &'a mut [u8; ROOM],
    image: &'a mut [u8; IMAGE],
    flash: &'a mut [u8; ROOM],
    store: &'a mut [u8; STORE],
) -> Things<'a> {
    Things {
        operations: Operations {
            current: world.operation,
            own,
        },
        uploads: Uploads {
            current: world.upload,
            image,
        },
        devices: Devices {
            current: world.device,
            flash,
            store,
        },
    }
}

fn main(rt: HostRuntime) -> Result<()> {
    let mut block = [0u8; 65536];
    let mut line = [0u8; 4096];
    let mut buffer = [0u8; 65536];
    let mut data = [0u8; IMAGE];
    let mut room = [0u8; ROOM];
    let mut image = [0u8; IMAGE];
    let mut own = [0u8; ROOM];
    let mut flash = [0u8; ROOM];
    let mut store = [0u8; STORE];
    let mut things = in_buffers(new_world(), &mut own, &mut image, &mut flash, &mut store);
    let mut lines = Lines::new(rt.stdin(), &mut block);
    let mut out = Output::new(rt.stdout(), &mut buffer);
    // a proved loop has to end, and nothing says that the input does: no run uses up so many turns
    for _ in 0..u64::MAX {
        let Some(line) = lines.next_line(&mut line) else {
            break;
        };
        answer_line(&mut out, line, &mut things, &mut data, &mut room)?;
        out.after_line()?;
    }
    out.flush()
}
