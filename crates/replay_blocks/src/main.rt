// Answers the kinds `blocks`, `status` and `replies` of the language of cases (differential/LANGUAGE.md): a line in, a line out. No call of theirs is
// about a thing that stays.

#![tactic(auto)]

mod blocks;
mod commands;

use protocol_codes::StorageIndex;
use replay_answers::answer::{Answer, print_line};
use replay_answers::out::Output;
use replay_answers::told::Told;
use replay_answers::values::storage;
use replay_lines::buffer::{first, first_mut};
use replay_lines::data::LEN;
use replay_lines::input::Lines;
use replay_lines::names::Call;
use replay_lines::tokens::Tokens;
use replay_replies::{numbers, replies};
use std::io::{Result, Write};

// Stays a `match`: each call is told values of its own.
fn on_number(call: Call, n: u8) -> Option<Told> {
    match call {
        Call::Direction => Some(numbers::direction(n)),
        Call::Code => Some(numbers::code(n)),
        Call::Status => Some(numbers::status(n)),
        Call::Reset => Some(numbers::reset(n)),
        Call::Index => Some(storage(StorageIndex::from(n))),
        _ => None,
    }
}

fn on_bytes(call: Call, bytes: &[u8]) -> Option<Answer> {
    match call {
        Call::ReadCommand => Some(Answer::from(blocks::read_command(bytes))),
        Call::ReadStatus => Some(Answer::from(blocks::read_status(bytes))),
        Call::MapStatus => Some(Answer::from(blocks::map_status(bytes))),
        Call::Storage => Some(Answer::from(replies::media(bytes)?)),
        Call::ChipInfo => replies::chip_info(bytes),
        Call::FlashId => replies::flash_id(bytes),
        Call::FlashInfo => replies::flash_info(bytes),
        Call::Capability => replies::capability(bytes),
        _ => None,
    }
}

// `cwr`, `cnv`, `swr`
// Stays a `match`: each call reads its own tokens.
// Stays with these parameters: the buffers are lent by main.
fn write(call: Call, mut tokens: Tokens, data: &mut [u8], room: &mut [u8]) -> Option<Answer> {
    let len = tokens.room(room)?;
    let room = first_mut(len, room);
    let told = match call {
        Call::WriteCommand => {
            let block = commands::command(&mut tokens)?;
            tokens.end()?;
            blocks::write_command(block, room)
        }
        Call::ConvertCommand => {
            let n = tokens.data(LEN, data)?;
            tokens.end()?;
            blocks::convert_command(first(n, data), room)
        }
        _ => {
            let status = blocks::status(&mut tokens)?;
            tokens.end()?;
            blocks::write_status(status, room)
        }
    };
    Some(Answer::from(told).with_room(len))
}

// The line read whole, and its answer.
// Stays a `match`: each call reads its own tokens.
fn answer(line: &[u8], data: &mut [u8], room: &mut [u8]) -> Option<Answer> {
    let mut tokens = Tokens::new(line);
    let call = tokens.call()?;
    match call {
        Call::Direction | Call::Code | Call::Status | Call::Reset | Call::Index => {
            let n = tokens.u8()?;
            tokens.end()?;
            Some(Answer::from(on_number(call, n)?))
        }
        Call::Sectors => {
            let length = tokens.at_most(usize::MAX)?;
            tokens.end()?;
            Some(Answer::from(replies::sectors(length)))
        }
        Call::WriteCommand | Call::ConvertCommand | Call::WriteStatus => {
            write(call, tokens, data, room)
        }
        _ => {
            let n = tokens.data(LEN, data)?;
            tokens.end()?;
            on_bytes(call, first(n, data))
        }
    }
}

fn main(rt: HostRuntime) -> Result<()> {
    let mut block = [0u8; 65536];
    let mut line = [0u8; 4096];
    let mut buffer = [0u8; 65536];
    let mut data = [0u8; 65536];
    let mut room = [0u8; 65536];
    let mut lines = Lines::new(rt.stdin(), &mut block);
    let mut out = Output::new(rt.stdout(), &mut buffer);
    // a proved loop has to end, and nothing says that the input does: no run uses up so many turns
    for _ in 0..u64::MAX {
        let Some(line) = lines.next_line(&mut line) else {
            break;
        };
        print_line(&mut out, answer(line, &mut data, &mut room), &room)?;
        out.after_line()?;
    }
    out.flush()
}
