// Answers the kinds `uploads` and `large` of the language of cases (differential/LANGUAGE.md): a line in, a line out.

#![tactic(auto)]

mod lists;
mod sizes;

use replay_answers::answer::{Answer, print_line};
use replay_answers::out::Output;
use replay_lines::input::Lines;
use replay_lines::names::Call;
use replay_lines::tokens::Tokens;
use replay_steps::uploads::Uploads;
use std::io::{Result, Write};

// A list touches no current upload.
// Stays a `match`: each call reads its own tokens.
// Stays with these parameters: the buffers are lent by main.
fn answer(line: &[u8], uploads: &mut Uploads, data: &mut [u8], room: &mut [u8]) -> Option<Answer> {
    let mut tokens = Tokens::new(line);
    match tokens.call()? {
        Call::Upload => uploads.start(tokens, data),
        Call::UploadStep => uploads.step(tokens, room),
        Call::WholeList => lists::all(tokens, data, room),
        Call::CutList => lists::cut_up(tokens, data, room),
        _ => None,
    }
}

fn main(rt: HostRuntime) -> Result<()> {
    let mut block = [0u8; 65536];
    let mut line = [0u8; 4096];
    let mut buffer = [0u8; 65536];
    let mut data = [0u8; 4194304];
    let mut room = [0u8; 65536];
    let mut image = [0u8; 100000];
    let mut uploads = Uploads {
        current: None,
        image: &mut image,
    };
    let mut lines = Lines::new(rt.stdin(), &mut block);
    let mut out = Output::new(rt.stdout(), &mut buffer);
    // a proved loop has to end, and nothing says that the input does: no run uses up so many turns
    for _ in 0..u64::MAX {
        let Some(line) = lines.next_line(&mut line) else {
            break;
        };
        let answer = answer(line, &mut uploads, &mut data, &mut room);
        print_line(&mut out, answer, &room)?;
        out.after_line()?;
    }
    out.flush()
}
