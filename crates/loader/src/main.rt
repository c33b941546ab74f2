// Lists what is in the loader file on standard input.

#![tactic(auto)]

use deck_io::complaint::{complain_why, say};
use deck_io::input::fill;
use loader_text::list;
use std::io::{Read, Write};

// The largest file.
const LARGEST: usize = 4194304;

fn list_file<W: Write, E: Write>(to: &mut W, errors: &mut E, file: &[u8]) {
    if file.len() > LARGEST {
        say(
            errors,
            "loader: the file is longer than 4194304 bytes (4 MiB), and nothing is listed; see that it is a loader file, which has some hundred kB, and not a whole image",
        );
    } else if let Err(why) = list(to, file) {
        complain_why(errors, b"loader: the list could not be written", why);
    }
}

// `fill` says that fewer bytes than there is room for are the last, so that one call has the whole file.
fn run<R: Read, W: Write, E: Write>(
    from: &mut R,
    to: &mut W,
    errors: &mut E,
    file: &mut [u8; 4202496],
) {
    let input = fill(from, errors, file, b"loader: the file could not be read on");
    if input.has_failed {
        say(
            errors,
            "loader: nothing is listed; see that the whole file can be read, and list it again",
        );
    } else {
        list_file(to, errors, &file[..input.count]);
    }
}

fn main(rt: HostRuntime) {
    // 8,192 bytes more than the largest file has: they show whether the file ends before them
    let mut file = [0u8; 4202496];
    run(
        &mut rt.stdin(),
        &mut rt.stdout(),
        &mut rt.stderr(),
        &mut file,
    );
}
