// What a line of the kind `loader` asks, all of it read before anything is done.
use loader_walk::walk::Walk;
use replay_lines::data::LEN;
use replay_lines::tokens::Tokens;

// A call with what it is given. DATA stands in a lent buffer, and is told by its length.
#[derive(Clone, Copy)]
pub(crate) enum Asked {
    Time(usize),
    List(usize),
    Entry(usize),
    Header(usize),
    // the file
    File(usize),
    Put { place: usize, len: usize },
    // and what is asked about it
    Step(Walk),
    Walk,
    Examine,
    Data { start: usize, len: usize },
}

// The line read whole, its DATA to a lent buffer.
// Stays a `match`: each call reads its own tokens.
pub(crate) fn ask(line: &[u8], into: &mut [u8]) -> Option<Asked> {
    let mut tokens = Tokens::new(line);
    let asked = match &tokens.name()? {
        b"tim" => Asked::Time(tokens.data(LEN, into)?),
        b"lis" => Asked::List(tokens.data(LEN, into)?),
        b"ent" => Asked::Entry(tokens.data(LEN, into)?),
        b"hdr" => Asked::Header(tokens.data(LEN, into)?),
        b"fil" => Asked::File(tokens.data(LEN, into)?),
        b"put" => Asked::Put {
            place: tokens.at_most(LEN)?,
            len: tokens.data(LEN, into)?,
        },
        b"nxt" => Asked::Step(Walk {
            list: tokens.u8()?,
            entry: tokens.u16()?,
        }),
        b"wlk" => Asked::Walk,
        b"exa" => Asked::Examine,
        b"dat" => Asked::Data {
            start: tokens.at_most(usize::MAX)?,
            len: tokens.at_most(usize::MAX)?,
        },
        _ => return None,
    };
    tokens.end()?;
    Some(asked)
}
