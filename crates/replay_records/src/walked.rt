// A walk from the start of a file to where it finds no entry: how many there were, and a digest of all that the steps said.
use crate::shown::walk;
use crate::told::came;
use loader_records::entry::RkBootEntry;
use loader_walk::walk::{EntryPlace, Walk, WalkStep};
use replay_answers::out::digest_step;
use std::io::{Result, Write};

// three lists of 255 entries, and the step behind them
const LONGEST: usize = 766;

// What was found before the last step, and the step.
#[derive(Clone, Copy)]
struct Walked {
    found: u32,
    digest: u32,
    step: WalkStep,
}

fn low(n: usize) -> u32 {
    (n % 4294967296) as u32
}

fn with_place(h: u32, found: EntryPlace) -> u32 {
    let EntryPlace {
        list,
        entry,
        place,
        length,
    } = found;
    [u32::from(list), u32::from(entry), low(place), low(length)]
        .into_iter()
        .fold(h, digest_step)
}

fn with_entry(h: u32, entry: RkBootEntry) -> u32 {
    let RkBootEntry {
        size,
        type_,
        name,
        data_offset,
        data_size,
        data_delay,
    } = entry;
    let h = digest_step(digest_step(h, u32::from(size)), type_);
    let h = name
        .into_iter()
        .fold(h, |h, unit| digest_step(h, u32::from(unit)));
    [data_offset, data_size, data_delay]
        .into_iter()
        .fold(h, digest_step)
}

impl Walked {
    fn to_the_end(file: &[u8]) -> Walked {
        let start = Walk::new();
        let mut walked = Walked {
            found: 0,
            digest: 1,
            step: start.step(file),
        };
        // Stays bounded: a proved loop has to end.
        for _ in 0..LONGEST {
            let WalkStep {
                answer,
                entry,
                walk,
                unknown_tag: _,
            } = walked.step;
            let Ok(Some(found)) = answer else {
                break;
            };
            walked.found = walked.found.wrapping_add(1);
            walked.digest = with_entry(with_place(walked.digest, found), entry);
            walked.step = walk.step(file);
        }
        walked
    }
}

// What the last step came to, what all found, and the record that the last handed back.
pub fn whole<W: Write>(out: &mut W, file: &[u8]) -> Result<()> {
    let Walked {
        found,
        digest,
        step,
    } = Walked::to_the_end(file);
    let told = came(step.answer, step.unknown_tag);
    write!(out, "{told} | {found} {digest:08x}")?;
    walk(out, step.walk)
}
