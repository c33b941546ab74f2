// What a record, a step or a walk came to, as numbers.
use loader_records::answer::RkBootError;
use loader_walk::walk::EntryPlace;
use loader_walk::whole::EntryCounts;
use replay_answers::told::Told;
use rule_number::RuleNumber;

// Behind the number stand the bytes that there are, the tag, or the list and the entry.
// Stays a `match`: each refusal has values of its own.
fn refused(error: RkBootError, tag: [u8; 4]) -> Told {
    let number = error.number();
    match error {
        RkBootError::TooShort(n) => Told::of(number, &[n as u64]),
        RkBootError::UnknownTag => Told::of_bytes(number, tag),
        RkBootError::SizeBelowEntry(list, entry)
        | RkBootError::EntryPastEnd(list, entry)
        | RkBootError::DataPastEnd(list, entry) => {
            Told::of(number, &[u64::from(list), u64::from(entry)])
        }
    }
}

pub fn read(answer: Result<(), RkBootError>, tag: [u8; 4]) -> Told {
    match answer {
        Ok(()) => Told::of(0, &[]),
        Err(error) => refused(error, tag),
    }
}

fn counts(counts: EntryCounts) -> Told {
    let EntryCounts {
        entry_471,
        entry_472,
        entry_loader,
    } = counts;
    Told::of(
        0,
        &[
            u64::from(entry_471),
            u64::from(entry_472),
            u64::from(entry_loader),
        ],
    )
}

pub fn examined(answer: Result<EntryCounts, RkBootError>, tag: [u8; 4]) -> Told {
    match answer {
        Ok(found) => counts(found),
        Err(error) => refused(error, tag),
    }
}

fn place(found: EntryPlace) -> Told {
    let EntryPlace {
        list,
        entry,
        place,
        length,
    } = found;
    Told::of(
        0,
        &[
            1,
            u64::from(list),
            u64::from(entry),
            place as u64,
            length as u64,
        ],
    )
}

// A step: `0 1` and where the entry and its data stand, `0 0` at the end, or the refusal.
pub fn came(answer: Result<Option<EntryPlace>, RkBootError>, tag: [u8; 4]) -> Told {
    match answer {
        Ok(Some(found)) => place(found),
        Ok(None) => Told::of(0, &[0]),
        Err(error) => refused(error, tag),
    }
}
