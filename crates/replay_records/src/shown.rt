// Records and steps, printed: each number behind a space.
use crate::told;
use loader_records::entry::RkBootEntry;
use loader_records::header::RkBootHeader;
use loader_records::list::RkBootHeaderEntry;
use loader_records::time::RkTime;
use loader_walk::walk::{Walk, WalkStep};
use std::io::{Result, Write};

fn time_values<W: Write>(out: &mut W, time: RkTime) -> Result<()> {
    let RkTime {
        year,
        month,
        day,
        hour,
        minute,
        second,
    } = time;
    write!(out, " {year} {month} {day} {hour} {minute} {second}")
}

pub fn time<W: Write>(out: &mut W, time: RkTime) -> Result<()> {
    out.write_all(b" |")?;
    time_values(out, time)
}

fn list_values<W: Write>(out: &mut W, list: RkBootHeaderEntry) -> Result<()> {
    let RkBootHeaderEntry {
        count,
        offset,
        size,
    } = list;
    write!(out, " {count} {offset} {size}")
}

pub fn list<W: Write>(out: &mut W, list: RkBootHeaderEntry) -> Result<()> {
    out.write_all(b" |")?;
    list_values(out, list)
}

pub fn entry<W: Write>(out: &mut W, entry: RkBootEntry) -> Result<()> {
    let RkBootEntry {
        size,
        type_,
        name,
        data_offset,
        data_size,
        data_delay,
    } = entry;
    write!(out, " | {size} {type_}")?;
    for unit in name {
        write!(out, " {unit}")?;
    }
    write!(out, " {data_offset} {data_size} {data_delay}")
}

fn byte_values<W: Write>(out: &mut W, bytes: [u8; 4]) -> Result<()> {
    let [a, b, c, d] = bytes;
    write!(out, " {a} {b} {c} {d}")
}

pub fn header<W: Write>(out: &mut W, header: RkBootHeader) -> Result<()> {
    let RkBootHeader {
        tag,
        size,
        version,
        merge_version,
        release,
        supported_chip,
        entry_471,
        entry_472,
        entry_loader,
        sign_flag,
        rc4_flag,
    } = header;
    out.write_all(b" |")?;
    byte_values(out, tag)?;
    write!(out, " {size} {version} {merge_version}")?;
    time_values(out, release)?;
    byte_values(out, supported_chip)?;
    list_values(out, entry_471)?;
    list_values(out, entry_472)?;
    list_values(out, entry_loader)?;
    write!(out, " {sign_flag} {rc4_flag}")
}

pub fn walk<W: Write>(out: &mut W, walk: Walk) -> Result<()> {
    let Walk { list, entry } = walk;
    write!(out, " | {list} {entry}")
}

// What a step came to, the entry, and the record that it hands back.
pub fn step<W: Write>(out: &mut W, step: WalkStep) -> Result<()> {
    let told = told::came(step.answer, step.unknown_tag);
    write!(out, "{told}")?;
    entry(out, step.entry)?;
    walk(out, step.walk)
}
