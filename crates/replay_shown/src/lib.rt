// The sections of a device in an answer of the language of cases: its flash, its areas and its last reset.
//
// Test support: its functions promise only that they are safe and end.

#![tactic(auto)]

use mock::device::MockState;
use mock_areas::{Areas, Stretch};
use protocol_codes::ResetOpcode;
use replay_answers::out::{bytes, section};
use replay_lines::buffer::{behind, first};
use std::io::{Result, Write};

fn area<W: Write>(out: &mut W, areas: Areas, number: u16, store: &[u8]) -> Result<()> {
    let Some(Stretch { start, length }) = areas.find(number, store.len()) else {
        return Ok(());
    };
    write!(out, " {number} ")?;
    bytes(out, first(length, behind(start, store)))
}

// How many areas are held, and these in ascending order.
fn areas<W: Write>(out: &mut W, areas: Areas, store: &[u8]) -> Result<()> {
    let mut slots = areas.slots;
    slots.sort_unstable_by_key(|slot| slot.number);
    let held = slots.iter().filter(|slot| slot.held).count();
    write!(out, " | {held}")?;
    for slot in slots {
        if slot.held {
            area(out, areas, slot.number, store)?;
        }
    }
    Ok(())
}

fn reset<W: Write>(out: &mut W, last: Option<ResetOpcode>) -> Result<()> {
    match last {
        None => out.write_all(b" | 0"),
        Some(opcode) => {
            let number = u8::from(opcode);
            write!(out, " | 1 {number}")
        }
    }
}

// FLASH | AREAS | RESET
pub fn device<W: Write>(out: &mut W, state: MockState, flash: &[u8], store: &[u8]) -> Result<()> {
    section(out, flash)?;
    areas(out, state.areas, store)?;
    reset(out, state.last_reset())
}
