// Decks made before a block's check had its place in it: each block's old check is looked at, and the new one put in its place.

#![tactic(auto)]

ghost use Rattle.std.specs.Prelude.{◌≡◌, ℕ, ◌<◌, ◌≤◌, length, ◌==◌};
ghost use Rattle.promise.specs.Told.{number};
ghost use Rattle.deck_block.specs.Block.{fields_of, first_check, with_check};
ghost use Rattle.deck_block.specs.Blocks.{block_at};
ghost use Rattle.deck_recheck.specs.Recheck.{stop_number, stop_told, standing, new_recheck, recheck_next, recheck_all, RecheckMeets};
ghost use Rattle.deck_recheck.specs.Code.{BlockMeets, NextMeets};

use deck_block::check::{block_check, first_check, put_check};
use protocol_bytes::order::u16_from_be_bytes;
use rule_number::RuleNumber;

const BLOCK: usize = 512;

// What stops a deck.
#[derive(Clone, Copy, Debug, PartialEq, Eq)]
pub enum Stop {
    // 40, 44
    BadCheck,
    Short,
}

impl RuleNumber for Stop {
    ghost rule_number = { stop_number };

    fn number(self) -> u8 {
        match self {
            Stop::BadCheck => 40,
            Stop::Short => 44,
        }
    }
}

// The number in the rules of what has stopped a deck, 0 where nothing has.
pub fn stop_number(stop: Option<Stop>) -> u8
    ensures { (k : ℕ) → result ≡ number (stop_told stop k) }
{
    match stop {
        None => 0,
        Some(stop) => stop.number(),
    }
}

// A deck between two chunks: number and tag of its last block, and what has stopped it there.
#[derive(Clone, Copy, Debug, PartialEq, Eq)]
pub struct Recheck {
    pub number: u64,
    pub tag: u32,
    pub stop: Option<Stop>,
}

// How many of the chunk's first bytes are rechecked, and the deck behind them.
// Stays a pair: document 01 has the record handed back beside the answer.
#[derive(Clone, Copy, Debug, PartialEq, Eq)]
pub struct RecheckStep {
    pub bytes: usize,
    pub recheck: Recheck,
}

// Whether a block has the check of its own bytes.
fn has_first_check(block: &[u8]) -> bool
    requires { length block.now ≡ 512 }
    ensures { result ≡ ((fields_of block.now).check == first_check block.now) }
{
    let stated = [block[510], block[511]];
    u16_from_be_bytes(stated) == first_check(block)
}

// Puts the check with this tag in the place of the old one, where that is right, and says whether it was.
fn recheck_block(tag: u32, block: &mut [u8]) -> bool
    requires { length block.old ≡ 512 }
    ensures { BlockMeets result block.new tag block.old }
{
    if !has_first_check(block) {
        return false;
    }
    let check = block_check(tag, block);
    put_check(check, block);
    true
}

// Rechecks the block that starts there, unless the deck has stopped.
fn recheck_next(mut recheck: Recheck, from: usize, chunk: &mut [u8]) -> RecheckStep
    requires { from < length chunk.old }
    ensures { NextMeets result chunk.new from chunk.old (recheck_next (block_at from chunk.old) (standing recheck)) }
{
    let None = recheck.stop else {
        return RecheckStep {
            bytes: from,
            recheck,
        };
    };
    recheck.number = recheck.number.wrapping_add(1);
    recheck.tag = recheck.tag.wrapping_add(1);
    if chunk.len() - from < BLOCK {
        recheck.stop = Some(Stop::Short);
        return RecheckStep {
            bytes: from,
            recheck,
        };
    }
    let end = from + BLOCK;
    if !recheck_block(recheck.tag, &mut chunk[from..end]) {
        recheck.stop = Some(Stop::BadCheck);
        return RecheckStep {
            bytes: from,
            recheck,
        };
    }
    RecheckStep {
        bytes: end,
        recheck,
    }
}

impl Recheck {
    // A deck of which no block is rechecked yet.
    pub fn new() -> Recheck
        ensures { result ≡ new_recheck }
    {
        Recheck {
            number: 0,
            tag: 0,
            stop: None,
        }
    }

    // Rechecks a chunk's blocks, of which the last may be short, up to the first that is refused. Once the deck has stopped, nothing is rechecked.
    pub fn recheck_chunk(mut self, chunk: &mut [u8]) -> RecheckStep
        ensures { RecheckMeets result chunk.new chunk.old (recheck_all chunk.old (standing self)) }
    {
        // Stays by place, with no `chunks_mut`: its contract does not say what the slice holds behind it.
        for from in (0..chunk.len()).step_by(BLOCK) {
            let step = recheck_next(self, from, chunk);
            if step.bytes == from {
                return step;
            }
            self = step.recheck;
        }
        RecheckStep {
            bytes: chunk.len(),
            recheck: self,
        }
    }
}
