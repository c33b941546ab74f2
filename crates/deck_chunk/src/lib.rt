// A deck dealt chunk by chunk: the lines of a chunk's blocks go to a lent buffer.

#![tactic(auto)]

ghost use Rattle.std.specs.Prelude.{◌≡◌, ◌+◌, ◌*◌, ◌^◌, ◌<◌, ◌≤◌, length, take};
ghost use Rattle.promise.specs.Over.{over};
ghost use Rattle.deck_line.specs.Line.{longest_line};
ghost use Rattle.deck_block.specs.Blocks.{begun};
ghost use Rattle.deck_chunk.specs.Deck.{table, new_deck, deal_next, deal_all};
ghost use Rattle.deck_chunk.specs.Chunk.{deal_chunk, ChunkMeets};
ghost use Rattle.deck_chunk.specs.Code.{LinedMeets, NextMeets, DoneMeets};

use deck::bench::Bench;
use deck_line::{Line, line_of};
use rule_number::OutputTooShort;

const BLOCK: usize = 512;

const LONGEST_LINE: usize = 64;

// The bench between two chunks, and whether a short block has ended the deck.
// Stays a flag beside the bench, and no enum: once a short block came, the bench is still shown.
#[derive(Clone, Copy)]
pub struct Deck {
    pub bench: Bench,
    pub is_over: bool,
}

// How many blocks were dealt, and how many bytes their lines have.
#[derive(Clone, Copy, Debug, PartialEq, Eq)]
pub struct ChunkCount {
    pub blocks: usize,
    pub bytes: usize,
}

// The count, or 20 for the buffer for the lines.
// Stays a pair: document 01 has the record handed back beside the answer.
#[derive(Clone, Copy)]
pub struct ChunkStep {
    pub answer: Result<ChunkCount, OutputTooShort>,
    pub deck: Deck,
}

// A block's line, and the bench after it.
#[derive(Clone, Copy)]
struct Lined {
    line: Line,
    bench: Bench,
}

// How far a chunk is dealt.
// Stays a record of counts: nothing here allocates, and the lines go to a lent buffer.
#[derive(Clone, Copy)]
struct Progress {
    deck: Deck,
    blocks: usize,
    bytes: usize,
}

fn deal_line(bench: Bench, block: &[u8], flash: &mut [u8], store: &mut [u8]) -> Lined
    ensures { LinedMeets result flash.new store.new bench block.now flash.old store.old }
{
    let step = bench.deal(block, flash, store);
    Lined {
        line: line_of(step.bench.number, step.verdict, step.beside),
        bench: step.bench,
    }
}

// Puts a line behind the bytes that are there, and says where the next one goes.
fn put_line(line: Line, at: usize, lines: &mut [u8]) -> usize
    requires { (at + longest_line ≤ length lines.old) × (line.used ≤ longest_line) }
    ensures value { result ≡ at + line.used }
    ensures lines_after { lines.new ≡ over at (take line.used line.bytes) lines.old }
{
    let end = at + line.used;
    lines[at..end].copy_from_slice(&line.bytes[..line.used]);
    end
}

// Deals a block, if the deck is not over.
fn deal_next(
    mut progress: Progress,
    block: &[u8],
    lines: &mut [u8],
    flash: &mut [u8],
    store: &mut [u8],
) -> Progress
    requires { (progress.bytes + longest_line ≤ length lines.old) × (progress.blocks + 1 < 2 ^ 64) }
    ensures { NextMeets result lines.new flash.new store.new progress lines.old (deal_next block.now (table progress.deck flash.old store.old)) }
{
    if progress.deck.is_over {
        return progress;
    }
    let lined = deal_line(progress.deck.bench, block, flash, store);
    progress.deck.bench = lined.bench;
    progress.deck.is_over = block.len() < BLOCK;
    progress.bytes = put_line(lined.line, progress.bytes, lines);
    progress.blocks += 1;
    progress
}

// Deals every block of a chunk.
fn deal_blocks(
    deck: Deck,
    blocks: &[u8],
    lines: &mut [u8],
    flash: &mut [u8],
    store: &mut [u8],
) -> Progress
    requires { longest_line * begun (length blocks.now) ≤ length lines.old }
    ensures { DoneMeets result lines.new flash.new store.new lines.old (deal_all blocks.now (table deck flash.old store.old)) }
{
    let mut progress = Progress {
        deck,
        blocks: 0,
        bytes: 0,
    };
    for block in blocks.chunks(BLOCK) {
        progress = deal_next(progress, block, lines, flash, store);
    }
    progress
}

impl Deck {
    // A deck of which no block is dealt yet.
    pub fn new(bench: Bench) -> Deck
        ensures { result ≡ new_deck bench }
    {
        Deck {
            bench,
            is_over: false,
        }
    }

    // Deals a chunk's blocks, of which the last may be short. Once the deck is over, nothing is dealt.
    pub fn deal_chunk(
        self,
        blocks: &[u8],
        lines: &mut [u8],
        flash: &mut [u8],
        store: &mut [u8],
    ) -> ChunkStep
        ensures { ChunkMeets result lines.new flash.new store.new (deal_chunk blocks.now (table self flash.old store.old) lines.old) }
    {
        if lines.len() < LONGEST_LINE * blocks.len().div_ceil(BLOCK) {
            return ChunkStep {
                answer: Err(OutputTooShort),
                deck: self,
            };
        }
        let done = deal_blocks(self, blocks, lines, flash, store);
        ChunkStep {
            answer: Ok(ChunkCount {
                blocks: done.blocks,
                bytes: done.bytes,
            }),
            deck: done.deck,
        }
    }
}
