// Decks with uploads without check, kind 13: each of them whose check is right becomes an upload with one, kind 12, and all else stays.

#![tactic(auto)]

ghost use Rattle.std.specs.Prelude.{◌≡◌, ◌≤◌, length};
ghost use Rattle.deck_convert.specs.Convert.{new_convert, as_upload, ConvertMeets};
ghost use Rattle.deck_convert.specs.Code.{BlockMeets};

use deck_block::check::{block_check, put_check};
use deck_block::{CardError, read_card};

const BLOCK: usize = 512;

// Upload with check.
// Stays a number, as that without check does: it is put in the block's bytes.
const UPLOAD: u8 = 12;

// Upload without check.
// Stays a number: it is looked for in the block's bytes, before they are a request.
const WITHDRAWN: u8 = 13;

// A deck between two chunks: the tag of its last block, how many blocks were converted, and how many of kind 13 were left as they are because their
// check is wrong.
#[derive(Clone, Copy, Debug, PartialEq, Eq)]
pub struct Convert {
    pub tag: u32,
    pub converted: u64,
    pub left: u64,
}

// Makes a block of kind 12 of it, with the check of this tag.
fn to_upload(tag: u32, block: &mut [u8])
    requires { length block.old ≡ 512 }
    ensures { block.new ≡ as_upload tag block.old }
{
    block[0] = UPLOAD;
    let check = block_check(tag, block);
    put_check(check, block);
}

impl Convert {
    // A deck of which no block is converted yet.
    pub fn new() -> Convert
        ensures { result ≡ new_convert }
    {
        Convert {
            tag: 0,
            converted: 0,
            left: 0,
        }
    }

    // Converts one block.
    fn convert_block(mut self, block: &mut [u8]) -> Convert
        requires { length block.old ≤ 512 }
        ensures { BlockMeets result block.new block.old self }
    {
        self.tag = self.tag.wrapping_add(1);
        if block.len() < BLOCK {
            return self;
        }
        if block[0] != WITHDRAWN {
            return self;
        }
        let Err(CardError::WithdrawnKind) = read_card(self.tag, block) else {
            self.left = self.left.wrapping_add(1);
            return self;
        };
        to_upload(self.tag, block);
        self.converted = self.converted.wrapping_add(1);
        self
    }

    // Converts a chunk's blocks where they stand, of which the last may be short: that one stays as it is, and is the deck's end.
    pub fn convert_chunk(mut self, chunk: &mut [u8]) -> Convert
        ensures { ConvertMeets result chunk.new chunk.old self }
    {
        // Stays by place, with no `chunks_mut`: its contract does not say what the slice holds behind it.
        for at in (0..chunk.len()).step_by(BLOCK) {
            let end = chunk.len().min(at + BLOCK);
            self = self.convert_block(&mut chunk[at..end]);
        }
        self
    }
}
