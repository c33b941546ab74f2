// The check of a block: with its place, and as decks had it before.
ghost use Rattle.std.specs.Prelude.{◌≡◌, take};
ghost use Rattle.crc.specs.Check.{crc_over};
ghost use Rattle.deck_block.specs.Block.{first_check, block_check, put_check};

use protocol_bytes::order::{u16_to_be_bytes, u32_to_be_bytes};

// What the register of a check starts with.
const START: u16 = 0xFFFF;

// A block's bytes before its check.
const CHECKED_BYTES: usize = 510;

// Where the check ends.
const CHECK_END: usize = CHECKED_BYTES + 2;

// A register taken over the bytes of a block before its check, or over all of a shorter one.
fn over_block(crc: u16, block: &[u8]) -> u16
    ensures { result ≡ crc_over crc (take 510 block.now) }
{
    crc::update(crc, &block[..CHECKED_BYTES.min(block.len())])
}

// The check that a block had before its place was a part of it.
pub fn first_check(block: &[u8]) -> u16
    ensures { result ≡ first_check block.now }
{
    over_block(START, block)
}

// The check that the block with this tag must have.
pub fn block_check(tag: u32, block: &[u8]) -> u16
    ensures { result ≡ block_check tag block.now }
{
    let place = u32_to_be_bytes(tag);
    over_block(crc::checksum(&place), block)
}

// Puts a check where a block has its own, high byte first. A block of fewer than 512 bytes has no place for one, and is left as it was.
pub fn put_check(check: u16, block: &mut [u8])
    ensures { block.new ≡ put_check check block.old }
{
    if block.len() < CHECK_END {
        return;
    }
    block[CHECKED_BYTES..CHECK_END].copy_from_slice(&u16_to_be_bytes(check));
}
