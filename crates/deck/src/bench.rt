// A deck: one 512-byte block after the other, each dealt to the stand-in.
// Stays: lent buffers are parameters of their own, since a contract tells each before and after.
ghost use Rattle.std.specs.Prelude.{◌≡◌, length};
ghost use Rattle.deck.specs.Bench.{StartMeets, StepMeets};

use crate::dealing::deal_block;
use crate::verdict::RefusalNumber;
use mock::config::MockDeviceConfig;
use mock::device::MockState;
use mock_base::error::MockAnswer;
use operation_finish::{Beside, UsbReply};

const DEFAULT_BYTE: u8 = 0xFF;

// The stand-in, and the number and the tag of the last block.
#[derive(Clone, Copy)]
pub struct Bench {
    pub device: MockState,
    pub number: u64,
    pub tag: u32,
}

// Done, or 60 or 61 for the lent flash, and the bench, fresh in either case.
// Stays a pair: document 01 has the record handed back beside the answer.
#[derive(Clone, Copy)]
pub struct BenchStart {
    pub answer: MockAnswer,
    pub bench: Bench,
}

// What a block came to, and the bench after it; the block's number is the bench's.
#[derive(Clone, Copy)]
pub struct DeckStep {
    pub verdict: Result<UsbReply, RefusalNumber>,
    pub beside: Beside,
    pub bench: Bench,
}

impl Bench {
    // The Rust's default device, before the first block. A flash that is refused is left as it was.
    pub fn new(flash: &mut [u8], store: &[u8]) -> BenchStart
        ensures { StartMeets result flash.new flash.old (length store.now) }
    {
        let made = MockState::new(MockDeviceConfig::default(), flash, store);
        if let Ok(()) = made.answer.result {
            // Every byte as in a flash that was never written.
            flash.fill(DEFAULT_BYTE);
        }
        BenchStart {
            answer: made.answer,
            bench: Bench {
                device: made.state,
                number: 0,
                tag: 0,
            },
        }
    }

    // Deals the next block. Refused ones count, too.
    pub fn deal(mut self, block: &[u8], flash: &mut [u8], store: &mut [u8]) -> DeckStep
        ensures { StepMeets result flash.new store.new self block.now flash.old store.old }
    {
        self.number = self.number.wrapping_add(1);
        self.tag = self.tag.wrapping_add(1);
        let dealt = deal_block(self.tag, block, self.device, flash, store);
        self.device = dealt.device;
        DeckStep {
            verdict: dealt.verdict,
            beside: dealt.beside,
            bench: self,
        }
    }
}
