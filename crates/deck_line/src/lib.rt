// The line that is printed for a block: its number, 0 or the refusal, and the value. Nothing is lent: a line is made by value.

#![tactic(auto)]

ghost use Rattle.std.specs.Prelude.{◌≡◌, ◌<◌};
ghost use Rattle.operation_finish.specs.Reply.{reply_given};
ghost use Rattle.deck.specs.Verdict.{verdict_told};
ghost use Rattle.deck_line.specs.Digits.{digit, decimal, hex};
ghost use Rattle.deck_line.specs.Line.{transfer_text, value_text, told_text, line_text, line};
ghost use Rattle.deck_line.specs.Code.{put_on, put_all, PutShort};

use deck::verdict::RefusalNumber;
use operation_finish::{Beside, SectorTransfer, UsbReply};
use rule_number::RuleNumber;

// Two numbers of at most 20 and 3 digits, a value of at most 32, two spaces and a line feed: no text is longer than 58 bytes.
const LONGEST: usize = 64;

// The text is the first `used` bytes, and every other byte is 0.
// Stays an array with its count: nothing here allocates, and a line is made by value.
#[derive(Clone, Copy, Debug, PartialEq, Eq)]
pub struct Line {
    pub bytes: [u8; 64],
    pub used: usize,
}

// Digits stay put by hand: `line_text` pins each byte by `decimal` and `hex`, and a `write!` would answer a `Result` at each of them.
fn digit_of(value: u8) -> u8
    requires { value < 16 }
    ensures { result ≡ digit value }
{
    if value < 10 {
        return b'0' + value;
    }
    b'a' - 10 + value
}

impl Line {
    // One byte more, where there is room.
    fn put(mut self, byte: u8) -> Line
        ensures { result ≡ put_on self byte }
    {
        if LONGEST <= self.used {
            return self;
        }
        self.bytes[self.used] = byte;
        self.used += 1;
        self
    }

    // The digits of its tenth part, if it has one, and its last.
    fn put_decimal(self, number: u64) -> Line
        ensures { result ≡ put_all self (decimal number) }
    {
        let last = digit_of((number % 10) as u8);
        if number < 10 {
            return self.put(last);
        }
        self.put_decimal(number / 10).put(last)
    }

    fn put_hex(mut self, bytes: &[u8]) -> Line
        ensures { result ≡ put_all self (hex bytes.now) }
    {
        for &byte in bytes {
            self = self.put(digit_of(byte / 16)).put(digit_of(byte % 16));
        }
        self
    }

    // Bytes moved; and where the transfer was short, a slash and bytes asked.
    fn put_transfer(self, transfer: SectorTransfer) -> Line
        ensures { PutShort result self (transfer_text transfer) }
    {
        match transfer {
            SectorTransfer::Whole(count) => self.put_decimal(count.0 as u64),
            SectorTransfer::Short(short) => self
                .put_decimal(short.moved.0 as u64)
                .put(b'/')
                .put_decimal(short.asked.0 as u64),
        }
    }

    // Bytes for chip info, flash id, flash info and capability, counts for sectors, and `-` for the others.
    fn put_value(self, reply: UsbReply, beside: Beside) -> Line
        ensures { PutShort result self (value_text (reply_given reply beside)) }
    {
        // Stays a `match`: each kind of reply has a wrapper of its own beside it.
        match reply {
            UsbReply::ChipInfo => self.put_hex(&beside.chip_info.0),
            UsbReply::FlashId => self.put_hex(&beside.flash_id.0),
            UsbReply::FlashInfo => self.put_hex(&beside.flash_info.0),
            UsbReply::Capability => self.put_hex(&beside.capability.0),
            UsbReply::Sectors(transfer) => self.put_transfer(transfer),
            UsbReply::Nothing | UsbReply::Storage(_) => self.put(b'-'),
        }
    }

    fn put_told(self, verdict: Result<UsbReply, RefusalNumber>, beside: Beside) -> Line
        ensures { PutShort result self (told_text (verdict_told verdict beside)) }
    {
        match verdict {
            Ok(reply) => self.put_value(reply, beside),
            Err(_) => self.put(b'-'),
        }
    }
}

// The whole line of a block.
pub fn line_of(number: u64, verdict: Result<UsbReply, RefusalNumber>, beside: Beside) -> Line
    ensures { result ≡ line (line_text number (verdict_told verdict beside)) }
{
    let empty = Line {
        bytes: [0u8; 64],
        used: 0,
    };
    empty
        .put_decimal(number)
        .put(b' ')
        .put_decimal(verdict.number() as u64)
        .put(b' ')
        .put_told(verdict, beside)
        .put(b'\n')
}
