// One sector operation, from its start to its finish, at a fresh stand-in whose flash is lent.
ghost use Rattle.std.specs.Prelude.{◌≡◌, []};
ghost use Rattle.promise.specs.Told.{given};
ghost use Rattle.operation_finish.specs.declared.Beside.{Beside};
ghost use Rattle.operation_finish.specs.Reply.{reply_given};
ghost use Rattle.run_turn.specs.Turn.{lent_to};
ghost use Rattle.deck.specs.Verdict.{verdict_told};
ghost use Rattle.ffi.specs.Sectors.{SectorsMeet, counts_of, counts_after, device, run_at, read_sectors, write_sectors};

use deck::verdict::RefusalNumber;
use mock::config::MockDeviceConfig;
use mock::device::MockState;
use operation::steps::UsbOperation;
use operation_finish::{SectorTransfer, UsbReply};
use rule_number::RuleNumber;

// The same for every operation.
const TAG: u32 = 1;

// A stand-in with no store. Its flash is lent at each call, and nothing of it is kept.
fn fresh_device() -> MockState
    ensures { result ≡ device }
{
    MockState::new(MockDeviceConfig::default(), &[], &[]).state
}

// How many bytes were moved, then how many were asked for: of a whole transfer the same number twice.
pub fn counts_of(transfer: SectorTransfer) -> [u32; 2]
    ensures { result ≡ counts_of transfer }
{
    match transfer {
        SectorTransfer::Whole(count) => [count.0, count.0],
        SectorTransfer::Short(short) => [short.moved.0, short.asked.0],
    }
}

// Those of a reply's transfer, else the ones that are there.
fn counts_in(reply: UsbReply, before: [u32; 2]) -> [u32; 2]
    ensures { (b : Beside) → result ≡ counts_after (given (reply_given reply b)) before }
{
    let UsbReply::Sectors(transfer) = reply else {
        return before;
    };
    counts_of(transfer)
}

// A refusal leaves the counts as they are.
fn counts_after(verdict: Result<UsbReply, RefusalNumber>, before: [u32; 2]) -> [u32; 2]
    ensures { (b : Beside) → result ≡ counts_after (verdict_told verdict b) before }
{
    let Ok(reply) = verdict else {
        return before;
    };
    counts_in(reply, before)
}

// The whole run of an operation that leaves sectors in `data`.
// Stays beside `write_on`, and `read_sectors` beside `write_sectors`: C lends the data of a write for reading alone.
fn read_on(operation: UsbOperation, flash: &mut [u8], data: &mut [u8], counts: &mut [u32; 2]) -> u8
    ensures { SectorsMeet result flash.new «data».new counts.new (run_at operation flash.old «data».old counts.old) }
{
    let ran = run_operation::run_whole(operation, fresh_device(), flash, &[], data);
    let told = deck::verdict::operated(ran).verdict;
    *counts = counts_after(told, *counts);
    told.number()
}

// The whole run of an operation that takes its sectors from `data`.
fn write_on(operation: UsbOperation, flash: &mut [u8], data: &[u8], counts: &mut [u32; 2]) -> u8
    ensures { SectorsMeet result flash.new (lent_to operation.kind «data».now []) counts.new (run_at operation flash.old (lent_to operation.kind «data».now []) counts.old) }
{
    let ran = run_operation::run_whole_write(operation, fresh_device(), flash, &[], data);
    let told = deck::verdict::operated(ran).verdict;
    *counts = counts_after(told, *counts);
    told.number()
}

// Sectors of the flash from `first` on into all of `data`: 0, or the number of the refusal.
// At 0 `counts` has how many bytes were moved, then how many were asked for; at a refusal it is as it was.
pub fn read_sectors(first: u32, flash: &mut [u8], data: &mut [u8], counts: &mut [u32; 2]) -> u8
    ensures { SectorsMeet result flash.new «data».new counts.new (read_sectors first flash.old «data».old counts.old) }
{
    let start = operation::starts::read_lba(TAG, first, data.len());
    if let Err(refusal) = start.answer {
        return refusal.number();
    }
    read_on(start.operation, flash, data, counts)
}

// All of `data` to the flash from sector `first` on: 0, or the number of the refusal.
// At 0 `counts` has how many bytes were moved, then how many were asked for; at a refusal it is as it was.
pub fn write_sectors(first: u32, flash: &mut [u8], data: &[u8], counts: &mut [u32; 2]) -> u8
    ensures { SectorsMeet result flash.new «data».now counts.new (write_sectors first flash.old «data».now counts.old) }
{
    let start = operation::starts::write_lba(TAG, first, data.len());
    if let Err(refusal) = start.answer {
        return refusal.number();
    }
    write_on(start.operation, flash, data, counts)
}
