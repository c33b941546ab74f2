// How an operation ends: its status is read, then its answer is made.

#![tactic(auto)]

ghost use Rattle.std.specs.Prelude.{◌≡◌, ◌≤◌, length, take};
ghost use Rattle.protocol_bytes.specs.Signature.{no_signature};
ghost use Rattle.operation_finish.specs.declared.Beside.{Beside};
ghost use Rattle.operation_finish.specs.Reply.{finish_told, no_chip_info, no_flash_id, no_flash_info, no_capability, besides, blank, FinishMeets};
ghost use Rattle.operation_finish.specs.Code.{failed_with, replied_with};
ghost use Rattle.operation_finish.specs.Finish.{storage_reply, sector_reply, reply_of, finishes};

use protocol_codes::{Status, StorageIndex};
use protocol_reply::flags::Capability;
use protocol_reply::info::{ChipInfo, FlashId, FlashInfo};
use protocol_reply::media::storage_index;
use protocol_reply::size::Transferred;
use protocol_status::failure::UsbOperationError;
use protocol_status::report::{CommandStatus, CommandStatusParseError};
use rule_number::RuleNumber;

// What an operation ends with: one for each kind of reply, and the two over sectors.
#[derive(Clone, Copy, Debug, PartialEq, Eq)]
pub enum Kind {
    ChipInfo,
    FlashId,
    FlashInfo,
    Capability,
    Nothing,
    Storage,
    Read,
    Write,
}

// Fewer bytes were moved than the command asked for.
#[derive(Clone, Copy, Debug, PartialEq, Eq)]
pub struct ShortTransfer {
    pub moved: Transferred,
    pub asked: Transferred,
}

// What became of the data of a sector operation: all of it was moved, or fewer bytes than asked.
#[derive(Clone, Copy, Debug, PartialEq, Eq)]
pub enum SectorTransfer {
    Whole(Transferred),
    Short(ShortTransfer),
}

// A reply. Where its wrapper holds an array, it stands beside.
// Stays an enum of the Rust's kinds of reply: `Nothing` is the reply of an operation that asks for none.
#[derive(Clone, Copy, Debug, PartialEq, Eq)]
pub enum UsbReply {
    ChipInfo,
    FlashId,
    FlashInfo,
    Capability,
    Nothing,
    Storage(StorageIndex),
    Sectors(SectorTransfer),
}

// What no enum can hold. Each is zeros where it is not the answer.
#[derive(Clone, Copy)]
pub struct Beside {
    pub signature: [u8; 4],
    pub chip_info: ChipInfo,
    pub flash_id: FlashId,
    pub flash_info: FlashInfo,
    pub capability: Capability,
}

// Stays a pair: arrays stand beside an enum, never in it (document 01).
#[derive(Clone, Copy)]
pub struct Finished {
    pub answer: Result<UsbReply, UsbOperationError>,
    pub beside: Beside,
}

impl Beside {
    // Zeros, but for a signature.
    pub fn blank(signature: [u8; 4]) -> Beside
        ensures { result ≡ blank signature }
    {
        let chip_info = ChipInfo([0u8; 16]);
        let flash_id = FlashId([0u8; 5]);
        let flash_info = FlashInfo([0u8; 11]);
        let capability = Capability([0u8; 8]);
        Beside {
            signature,
            chip_info,
            flash_id,
            flash_info,
            capability,
        }
    }
}

fn failed(error: UsbOperationError, signature: [u8; 4]) -> Finished
    ensures { result ≡ failed_with error signature }
{
    let beside = Beside::blank(signature);
    Finished {
        answer: Err(error),
        beside,
    }
}

fn replied(reply: UsbReply) -> Finished
    ensures { result ≡ replied_with reply (blank no_signature) }
{
    replied_beside(reply, Beside::blank([0, 0, 0, 0]))
}

// The first N bytes of what was received.
fn first_of<const N: usize>(inband: [u8; 16]) -> [u8; N]
    requires { N ≤ 16 }
    ensures { result ≡ take N inband }
{
    let mut first = [0u8; N];
    first.copy_from_slice(&inband[..N]);
    first
}

// A reply that stands beside.
fn replied_beside(reply: UsbReply, beside: Beside) -> Finished
    ensures { result ≡ replied_with reply beside }
{
    Finished {
        answer: Ok(reply),
        beside,
    }
}

// Stay four, to `capability_of`: each fills a wrapper of its own (document 01).
fn chip_info_of(inband: [u8; 16]) -> Finished
    ensures { result ≡ replied_with UsbReply.ChipInfo (besides no_signature (record { 0 = inband }) no_flash_id no_flash_info no_capability) }
{
    let chip_info = ChipInfo(inband);
    let mut beside = Beside::blank([0, 0, 0, 0]);
    beside.chip_info = chip_info;
    replied_beside(UsbReply::ChipInfo, beside)
}

fn flash_id_of(inband: [u8; 16]) -> Finished
    ensures { result ≡ replied_with UsbReply.FlashId (besides no_signature no_chip_info (record { 0 = take 5 inband }) no_flash_info no_capability) }
{
    let mut beside = Beside::blank([0, 0, 0, 0]);
    beside.flash_id = FlashId(first_of(inband));
    replied_beside(UsbReply::FlashId, beside)
}

fn flash_info_of(inband: [u8; 16]) -> Finished
    ensures { result ≡ replied_with UsbReply.FlashInfo (besides no_signature no_chip_info no_flash_id (record { 0 = take 11 inband }) no_capability) }
{
    let mut beside = Beside::blank([0, 0, 0, 0]);
    beside.flash_info = FlashInfo(first_of(inband));
    replied_beside(UsbReply::FlashInfo, beside)
}

fn capability_of(inband: [u8; 16]) -> Finished
    ensures { result ≡ replied_with UsbReply.Capability (besides no_signature no_chip_info no_flash_id no_flash_info (record { 0 = take 8 inband })) }
{
    let mut beside = Beside::blank([0, 0, 0, 0]);
    beside.capability = Capability(first_of(inband));
    replied_beside(UsbReply::Capability, beside)
}

#[tactic(auto, unfolding(promise::specs::Told::and_then, crate::specs::Finish::storage_reply, protocol_reply::specs::Media::storage_told, crate::specs::Reply::finish_told, crate::specs::Reply::reply_given, crate::specs::Reply::beside_of, crate::specs::Reply::beside_reply, protocol_status::specs::Failure::failure_number, protocol_status::specs::Failure::failure_values, protocol_bytes::specs::Signature::signature_in))]
fn storage_of(inband: [u8; 16]) -> Finished
    ensures { FinishMeets result (storage_reply inband) }
{
    let Ok(index) = storage_index(first_of(inband)) else {
        return failed(UsbOperationError::ReplyParseFailure, [0, 0, 0, 0]);
    };
    replied(UsbReply::Storage(index))
}

#[tactic(auto, unfolding(promise::specs::Told::and_then, promise::specs::Rules::or_refuse, crate::specs::Finish::sectors_by, crate::specs::Transfer::transfer_of, crate::specs::Reply::finish_told, crate::specs::Reply::reply_given, crate::specs::Reply::beside_of, crate::specs::Reply::beside_reply, protocol_status::specs::Failure::failure_number, protocol_status::specs::Failure::failure_values, protocol_bytes::specs::Signature::signature_in))]
fn sectors_of(length: u32, residue: u32) -> Finished
    ensures { FinishMeets result (sector_reply length residue) }
{
    if length < residue {
        return failed(UsbOperationError::ReplyParseFailure, [0, 0, 0, 0]);
    }
    let asked = Transferred(length);
    if residue == 0 {
        return replied(UsbReply::Sectors(SectorTransfer::Whole(asked)));
    }
    let moved = Transferred(length - residue);
    let short = ShortTransfer { moved, asked };
    replied(UsbReply::Sectors(SectorTransfer::Short(short)))
}

// The answer of an operation that went well.
#[tactic(auto, unfolding(crate::specs::Finish::reply_by, crate::specs::Reply::finish_told, crate::specs::Reply::reply_given, crate::specs::Reply::beside_of, crate::specs::Reply::beside_reply))]
fn reply_of(kind: Kind, length: u32, residue: u32, inband: [u8; 16]) -> Finished
    ensures { FinishMeets result (reply_of kind length residue inband) }
{
    // Stays a `match`: eight kinds, of which some look at the residue and some at the bytes.
    match kind {
        Kind::ChipInfo => chip_info_of(inband),
        Kind::FlashId => flash_id_of(inband),
        Kind::FlashInfo => flash_info_of(inband),
        Kind::Capability => capability_of(inband),
        Kind::Nothing => replied(UsbReply::Nothing),
        Kind::Storage => storage_of(inband),
        Kind::Read | Kind::Write => sectors_of(length, residue),
    }
}

// The end of an operation whose command had this tag and transfer length: its status stands in `status`, what it received in `inband`.
pub fn finish_of(kind: Kind, tag: u32, length: u32, status: [u8; 13], inband: [u8; 16]) -> Finished
    ensures { FinishMeets result (finishes kind tag length status inband) }
{
    let parse = CommandStatus::from_bytes(&status);
    let report = match parse.answer {
        Ok(report) => report,
        Err(error) => return failed(UsbOperationError::from(error), parse.signature),
    };
    let Status::SUCCESS = report.status else {
        return failed(UsbOperationError::FailedStatus, [0, 0, 0, 0]);
    };
    if report.tag != tag {
        return failed(UsbOperationError::TagMismatch, [0, 0, 0, 0]);
    }
    reply_of(kind, length, report.residue, inband)
}
