// The header that a loader file starts with, 102 bytes.
ghost use Rattle.std.specs.Prelude.{◌≡◌, take};
ghost use Rattle.loader_records.specs.Records.{header_of, no_header, read_header, is_tag};
ghost use Rattle.loader_records.specs.Refusals.{ReadMeets};
ghost use Rattle.loader_records.specs.Code.{unread};

use crate::answer::RkBootError;
use crate::list::{RkBootHeaderEntry, list_of};
use crate::time::{RkTime, time_of};
use protocol_bytes::order::{u16_from_le_bytes, u32_from_le_bytes};
use protocol_bytes::signature::starts_with;

// Total size of a header.
pub const RK_BOOT_HEADER_BYTES: usize = 102;

// BOOT
const BOOT: [u8; 4] = [0x42, 0x4F, 0x4F, 0x54];

// LDR and a space
const LDR: [u8; 4] = [0x4C, 0x44, 0x52, 0x20];

#[derive(Clone, Copy, Debug, PartialEq, Eq)]
pub struct RkBootHeader {
    pub tag: [u8; 4],
    pub size: u16,
    pub version: u32,
    pub merge_version: u32,
    pub release: RkTime,
    pub supported_chip: [u8; 4],
    pub entry_471: RkBootHeaderEntry,
    pub entry_472: RkBootHeaderEntry,
    pub entry_loader: RkBootHeaderEntry,
    pub sign_flag: u8,
    pub rc4_flag: u8,
}

// Stays a record beside its answer: `ReadMeets` tells zeros at a refusal.
#[derive(Clone, Copy, Debug, PartialEq, Eq)]
pub struct RkBootHeaderRead {
    pub answer: Result<(), RkBootError>,
    pub header: RkBootHeader,
    // the four bytes of an unknown tag, zeros otherwise
    pub unknown_tag: [u8; 4],
}

// Its bytes that are looked at are the first 45: those behind them may be anything.
fn header_of(b: &[u8; 102]) -> RkBootHeader
    ensures { result ≡ header_of b.now }
{
    RkBootHeader {
        tag: [b[0], b[1], b[2], b[3]],
        size: u16_from_le_bytes([b[4], b[5]]),
        version: u32_from_le_bytes([b[6], b[7], b[8], b[9]]),
        merge_version: u32_from_le_bytes([b[10], b[11], b[12], b[13]]),
        release: time_of(&[b[14], b[15], b[16], b[17], b[18], b[19], b[20]]),
        supported_chip: [b[24], b[23], b[22], b[21]],
        entry_471: list_of(&[b[25], b[26], b[27], b[28], b[29], b[30]]),
        entry_472: list_of(&[b[31], b[32], b[33], b[34], b[35], b[36]]),
        entry_loader: list_of(&[b[37], b[38], b[39], b[40], b[41], b[42]]),
        sign_flag: b[43],
        rc4_flag: b[44],
    }
}

// Whether these bytes start with one of the two tags.
fn has_tag(bytes: &[u8]) -> bool
    ensures { result ≡ is_tag (take 4 bytes.now) }
{
    starts_with(bytes, BOOT) || starts_with(bytes, LDR)
}

// No header, and why.
fn unread(error: RkBootError, tag: [u8; 4]) -> RkBootHeaderRead
    ensures { result ≡ unread error tag }
{
    RkBootHeaderRead {
        answer: Err(error),
        header: header_of(&[0; 102]),
        unknown_tag: tag,
    }
}

impl RkBootHeader {
    pub fn from_bytes(bytes: &[u8]) -> RkBootHeaderRead
        ensures { ReadMeets result.answer result.header result.unknown_tag no_header (read_header bytes.now) }
    {
        let Some(b) = bytes.first_chunk::<RK_BOOT_HEADER_BYTES>() else {
            return unread(RkBootError::TooShort(bytes.len()), [0; 4]);
        };
        if !has_tag(bytes) {
            return unread(RkBootError::UnknownTag, [b[0], b[1], b[2], b[3]]);
        }
        RkBootHeaderRead {
            answer: Ok(()),
            header: header_of(b),
            unknown_tag: [0; 4],
        }
    }
}
