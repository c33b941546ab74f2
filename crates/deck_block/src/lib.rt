// One block of a deck: what it asks for, or the first of its rules that it breaks.

#![tactic(auto)]

pub mod check;

ghost use Rattle.std.specs.Prelude.{◌≡◌, ◌≤◌, length};
ghost use Rattle.deck_block.specs.Block.{fields_of, all_zero, is_kind, too_large};
ghost use Rattle.deck_block.specs.Reading.{card_error_number, card_told, reset_request, switch_request, request_of, read_card};

use check::block_check;
use protocol_bytes::order::{u16_from_be_bytes, u32_from_be_bytes};
use protocol_codes::{ResetOpcode, StorageIndex};
use rule_number::RuleNumber;

const CARD_BYTES: usize = 512;

// Upload without check.
// Stays a number, as `kind` of the fields and what asks it do: 40 comes before 46 and 41, and one `match` makes the request.
const WITHDRAWN: u8 = 13;

// What a block asks for: an operation with its address and count, or an upload with its area and length; then the fill byte.
#[derive(Clone, Copy, Debug, PartialEq, Eq)]
pub enum Request {
    ChipInfo,
    FlashId,
    FlashInfo,
    Capability,
    EraseLba(u32, u16),
    EraseForce(u32, u16),
    ReadLba(u32, u16),
    WriteLba(u32, u16, u8),
    ResetDevice(ResetOpcode),
    Storage,
    SwitchStorage(StorageIndex),
    WriteArea(u16, u32, u8),
}

// The first of its rules that a block breaks.
#[derive(Clone, Copy, Debug, PartialEq, Eq)]
pub enum CardError {
    // 44, 40, 46, 41, 42, 43, 45
    Short,
    BadCheck,
    WithdrawnKind,
    UnknownKind,
    NotZero,
    TooLarge,
    UnknownReset,
}

impl RuleNumber for CardError {
    ghost rule_number = { card_error_number };

    fn number(self) -> u8 {
        match self {
            CardError::Short => 44,
            CardError::BadCheck => 40,
            CardError::WithdrawnKind => 46,
            CardError::UnknownKind => 41,
            CardError::NotZero => 42,
            CardError::TooLarge => 43,
            CardError::UnknownReset => 45,
        }
    }
}

// The fields of a block: byte 0, bytes 1 to 4, bytes 5 and 6, byte 7, bytes 510 and 511.
#[derive(Clone, Copy, Debug, PartialEq, Eq)]
pub struct Fields {
    // the byte as it stands in the block, whatever it is: `request_of` makes a `Request` of it
    pub kind: u8,
    pub word: u32,
    pub half: u16,
    pub byte: u8,
    pub check: u16,
}

fn fields_of(block: &[u8]) -> Fields
    requires { 512 ≤ length block.now }
    ensures { result ≡ fields_of block.now }
{
    let word = [block[1], block[2], block[3], block[4]];
    let half = [block[5], block[6]];
    let check = [block[510], block[511]];
    Fields {
        kind: block[0],
        word: u32_from_be_bytes(word),
        half: u16_from_be_bytes(half),
        byte: block[7],
        check: u16_from_be_bytes(check),
    }
}

fn all_zero(bytes: &[u8]) -> bool
    ensures { result ≡ all_zero bytes.now }
{
    bytes.iter().all(|&byte| byte == 0)
}

fn is_kind(kind: u8) -> bool
    ensures { result ≡ is_kind kind }
{
    // Stays a number: a kind is no request before 41, 42 and 43.
    (1..=12).contains(&kind)
}

fn too_large(f: Fields) -> bool
    ensures { result ≡ too_large f }
{
    // Stays a number: 43 comes before 45, and one `match` makes the request.
    match f.kind {
        7 | 8 => 16 < f.half,
        12 => 8192 < f.word,
        _ => false,
    }
}

fn reset_request(opcode: u8) -> Result<Request, CardError>
    ensures { card_told result ≡ reset_request opcode }
{
    let Ok(reset) = ResetOpcode::try_from(opcode) else {
        return Err(CardError::UnknownReset);
    };
    Ok(Request::ResetDevice(reset))
}

fn switch_request(index: u8) -> Request
    ensures { result ≡ switch_request index }
{
    Request::SwitchStorage(StorageIndex::from(index))
}

// What the fields ask for; a kind that is none of the others is 12.
fn request_of(f: Fields) -> Result<Request, CardError>
    ensures { card_told result ≡ request_of f }
{
    let request = match f.kind {
        1 => Request::ChipInfo,
        2 => Request::FlashId,
        3 => Request::FlashInfo,
        4 => Request::Capability,
        5 => Request::EraseLba(f.word, f.half),
        6 => Request::EraseForce(f.word, f.half),
        7 => Request::ReadLba(f.word, f.half),
        8 => Request::WriteLba(f.word, f.half, f.byte),
        9 => reset_request(f.byte)?,
        10 => Request::Storage,
        11 => switch_request(f.byte),
        _ => Request::WriteArea(f.half, f.word, f.byte),
    };
    Ok(request)
}

// Reads the block that has this tag.
pub fn read_card(tag: u32, block: &[u8]) -> Result<Request, CardError>
    ensures { card_told result ≡ read_card tag block.now }
{
    if block.len() < CARD_BYTES {
        return Err(CardError::Short);
    }
    let f = fields_of(block);
    if f.check != block_check(tag, block) {
        return Err(CardError::BadCheck);
    }
    if f.kind == WITHDRAWN {
        return Err(CardError::WithdrawnKind);
    }
    if !is_kind(f.kind) {
        return Err(CardError::UnknownKind);
    }
    if !all_zero(&block[8..510]) {
        return Err(CardError::NotZero);
    }
    if too_large(f) {
        return Err(CardError::TooLarge);
    }
    request_of(f)
}
