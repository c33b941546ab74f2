// What an effect of the transaction table does to the flash, or to the buffer of a read.
// Stays: lent buffers are parameters of their own, since a contract tells each before and after.
ghost use Rattle.std.specs.Prelude.{◌≡◌, ◌+◌, ◌*◌, ◌/◌, ◌≤◌, length, drop, replicate};
ghost use Rattle.promise.specs.Bytes.{front, field};
ghost use Rattle.promise.specs.Over.{over};
ghost use Rattle.protocol_bytes.specs.Sector.{sector_size};
ghost use Rattle.mock_table.specs.Turn.{EffectFits, reply_size};
ghost use Rattle.mock_effects.specs.Effects.{erased, programmed, cells_told, flash_after, pending_after, reply_bytes, buffer_after};

use mock_base::config::MockDeviceConfig;
use mock_base::range::FlashRange;
use mock_table::outcome::{Effect, ReplyKind};
use protocol_bytes::SECTOR_SIZE;
use protocol_codes::Status;
use protocol_status::report::CommandStatus;

const ERASED: u8 = 0xFF;

// Little-endian, bit 4 set.
const NOR_STORAGE: [u8; 4] = [0x10, 0, 0, 0];

fn erase(range: FlashRange, flash: &mut [u8])
    requires { range.first * sector_size + range.count * sector_size ≤ length flash.old }
    ensures { flash.new ≡ over (range.first * sector_size) (replicate (range.count * sector_size) erased) flash.old }
{
    let size = SECTOR_SIZE as usize;
    let start = (range.first as usize) * size;
    let end = start + (range.count as usize) * size;
    flash[start..end].fill(ERASED);
}

fn store(range: FlashRange, flash: &mut [u8], data: &[u8])
    requires { range.first * sector_size + length «data».now ≤ length flash.old }
    ensures { flash.new ≡ over (range.first * sector_size) «data».now flash.old }
{
    let start = (range.first as usize) * (SECTOR_SIZE as usize);
    flash[start..start + data.len()].copy_from_slice(data);
}

// Whether clearing bits alone makes each byte the one asked.
fn cells_told(old: &[u8], asked: &[u8]) -> Status
    requires { length asked.now ≤ length old.now }
    ensures { result ≡ cells_told asked.now old.now }
{
    if old
        .iter()
        .zip(asked)
        .all(|(&before, &byte)| before & byte == byte)
    {
        Status::SUCCESS
    } else {
        Status::FAILED
    }
}

// Stays by places: of cells that an iterator lends through `zip` no proof knows what is left in them.
fn clear_bits(part: &mut [u8], asked: &[u8])
    requires { length asked.now ≤ length part.old }
    ensures { part.new ≡ front (programmed asked.now part.old) part.old }
{
    for i in 0..asked.len() {
        part[i] &= asked[i];
    }
}

fn program(range: FlashRange, flash: &mut [u8], data: &[u8]) -> Status
    requires { range.first * sector_size + length «data».now ≤ length flash.old }
    ensures { (result ≡ cells_told «data».now (drop (range.first * sector_size) flash.old)) × (flash.new ≡ over (range.first * sector_size) (programmed «data».now (drop (range.first * sector_size) flash.old)) flash.old) }
{
    let start = (range.first as usize) * (SECTOR_SIZE as usize);
    let pending = cells_told(&flash[start..], data);
    clear_bits(&mut flash[start..], data);
    pending
}

fn supply(range: FlashRange, flash: &[u8], data: &mut [u8])
    requires { (range.first * sector_size + range.count * sector_size ≤ length flash.now) × (range.count * sector_size ≤ length «data».old) }
    ensures { «data».new ≡ front (field (range.first * sector_size) (range.count * sector_size) flash.now) «data».old }
{
    let start = (range.first as usize) * (SECTOR_SIZE as usize);
    let length = (range.count as usize) * (SECTOR_SIZE as usize);
    data[..length].copy_from_slice(&flash[start..start + length]);
}

fn reply(config: MockDeviceConfig, sectors: u32, kind: ReplyKind, data: &mut [u8])
    requires { length «data».old ≡ reply_size kind }
    ensures { «data».new ≡ front (reply_bytes config sectors kind) «data».old }
{
    // Stays a `match`: each reply is other bytes.
    match kind {
        ReplyKind::FlashId => data.copy_from_slice(&config.flash_id),
        ReplyKind::FlashInfo => data.copy_from_slice(&config.flash_info(sectors)),
        ReplyKind::ChipInfo => data.copy_from_slice(&config.chip_info),
        ReplyKind::Capability => data.copy_from_slice(&config.capability),
        ReplyKind::Storage => data.copy_from_slice(&NOR_STORAGE),
        ReplyKind::Status(tag, pending) => {
            let status = CommandStatus {
                tag,
                residue: 0,
                status: pending,
            };
            // written, since the buffer is as long as a status
            let _ = status.to_bytes(data);
        }
    }
}

// FAILED where the cells did not take what was asked, else SUCCESS.
pub(crate) fn apply_to_flash(effect: Effect, flash: &mut [u8], data: &[u8]) -> Status
    requires { EffectFits (length flash.old / sector_size) (length «data».now) effect }
    ensures { (result ≡ pending_after effect «data».now flash.old) × (flash.new ≡ flash_after effect «data».now flash.old) }
{
    // Stays a `match`: each effect is lent other bytes.
    match effect {
        Effect::Fill(range) => {
            erase(range, flash);
            Status::SUCCESS
        }
        Effect::Store(range) => {
            store(range, flash, data);
            Status::SUCCESS
        }
        Effect::Program(range) => program(range, flash, data),
        Effect::Nothing | Effect::Supply(_) | Effect::Reply(_) => Status::SUCCESS,
    }
}

pub(crate) fn apply_to_buffer(
    effect: Effect,
    config: MockDeviceConfig,
    flash: &[u8],
    data: &mut [u8],
)
    requires { (length flash.now / sector_size ≤ 65536) × EffectFits (length flash.now / sector_size) (length «data».old) effect }
    ensures { «data».new ≡ buffer_after config effect flash.now «data».old }
{
    // Stays a `match`: each effect is lent other bytes.
    match effect {
        Effect::Supply(range) => supply(range, flash, data),
        Effect::Reply(kind) => reply(
            config,
            (flash.len() / (SECTOR_SIZE as usize)) as u32,
            kind,
            data,
        ),
        Effect::Nothing | Effect::Fill(_) | Effect::Store(_) | Effect::Program(_) => {}
    }
}
