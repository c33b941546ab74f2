// "Replies": each read by its own wrapper, from exactly as many bytes as it has, and sector data by its length.
use protocol_reply::flags::Capability;
use protocol_reply::info::{ChipInfo, FlashId, FlashInfo};
use protocol_reply::media::storage_index;
use protocol_reply::size::sector_count;
use replay_answers::answer::Answer;
use replay_answers::told::Told;
use replay_answers::values::storage;

pub fn chip_info(bytes: &[u8]) -> Option<Answer> {
    let info = ChipInfo::from_bytes(*bytes.as_array::<16>()?);
    Some(Answer::with_small(Told::of(0, &[]), &info.inner()))
}

pub fn flash_id(bytes: &[u8]) -> Option<Answer> {
    let id = FlashId::from_bytes(*bytes.as_array::<5>()?);
    Some(Answer::with_small(Told::of(0, &[]), &id.inner()))
}

pub fn flash_info(bytes: &[u8]) -> Option<Answer> {
    let info = FlashInfo::from_bytes(*bytes.as_array::<11>()?);
    let sectors = u64::from(info.sectors());
    let block_size = u64::from(info.block_size_sectors());
    let told = Told::of(0, &[sectors, info.size(), block_size]);
    Some(Answer::with_small(told, &info.inner()))
}

// The flags in the Rust's order.
fn flags(capability: Capability) -> [bool; 9] {
    [
        capability.direct_lba(),
        capability.vendor_storage(),
        capability.first_4m_access(),
        capability.read_lba(),
        capability.read_com_log(),
        capability.read_idb_config(),
        capability.read_secure_mode(),
        capability.new_idb(),
        capability.switch_storage(),
    ]
}

pub fn capability(bytes: &[u8]) -> Option<Answer> {
    let capability = Capability::from_bytes(*bytes.as_array::<8>()?);
    let told = Told::of(0, &flags(capability).map(u64::from));
    Some(Answer::with_small(told, &capability.inner()))
}

pub fn media(bytes: &[u8]) -> Option<Told> {
    match storage_index(*bytes.as_array::<4>()?) {
        Ok(index) => Some(storage(index)),
        Err(error) => Some(Told::numbered(error)),
    }
}

pub fn sectors(length: usize) -> Told {
    match sector_count(length) {
        Ok(count) => Told::of(0, &[u64::from(count.0)]),
        Err(error) => Told::numbered(error),
    }
}
