// Chip info, flash id and flash info.
ghost use Rattle.std.specs.Prelude.{◌≡◌};
ghost use Rattle.protocol_reply.specs.Info.{info_sectors, flash_size, block_size_sectors};

use protocol_bytes::SECTOR_SIZE;
use protocol_bytes::order::{u16_from_le_bytes, u32_from_le_bytes};

// Stays a type of its own, as `FlashId`, `FlashInfo` and `Capability` do: each kind keeps the Rust's wrapper, so that none passes for another.
#[derive(Clone, Copy)]
pub struct ChipInfo(pub [u8; 16]);

impl ChipInfo {
    pub fn from_bytes(data: [u8; 16]) -> ChipInfo
        ensures { result.0 ≡ «data» }
    {
        ChipInfo(data)
    }

    pub fn inner(self) -> [u8; 16]
        ensures { result ≡ self.0 }
    {
        self.0
    }
}

#[derive(Clone, Copy)]
pub struct FlashId(pub [u8; 5]);

impl FlashId {
    pub fn from_bytes(data: [u8; 5]) -> FlashId
        ensures { result.0 ≡ «data» }
    {
        FlashId(data)
    }

    pub fn inner(self) -> [u8; 5]
        ensures { result ≡ self.0 }
    {
        self.0
    }
}

#[derive(Clone, Copy)]
pub struct FlashInfo(pub [u8; 11]);

impl FlashInfo {
    pub fn from_bytes(data: [u8; 11]) -> FlashInfo
        ensures { result.0 ≡ «data» }
    {
        FlashInfo(data)
    }

    // flash size in 512 byte sectors
    #[tactic(auto, using(protocol_bytes::proofs::Short::field_elements), unfolding(crate::specs::Info::info_sectors))]
    pub fn sectors(self) -> u32
        ensures { result ≡ info_sectors self.0 }
    {
        let b = self.0;
        u32_from_le_bytes([b[0], b[1], b[2], b[3]])
    }

    // flash size in bytes
    #[tactic(auto, unfolding(crate::specs::Info::flash_size))]
    pub fn size(self) -> u64
        ensures { result ≡ flash_size self.0 }
    {
        (self.sectors() as u64) * SECTOR_SIZE
    }

    // block size in 512 byte sectors
    #[tactic(auto, using(protocol_bytes::proofs::Short::field_elements), unfolding(crate::specs::Info::block_size_sectors))]
    pub fn block_size_sectors(self) -> u16
        ensures { result ≡ block_size_sectors self.0 }
    {
        let b = self.0;
        u16_from_le_bytes([b[4], b[5]])
    }

    pub fn inner(self) -> [u8; 11]
        ensures { result ≡ self.0 }
    {
        self.0
    }
}
