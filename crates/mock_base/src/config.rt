// What a stand-in device says of itself.
ghost use Rattle.std.specs.Prelude.{◌≡◌};
ghost use Rattle.mock_base.specs.Config.{default_config, default_sectors, flash_info};

use protocol_bytes::order::{u16_to_le_bytes, u32_to_le_bytes};

const DEFAULT_SECTORS: usize = 128;

const DEFAULT_BLOCK_SIZE_SECTORS: u16 = 64;

#[derive(Clone, Copy)]
pub struct MockDeviceConfig {
    pub chip_info: [u8; 16],
    pub flash_id: [u8; 5],
    pub capability: [u8; 8],
    pub block_size_sectors: u16,
    pub flash_info_extra: [u8; 5],
}

impl Default for MockDeviceConfig {
    ghost is_default = { λ config. config ≡ default_config };

    #[tactic(auto, unfolding(crate::specs::Config::default_config))]
    fn default() -> MockDeviceConfig {
        MockDeviceConfig {
            chip_info: *b"rockusb-mock-v1!",
            flash_id: *b"MOCK!",
            capability: [0x09, 0, 0, 0, 0, 0, 0, 0],
            block_size_sectors: DEFAULT_BLOCK_SIZE_SECTORS,
            flash_info_extra: [0; 5],
        }
    }
}

impl MockDeviceConfig {
    // How many sectors the default's flash has.
    pub fn default_sectors() -> usize
        ensures { result ≡ default_sectors }
    {
        DEFAULT_SECTORS
    }

    // The reply to flash info, of a flash of so many sectors.
    pub fn flash_info(self, sectors: u32) -> [u8; 11]
        ensures { result ≡ flash_info self sectors }
    {
        let size = u32_to_le_bytes(sectors);
        let block = u16_to_le_bytes(self.block_size_sectors);
        let extra = self.flash_info_extra;
        [
            size[0], size[1], size[2], size[3], block[0], block[1], extra[0], extra[1], extra[2],
            extra[3], extra[4],
        ]
    }
}
