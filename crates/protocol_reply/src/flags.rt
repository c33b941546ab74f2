// What a device says that it can do: a flag is a bit of byte 0 or 1.
ghost use Rattle.std.specs.Prelude.{◌≡◌, ◌<◌};
ghost use Rattle.protocol_reply.specs.Flags.{flag_at, has_flag, direct_lba, vendor_storage, first4m_access, read_lba, read_com_log, read_idb_config, read_secure_mode, new_idb, switch_storage};

// in byte 0
const DIRECT_LBA: u8 = 0x01;

const VENDOR_STORAGE: u8 = 0x02;

const FIRST_4M_ACCESS: u8 = 0x04;

const READ_LBA: u8 = 0x08;

const READ_COM_LOG: u8 = 0x20;

const READ_IDB_CONFIG: u8 = 0x40;

const READ_SECURE_MODE: u8 = 0x80;
// in byte 1
const NEW_IDB: u8 = 0x01;

const SWITCH_STORAGE: u8 = 0x02;

#[derive(Clone, Copy)]
pub struct Capability(pub [u8; 8]);

impl Capability {
    pub fn from_bytes(data: [u8; 8]) -> Capability
        ensures { result.0 ≡ «data» }
    {
        Capability(data)
    }

    pub fn inner(self) -> [u8; 8]
        ensures { result ≡ self.0 }
    {
        self.0
    }

    fn check_flag(self, index: usize, bit: u8) -> bool
        requires { index < 8 }
        ensures { result ≡ has_flag (flag_at index bit) self.0 }
    {
        let b = self.0;
        b[index] & bit == bit
    }

    // Stay nine: the Rust's names, each with its constant.
    pub fn direct_lba(self) -> bool
        ensures { result ≡ has_flag direct_lba self.0 }
    {
        self.check_flag(0, DIRECT_LBA)
    }

    pub fn vendor_storage(self) -> bool
        ensures { result ≡ has_flag vendor_storage self.0 }
    {
        self.check_flag(0, VENDOR_STORAGE)
    }

    pub fn first_4m_access(self) -> bool
        ensures { result ≡ has_flag first4m_access self.0 }
    {
        self.check_flag(0, FIRST_4M_ACCESS)
    }

    pub fn read_lba(self) -> bool
        ensures { result ≡ has_flag read_lba self.0 }
    {
        self.check_flag(0, READ_LBA)
    }

    pub fn read_com_log(self) -> bool
        ensures { result ≡ has_flag read_com_log self.0 }
    {
        self.check_flag(0, READ_COM_LOG)
    }

    pub fn read_idb_config(self) -> bool
        ensures { result ≡ has_flag read_idb_config self.0 }
    {
        self.check_flag(0, READ_IDB_CONFIG)
    }

    pub fn read_secure_mode(self) -> bool
        ensures { result ≡ has_flag read_secure_mode self.0 }
    {
        self.check_flag(0, READ_SECURE_MODE)
    }

    pub fn new_idb(self) -> bool
        ensures { result ≡ has_flag new_idb self.0 }
    {
        self.check_flag(1, NEW_IDB)
    }

    pub fn switch_storage(self) -> bool
        ensures { result ≡ has_flag switch_storage self.0 }
    {
        self.check_flag(1, SWITCH_STORAGE)
    }
}
