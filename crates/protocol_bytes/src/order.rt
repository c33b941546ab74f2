// A number from and to its bytes, after the Rust's from_le_bytes and to_be_bytes.
// Each calls the library's method of that name: its contract says the same in the words of `Bytes`, in which the blocks are stated.
// Stay: at the library's own method each of their callers would owe the lemma that is named once here.
ghost use Rattle.std.specs.Prelude.{◌≡◌};
ghost use Rattle.promise.specs.Bytes.{low_first, high_first, from_low, from_high};

#[tactic(auto, using(crate::proofs::Library::low_4))]
pub fn u32_from_le_bytes(b: [u8; 4]) -> u32
    ensures { result ≡ from_low b }
{
    u32::from_le_bytes(b)
}

#[tactic(auto, using(crate::proofs::Library::high_4))]
pub fn u32_from_be_bytes(b: [u8; 4]) -> u32
    ensures { result ≡ from_high b }
{
    u32::from_be_bytes(b)
}

#[tactic(auto, using(crate::proofs::Library::low_2))]
pub fn u16_from_le_bytes(b: [u8; 2]) -> u16
    ensures { result ≡ from_low b }
{
    u16::from_le_bytes(b)
}

#[tactic(auto, using(crate::proofs::Library::high_2))]
pub fn u16_from_be_bytes(b: [u8; 2]) -> u16
    ensures { result ≡ from_high b }
{
    u16::from_be_bytes(b)
}

#[tactic(auto, using(crate::proofs::Library::to_low_4))]
pub fn u32_to_le_bytes(v: u32) -> [u8; 4]
    ensures { result ≡ low_first 4 v }
{
    v.to_le_bytes()
}

#[tactic(auto, using(crate::proofs::Library::to_high_4))]
pub fn u32_to_be_bytes(v: u32) -> [u8; 4]
    ensures { result ≡ high_first 4 v }
{
    v.to_be_bytes()
}

#[tactic(auto, using(crate::proofs::Library::to_low_2))]
pub fn u16_to_le_bytes(v: u16) -> [u8; 2]
    ensures { result ≡ low_first 2 v }
{
    v.to_le_bytes()
}

#[tactic(auto, using(crate::proofs::Library::to_high_2))]
pub fn u16_to_be_bytes(v: u16) -> [u8; 2]
    ensures { result ≡ high_first 2 v }
{
    v.to_be_bytes()
}
