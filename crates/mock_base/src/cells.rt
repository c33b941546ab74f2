// Which variety of flash a stand-in device has.
#[derive(Clone, Copy, Debug, PartialEq, Eq)]
pub enum Variety {
    // the Rust's: a write replaces what stood there
    First,
    // a write clears bits alone, and whole blocks are erased
    Nor,
}
