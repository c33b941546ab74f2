// What is kept of a thing from line to line.

// A record, and how many bytes it has of the lent buffer beside it.
// Stays a length beside a buffer: nothing here allocates.
#[derive(Clone, Copy)]
pub struct Held<R> {
    pub record: R,
    pub length: usize,
}
