// What the programs over decks read and write: chunks of whole blocks in, bytes out, and a line to standard error.
//
// No contract can say which bytes are read or written. These say how many, and that fewer than asked are the last.

#![tactic(auto)]

pub mod complaint;
pub mod input;
pub mod output;

ghost use Rattle.std.specs.Prelude.{min, ◌≡◌, length};
ghost use Rattle.deck_io.specs.Counts.{IsPrefixLen};

// How often a read or a write is made at most, where a signal interrupts it.
pub(crate) const MOST_TRIES: usize = 1000;

// `n`, or the slice's length where that is less.
pub fn within(n: usize, s: &[u8]) -> usize
    ensures prefix_len { IsPrefixLen result s.now }
    ensures value { result ≡ min n (length s.now) }
{
    n.min(s.len())
}
