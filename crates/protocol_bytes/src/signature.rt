// The four bytes that a block starts with, and what reading a block answers.
ghost use Rattle.std.specs.Prelude.{◌≡◌, take};
ghost use Rattle.protocol_bytes.specs.Signature.{same, parsed};

// What reading a block answers: the block, or why the bytes are none. The four bytes of an invalid signature stand beside it, zeros otherwise.
// Stays a pair: arrays stand beside an enum, never in it (document 01).
#[derive(Clone, Copy)]
pub struct Parse<T, E> {
    pub answer: Result<T, E>,
    pub signature: [u8; 4],
}

// An answer that has no signature to tell.
pub fn parsed<T, E>(answer: Result<T, E>) -> Parse<T, E>
    ensures { result ≡ parsed answer }
{
    Parse {
        answer,
        signature: [0, 0, 0, 0],
    }
}

// Stays: at the library's own method each of its callers would owe the lemma that is named once here.
#[tactic(auto, using(crate::proofs::Library::begins))]
pub fn starts_with(bytes: &[u8], signature: [u8; 4]) -> bool
    ensures { result ≡ same (take 4 bytes.now) signature }
{
    bytes.starts_with(&signature)
}
