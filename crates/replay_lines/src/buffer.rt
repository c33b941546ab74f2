// Parts of lent buffers: what there is not is left out, so that no caller owes a bound.
ghost use Rattle.std.specs.Prelude.{◌≤◌, length};

// The first `n` bytes.
pub fn first(n: usize, s: &[u8]) -> &[u8] {
    &s[..n.min(s.len())]
}

pub fn first_mut(n: usize, s: &mut [u8]) -> &mut [u8] {
    let n = n.min(s.len());
    &mut s[..n]
}

// What stands from `from` on.
pub fn behind(from: usize, s: &[u8]) -> &[u8] {
    &s[from.min(s.len())..]
}

pub fn behind_mut(from: usize, s: &mut [u8]) -> &mut [u8] {
    let from = from.min(s.len());
    &mut s[from..]
}

// As many bytes as both have: how many they are.
pub fn copy(from: &[u8], into: &mut [u8]) -> usize
    ensures { result ≤ length from.now }
{
    let n = from.len().min(into.len());
    into[..n].copy_from_slice(&from[..n]);
    n
}
