// The entries of a loader file: walked one by one, examined by one call, and the data of one as a part of the file.

#![tactic(auto)]

pub mod walk;
pub mod whole;

ghost use Rattle.std.specs.Prelude.{◌≡◌};
ghost use Rattle.loader_walk.specs.Entries.{data_of};

// An entry's data, by its place and length: a part of the file, or nothing where the file does not have all of it.
pub fn data_of(file: &[u8], place: usize, length: usize) -> &[u8]
    ensures { result.now ≡ data_of file.now place length }
{
    if file.len() < place || file.len() - place < length {
        return &file[..0];
    }
    &file[place..place + length]
}
