// A whole loader file examined by one call.
ghost use Rattle.std.specs.Prelude.{◌≡◌};
ghost use Rattle.loader_records.specs.Records.{no_header, read_header};
ghost use Rattle.loader_records.specs.Refusals.{value_in};
ghost use Rattle.loader_walk.specs.Walking.{examined, ExamineMeets};
ghost use Rattle.loader_walk.specs.Code.{header_counts};

use crate::walk::Walk;
use loader_records::answer::RkBootError;
use loader_records::header::RkBootHeader;

// How many entries each list has.
#[derive(Clone, Copy, Debug, PartialEq, Eq)]
pub struct EntryCounts {
    pub entry_471: u8,
    pub entry_472: u8,
    pub entry_loader: u8,
}

#[derive(Clone, Copy, Debug, PartialEq, Eq)]
pub struct Examined {
    pub answer: Result<EntryCounts, RkBootError>,
    // the four bytes of an unknown tag, zeros otherwise
    pub unknown_tag: [u8; 4],
}

// The counts that the header has.
fn counts_of(file: &[u8]) -> EntryCounts
    ensures { result ≡ header_counts (value_in no_header (read_header file.now)) }
{
    let header = RkBootHeader::from_bytes(file).header;
    EntryCounts {
        entry_471: header.entry_471.count,
        entry_472: header.entry_472.count,
        entry_loader: header.entry_loader.count,
    }
}

// Every entry of every list looked at.
pub fn examine(file: &[u8]) -> Examined
    ensures { ExamineMeets result (examined file.now) }
{
    let mut walk = Walk::new();
    loop {
        let step = walk.step(file);
        let unknown_tag = step.unknown_tag;
        match step.answer {
            Ok(Some(_)) => walk = step.walk,
            Ok(None) => {
                return Examined {
                    answer: Ok(counts_of(file)),
                    unknown_tag,
                };
            }
            Err(error) => {
                return Examined {
                    answer: Err(error),
                    unknown_tag,
                };
            }
        }
    }
}
