// The time of a release, 7 bytes.
ghost use Rattle.std.specs.Prelude.{◌≡◌};
ghost use Rattle.loader_records.specs.Records.{time_of, no_time, read_time};
ghost use Rattle.loader_records.specs.Refusals.{no_tag, ReadMeets};

use crate::answer::RkBootError;
use protocol_bytes::order::u16_from_le_bytes;

// Total size of a time.
pub const RK_TIME_BYTES: usize = 7;

#[derive(Clone, Copy, Debug, PartialEq, Eq)]
pub struct RkTime {
    pub year: u16,
    pub month: u8,
    pub day: u8,
    pub hour: u8,
    pub minute: u8,
    pub second: u8,
}

// Stays a record beside its answer: `ReadMeets` tells zeros at a refusal.
#[derive(Clone, Copy, Debug, PartialEq, Eq)]
pub struct RkTimeRead {
    pub answer: Result<(), RkBootError>,
    pub time: RkTime,
}

pub(crate) fn time_of(b: &[u8; 7]) -> RkTime
    ensures { result ≡ time_of b.now }
{
    RkTime {
        year: u16_from_le_bytes([b[0], b[1]]),
        month: b[2],
        day: b[3],
        hour: b[4],
        minute: b[5],
        second: b[6],
    }
}

impl RkTime {
    pub fn from_bytes(bytes: &[u8]) -> RkTimeRead
        ensures { ReadMeets result.answer result.time no_tag no_time (read_time bytes.now) }
    {
        let Some(b) = bytes.first_chunk::<RK_TIME_BYTES>() else {
            return RkTimeRead {
                answer: Err(RkBootError::TooShort(bytes.len())),
                time: time_of(&[0; 7]),
            };
        };
        RkTimeRead {
            answer: Ok(()),
            time: time_of(b),
        }
    }
}
