// One transfer of an upload, put together in the output: what is left of the image at its front, then the pad, the check or the last zero.

#![tactic(auto)]

ghost use Rattle.std.specs.Prelude.{◌≡◌, [], ◌∷◌, ◌++◌, ◌+◌, ◌≤◌, length, take};
ghost use Rattle.maskrom_transfer.specs.Moves.{block_size, check_bytes, writing, moves_at};
ghost use Rattle.maskrom_transfer.specs.Code.{PutMeets, SendMeets};
ghost use Rattle.promise.specs.Does.{Meets};
ghost use Rattle.maskrom_transfer.specs.Sending.{sent_told, send_step};

use rule_number::OutputTooShort;

const BLOCK: usize = 4096;

// Where an upload stands: the image goes on, its check is left, the last zero is left, nothing is left.
#[derive(Clone, Copy, Debug, PartialEq, Eq)]
pub enum MaskRomSteps {
    Writing,
    Check,
    Dummy,
    Done,
}

// What was put into the output, the check behind it, and where the upload then stands.
#[derive(Clone, Copy, Debug, PartialEq, Eq)]
pub struct Moved {
    pub size: usize,
    pub crc: u16,
    pub steps: MaskRomSteps,
}

// The bytes go to the front of the output.
// Stay parameters, here and below: a value and what is lent with it.
fn put(bytes: &[u8], out: &mut [u8]) -> usize
    requires { length bytes.now ≤ length out.old }
    ensures { PutMeets result bytes.now out.old out.new }
{
    let n = bytes.len();
    out[..n].copy_from_slice(bytes);
    n
}

// The same with a zero behind them.
fn with_zero(bytes: &[u8], out: &mut [u8]) -> usize
    requires { length bytes.now + 1 ≤ length out.old }
    ensures { PutMeets result (bytes.now ++ (0 ∷ [])) out.old out.new }
{
    let n = put(bytes, out);
    out[n] = 0;
    n + 1
}

// The same with the check behind them.
fn with_check(bytes: &[u8], check: u16, out: &mut [u8]) -> usize
    requires { length bytes.now + 2 ≤ length out.old }
    ensures { PutMeets result (bytes.now ++ check_bytes check) out.old out.new }
{
    let n = put(bytes, out);
    [out[n], out[n + 1]] = check.to_be_bytes();
    n + 2
}

// The bytes are the next of the image, and the check covers them.
fn write_on(crc: u16, bytes: &[u8], out: &mut [u8]) -> Moved
    requires { (length bytes.now ≤ 4096) × (4096 ≤ length out.old) }
    ensures { SendMeets result out.old out.new (writing crc bytes.now) }
{
    match bytes.len() {
        4096 => Moved {
            size: put(bytes, out),
            crc,
            steps: MaskRomSteps::Writing,
        },
        4095 => Moved {
            size: with_zero(bytes, out),
            crc: crc::update_by_table(crc, &[0]),
            steps: MaskRomSteps::Check,
        },
        4094 => Moved {
            size: with_check(bytes, crc, out),
            crc,
            steps: MaskRomSteps::Dummy,
        },
        _ => Moved {
            size: with_check(bytes, crc, out),
            crc,
            steps: MaskRomSteps::Done,
        },
    }
}

fn send_at(steps: MaskRomSteps, crc: u16, bytes: &[u8], out: &mut [u8]) -> Moved
    requires { (length bytes.now ≤ 4096) × (4096 ≤ length out.old) }
    ensures { SendMeets result out.old out.new (moves_at steps crc bytes.now) }
{
    match steps {
        MaskRomSteps::Writing => write_on(crc, bytes, out),
        MaskRomSteps::Check => Moved {
            size: with_check(&[], crc, out),
            crc,
            steps: MaskRomSteps::Done,
        },
        MaskRomSteps::Dummy => Moved {
            size: with_zero(&[], out),
            crc,
            steps: MaskRomSteps::Done,
        },
        MaskRomSteps::Done => Moved {
            size: 0,
            crc,
            steps: MaskRomSteps::Done,
        },
    }
}

// One step of an image: the first 4,096 of the bytes are the next of it, all that is left where they are fewer, and the check covers the image to
// their end. They are copied straight into the output, and the transfer is put together there.
#[tactic(auto, unfolding(crate::specs::Sending::sent_told, crate::specs::Sending::send_step, promise::specs::Rules::or_refuse, promise::specs::Does::said, promise::specs::Does::sent, promise::specs::Does::after))]
pub fn send_lent(
    steps: MaskRomSteps,
    crc: u16,
    bytes: &[u8],
    out: &mut [u8],
) -> Result<Moved, OutputTooShort>
    ensures { Meets (sent_told result) tt out.old out.new tt (send_step steps crc (take block_size bytes.now) (length out.old)) }
{
    if out.len() < BLOCK {
        return Err(OutputTooShort);
    }
    let left = bytes.len().min(BLOCK);
    Ok(send_at(steps, crc, &bytes[..left], out))
}

// The same, of the first n bytes of a block.
// Stays beside `send_lent`: its contract is promised (docs/PROMISES.md), of a block by value.
pub fn send(
    steps: MaskRomSteps,
    crc: u16,
    block: [u8; 4096],
    n: usize,
    out: &mut [u8],
) -> Result<Moved, OutputTooShort>
    ensures { Meets (sent_told result) tt out.old out.new tt (send_step steps crc (take n block) (length out.old)) }
{
    let left = n.min(BLOCK);
    send_lent(steps, crc, &block[..left], out)
}
