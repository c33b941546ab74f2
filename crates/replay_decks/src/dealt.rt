// The block of a `blk` line. What a program answers to a line that is not of the language stays as it is: this one deals what can be read there, so
// that nothing here is refused.
use replay_lines::buffer::first_mut;
use replay_lines::data::Form;
use replay_lines::tokens::Tokens;

pub(crate) const BLOCK: usize = 512;

// Stays by hand: a digit that leads past `most` begins anew.
fn with_digit(number: u32, digit: u8, most: u32) -> u32 {
    number
        .checked_mul(10)
        .and_then(|tens| tens.checked_add(u32::from(digit.wrapping_sub(b'0'))))
        .filter(|next| *next <= most)
        .unwrap_or(0)
}

// A number of at most `most`: a digit that leads past it begins anew behind it, and no number is 0.
fn number(tokens: &mut Tokens, most: u32) -> u32 {
    let _ = tokens.gap();
    match tokens.digits() {
        [b'0', _, ..] => 0,
        digits => digits
            .iter()
            .fold(0, |number, digit| with_digit(number, *digit, most)),
    }
}

fn grown(tokens: &mut Tokens, form: Form, into: &mut [u8]) -> usize {
    let len = number(tokens, BLOCK as u32) as usize;
    let most = if form == Form::Seeded { u32::MAX } else { 255 };
    let given = number(tokens, most);
    form.grow(first_mut(len, into), given);
    len
}

// The block, to the front of a lent buffer: how many bytes it has, with those that there is no room for.
pub(crate) fn block_bytes(mut tokens: Tokens, into: &mut [u8]) -> usize {
    let _ = tokens.gap();
    let Some(letter) = tokens.byte() else {
        return 0;
    };
    if letter == b'x' {
        return tokens.spelled(into);
    }
    match Form::of(letter) {
        Some(form) => grown(&mut tokens, form, into),
        None => 0,
    }
}
