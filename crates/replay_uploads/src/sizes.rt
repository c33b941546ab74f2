// The sizes of a cut's parts, as they stand in the line.
ghost use Rattle.std.specs.Iterator.{at_most};

use replay_lines::tokens::Tokens;

// the most of a part's size: the language's longest image
const PART: usize = 16777216;

// no line has more sizes
const MOST: usize = 2047;

// The sizes of a pass that are still to come.
#[derive(Clone, Copy)]
pub(crate) struct Sizes<'a> {
    tokens: Tokens<'a>,
    left: usize,
}

impl Iterator for Sizes<'_> {
    type Item = usize;

    ghost remaining = { λ s. at_most s.left };

    fn next(&mut self) -> Option<usize> {
        self.left = self.left.checked_sub(1)?;
        self.tokens.at_most(PART)
    }
}

// K P1 .. PK, of which one is above 0.
pub(crate) fn read_sizes<'a>(tokens: &mut Tokens<'a>) -> Option<Sizes<'a>> {
    let left = tokens.at_most(MOST)?;
    let sizes = Sizes {
        tokens: *tokens,
        left,
    };
    let mut largest = 0;
    for _ in 0..left {
        largest = tokens.at_most(PART)?.max(largest);
    }
    if largest > 0 { Some(sizes) } else { None }
}
