// What the loader reads from: the tokens of a text of the bundle.
#![tactic(auto)]

use base::Range;

pub mod tokens;

// The text that is read: its number in the bundle, and where it stands there.
#[derive(Clone, Copy)]
pub struct Source {
    pub number: usize,
    pub range: Range,
}

// A place of a text, by the text's number.
#[derive(Clone, Copy)]
pub struct Place {
    pub text: usize,
    pub line: usize,
    pub character: usize,
}

// A text of a bundle, which is read.
#[derive(Clone, Copy)]
pub struct Text<'a> {
    pub bundle: &'a [u8],
    pub source: Source,
}
