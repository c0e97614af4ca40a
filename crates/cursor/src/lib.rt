// The cursor of a text and what the tokenizer builds on: the next character, classes of characters, blanks, digits.
#![tactic(auto)]

ghost use Rattle.std.specs.Prelude.{◌≡◌};
ghost use Rattle.utf8.specs.Utf8.{char_at};
ghost use Rattle.cursor.specs.Cursor.{start, bump, passed, next_char};
ghost use Rattle.cursor.specs.Class.{can_be_in_at_directive, can_start_identifier, can_continue_identifier, digit_value, to_digit};

use utf8::{Char, char_at};

pub mod blank;
pub mod number;

// The place behind what was read, the line and character of the last character read, and whether that ended a line.
// specs/Position.antt has what line and character mean; proofs/Positions.antt proves it of every place that reading reaches.
#[derive(Clone, Copy)]
pub struct Cursor {
    pub at: usize,
    pub line: usize,
    pub character: usize,
    pub newline: bool,
}

// The end, or a character that is no blank: its place, itself, the place behind it.
#[derive(Clone, Copy)]
pub enum Significant {
    Ended(Cursor),
    Found(usize, u32, Cursor),
}

impl Cursor {
    pub fn new() -> Self
        ensures { result ≡ start }
    {
        Self {
            at: 0,
            line: 1,
            character: 0,
            newline: false,
        }
    }

    // The next character and the place behind it. The error is the end, with a character more.
    // Bytes that are no character count as the end: texts are checked to be UTF-8 before.
    // There is no peek_char: a caller that only looks keeps its own cursor.
    pub fn next_char(self, s: &[u8]) -> Result<(u32, Cursor), Cursor>
        ensures { result ≡ next_char s.now self }
    {
        let at = self.at;
        match peek(s, at) {
            Char::Bad | Char::End => Err(self.passed(at, false)),
            Char::Code(k, w) => Ok((k, self.passed(at + w, k == 10))),
        }
    }

    // One character on: the character after a newline begins a line.
    #[tactic(auto, unfolding(base::specs::Choice::pick, crate::specs::Cursor::passed))]
    fn passed(self, to: usize, newline: bool) -> Self
        ensures { result ≡ passed self to newline }
    {
        let (line, character) = if self.newline {
            (bump(self.line), 1)
        } else {
            (self.line, bump(self.character))
        };
        Cursor {
            at: to,
            line,
            character,
            newline,
        }
    }
}

// The character at a place, by char_at, but for the bytes that are characters. The end goes through char_at too: called from
// two places it stays a call, and this function is small enough to become part of each loop.
fn peek(s: &[u8], at: usize) -> Char
    ensures { result ≡ char_at s.now at }
{
    if s.len() <= at {
        return char_at(s, at);
    }
    let b = s[at];
    if b <= 0x7F {
        return Char::Code(u32::from(b), 1);
    }
    char_at(s, at)
}

// One more. A count stays at the largest number, which no text reaches.
pub fn bump(n: usize) -> usize
    ensures { result ≡ bump n }
{
    n.saturating_add(1)
}

#[tactic(auto, unfolding(crate::specs::Class::can_be_in_at_directive, base::specs::Choice::pick))]
pub fn can_be_in_at_directive(k: u32) -> bool
    ensures { result ≡ can_be_in_at_directive k }
{
    matches!(k, 95 | 97..=122 | 48..=57)
}

#[tactic(auto, unfolding(crate::specs::Class::can_start_identifier, base::specs::Choice::pick))]
pub fn can_start_identifier(k: u32) -> bool
    ensures { result ≡ can_start_identifier k }
{
    matches!(k, 95 | 97..=122 | 65..=90)
}

// - . / and 0 to 9 stand in a row.
#[tactic(auto, unfolding(crate::specs::Class::can_continue_identifier, base::specs::Choice::pick))]
pub fn can_continue_identifier(k: u32) -> bool
    ensures { result ≡ can_continue_identifier k }
{
    matches!(k, 45..=57) || can_start_identifier(k)
}

// Rust's char::to_digit, for a radix up to 36.
#[tactic(auto, unfolding(base::specs::Choice::pick, crate::specs::Class::to_digit))]
pub fn to_digit(k: u32, radix: u8) -> Option<u8>
    ensures { result ≡ to_digit k radix }
{
    let v = digit_value(k);
    (v < radix).then_some(v)
}

// The value of a digit or letter, and 255 for any other character.
#[tactic(auto, unfolding(crate::specs::Class::digit_value, base::specs::Choice::pick))]
fn digit_value(k: u32) -> u8
    ensures { result ≡ digit_value k }
{
    match k {
        48..=57 => (k - 48) as u8,
        65..=90 => (k - 55) as u8,
        97..=122 => (k - 87) as u8,
        _ => 255,
    }
}
