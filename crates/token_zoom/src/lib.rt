// Colours and zoom ranges.
#![tactic(auto)]

ghost use Rattle.std.specs.Prelude.{◌≡◌};
ghost use Rattle.token_zoom.specs.Zoom.{read_color, read_hex_digits, hex_added, six_digits, three_digits, read_zoom_range, read_levels, zoom_range, ranged, read_hyphen, read_zoom_level, read_digit};

use base::refusal::{COLOR, EMPTY_ZOOM_RANGE, Z_WANTED};
use color::Color;
use cursor::{Cursor, bump, to_digit};
use token_kind::{Reading, Token, lexer_error};

// The hexadecimal digits so far: how many, and the last of them as a number.
#[derive(Clone, Copy)]
pub struct Hex {
    pub count: usize,
    pub value: u32,
    pub end: Cursor,
}

#[tactic(auto, unfolding(crate::specs::Zoom::read_color, base::specs::Choice::pick))]
pub fn read_color(s: &[u8], c: Cursor) -> Reading
    ensures { result ≡ read_color s.now c }
{
    let hex = read_hex_digits(s, c);
    match hex.count {
        6 => Ok((Token::Color(six_digits(hex.value)), hex.end)),
        3 => Ok((Token::Color(three_digits(hex.value)), hex.end)),
        _ => Err(lexer_error(COLOR, hex.end)),
    }
}

fn read_hex_digits(s: &[u8], c: Cursor) -> Hex
    ensures { result ≡ read_hex_digits s.now c }
{
    let mut d = c;
    let mut count = 0;
    let mut value = 0;
    while let Some((digit, e)) = read_digit(s, 16, d) {
        count = bump(count);
        value = hex_added(value, digit);
        d = e;
    }
    Hex {
        count,
        value,
        end: d,
    }
}

// One digit more behind the last six.
#[tactic(auto, unfolding(crate::specs::Zoom::hex_added))]
fn hex_added(value: u32, digit: u8) -> u32
    ensures { result ≡ hex_added value digit }
{
    value % 0x100_0000 * 16 + u32::from(digit)
}

// Of the digits abcdef: ab, cd, ef.
#[tactic(auto, unfolding(crate::specs::Zoom::six_digits))]
fn six_digits(value: u32) -> Color
    ensures { result ≡ six_digits value }
{
    let [_, r, g, b] = value.to_be_bytes();
    Color { r, g, b }
}

// Of the digits abc: aa, bb, cc.
#[tactic(auto, unfolding(crate::specs::Zoom::three_digits))]
fn three_digits(value: u32) -> Color
    ensures { result ≡ three_digits value }
{
    Color {
        r: (value / 256 % 16 * 17) as u8,
        g: (value / 16 % 16 * 17) as u8,
        b: (value % 16 * 17) as u8,
    }
}

#[tactic(auto, unfolding(crate::specs::Zoom::read_zoom_range, base::specs::Option::on_result, base::specs::Choice::pick))]
pub fn read_zoom_range(s: &[u8], c: Cursor) -> Reading
    ensures { result ≡ read_zoom_range s.now c }
{
    match c.next_char(s) {
        Ok((122, d)) => read_levels(s, d),
        Ok((_, d)) | Err(d) => Err(lexer_error(Z_WANTED, d)),
    }
}

// The levels behind |z. A second one is read without a hyphen too, and then does not count.
#[tactic(auto, unfolding(crate::specs::Zoom::read_levels))]
fn read_levels(s: &[u8], c: Cursor) -> Reading
    ensures { result ≡ read_levels s.now c }
{
    let (min, d) = read_zoom_level(s, c);
    let (had_hyphen, e) = read_hyphen(s, d);
    let (max, end) = read_zoom_level(s, e);
    zoom_range(min, had_hyphen, max, end)
}

#[tactic(auto, unfolding(crate::specs::Zoom::zoom_range, base::specs::Choice::pick))]
fn zoom_range(min: Option<u8>, had: bool, max: Option<u8>, end: Cursor) -> Reading
    ensures { result ≡ zoom_range min had max end }
{
    if min.is_none() && max.is_none() {
        return Err(lexer_error(EMPTY_ZOOM_RANGE, end));
    }
    ranged(min, had, max, end)
}

#[tactic(auto, unfolding(crate::specs::Zoom::ranged, base::specs::Choice::pick))]
fn ranged(min: Option<u8>, had: bool, max: Option<u8>, end: Cursor) -> Reading
    ensures { result ≡ ranged min had max end }
{
    let upper = if had { max } else { min };
    Ok((Token::ZoomRange(min, upper), end))
}

#[tactic(auto, unfolding(crate::specs::Zoom::read_hyphen, base::specs::Option::on_result, base::specs::Choice::pick))]
fn read_hyphen(s: &[u8], c: Cursor) -> (bool, Cursor)
    ensures { result ≡ read_hyphen s.now c }
{
    match c.next_char(s) {
        Ok((45, d)) => (true, d),
        _ => (false, c),
    }
}

// One or two digits.
fn read_zoom_level(s: &[u8], c: Cursor) -> (Option<u8>, Cursor)
    ensures { result ≡ read_zoom_level s.now c }
{
    match read_digit(s, 10, c) {
        None => (None, c),
        Some((num1, d)) => match read_digit(s, 10, d) {
            None => (Some(num1), d),
            Some((num2, e)) => (Some(10 * num1 + num2), e),
        },
    }
}

#[tactic(auto, unfolding(crate::specs::Zoom::read_digit, base::specs::Option::on_option, base::specs::Option::on_result))]
fn read_digit(s: &[u8], radix: u8, c: Cursor) -> Option<(u8, Cursor)>
    ensures { result ≡ read_digit s.now radix c }
{
    let (ch, d) = c.next_char(s).ok()?;
    let digit = to_digit(ch, radix)?;
    Some((digit, d))
}
