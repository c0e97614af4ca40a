// Numbers.
#![tactic(auto)]

ghost use Rattle.std.specs.Prelude.{◌≡◌};
ghost use Rattle.token_number.specs.Number.{read_number, read_signed, read_unsigned, first_digit, finish_number, is_bare_dot};

use base::refusal::{NO_FRACTION, NO_NUMBER_AFTER_SIGN, NOTHING_AFTER_SIGN};
use cursor::number::{Digits, Sum, read_digits};
use cursor::{Cursor, to_digit};
use token_kind::{Reading, Token, lexer_error};

// The number whose first character is given; c is behind that.
#[tactic(auto, unfolding(base::specs::Choice::pick, crate::specs::Number::read_number))]
pub fn read_number(s: &[u8], first: u32, c: Cursor) -> Reading
    ensures { result ≡ read_number s.now first c }
{
    match first {
        45 => read_signed(s, true, c),
        43 => read_signed(s, false, c),
        _ => read_unsigned(s, false, first, c),
    }
}

fn read_signed(s: &[u8], minus: bool, c: Cursor) -> Reading
    ensures { result ≡ read_signed s.now minus c }
{
    let (ch, d) = c
        .next_char(s)
        .map_err(|d| lexer_error(NOTHING_AFTER_SIGN, d))?;
    read_unsigned(s, minus, ch, d)
}

// The number whose first digit or dot is ch; c is behind that.
#[tactic(auto, unfolding(base::specs::Choice::pick, crate::specs::Number::read_unsigned, base::specs::Option::on_option))]
fn read_unsigned(s: &[u8], minus: bool, ch: u32, c: Cursor) -> Reading
    ensures { result ≡ read_unsigned s.now minus ch c }
{
    match to_digit(ch, 10) {
        Some(digit) => finish_number(minus, read_digits(s, c, first_digit(digit, false))),
        None if ch == 46 => finish_number(minus, read_digits(s, c, first_digit(0, true))),
        None => Err(lexer_error(NO_NUMBER_AFTER_SIGN, c)),
    }
}

fn first_digit(digit: u8, dot: bool) -> Sum
    ensures { result ≡ first_digit digit dot }
{
    Sum {
        whole: f64::from(digit),
        fraction: 0.0,
        places: 0,
        dot,
    }
}

#[tactic(auto, unfolding(base::specs::Choice::pick, crate::specs::Number::finish_number))]
fn finish_number(minus: bool, digits: Digits) -> Reading
    ensures { result ≡ finish_number minus digits }
{
    let sum = digits.sum;
    let end = digits.end;
    if is_bare_dot(sum) {
        return Err(lexer_error(NO_FRACTION, end));
    }
    Ok((Token::Number(sum.value(minus)), end))
}

fn is_bare_dot(sum: Sum) -> bool
    ensures { result ≡ is_bare_dot sum }
{
    sum.dot && sum.places == 0
}
