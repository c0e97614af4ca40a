// The readers of tokens, in the order of the Rust. Each takes the text and the place behind what was read.
ghost use Rattle.std.specs.Prelude.{◌≡◌, ℕ, Bool};
ghost use Rattle.token.specs.Read.{read_token, read_pair, read_single, read_long, read_other, starts_number, read_after_minus, read_at_directive, read_directive, read_import, skip_one, read_identifier, class_end, read_string, read_quoted};

use base::refusal::{AFTER_AT, AFTER_MINUS, IMPORT_STRING, OPEN_STRING, SYMBOL};
use base::{Range, part, same_bytes};
use cursor::{Cursor, can_be_in_at_directive, can_continue_identifier, can_start_identifier};
use space::is_white_space;
use token_kind::signs::{get_one_char_simple_token, get_two_char_simple_token};
use token_kind::{LexerError, Reading, Token, lexer_error};
use token_number::read_number;
use token_zoom::{read_color, read_zoom_range};

// The token that the character ch at the place idx begins; c is behind it.
#[tactic(auto, unfolding(crate::specs::Read::read_token, base::specs::Option::on_option))]
pub fn read_token(s: &[u8], idx: usize, ch: u32, c: Cursor) -> Reading
    ensures { result ≡ read_token s.now idx ch c }
{
    match read_pair(s, ch, c) {
        None => read_single(s, idx, ch, c),
        Some((token, d)) => Ok((token, d)),
    }
}

// The sign of two letters that ch begins.
#[tactic(auto, unfolding(crate::specs::Read::read_pair, base::specs::Option::on_option, base::specs::Option::on_result))]
fn read_pair(s: &[u8], ch: u32, c: Cursor) -> Option<(Token, Cursor)>
    ensures { result ≡ read_pair s.now ch c }
{
    let (next_ch, d) = c.next_char(s).ok()?;
    let token = get_two_char_simple_token(ch, next_ch)?;
    Some((token, d))
}

// The same, of a character that begins no sign of two letters.
#[tactic(auto, unfolding(crate::specs::Read::read_single, base::specs::Option::on_option))]
fn read_single(s: &[u8], idx: usize, ch: u32, c: Cursor) -> Reading
    ensures { result ≡ read_single s.now idx ch c }
{
    match get_one_char_simple_token(ch) {
        None => read_long(s, idx, ch, c),
        Some(token) => Ok((token, c)),
    }
}

// The same, of a character that is no sign.
#[tactic(auto, unfolding(crate::specs::Read::read_long, base::specs::Choice::pick))]
fn read_long(s: &[u8], idx: usize, ch: u32, c: Cursor) -> Reading
    ensures { result ≡ read_long s.now idx ch c }
{
    match ch {
        64 => read_at_directive(s, c),
        42 => Ok((
            Token::Identifier(Range {
                from: idx,
                to: c.at,
            }),
            c,
        )),
        _ if can_start_identifier(ch) => read_identifier(s, idx, c),
        34 => read_string(s, c),
        _ if starts_number(ch) => read_number(s, ch, c),
        _ => read_other(s, idx, ch, c),
    }
}

#[tactic(auto, unfolding(crate::specs::Read::starts_number, base::specs::Choice::pick))]
fn starts_number(ch: u32) -> bool
    ensures { result ≡ starts_number ch }
{
    matches!(ch, 43 | 46 | 48..=57)
}

#[tactic(auto, unfolding(base::specs::Choice::pick, crate::specs::Read::read_other))]
fn read_other(s: &[u8], idx: usize, ch: u32, c: Cursor) -> Reading
    ensures { result ≡ read_other s.now idx ch c }
{
    match ch {
        45 => read_after_minus(s, idx, c),
        124 => read_zoom_range(s, c),
        35 => read_color(s, c),
        _ => Err(lexer_error(SYMBOL, c)),
    }
}

#[tactic(auto, unfolding(crate::specs::Read::read_after_minus, base::specs::Option::on_result, base::specs::Choice::pick))]
fn read_after_minus(s: &[u8], idx: usize, c: Cursor) -> Reading
    ensures { result ≡ read_after_minus s.now idx c }
{
    match c.next_char(s) {
        Ok((48..=57, _)) => read_number(s, 45, c),
        Ok((ch, _)) if can_continue_identifier(ch) => read_identifier(s, idx, c),
        _ => Err(lexer_error(AFTER_MINUS, c)),
    }
}

#[tactic(auto, unfolding(crate::specs::Read::read_at_directive, base::specs::Option::on_result, base::specs::Choice::pick))]
fn read_at_directive(s: &[u8], c: Cursor) -> Reading
    ensures { result ≡ read_at_directive s.now c }
{
    match c.next_char(s) {
        Ok((ch, d)) if can_be_in_at_directive(ch) => {
            read_directive(s, c.at, class_end(s, d, can_be_in_at_directive))
        }
        Ok((_, d)) | Err(d) => Err(lexer_error(AFTER_AT, d)),
    }
}

// What the word from a place up to c stands for.
#[tactic(auto, unfolding(base::specs::Choice::pick, crate::specs::Read::read_directive))]
fn read_directive(s: &[u8], from: usize, c: Cursor) -> Reading
    ensures { result ≡ read_directive s.now from c }
{
    let to = c.at;
    if same_bytes(part(s, Range { from, to }), b"import") {
        return read_import(s, skip_one(s, 40, c));
    }
    Ok((Token::ColorRef(Range { from, to }), c))
}

// Behind a blank or a bracket, if one stands here.
#[tactic(auto, unfolding(crate::specs::Read::skip_one, base::specs::Option::on_result, base::specs::Choice::pick))]
fn skip_one(s: &[u8], bracket: u32, c: Cursor) -> Cursor
    ensures { result ≡ skip_one s.now bracket c }
{
    match c.next_char(s) {
        Ok((ch, d)) if is_white_space(ch) || ch == bracket => d,
        _ => c,
    }
}

// The string of an import, and at most one blank or bracket behind it.
#[tactic(auto, unfolding(crate::specs::Read::read_import, base::specs::Option::on_result, base::specs::Choice::pick))]
fn read_import(s: &[u8], c: Cursor) -> Reading
    ensures { result ≡ read_import s.now c }
{
    match c.next_char(s) {
        Ok((34, d)) => {
            let (text, e) = read_quoted(s, d)?;
            Ok((Token::Import(text), skip_one(s, 41, e)))
        }
        Ok((_, d)) | Err(d) => Err(lexer_error(IMPORT_STRING, d)),
    }
}

#[tactic(auto, unfolding(crate::specs::Read::identifier_end, crate::specs::Read::read_identifier))]
fn read_identifier(s: &[u8], from: usize, c: Cursor) -> Reading
    ensures { result ≡ read_identifier s.now from c }
{
    let end = class_end(s, c, can_continue_identifier);
    let to = end.at;
    Ok((Token::Identifier(Range { from, to }), end))
}

// Behind the characters of a class that stand at c.
fn class_end<F: Fn(u32) -> bool>(s: &[u8], c: Cursor, goes_on: F) -> Cursor
    requires { (ch : ℕ) → F.pre goes_on ch }
    ensures { (p : ℕ → Bool) → ((ch : ℕ) (r : Bool) → F.post goes_on ch r → r ≡ p ch) → result ≡ class_end p s.now c }
{
    let mut d = c;
    while let Ok((ch, e)) = d.next_char(s) {
        if !goes_on(ch) {
            break;
        }
        d = e;
    }
    d
}

#[tactic(auto, unfolding(crate::specs::Read::read_string, base::specs::Option::on_result))]
fn read_string(s: &[u8], c: Cursor) -> Reading
    ensures { result ≡ read_string s.now c }
{
    let (text, d) = read_quoted(s, c)?;
    Ok((Token::Text(text), d))
}

// The inside of the string whose first quote was read.
fn read_quoted(s: &[u8], c: Cursor) -> Result<(Range, Cursor), LexerError>
    ensures { result ≡ read_quoted s.now c }
{
    let mut d = c;
    loop {
        d = match d.next_char(s) {
            Err(e) => return Err(lexer_error(OPEN_STRING, e)),
            Ok((34, e)) => return Ok((
                Range {
                    from: c.at,
                    to: d.at,
                },
                e,
            )),
            Ok((_, e)) => e,
        };
    }
}
