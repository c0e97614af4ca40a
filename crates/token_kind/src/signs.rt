// Signs of two letters and of one.
ghost use Rattle.std.specs.Prelude.{◌≡◌};
ghost use Rattle.token_kind.specs.Signs.{is_pair, place_of_pair, sign_of_pair, get_two_char_simple_token, get_one_char_simple_token};

use crate::Token;

const TWO_LETTER: [[u8; 2]; 5] = [*b"!=", *b"<=", *b">=", *b"=~", *b"::"];

pub fn get_two_char_simple_token(fst: u32, snd: u32) -> Option<Token>
    ensures { result ≡ get_two_char_simple_token fst snd }
{
    sign_of_pair(place_of_pair(fst, snd)?)
}

// The place of the first pair in the table that is fst snd.
fn place_of_pair(fst: u32, snd: u32) -> Option<usize>
    ensures { result ≡ place_of_pair fst snd }
{
    TWO_LETTER.iter().position(|p| is_pair(*p, fst, snd))
}

#[tactic(auto, unfolding(crate::specs::Signs::is_pair, base::specs::Choice::pick))]
fn is_pair(p: [u8; 2], fst: u32, snd: u32) -> bool
    ensures { result ≡ is_pair fst snd p }
{
    u32::from(p[0]) == fst && u32::from(p[1]) == snd
}

#[tactic(auto, unfolding(crate::specs::Signs::sign_of_pair, base::specs::Choice::pick))]
fn sign_of_pair(i: usize) -> Option<Token>
    ensures { result ≡ sign_of_pair i }
{
    match i {
        0 => Some(Token::NotEqual),
        1 => Some(Token::LessOrEqual),
        2 => Some(Token::GreaterOrEqual),
        3 => Some(Token::RegexMatch),
        4 => Some(Token::DoubleColon),
        _ => None,
    }
}

#[tactic(auto, unfolding(base::specs::Choice::pick, crate::specs::Signs::first_letter, crate::specs::Signs::get_one_char_simple_token))]
pub fn get_one_char_simple_token(ch: u32) -> Option<Token>
    ensures { result ≡ get_one_char_simple_token ch }
{
    match ch {
        40 => Some(Token::LeftParen),
        41 => Some(Token::RightParen),
        91 => Some(Token::LeftBracket),
        93 => Some(Token::RightBracket),
        123 => Some(Token::LeftBrace),
        125 => Some(Token::RightBrace),
        61 => Some(Token::Equal),
        60 => Some(Token::Less),
        62 => Some(Token::Greater),
        33 => Some(Token::Bang),
        63 => Some(Token::QuestionMark),
        58 => Some(Token::Colon),
        59 => Some(Token::SemiColon),
        44 => Some(Token::Comma),
        _ => None,
    }
}
