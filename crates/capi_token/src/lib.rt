// The tokenizer for Rust and C: the answer goes as numbers into lent slices.
//
// mapcss_next_token(s, at, line, character, newline, out, number) is one step of the tokenizer on the text s,
// from the cursor (at, line, character, newline). The first cursor of a text is (0, 1, 0, false).
// It answers the kind of what was read:
//
//    0 the end          1 an error
//    2 Import           3 Identifier       4 String            5 Number
//    6 ZoomRange        7 ColorRef         8 Color
//    9 LeftParen       10 RightParen      11 LeftBracket      12 RightBracket
//   13 LeftBrace       14 RightBrace      15 Equal            16 NotEqual
//   17 Less            18 Greater         19 LessOrEqual      20 GreaterOrEqual
//   21 RegexMatch      22 Bang            23 QuestionMark     24 Colon
//   25 DoubleColon     26 SemiColon       27 Comma
//
// and stores ten words in out[0..10], what a slice is too short for is left out:
//
//   out[0..4]   the cursor behind what was read: at, line, character, newline as 0 or 1; for an error four zeros
//   out[4..6]   the token's line and character; for the end and an error 0, 0
//   out[6..10]  the payload, with zeros behind it:
//               Import, Identifier, String, ColorRef: from, to (places in s, the last one left out)
//               ZoomRange: lower level present (0 or 1), lower level, upper level present, upper level; a level that is not present is 0
//               Color: r, g, b
//               an error: reason (1 to 12), line, character
//
// number[0] is the number of a Number, and 0.0 for everything else.
#![tactic(auto)]

ghost use Rattle.std.specs.Prelude.{◌≡◌};
ghost use Rattle.base.specs.Table.{zero_float};
ghost use Rattle.cursor.specs.Cursor.{cursor};
ghost use Rattle.token.specs.Step.{step_of};
ghost use Rattle.capi_token.specs.Told.{Answered, told_step, told_token, ranged, plain, flag, present, height, numbered, words};

use answer_words::store_words;
use base::{Range, store};
use cursor::Cursor;
use token::{Step, next_token};
use token_kind::{LexerError, Token};

// A token's kind, its four words, and its number.
#[derive(Clone, Copy)]
pub struct Payload {
    pub kind: u64,
    pub words: [u64; 4],
    pub number: f64,
}

// All that is told of a step.
#[derive(Clone, Copy)]
pub struct Told {
    pub end: Cursor,
    pub line: usize,
    pub character: usize,
    pub payload: Payload,
}

// One step of the tokenizer, as the top of this file says.
pub fn mapcss_next_token(
    s: &[u8],
    at: usize,
    line: usize,
    character: usize,
    newline: bool,
    out: &mut [u64],
    number: &mut [f64],
) -> u64
    ensures { Answered (told_step (step_of s.now (cursor at line character newline))) result out.old out.new number.old number.new }
{
    let c = Cursor {
        at,
        line,
        character,
        newline,
    };
    let told = told_step(next_token(s, c));
    store_words(out, &words(told));
    let payload = told.payload;
    store(number, 0, payload.number);
    payload.kind
}

#[tactic(auto, unfolding(crate::specs::Told::told_step))]
fn told_step(step: Result<Step, LexerError>) -> Told
    ensures { result ≡ told_step step }
{
    match step {
        Err(e) => Told {
            end: Cursor {
                at: 0,
                line: 0,
                character: 0,
                newline: false,
            },
            line: 0,
            character: 0,
            payload: words_of(1, [e.reason as u64, e.line as u64, e.character as u64, 0]),
        },
        Ok(Step::End(end)) => Told {
            end,
            line: 0,
            character: 0,
            payload: plain(0),
        },
        Ok(Step::Took(token, line, character, end)) => Told {
            end,
            line,
            character,
            payload: told_token(token),
        },
    }
}

#[tactic(auto, unfolding(crate::specs::Told::told_token))]
fn told_token(token: Token) -> Payload
    ensures { result ≡ told_token token }
{
    match token {
        Token::Import(r) => ranged(2, r),
        Token::Identifier(r) => ranged(3, r),
        Token::Text(r) => ranged(4, r),
        Token::Number(x) => numbered(5, x),
        Token::ZoomRange(min, max) => words_of(
            6,
            [present(min), height(min), present(max), height(max)],
        ),
        Token::ColorRef(r) => ranged(7, r),
        Token::Color(c) => words_of(8, [u64::from(c.r), u64::from(c.g), u64::from(c.b), 0]),
        Token::LeftParen => plain(9),
        Token::RightParen => plain(10),
        Token::LeftBracket => plain(11),
        Token::RightBracket => plain(12),
        Token::LeftBrace => plain(13),
        Token::RightBrace => plain(14),
        Token::Equal => plain(15),
        Token::NotEqual => plain(16),
        Token::Less => plain(17),
        Token::Greater => plain(18),
        Token::LessOrEqual => plain(19),
        Token::GreaterOrEqual => plain(20),
        Token::RegexMatch => plain(21),
        Token::Bang => plain(22),
        Token::QuestionMark => plain(23),
        Token::Colon => plain(24),
        Token::DoubleColon => plain(25),
        Token::SemiColon => plain(26),
        Token::Comma => plain(27),
    }
}

fn ranged(kind: u64, r: Range) -> Payload
    ensures { result ≡ ranged kind r }
{
    words_of(kind, [r.from as u64, r.to as u64, 0, 0])
}

fn plain(kind: u64) -> Payload
    ensures { result ≡ plain kind }
{
    words_of(kind, [0; 4])
}

fn words_of(kind: u64, four: [u64; 4]) -> Payload
    ensures { result ≡ record { kind = kind; words = four; number = zero_float } }
{
    Payload {
        kind,
        words: four,
        number: 0.0,
    }
}

fn numbered(kind: u64, number: f64) -> Payload
    ensures { result ≡ numbered kind number }
{
    Payload {
        kind,
        words: [0; 4],
        number,
    }
}

fn present(level: Option<u8>) -> u64
    ensures { result ≡ present level }
{
    u64::from(level.is_some())
}

fn height(level: Option<u8>) -> u64
    ensures { result ≡ height level }
{
    u64::from(level.unwrap_or(0))
}

fn flag(b: bool) -> u64
    ensures { result ≡ flag b }
{
    u64::from(b)
}

// The ten words in their order.
fn words(told: Told) -> [u64; 10]
    ensures { result ≡ words told }
{
    let end = told.end;
    let [a, b, c, d] = told.payload.words;
    [
        end.at as u64,
        end.line as u64,
        end.character as u64,
        flag(end.newline),
        told.line as u64,
        told.character as u64,
        a,
        b,
        c,
        d,
    ]
}
