// The tokens, and the signs among them.
#![tactic(auto)]

ghost use Rattle.std.specs.Prelude.{◌≡◌};
ghost use Rattle.token_kind.specs.Reason.{lexer_error};

use base::Range;
use color::Color;
use cursor::Cursor;

pub mod signs;

// A token. Ranges are places of the text; Text is the Rust's String.
#[derive(Clone, Copy, PartialEq)]
pub enum Token {
    Import(Range),
    Identifier(Range),
    Text(Range),
    Number(f64),
    ZoomRange(Option<u8>, Option<u8>),
    ColorRef(Range),
    Color(Color),
    LeftParen,
    RightParen,
    LeftBracket,
    RightBracket,
    LeftBrace,
    RightBrace,
    Equal,
    NotEqual,
    Less,
    Greater,
    LessOrEqual,
    GreaterOrEqual,
    RegexMatch,
    Bang,
    QuestionMark,
    Colon,
    DoubleColon,
    SemiColon,
    Comma,
}

// An error of the tokenizer: its reason, and the line and character that it stands at.
#[derive(Clone, Copy)]
pub struct LexerError {
    pub reason: usize,
    pub line: usize,
    pub character: usize,
}

// What a reader of one kind of token answers: the Rust's Result<Token>, with the place behind the token.
pub type Reading = Result<(Token, Cursor), LexerError>;

// The error of a reason, at the line and character of a cursor.
#[tactic(auto, unfolding(crate::specs::Reason::lexer_error))]
pub fn lexer_error(reason: usize, c: Cursor) -> LexerError
    ensures { result ≡ lexer_error reason c }
{
    LexerError {
        reason,
        line: c.line,
        character: c.character,
    }
}
