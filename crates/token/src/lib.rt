// Tokens: one step of the tokenizer at a place of a text.
#![tactic(auto)]

ghost use Rattle.std.specs.Prelude.{◌≡◌};
ghost use Rattle.token.specs.Step.{step_of};

use base::Range;
use base::refusal::OPEN_COMMENT;
use cursor::blank::next_significant_char;
use cursor::{Cursor, Significant};
use token_kind::{LexerError, Token, lexer_error};

mod read;

// The end, with the place reached, or a token, the line and character that it begins at, and the place behind it.
#[derive(Clone, Copy)]
pub enum Step {
    End(Cursor),
    Took(Token, usize, usize, Cursor),
}

// The next token from a cursor on. Bytes that are no character end the text as its end does: texts are checked to be UTF-8 before.
// crates/token_laws/specs says what each step consumes and what its lines and characters mean (Claims.antt), and has all tokens of a text
// (Tokens.antt).
pub fn next_token(s: &[u8], c: Cursor) -> Result<Step, LexerError>
    ensures { result ≡ step_of s.now c }
{
    match next_significant_char(s, c).map_err(|d| lexer_error(OPEN_COMMENT, d))? {
        Significant::Ended(d) => Ok(Step::End(d)),
        Significant::Found(idx, ch, d) => {
            let (token, e) = read::read_token(s, idx, ch, d)?;
            Ok(Step::Took(token, d.line, d.character, e))
        }
    }
}
