// Tokens of a text of the bundle, their ranges as places of the bundle.
ghost use Rattle.std.specs.Prelude.{◌≡◌, ◌+◌, ◌<◌};
ghost use Rattle.input.specs.Text.{Fits, shifted, placed, next_of, refusal_at, reached_at, error_at, mandatory_of, expected_of, word_of, key_of, joined_of, figure_of};

use crate::{Place, Source, Text};
use base::Range;
use base::refusal::{ANOTHER_TOKEN, END_OF_FILE, LEXER, PARSE, Refusal, UNEXPECTED_TOKEN};
use cursor::Cursor;
use table::Name;
use token::{Step, next_token};
use token_kind::{LexerError, Token};

impl Text<'_> {
    // The next token, or what stands in its place.
    pub fn next(self, c: Cursor) -> Result<Step, LexerError>
        ensures { result ≡ next_of self.entry.bundle.now self.entry.source c }
    {
        let range = self.source.range;
        let from = range.from;
        match next_token(base::part(self.bundle, range), c)? {
            Step::End(d) => Ok(Step::End(d)),
            Step::Took(t, line, character, d) => {
                Ok(Step::Took(placed(t, from), line, character, d))
            }
        }
    }

    pub fn read_mandatory_token(self, c: Cursor) -> Result<(Token, Place, Cursor), Refusal>
        ensures { result ≡ mandatory_of self.entry.bundle.now self.entry.source c }
    {
        let source = self.source;
        match self.next(c).map_err(|e| refuse_error(source, e))? {
            Step::End(d) => Err(refuse_reached(PARSE, END_OF_FILE, source, d)),
            Step::Took(t, line, character, d) => {
                let o = Place {
                    text: source.number,
                    line,
                    character,
                };
                Ok((t, o, d))
            }
        }
    }

    // Behind a token that must come.
    pub fn expect(self, t: Token, c: Cursor) -> Result<Cursor, Refusal>
        ensures { result ≡ expected_of self.entry.bundle.now t self.entry.source c }
    {
        let (u, o, d) = self.read_mandatory_token(c)?;
        if u == t {
            return Ok(d);
        }
        Err(refuse(PARSE, ANOTHER_TOKEN, o))
    }

    pub fn read_identifier(self, c: Cursor) -> Result<(Range, Cursor), Refusal>
        ensures { result ≡ word_of self.entry.bundle.now self.entry.source c }
    {
        let (t, o, d) = self.read_mandatory_token(c)?;
        match t {
            Token::Identifier(a) => Ok((a, d)),
            _ => Err(refuse(PARSE, UNEXPECTED_TOKEN, o)),
        }
    }

    // A number that must come.
    pub fn read_figure(self, c: Cursor) -> Result<(f64, Cursor), Refusal>
        ensures { result ≡ figure_of self.entry.bundle.now self.entry.source c }
    {
        let (t, o, d) = self.read_mandatory_token(c)?;
        match t {
            Token::Number(x) => Ok((x, d)),
            _ => Err(refuse(PARSE, UNEXPECTED_TOKEN, o)),
        }
    }

    // What stands behind the first word of a key: a colon and a second word, or none; and the token behind that.
    pub fn read_key(self, a: Range, c: Cursor) -> Result<(Name, Token, Place, Cursor), Refusal>
        ensures { result ≡ key_of self.entry.bundle.now self.entry.source a c }
    {
        let (t, o, d) = self.read_mandatory_token(c)?;
        match t {
            Token::Colon => self.read_joined(a, d),
            _ => Ok((Name::Plain(a), t, o, d)),
        }
    }

    fn read_joined(self, a: Range, c: Cursor) -> Result<(Name, Token, Place, Cursor), Refusal>
        ensures { result ≡ joined_of self.entry.bundle.now self.entry.source a c }
    {
        let (b, d) = self.read_identifier(c)?;
        let (t, o, f) = self.read_mandatory_token(d)?;
        Ok((Name::Joined(a, b), t, o, f))
    }
}

// A token of a text that begins at a place of the bundle.
fn placed(t: Token, from: usize) -> Token
    requires { Fits from t }
    ensures { result ≡ placed from t }
{
    match t {
        Token::Import(r) => Token::Import(shifted(r, from)),
        Token::Identifier(r) => Token::Identifier(shifted(r, from)),
        Token::Text(r) => Token::Text(shifted(r, from)),
        Token::ColorRef(r) => Token::ColorRef(shifted(r, from)),
        _ => t,
    }
}

fn shifted(r: Range, from: usize) -> Range
    requires { (from + r.from < 0x1_0000_0000_0000_0000) × (from + r.to < 0x1_0000_0000_0000_0000) }
    ensures { result ≡ shifted from r }
{
    Range {
        from: from + r.from,
        to: from + r.to,
    }
}

// A refusal at the place where a token begins.
pub fn refuse(number: usize, reason: usize, o: Place) -> Refusal
    ensures { result ≡ refusal_at number reason o }
{
    Refusal {
        number,
        reason,
        text: o.text,
        line: o.line,
        character: o.character,
    }
}

// A refusal at the place reached.
pub fn refuse_reached(number: usize, reason: usize, source: Source, c: Cursor) -> Refusal
    ensures { result ≡ refusal_at number reason (reached_at source c) }
{
    Refusal {
        number,
        reason,
        text: source.number,
        line: c.line,
        character: c.character,
    }
}

// A refusal of an error of the tokenizer.
pub fn refuse_error(source: Source, e: LexerError) -> Refusal
    ensures { result ≡ error_at source e }
{
    Refusal {
        number: LEXER,
        reason: e.reason,
        text: source.number,
        line: e.line,
        character: e.character,
    }
}
