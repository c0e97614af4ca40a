// Sheets: colour definitions, rules and imports. A colour is stored at its semicolon.
#![tactic(auto)]

ghost use Rattle.std.specs.Prelude.{◌≡◌};
ghost use Rattle.keep.specs.Lent.{lent_in, lends, beside_colors};
ghost use Rattle.sheets.specs.Sheets.{DefinitionKept, DefinitionRead, StatementRead, SheetRead, ImportRead};

use base::Range;
use base::refusal::{COLORS, NO_SUCH_TEXT, Refusal, TABLE_FULL, TOO_DEEP};
use bundle::find_text;
use cursor::Cursor;
use input::tokens::{refuse_error, refuse_reached};
use input::{Place, Source, Text};
use keep::Store;
use rules::read_rule;
use token::Step;
use token_kind::Token;

// The beginning of a statement: the end of the text, an import, a colour definition, or the first token of a rule.
#[derive(Clone, Copy)]
pub enum Statement {
    EndOfText,
    ImportOf(Range, Cursor),
    ColorOf(Range, Cursor),
    RuleAt(Token, Place, Cursor),
}

// Stores a definition whose value is t; one that is no colour has no effect.
fn store_definition(
    text: Text,
    name: Range,
    t: Token,
    c: Cursor,
    store: &mut Store<'_>,
) -> Result<Cursor, Refusal>
    ensures read { DefinitionKept text.entry.bundle.now text.entry.source name t c (lent_in store.old) (lent_in store.new) result }
    ensures beside { beside_colors store.new ≡ beside_colors store.old }
{
    if let Token::Color(x) = t {
        store
            .keep_color(text.bundle, name, x)
            .ok_or(refuse_reached(TABLE_FULL, COLORS, text.source, c))?;
    }
    Ok(c)
}

// Behind the name of a colour.
fn read_color_def(
    text: Text,
    name: Range,
    c: Cursor,
    store: &mut Store<'_>,
) -> Result<Cursor, Refusal>
    ensures read { DefinitionRead text.entry.bundle.now text.entry.source name c (lent_in store.old) (lent_in store.new) result }
    ensures beside { beside_colors store.new ≡ beside_colors store.old }
{
    let d = text.expect(Token::Colon, c)?;
    let (t, _, f) = text.read_mandatory_token(d)?;
    let g = text.expect(Token::SemiColon, f)?;
    store_definition(text, name, t, g, store)
}

// The beginning of a statement.
fn read_statement(text: Text, c: Cursor) -> Result<Statement, Refusal>
    ensures { StatementRead text.entry.bundle.now text.entry.source c result }
{
    match text.next(c).map_err(|e| refuse_error(text.source, e))? {
        Step::End(_) => Ok(Statement::EndOfText),
        Step::Took(Token::Import(name), _, _, d) => Ok(Statement::ImportOf(name, d)),
        Step::Took(Token::ColorRef(name), _, _, d) => Ok(Statement::ColorOf(name, d)),
        Step::Took(t, line, character, d) => {
            let o = Place {
                text: text.source.number,
                line,
                character,
            };
            Ok(Statement::RuleAt(t, o, d))
        }
    }
}

// A whole text.
#[cycle(import_file_parse)]
pub fn parse(text: Text, depth: usize, store: &mut Store<'_>) -> Result<(), Refusal>
    ensures read { SheetRead text.entry.bundle.now text.entry.source depth (lent_in store.old) (lent_in store.new) result }
    ensures lends { lends store.new ≡ lends store.old }
{
    let mut at = Cursor::new();
    loop {
        at = match read_statement(text, at)? {
            Statement::EndOfText => return Ok(()),
            Statement::ImportOf(name, d) => import_file(text, name, d, depth, store)?,
            Statement::ColorOf(name, d) => read_color_def(text, name, d, store)?,
            Statement::RuleAt(t, o, d) => read_rule(text, t, o, d, store)?,
        };
    }
}

// Behind the name of an import: its semicolon, and all of the named text.
#[cycle(import_file_parse)]
fn import_file(
    text: Text,
    name: Range,
    c: Cursor,
    depth: usize,
    store: &mut Store<'_>,
) -> Result<Cursor, Refusal>
    ensures read { ImportRead text.entry.bundle.now name text.entry.source c depth (lent_in store.old) (lent_in store.new) result }
    ensures lends { lends store.new ≡ lends store.old }
{
    let d = text.expect(Token::SemiColon, c)?;
    let (number, range) = find_text(text.bundle, base::part(text.bundle, name)).ok_or(
        refuse_reached(NO_SUCH_TEXT, 0, text.source, d),
    )?;
    if depth == 0 {
        return Err(refuse_reached(TOO_DEEP, 0, text.source, d));
    }
    let named = Text {
        bundle: text.bundle,
        source: Source { number, range },
    };
    parse(named, depth - 1, store)?;
    Ok(d)
}
