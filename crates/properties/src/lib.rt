// Properties: each is stored at its semicolon, a listed number at once, a width delta just before its property.
#![tactic(auto)]

ghost use Rattle.std.specs.Prelude.{◌≡◌};
ghost use Rattle.grammar.specs.Reader.{joined_value, word_value, identifier_value, reference_value, numbers_value, read_property_value};
ghost use Rattle.keep.specs.Lent.{colors_of, lent_in, beside_numbers, beside_properties};
ghost use Rattle.keep.specs.Source.{reading};
ghost use Rattle.input.specs.Source.{spot};
ghost use Rattle.input.specs.Text.{name_in};
ghost use Rattle.properties.specs.Answers.{ListedRead, NumbersRead, ValueEnd, ValueAnswer, NumbersAnswer, PropertyKept, PropertyRead, HeadRead, PropertiesRead};

use crate::eval::{is_eval, read_simple_eval};
use base::Range;
use base::refusal::{
    COLOR_REFERENCE, NUMBERS, PARSE, PROPERTIES, Refusal, TABLE_FULL, UNEXPECTED_TOKEN,
};
use cursor::Cursor;
use input::tokens::{refuse, refuse_reached};
use input::{Place, Source, Text};
use keep::{Store, find_color};
use table::{Name, PropertyValue, color_at};
use token_kind::Token;

mod eval;

// How far the tokens of an eval have the one form that is read, `(prop("width"))` with a number before the last bracket or none:
// the last token of each, and the number once it is known.
#[derive(Clone, Copy)]
pub enum Form {
    Empty,
    Opening,
    PropName,
    PropOpening,
    WidthName,
    PropClosing,
    Increment(f64),
    Whole(f64),
    Failed,
}

// Behind a number of a list: the next number, or none at its end.
fn read_listed(text: Text, c: Cursor) -> Result<(Option<f64>, Cursor), Refusal>
    ensures { ListedRead text.entry.bundle.now text.entry.source c result }
{
    let (t, o, d) = text.read_mandatory_token(c)?;
    match t {
        Token::SemiColon => Ok((None, d)),
        Token::Comma => {
            let (x, f) = text.read_figure(d)?;
            Ok((Some(x), f))
        }
        _ => Err(refuse(PARSE, UNEXPECTED_TOKEN, o)),
    }
}

// Behind the first number of a list.
fn read_number_list(text: Text, x: f64, c: Cursor, store: &mut Store<'_>) -> Result<Cursor, Refusal>
    ensures read { NumbersRead text.entry.bundle.now text.entry.source x c (lent_in store.old) (lent_in store.new) result }
    ensures beside { beside_numbers store.new ≡ beside_numbers store.old }
{
    let mut y = x;
    let mut at = c;
    loop {
        store
            .keep_number(y)
            .ok_or(refuse_reached(TABLE_FULL, NUMBERS, text.source, at))?;
        let (next, d) = read_listed(text, at)?;
        let Some(z) = next else {
            return Ok(d);
        };
        y = z;
        at = d;
    }
}

// A value before its semicolon.
fn end_value(
    text: Text,
    value: PropertyValue,
    c: Cursor,
) -> Result<(PropertyValue, Cursor), Refusal>
    ensures { ValueEnd text.entry.bundle.now text.entry.source value c result }
{
    let d = text.expect(Token::SemiColon, c)?;
    Ok((value, d))
}

// Behind the first word of a value and its colon.
fn read_joined_value(text: Text, a: Range, c: Cursor) -> Result<(PropertyValue, Cursor), Refusal>
    ensures { ValueAnswer text.entry.bundle.now text.entry.source c (joined_value (reading text.entry.bundle.now) (name_in text.entry.bundle.now a) (spot text.entry.source c)) result }
{
    let (b, d) = text.read_identifier(c)?;
    end_value(text, PropertyValue::Identifier(Name::Joined(a, b)), d)
}

// Behind the first word of a value that is no eval.
fn read_word_value(text: Text, a: Range, c: Cursor) -> Result<(PropertyValue, Cursor), Refusal>
    ensures { ValueAnswer text.entry.bundle.now text.entry.source c (word_value (reading text.entry.bundle.now) (name_in text.entry.bundle.now a) (spot text.entry.source c)) result }
{
    let (t, o, d) = text.read_mandatory_token(c)?;
    match t {
        Token::Colon => read_joined_value(text, a, d),
        Token::SemiColon => Ok((PropertyValue::Identifier(Name::Plain(a)), d)),
        _ => Err(refuse(PARSE, UNEXPECTED_TOKEN, o)),
    }
}

// A reference to one of the known colours: the first n of a store.
fn read_reference(
    text: Text,
    name: Range,
    c: Cursor,
    store: &Store<'_>,
    known: usize,
) -> Result<(PropertyValue, Cursor), Refusal>
    ensures { ValueAnswer text.entry.bundle.now text.entry.source c (reference_value (reading text.entry.bundle.now) (colors_of text.entry.bundle.now store.now.colors.now known) (name_in text.entry.bundle.now name) (spot text.entry.source c)) result }
{
    let i = find_color(text.bundle, &store.colors[..], known, name).ok_or(refuse_reached(
        PARSE,
        COLOR_REFERENCE,
        text.source,
        c,
    ))?;
    end_value(
        text,
        PropertyValue::Shade(color_at(&store.colors[..], i)),
        c,
    )
}

// Behind the first number of a value.
fn read_numbers_value(
    text: Text,
    x: f64,
    c: Cursor,
    store: &mut Store<'_>,
) -> Result<(PropertyValue, Cursor), Refusal>
    ensures read { NumbersAnswer text.entry.bundle.now text.entry.source c (lent_in store.old) (lent_in store.new) (λ k. numbers_value (reading text.entry.bundle.now) k x (spot text.entry.source c)) result }
    ensures beside { beside_numbers store.new ≡ beside_numbers store.old }
{
    let d = read_number_list(text, x, c, store)?;
    Ok((
        PropertyValue::Numbers(Range {
            from: store.tally.number,
            to: store.tally.numbers,
        }),
        d,
    ))
}

// Behind an identifier, which begins at o.
fn read_identifier_value(
    text: Text,
    a: Range,
    o: Place,
    c: Cursor,
    store: &mut Store<'_>,
) -> Result<(PropertyValue, Cursor), Refusal>
    ensures read { NumbersAnswer text.entry.bundle.now text.entry.source c (lent_in store.old) (lent_in store.new) (λ k. identifier_value (reading text.entry.bundle.now) k (name_in text.entry.bundle.now a) o (spot text.entry.source c)) result }
    ensures beside { beside_numbers store.new ≡ beside_numbers store.old }
{
    if is_eval(text.bundle, a) {
        return read_simple_eval(text, o, c, store);
    }
    read_word_value(text, a, c)
}

fn read_property_value(
    text: Text,
    c: Cursor,
    store: &mut Store<'_>,
    known: usize,
) -> Result<(PropertyValue, Cursor), Refusal>
    ensures read { NumbersAnswer text.entry.bundle.now text.entry.source c (lent_in store.old) (lent_in store.new) (λ k τ. read_property_value (reading text.entry.bundle.now) k (colors_of text.entry.bundle.now store.old.colors.now known) (spot text.entry.source c) τ) result }
    ensures beside { beside_numbers store.new ≡ beside_numbers store.old }
{
    let (t, o, d) = text.read_mandatory_token(c)?;
    match t {
        Token::Identifier(a) => read_identifier_value(text, a, o, d, store),
        Token::Text(a) => end_value(text, PropertyValue::Text(a), d),
        Token::Color(x) => end_value(text, PropertyValue::Shade(x), d),
        Token::ColorRef(a) => read_reference(text, a, d, store, known),
        Token::Number(x) => read_numbers_value(text, x, d, store),
        _ => Err(refuse(PARSE, UNEXPECTED_TOKEN, o)),
    }
}

// Behind the name of a property.
fn read_property(
    text: Text,
    name: Range,
    c: Cursor,
    store: &mut Store<'_>,
    known: usize,
) -> Result<Cursor, Refusal>
    ensures read { PropertyRead text.entry.bundle.now text.entry.source name c (colors_of text.entry.bundle.now store.old.colors.now known) (lent_in store.old) (lent_in store.new) result }
    ensures beside { beside_properties store.new ≡ beside_properties store.old }
{
    let d = text.expect(Token::Colon, c)?;
    let (value, f) = read_property_value(text, d, store, known)?;
    store_property(text.source, f, name, value, store)
}

fn store_property(
    source: Source,
    c: Cursor,
    name: Range,
    value: PropertyValue,
    store: &mut Store<'_>,
) -> Result<Cursor, Refusal>
    ensures read { PropertyKept source c name value (lent_in store.old) (lent_in store.new) result }
    ensures beside { beside_properties store.new ≡ beside_properties store.old }
{
    store
        .keep_property(name, value)
        .ok_or(refuse_reached(TABLE_FULL, PROPERTIES, source, c))?;
    Ok(c)
}

// The name of a property, or none at the closing brace.
fn read_head(text: Text, c: Cursor) -> Result<(Option<Range>, Cursor), Refusal>
    ensures { HeadRead text.entry.bundle.now text.entry.source c result }
{
    let (t, o, d) = text.read_mandatory_token(c)?;
    match t {
        Token::Identifier(a) => Ok((Some(a), d)),
        Token::RightBrace => Ok((None, d)),
        _ => Err(refuse(PARSE, UNEXPECTED_TOKEN, o)),
    }
}

// Behind the opening brace. The first colours of the store are known, so many.
pub fn read_properties(
    text: Text,
    c: Cursor,
    store: &mut Store<'_>,
    known: usize,
) -> Result<Cursor, Refusal>
    ensures read { PropertiesRead text.entry.bundle.now text.entry.source c (colors_of text.entry.bundle.now store.old.colors.now known) (lent_in store.old) (lent_in store.new) result }
    ensures beside { beside_properties store.new ≡ beside_properties store.old }
{
    let mut at = c;
    loop {
        let (head, d) = read_head(text, at)?;
        let Some(name) = head else {
            return Ok(d);
        };
        at = read_property(text, name, d, store, known)?;
    }
}
