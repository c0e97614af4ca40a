// Rules: a selector is stored at its comma or brace, a rule at its closing brace, a colors block too.
#![tactic(auto)]

ghost use Rattle.std.specs.Prelude.{◌≡◌};
ghost use Rattle.keep.specs.Lent.{colors_of, lent_in, beside_selectors, beside_rules};
ghost use Rattle.table.specs.Kind.{object_number};
ghost use Rattle.rules.specs.Rules.{PartRead, AfterColon, AfterColons, SelectorKept, SelectorRead, NextRead, ChoiceRead, StartRead, WordStart, RuleKept, BodyRead, BlockRead, RuleRead};

use base::Range;
use base::refusal::{OBJECT_TYPE, PARSE, RULES, Refusal, SELECTORS, TABLE_FULL, UNEXPECTED_TOKEN};
use cursor::Cursor;
use input::tokens::{refuse, refuse_reached};
use input::{Place, Source, Text};
use keep::Store;
use kind::{is_colors, object_type, skip_colors};
use properties::read_properties;
use table::kind::ObjectKind;
use tests::read_test;
use token_kind::Token;

mod kind;

// A part of a selector: its end, and whether more selectors come; a zoom range; a test's bracket; a class; the layer's name.
#[derive(Clone, Copy)]
pub enum Part {
    Closing(bool, Cursor),
    Zoom(Option<u8>, Option<u8>, Cursor),
    Bracket(Cursor),
    Class(Cursor),
    Layer(Range, Cursor),
}

// What the first token of a selector begins: the properties, a colors block, or a selector of an object type.
#[derive(Clone, Copy)]
pub enum Start {
    Body,
    ColorsBlock,
    Object(ObjectKind),
}

// The class behind a colon, which is dropped.
fn read_class(text: Text, c: Cursor) -> Result<Part, Refusal>
    ensures { AfterColon text.entry.bundle.now text.entry.source c result }
{
    let (_, d) = text.read_identifier(c)?;
    Ok(Part::Class(d))
}

// The layer's name behind two colons.
fn read_layer(text: Text, c: Cursor) -> Result<Part, Refusal>
    ensures { AfterColons text.entry.bundle.now text.entry.source c result }
{
    let (a, d) = text.read_identifier(c)?;
    Ok(Part::Layer(a, d))
}

fn read_part(text: Text, c: Cursor) -> Result<Part, Refusal>
    ensures { PartRead text.entry.bundle.now text.entry.source c result }
{
    let (t, o, d) = text.read_mandatory_token(c)?;
    match t {
        Token::LeftBrace => Ok(Part::Closing(false, d)),
        Token::Comma => Ok(Part::Closing(true, d)),
        Token::ZoomRange(a, b) => Ok(Part::Zoom(a, b, d)),
        Token::LeftBracket => Ok(Part::Bracket(d)),
        Token::Colon => read_class(text, d),
        Token::DoubleColon => read_layer(text, d),
        _ => Err(refuse(PARSE, UNEXPECTED_TOKEN, o)),
    }
}

// Stores a selector with the tests that no selector has.
fn store_selector(
    source: Source,
    kind: ObjectKind,
    min: Option<u8>,
    max: Option<u8>,
    layer: Option<Range>,
    c: Cursor,
    store: &mut Store<'_>,
) -> Result<Cursor, Refusal>
    ensures read { SelectorKept source (object_number kind) min max layer c (lent_in store.old) (lent_in store.new) result }
    ensures beside { beside_selectors store.new ≡ beside_selectors store.old }
{
    store
        .keep_selector(kind.number(), min, max, layer)
        .ok_or(refuse_reached(TABLE_FULL, SELECTORS, source, c))?;
    Ok(c)
}

// Behind the object type of a selector.
fn read_selector(
    text: Text,
    kind: ObjectKind,
    c: Cursor,
    store: &mut Store<'_>,
) -> Result<(bool, Cursor), Refusal>
    ensures read { SelectorRead text.entry.bundle.now text.entry.source (object_number kind) c (lent_in store.old) (lent_in store.new) result }
    ensures beside { beside_selectors store.new ≡ beside_selectors store.old }
{
    let mut min = None;
    let mut max = None;
    let mut layer = None;
    let mut at = c;
    loop {
        at = match read_part(text, at)? {
            Part::Closing(more, d) => {
                let e = store_selector(text.source, kind, min, max, layer, d, store)?;
                return Ok((more, e));
            }
            Part::Zoom(a, b, d) => {
                min = a;
                max = b;
                d
            }
            Part::Bracket(d) => read_test(text, d, store)?,
            Part::Class(d) => d,
            Part::Layer(a, d) => {
                layer = Some(a);
                d
            }
        };
    }
}

// A selector, and if more come, the first token of the next and where that begins; and the place behind.
fn read_choice(
    text: Text,
    kind: ObjectKind,
    c: Cursor,
    store: &mut Store<'_>,
) -> Result<(Option<(Token, Place)>, Cursor), Refusal>
    ensures read { ChoiceRead text.entry.bundle.now text.entry.source (object_number kind) c (lent_in store.old) (lent_in store.new) result }
    ensures beside { beside_selectors store.new ≡ beside_selectors store.old }
{
    let (more, d) = read_selector(text, kind, c, store)?;
    if more {
        return next_choice(text, d);
    }
    Ok((None, d))
}

// The first token of the next selector.
fn next_choice(text: Text, c: Cursor) -> Result<(Option<(Token, Place)>, Cursor), Refusal>
    ensures { NextRead text.entry.bundle.now text.entry.source c result }
{
    let (t, o, d) = text.read_mandatory_token(c)?;
    Ok((Some((t, o)), d))
}

// A name at the start of a selector.
fn word_start(bundle: &[u8], a: Range, o: Place) -> Result<Start, Refusal>
    ensures { WordStart bundle.now a o result }
{
    if is_colors(bundle, a) {
        return Ok(Start::ColorsBlock);
    }
    let kind = object_type(bundle, a).ok_or(refuse(PARSE, OBJECT_TYPE, o))?;
    Ok(Start::Object(kind))
}

fn rule_start(bundle: &[u8], t: Token, o: Place) -> Result<Start, Refusal>
    ensures { StartRead bundle.now t o result }
{
    match t {
        Token::LeftBrace => Ok(Start::Body),
        Token::Identifier(a) => word_start(bundle, a, o),
        _ => Err(refuse(PARSE, UNEXPECTED_TOKEN, o)),
    }
}

// Stores a rule with the selectors and properties that no rule has.
fn store_rule(source: Source, c: Cursor, store: &mut Store<'_>) -> Result<Cursor, Refusal>
    ensures read { RuleKept source c (lent_in store.old) (lent_in store.new) result }
    ensures beside { beside_rules store.new ≡ beside_rules store.old }
{
    store
        .keep_rule()
        .ok_or(refuse_reached(TABLE_FULL, RULES, source, c))?;
    Ok(c)
}

// Behind the opening brace of a rule.
fn read_body(text: Text, c: Cursor, store: &mut Store<'_>, known: usize) -> Result<Cursor, Refusal>
    ensures read { BodyRead text.entry.bundle.now text.entry.source c (colors_of text.entry.bundle.now store.old.colors.now known) (lent_in store.old) (lent_in store.new) result }
    ensures beside { beside_rules store.new ≡ beside_rules store.old }
{
    let d = read_properties(text, c, store, known)?;
    store_rule(text.source, d, store)
}

// Behind the word colors.
fn read_block(text: Text, c: Cursor, store: &mut Store<'_>) -> Result<Cursor, Refusal>
    ensures read { BlockRead text.entry.bundle.now text.entry.source c (lent_in store.old) (lent_in store.new) result }
    ensures beside { beside_rules store.new ≡ beside_rules store.old }
{
    let d = skip_colors(text, c)?;
    store_rule(text.source, d, store)
}

// From the first token of a rule on, which begins at o.
pub fn read_rule(
    text: Text,
    t: Token,
    o: Place,
    c: Cursor,
    store: &mut Store<'_>,
) -> Result<Cursor, Refusal>
    ensures read { RuleRead text.entry.bundle.now text.entry.source t o c (lent_in store.old) (lent_in store.new) result }
    ensures beside { beside_rules store.new ≡ beside_rules store.old }
{
    let known = store.tally.colors;
    let mut first = t;
    let mut begins = o;
    let mut at = c;
    loop {
        match rule_start(text.bundle, first, begins)? {
            Start::Body => return read_body(text, at, store, known),
            Start::ColorsBlock => return read_block(text, at, store),
            Start::Object(kind) => {
                let (next, d) = read_choice(text, kind, at, store)?;
                let Some((u, p)) = next else {
                    return read_body(text, d, store, known);
                };
                first = u;
                begins = p;
                at = d;
            }
        }
    }
}
