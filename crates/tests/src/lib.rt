// Tests: each is stored at its bracket, a number just before its test.
#![tactic(auto)]

ghost use Rattle.std.specs.Prelude.{◌≡◌};
ghost use Rattle.grammar.specs.Reader.{question_test, bang_question_test, plain_test, bang_test, read_key, read_bang_test, read_test};
ghost use Rattle.input.specs.Source.{spot};
ghost use Rattle.keep.specs.Lent.{lent_in, beside_tests};
ghost use Rattle.keep.specs.Source.{reading};
ghost use Rattle.input.specs.Text.{name_in, name_of, token_of};
ghost use Rattle.entries.specs.Words.{test_words};
ghost use Rattle.table.specs.Kind.{test_number};
ghost use Rattle.tests.specs.Answers.{TestsRead, TestKept, NumberTestKept, WordRead, DigitsRead, OperandRead, NumericRead};

use base::Range;
use base::refusal::{NOT_WHOLE, NUMBERS, PARSE, Refusal, TABLE_FULL, TESTS, UNEXPECTED_TOKEN};
use cursor::Cursor;
use input::tokens::{refuse, refuse_reached};
use input::{Place, Source, Text};
use keep::Store;
use table::Name;
use table::kind::TestKind::{
    self, Exists, False, Greater, GreaterOrEqual, Less, LessOrEqual, NotExists, NumberEqual,
    NumberNotEqual, TextEqual, TextNotEqual, True,
};
use token_kind::Token;

// Stores a test of a kind, with its key and two numbers for its value.
fn store_test(
    source: Source,
    c: Cursor,
    kind: TestKind,
    key: Name,
    a: usize,
    b: usize,
    store: &mut Store<'_>,
) -> Result<Cursor, Refusal>
    ensures read { TestKept source c (test_words (test_number kind) key a b) (lent_in store.old) (lent_in store.new) result }
    ensures beside { beside_tests store.new ≡ beside_tests store.old }
{
    store
        .keep_test(kind.number(), key, a, b)
        .ok_or(refuse_reached(TABLE_FULL, TESTS, source, c))?;
    Ok(c)
}

// The test of a key with the number x, behind its bracket.
fn store_number_test(
    source: Source,
    c: Cursor,
    kind: TestKind,
    key: Name,
    x: f64,
    store: &mut Store<'_>,
) -> Result<Cursor, Refusal>
    ensures read { NumberTestKept source c (test_number kind) key x (lent_in store.old) (lent_in store.new) result }
    ensures beside { beside_tests store.new ≡ beside_tests store.old }
{
    store
        .keep_number(x)
        .ok_or(refuse_reached(TABLE_FULL, NUMBERS, source, c))?;
    let number = store.tally.number;
    store_test(source, c, kind, key, number, 0, store)
}

// Behind the word b of an = or != test.
fn read_word_operand(
    text: Text,
    key: Name,
    kind: TestKind,
    b: Range,
    c: Cursor,
    store: &mut Store<'_>,
) -> Result<Cursor, Refusal>
    ensures read { WordRead text.entry.bundle.now text.entry.source key (test_number kind) b c (lent_in store.old) (lent_in store.new) result }
    ensures beside { beside_tests store.new ≡ beside_tests store.old }
{
    let d = text.expect(Token::RightBracket, c)?;
    store_test(text.source, d, kind, key, b.from, b.to, store)
}

// Behind the number x of an = or != test.
fn read_digits_operand(
    text: Text,
    key: Name,
    kind: TestKind,
    x: f64,
    c: Cursor,
    store: &mut Store<'_>,
) -> Result<Cursor, Refusal>
    ensures read { DigitsRead text.entry.bundle.now text.entry.source key (test_number kind) x c (lent_in store.old) (lent_in store.new) result }
    ensures beside { beside_tests store.new ≡ beside_tests store.old }
{
    let d = text.expect(Token::RightBracket, c)?;
    if digits::is_whole(x) {
        return store_number_test(text.source, d, kind, key, x, store);
    }
    Err(refuse_reached(NOT_WHOLE, 0, text.source, d))
}

// Behind = or !=: by the kinds of a test with a word and with a number.
fn read_operand(
    text: Text,
    key: Name,
    words: TestKind,
    figures: TestKind,
    c: Cursor,
    store: &mut Store<'_>,
) -> Result<Cursor, Refusal>
    ensures read { OperandRead text.entry.bundle.now text.entry.source key (test_number words) (test_number figures) c (lent_in store.old) (lent_in store.new) result }
    ensures beside { beside_tests store.new ≡ beside_tests store.old }
{
    let (t, o, d) = text.read_mandatory_token(c)?;
    match t {
        Token::Identifier(b) => read_word_operand(text, key, words, b, d, store),
        Token::Number(x) => read_digits_operand(text, key, figures, x, d, store),
        _ => Err(refuse(PARSE, UNEXPECTED_TOKEN, o)),
    }
}

// Behind <, <=, > or >=.
fn read_number(
    text: Text,
    key: Name,
    kind: TestKind,
    c: Cursor,
    store: &mut Store<'_>,
) -> Result<Cursor, Refusal>
    ensures read { NumericRead text.entry.bundle.now text.entry.source key (test_number kind) c (lent_in store.old) (lent_in store.new) result }
    ensures beside { beside_tests store.new ≡ beside_tests store.old }
{
    let (x, d) = text.read_figure(c)?;
    let f = text.expect(Token::RightBracket, d)?;
    store_number_test(text.source, f, kind, key, x, store)
}

// Behind the question mark of a test without a bang.
fn read_question(text: Text, key: Name, c: Cursor, store: &mut Store<'_>) -> Result<Cursor, Refusal>
    ensures read { TestsRead text.entry.bundle.now text.entry.source c (lent_in store.old) (lent_in store.new) (question_test (reading text.entry.bundle.now) (name_of text.entry.bundle.now key) (spot text.entry.source c)) result }
    ensures beside { beside_tests store.new ≡ beside_tests store.old }
{
    let (t, o, d) = text.read_mandatory_token(c)?;
    match t {
        Token::RightBracket => store_test(text.source, d, True, key, 0, 0, store),
        Token::Bang => {
            let f = text.expect(Token::RightBracket, d)?;
            store_test(text.source, f, False, key, 0, 0, store)
        }
        _ => Err(refuse(PARSE, UNEXPECTED_TOKEN, o)),
    }
}

// Behind the key of a test without a bang: the next token t, where it begins, and the place behind it.
fn plain_test(
    text: Text,
    key: Name,
    t: Token,
    o: Place,
    c: Cursor,
    store: &mut Store<'_>,
) -> Result<Cursor, Refusal>
    ensures read { TestsRead text.entry.bundle.now text.entry.source c (lent_in store.old) (lent_in store.new) (λ τ. plain_test (reading text.entry.bundle.now) (name_of text.entry.bundle.now key) τ (token_of text.entry.bundle.now t) o (spot text.entry.source c)) result }
    ensures beside { beside_tests store.new ≡ beside_tests store.old }
{
    match t {
        Token::Equal => read_operand(text, key, TextEqual, NumberEqual, c, store),
        Token::NotEqual => read_operand(text, key, TextNotEqual, NumberNotEqual, c, store),
        Token::Less => read_number(text, key, Less, c, store),
        Token::LessOrEqual => read_number(text, key, LessOrEqual, c, store),
        Token::Greater => read_number(text, key, Greater, c, store),
        Token::GreaterOrEqual => read_number(text, key, GreaterOrEqual, c, store),
        Token::RightBracket => store_test(text.source, c, Exists, key, 0, 0, store),
        Token::QuestionMark => read_question(text, key, c, store),
        _ => Err(refuse(PARSE, UNEXPECTED_TOKEN, o)),
    }
}

// Behind the question mark of a test with a bang.
fn read_bang_question(
    text: Text,
    key: Name,
    c: Cursor,
    store: &mut Store<'_>,
) -> Result<Cursor, Refusal>
    ensures read { TestsRead text.entry.bundle.now text.entry.source c (lent_in store.old) (lent_in store.new) (bang_question_test (reading text.entry.bundle.now) (name_of text.entry.bundle.now key) (spot text.entry.source c)) result }
    ensures beside { beside_tests store.new ≡ beside_tests store.old }
{
    let (t, o, d) = text.read_mandatory_token(c)?;
    match t {
        Token::RightBracket => store_test(text.source, d, False, key, 0, 0, store),
        _ => Err(refuse(PARSE, UNEXPECTED_TOKEN, o)),
    }
}

// Behind the key of a test with a bang.
fn bang_test(
    text: Text,
    key: Name,
    t: Token,
    o: Place,
    c: Cursor,
    store: &mut Store<'_>,
) -> Result<Cursor, Refusal>
    ensures read { TestsRead text.entry.bundle.now text.entry.source c (lent_in store.old) (lent_in store.new) (λ τ. bang_test (reading text.entry.bundle.now) (name_of text.entry.bundle.now key) τ (token_of text.entry.bundle.now t) o (spot text.entry.source c)) result }
    ensures beside { beside_tests store.new ≡ beside_tests store.old }
{
    match t {
        Token::RightBracket => store_test(text.source, c, NotExists, key, 0, 0, store),
        Token::QuestionMark => read_bang_question(text, key, c, store),
        _ => Err(refuse(PARSE, UNEXPECTED_TOKEN, o)),
    }
}

// Behind the first word of a key.
fn read_plain(text: Text, a: Range, c: Cursor, store: &mut Store<'_>) -> Result<Cursor, Refusal>
    ensures read { TestsRead text.entry.bundle.now text.entry.source c (lent_in store.old) (lent_in store.new) (λ τ. read_key (reading text.entry.bundle.now) (name_in text.entry.bundle.now a) (spot text.entry.source c) τ (plain_test (reading text.entry.bundle.now))) result }
    ensures beside { beside_tests store.new ≡ beside_tests store.old }
{
    let (key, t, o, d) = text.read_key(a, c)?;
    plain_test(text, key, t, o, d, store)
}

// Behind the bang of a test.
fn read_bang(text: Text, c: Cursor, store: &mut Store<'_>) -> Result<Cursor, Refusal>
    ensures read { TestsRead text.entry.bundle.now text.entry.source c (lent_in store.old) (lent_in store.new) (read_bang_test (reading text.entry.bundle.now) (spot text.entry.source c)) result }
    ensures beside { beside_tests store.new ≡ beside_tests store.old }
{
    let (a, d) = text.read_identifier(c)?;
    let (key, t, o, f) = text.read_key(a, d)?;
    bang_test(text, key, t, o, f, store)
}

// Behind the opening bracket.
pub fn read_test(text: Text, c: Cursor, store: &mut Store<'_>) -> Result<Cursor, Refusal>
    ensures read { TestsRead text.entry.bundle.now text.entry.source c (lent_in store.old) (lent_in store.new) (read_test (reading text.entry.bundle.now) (spot text.entry.source c)) result }
    ensures beside { beside_tests store.new ≡ beside_tests store.old }
{
    let (t, o, d) = text.read_mandatory_token(c)?;
    match t {
        Token::Identifier(a) | Token::Text(a) => read_plain(text, a, d, store),
        Token::Bang => read_bang(text, d, store),
        _ => Err(refuse(PARSE, UNEXPECTED_TOKEN, o)),
    }
}
