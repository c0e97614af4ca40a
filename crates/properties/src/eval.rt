// Evals: what is read with the numbers only.
ghost use Rattle.std.specs.Prelude.{◌≡◌};
ghost use Rattle.base.specs.Bytes.{ascii, same, within};
ghost use Rattle.keep.specs.Lent.{lent_in, beside_numbers};
ghost use Rattle.input.specs.Text.{token_of};
ghost use Rattle.properties.specs.Eval.{word_form, form_next, FormAnswer, DeltaKept, EvalRead};

use crate::Form;
use base::refusal::{EVAL_FORM, NUMBERS, PARSE, Refusal, TABLE_FULL};
use base::{Range, same_bytes};
use cursor::Cursor;
use input::tokens::{refuse, refuse_reached};
use input::{Place, Source, Text};
use keep::Store;
use table::PropertyValue;
use token_kind::Token;

pub fn is_eval(bundle: &[u8], a: Range) -> bool
    ensures { result ≡ same (within a bundle.now) (ascii "eval") }
{
    same_bytes(base::part(bundle, a), b"eval")
}

// The one text leads on.
fn word_form(bundle: &[u8], a: Range, word: &[u8], next: Form) -> Form
    ensures { result ≡ word_form next word.now (within a bundle.now) }
{
    if same_bytes(base::part(bundle, a), word) {
        return next;
    }
    Form::Failed
}

// The form with one more token.
fn form_next(bundle: &[u8], f: Form, t: Token) -> Form
    ensures { result ≡ form_next f (token_of bundle.now t) }
{
    match (f, t) {
        (Form::Empty, Token::LeftParen) => Form::Opening,
        (Form::Opening, Token::Identifier(a)) => word_form(bundle, a, b"prop", Form::PropName),
        (Form::PropName, Token::LeftParen) => Form::PropOpening,
        (Form::PropOpening, Token::Text(a)) => word_form(bundle, a, b"width", Form::WidthName),
        (Form::WidthName, Token::RightParen) => Form::PropClosing,
        (Form::PropClosing, Token::RightParen) => Form::Whole(0.0),
        (Form::PropClosing, Token::Number(x)) => Form::Increment(x),
        (Form::Increment(x), Token::RightParen) => Form::Whole(x),
        _ => Form::Failed,
    }
}

// The form of all tokens up to the semicolon.
pub fn read_form(text: Text, c: Cursor) -> Result<(Form, Cursor), Refusal>
    ensures { FormAnswer text.entry.bundle.now text.entry.source c result }
{
    let mut f = Form::Empty;
    let mut at = c;
    loop {
        let (t, _, d) = text.read_mandatory_token(at)?;
        if t == Token::SemiColon {
            return Ok((f, d));
        }
        f = form_next(text.bundle, f, t);
        at = d;
    }
}

// Stores the number of a width delta.
fn store_delta(
    source: Source,
    x: f64,
    c: Cursor,
    store: &mut Store<'_>,
) -> Result<(PropertyValue, Cursor), Refusal>
    ensures read { DeltaKept source x c (lent_in store.old) (lent_in store.new) result }
    ensures beside { beside_numbers store.new ≡ beside_numbers store.old }
{
    store
        .keep_number(x)
        .ok_or(refuse_reached(TABLE_FULL, NUMBERS, source, c))?;
    Ok((PropertyValue::WidthDelta(x), c))
}

// Behind the word eval, which begins at o.
pub fn read_simple_eval(
    text: Text,
    o: Place,
    c: Cursor,
    store: &mut Store<'_>,
) -> Result<(PropertyValue, Cursor), Refusal>
    ensures read { EvalRead text.entry.bundle.now text.entry.source o c (lent_in store.old) (lent_in store.new) result }
    ensures beside { beside_numbers store.new ≡ beside_numbers store.old }
{
    let (f, d) = read_form(text, c)?;
    match f {
        Form::Whole(x) => store_delta(text.source, x, d, store),
        _ => Err(refuse(PARSE, EVAL_FORM, o)),
    }
}
