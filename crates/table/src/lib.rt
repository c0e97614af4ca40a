// The tables of a sheet: words of their entries, and a property's value. docs/TABLES.md has every word.
#![tactic(auto)]

ghost use Rattle.std.specs.Prelude.{◌≡◌};
ghost use Rattle.table.specs.Value.{word_at, range_at, color_at, value_at};
ghost use Rattle.table.specs.declared.Name.TheVariants.{Joined};
ghost use Rattle.table.specs.declared.PropertyValue.TheVariants.{Identifier};

use base::Range;
use color::Color;

pub mod kind;

// The tables of a loaded sheet, and the bundle that their names are in.
#[derive(Clone, Copy)]
pub struct Tables<'a> {
    pub bundle: &'a [u8],
    pub rules: &'a [u32],
    pub selectors: &'a [u32],
    pub tests: &'a [u32],
    pub properties: &'a [u32],
    pub numbers: &'a [f64],
}

// A name of the bundle: a range, or two ranges with a colon between them.
#[derive(Clone, Copy)]
pub enum Name {
    Plain(Range),
    Joined(Range, Range),
}

// The value of a property. Numbers is a range of the table of numbers.
#[derive(Clone, Copy)]
pub enum PropertyValue {
    NoValue,
    Identifier(Name),
    Text(Range),
    Shade(Color),
    Numbers(Range),
    WidthDelta(f64),
}

// The value of property i, read back: NoValue where its kind is none of the six.
pub fn property_value(properties: &[u32], numbers: &[f64], i: usize) -> PropertyValue
    ensures { result ≡ value_at properties.now numbers.now i }
{
    match word_of(properties, i, 0) {
        1 => PropertyValue::Identifier(Name::Plain(range_of(properties, i, 3))),
        2 => joined_value(properties, i),
        3 => PropertyValue::Text(range_of(properties, i, 3)),
        4 => PropertyValue::Shade(color_at(properties, i)),
        5 => PropertyValue::Numbers(range_of(properties, i, 3)),
        6 => PropertyValue::WidthDelta(base::float_at(numbers, word_of(properties, i, 3))),
        _ => PropertyValue::NoValue,
    }
}

fn joined_value(t: &[u32], i: usize) -> PropertyValue
    ensures { result ≡ Identifier (Joined (range_at t.now i 3) (range_at t.now i 5)) }
{
    let first = range_of(t, i, 3);
    let second = range_of(t, i, 5);
    PropertyValue::Identifier(Name::Joined(first, second))
}

// The colour of entry i.
pub fn color_at(t: &[u32], i: usize) -> Color
    ensures { result ≡ color_at t.now i }
{
    let r = (word_of(t, i, 3) % 256) as u8;
    let g = (word_of(t, i, 4) % 256) as u8;
    let b = (word_of(t, i, 5) % 256) as u8;
    Color { r, g, b }
}

// Words j and j + 1 of entry i, as a range.
pub fn range_of(t: &[u32], i: usize, j: usize) -> Range
    ensures { result ≡ range_at t.now i j }
{
    let from = word_of(t, i, j);
    let to = word_of(t, i, j.saturating_add(1));
    Range { from, to }
}

// Word j of entry i, and 0 past the end.
pub fn word_of(t: &[u32], i: usize, j: usize) -> usize
    ensures { result ≡ word_at t.now i j }
{
    // for a constant j, and an i of 32 bits, only the test of word_at is left
    if j < 8 {
        if i < 2305843009213693952 {
            return base::word_at(t, i * 8 + j) as usize;
        }
        return 0;
    }
    far_word(t, i, j)
}

// The same for any j.
fn far_word(t: &[u32], i: usize, j: usize) -> usize
    ensures { result ≡ word_at t.now i j }
{
    if t.len() / 8 < i || t.len() <= j {
        return 0;
    }
    base::word_at(t, i * 8 + j) as usize
}
