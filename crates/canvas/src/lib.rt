// The canvas colour of a sheet, over lent tables.
#![tactic(auto)]

ghost use Rattle.std.specs.Prelude.{◌≡◌, eqb};
ghost use Rattle.table.specs.Value.{word_at};
ghost use Rattle.decode.specs.Decode.{places, places_in};
ghost use Rattle.canvas.specs.Canvas.{shade_of, color_at, first_color, any_canvas, rule_color, rules_color, canvas_of};

use base::Range;
use base::refusal::Refusal;
use color::Color;
use style::StyleType;
use table::kind::ObjectKind;
use table::{PropertyValue, Tables, property_value, range_of, word_of};
use valid::{Counts, judge};

// The canvas colour: 22 is the only refusal. proofs/Shown.antt restates the promise on rules.
pub fn canvas_fill_color(
    tables: &Tables,
    n: Counts,
    style_type: StyleType,
) -> Result<Option<Color>, Refusal>
    ensures { result ≡ canvas_of tables.now.bundle.now tables.now.rules.now tables.now.selectors.now tables.now.tests.now tables.now.properties.now tables.now.numbers.now n style_type }
{
    judge(tables, n)?;
    match style_type {
        StyleType::Josm => Ok(rules_color(tables, b"fill-color", n.rules)),
        StyleType::MapsMe => Ok(rules_color(tables, b"background-color", n.rules)),
    }
}

// The first `total` rules, in order.
fn rules_color(tables: &Tables, name: &[u8], total: usize) -> Option<Color>
    ensures { result ≡ rules_color tables.now.bundle.now tables.now.rules.now tables.now.selectors.now tables.now.properties.now tables.now.numbers.now name.now (places 0 total) }
{
    for r in 0..total {
        if let Some(c) = rule_color(tables, name, r) {
            return Some(c);
        }
    }
    None
}

fn rule_color(tables: &Tables, name: &[u8], r: usize) -> Option<Color>
    ensures { result ≡ rule_color tables.now.bundle.now tables.now.rules.now tables.now.selectors.now tables.now.properties.now tables.now.numbers.now name.now r }
{
    if any_canvas(tables.selectors, range_of(tables.rules, r, 1)) {
        return first_color(tables, name, range_of(tables.rules, r, 3));
    }
    None
}

// Whether one of a range of selectors is of the canvas.
fn any_canvas(selectors: &[u32], range: Range) -> bool
    ensures { result ≡ any_canvas selectors.now (places_in range) }
{
    (range.from..range.to).any(|s| is_canvas(selectors, s))
}

fn is_canvas(selectors: &[u32], s: usize) -> bool
    ensures { result ≡ eqb (word_at selectors.now s 0) 2 }
{
    matches!(ObjectKind::of(word_of(selectors, s, 0)), ObjectKind::Canvas)
}

// The first colour value of this name among a range of properties.
fn first_color(tables: &Tables, name: &[u8], range: Range) -> Option<Color>
    ensures { result ≡ first_color tables.now.bundle.now tables.now.properties.now tables.now.numbers.now name.now (places_in range) }
{
    for p in range.from..range.to {
        if let Some(c) = color_at(tables, name, p) {
            return Some(c);
        }
    }
    None
}

// The colour value of property p, if it has this name.
fn color_at(tables: &Tables, name: &[u8], p: usize) -> Option<Color>
    ensures { result ≡ color_at tables.now.bundle.now tables.now.properties.now tables.now.numbers.now name.now p }
{
    let named = base::part(tables.bundle, range_of(tables.properties, p, 1));
    if base::same_bytes(named, name) {
        return shade_of(property_value(tables.properties, tables.numbers, p));
    }
    None
}

#[tactic(auto, unfolding(crate::specs::Canvas::shade_of))]
fn shade_of(v: PropertyValue) -> Option<Color>
    ensures { result ≡ shade_of v }
{
    match v {
        PropertyValue::Shade(c) => Some(c),
        _ => None,
    }
}
