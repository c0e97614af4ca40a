// A styled layer in numbers, into lent tables of 32 rows.
#![tactic(auto)]

ghost use Rattle.std.specs.Prelude.{◌≡◌, map, pos, take};
ghost use Rattle.base.specs.Table.{zero_float, padded, flat};
ghost use Rattle.style_rows.specs.Rows.{flag, has, float_number, cap_number, position_number, layer_number, color_numbers, dash_numbers, text_numbers, text, text_color, text_position, font_size, scalars, row_words, row_floats, row_layer};

use base::{Range, store_all};
use color::Color;
use style::{LineCap, TextPosition, TextStyle};
use styles::StyledLayer;
use table::Name;

// Stores the rows of styled layers, 32 at most, and zeros behind them.
pub fn store_layers(
    styled: &[StyledLayer],
    words: &mut [u64; 1664],
    floats: &mut [f64; 192],
    layers: &mut [i64; 32],
)
    ensures words_after { words.new ≡ padded 0 1664 (flat (map row_words (take 32 styled.now))) }
    ensures floats_after { floats.new ≡ padded zero_float 192 (flat (map row_floats (take 32 styled.now))) }
    ensures layers_after { layers.new ≡ padded (pos 0) 32 (map row_layer (take 32 styled.now)) }
{
    words.fill(0);
    floats.fill(0.0);
    layers.fill(0);
    for (k, &x) in styled.iter().take(32).enumerate() {
        store_all(words, k * 52, &row_words(x));
        store_all(floats, k * 6, &row_floats(x));
        layers[k] = layer_number(x.style.layer);
    }
}

fn layer_number(tag: Option<i64>) -> i64
    ensures { result ≡ layer_number tag }
{
    tag.unwrap_or(0)
}

fn flag(b: bool) -> u64
    ensures { result ≡ flag b }
{
    u64::from(b)
}

// 1 where there is something, else 0.
fn has<T: Copy>(m: Option<T>) -> u64
    ensures { result ≡ has m }
{
    u64::from(m.is_some())
}

fn float_number(m: Option<f64>) -> f64
    ensures { result ≡ float_number m }
{
    m.unwrap_or(0.0)
}

#[tactic(auto, unfolding(crate::specs::Rows::cap_number))]
fn cap_number(c: Option<LineCap>) -> u64
    ensures { result ≡ cap_number c }
{
    c.map_or(0, |cap| cap as u64)
}

#[tactic(auto, unfolding(crate::specs::Rows::position_number))]
fn position_number(p: Option<TextPosition>) -> u64
    ensures { result ≡ position_number p }
{
    p.map_or(0, |position| position as u64)
}

fn text(t: Option<TextStyle>) -> Option<Name>
    ensures { result ≡ text t }
{
    Some(t?.text)
}

fn text_color(t: Option<TextStyle>) -> Option<Color>
    ensures { result ≡ text_color t }
{
    t?.text_color
}

fn text_position(t: Option<TextStyle>) -> Option<TextPosition>
    ensures { result ≡ text_position t }
{
    t?.text_position
}

fn font_size(t: Option<TextStyle>) -> Option<f64>
    ensures { result ≡ font_size t }
{
    t?.font_size
}

// The 52 words of a row.
fn row_words(x: StyledLayer) -> [u64; 52]
    ensures { result ≡ row_words x }
{
    let s = x.style;
    let mut row = [0u64; 52];
    store_all(&mut row, 0, &scalars(x));
    store_all(&mut row, 11, &color_numbers(s.color));
    store_all(&mut row, 15, &color_numbers(s.fill_color));
    store_all(&mut row, 19, &color_numbers(s.background_color));
    store_all(&mut row, 23, &color_numbers(s.casing_color));
    store_all(&mut row, 27, &color_numbers(text_color(s.text_style)));
    store_all(&mut row, 31, &dash_numbers(s.dashes));
    store_all(&mut row, 34, &dash_numbers(s.casing_dashes));
    store_all(&mut row, 37, &text_numbers(s.icon_image));
    store_all(&mut row, 42, &text_numbers(s.fill_image));
    store_all(&mut row, 47, &text_numbers(text(s.text_style)));
    row
}

#[tactic(auto, unfolding(crate::specs::Rows::scalars))]
fn scalars(x: StyledLayer) -> [u64; 11]
    ensures { result ≡ scalars x }
{
    let s = x.style;
    [
        u64::from(x.selector),
        has(s.layer),
        flag(s.is_foreground_fill),
        has(s.opacity),
        has(s.fill_opacity),
        has(s.width),
        has(s.casing_width),
        has(font_size(s.text_style)),
        cap_number(s.line_cap),
        cap_number(s.casing_line_cap),
        position_number(text_position(s.text_style)),
    ]
}

#[tactic(auto, unfolding(crate::specs::Rows::color_numbers))]
fn color_numbers(c: Option<Color>) -> [u64; 4]
    ensures { result ≡ color_numbers c }
{
    match c {
        None => [0, 0, 0, 0],
        Some(k) => [1, u64::from(k.r), u64::from(k.g), u64::from(k.b)],
    }
}

#[tactic(auto, unfolding(crate::specs::Rows::dash_numbers))]
fn dash_numbers(d: Option<Range>) -> [u64; 3]
    ensures { result ≡ dash_numbers d }
{
    match d {
        None => [0, 0, 0],
        Some(r) => [1, r.from as u64, r.to as u64],
    }
}

#[tactic(auto, unfolding(crate::specs::Rows::text_numbers))]
fn text_numbers(t: Option<Name>) -> [u64; 5]
    ensures { result ≡ text_numbers t }
{
    match t {
        None => [0, 0, 0, 0, 0],
        Some(Name::Plain(a)) => [1, a.from as u64, a.to as u64, 0, 0],
        Some(Name::Joined(a, b)) => [2, a.from as u64, a.to as u64, b.from as u64, b.to as u64],
    }
}

// The 6 floats of a row.
#[tactic(auto, unfolding(crate::specs::Rows::row_floats))]
fn row_floats(x: StyledLayer) -> [f64; 6]
    ensures { result ≡ row_floats x }
{
    let s = x.style;
    [
        s.z_index,
        float_number(s.opacity),
        float_number(s.fill_opacity),
        float_number(s.width),
        float_number(s.casing_width),
        float_number(font_size(s.text_style)),
    ]
}
