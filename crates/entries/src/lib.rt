// Storing the entries of a sheet's tables. docs/TABLES.md has every word.
#![tactic(auto)]

ghost use Rattle.std.specs.Prelude.{◌≡◌, ◌<◌, [], ◌∷◌, length};
ghost use Rattle.table.specs.Value.{word};
ghost use Rattle.entries.specs.Put.{put_of};
ghost use Rattle.entries.specs.Words.{level_word, first_of, second_of, layer_word, layer_from, layer_to, rule_words, selector_words, test_words, property_row, color_words};

use base::{Range, store_all};
use color::Color;
use table::Name;

// Stores an entry behind the first n of its size, unless the table is full.
fn put_entry<T: Copy>(t: &mut [T], n: usize, entry: &[T]) -> Option<usize>
    ensures { (result, t.new) ≡ put_of (length entry.now) t.old n entry.now }
{
    if base::capacity(entry.len(), t.len()) <= n {
        return None;
    }
    store_all(t, n * entry.len(), entry);
    Some(n + 1)
}

// A number behind the first n.
pub fn put_number(t: &mut [f64], n: usize, x: f64) -> Option<usize>
    ensures { (result, t.new) ≡ put_of 1 t.old n (x ∷ []) }
{
    put_entry(t, n, &[x])
}

// A number as a word: its low 32 bits.
fn low(x: usize) -> u32
    ensures { result ≡ word x }
{
    (x % 4294967296) as u32
}

// A rule: its selectors and its properties, as ranges of their tables.
pub fn put_rule(t: &mut [u32], n: usize, selectors: Range, properties: Range) -> Option<usize>
    ensures { (result, t.new) ≡ put_of 8 t.old n (rule_words selectors properties) }
{
    put_entry(
        t,
        n,
        &[
            1,
            low(selectors.from),
            low(selectors.to),
            low(properties.from),
            low(properties.to),
            0,
            0,
            0,
        ],
    )
}

// A selector: its object type as a number, its zoom levels, its tests as a range of their table, and its layer's name.
pub fn put_selector(
    t: &mut [u32],
    n: usize,
    kind: u8,
    min: Option<u8>,
    max: Option<u8>,
    tests: Range,
    layer: Option<Range>,
) -> Option<usize>
    ensures { (result, t.new) ≡ put_of 8 t.old n (selector_words kind min max tests layer) }
{
    let (named, from, to) = range_words(layer);
    put_entry(
        t,
        n,
        &[
            u32::from(kind),
            level_word(min),
            level_word(max),
            low(tests.from),
            low(tests.to),
            named,
            from,
            to,
        ],
    )
}

fn level_word(z: Option<u8>) -> u32
    ensures { result ≡ level_word z }
{
    z.map_or(0, |n| u32::from(n) + 1)
}

// Whether there is a range, and its ends.
fn range_words(r: Option<Range>) -> (u32, u32, u32)
    ensures { (result.0 ≡ layer_word r) × (result.1 ≡ layer_from r) × (result.2 ≡ layer_to r) }
{
    match r {
        None => (0, 0, 0),
        Some(r) => (1, low(r.from), low(r.to)),
    }
}

// A test: its kind as a number, its key, and two numbers for its value.
pub fn put_test(t: &mut [u32], n: usize, kind: u8, key: Name, a: usize, b: usize) -> Option<usize>
    ensures { (result, t.new) ≡ put_of 8 t.old n (test_words kind key a b) }
{
    let first = first_of(key);
    let (joined, from, to) = range_words(second_of(key));
    put_entry(
        t,
        n,
        &[
            u32::from(kind),
            low(first.from),
            low(first.to),
            joined,
            from,
            to,
            low(a),
            low(b),
        ],
    )
}

fn first_of(name: Name) -> Range
    ensures { result ≡ first_of name }
{
    match name {
        Name::Plain(a) | Name::Joined(a, _) => a,
    }
}

fn second_of(name: Name) -> Option<Range>
    ensures { result ≡ second_of name }
{
    match name {
        Name::Plain(_) => None,
        Name::Joined(_, b) => Some(b),
    }
}

// A property: its kind as a number, its name, and four numbers for its value.
pub fn put_property(
    t: &mut [u32],
    n: usize,
    kind: u8,
    name: Range,
    value: [usize; 4],
) -> Option<usize>
    ensures { (result, t.new) ≡ put_of 8 t.old n (property_row kind name value) }
{
    let [a, b, c, d] = value;
    put_entry(
        t,
        n,
        &[
            u32::from(kind),
            low(name.from),
            low(name.to),
            low(a),
            low(b),
            low(c),
            low(d),
            0,
        ],
    )
}

// A colour definition.
pub fn put_color(t: &mut [u32], n: usize, name: Range, c: Color) -> Option<usize>
    ensures { (result, t.new) ≡ put_of 8 t.old n (color_words name c) }
{
    put_entry(
        t,
        n,
        &[
            1,
            low(name.from),
            low(name.to),
            u32::from(c.r),
            u32::from(c.g),
            u32::from(c.b),
            0,
            0,
        ],
    )
}
