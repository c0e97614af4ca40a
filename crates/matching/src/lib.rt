// Matching: whether a selector of the tables matches an entity.
#![tactic(auto)]

ghost use Rattle.std.specs.Prelude.{◌≡◌, ◌&&◌, map, get_or};
ghost use Rattle.std.proofs.Math.Option.{some};
ghost use Rattle.base.specs.Bytes.{within};
ghost use Rattle.base.specs.Table.{zero_float};
ghost use Rattle.group.specs.Pair.{pairs_at};
ghost use Rattle.entity.specs.Layout.{value_of};
ghost use Rattle.table.specs.Kind.{test_kind};
ghost use Rattle.table.specs.Value.{word_at, range_at};
ghost use Rattle.cascade.specs.Match.{true_value, compares, number_verdict, test_verdict, verdict_on, tests_verdict, fits_type, at_least, at_most, verdict};
ghost use Rattle.cascade.specs.Number.{tag_number};
ghost use Rattle.reader.specs.Tags.{value_in};
ghost use Rattle.decode.specs.Decode.{key_at, test_at, level_at, places_in, selector_in};
ghost use Rattle.matching.specs.Matching.{fit_of, type_of, comparison_of, absent_of};

use base::Range;
use entity::Entity;
use table::kind::{ObjectKind, TestKind};
use table::{Tables, range_of, word_of};
use tag_number::NumberError;

// A numeric test was reached on a tag number outside the exact range.
#[derive(Clone, Copy)]
pub struct OutOfRange;

// Whether selector i matches the entity at a zoom: its zooms, its type, then its tests in order.
pub fn matches(tables: &Tables, zoom: u8, entity: Entity, i: usize) -> Result<bool, OutOfRange>
    ensures { result ≡ fit_of (verdict zoom (value_of entity.entry.bytes.now entity.entry.range) (selector_in tables.now.bundle.now tables.now.selectors.now tables.now.tests.now tables.now.numbers.now i)) }
{
    // The type is read where the zoom fits: most selectors are of another zoom.
    if fits_zoom(tables.selectors, i, zoom)
        && fits_type(
            ObjectKind::of(word_of(tables.selectors, i, 0)),
            entity.range.kind,
        )
    {
        return tests_fit(tables, entity, range_of(tables.selectors, i, 3));
    }
    Ok(false)
}

// Whether a zoom is one of selector i's; both ends are stored plus one, 0 for none.
fn fits_zoom(selectors: &[u32], i: usize, zoom: u8) -> bool
    ensures { result ≡ (at_least zoom (level_at (word_at selectors.now i 1)) && at_most zoom (level_at (word_at selectors.now i 2))) }
{
    let zoom = usize::from(zoom);
    let lowest = word_of(selectors, i, 1);
    if zoom + 1 < lowest {
        return false;
    }
    let highest = word_of(selectors, i, 2);
    highest == 0 || zoom < highest
}

// Whether a selector of a kind of objects takes an entity's kind.
#[tactic(auto, unfolding(cascade::specs::Match::fits_type))]
fn fits_type(kind: ObjectKind, of: u8) -> bool
    ensures { result ≡ fits_type (type_of kind) of }
{
    match kind {
        ObjectKind::All | ObjectKind::Canvas | ObjectKind::Meta => false,
        ObjectKind::Node => of == 0,
        ObjectKind::Way => of == 1 || of == 2,
        ObjectKind::Area => of == 2,
    }
}

// The tests of a range, up to the first that does not hold.
fn tests_fit(tables: &Tables, entity: Entity, range: Range) -> Result<bool, OutOfRange>
    ensures { result ≡ fit_of (tests_verdict (value_of entity.entry.bytes.now entity.entry.range) (map (test_at tables.now.bundle.now tables.now.tests.now tables.now.numbers.now) (places_in range))) }
{
    for k in range.from..range.to {
        if !test_fits(tables, entity, k)? {
            return Ok(false);
        }
    }
    Ok(true)
}

// Test i, on the tag that it names.
fn test_fits(tables: &Tables, entity: Entity, i: usize) -> Result<bool, OutOfRange>
    ensures { result ≡ fit_of (verdict_on (value_of entity.entry.bytes.now entity.entry.range) (test_at tables.now.bundle.now tables.now.tests.now tables.now.numbers.now i)) }
{
    match tag_of(tables, entity, i) {
        None => Ok(absent_fits(kind_of(tables, i))),
        Some(v) => value_fits(tables, i, base::part(entity.bytes, v)),
    }
}

// The value of the tag that test i names.
fn tag_of(tables: &Tables, entity: Entity, i: usize) -> Option<Range>
    ensures { result ≡ value_in entity.entry.bytes.now (key_at tables.now.bundle.now tables.now.tests.now i) (pairs_at entity.entry.range.count entity.entry.bytes.now entity.entry.range.tags) }
{
    let first = base::part(tables.bundle, range_of(tables.tests, i, 1));
    if word_of(tables.tests, i, 3) == 1 {
        let second = base::part(tables.bundle, range_of(tables.tests, i, 4));
        return reader::get_by_joined_key(entity, first, second);
    }
    reader::get_by_key(entity, first)
}

// What test i asks.
fn kind_of(tables: &Tables, i: usize) -> TestKind
    ensures { result ≡ test_kind (word_at tables.now.tests.now i 0) }
{
    TestKind::of(word_of(tables.tests, i, 0))
}

// A test of a kind on a tag that the entity does not have: only the negated ones hold.
fn absent_fits(kind: TestKind) -> bool
    ensures { result ≡ absent_of kind }
{
    matches!(
        kind,
        TestKind::NotExists | TestKind::False | TestKind::TextNotEqual | TestKind::NumberNotEqual
    )
}

// Test i on a tag's value.
fn value_fits(tables: &Tables, i: usize, v: &[u8]) -> Result<bool, OutOfRange>
    ensures { result ≡ fit_of (test_verdict (test_at tables.now.bundle.now tables.now.tests.now tables.now.numbers.now i) (some v.now)) }
{
    let kind = kind_of(tables, i);
    match kind {
        TestKind::Exists => Ok(true),
        TestKind::NotExists => Ok(false),
        TestKind::True => Ok(is_true(v)),
        TestKind::False => Ok(!is_true(v)),
        TestKind::TextEqual => Ok(base::same_bytes(v, text_of(tables, i))),
        TestKind::TextNotEqual => Ok(!base::same_bytes(v, text_of(tables, i))),
        TestKind::NumberEqual => Ok(digits::is_digits_of(v, number_of(tables, i))),
        TestKind::NumberNotEqual => Ok(!digits::is_digits_of(v, number_of(tables, i))),
        _ => number_fits(kind, number_of(tables, i), v),
    }
}

// Whether a value says yes.
#[tactic(auto, using(crate::proofs::Tests::truths))]
fn is_true(v: &[u8]) -> bool
    ensures { result ≡ true_value (some v.now) }
{
    matches!(v, b"yes" | b"true" | b"1")
}

// A numeric test of a kind and a bound on a tag's value.
fn number_fits(kind: TestKind, bound: f64, v: &[u8]) -> Result<bool, OutOfRange>
    ensures { result ≡ fit_of (number_verdict (comparison_of kind) bound (tag_number v.now)) }
{
    match tag_number::tag_number(v) {
        Ok(x) => Ok(compare(kind, x, bound)),
        Err(NumberError::Malformed) => Ok(false),
        Err(NumberError::OutOfRange) => Err(OutOfRange),
    }
}

// A comparison, by the kind of its test.
#[tactic(auto, unfolding(cascade::specs::Match::compares))]
fn compare(kind: TestKind, x: f64, y: f64) -> bool
    ensures { result ≡ compares (comparison_of kind) x y }
{
    match kind {
        TestKind::Less => x < y,
        TestKind::LessOrEqual => x <= y,
        TestKind::Greater => y < x,
        _ => y <= x,
    }
}

// The text of test i.
fn text_of<'a>(tables: &Tables<'a>, i: usize) -> &'a [u8]
    ensures { result.now ≡ within (range_at tables.now.tests.now i 6) tables.now.bundle.now }
{
    base::part(tables.bundle, range_of(tables.tests, i, 6))
}

// The number of test i.
fn number_of(tables: &Tables, i: usize) -> f64
    ensures { result ≡ get_or tables.now.numbers.now (word_at tables.now.tests.now i 6) zero_float }
{
    base::float_at(tables.numbers, word_of(tables.tests, i, 6))
}
