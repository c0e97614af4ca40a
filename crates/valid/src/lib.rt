// Whether handed tables are sound, every entry below the counts: what refusal 22 judges.
#![tactic(auto)]

ghost use Rattle.std.specs.Prelude.{◌≡◌, ℕ, Bool, eqb, ◌<◌, [], ◌∷◌, length, Ok, Err};
ghost use Rattle.table.specs.Value.{word_at};
ghost use Rattle.valid.specs.Valid.{span_in, marked_span, rule_sound, selector_sound, named_entry, test_sound, test_value, number_value, property_sound, value_sound, one_span, color_words, all_below, entries_held, counts_held, tables_sound};
ghost use Rattle.base.specs.Choice.{pick};
ghost use Rattle.base.specs.Refusal.{refusal};

use base::refusal::{Refusal, TABLE_BROKEN};
use table::Tables;

// How many entries each table holds. No styling reads the table of colours.
#[derive(Clone, Copy, Default)]
pub struct Counts {
    pub rules: usize,
    pub selectors: usize,
    pub tests: usize,
    pub properties: usize,
    pub numbers: usize,
}

// Whether the tables of a sheet are sound beside a bundle of so many bytes; tables that are not are refused with 22.
#[tactic(auto, using(crate::proofs::Room::counts_room, std::proofs::lemmas::Grind::common_steps), unfolding(base::specs::Choice::pick, crate::specs::Valid::tables_sound))]
pub fn is_sound(
    rules: &[u32],
    selectors: &[u32],
    tests: &[u32],
    properties: &[u32],
    numbers: &[f64],
    n: Counts,
    bundle: usize,
) -> bool
    ensures { result ≡ tables_sound rules.now selectors.now tests.now properties.now numbers.now n bundle }
{
    if !counts_held(
        rules.len(),
        selectors.len(),
        tests.len(),
        properties.len(),
        numbers.len(),
        n,
    ) {
        return false;
    }
    let rules = &rules.as_chunks::<8>().0[..n.rules];
    let selectors = &selectors.as_chunks::<8>().0[..n.selectors];
    let tests = &tests.as_chunks::<8>().0[..n.tests];
    let properties = &properties.as_chunks::<8>().0[..n.properties];
    let numbers = &numbers[..n.numbers];
    // Each from its last entry down, which is where tables that a load did not fill to their counts are broken.
    rules
        .iter()
        .rev()
        .all(|e| rule_sound(e, n.selectors, n.properties))
        && selectors
            .iter()
            .rev()
            .all(|e| selector_sound(e, n.tests, bundle))
        && tests.iter().rev().all(|e| test_sound(e, numbers, bundle))
        && properties
            .iter()
            .rev()
            .all(|e| property_sound(e, n.numbers, bundle))
}

// The same of the tables together, beside their bundle.
pub fn are_sound(tables: &Tables, n: Counts) -> bool
    ensures { result ≡ tables_sound tables.now.rules.now tables.now.selectors.now tables.now.tests.now tables.now.properties.now tables.now.numbers.now n (length tables.now.bundle.now) }
{
    is_sound(
        tables.rules,
        tables.selectors,
        tables.tests,
        tables.properties,
        tables.numbers,
        n,
        tables.bundle.len(),
    )
}

// Refusal 22 where they are not.
#[tactic(auto, unfolding(base::specs::Choice::pick))]
pub fn judge(tables: &Tables, n: Counts) -> Result<(), Refusal>
    ensures { result ≡ pick (tables_sound tables.now.rules.now tables.now.selectors.now tables.now.tests.now tables.now.properties.now tables.now.numbers.now n (length tables.now.bundle.now)) (Ok tt) (Err (refusal 22 0 0 0 0)) }
{
    if are_sound(tables, n) {
        return Ok(());
    }
    Err(Refusal::plain(TABLE_BROKEN))
}

#[tactic(auto, unfolding(crate::specs::Valid::entries_held))]
fn entries_held(count: usize, len: usize) -> bool
    ensures { result ≡ entries_held count len }
{
    count <= base::capacity(8, len)
}

#[tactic(auto, unfolding(base::specs::Choice::pick, crate::specs::Valid::counts_held))]
fn counts_held(
    rules: usize,
    selectors: usize,
    tests: usize,
    properties: usize,
    numbers: usize,
    n: Counts,
) -> bool
    ensures { result ≡ counts_held rules selectors tests properties numbers n }
{
    entries_held(n.rules, rules)
        && entries_held(n.selectors, selectors)
        && entries_held(n.tests, tests)
        && entries_held(n.properties, properties)
        && n.numbers <= base::capacity(1, numbers)
}

// Whether a range is in order and within so many.
#[tactic(auto, unfolding(base::specs::Choice::pick, crate::specs::Valid::span_in))]
fn span_in(from: u32, to: u32, n: usize) -> bool
    ensures { result ≡ span_in from to n }
{
    from <= to && to as usize <= n
}

// A mark, 0 or 1, and behind it a range if it is 1, else zeros.
#[tactic(auto, unfolding(base::specs::Choice::pick, crate::specs::Valid::marked_span))]
fn marked_span(mark: u32, from: u32, to: u32, n: usize) -> bool
    ensures { result ≡ marked_span (mark ∷ from ∷ to ∷ []) 0 0 n }
{
    match mark {
        0 => from == 0 && to == 0,
        1 => span_in(from, to, n),
        _ => false,
    }
}

#[tactic(auto, unfolding(base::specs::Choice::pick, crate::specs::Valid::rule_sound))]
fn rule_sound(e: &[u32; 8], selectors: usize, properties: usize) -> bool
    ensures { result ≡ rule_sound e.now selectors properties 0 }
{
    e[0] == 1
        && span_in(e[1], e[2], selectors)
        && span_in(e[3], e[4], properties)
        && e[5] == 0
        && e[6] == 0
        && e[7] == 0
}

#[tactic(auto, unfolding(base::specs::Choice::pick, crate::specs::Valid::selector_sound, crate::specs::Valid::marked_span))]
fn selector_sound(e: &[u32; 8], tests: usize, bundle: usize) -> bool
    ensures { result ≡ selector_sound e.now tests bundle 0 }
{
    span_in(1, e[0], 6) && span_in(e[3], e[4], tests) && marked_span(e[5], e[6], e[7], bundle)
}

// A kind, and behind it the name of a test or a property.
#[tactic(auto, unfolding(base::specs::Choice::pick, crate::specs::Valid::named_entry))]
fn named(e: &[u32; 8], most: usize, bundle: usize) -> bool
    ensures { result ≡ named_entry e.now most bundle 0 }
{
    span_in(1, e[0], most) && span_in(e[1], e[2], bundle)
}

#[tactic(auto, unfolding(base::specs::Choice::pick, crate::specs::Valid::test_sound, crate::specs::Valid::marked_span))]
fn test_sound(e: &[u32; 8], numbers: &[f64], bundle: usize) -> bool
    ensures { result ≡ test_sound e.now numbers.now (length numbers.now) bundle 0 }
{
    named(e, 12, bundle) && marked_span(e[3], e[4], e[5], bundle) && test_value(e, numbers, bundle)
}

// The value of a test by its kind: none, a range of the bundle, or a number.
#[tactic(auto, unfolding(base::specs::Choice::pick, crate::specs::Valid::test_value, crate::specs::Valid::two_zeros))]
fn test_value(e: &[u32; 8], numbers: &[f64], bundle: usize) -> bool
    ensures { result ≡ test_value e.now numbers.now (length numbers.now) bundle 0 }
{
    match e[0] {
        0..=4 => e[6] == 0 && e[7] == 0,
        5 | 6 => span_in(e[6], e[7], bundle),
        _ => number_value(e, numbers),
    }
}

// The place of a number; a whole one for the kinds 7 and 8.
#[tactic(auto, unfolding(base::specs::Choice::pick, crate::specs::Valid::number_value))]
fn number_value(e: &[u32; 8], numbers: &[f64]) -> bool
    ensures { result ≡ number_value e.now numbers.now (word_at e.now 0 0) (length numbers.now) 0 }
{
    let place = e[6] as usize;
    place < numbers.len() && e[7] == 0 && (8 < e[0] || digits::is_whole(numbers[place]))
}

#[tactic(auto, unfolding(base::specs::Choice::pick, crate::specs::Valid::property_sound))]
fn property_sound(e: &[u32; 8], numbers: usize, bundle: usize) -> bool
    ensures { result ≡ property_sound e.now numbers bundle 0 }
{
    named(e, 6, bundle) && e[7] == 0 && value_sound(e, numbers, bundle)
}

// The value of a property by its kind. The odd kinds are all one range, which is judged with no jump by the kind.
#[tactic(auto, unfolding(base::specs::Choice::pick, crate::specs::Valid::value_sound, crate::specs::Valid::two_spans, crate::specs::Valid::delta_words, crate::specs::Valid::two_zeros))]
fn value_sound(e: &[u32; 8], numbers: usize, bundle: usize) -> bool
    ensures { result ≡ value_sound e.now numbers bundle 0 }
{
    let kind = e[0];
    if kind % 2 == 1 {
        return one_span(e, span_limit(kind, numbers, bundle));
    }
    match kind {
        2 => span_in(e[3], e[4], bundle) && span_in(e[5], e[6], bundle),
        4 => color_words(e),
        6 => (e[3] as usize) < numbers && e[4] == 0 && e[5] == 0 && e[6] == 0,
        _ => one_span(e, bundle),
    }
}

// What the range of a value stays within: numbers of their table, or bytes of the bundle.
#[tactic(auto, unfolding(base::specs::Choice::pick))]
fn span_limit(kind: u32, numbers: usize, bundle: usize) -> usize
    ensures { result ≡ pick (eqb kind 5) numbers bundle }
{
    if kind == 5 { numbers } else { bundle }
}

#[tactic(auto, unfolding(base::specs::Choice::pick, crate::specs::Valid::one_span, crate::specs::Valid::two_zeros))]
fn one_span(e: &[u32; 8], limit: usize) -> bool
    ensures { result ≡ one_span e.now limit 0 }
{
    span_in(e[3], e[4], limit) && e[5] == 0 && e[6] == 0
}

#[tactic(auto, unfolding(base::specs::Choice::pick, crate::specs::Valid::color_words))]
fn color_words(e: &[u32; 8]) -> bool
    ensures { result ≡ color_words e.now 0 }
{
    e[3] <= 255 && e[4] <= 255 && e[5] <= 255 && e[6] == 0
}
