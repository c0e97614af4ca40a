// The loader: parser.rs over lent tables, from any bytes to a sheet's six tables or a refusal.
#![tactic(auto)]

ghost use Rattle.std.specs.Prelude.{◌≡◌, length};
ghost use Rattle.keep.specs.Encode.{lengths, lengths_by};
ghost use Rattle.keep.specs.Lent.{lent_in, lends, none_yet};
ghost use Rattle.parser.specs.Load.{held, zeros, held_by, counts_of, first_text, BundleRead, load_of};

use base::Range;
use base::refusal::Refusal;
use input::{Source, Text};
use keep::{Store, Tally};
use sheets::parse;

// How many entries each table holds.
#[derive(Clone, Copy)]
pub struct Counts {
    pub rules: usize,
    pub selectors: usize,
    pub tests: usize,
    pub properties: usize,
    pub numbers: usize,
    pub colors: usize,
}

impl From<Tally> for Counts {
    fn from(n: Tally) -> Counts
        ensures { result ≡ counts_of n }
    {
        Counts {
            rules: n.rules,
            selectors: n.selectors,
            tests: n.tests,
            properties: n.properties,
            numbers: n.numbers,
            colors: n.colors,
        }
    }
}

// The counts that styling reads.
impl From<Counts> for valid::Counts {
    fn from(n: Counts) -> valid::Counts
        ensures { result ≡ record { rules = n.rules; selectors = n.selectors; tests = n.tests; properties = n.properties; numbers = n.numbers } }
    {
        valid::Counts {
            rules: n.rules,
            selectors: n.selectors,
            tests: n.tests,
            properties: n.properties,
            numbers: n.numbers,
        }
    }
}

// Loads a bundle's sheet into six tables. What they held before does not matter; a refusal leaves all of them zero to their end,
// and so is everything behind the entries of a sheet. specs/Load.antt says what the tables hold.
pub fn load(
    bundle: &[u8],
    rules: &mut [u32],
    selectors: &mut [u32],
    tests: &mut [u32],
    properties: &mut [u32],
    numbers: &mut [f64],
    colors: &mut [u32],
) -> Result<Counts, Refusal>
    ensures { (result, held rules.new selectors.new tests.new properties.new numbers.new colors.new) ≡ load_of bundle.now (lengths (length rules.old) (length selectors.old) (length tests.old) (length properties.old) (length numbers.old) (length colors.old)) }
{
    let mut store = Store {
        rules,
        selectors,
        tests,
        properties,
        numbers,
        colors,
        tally: Tally::default(),
    };
    fill(bundle, &mut store)
}

// The same into a store.
fn fill(bundle: &[u8], store: &mut Store<'_>) -> Result<Counts, Refusal>
    ensures loaded { (result, held_by store.new) ≡ load_of bundle.now (lengths_by store.old) }
    ensures lends { lends store.new ≡ lends store.old }
{
    blank(store);
    match read_bundle(bundle, store) {
        Err(e) => {
            blank(store);
            Err(e)
        }
        Ok(()) => Ok(Counts::from(store.tally)),
    }
}

// Every table is zero, and no entry is counted.
pub fn blank(store: &mut Store<'_>)
    ensures zero { held_by store.new ≡ zeros (lengths_by store.old) }
    ensures tally { store.new.tally ≡ none_yet }
    ensures lends { lends store.new ≡ lends store.old }
{
    store.rules.fill(0);
    store.selectors.fill(0);
    store.tests.fill(0);
    store.properties.fill(0);
    store.numbers.fill(0.0);
    store.colors.fill(0);
    store.tally = Tally::default();
}

// Checks the bundle, and reads its first text at depth 8.
fn read_bundle(bundle: &[u8], store: &mut Store<'_>) -> Result<(), Refusal>
    ensures read { BundleRead bundle.now (lent_in store.old) (lent_in store.new) result }
    ensures lends { lends store.new ≡ lends store.old }
{
    let _ = bundle::check_bundle(bundle)?;
    let text = Text {
        bundle,
        source: Source {
            number: 0,
            range: first_text(bundle),
        },
    };
    parse(text, 8, store)
}

// Where the sheet stands in the bundle.
fn first_text(bundle: &[u8]) -> Range
    ensures { result ≡ first_text bundle.now }
{
    match bundle::text_at(bundle, 0) {
        None => Range { from: 0, to: 0 },
        Some((_, text)) => text,
    }
}
