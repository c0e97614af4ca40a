// What the loader stores into: six lent tables with their counts.
#![tactic(auto)]

ghost use Rattle.std.specs.Prelude.{◌≡◌};
ghost use Rattle.base.specs.Bytes.{same, within};
ghost use Rattle.entries.specs.Put.{put_of};
ghost use Rattle.table.specs.Value.{range_at};
ghost use Rattle.entries.specs.Words.{test_words};
ghost use Rattle.keep.specs.Lent.{lent_in, number_kept, test_kept, property_kept, selector_kept, rule_kept, color_added, color_kept, beside_numbers, beside_tests, beside_properties, beside_selectors, beside_rules, beside_colors, recolored, place_from, value_row};

use base::refusal::Refusal;
use base::{Range, store_all};
use color::Color;
use cursor::Cursor;
use table::{Name, PropertyValue, range_of};

// How many entries each table holds, and the first of those that no entry has taken yet: a selector takes the tests since the
// last one, a rule the selectors and properties, a test and a property the numbers.
#[derive(Clone, Copy, Default)]
pub struct Tally {
    pub rules: usize,
    pub selectors: usize,
    pub tests: usize,
    pub properties: usize,
    pub numbers: usize,
    pub colors: usize,
    pub selector: usize,
    pub test: usize,
    pub property: usize,
    pub number: usize,
}

// The tables that a load fills, and how far they are filled. Each method puts an entry, or answers None where there is no room.
#[derive(Drop)]
pub struct Store<'a> {
    pub rules: &'a mut [u32],
    pub selectors: &'a mut [u32],
    pub tests: &'a mut [u32],
    pub properties: &'a mut [u32],
    pub numbers: &'a mut [f64],
    pub colors: &'a mut [u32],
    pub tally: Tally,
}

impl Store<'_> {
    pub fn keep_number(&mut self, x: f64) -> Option<()>
        ensures kept { (result, lent_in self.new) ≡ number_kept (lent_in self.old) x }
        ensures beside { beside_numbers self.new ≡ beside_numbers self.old }
    {
        self.tally.numbers = entries::put_number(self.numbers, self.tally.numbers, x)?;
        Some(())
    }

    // A test of a kind, with its key and two numbers for its value.
    pub fn keep_test(&mut self, kind: u8, key: Name, a: usize, b: usize) -> Option<()>
        ensures kept { (result, lent_in self.new) ≡ test_kept (lent_in self.old) (test_words kind key a b) }
        ensures beside { beside_tests self.new ≡ beside_tests self.old }
    {
        self.tally.tests = entries::put_test(self.tests, self.tally.tests, kind, key, a, b)?;
        self.tally.number = self.tally.numbers;
        Some(())
    }

    pub fn keep_property(&mut self, name: Range, value: PropertyValue) -> Option<()>
        ensures kept { (result, lent_in self.new) ≡ property_kept (lent_in self.old) name value }
        ensures beside { beside_properties self.new ≡ beside_properties self.old }
    {
        let n = self.tally;
        self.tally.properties = put_value(self.properties, n.properties, name, value, n.number)?;
        self.tally.number = n.numbers;
        Some(())
    }

    // A selector with the tests that no selector has.
    pub fn keep_selector(
        &mut self,
        kind: u8,
        min: Option<u8>,
        max: Option<u8>,
        layer: Option<Range>,
    ) -> Option<()>
        ensures kept { (result, lent_in self.new) ≡ selector_kept (lent_in self.old) kind min max layer }
        ensures beside { beside_selectors self.new ≡ beside_selectors self.old }
    {
        let n = self.tally;
        let tests = Range {
            from: n.test,
            to: n.tests,
        };
        self.tally.selectors = entries::put_selector(
            self.selectors,
            n.selectors,
            kind,
            min,
            max,
            tests,
            layer,
        )?;
        self.tally.test = n.tests;
        Some(())
    }

    // A rule with the selectors and properties that no rule has.
    pub fn keep_rule(&mut self) -> Option<()>
        ensures kept { (result, lent_in self.new) ≡ rule_kept (lent_in self.old) }
        ensures beside { beside_rules self.new ≡ beside_rules self.old }
    {
        let n = self.tally;
        let selectors = Range {
            from: n.selector,
            to: n.selectors,
        };
        let properties = Range {
            from: n.property,
            to: n.properties,
        };
        self.tally.rules = entries::put_rule(self.rules, n.rules, selectors, properties)?;
        self.tally.selector = n.selectors;
        self.tally.property = n.properties;
        Some(())
    }

    // A colour definition, in the entry of its name if there is one.
    pub fn keep_color(&mut self, bundle: &[u8], name: Range, c: Color) -> Option<()>
        ensures kept { (result, lent_in self.new) ≡ color_kept bundle.now (lent_in self.old) (within name bundle.now) name c }
        ensures beside { beside_colors self.new ≡ beside_colors self.old }
    {
        match self.place_of(bundle, name) {
            None => self.add_color(name, c),
            Some(i) => {
                recolor(self.colors, i, c);
                Some(())
            }
        }
    }

    // The place of the first colour that has a name.
    fn place_of(&self, bundle: &[u8], name: Range) -> Option<usize>
        ensures { result ≡ place_from bundle.now (within name bundle.now) self.now.colors.now 0 self.now.tally.colors }
    {
        find_color(bundle, self.colors, self.tally.colors, name)
    }

    fn add_color(&mut self, name: Range, c: Color) -> Option<()>
        ensures kept { (result, lent_in self.new) ≡ color_added (lent_in self.old) name c }
        ensures beside { beside_colors self.new ≡ beside_colors self.old }
    {
        self.tally.colors = entries::put_color(self.colors, self.tally.colors, name, c)?;
        Some(())
    }
}

// A property by the kind of its value; x is the place of a width delta's number.
fn put_value(t: &mut [u32], n: usize, name: Range, value: PropertyValue, x: usize) -> Option<usize>
    ensures { (result, t.new) ≡ put_of 8 t.old n (value_row name value x) }
{
    let (kind, words) = match value {
        PropertyValue::NoValue => (0, [0; 4]),
        PropertyValue::Identifier(Name::Plain(a)) => (1, [a.from, a.to, 0, 0]),
        PropertyValue::Identifier(Name::Joined(a, b)) => (2, [a.from, a.to, b.from, b.to]),
        PropertyValue::Text(a) => (3, [a.from, a.to, 0, 0]),
        PropertyValue::Shade(c) => (4, [usize::from(c.r), usize::from(c.g), usize::from(c.b), 0]),
        PropertyValue::Numbers(a) => (5, [a.from, a.to, 0, 0]),
        PropertyValue::WidthDelta(_) => (6, [x, 0, 0, 0]),
    };
    entries::put_property(t, n, kind, name, words)
}

fn recolor(colors: &mut [u32], i: usize, c: Color)
    ensures { colors.new ≡ recolored colors.old i c }
{
    if i <= colors.len() / 8 {
        store_all(
            colors,
            i * 8 + 3,
            &[u32::from(c.r), u32::from(c.g), u32::from(c.b)],
        );
    }
}

// The place of the first of n colours that has a name.
pub fn find_color(bundle: &[u8], colors: &[u32], n: usize, name: Range) -> Option<usize>
    ensures { result ≡ place_from bundle.now (within name bundle.now) colors.now 0 n }
{
    let wanted = base::part(bundle, name);
    (0..n).find(|&i| has_name(bundle, colors, i, wanted))
}

// Whether colour i has a name.
fn has_name(bundle: &[u8], colors: &[u32], i: usize, name: &[u8]) -> bool
    ensures { result ≡ same name.now (within (range_at colors.now i 1) bundle.now) }
{
    base::same_bytes(name, base::part(bundle, range_of(colors, i, 1)))
}
