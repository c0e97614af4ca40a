// The getters of property_map_to_style: what a layer's property of a name is read as.
ghost use Rattle.std.specs.Prelude.{◌≡◌};
ghost use Rattle.base.specs.Bytes.{within};
ghost use Rattle.style.specs.Get.{property_in, color_of, one_of, number_of, delta_of, dashes_of, text_of, word_of, cap_named, position_named};
ghost use Rattle.style.specs.Style.{color_in, number_in, delta_in, dashes_in, text_in, cap_in, position_in, is_word_in};

use crate::{LineCap, Row, TextPosition};
use base::Range;
use color::Color;
use table::{Name, PropertyValue, property_value};
use walk::names::find_name;

impl Row<'_, '_> {
    // The property of a name.
    fn get(self, name: &[u8]) -> Option<PropertyValue>
        ensures { result ≡ property_in self.entry.tables.now.bundle.now self.entry.tables.now.properties.now self.entry.tables.now.numbers.now self.entry.numbers.now name.now }
    {
        let Row { tables, numbers } = self;
        let i = find_name(tables, numbers, name)?;
        let p = numbers[i] as usize;
        Some(property_value(tables.properties, tables.numbers, p))
    }

    pub fn color(self, name: &[u8]) -> Option<Color>
        ensures { result ≡ color_in self.entry.tables.now.bundle.now self.entry.tables.now.properties.now self.entry.tables.now.numbers.now self.entry.numbers.now name.now }
    {
        color_of(self.tables.bundle, self.get(name))
    }

    pub fn number(self, name: &[u8]) -> Option<f64>
        ensures { result ≡ number_in self.entry.tables.now.bundle.now self.entry.tables.now.properties.now self.entry.tables.now.numbers.now self.entry.numbers.now name.now }
    {
        number_of(self.tables.numbers, self.get(name))
    }

    pub fn delta(self, name: &[u8]) -> Option<f64>
        ensures { result ≡ delta_in self.entry.tables.now.bundle.now self.entry.tables.now.properties.now self.entry.tables.now.numbers.now self.entry.numbers.now name.now }
    {
        delta_of(self.get(name))
    }

    pub fn text(self, name: &[u8]) -> Option<Name>
        ensures { result ≡ text_in self.entry.tables.now.bundle.now self.entry.tables.now.properties.now self.entry.tables.now.numbers.now self.entry.numbers.now name.now }
    {
        text_of(self.get(name))
    }

    pub fn line_cap(self, name: &[u8]) -> Option<LineCap>
        ensures { result ≡ cap_in self.entry.tables.now.bundle.now self.entry.tables.now.properties.now self.entry.tables.now.numbers.now self.entry.numbers.now name.now }
    {
        cap_named(word_of(self.tables.bundle, self.get(name)))
    }

    pub fn text_position(self, name: &[u8]) -> Option<TextPosition>
        ensures { result ≡ position_in self.entry.tables.now.bundle.now self.entry.tables.now.properties.now self.entry.tables.now.numbers.now self.entry.numbers.now name.now }
    {
        position_named(word_of(self.tables.bundle, self.get(name)))
    }

    pub fn dashes(self, name: &[u8]) -> Option<Range>
        ensures { result ≡ dashes_in self.entry.tables.now.bundle.now self.entry.tables.now.properties.now self.entry.tables.now.numbers.now self.entry.numbers.now name.now }
    {
        dashes_of(self.get(name))
    }

    // Whether the property of a name is this identifier.
    pub fn is_word(self, name: &[u8], word: &[u8]) -> bool
        ensures { result ≡ is_word_in self.entry.tables.now.bundle.now self.entry.tables.now.properties.now self.entry.tables.now.numbers.now self.entry.numbers.now name.now word.now }
    {
        base::same_bytes(word_of(self.tables.bundle, self.get(name)), word)
    }
}

// No name with a colon is a colour's.
#[tactic(auto, unfolding(crate::specs::Get::color_of, crate::specs::Get::name_color))]
fn color_of(bundle: &[u8], p: Option<PropertyValue>) -> Option<Color>
    ensures { result ≡ color_of bundle.now p }
{
    match p? {
        PropertyValue::Identifier(Name::Plain(a)) => color::from_color_name(base::part(bundle, a)),
        PropertyValue::Shade(c) => Some(c),
        _ => None,
    }
}

#[tactic(auto, unfolding(crate::specs::Get::number_of))]
fn number_of(numbers: &[f64], p: Option<PropertyValue>) -> Option<f64>
    ensures { result ≡ number_of numbers.now p }
{
    match p? {
        PropertyValue::Numbers(r) => one_of(numbers, r),
        _ => None,
    }
}

// The only number of a range, cut to the table.
#[tactic(auto, using(crate::proofs::GetLaws::ones))]
fn one_of(numbers: &[f64], r: Range) -> Option<f64>
    ensures { result ≡ one_of (within r numbers.now) }
{
    match base::part(numbers, r) {
        [x] => Some(*x),
        _ => None,
    }
}

#[tactic(auto, unfolding(crate::specs::Get::delta_of))]
fn delta_of(p: Option<PropertyValue>) -> Option<f64>
    ensures { result ≡ delta_of p }
{
    match p? {
        PropertyValue::WidthDelta(x) => Some(x),
        _ => None,
    }
}

#[tactic(auto, unfolding(crate::specs::Get::dashes_of))]
fn dashes_of(p: Option<PropertyValue>) -> Option<Range>
    ensures { result ≡ dashes_of p }
{
    match p? {
        PropertyValue::Numbers(r) => Some(r),
        _ => None,
    }
}

#[tactic(auto, unfolding(crate::specs::Get::text_of))]
fn text_of(p: Option<PropertyValue>) -> Option<Name>
    ensures { result ≡ text_of p }
{
    match p? {
        PropertyValue::NoValue => Some(Name::Plain(Range { from: 0, to: 0 })),
        PropertyValue::Identifier(n) => Some(n),
        PropertyValue::Text(a) => Some(Name::Plain(a)),
        _ => None,
    }
}

// The bytes of an identifier of one part; no keyword has two.
#[tactic(auto, unfolding(crate::specs::Get::word_range, crate::specs::Get::name_range))]
fn word_of<'a>(bundle: &'a [u8], p: Option<PropertyValue>) -> &'a [u8]
    ensures { result.now ≡ word_of bundle.now p }
{
    match p {
        Some(PropertyValue::Identifier(Name::Plain(a))) => base::part(bundle, a),
        _ => &[],
    }
}

#[tactic(auto, using(crate::proofs::WordNames::caps))]
fn cap_named(word: &[u8]) -> Option<LineCap>
    ensures { result ≡ cap_named word.now }
{
    match word {
        b"none" | b"butt" => Some(LineCap::Butt),
        b"round" => Some(LineCap::Round),
        b"square" => Some(LineCap::Square),
        _ => None,
    }
}

#[tactic(auto, using(crate::proofs::WordNames::positions))]
fn position_named(word: &[u8]) -> Option<TextPosition>
    ensures { result ≡ position_named word.now }
{
    match word {
        b"center" => Some(TextPosition::Center),
        b"line" => Some(TextPosition::Line),
        _ => None,
    }
}
