// The style of a layer: property_map_to_style of styler.rs, over the numbers of the layer's properties.
#![tactic(auto)]

ghost use Rattle.std.specs.Prelude.{◌≡◌};
ghost use Rattle.walk.specs.Rows.{numbers_at};
ghost use Rattle.style.specs.Style.{default_z, casing_multiplier, width_or_zero, casing_only, full_casing, casing_width, font_size, text_style_in, z_index_in, foreground_in, style_at};

use base::Range;
use color::Color;
use table::{Name, Tables};
use walk::maps::{Maps, row_of};

mod get;

#[derive(Clone, Copy)]
pub enum StyleType {
    Josm,
    MapsMe,
}

#[derive(Clone, Copy)]
pub enum LineCap {
    Butt = 1,
    Round,
    Square,
}

#[derive(Clone, Copy)]
pub enum TextPosition {
    Center = 1,
    Line,
}

// A row of property numbers, beside the tables that the properties are in.
#[derive(Clone, Copy)]
pub struct Row<'t, 'n> {
    pub tables: &'t Tables<'t>,
    pub numbers: &'n [u32],
}

// The arguments of a style call besides tables, counts, bundle, zoom and entities.
#[derive(Clone, Copy)]
pub struct Settings {
    pub style_type: StyleType,
    pub font_multiplier: Option<f64>,
    pub for_labels: bool,
}

// A text, and how it is drawn.
#[derive(Clone, Copy)]
pub struct TextStyle {
    pub text: Name,
    pub text_color: Option<Color>,
    pub text_position: Option<TextPosition>,
    pub font_size: Option<f64>,
}

#[derive(Clone, Copy, Default)]
pub struct Style {
    pub layer: Option<i64>,
    pub z_index: f64,
    pub color: Option<Color>,
    pub fill_color: Option<Color>,
    pub is_foreground_fill: bool,
    pub background_color: Option<Color>,
    pub opacity: Option<f64>,
    pub fill_opacity: Option<f64>,
    pub width: Option<f64>,
    pub dashes: Option<Range>,
    pub line_cap: Option<LineCap>,
    pub casing_color: Option<Color>,
    pub casing_width: Option<f64>,
    pub casing_dashes: Option<Range>,
    pub casing_line_cap: Option<LineCap>,
    pub icon_image: Option<Name>,
    pub fill_image: Option<Name>,
    pub text_style: Option<TextStyle>,
}

// The style of a layer with the properties of a row, for an entity of a kind and with a tag `layer`; the default layer's width, or 0,
// is the one that a casing falls back on. crates/shown restates the promise as the style of the theory.
pub fn property_map_to_style(
    row: Row,
    kind: u8,
    layer: Option<i64>,
    default_width: f64,
    settings: Settings,
) -> Style
    ensures { result ≡ style_at row.entry.tables.now.bundle.now row.entry.tables.now.properties.now row.entry.tables.now.numbers.now row.entry.numbers.now kind layer default_width settings }
{
    let opacity = row.number(b"opacity");
    let fill_opacity = row.number(b"fill-opacity");
    let width = row.number(b"width");
    let base = width.unwrap_or(default_width);
    let style_type = settings.style_type;
    let casing = row.casing_width(base, style_type);
    Style {
        layer,
        z_index: row.z_index(kind),
        color: row.color(b"color"),
        fill_color: row.color(b"fill-color"),
        is_foreground_fill: row.is_foreground_fill(),
        background_color: row.color(b"background-color"),
        opacity,
        fill_opacity,
        width,
        dashes: row.dashes(b"dashes"),
        line_cap: row.line_cap(b"linecap"),
        casing_color: row.color(b"casing-color"),
        casing_width: casing,
        casing_dashes: row.dashes(b"casing-dashes"),
        casing_line_cap: row.line_cap(b"casing-linecap"),
        icon_image: row.text(b"icon-image"),
        fill_image: row.text(b"fill-image"),
        text_style: row.text_style(settings),
    }
}

impl<'t, 'n> Row<'t, 'n> {
    // The row of layer i of a table of maps.
    pub fn at(tables: &'t Tables<'t>, maps: &'n Maps, i: usize) -> Row<'t, 'n>
        ensures of_tables { result.tables.now ≡ tables.now }
        ensures numbers { result.numbers.now ≡ numbers_at maps.now i }
    {
        Row {
            tables,
            numbers: row_of(maps, i),
        }
    }
}

impl Row<'_, '_> {
    // The full casing width.
    fn casing_width(self, base: f64, style_type: StyleType) -> Option<f64>
        ensures { result ≡ casing_width self.entry.tables.now.bundle.now self.entry.tables.now.properties.now self.entry.tables.now.numbers.now self.entry.numbers.now base style_type }
    {
        let one = self.number(b"casing-width");
        let delta = self.delta(b"casing-width");
        full_casing(
            casing_multiplier(style_type),
            base,
            casing_only(base, one, delta),
        )
    }

    // The z-index of a layer, for an entity of a kind.
    pub fn z_index(self, kind: u8) -> f64
        ensures { result ≡ z_index_in self.entry.tables.now.bundle.now self.entry.tables.now.properties.now self.entry.tables.now.numbers.now self.entry.numbers.now kind }
    {
        self.number(b"z-index").unwrap_or(default_z_index(kind))
    }

    // Whether a layer's fill is drawn in the foreground.
    pub fn is_foreground_fill(self) -> bool
        ensures { result ≡ foreground_in self.entry.tables.now.bundle.now self.entry.tables.now.properties.now self.entry.tables.now.numbers.now self.entry.numbers.now }
    {
        !self.is_word(b"fill-position", b"background")
    }

    #[tactic(auto, unfolding(crate::specs::Style::text_style_of))]
    fn text_style(self, settings: Settings) -> Option<TextStyle>
        ensures { result ≡ text_style_in self.entry.tables.now.bundle.now self.entry.tables.now.properties.now self.entry.tables.now.numbers.now self.entry.numbers.now settings }
    {
        let text = self.text(b"text")?;
        Some(TextStyle {
            text,
            text_color: self.color(b"text-color"),
            text_position: self.text_position(b"text-position"),
            font_size: font_size(self.number(b"font-size"), settings),
        })
    }
}

// The width of a layer that may have none, and then counts as 0.
pub fn width_or_zero(width: Option<f64>) -> f64
    ensures { result ≡ width_or_zero width }
{
    width.unwrap_or(0.0)
}

fn casing_multiplier(style_type: StyleType) -> f64
    ensures { result ≡ casing_multiplier style_type }
{
    match style_type {
        StyleType::Josm => 2.0,
        StyleType::MapsMe => 1.0,
    }
}

// A number, or a delta to the base width.
#[tactic(auto, unfolding(crate::specs::Style::casing_only, base::specs::Option::on_option))]
fn casing_only(base: f64, one: Option<f64>, delta: Option<f64>) -> Option<f64>
    ensures { result ≡ casing_only base one delta }
{
    one.or(delta.map(|d| base + d))
}

#[tactic(auto, unfolding(crate::specs::Style::full_casing, base::specs::Option::on_option))]
fn full_casing(multiplier: f64, base: f64, m: Option<f64>) -> Option<f64>
    ensures { result ≡ full_casing multiplier base m }
{
    m.map(|w| base + multiplier * w)
}

fn default_z_index(kind: u8) -> f64
    ensures { result ≡ default_z kind }
{
    match kind {
        0 => 4.0,
        2 => 1.0,
        _ => 3.0,
    }
}

#[tactic(auto, unfolding(crate::specs::Style::font_size, crate::specs::Style::multiplier_of, base::specs::Option::on_option), using(crate::proofs::GetLaws::or_one))]
fn font_size(m: Option<f64>, settings: Settings) -> Option<f64>
    ensures { result ≡ font_size m settings }
{
    let k = settings.font_multiplier.unwrap_or(1.0);
    m.map(|x| x * k)
}
