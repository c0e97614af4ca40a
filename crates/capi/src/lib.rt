// The engine for C and Rust: load, property maps, styles, canvas colour, drawing lists. Numbers and slices go in, and answers go as numbers
// into lent slices; bindings/mapcss.h declares all. An export answers 0, or a refusal's number; then it stores number, reason, text, line
// and character in out[0..5], and all that was lent to be filled is zero. A slice out that is shorter takes what it has room for.
//
// mapcss_load loads a bundle's sheet into six tables, laid out as docs/TABLES.md says, and stores the counts of rules, selectors, tests,
// properties, numbers and colours in out[0..6]; a refusal stores 0 in out[5].
//
// The others take the tables and the bundle of a load, and counts as mapcss_load stores them; a count that is not there is 0. style_type
// is 1 for MapsMe, else JOSM; font is empty, or its first number is the font size multiplier. They store five words in out[0..5].
//
// mapcss_property_maps: the number of layers, 0, 0, 0, 0. maps takes 33 rows of 131 words, a row for each layer in order: the number of the
// selector that named it, how many properties it has, their numbers; then zeros.
// mapcss_styles: the number of styled layers, 0, 0, 0, 0. For styled layer k 52 words at k * 52, 6 floats at k * 6, one number at k:
//   words   0 the selector that named the layer; 1 tag `layer` there (layers[k] has it); 2 foreground fill; 3 opacity, 4 fill opacity,
//           5 width, 6 casing width, 7 font size there; 8 line cap, 9 casing line cap (0 none, 1 butt, 2 round, 3 square); 10 text
//           position (0 none, 1 center, 2 line); from 11 on the colours color, fill, background, casing, text (1 if there, r, g, b);
//           from 31 on dashes, casing dashes (1 if there, from, to in the table of numbers); from 37 on icon image, fill image, text
//           (the count of ranges of the bundle, 0 to 2; from, to, from, to; a colon stands between two)
//   floats  z-index, opacity, fill opacity, width, casing width, font size
// mapcss_canvas_color: 1 if there is one, r, g, b, 0.
// mapcss_style_entities, mapcss_style_areas: the number of entries, 0, 0, 0, 0. An entry is three words of the list: 1 for the stream of
// multipolygons, else 0; the entity's place there; the layer's place among its styled layers.
#![tactic(auto)]

ghost use Rattle.std.specs.Prelude.{◌≡◌, false, length};
ghost use Rattle.keep.specs.Encode.{lengths};
ghost use Rattle.parser.specs.Load.{held, load_of};
ghost use Rattle.walk.specs.Maps.{maps_of};
ghost use Rattle.styles.specs.Styles.{styles_of};
ghost use Rattle.canvas.specs.Canvas.{canvas_of};
ghost use Rattle.drawing.specs.Lists.{nodes_of, areas_of};
ghost use Rattle.settings.specs.Settings.{counts_at, type_of, settings_of};
ghost use Rattle.answers.specs.Answers.{told_canvas};
ghost use Rattle.capi.specs.Answered.{Told, LoadAnswered, MapsAnswered, StylesAnswered, ListAnswered};

use answers::{styled_layers, told_canvas, told_count, told_load, told_styles};
use canvas::canvas_fill_color;
use parser::load;
use settings::{counts_at, settings_of, type_of};
use style_rows::store_layers;
use table::Tables;
use walk::maps::Maps;
use walk::property_maps;

pub fn mapcss_load(
    bundle: &[u8],
    rules: &mut [u32],
    selectors: &mut [u32],
    tests: &mut [u32],
    properties: &mut [u32],
    numbers: &mut [f64],
    colors: &mut [u32],
    out: &mut [u64],
) -> u64
    ensures { LoadAnswered (load_of bundle.now (lengths (length rules.old) (length selectors.old) (length tests.old) (length properties.old) (length numbers.old) (length colors.old))) result (held rules.new selectors.new tests.new properties.new numbers.new colors.new) out.old out.new }
{
    told_load(load(bundle, rules, selectors, tests, properties, numbers, colors)).tell(out)
}

pub fn mapcss_property_maps(
    bundle: &[u8],
    rules: &[u32],
    selectors: &[u32],
    tests: &[u32],
    properties: &[u32],
    numbers: &[f64],
    counts: &[u64],
    zoom: u8,
    entity: &[u8],
    maps: &mut Maps,
    out: &mut [u64],
) -> u64
    ensures { MapsAnswered (maps_of bundle.now rules.now selectors.now tests.now properties.now numbers.now (counts_at counts.now) zoom entity.now) result maps.new out.old out.new }
{
    let tables = Tables {
        bundle,
        rules,
        selectors,
        tests,
        properties,
        numbers,
    };
    let n = counts_at(counts);
    told_count(property_maps(&tables, n, zoom, entity, maps)).tell(out)
}

pub fn mapcss_styles(
    bundle: &[u8],
    rules: &[u32],
    selectors: &[u32],
    tests: &[u32],
    properties: &[u32],
    numbers: &[f64],
    counts: &[u64],
    zoom: u8,
    style_type: u8,
    font: &[f64],
    entity: &[u8],
    words: &mut [u64; 1664],
    floats: &mut [f64; 192],
    layers: &mut [i64; 32],
    out: &mut [u64],
) -> u64
    ensures { StylesAnswered (styles_of bundle.now rules.now selectors.now tests.now properties.now numbers.now (counts_at counts.now) zoom (settings_of style_type font.now false) entity.now) result words.new floats.new layers.new out.old out.new }
{
    let tables = Tables {
        bundle,
        rules,
        selectors,
        tests,
        properties,
        numbers,
    };
    let x = styles::entity_styles(
        &tables,
        counts_at(counts),
        zoom,
        settings_of(style_type, font, false),
        entity,
    );
    store_layers(styled_layers(&x), words, floats, layers);
    told_styles(&x).tell(out)
}

pub fn mapcss_canvas_color(
    bundle: &[u8],
    rules: &[u32],
    selectors: &[u32],
    tests: &[u32],
    properties: &[u32],
    numbers: &[f64],
    counts: &[u64],
    style_type: u8,
    out: &mut [u64],
) -> u64
    ensures { Told (told_canvas (canvas_of bundle.now rules.now selectors.now tests.now properties.now numbers.now (counts_at counts.now) (type_of style_type))) result out.old out.new }
{
    let tables = Tables {
        bundle,
        rules,
        selectors,
        tests,
        properties,
        numbers,
    };
    told_canvas(canvas_fill_color(&tables, counts_at(counts), type_of(style_type))).tell(out)
}

pub fn mapcss_style_entities(
    bundle: &[u8],
    rules: &[u32],
    selectors: &[u32],
    tests: &[u32],
    properties: &[u32],
    numbers: &[f64],
    counts: &[u64],
    zoom: u8,
    style_type: u8,
    font: &[f64],
    for_labels: bool,
    nodes: &[u8],
    list: &mut [u32],
    out: &mut [u64],
) -> u64
    ensures { ListAnswered (nodes_of bundle.now rules.now selectors.now tests.now properties.now numbers.now (counts_at counts.now) zoom (settings_of style_type font.now for_labels) (length list.old) nodes.now) result list.new out.old out.new }
{
    let tables = Tables {
        bundle,
        rules,
        selectors,
        tests,
        properties,
        numbers,
    };
    told_count(drawing::style_entities(
        &tables,
        counts_at(counts),
        zoom,
        settings_of(style_type, font, for_labels),
        nodes,
        list,
    ))
    .tell(out)
}

pub fn mapcss_style_areas(
    bundle: &[u8],
    rules: &[u32],
    selectors: &[u32],
    tests: &[u32],
    properties: &[u32],
    numbers: &[f64],
    counts: &[u64],
    zoom: u8,
    style_type: u8,
    font: &[f64],
    for_labels: bool,
    ways: &[u8],
    multipolygons: &[u8],
    list: &mut [u32],
    out: &mut [u64],
) -> u64
    ensures { ListAnswered (areas_of bundle.now rules.now selectors.now tests.now properties.now numbers.now (counts_at counts.now) zoom (settings_of style_type font.now for_labels) (length list.old) ways.now multipolygons.now) result list.new out.old out.new }
{
    let tables = Tables {
        bundle,
        rules,
        selectors,
        tests,
        properties,
        numbers,
    };
    told_count(drawing::style_areas(
        &tables,
        counts_at(counts),
        zoom,
        settings_of(style_type, font, for_labels),
        ways,
        multipolygons,
        list,
    ))
    .tell(out)
}
