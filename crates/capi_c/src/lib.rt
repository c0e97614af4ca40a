// The exports of the engine for C and Rust: capi's functions under their own names, with capi's promises. bindings/mapcss.h declares them.
#![tactic(auto)]

ghost use Rattle.std.specs.Prelude.{◌≡◌, false, length};
ghost use Rattle.keep.specs.Encode.{lengths};
ghost use Rattle.parser.specs.Load.{held, load_of};
ghost use Rattle.walk.specs.Maps.{maps_of};
ghost use Rattle.styles.specs.Styles.{styles_of};
ghost use Rattle.canvas.specs.Canvas.{canvas_of};
ghost use Rattle.drawing.specs.Lists.{nodes_of, areas_of};
ghost use Rattle.settings.specs.Settings.{counts_at, type_of, settings_of};
ghost use Rattle.answers.specs.Answers.{told_canvas};
ghost use Rattle.capi.specs.Answered.{Told, LoadAnswered, MapsAnswered, StylesAnswered, ListAnswered};

use walk::maps::Maps;

#[unsafe(no_mangle)]
pub extern "C" fn mapcss_load(
    bundle: &[u8],
    rules: &mut [u32],
    selectors: &mut [u32],
    tests: &mut [u32],
    properties: &mut [u32],
    numbers: &mut [f64],
    colors: &mut [u32],
    out: &mut [u64],
) -> u64
    ensures { LoadAnswered (load_of bundle.now (lengths (length rules.old) (length selectors.old) (length tests.old) (length properties.old) (length numbers.old) (length colors.old))) result (held rules.new selectors.new tests.new properties.new numbers.new colors.new) out.old out.new }
{
    capi::mapcss_load(
        bundle, rules, selectors, tests, properties, numbers, colors, out,
    )
}

#[unsafe(no_mangle)]
pub extern "C" fn mapcss_property_maps(
    bundle: &[u8],
    rules: &[u32],
    selectors: &[u32],
    tests: &[u32],
    properties: &[u32],
    numbers: &[f64],
    counts: &[u64],
    zoom: u8,
    entity: &[u8],
    maps: &mut Maps,
    out: &mut [u64],
) -> u64
    ensures { MapsAnswered (maps_of bundle.now rules.now selectors.now tests.now properties.now numbers.now (counts_at counts.now) zoom entity.now) result maps.new out.old out.new }
{
    capi::mapcss_property_maps(
        bundle, rules, selectors, tests, properties, numbers, counts, zoom, entity, maps, out,
    )
}

#[unsafe(no_mangle)]
pub extern "C" fn mapcss_styles(
    bundle: &[u8],
    rules: &[u32],
    selectors: &[u32],
    tests: &[u32],
    properties: &[u32],
    numbers: &[f64],
    counts: &[u64],
    zoom: u8,
    style_type: u8,
    font: &[f64],
    entity: &[u8],
    words: &mut [u64; 1664],
    floats: &mut [f64; 192],
    layers: &mut [i64; 32],
    out: &mut [u64],
) -> u64
    ensures { StylesAnswered (styles_of bundle.now rules.now selectors.now tests.now properties.now numbers.now (counts_at counts.now) zoom (settings_of style_type font.now false) entity.now) result words.new floats.new layers.new out.old out.new }
{
    capi::mapcss_styles(
        bundle, rules, selectors, tests, properties, numbers, counts, zoom, style_type, font,
        entity, words, floats, layers, out,
    )
}

#[unsafe(no_mangle)]
pub extern "C" fn mapcss_canvas_color(
    bundle: &[u8],
    rules: &[u32],
    selectors: &[u32],
    tests: &[u32],
    properties: &[u32],
    numbers: &[f64],
    counts: &[u64],
    style_type: u8,
    out: &mut [u64],
) -> u64
    ensures { Told (told_canvas (canvas_of bundle.now rules.now selectors.now tests.now properties.now numbers.now (counts_at counts.now) (type_of style_type))) result out.old out.new }
{
    capi::mapcss_canvas_color(
        bundle, rules, selectors, tests, properties, numbers, counts, style_type, out,
    )
}

#[unsafe(no_mangle)]
pub extern "C" fn mapcss_style_entities(
    bundle: &[u8],
    rules: &[u32],
    selectors: &[u32],
    tests: &[u32],
    properties: &[u32],
    numbers: &[f64],
    counts: &[u64],
    zoom: u8,
    style_type: u8,
    font: &[f64],
    for_labels: bool,
    nodes: &[u8],
    list: &mut [u32],
    out: &mut [u64],
) -> u64
    ensures { ListAnswered (nodes_of bundle.now rules.now selectors.now tests.now properties.now numbers.now (counts_at counts.now) zoom (settings_of style_type font.now for_labels) (length list.old) nodes.now) result list.new out.old out.new }
{
    capi::mapcss_style_entities(
        bundle, rules, selectors, tests, properties, numbers, counts, zoom, style_type, font,
        for_labels, nodes, list, out,
    )
}

#[unsafe(no_mangle)]
pub extern "C" fn mapcss_style_areas(
    bundle: &[u8],
    rules: &[u32],
    selectors: &[u32],
    tests: &[u32],
    properties: &[u32],
    numbers: &[f64],
    counts: &[u64],
    zoom: u8,
    style_type: u8,
    font: &[f64],
    for_labels: bool,
    ways: &[u8],
    multipolygons: &[u8],
    list: &mut [u32],
    out: &mut [u64],
) -> u64
    ensures { ListAnswered (areas_of bundle.now rules.now selectors.now tests.now properties.now numbers.now (counts_at counts.now) zoom (settings_of style_type font.now for_labels) (length list.old) ways.now multipolygons.now) result list.new out.old out.new }
{
    capi::mapcss_style_areas(
        bundle,
        rules,
        selectors,
        tests,
        properties,
        numbers,
        counts,
        zoom,
        style_type,
        font,
        for_labels,
        ways,
        multipolygons,
        list,
        out,
    )
}
