// Demand 3 on bytes (crates/mapcss/specs/Isolation.antt): two sheets and two open ways that differ outside the reach of layer `c`. Both
// sheets have the same rules of `c` and `*` in the same order, those test no tag but `highway`, and both tags `layer` are read as 1.
// The rules of `default` differ, one sheet has a layer `b` too, and ids and other tags differ.
#![tactic(auto)]

use base::refusal::Refusal;
use color::Color;
use std::io;
use stdio::cases::bits_of;
use stdio::line;
use table::{PropertyValue, Tables};
use valid::Counts;
use walk::maps::{Maps, ROW};

// Properties or a style written out: what they hold, and no place in a bundle or a table. 127 words are too much.
#[derive(Clone, Copy, PartialEq)]
struct Words {
    words: [u64; 127],
    count: usize,
}

impl Words {
    fn none() -> Words {
        Words {
            words: [0; 127],
            count: 0,
        }
    }

    // As far as there is room.
    fn push(&mut self, w: u64) {
        if self.count < self.words.len() {
            self.words[self.count] = w;
            self.count += 1;
        }
    }

    fn push_name(&mut self, name: &[u8]) {
        self.push(name.len() as u64);
        for b in name {
            self.push(u64::from(*b));
        }
    }

    // What it is, and its bits; all NaN are one.
    fn push_number(&mut self, kind: u64, x: f64) {
        self.push(kind);
        self.push(bits_of(x));
    }

    // A number that may be absent.
    fn push_measure(&mut self, m: Option<f64>) {
        match m {
            None => self.push_number(0, 0.0),
            Some(x) => self.push_number(1, x),
        }
    }

    // The tag `layer`, to the nearest f64.
    fn push_layer(&mut self, tag: Option<i64>) {
        match tag {
            None => self.push(0),
            Some(i) => self.push_number(1, std::num::nearest_i64_to_f64(i)),
        }
    }

    // The value of property q. A kind that the sheets do not have fills all the room.
    fn push_value(&mut self, tables: &Tables, q: usize) {
        match table::property_value(tables.properties, tables.numbers, q) {
            PropertyValue::Shade(c) => self.push(color_word(Some(c))),
            PropertyValue::Numbers(r) if r.from < r.to && r.to - r.from == 1 => {
                self.push_number(1, base::float_at(tables.numbers, r.from));
            }
            PropertyValue::WidthDelta(d) => self.push_number(2, d),
            _ => self.count = self.words.len(),
        }
    }
}

// What a sheet and an entity give.
#[derive(Clone, Copy)]
struct Given {
    loaded: bool,
    layers: u64,
    c: Words,
    c_style: Words,
    default: Words,
    default_style: Words,
}

fn main(rt: HostRuntime) -> io::Result<()> {
    let a = ask(
        b"\x01\x01sjway::*{width:1;} way[highway=path]::c{color:#ff0000;casing-width:eval(prop(\"width\")+1);} way{opacity:0.5;}",
        b"\x01\x07\x02\x07highway\x04path\x05layer\x011",
    );
    let b = ask(
        b"\x01\x01s\x93\x01way{opacity:0.25;} way::*{width:1;} way::b,way[highway=path]::c{color:#ff0000;casing-width:eval(prop(\"width\")+1);} way[lit=yes]{width:9;z-index:2;}",
        b"\x01\xac\x02\x04\x07highway\x04path\x05layer\x03+01\x03lit\x03yes\x04name\x01x",
    );
    let mut out = rt.stdout();
    line(
        &mut out,
        b"loaded",
        u64::from(a.loaded) + u64::from(b.loaded),
    )?;
    line(&mut out, b"layers", a.layers)?;
    line(&mut out, b"layers", b.layers)?;
    line(&mut out, b"c alike", alike(&a.c, &b.c))?;
    line(&mut out, b"c style alike", alike(&a.c_style, &b.c_style))?;
    line(&mut out, b"default alike", alike(&a.default, &b.default))?;
    line(
        &mut out,
        b"default style alike",
        alike(&a.default_style, &b.default_style),
    )
}

// 1 if both hold something, whole, and are equal.
fn alike(x: &Words, y: &Words) -> u64 {
    let whole = 0 < x.count && x.count < x.words.len();
    u64::from(whole && x == y)
}

// The tables: rules r, selectors s, tests t, properties p, numbers x, colours q, property maps m.
fn ask(bundle: &[u8], entity: &[u8]) -> Given {
    let mut r = [0u32; 4096];
    let mut s = [0u32; 4096];
    let mut t = [0u32; 4096];
    let mut p = [0u32; 4096];
    let mut x = [0.0f64; 512];
    let mut q = [0u32; 4096];
    let mut m = [0u32; 33 * ROW];
    let l = parser::load(bundle, &mut r, &mut s, &mut t, &mut p, &mut x, &mut q);
    let n = l.map(Counts::from).unwrap_or_default();
    let tables = Tables {
        bundle,
        rules: &r,
        selectors: &s,
        tests: &t,
        properties: &p,
        numbers: &x,
    };
    let k = walk::property_maps(&tables, n, 13, entity, &mut m).unwrap_or(0);
    let settings = style::Settings {
        style_type: style::StyleType::Josm,
        font_multiplier: None,
        for_labels: false,
    };
    let all = styles::entity_styles(&tables, n, 13, settings, entity);
    let c = properties_of(&tables, &m, b"c");
    let c_style = style_of(&tables, &all, b"c");
    let default = properties_of(&tables, &m, b"default");
    let default_style = style_of(&tables, &all, b"default");
    Given {
        loaded: 0 < n.rules,
        layers: k as u64,
        c,
        c_style,
        default,
        default_style,
    }
}

// The properties of the layer of this name: each name, then its value. A row that is not in use has none.
fn properties_of(tables: &Tables, m: &Maps, name: &[u8]) -> Words {
    let mut out = Words::none();
    if let Some(i) = walk::layer_place(tables, &m[..], 32, name) {
        for k in walk::maps::row_of(m, i) {
            out.push_name(walk::names::name_of(tables, *k));
            out.push_value(tables, *k as usize);
        }
    }
    out
}

fn color_word(c: Option<Color>) -> u64 {
    match c {
        None => 0,
        Some(c) => 16777216 + 65536 * u64::from(c.r) + 256 * u64::from(c.g) + u64::from(c.b),
    }
}

// The style of the layer of this name.
fn style_of(tables: &Tables, all: &Result<styles::EntityStyles, Refusal>, name: &[u8]) -> Words {
    let mut out = Words::none();
    let Ok(all) = all else {
        return out;
    };
    for l in all.styled() {
        if walk::names::is_layer(tables, l.selector, name) {
            out = style_words(l.style);
        }
    }
    out
}

// All flags, numbers and colours.
fn style_words(s: style::Style) -> Words {
    let mut out = Words::none();
    out.push_layer(s.layer);
    out.push(color_word(s.color));
    out.push(color_word(s.fill_color));
    out.push(color_word(s.background_color));
    out.push(color_word(s.casing_color));
    out.push(color_word(s.text_style.and_then(|t| t.text_color)));
    out.push_number(u64::from(s.is_foreground_fill), s.z_index);
    out.push_measure(s.opacity);
    out.push_measure(s.fill_opacity);
    out.push_measure(s.width);
    out.push_measure(s.casing_width);
    out.push_measure(s.text_style.and_then(|t| t.font_size));
    out
}
