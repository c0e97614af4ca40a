// A sheet through the exports, as it was loaded and with a word of its tables or a count spoilt: what each call answers.
#![tactic(auto)]

use capi::{
    mapcss_canvas_color, mapcss_load, mapcss_property_maps, mapcss_style_areas,
    mapcss_style_entities, mapcss_styles,
};
use std::io;
use std::io::Write;
use stdio::line;

type Table = [u32; 32];

// A bundle and the tables of its load: rules r, selectors s, tests t, properties p, numbers x, and their counts n.
#[derive(Clone, Copy)]
struct Loaded<'a> {
    sheet: &'a [u8],
    r: Table,
    s: Table,
    t: Table,
    p: Table,
    x: [f64; 4],
    n: [u64; 6],
}

fn main(rt: HostRuntime) -> io::Result<()> {
    let sheet = b"\x01\x01s\x35canvas{fill-color:#102030;} way|z13-{width:2;} {a:b;}";
    let mut r = [0u32; 32];
    let mut s = [0u32; 32];
    let mut t = [0u32; 32];
    let mut p = [0u32; 32];
    let mut x = [0.0f64; 4];
    let mut q = [0u32; 32];
    let mut n = [0u64; 6];
    let loaded = mapcss_load(
        sheet, &mut r, &mut s, &mut t, &mut p, &mut x, &mut q, &mut n,
    );
    let mut l = Loaded {
        sheet,
        r,
        s,
        t,
        p,
        x,
        n,
    };
    let mut to = rt.stdout();
    line(&mut to, b"load", loaded)?;
    line(&mut to, b"rules", l.n[0])?;
    line(&mut to, b"zoom", 12)?;
    ask(&mut to, &l, 12)?;
    line(&mut to, b"zoom", 13)?;
    ask(&mut to, &l, 13)?;
    l.r[0] = 0;
    line(&mut to, b"kind of the first rule", 0)?;
    ask(&mut to, &l, 13)?;
    l.r[0] = 1;
    l.n[3] = 5;
    line(&mut to, b"count of properties", 5)?;
    ask(&mut to, &l, 13)
}

// All calls for one open way: each answer, and its first word.
fn ask<W: Write>(to: &mut W, l: &Loaded, zoom: u8) -> io::Result<()> {
    ask_maps(to, l, zoom)?;
    ask_styles(to, l, zoom)?;
    ask_canvas(to, l)?;
    ask_nodes(to, l, zoom)?;
    ask_areas(to, l, zoom)
}

fn ask_maps<W: Write>(to: &mut W, l: &Loaded, zoom: u8) -> io::Result<()> {
    let mut out = [9u64; 5];
    let mut maps = [9u32; 4323];
    let a = mapcss_property_maps(
        l.sheet,
        &l.r,
        &l.s,
        &l.t,
        &l.p,
        &l.x,
        &l.n,
        zoom,
        b"\x01\x07\x00",
        &mut maps,
        &mut out,
    );
    told(to, b"maps", a, &out)?;
    line(to, b"first property", u64::from(maps[2]))
}

fn ask_styles<W: Write>(to: &mut W, l: &Loaded, zoom: u8) -> io::Result<()> {
    let mut out = [9u64; 5];
    let mut words = [9u64; 1664];
    let mut floats = [9.0f64; 192];
    let mut layers = [9i64; 32];
    let a = mapcss_styles(
        l.sheet,
        &l.r,
        &l.s,
        &l.t,
        &l.p,
        &l.x,
        &l.n,
        zoom,
        0,
        &[],
        b"\x01\x07\x00",
        &mut words,
        &mut floats,
        &mut layers,
        &mut out,
    );
    told(to, b"styles", a, &out)?;
    line(to, b"selector", words[0])
}

fn ask_canvas<W: Write>(to: &mut W, l: &Loaded) -> io::Result<()> {
    let mut out = [9u64; 5];
    let a = mapcss_canvas_color(l.sheet, &l.r, &l.s, &l.t, &l.p, &l.x, &l.n, 0, &mut out);
    told(to, b"canvas", a, &out)?;
    line(to, b"red", out[1])
}

fn ask_nodes<W: Write>(to: &mut W, l: &Loaded, zoom: u8) -> io::Result<()> {
    let mut out = [9u64; 5];
    let mut list = [9u32; 6];
    let a = mapcss_style_entities(
        l.sheet,
        &l.r,
        &l.s,
        &l.t,
        &l.p,
        &l.x,
        &l.n,
        zoom,
        0,
        &[],
        false,
        b"",
        &mut list,
        &mut out,
    );
    told(to, b"nodes", a, &out)
}

fn ask_areas<W: Write>(to: &mut W, l: &Loaded, zoom: u8) -> io::Result<()> {
    let mut out = [9u64; 5];
    let mut list = [9u32; 6];
    let a = mapcss_style_areas(
        l.sheet,
        &l.r,
        &l.s,
        &l.t,
        &l.p,
        &l.x,
        &l.n,
        zoom,
        0,
        &[],
        false,
        b"\x01\x07\x00",
        b"\x01\x07\x00",
        &mut list,
        &mut out,
    );
    told(to, b"areas", a, &out)?;
    line(to, b"first entry's stream", u64::from(list[0]))
}

fn told<W: Write>(to: &mut W, name: &[u8], answer: u64, out: &[u64; 5]) -> io::Result<()> {
    line(to, name, answer)?;
    line(to, b"  word", out[0])
}
