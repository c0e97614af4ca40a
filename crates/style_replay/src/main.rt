// Replays stored styles (differential/README.md has their form and how they were made) against the exported styler, all words,
// floats and tags of each layer included. It prints the number of each case that differs, then the totals.
#![tactic(auto)]

ghost use Rattle.std.specs.Prelude.{◌≤◌, ◌<◌, length, IfSome};

use base::{Range, byte_at, part};
use capi::{mapcss_load, mapcss_styles};
use std::io;
use stdio::cases::{
    Case, bits_of, ends_at, float_at, is_told, long_at, piece_at, replay_cases, word_at,
};
use stdio::zeros;
use table::Tables;

// What out holds before.
const UNSET: u64 = u64::MAX;

fn main(rt: HostRuntime) -> io::Result<()> {
    let mut room = zeros::<524288>();
    replay_cases(&mut room, &mut rt.stdin(), &mut rt.stdout(), &Styles)
}

// Stored styles.
struct Styles;

impl Case for Styles {
    ghost answers = { λ _ s at r. IfSome r (λ e. (at < e.0) × (e.0 ≤ length s)) };

    fn at(&self, s: &[u8], at: usize) -> Option<(usize, bool)> {
        let bundle = piece_at(s, at)?;
        let settings = Range {
            from: bundle.to,
            to: bundle.to + 11,
        };
        let entity = piece_at(s, settings.to)?;
        let answer = piece_at(s, entity.to)?;
        let agrees = agrees(
            part(s, bundle),
            part(s, settings),
            part(s, entity),
            part(s, answer),
        );
        Some((answer.to, agrees))
    }
}

// Whether the bundle loads, and the styler answers as the case says.
fn agrees(bundle: &[u8], settings: &[u8], entity: &[u8], answer: &[u8]) -> bool {
    let mut rules = [u32::MAX; 4096];
    let mut selectors = [u32::MAX; 4096];
    let mut tests = [u32::MAX; 4096];
    let mut properties = [u32::MAX; 4096];
    let mut numbers = [1.5f64; 512];
    let mut colors = [u32::MAX; 4096];
    let mut counts = [UNSET; 6];
    let number = mapcss_load(
        bundle,
        &mut rules,
        &mut selectors,
        &mut tests,
        &mut properties,
        &mut numbers,
        &mut colors,
        &mut counts,
    );
    if number != 0 {
        return false;
    }
    let tables = Tables {
        bundle,
        rules: &rules,
        selectors: &selectors,
        tests: &tests,
        properties: &properties,
        numbers: &numbers,
    };
    styles_as(&tables, &counts, settings, entity, answer)
}

// What is lent holds something else before.
fn styles_as(t: &Tables, counts: &[u64], settings: &[u8], entity: &[u8], answer: &[u8]) -> bool {
    let font = [float_at(settings, 3); 1];
    let given = usize::from(byte_at(settings, 2) == 1);
    let mut words = [UNSET; 1664];
    let mut floats = [1.5f64; 192];
    let mut layers = [7i64; 32];
    let mut out = [UNSET; 6];
    let number = mapcss_styles(
        t.bundle,
        t.rules,
        t.selectors,
        t.tests,
        t.properties,
        t.numbers,
        counts,
        byte_at(settings, 0),
        byte_at(settings, 1),
        &font[..given],
        entity,
        &mut words,
        &mut floats,
        &mut layers,
        &mut out,
    );
    let n = layer_count(answer, number);
    is_told(answer, number, &out, n as u64)
        && out[5] == UNSET
        && layers_are(&words, &floats, &layers, answer, n)
        && ends_at(answer, number, 264 * n + 2)
}

// The stored number of layers; a refusal leaves none.
fn layer_count(answer: &[u8], number: u64) -> usize
    ensures { result ≤ 255 }
{
    if number == 0 {
        return usize::from(byte_at(answer, 1));
    }
    0
}

// Whether the words, floats and tags are those of the stored layers, with zeros behind them.
fn layers_are(
    words: &[u64; 1664],
    floats: &[f64; 192],
    tags: &[i64; 32],
    answer: &[u8],
    n: usize,
) -> bool {
    words
        .chunks_exact(52)
        .zip(floats.chunks_exact(6))
        .zip(tags.iter())
        .enumerate()
        .all(|(k, ((words, floats), tag))| layer_is(
            words,
            floats,
            *tag,
            stored_layer(answer, n, k),
        ))
}

// The 264 bytes of a layer; none behind the stored ones.
fn stored_layer(answer: &[u8], n: usize, k: usize) -> &[u8] {
    if n <= k || answer.len() / 264 < k {
        return &[];
    }
    let from = 264 * k + 2;
    part(
        answer,
        Range {
            from,
            to: from + 264,
        },
    )
}

// Whether a layer has the stored words, floats and tag `layer`: of floats their bits, and all NaN are one.
fn layer_is(words: &[u64], floats: &[f64], tag: i64, stored: &[u8]) -> bool {
    words
        .iter()
        .enumerate()
        .all(|(i, &w)| w == word_at(stored, 4 * i) as u64)
        && floats.iter().enumerate().all(|(i, &x)| bits_of(x)
            == long_at(stored, 208 + 8 * i) as u64)
        && tag.cast_unsigned() == long_at(stored, 256) as u64
}
