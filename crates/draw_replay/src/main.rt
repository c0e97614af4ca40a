// Replays stored drawing lists (differential/README.md has their form and how they were made) against the two exports that make
// them. It prints the number of each case that differs, then the totals.
#![tactic(auto)]

ghost use Rattle.std.specs.Prelude.{◌≤◌, ◌<◌, length, IfSome};

use base::{Range, byte_at, part};
use capi::{mapcss_load, mapcss_style_areas, mapcss_style_entities};
use std::io;
use stdio::cases::{
    Case, count_at, ends_at, float_at, is_told, piece_at, replay_cases, short_at, words_are,
};
use stdio::zeros;
use table::Tables;

// What out holds before.
const UNSET: u64 = u64::MAX;

fn main(rt: HostRuntime) -> io::Result<()> {
    let mut room = zeros::<524288>();
    replay_cases(&mut room, &mut rt.stdin(), &mut rt.stdout(), &Lists)
}

// Stored drawing lists.
struct Lists;

impl Case for Lists {
    ghost answers = { λ _ s at r. IfSome r (λ e. (at < e.0) × (e.0 ≤ length s)) };

    fn at(&self, s: &[u8], at: usize) -> Option<(usize, bool)> {
        let bundle = piece_at(s, at)?;
        let settings = Range {
            from: bundle.to,
            to: bundle.to + 15,
        };
        let first = piece_at(s, settings.to)?;
        let second = second_at(s, part(s, settings), first.to)?;
        let answer = piece_at(s, second.to)?;
        let agrees = agrees(
            part(s, bundle),
            part(s, settings),
            part(s, first),
            part(s, second),
            part(s, answer),
        );
        Some((answer.to, agrees))
    }
}

// Only areas have a second stream.
fn second_at(s: &[u8], settings: &[u8], at: usize) -> Option<Range>
    requires { at ≤ length s.now }
    ensures { IfSome result (λ r. (at ≤ r.to) × (r.to ≤ length s.now)) }
{
    if are_areas(settings) {
        return piece_at(s, at);
    }
    Some(Range { from: at, to: at })
}

fn are_areas(settings: &[u8]) -> bool {
    byte_at(settings, 12) == 1
}

// Whether the bundle loads, the list is as the case says, and what stands behind the words lent has stayed.
fn agrees(bundle: &[u8], settings: &[u8], first: &[u8], second: &[u8], answer: &[u8]) -> bool {
    let mut rules = [u32::MAX; 4096];
    let mut selectors = [u32::MAX; 4096];
    let mut tests = [u32::MAX; 4096];
    let mut properties = [u32::MAX; 4096];
    let mut numbers = [1.5f64; 512];
    let mut colors = [u32::MAX; 4096];
    let mut counts = [UNSET; 6];
    let number = mapcss_load(
        bundle,
        &mut rules,
        &mut selectors,
        &mut tests,
        &mut properties,
        &mut numbers,
        &mut colors,
        &mut counts,
    );
    let mut list = [u32::MAX; 16384];
    let lent = short_at(settings, 13).min(16384);
    let tables = Tables {
        bundle,
        rules: &rules,
        selectors: &selectors,
        tests: &tests,
        properties: &properties,
        numbers: &numbers,
    };
    number == 0
        && lists_as(
            &tables,
            &counts,
            settings,
            first,
            second,
            &mut list[..lent],
            answer,
        )
        && list[lent..].iter().all(|&w| w == u32::MAX)
}

fn lists_as(
    t: &Tables,
    counts: &[u64],
    settings: &[u8],
    first: &[u8],
    second: &[u8],
    list: &mut [u32],
    answer: &[u8],
) -> bool {
    let mut out = [UNSET; 6];
    let number = if are_areas(settings) {
        areas_of(t, counts, settings, first, second, list, &mut out)
    } else {
        entities_of(t, counts, settings, first, list, &mut out)
    };
    let n = count_at(answer, number, 1);
    is_told(answer, number, &out, n as u64)
        && out[5] == UNSET
        && words_are(list, answer, 3, 3 * n)
        && ends_at(answer, number, 6 * n + 3)
}

fn areas_of(
    t: &Tables,
    counts: &[u64],
    settings: &[u8],
    first: &[u8],
    second: &[u8],
    list: &mut [u32],
    out: &mut [u64],
) -> u64 {
    let font = [float_at(settings, 3); 1];
    let given = usize::from(byte_at(settings, 2) == 1);
    mapcss_style_areas(
        t.bundle,
        t.rules,
        t.selectors,
        t.tests,
        t.properties,
        t.numbers,
        counts,
        byte_at(settings, 0),
        byte_at(settings, 1),
        &font[..given],
        byte_at(settings, 11) == 1,
        first,
        second,
        list,
        out,
    )
}

fn entities_of(
    t: &Tables,
    counts: &[u64],
    settings: &[u8],
    first: &[u8],
    list: &mut [u32],
    out: &mut [u64],
) -> u64 {
    let font = [float_at(settings, 3); 1];
    let given = usize::from(byte_at(settings, 2) == 1);
    mapcss_style_entities(
        t.bundle,
        t.rules,
        t.selectors,
        t.tests,
        t.properties,
        t.numbers,
        counts,
        byte_at(settings, 0),
        byte_at(settings, 1),
        &font[..given],
        byte_at(settings, 11) == 1,
        first,
        list,
        out,
    )
}
