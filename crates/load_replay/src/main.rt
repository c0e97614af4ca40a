// Replays stored loads (differential/README.md has their form and how they were made) against the exported loader, the
// words of all six tables included. It prints the number of each case that differs, then the totals.
#![tactic(auto)]

ghost use Rattle.std.specs.Prelude.{◌≤◌, ◌<◌, length, IfSome};

use base::{Range, part};
use capi::mapcss_load;
use std::io;
use stdio::cases::{
    Case, bits_of, count_at, ends_at, is_byte, is_refusal, is_short, long_at, piece_at,
    replay_cases, short_at, words_are,
};
use stdio::zeros;

fn main(rt: HostRuntime) -> io::Result<()> {
    let mut room = zeros::<524288>();
    replay_cases(&mut room, &mut rt.stdin(), &mut rt.stdout(), &Loads)
}

// Stored loads.
struct Loads;

impl Case for Loads {
    ghost answers = { λ _ s at r. IfSome r (λ e. (at < e.0) × (e.0 ≤ length s)) };

    fn at(&self, s: &[u8], at: usize) -> Option<(usize, bool)> {
        let bundle = piece_at(s, at)?;
        let lent = Range {
            from: bundle.to,
            to: bundle.to + 12,
        };
        let answer = piece_at(s, lent.to)?;
        let agrees = agrees(part(s, bundle), part(s, lent), part(s, answer));
        Some((answer.to, agrees))
    }
}

// Whether the loader answers as the case says. What is lent holds something else before.
fn agrees(bundle: &[u8], lent: &[u8], answer: &[u8]) -> bool {
    let mut rules = [u32::MAX; 4096];
    let mut selectors = [u32::MAX; 4096];
    let mut tests = [u32::MAX; 4096];
    let mut properties = [u32::MAX; 4096];
    let mut numbers = [1.5f64; 512];
    let mut colors = [u32::MAX; 4096];
    let a = short_at(lent, 0).min(4096);
    let b = short_at(lent, 2).min(4096);
    let c = short_at(lent, 4).min(4096);
    let d = short_at(lent, 6).min(4096);
    let e = short_at(lent, 8).min(512);
    let f = short_at(lent, 10).min(4096);
    loads_as(
        bundle,
        &mut rules[..a],
        &mut selectors[..b],
        &mut tests[..c],
        &mut properties[..d],
        &mut numbers[..e],
        &mut colors[..f],
        answer,
    )
}

fn loads_as(
    bundle: &[u8],
    rules: &mut [u32],
    selectors: &mut [u32],
    tests: &mut [u32],
    properties: &mut [u32],
    numbers: &mut [f64],
    colors: &mut [u32],
    answer: &[u8],
) -> bool {
    let mut out = [u64::MAX; 6];
    let number = mapcss_load(
        bundle, rules, selectors, tests, properties, numbers, colors, &mut out,
    );
    if !is_answer(answer, number, out) {
        return false;
    }
    let a = count_at(answer, number, 1);
    let b = count_at(answer, number, 3);
    let c = count_at(answer, number, 5);
    let d = count_at(answer, number, 7);
    let e = count_at(answer, number, 9);
    let f = count_at(answer, number, 11);
    let from_b = 13 + 16 * a;
    let from_c = from_b + 16 * b;
    let from_d = from_c + 16 * c;
    let from_e = from_d + 16 * d;
    let from_f = from_e + 8 * e;
    words_are(rules, answer, 13, 8 * a)
        && words_are(selectors, answer, from_b, 8 * b)
        && words_are(tests, answer, from_c, 8 * c)
        && words_are(properties, answer, from_d, 8 * d)
        && numbers_are(numbers, answer, from_e, e)
        && words_are(colors, answer, from_f, 8 * f)
        && ends_at(answer, number, from_f + 16 * f)
}

// The number of a load is 0 and is followed by its counts; a refusal is its five numbers.
fn is_answer(answer: &[u8], number: u64, out: [u64; 6]) -> bool {
    if !is_byte(answer, 0, number) {
        return false;
    }
    if number == 0 {
        return out
            .iter()
            .enumerate()
            .all(|(i, &n)| is_short(answer, 2 * i + 1, n));
    }
    out[5] == 0 && is_refusal(answer, &out)
}

// Whether the table has the stored numbers by their bits, of which there are so many from a place on, and zeros behind them.
fn numbers_are(t: &[f64], answer: &[u8], at: usize, entries: usize) -> bool
    requires { (at ≤ 8388608) × (entries ≤ 65535) }
{
    t.iter().enumerate().all(|(i, &x)| bits_of(x) == stored_bits(answer, at, entries, i))
}

fn stored_bits(answer: &[u8], at: usize, entries: usize, i: usize) -> u64
    requires { (at ≤ 8388608) × (entries ≤ 65535) }
{
    if i < entries {
        return long_at(answer, at + 8 * i) as u64;
    }
    0
}
