// Replays the cases that tests/layout_cases.py writes, which says what a case is. It prints the number of each case
// whose answer differs, then the totals.
#![tactic(auto)]

ghost use Rattle.std.specs.Prelude.{◌≤◌, ◌<◌, length, IfSome};

use base::refusal::Refusal;
use base::{Range, byte_at, part};
use entity::{EntityRange, Sort, StreamPlace};
use std::io;
use stdio::cases::{Case, piece_at, replay_cases, word_at};
use stdio::zeros;

fn main(rt: HostRuntime) -> io::Result<()> {
    let mut room = zeros::<65536>();
    replay_cases(&mut room, &mut rt.stdin(), &mut rt.stdout(), &Layouts)
}

// Stored layouts.
struct Layouts;

impl Case for Layouts {
    ghost answers = { λ _ s at r. IfSome r (λ e. (at < e.0) × (e.0 ≤ length s)) };

    fn at(&self, s: &[u8], at: usize) -> Option<(usize, bool)> {
        if s.len() <= at {
            return None;
        }
        let prefix = piece_at(s, at + 1)?;
        let words = prefix.to + 6;
        let end = words + 4 * usize::from(byte_at(s, prefix.to + 5));
        if s.len() < end {
            return None;
        }
        let mut input = zeros::<1048640>();
        let n = fill_input(
            &mut input,
            part(s, prefix),
            byte_at(s, prefix.to),
            word_at(s, prefix.to + 1),
        );
        let given = part(&input, Range { from: 0, to: n });
        Some((end, answers(s[at], given, &s[words..end])))
    }
}

// The input of a case: its prefix, then the fill byte so many times. Answers its length.
fn fill_input(input: &mut [u8], prefix: &[u8], fill: u8, count: usize) -> usize
    requires { count ≤ 4294967295 }
{
    input.fill(fill);
    let n = prefix.len().min(input.len());
    input[..n].copy_from_slice(&prefix[..n]);
    prefix.len() + count
}

// Whether the answer to an input is the words.
fn answers(entry: u8, s: &[u8], w: &[u8]) -> bool {
    match entry {
        0 => bundle_answers(s, w),
        1 => single_answers(s, w),
        2 => stream_answers(s, Sort::Nodes, false, w),
        3 => stream_answers(s, Sort::Areas, false, w),
        4 => stream_answers(s, Sort::Areas, true, w),
        5 => number_answers(s, u64::from(u32::MAX), w),
        6 => number_answers(s, u64::MAX, w),
        _ => false,
    }
}

// Whether word i is a number.
fn is_word(w: &[u8], i: usize, n: u64) -> bool {
    i < w.len() / 4 && word_at(w, i * 4) as u64 == n
}

// The words from word i on.
fn words_from(w: &[u8], i: usize) -> &[u8] {
    if w.len() / 4 < i {
        return &[];
    }
    &w[4 * i..]
}

fn refusal_is(r: Refusal, w: &[u8]) -> bool {
    let numbers = r.numbers();
    is_word(w, 0, 1) && (0..5).all(|i| is_word(w, i + 1, numbers[i]))
}

fn bundle_answers(s: &[u8], w: &[u8]) -> bool {
    match bundle::check_bundle(s) {
        Err(r) => refusal_is(r, w),
        Ok(n) => is_word(w, 0, 0) && is_word(w, 1, n as u64) && texts_are(s, n, w),
    }
}

fn texts_are(s: &[u8], n: usize, w: &[u8]) -> bool {
    (0..n.min(64)).all(|k| text_is(s, k, w))
}

// Text k has the ranges that the words say, and is found by its name.
fn text_is(s: &[u8], k: usize, w: &[u8]) -> bool
    requires { k < 64 }
{
    let Some((a, b)) = bundle::text_at(s, k) else {
        return false;
    };
    range_is(a, words_from(w, 4 * k + 2))
        && range_is(b, words_from(w, 4 * k + 4))
        && bundle::find_text(s, part(s, a)).is_some_and(|(j, t)| j == k && t == b)
}

fn range_is(r: Range, w: &[u8]) -> bool {
    is_word(w, 0, r.from as u64) && is_word(w, 1, r.to as u64)
}

fn entity_is(e: EntityRange, w: &[u8]) -> bool {
    is_word(w, 0, 0)
        && is_word(w, 1, u64::from(e.kind))
        && is_word(w, 2, e.id % 4294967296)
        && is_word(w, 3, e.id / 4294967296)
        && is_word(w, 4, e.tags as u64)
        && is_word(w, 5, e.count as u64)
        && is_word(w, 6, e.end as u64)
}

fn single_answers(s: &[u8], w: &[u8]) -> bool {
    match entity::single_entity(s) {
        Err(r) => refusal_is(r, w),
        Ok(e) => entity_is(e, w),
    }
}

// The entities of a stream one after another, each also by its number.
fn stream_answers(s: &[u8], sort: Sort, multipolygons: bool, w: &[u8]) -> bool {
    let mut at: usize = 0;
    for place in 0..64 {
        let told = words_from(w, 7 * place);
        let here = StreamPlace {
            multipolygons,
            place,
        };
        match entity::next_entity(s, sort, at, here) {
            Err(r) => return refusal_is(r, told),
            Ok(None) => return is_word(told, 0, 2),
            Ok(Some(e)) => {
                let part = Range {
                    from: at,
                    to: e.end,
                };
                at = e.end;
                let by_number = entity::nth_entity(s, sort, place);
                if !entity_is(e, told) || by_number != Some(part) {
                    return false;
                }
            }
        }
    }
    false
}

fn number_answers(s: &[u8], most: u64, w: &[u8]) -> bool {
    match group::number_at(s, 0, most) {
        None => is_word(w, 0, 1),
        Some((v, next)) => {
            is_word(w, 0, 0)
                && is_word(w, 1, v % 4294967296)
                && is_word(w, 2, v / 4294967296)
                && is_word(w, 3, next as u64)
        }
    }
}
