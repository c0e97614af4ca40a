// Replays the original's answers on texts (differential/README.md has their form and how they were made) against the exported
// tokenizer. It prints the number of each case that differs, then the totals.
#![tactic(auto)]

ghost use Rattle.std.specs.Prelude.{◌≤◌, ◌<◌, length, IfSome};

use base::part;
use capi_token::mapcss_next_token;
use std::io;
use stdio::cases::{Case, bits_of, is_byte, is_long, is_short, piece_at, replay_cases};
use stdio::zeros;

fn main(rt: HostRuntime) -> io::Result<()> {
    let mut room = zeros::<524288>();
    replay_cases(&mut room, &mut rt.stdin(), &mut rt.stdout(), &Tokens)
}

// Stored texts and their tokens.
struct Tokens;

impl Case for Tokens {
    ghost answers = { λ _ s at r. IfSome r (λ e. (at < e.0) × (e.0 ≤ length s)) };

    fn at(&self, s: &[u8], at: usize) -> Option<(usize, bool)> {
        let text = piece_at(s, at)?;
        let answer = piece_at(s, text.to)?;
        Some((answer.to, agrees(part(s, text), part(s, answer))))
    }
}

// What a step answered: its kind, the cursor behind it, its line and character, its payload.
#[derive(Clone, Copy)]
struct Answer {
    kind: u64,
    words: [u64; 10],
    number: [f64; 1],
}

fn step(text: &[u8], at: u64, row: u64, character: u64, newline: u64) -> Answer {
    let mut words = [0u64; 10];
    let mut number = [0.0f64; 1];
    let kind = mapcss_next_token(
        text,
        at as usize,
        row as usize,
        character as usize,
        newline == 1,
        &mut words,
        &mut number,
    );
    Answer {
        kind,
        words,
        number,
    }
}

// Whether the tokenizer answers as the sample says, up to the end or the first error.
fn agrees(text: &[u8], answer: &[u8]) -> bool {
    let mut rest = answer;
    let mut at: u64 = 0;
    let mut row: u64 = 1;
    let mut character: u64 = 0;
    let mut newline: u64 = 0;
    while !rest.is_empty() {
        let a = step(text, at, row, character, newline);
        let size = size_of(a.kind);
        if !is_answer(rest, a) {
            return false;
        }
        if a.kind < 2 {
            return rest.len() == size;
        }
        let words = a.words;
        at = words[0];
        row = words[1];
        character = words[2];
        newline = words[3];
        rest = &rest[size.min(rest.len())..];
    }
    false
}

// How many bytes the sample has for a kind.
fn size_of(kind: u64) -> usize
    ensures { 1 ≤ result }
{
    match kind {
        1 => 6,
        2 | 3 | 4 | 6 | 7 => 9,
        5 => 13,
        8 => 8,
        _ => 5,
    }
}

fn is_answer(answer: &[u8], a: Answer) -> bool {
    let words = a.words;
    let kind = a.kind;
    if !is_byte(answer, 0, kind) {
        return false;
    }
    match kind {
        0 => is_short(answer, 1, words[1]) && is_short(answer, 3, words[2]),
        1 => {
            is_byte(answer, 1, words[6])
                && is_short(answer, 2, words[7])
                && is_short(answer, 4, words[8])
        }
        _ => {
            is_short(answer, 1, words[4]) && is_short(answer, 3, words[5]) && is_payload(answer, a)
        }
    }
}

fn is_payload(answer: &[u8], a: Answer) -> bool {
    let words = a.words;
    let kind = a.kind;
    let number = a.number;
    match kind {
        2 | 3 | 4 | 7 => is_short(answer, 5, words[6]) && is_short(answer, 7, words[7]),
        5 => is_long(answer, 5, bits_of(number[0])),
        6 => {
            is_byte(answer, 5, words[6])
                && is_byte(answer, 6, words[7])
                && is_byte(answer, 7, words[8])
                && is_byte(answer, 8, words[9])
        }
        8 => {
            is_byte(answer, 5, words[6])
                && is_byte(answer, 6, words[7])
                && is_byte(answer, 7, words[8])
        }
        _ => true,
    }
}
