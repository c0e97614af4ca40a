// What the programs share that replay a case file: its numbers, lowest byte first, and what they print of a case.

ghost use Rattle.std.specs.Prelude.{◌≡◌, ◌≤◌, ◌<◌, ℕ, Bool, List, Option, Some, IfSome, length, get_or, eqb, cond, ltb, ◌&&◌, ◌+◌, ◌*◌, IfOk, OnOk, ◌++◌};
ghost use Rattle.std.specs.Float.{binary64};
ghost use Rattle.std.specs.Io.KnownBytes.{Appends, Consumes};
ghost use Rattle.std.specs.Float.Ieee.{of_bits, to_bits};
ghost use Rattle.stdio.specs.Cases.{short, word, long, named, Ran, Replayed, piece, entry, are_words, refusal, counted};

use crate::{line, read_full, zeros};
use base::{Range, at_or};
use std::io;
use std::io::{Read, Write};

// What a program replays. Of a case file and a place in it, it answers where the next case starts and whether this one agrees; nothing
// where the file ends in the case, or before it.
pub trait Case {
    ghost answers: { Self → List ℕ → ℕ → Option (ℕ × Bool) → Type 0 };

    fn at(&self, s: &[u8], i: usize) -> Option<(usize, bool)>
        ensures answers { Self.answers self.now s.now i result }
        ensures forward { IfSome result (λ r. (i < r.0) × (r.0 ≤ length s.now)) };
}

// Replays the cases of an input, as many bytes of it as there is room, as `run_cases` does.
pub fn replay_cases<R: Read, W: Write, C: Case>(
    room: &mut [u8],
    from: &mut R,
    out: &mut W,
    case: &C,
) -> io::Result<()>
    ensures { OnOk result (Replayed (λ s. s) (C.answers case.now) (λ b. Consumes (R.remaining from.old) (R.remaining from.new) b) (λ b. (before : _) × Appends before (W.contents out.new) b)) }
{
    let n = read_full(from, room)?;
    let cases = &room[..n];
    let t = run_cases(out, cases, case)?;
    totals(out, t)
}

// How many cases ran, and how many answers differed.
#[derive(Clone, Copy)]
pub struct Tally {
    pub run: u64,
    pub bad: u64,
}

// Runs the cases of a file one after another, and prints the number of each that differs. One that the file ends in is the last.
pub fn run_cases<W: Write, C: Case>(out: &mut W, s: &[u8], case: &C) -> io::Result<Tally>
    ensures { IfOk result (λ t. Ran (C.answers case.now s.now) (length s.now) (length s.now) t.run t.bad) }
{
    let mut at = 0;
    let mut run: u64 = 0;
    let mut bad: u64 = 0;
    while at < s.len() {
        at = match case.at(s, at) {
            None => {
                line(out, b"broken case", run)?;
                bad += 1;
                s.len()
            }
            Some((end, true)) => end,
            Some((end, false)) => {
                line(out, b"mismatch in case", run)?;
                bad += 1;
                end
            }
        };
        run += 1;
    }
    Ok(Tally { run, bad })
}

// Replays the cases of up to 524,288 bytes of an input: one closure reads and answers the case at a place, as `run_all` asks for it.
pub fn replay<R: Read, W: Write, F: Fn(&[u8], usize) -> Option<(usize, bool)>>(
    from: &mut R,
    out: &mut W,
    case_at: F,
) -> io::Result<()>
    requires callable { (s : _) (at : ℕ) → at < length s.now → F.pre case_at s at }
    requires forward { (s : _) (at end : ℕ) (agrees : Bool) → at < length s.now → F.post case_at s at (Some (end, agrees)) → (at < end) × (end ≤ length s.now) }
    ensures { OnOk result (Replayed (λ s. s.now) (λ s at r. F.post case_at s at r) (λ b. Consumes (R.remaining from.old) (R.remaining from.new) b) (λ b. (before : _) × Appends before (W.contents out.new) b)) }
{
    let mut room = zeros::<524288>();
    let n = read_full(from, &mut room)?;
    let s = &room[..n];
    let tally = run_all(
        out,
        s.len(),
        |at|
            requires { F.pre case_at s at }
            ensures { F.post case_at s.entry at result }
        { case_at(s, at) },
    )?;
    totals(out, tally)
}

// Runs the cases of so many bytes one after another, and prints the number of each that differs. A case answers where the next one
// starts, and whether it agrees; one that the file ends in answers nothing.
pub fn run_all<W: Write, F: Fn(usize) -> Option<(usize, bool)>>(
    out: &mut W,
    size: usize,
    case_at: F,
) -> io::Result<Tally>
    requires callable { (at : ℕ) → at < size → F.pre case_at at }
    requires forward { (at end : ℕ) (agrees : Bool) → at < size → F.post case_at at (Some (end, agrees)) → (at < end) × (end ≤ size) }
    ensures { IfOk result (λ t. Ran (λ at r. F.post case_at at r) size size t.run t.bad) }
{
    let mut at = 0;
    let mut run: u64 = 0;
    let mut bad: u64 = 0;
    while at < size {
        at = match case_at(at) {
            None => {
                line(out, b"broken case", run)?;
                bad += 1;
                size
            }
            Some((next, true)) => next,
            Some((next, false)) => {
                line(out, b"mismatch in case", run)?;
                bad += 1;
                next
            }
        };
        run += 1;
    }
    Ok(Tally { run, bad })
}

// Prints how many cases ran, and how many differed.
pub fn totals<W: Write>(out: &mut W, t: Tally) -> io::Result<()>
    ensures { OnOk result (Appends (W.contents out.old) (W.contents out.new) (named "cases" t.run ++ named "mismatches" t.bad)) }
{
    line(out, b"cases", t.run)?;
    line(out, b"mismatches", t.bad)
}

// The bytes that stand behind their number, which has two bytes, at a place; nothing if the file ends in them.
pub fn piece_at(s: &[u8], at: usize) -> Option<Range>
    ensures value { result ≡ piece s.now at }
    ensures bound { IfSome result (λ r. (at < r.from) × (r.from ≤ r.to) × (r.to ≤ length s.now)) }
{
    if s.len() <= at {
        return None;
    }
    let from = at + 2;
    let to = from + short_at(s, at);
    if s.len() < to {
        return None;
    }
    Some(Range { from, to })
}

// Two bytes; past the end stand zeros.
pub fn short_at(s: &[u8], at: usize) -> usize
    ensures value { result ≡ short s.now at }
    ensures bound { result ≤ 65535 }
{
    if s.len() <= at {
        return 0;
    }
    usize::from(base::byte_at(s, at)) + 256 * usize::from(base::byte_at(s, at + 1))
}

// The number of entries that a stored answer has at a place; a refusal leaves none.
pub fn count_at(answer: &[u8], number: u64, at: usize) -> usize
    ensures value { result ≡ cond (eqb number 0) (short answer.now at) 0 }
    ensures bound { result ≤ 65535 }
{
    match number {
        0 => short_at(answer, at),
        _ => 0,
    }
}

// Entry i of so many that are stored from a place on, two bytes each; zeros stand behind them.
pub fn entry_at(s: &[u8], at: usize, entries: usize, i: usize) -> usize
    ensures { result ≡ cond (ltb i entries) (short s.now (at + 2 * i)) 0 }
{
    if entries <= i || s.len() <= at || (s.len() - at) / 2 < i {
        return 0;
    }
    short_at(s, at + 2 * i)
}

// Whether the words of a table are the stored ones, of which there are so many from a place on, and zeros behind them.
pub fn words_are(t: &[u32], s: &[u8], at: usize, entries: usize) -> bool
    ensures { result ≡ are_words t.now s.now at entries 0 }
{
    t.iter()
        .enumerate()
        .all(|(i, &w)| w as usize == entry_at(s, at, entries, i))
}

// Four bytes.
pub fn word_at(s: &[u8], at: usize) -> usize
    ensures value { result ≡ word s.now at }
    ensures bound { result ≤ 4294967295 }
{
    if s.len() <= at {
        return 0;
    }
    short_at(s, at) + 65536 * short_at(s, at + 2)
}

// Eight bytes.
pub fn long_at(s: &[u8], at: usize) -> usize
    ensures { result ≡ long s.now at }
{
    if s.len() <= at {
        return 0;
    }
    word_at(s, at) + 4294967296 * word_at(s, at + 4)
}

// The float with the stored bits.
pub fn float_at(s: &[u8], at: usize) -> f64
    ensures { result ≡ of_bits binary64 (long s.now at) }
{
    let n = long_at(s, at) as u64;
    if n % 9223372036854775808 <= 0x7ff0_0000_0000_0000 {
        return f64::from_bits(n);
    }
    f64::NAN
}

// A float's bits; all NaN are one.
pub fn bits_of(x: f64) -> u64
    ensures { result ≡ to_bits binary64 x }
{
    if x.is_nan() {
        return 0x7ff8_0000_0000_0000;
    }
    f64::to_bits(x)
}

pub fn is_byte(s: &[u8], at: usize, n: u64) -> bool
    ensures { result ≡ eqb (get_or s.now at 0) n }
{
    u64::from(base::byte_at(s, at)) == n
}

pub fn is_short(s: &[u8], at: usize, n: u64) -> bool
    ensures { result ≡ eqb (short s.now at) n }
{
    short_at(s, at) as u64 == n
}

pub fn is_long(s: &[u8], at: usize, n: u64) -> bool
    ensures { result ≡ eqb (long s.now at) n }
{
    long_at(s, at) as u64 == n
}

// Whether a stored answer ends where what it stores does; a refusal has seven bytes.
pub fn ends_at(answer: &[u8], number: u64, end: usize) -> bool
    ensures { result ≡ eqb (length answer.now) (cond (eqb number 0) end 7) }
{
    if number == 0 {
        return answer.len() == end;
    }
    answer.len() == 7
}

// Whether a stored refusal has these five numbers.
pub fn is_refusal(answer: &[u8], numbers: &[u64]) -> bool
    ensures { result ≡ refusal answer.now numbers.now }
{
    is_byte(answer, 0, at_or(numbers, 0, 0))
        && is_byte(answer, 1, at_or(numbers, 1, 0))
        && is_byte(answer, 2, at_or(numbers, 2, 0))
        && is_short(answer, 3, at_or(numbers, 3, 0))
        && is_short(answer, 5, at_or(numbers, 4, 0))
}

// Whether a call that tells how many entries it made answered so, and with these five numbers.
pub fn is_told(answer: &[u8], number: u64, numbers: &[u64], count: u64) -> bool
    ensures { result ≡ (eqb (get_or answer.now 0 0) number && cond (eqb number 0) (counted numbers.now count) (refusal answer.now numbers.now)) }
{
    if !is_byte(answer, 0, number) {
        return false;
    }
    if number != 0 {
        return is_refusal(answer, numbers);
    }
    at_or(numbers, 0, 0) == count
        && at_or(numbers, 1, 0) == 0
        && at_or(numbers, 2, 0) == 0
        && at_or(numbers, 3, 0) == 0
        && at_or(numbers, 4, 0) == 0
}

#[cfg(test)]
mod tests {
    use super::{piece_at, replay, run_all};
    use std::test::Fail;

    // A case is a piece that should be of one byte.
    fn case_at(s: &[u8], at: usize) -> Option<(usize, bool)>
        requires { at < length s.now }
        ensures { IfSome result (λ r. (at < r.0) × (r.0 ≤ length s.now)) }
    {
        let piece = piece_at(s, at)?;
        Some((piece.to, piece.to - piece.from == 1))
    }

    // A case that agrees, one that differs, and one that the file ends in.
    #[test]
    fn replays(rt: HostRuntime) -> Result<(), Fail> {
        let mut out = Vec::new(rt.alloc());
        let mut from = b"\x01\x00a\x02\x00bc\x03\x00d".as_slice();
        replay(&mut from, &mut out, case_at)?;
        assert_eq!(rt;
            out.as_slice(),
            b"mismatch in case 1\nbroken case 2\ncases 3\nmismatches 2\n".as_slice()
        );
        assert_eq!(rt; from, b"".as_slice());
        Ok(())
    }

    // Seven bytes in cases of two, of which the second differs: the last is broken.
    #[test]
    fn runs_all(rt: HostRuntime) -> Result<(), Fail> {
        let mut out = Vec::new(rt.alloc());
        let t = run_all(
            &mut out,
            7,
            |at|
                requires { at < 7 }
                ensures { IfSome result (λ r. (at < r.0) × (r.0 ≤ 7)) }
            { (at < 6).then_some((at + 2, at != 2)) },
        )?;
        assert_eq!(rt; (t.run, t.bad), (4, 2));
        assert_eq!(rt;
            out.as_slice(),
            b"mismatch in case 1\nbroken case 3\n".as_slice()
        );
        Ok(())
    }
}
