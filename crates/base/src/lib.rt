// Total reads and stores of slices, ranges, comparison of byte strings, lent tables, and the refusal of every call.
#![tactic(auto)]

ghost use Rattle.std.specs.Prelude.{◌≡◌, get_or, set};
ghost use Rattle.base.specs.Bytes.{same, precedes, within};
ghost use Rattle.base.specs.Table.{zero_float, capacity_of, stored};

pub mod refusal;

// The places `from` to `to`, the last one left out, of a slice that stands beside it.
#[derive(Clone, Copy, PartialEq)]
pub struct Range {
    pub from: usize,
    pub to: usize,
}

// The element at a place, and a given one past the end.
pub fn at_or<T: Copy>(t: &[T], i: usize, past: T) -> T
    ensures { result ≡ get_or t.now i past }
{
    if i < t.len() { t[i] } else { past }
}

// Stores an element, and nothing past the end.
pub fn store<T: Copy>(t: &mut [T], at: usize, x: T)
    ensures { t.new ≡ set t.old at x }
{
    if at < t.len() {
        t[at] = x;
    }
}

// Stores elements one after another from a place on, and nothing past the end.
pub fn store_all<T: Copy>(t: &mut [T], at: usize, xs: &[T])
    ensures { t.new ≡ stored t.old at xs.now }
{
    if t.len() <= at {
        return;
    }
    let n = xs.len().min(t.len() - at);
    t[at..at + n].copy_from_slice(&xs[..n]);
}

// The byte at a place, and 0 past the end.
pub fn byte_at(s: &[u8], i: usize) -> u8
    ensures { result ≡ get_or s.now i 0 }
{
    at_or(s, i, 0)
}

// The word at a place, and 0 past the end.
pub fn word_at(t: &[u32], i: usize) -> u32
    ensures { result ≡ get_or t.now i 0 }
{
    at_or(t, i, 0)
}

// The number at a place, and 0.0 past the end.
pub fn float_at(t: &[f64], i: usize) -> f64
    ensures { result ≡ get_or t.now i zero_float }
{
    at_or(t, i, 0.0)
}

// How many entries of `stride` elements a table of `len` elements takes: at most 16,384.
pub fn capacity(stride: usize, len: usize) -> usize
    ensures { result ≡ capacity_of stride len }
{
    if stride == 0 {
        return 0;
    }
    (len / stride).min(16384)
}

// The part of a slice that a range names, as far as the slice has it.
pub fn part<T>(s: &[T], r: Range) -> &[T]
    ensures { result.now ≡ within r s.now }
{
    let to = r.to.min(s.len());
    &s[r.from.min(to)..to]
}

// Whether two byte strings are equal.
pub fn same_bytes(a: &[u8], b: &[u8]) -> bool
    ensures { result ≡ same a.now b.now }
{
    a == b
}

// Whether the first byte string comes before the second, bytewise.
pub fn bytes_precede(a: &[u8], b: &[u8]) -> bool
    ensures { result ≡ precedes a.now b.now }
{
    a < b
}
