// Group numbers, parts that stand behind their length, and runs of pairs of parts: what bundles and entities are made of.
#![tactic(auto)]

ghost use Rattle.std.specs.Prelude.{◌≡◌, ◌/◌, ◌≤◌};
ghost use Rattle.group.specs.Number.{number_at, single, joined};
ghost use Rattle.group.specs.Pair.{sized_of, part_at, pair_at, behind, pairs_left, entries_left, end_of, all_utf8};

use base::{Range, part};
use utf8::is_utf8;

// The group number at a place and the place behind it, if it is of the shortest form and at most `most`.
pub fn number_at(s: &[u8], at: usize, most: u64) -> Option<(u64, usize)>
    ensures { result ≡ number_at s.now at most }
{
    let b = *s.get(at)?;
    if b < 128 {
        return last_byte(b, most, at + 1);
    }
    if most < 128 {
        return None;
    }
    let (v, next) = number_at(s, at + 1, most / 128)?;
    first_byte(b, v, most, next)
}

// A number of one byte.
#[tactic(auto, unfolding(crate::specs::Number::single, base::specs::Choice::pick))]
fn last_byte(b: u8, most: u64, next: usize) -> Option<(u64, usize)>
    ensures { result ≡ single b most next }
{
    let n = u64::from(b);
    (n <= most).then_some((n, next))
}

// A byte before the rest of its number: the rest may not be 0, for then its byte is needless.
#[tactic(auto, unfolding(crate::specs::Number::joined, base::specs::Choice::pick))]
fn first_byte(b: u8, v: u64, most: u64, next: usize) -> Option<(u64, usize)>
    requires { v ≤ most / 128 }
    ensures { result ≡ joined b v most next }
{
    let n = u64::from(b % 128) + 128 * v;
    (v != 0 && n <= most).then_some((n, next))
}

// The part at a place: its length as a group number, then so many bytes. Most lengths are of one byte.
pub fn part_at(s: &[u8], at: usize) -> Option<Range>
    ensures { result ≡ part_at s.now at }
{
    let b = *s.get(at)?;
    if b < 128 {
        return sized(s, u64::from(b), at + 1);
    }
    long_part(s, at)
}

// The same for a length of any number of bytes.
#[tactic(auto, unfolding(crate::specs::Pair::part_at, base::specs::Option::on_option))]
fn long_part(s: &[u8], at: usize) -> Option<Range>
    ensures { result ≡ part_at s.now at }
{
    let (n, next) = number_at(s, at, u64::from(u32::MAX))?;
    sized(s, n, next)
}

#[tactic(auto, unfolding(crate::specs::Pair::sized_of, base::specs::Choice::pick))]
fn sized(s: &[u8], n: u64, from: usize) -> Option<Range>
    ensures { result ≡ sized_of s.now n from }
{
    let to = from.checked_add(n as usize)?;
    (to <= s.len()).then_some(Range { from, to })
}

// The pair at a place: two parts, one behind the other.
#[inline(always)]
#[tactic(auto, unfolding(crate::specs::Pair::pair_at, base::specs::Option::on_option))]
pub fn pair_at(s: &[u8], at: usize) -> Option<(Range, Range)>
    ensures { result ≡ pair_at s.now at }
{
    let a = part_at(s, at)?;
    let b = part_at(s, a.to)?;
    Some((a, b))
}

// So many pairs from a place on, one after the other, as far as they can be read.
#[derive(Clone, Copy)]
pub struct Pairs<'a> {
    pub s: &'a [u8],
    pub at: usize,
    pub count: usize,
}

impl<'a> Pairs<'a> {
    pub fn new(s: &'a [u8], at: usize, count: usize) -> Pairs<'a>
        ensures { result ≡ record { s = s.entry; at = at; count = count } }
    {
        Pairs { s, at, count }
    }

    // The place behind all of them.
    pub fn end(self) -> Option<usize>
        ensures { result ≡ end_of self.entry }
    {
        (0..self.count).try_fold(self.at, |end, _| behind(self.s, end))
    }

    // Whether both parts of each are UTF-8.
    pub fn are_utf8(mut self) -> bool
        ensures { result ≡ all_utf8 (entries_left self.entry) }
    {
        let s = self.s;
        self.all(|(a, b)| is_utf8(part(s, a)) && is_utf8(part(s, b)))
    }
}

impl Iterator for Pairs<'_> {
    ghost use Rattle.std.specs.Iterator.{YieldsFirst, item_count};

    type Item = (Range, Range);

    ghost next_gives = { YieldsFirst pairs_left };

    ghost remaining = { item_count pairs_left };

    // Inlined, since the lookup of a tag is little else.
    #[inline(always)]
    fn next(&mut self) -> Option<(Range, Range)> {
        if self.count == 0 {
            return None;
        }
        let pair = pair_at(self.s, self.at)?;
        self.at = pair.1.to;
        self.count -= 1;
        Some(pair)
    }
}

// The place behind the pair at a place.
#[tactic(auto, unfolding(crate::specs::Pair::behind, base::specs::Option::on_option))]
fn behind(s: &[u8], at: usize) -> Option<usize>
    ensures { result ≡ behind s.now at }
{
    let (_, b) = pair_at(s, at)?;
    Some(b.to)
}
