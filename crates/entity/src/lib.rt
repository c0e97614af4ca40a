// The entity: its layout and its UTF-8, alone and in a stream.
#![tactic(auto)]

ghost use Rattle.std.specs.Prelude.{◌≡◌, map};
ghost use Rattle.base.specs.Map.{key_of};
ghost use Rattle.base.specs.Refusal.{of_entity};
ghost use Rattle.group.specs.Pair.{entries_left};
ghost use Rattle.entity.specs.Layout.{kind_fits, rising, closed_of, tags_at, entity_at, single_of, next_of, nth_from};

use base::refusal::{ENTITY_LAYOUT, NOT_UTF8, Refusal};
use base::{Range, bytes_precede, part};
use group::Pairs;

// Which kinds a caller takes.
#[derive(Clone, Copy)]
pub enum Sort {
    Any,
    Nodes,
    Areas,
}

// An entity's kind and id, and where its tags stand: `count` pairs from `tags` up to `end`.
#[derive(Clone, Copy)]
pub struct EntityRange {
    pub kind: u8,
    pub id: u64,
    pub tags: usize,
    pub count: usize,
    pub end: usize,
}

// An entity: the bytes that it stands in, and where.
#[derive(Clone, Copy)]
pub struct Entity<'a> {
    pub bytes: &'a [u8],
    pub range: EntityRange,
}

impl<'a> Entity<'a> {
    // The tags, as pairs of ranges of the bytes.
    pub fn tags(self) -> Pairs<'a>
        ensures { result ≡ record { s = self.entry.bytes; at = self.entry.range.tags; count = self.entry.range.count } }
    {
        Pairs::new(self.bytes, self.range.tags, self.range.count)
    }
}

// A place in a stream of nodes or ways, or of multipolygons.
#[derive(Clone, Copy)]
pub struct StreamPlace {
    pub multipolygons: bool,
    pub place: usize,
}

// The place of a single entity.
pub const ALONE: StreamPlace = StreamPlace {
    multipolygons: false,
    place: 0,
};

impl StreamPlace {
    // The refusal of the entity that stands here.
    pub fn refuse(self, number: usize) -> Refusal
        ensures { result ≡ of_entity number self.multipolygons self.place }
    {
        Refusal::of_entity(number, self.multipolygons, self.place)
    }
}

// Checks a single entity of any kind: its layout (refusal 7), then its UTF-8 (refusal 2).
#[tactic(auto, unfolding(base::specs::Choice::pick, crate::specs::Layout::single_of, crate::specs::Layout::tags_of, base::specs::Option::on_option))]
pub fn single_entity(s: &[u8]) -> Result<EntityRange, Refusal>
    ensures { result ≡ single_of s.now }
{
    let e = entity_at(s, 0, Sort::Any).ok_or(ALONE.refuse(ENTITY_LAYOUT))?;
    if e.end != s.len() {
        return Err(ALONE.refuse(ENTITY_LAYOUT));
    }
    if (Entity { bytes: s, range: e }).tags().are_utf8() {
        return Ok(e);
    }
    Err(ALONE.refuse(NOT_UTF8))
}

// The next entity of a stream, behind byte `at`, checked as a single one is; None at the end.
#[tactic(auto, unfolding(base::specs::Choice::pick, crate::specs::Layout::next_of, crate::specs::Layout::tags_of, base::specs::Option::on_option))]
pub fn next_entity(
    s: &[u8],
    sort: Sort,
    at: usize,
    place: StreamPlace,
) -> Result<Option<EntityRange>, Refusal>
    ensures { result ≡ next_of sort place.multipolygons s.now at place.place }
{
    if 1048576 < s.len() {
        return Err(StreamPlace { place: 0, ..place }.refuse(ENTITY_LAYOUT));
    }
    if s.len() <= at {
        return Ok(None);
    }
    let e = entity_at(s, at, sort).ok_or(place.refuse(ENTITY_LAYOUT))?;
    if (Entity { bytes: s, range: e }).tags().are_utf8() {
        return Ok(Some(e));
    }
    Err(place.refuse(NOT_UTF8))
}

// Entity number k, from 0, of a stream, as a range.
pub fn nth_entity(s: &[u8], sort: Sort, k: usize) -> Option<Range>
    ensures { result ≡ nth_from k sort s.now 0 }
{
    let mut at: usize = 0;
    for _ in 0..k {
        let e = entity_at(s, at, sort)?;
        at = e.end;
    }
    let e = entity_at(s, at, sort)?;
    Some(Range {
        from: at,
        to: e.end,
    })
}

// The layout of the entity at a place: kind, id, tag count, tags.
#[tactic(auto, unfolding(base::specs::Choice::pick, crate::specs::Layout::entity_at, base::specs::Option::on_option))]
pub fn entity_at(s: &[u8], at: usize, sort: Sort) -> Option<EntityRange>
    ensures { result ≡ entity_at sort s.now at }
{
    let kind = *s.get(at)?;
    if !kind_fits(sort, kind) {
        return None;
    }
    let (id, next) = group::number_at(s, at + 1, u64::MAX)?;
    tags_at(s, at, kind, id, next)
}

// Whether a caller takes a kind.
fn kind_fits(sort: Sort, kind: u8) -> bool
    ensures { result ≡ kind_fits sort kind }
{
    match sort {
        Sort::Any => kind <= 2,
        Sort::Nodes => kind == 0,
        Sort::Areas => 1 <= kind && kind <= 2,
    }
}

// The tags of the entity at a place, from its tag count on.
#[tactic(auto, unfolding(crate::specs::Layout::tags_at, base::specs::Option::on_option))]
fn tags_at(s: &[u8], at: usize, kind: u8, id: u64, from: usize) -> Option<EntityRange>
    ensures { result ≡ tags_at s.now at kind id from }
{
    let (n, tags) = group::number_at(s, from, 256)?;
    let count = n as usize;
    let end = Pairs::new(s, tags, count).end()?;
    closed(
        s,
        at,
        EntityRange {
            kind,
            id,
            tags,
            count,
            end,
        },
    )
}

// An entity has at most 65,536 bytes, and its keys rise.
#[tactic(auto, unfolding(base::specs::Choice::pick, crate::specs::Layout::closed_of, crate::specs::Layout::tags_of))]
fn closed(s: &[u8], at: usize, e: EntityRange) -> Option<EntityRange>
    ensures { result ≡ closed_of s.now at e }
{
    if 65536 < e.end.saturating_sub(at) {
        return None;
    }
    keys_rise(Entity { bytes: s, range: e }.tags()).then_some(e)
}

// Whether the keys of tags rise strictly, bytewise.
fn keys_rise(tags: Pairs) -> bool
    ensures { result ≡ rising (map key_of (entries_left tags.entry)) }
{
    tags.is_sorted_by(|(a, _), (b, _)| bytes_precede(part(tags.s, *a), part(tags.s, *b)))
}
