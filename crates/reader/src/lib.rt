// Tag lookup: a tag's value by its key.
#![tactic(auto)]

ghost use Rattle.std.specs.Prelude.{◌≡◌, ◌∷◌, ◌++◌};
ghost use Rattle.base.specs.Bytes.{same};
ghost use Rattle.entity.specs.Layout.{tag_ranges};
ghost use Rattle.reader.specs.Tags.{value_in};

use base::{Range, byte_at, part, same_bytes};
use entity::Entity;

// The value of the first tag that has a key.
pub fn get_by_key(entity: Entity, key: &[u8]) -> Option<Range>
    ensures { result ≡ value_in entity.entry.bytes.now key.now (tag_ranges entity.entry.bytes.now entity.entry.range) }
{
    let mut tags = entity.tags();
    let (_, b) = tags.find(|(a, _)| same_bytes(key, part(entity.bytes, *a)))?;
    Some(b)
}

// The same for a key that is two parts with a colon between them.
pub fn get_by_joined_key(entity: Entity, first: &[u8], second: &[u8]) -> Option<Range>
    ensures { result ≡ value_in entity.entry.bytes.now (first.now ++ (58 ∷ second.now)) (tag_ranges entity.entry.bytes.now entity.entry.range) }
{
    let mut tags = entity.tags();
    let (_, b) = tags.find(|(a, _)| is_joined(first, second, part(entity.bytes, *a)))?;
    Some(b)
}

// Whether a key is two parts with a colon between them.
fn is_joined(first: &[u8], second: &[u8], key: &[u8]) -> bool
    ensures { result ≡ same (first.now ++ (58 ∷ second.now)) key.now }
{
    // The colon first, which is one byte: the first part may be long.
    if byte_at(key, first.len()) != b':' {
        return false;
    }
    match key.strip_prefix(first) {
        Some([b':', rest @ ..]) => same_bytes(second, rest),
        _ => false,
    }
}
