// The bundle: its layout and its UTF-8, the places of its texts, and the text of a name.
#![tactic(auto)]

ghost use Rattle.std.specs.Prelude.{◌≡◌, map};
ghost use Rattle.base.specs.Map.{key_of, member};
ghost use Rattle.group.specs.Pair.{named, nth_of, pairs_left};
ghost use Rattle.bundle.specs.Bundle.{count_of, first_at, ranges_of, good_names, is_bundle, check_of, find_of, good_name};

use base::Range;
use base::refusal::Refusal;
use group::Pairs;

// Checks the layout (refusal 1), then the UTF-8 of names and texts (refusal 2).
#[tactic(auto, unfolding(base::specs::Choice::pick, crate::specs::Bundle::check_of, crate::specs::Bundle::texts_of))]
pub fn check_bundle(bundle: &[u8]) -> Result<usize, Refusal>
    ensures { result ≡ check_of bundle.now }
{
    if !is_bundle(bundle) {
        return Err(Refusal::plain(base::refusal::BUNDLE_LAYOUT));
    }
    let texts = texts(bundle);
    if !texts.are_utf8() {
        return Err(Refusal::plain(base::refusal::NOT_UTF8));
    }
    Ok(texts.count)
}

// The name and the text of number k, as ranges of the bundle.
pub fn text_at(bundle: &[u8], k: usize) -> Option<(Range, Range)>
    ensures { result ≡ nth_of (ranges_of bundle.now) k }
{
    texts(bundle).nth(k)
}

// The first text of a name, which is compared byte by byte.
pub fn find_text(bundle: &[u8], name: &[u8]) -> Option<(usize, Range)>
    ensures { result ≡ find_of bundle.now name.now }
{
    for (k, (a, b)) in texts(bundle).enumerate() {
        if base::same_bytes(name, base::part(bundle, a)) {
            return Some((k, b));
        }
    }
    None
}

// The names and texts of the bundle, as many as it says that it holds; none where it does not say so.
#[tactic(auto, unfolding(crate::specs::Bundle::count_of, crate::specs::Bundle::first_at, base::specs::Option::on_option))]
fn texts(bundle: &[u8]) -> Pairs<'_>
    ensures { result ≡ record { s = bundle.entry; at = first_at bundle.now; count = count_of bundle.now } }
{
    let (count, first) = group::number_at(bundle, 0, 64).unwrap_or((0, 0));
    Pairs::new(bundle, first, count as usize)
}

// Whether the bytes are laid out as a bundle.
#[tactic(auto, unfolding(base::specs::Choice::pick, crate::specs::Bundle::is_bundle, crate::specs::Bundle::texts_of, group::specs::Pair::entries_at, base::specs::Option::on_option))]
fn is_bundle(bundle: &[u8]) -> bool
    ensures { result ≡ is_bundle bundle.now }
{
    if 1048576 < bundle.len() {
        return false;
    }
    let texts = texts(bundle);
    texts.count != 0 && texts.end() == Some(bundle.len()) && good_names(bundle, texts)
}

// Whether names have 1 to 255 bytes and no two are equal.
fn good_names(s: &[u8], texts: Pairs) -> bool
    ensures { result ≡ good_names (map key_of (map (named s.now) (pairs_left texts.entry))) }
{
    let mut rest = texts;
    while let Some((a, _)) = rest.next() {
        if !good_name(s, base::part(s, a), rest) {
            return false;
        }
    }
    true
}

// Whether a name has 1 to 255 bytes and is none of those further on.
#[tactic(auto, unfolding(crate::specs::Bundle::good_name, base::specs::Choice::pick))]
fn good_name(s: &[u8], name: &[u8], rest: Pairs) -> bool
    ensures { result ≡ good_name name.now (map key_of (map (named s.now) (pairs_left rest.entry))) }
{
    1 <= name.len() && name.len() <= 255 && !is_named(s, rest, name)
}

// Whether one of the texts has a name.
fn is_named(s: &[u8], mut texts: Pairs, name: &[u8]) -> bool
    ensures { result ≡ member name.now (map key_of (map (named s.now) (pairs_left texts.entry))) }
{
    texts.any(|(a, _)| base::same_bytes(name, base::part(s, a)))
}
