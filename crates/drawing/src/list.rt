// From keys to the list: their numbers in drawing order, and three words for each.
ghost use Rattle.std.specs.Prelude.{◌≡◌, ◌++◌, map, ◌+◌, ◌-◌, ◌*◌, ◌≤◌, length, take, drop, replicate};
ghost use Rattle.base.specs.Table.{padded, flat};
ghost use Rattle.cascade.specs.Sort.{sort};
ghost use Rattle.decode.specs.Decode.{places};
ghost use Rattle.order.specs.Keys.{key_le};
ghost use Rattle.drawing.specs.Lists.{entry_at, entries_of};

use base::{at_or, store_all};
use order::{Key, ZERO_KEY, sort_entries};

// Writes keys into a list of zeros, in drawing order; those behind the first `ways` come first where they tie.
pub fn write_list(keys: &[Key], ways: usize, list: &mut [u32])
    requires { (ways ≤ length keys.now) × (length keys.now ≤ 4096) × (length keys.now * 3 ≤ length list.old) × (list.old ≡ replicate (length list.old) 0) }
    ensures { list.new ≡ padded 0 (length list.old) (entries_of (sort key_le (drop ways keys.now ++ take ways keys.now))) }
{
    let n = keys.len();
    let mut order = [0u32; 4096];
    count(&mut order[..n], ways);
    sort_entries(keys, &mut order, n);
    write_entries(&order[..n], keys, list);
}

// Stores the numbers of keys: those behind the first `ways`, then these.
fn count(order: &mut [u32], ways: usize)
    requires { (ways ≤ length order.old) × (length order.old ≤ 4096) }
    ensures { order.new ≡ places ways (length order.old - ways) ++ places 0 ways }
{
    let k = order.len() - ways;
    count_from(&mut order[..k], ways);
    count_from(&mut order[k..], 0);
}

// Stores the numbers from `from` on.
#[tactic(auto, unfolding(decode::specs::Decode::places))]
fn count_from(order: &mut [u32], from: usize)
    requires { from + length order.old ≤ 4096 }
    ensures { order.new ≡ places from (length order.old) }
{
    for (i, number) in order.iter_mut().enumerate() {
        *number = (from + i) as u32;
    }
}

// Writes the entries of numbers, in order.
fn write_entries(order: &[u32], keys: &[Key], list: &mut [u32])
    requires { (length order.now * 3 ≤ length list.old) × (list.old ≡ replicate (length list.old) 0) }
    ensures { list.new ≡ padded 0 (length list.old) (flat (map (entry_at keys.now) order.now)) }
{
    for (i, &number) in order.iter().enumerate() {
        let k = at_or(keys, number as usize, ZERO_KEY);
        let entry = [
            (k.stream % 4294967296) as u32,
            (k.place % 4294967296) as u32,
            (k.styled % 4294967296) as u32,
        ];
        store_all(list, i * 3, &entry);
    }
}
