// The properties of a layer, held as their numbers in a row of words. A name is a range of the bundle, cut to it; a word past the end of a table is 0.
ghost use Rattle.std.specs.Prelude.{◌≡◌, ◌++◌, ◌<◌, min, take, drop, length};
ghost use Rattle.cascade.specs.Numbered.{assign};
ghost use Rattle.decode.specs.Decode.{name_at};
ghost use Rattle.walk.specs.Rows.{assigns, numbers_in};

use crate::names::{find_name, name_of};
use table::Tables;

// The properties of a rule: their numbers run from one up to another.
#[derive(Clone, Copy)]
pub struct Properties {
    pub from: u32,
    pub to: u32,
}

// Assigns property p to a row, of which the first `count` entries are in use, and returns the new count.
fn assign_property(tables: &Tables, row: &mut [u32], count: usize, p: u32) -> usize
    requires { count < length row.old }
    ensures used { result ≡ length (assign (name_at tables.now.bundle.now tables.now.properties.now) (take count row.old) p) }
    ensures assigned { row.new ≡ assign (name_at tables.now.bundle.now tables.now.properties.now) (take count row.old) p ++ drop result row.old }
{
    let name = name_of(tables, p);
    let at = find_name(tables, &row[..count], name).unwrap_or(count);
    row[at] = p;
    count.max(at + 1)
}

// Assigns properties to a row, in order, and returns the new count: the row's length where they leave no entry free.
pub fn assign_range(tables: &Tables, row: &mut [u32], count: usize, ps: Properties) -> usize
    ensures used { result ≡ min (length row.old) (length (assigns (name_at tables.now.bundle.now tables.now.properties.now) (take count row.old) (numbers_in ps))) }
    ensures kept { result < length row.old → row.new ≡ assigns (name_at tables.now.bundle.now tables.now.properties.now) (take count row.old) (numbers_in ps) ++ drop result row.old }
{
    if row.len() <= count {
        return row.len();
    }
    let mut n = count;
    for p in ps.from..ps.to {
        n = assign_property(tables, row, n, p);
        if n == row.len() {
            return n;
        }
    }
    n
}
