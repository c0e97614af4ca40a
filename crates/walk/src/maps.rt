// A table of maps: a row for each layer, which holds the number of the selector that named it, its count of properties, and their numbers.
ghost use Rattle.std.specs.Prelude.{◌≡◌, ◌*◌, get_or};
ghost use Rattle.walk.specs.Rows.{numbers_at};

use std::marker::Model;

// The words of a row.
pub const ROW: usize = 131;

// The whole table.
pub type Maps = [u32; 33 * ROW];

// How many layers there are, or the number of one: the table has 33 rows, and no map has more than 32.
#[derive(Clone, Copy)]
pub struct Layers {
    pub n: usize,
}

impl Model for Layers {
    ghost use Rattle.std.specs.Prelude.{ℕ, ◌≤◌};

    ghost Value = { ℕ };

    ghost view = { λ l. l.n };

    ghost invariant = { λ l. l.n ≤ 32 };

    ghost inverse = { λ k. record { n = k } };
}

// The number of the selector that named layer i, and 0 past the end.
pub fn selector_at(maps: &[u32], i: usize) -> u32
    ensures { result ≡ get_or maps.now (i * 131) 0 }
{
    base::word_at(maps, i.saturating_mul(ROW))
}

// The numbers of the properties of layer i.
pub fn row_of(maps: &Maps, i: usize) -> &[u32]
    ensures { result.now ≡ numbers_at maps.now i }
{
    if 32 < i {
        return &maps[..0];
    }
    let a = i * ROW + 2;
    let count = maps[i * ROW + 1] as usize;
    &maps[a..(a + count).min(maps.len())]
}
