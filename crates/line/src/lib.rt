// The lines: each is put into a lent buffer, as far as that has room, and the answer is how many bytes were put.
#![tactic(auto)]

ghost use Rattle.std.specs.Prelude.{◌≡◌, ◌+◌, ◌*◌, get_or};
ghost use Rattle.decode.specs.Decode.{name_at};
ghost use Rattle.walk.specs.Selectors.{layer_in};
ghost use Rattle.line.specs.Lines.{layer_line, property_line, refusal_line, written};

use base::refusal::Refusal;
use put::Line;
use table::Tables;
use walk::maps::{ROW, selector_at};
use walk::names::{layer_name, name_of};

mod put;

// The line of layer i of the maps.
pub fn layer_line(tables: &Tables, maps: &[u32], i: usize, out: &mut [u8]) -> usize
    ensures { (result, out.new) ≡ written (layer_line (layer_in tables.now.bundle.now tables.now.selectors.now (get_or maps.now (i * 131) 0))) out.old }
{
    let mut line = Line { out, n: 0 };
    line.put_bytes(b"layer ");
    line.put_bytes(layer_name(tables, selector_at(maps, i)));
    line.put_byte(b'\n');
    line.n
}

// How many properties layer i of the maps has.
pub fn property_count(maps: &[u32], i: usize) -> u32
    ensures { result ≡ get_or maps.now (i * 131 + 1) 0 }
{
    row_word(maps, i, 1)
}

// The line of property j of layer i of the maps.
pub fn property_line(tables: &Tables, maps: &[u32], i: usize, j: usize, out: &mut [u8]) -> usize
    ensures { (result, out.new) ≡ written (property_line (name_at tables.now.bundle.now tables.now.properties.now (get_or maps.now (i * 131 + 2 + j) 0)) (get_or maps.now (i * 131 + 2 + j) 0)) out.old }
{
    let p = property_number(maps, i, j);
    let mut line = Line { out, n: 0 };
    line.put_bytes(name_of(tables, p));
    line.put_number(u64::from(p));
    line.put_byte(b'\n');
    line.n
}

// The line of a refusal.
pub fn refusal_line(e: Refusal, out: &mut [u8]) -> usize
    ensures { (result, out.new) ≡ written (refusal_line e) out.old }
{
    let mut line = Line { out, n: 0 };
    line.put_bytes(b"refused");
    for x in e.numbers() {
        line.put_number(x);
    }
    line.put_byte(b'\n');
    line.n
}

// Word j of row i of the maps, and 0 past their end.
fn row_word(maps: &[u32], i: usize, j: usize) -> u32
    ensures { result ≡ get_or maps.now (i * 131 + j) 0 }
{
    base::word_at(maps, i.saturating_mul(ROW).saturating_add(j))
}

// The number of property j of layer i of the maps.
fn property_number(maps: &[u32], i: usize, j: usize) -> u32
    ensures { result ≡ get_or maps.now (i * 131 + 2 + j) 0 }
{
    row_word(maps, i, j.saturating_add(2))
}
