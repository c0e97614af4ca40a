// Names in the tables: a property's, a layer's, and the place of a name among a layer's properties.
ghost use Rattle.std.specs.Prelude.{◌≡◌, length};
ghost use Rattle.base.specs.Bytes.{same};
ghost use Rattle.decode.specs.Decode.{name_at};
ghost use Rattle.walk.specs.Rows.{below, place_of};
ghost use Rattle.walk.specs.Selectors.{layer_in};

use table::{Tables, range_of, word_of};

// The name of property p.
pub fn name_of<'a>(tables: &Tables<'a>, p: u32) -> &'a [u8]
    ensures { result.now ≡ name_at tables.now.bundle.now tables.now.properties.now p }
{
    base::part(tables.bundle, range_of(tables.properties, p as usize, 1))
}

// The place of a name in a row.
pub fn find_name(tables: &Tables, row: &[u32], name: &[u8]) -> Option<usize>
    ensures { result ≡ below (length row.now) (place_of (name_at tables.now.bundle.now tables.now.properties.now) row.now name.now) }
{
    row.iter()
        .position(|p| base::same_bytes(name, name_of(tables, *p)))
}

// The name of selector s's layer.
pub fn layer_name<'a>(tables: &Tables<'a>, s: u32) -> &'a [u8]
    ensures { result.now ≡ layer_in tables.now.bundle.now tables.now.selectors.now s }
{
    let i = s as usize;
    if word_of(tables.selectors, i, 5) != 1 {
        return b"default";
    }
    base::part(tables.bundle, range_of(tables.selectors, i, 6))
}

// Whether selector s is of the layer of this name.
pub fn is_layer(tables: &Tables, s: u32, name: &[u8]) -> bool
    ensures { result ≡ same name.now (layer_in tables.now.bundle.now tables.now.selectors.now s) }
{
    base::same_bytes(name, layer_name(tables, s))
}
