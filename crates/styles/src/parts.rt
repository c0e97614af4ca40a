// What styles read of an entity and of its table of maps: the tag `layer`, which layers are styled, the default layer's width.
ghost use Rattle.std.specs.Prelude.{◌≡◌, not};
ghost use Rattle.base.specs.Bytes.{same};
ghost use Rattle.entity.specs.Layout.{value_of};
ghost use Rattle.cascade.specs.Clause.{star};
ghost use Rattle.cascade.specs.Style.{layer_tag};
ghost use Rattle.tag_number.specs.Told.{layer_told};
ghost use Rattle.walk.specs.Selectors.{layer_in};
ghost use Rattle.styles.specs.Styles.{named_by, default_width};

use entity::Entity;
use style::{Row, width_or_zero};
use table::Tables;
use walk::layer_place;
use walk::maps::{Maps, selector_at};
use walk::names::is_layer;

// The tag `layer` of an entity.
pub fn tag_layer(entity: Entity) -> Option<i64>
    ensures { result ≡ layer_told (layer_tag (value_of entity.entry.bytes.now entity.entry.range)) }
{
    let v = reader::get_by_key(entity, b"layer")?;
    tag_number::layer_tag(base::part(entity.bytes, v))
}

// Whether layer i of a table of maps gets a style: all do but `*`.
pub fn is_styled(tables: &Tables, maps: &Maps, i: usize) -> bool
    ensures { result ≡ not (same star (layer_in tables.now.bundle.now tables.now.selectors.now (named_by tables.now.bundle.now tables.now.selectors.now maps.now i))) }
{
    !is_layer(tables, selector_at(maps, i), b"*")
}

// The width of the default layer among the first n of a table of maps; 0 where it has none, or there is none.
pub fn default_width(tables: &Tables, maps: &Maps, n: usize) -> f64
    ensures { result ≡ default_width tables.now.bundle.now tables.now.selectors.now tables.now.properties.now tables.now.numbers.now maps.now n }
{
    match layer_place(tables, maps, n, b"default") {
        None => 0.0,
        Some(i) => width_or_zero(Row::at(tables, maps, i).number(b"width")),
    }
}
