// The styles of one entity: those of its layers in order, over lent tables and any bytes. `*` gets none.
#![tactic(auto)]

ghost use Rattle.std.specs.Prelude.{◌≡◌, ◌≤◌, length, take};
ghost use Rattle.styles.specs.Styles.{blank_layer, layer_styled, filled_layers, walked_styles, styles_of};

use base::refusal::Refusal;
use entity::{ALONE, Entity, single_entity};
use parts::{default_width, is_styled, tag_layer};
use style::{Row, Settings, Style, property_map_to_style};
use table::Tables;
use valid::{Counts, judge};
use walk::maps::{Layers, Maps, ROW, selector_at};
use walk::walk_entity;

pub mod parts;

// A styled layer, named by the selector that first matched it.
#[derive(Clone, Copy, Default)]
pub struct StyledLayer {
    pub selector: u32,
    pub style: Style,
}

// The styled layers, of which the first `count` are in use; behind them all is blank.
#[derive(Clone, Copy)]
pub struct EntityStyles {
    pub layers: [StyledLayer; 32],
    pub count: usize,
}

impl EntityStyles {
    pub fn styled(&self) -> &[StyledLayer]
        ensures layers { result.now ≡ take self.now.count self.now.layers }
        ensures few { length result.now ≤ 32 }
    {
        &self.layers[..self.count.min(32)]
    }
}

// The styles of an entity: 22 for the tables, 7 and 2 for the entity, then the walk, then layer by layer.
pub fn entity_styles(
    tables: &Tables,
    n: Counts,
    zoom: u8,
    settings: Settings,
    entity: &[u8],
) -> Result<EntityStyles, Refusal>
    ensures { result ≡ styles_of tables.now.bundle.now tables.now.rules.now tables.now.selectors.now tables.now.tests.now tables.now.properties.now tables.now.numbers.now n zoom settings entity.now }
{
    judge(tables, n)?;
    let range = single_entity(entity)?;
    let entity = Entity {
        bytes: entity,
        range,
    };
    walked_styles(tables, n.rules, zoom, settings, entity)
}

// The styles of an entity that is read, beside tables that are sound.
fn walked_styles(
    tables: &Tables,
    total: usize,
    zoom: u8,
    settings: Settings,
    entity: Entity,
) -> Result<EntityStyles, Refusal>
    ensures { result ≡ walked_styles tables.now.bundle.now tables.now.rules.now tables.now.selectors.now tables.now.tests.now tables.now.properties.now tables.now.numbers.now total zoom settings entity.entry.bytes.now entity.entry.range }
{
    let mut maps = [0u32; 33 * ROW];
    let m = walk_entity(tables, total, zoom, entity, ALONE, &mut maps)?;
    let kind = entity.range.kind;
    Ok(filled_layers(tables, &maps, m, kind, tag_layer(entity), settings))
}

// The styles of the first m layers of a table of maps, `*` left out.
fn filled_layers(
    tables: &Tables,
    maps: &Maps,
    m: Layers,
    kind: u8,
    layer: Option<i64>,
    settings: Settings,
) -> EntityStyles
    ensures { result ≡ filled_layers tables.now.bundle.now tables.now.selectors.now tables.now.properties.now tables.now.numbers.now maps.now m kind layer settings }
{
    let base = default_width(tables, maps, m.n);
    let mut layers = [StyledLayer::default(); 32];
    let mut count: usize = 0;
    for i in 0..m.n {
        if !is_styled(tables, maps, i) {
            continue;
        }
        // Lent again, since a row holds its tables at one lifetime.
        let row = Row::at(&*tables, maps, i);
        layers[count] = StyledLayer {
            selector: selector_at(maps, i),
            style: property_map_to_style(row, kind, layer, base, settings),
        };
        count += 1;
    }
    EntityStyles { layers, count }
}
