// The keys of an entity's styled layers.
ghost use Rattle.std.specs.Prelude.{◌≡◌, [], length};
ghost use Rattle.entity.specs.Layout.{value_of};
ghost use Rattle.cascade.specs.Style.{layer_tag};
ghost use Rattle.tag_number.specs.Told.{layer_told};
ghost use Rattle.styles.specs.Styles.{styled_rows};
ghost use Rattle.drawing.specs.Gather.{gathered, told, IsBounded, layer_rank, fill_rank, stream_rank, key_of, keys_from, any_nan, push};

use crate::Drawing;
use base::refusal::{DRAW_LIST_FULL, Refusal};
use entity::{Entity, EntityRange, StreamPlace};
use order::Key;
use style::Row;
use styles::parts::{is_styled, tag_layer};
use walk::maps::{Layers, Maps};

impl Drawing<'_> {
    // Whether the z-index of a styled layer, of the first m of a table of maps, is NaN.
    pub fn any_nan(&self, maps: &Maps, m: Layers, kind: u8) -> bool
        ensures { result ≡ any_nan self.now.tables.now.bundle.now self.now.tables.now.properties.now self.now.tables.now.numbers.now maps.now kind (styled_rows self.now.tables.now.bundle.now self.now.tables.now.selectors.now maps.now m) }
    {
        (0..m.n).any(|i| {
            is_styled(self.tables, maps, i) && Row::at(self.tables, maps, i).z_index(kind).is_nan()
        })
    }

    // Stores the keys of the styled layers of an entity, where there is room for them, and says how many.
    pub fn push_layers(
        &self,
        entity: Entity,
        place: StreamPlace,
        maps: &Maps,
        m: Layers,
        keys: &mut [Key],
    ) -> Result<usize, Refusal>
        ensures keys_after { told result keys.new ≡ push (length keys.old) [] (gathered (keys_from self.now.tables.now.bundle.now self.now.tables.now.properties.now self.now.tables.now.numbers.now self.now.for_labels place.multipolygons place.place entity.entry.range.kind entity.entry.range.id (layer_told (layer_tag (value_of entity.entry.bytes.now entity.entry.range))) maps.now 0 (styled_rows self.now.tables.now.bundle.now self.now.tables.now.selectors.now maps.now m))) }
        ensures IsBounded { IsBounded (length keys.old) result }
    {
        let layer = tag_layer(entity);
        let mut k: usize = 0;
        for i in 0..m.n {
            if !is_styled(self.tables, maps, i) {
                continue;
            }
            if keys.len() <= k {
                return Err(Refusal::plain(DRAW_LIST_FULL));
            }
            keys[k] = self.key(entity.range, place, layer, maps, i, k);
            k += 1;
        }
        Ok(k)
    }

    // The key of layer i of a table of maps, which is styled layer k of its entity.
    fn key(
        &self,
        e: EntityRange,
        place: StreamPlace,
        layer: Option<i64>,
        maps: &Maps,
        i: usize,
        k: usize,
    ) -> Key
        ensures { result ≡ key_of self.now.tables.now.bundle.now self.now.tables.now.properties.now self.now.tables.now.numbers.now self.now.for_labels place.multipolygons place.place e.kind e.id layer maps.now k i }
    {
        let row = Row::at(self.tables, maps, i);
        Key {
            layer: layer_rank(layer),
            fill: fill_rank(self.for_labels, row.is_foreground_fill()),
            z_index: row.z_index(e.kind),
            id: e.id,
            stream: stream_rank(place.multipolygons),
            place: place.place as u64,
            styled: k as u64,
        }
    }
}

// A layer that is absent counts as 0.
#[tactic(auto, unfolding(crate::specs::Gather::layer_rank))]
fn layer_rank(layer: Option<i64>) -> i64
    ensures { result ≡ layer_rank layer }
{
    layer.unwrap_or(0)
}

#[tactic(auto, unfolding(crate::specs::Gather::fill_rank, base::specs::Choice::pick))]
fn fill_rank(for_labels: bool, foreground: bool) -> u64
    ensures { result ≡ fill_rank for_labels foreground }
{
    u64::from(foreground && !for_labels)
}

#[tactic(auto, unfolding(crate::specs::Gather::stream_rank, base::specs::Choice::pick))]
fn stream_rank(multipolygons: bool) -> u64
    ensures { result ≡ stream_rank multipolygons }
{
    u64::from(multipolygons)
}
