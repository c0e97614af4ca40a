// The keys of a stream, entity by entity: each is read, walked through the sheet and judged before the next is looked at.
ghost use Rattle.std.specs.Prelude.{◌≡◌, [], length};
ghost use Rattle.drawing.specs.Gather.{told, IsBounded, push, entity_keys, gather_of};

use crate::Drawing;
use base::refusal::{NAN_Z_INDEX, Refusal};
use entity::{Entity, Sort, StreamPlace, next_entity};
use order::Key;
use walk::maps::{Maps, ROW};
use walk::walk_entity;

impl Drawing<'_> {
    // Stores the keys of an entity, and says how many: the refusals of the walk, 9, then 25.
    fn push_entity(
        &self,
        entity: Entity,
        place: StreamPlace,
        maps: &mut Maps,
        keys: &mut [Key],
    ) -> Result<usize, Refusal>
        ensures keys_after { told result keys.new ≡ push (length keys.old) [] (entity_keys self.now.tables.now.bundle.now self.now.tables.now.rules.now self.now.tables.now.selectors.now self.now.tables.now.tests.now self.now.tables.now.properties.now self.now.tables.now.numbers.now self.now.total self.now.zoom self.now.for_labels place.multipolygons entity.entry.bytes.now entity.entry.range place.place) }
        ensures IsBounded { IsBounded (length keys.old) result }
    {
        let m = walk_entity(self.tables, self.total, self.zoom, entity, place, maps)?;
        if self.any_nan(maps, m, entity.range.kind) {
            return Err(place.refuse(NAN_Z_INDEX));
        }
        self.push_layers(entity, place, maps, m, keys)
    }

    // Stores the keys of a stream, and says how many there are.
    pub fn gather(
        &self,
        sort: Sort,
        multipolygons: bool,
        s: &[u8],
        keys: &mut [Key],
    ) -> Result<usize, Refusal>
        ensures keys_after { told result keys.new ≡ gather_of self.now.tables.now.bundle.now self.now.tables.now.rules.now self.now.tables.now.selectors.now self.now.tables.now.tests.now self.now.tables.now.properties.now self.now.tables.now.numbers.now self.now.total self.now.zoom self.now.for_labels (length keys.old) sort multipolygons s.now [] }
        ensures IsBounded { IsBounded (length keys.old) result }
    {
        let mut maps = [0u32; 33 * ROW];
        let mut m: usize = 0;
        let mut at: usize = 0;
        let mut place = StreamPlace {
            multipolygons,
            place: 0,
        };
        while let Some(range) = next_entity(s, sort, at, place)? {
            let entity = Entity { bytes: s, range };
            m += self.push_entity(entity, place, &mut maps, &mut keys[m..])?;
            at = range.end;
            place.place += 1;
        }
        Ok(m)
    }
}
