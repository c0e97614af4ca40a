// The walk of one entity through a sheet: its property maps, over lent tables and any bytes.
#![tactic(auto)]

ghost use Rattle.std.specs.Prelude.{◌≡◌, ◌≤◌, ◌<◌};
ghost use Rattle.walk.specs.Maps.{no_rows, walk_of, maps_of, few, layer_place};
ghost use Rattle.walk.specs.Rows.{below, numbers_in};
ghost use Rattle.walk.specs.Run.{told, hit_of, rule_of, rules_of};
ghost use Rattle.walk.specs.Selectors.{layer_in};
ghost use Rattle.walk.specs.Walking.{given, names, layers, verdicts};

use base::refusal::{Refusal, TABLE_BROKEN, TAG_NUMBER};
use base::word_at;
use entity::{ALONE, Entity, StreamPlace, single_entity};
use maps::{Layers, Maps};
use matching::matches;
use rows::Properties;
use table::Tables;
use valid::{Counts, judge};

mod layers;
pub mod maps;
pub mod names;
mod rows;

// The property maps of an entity: how many layers there are, and the table of them, or why not, and a table of zeros.
pub fn property_maps(
    tables: &Tables,
    n: Counts,
    zoom: u8,
    entity: &[u8],
    maps: &mut Maps,
) -> Result<usize, Refusal>
    ensures maps_after { (result, maps.new) ≡ maps_of tables.now.bundle.now tables.now.rules.now tables.now.selectors.now tables.now.tests.now tables.now.properties.now tables.now.numbers.now n zoom entity.now }
    ensures few { few result }
{
    maps.fill(0);
    judge(tables, n)?;
    let range = single_entity(entity)?;
    let entity = Entity {
        bytes: entity,
        range,
    };
    let m = walk_cleared(tables, n.rules, zoom, entity, ALONE, maps)?;
    Ok(m.n)
}

// The walk alone, for callers that have judged the tables and the entity, which has this place in its stream.
pub fn walk_entity(
    tables: &Tables,
    total: usize,
    zoom: u8,
    entity: Entity,
    place: StreamPlace,
    maps: &mut Maps,
) -> Result<Layers, Refusal>
    ensures { (result, maps.new) ≡ walk_of tables.now.bundle.now tables.now.rules.now tables.now.selectors.now tables.now.tests.now tables.now.properties.now tables.now.numbers.now total zoom entity.entry.bytes.now entity.entry.range place.multipolygons place.place }
{
    maps.fill(0);
    walk_cleared(tables, total, zoom, entity, place, maps)
}

// The same over a table of zeros.
fn walk_cleared(
    tables: &Tables,
    total: usize,
    zoom: u8,
    entity: Entity,
    place: StreamPlace,
    maps: &mut Maps,
) -> Result<Layers, Refusal>
    requires { maps.old ≡ no_rows }
    ensures { (result, maps.new) ≡ walk_of tables.now.bundle.now tables.now.rules.now tables.now.selectors.now tables.now.tests.now tables.now.properties.now tables.now.numbers.now total zoom entity.entry.bytes.now entity.entry.range place.multipolygons place.place }
{
    if 16384 < total {
        return Err(Refusal::plain(TABLE_BROKEN));
    }
    let mut walk = Walk {
        tables,
        zoom,
        entity,
        rows: maps,
        count: Layers { n: 0 },
    };
    match walk.rules(total) {
        Ok(()) => Ok(walk.made()),
        Err(k) => {
            walk.rows.fill(0);
            Err(place.refuse(k))
        }
    }
}

// The place of the layer of this name among the first n of a table of maps.
pub fn layer_place(tables: &Tables, maps: &[u32], n: usize, name: &[u8]) -> Option<usize>
    ensures { result ≡ below n (layer_place (layer_in tables.now.bundle.now tables.now.selectors.now) maps.now n name.now) }
{
    if 32 < n {
        return None;
    }
    let i = layers::find_named(tables, maps, Layers { n }, name)?;
    Some(i.n)
}

// A walk of an entity through tables, at a zoom: the maps that it has made so far, and how many layers they have.
#[derive(Drop)]
struct Walk<'a> {
    tables: &'a Tables<'a>,
    zoom: u8,
    entity: Entity<'a>,
    rows: &'a mut Maps,
    count: Layers,
}

impl Walk<'_> {
    // How many layers it has made.
    fn made(&self) -> Layers
        ensures { result ≡ self.now.count }
    {
        self.count
    }

    // The first `total` rules, in order.
    fn rules(&mut self, total: usize) -> Result<(), usize>
        requires { total ≤ 16384 }
        ensures rules { told result self.new.count self.new.rows.now ≡ rules_of (names self.old) (layers self.old) (verdicts self.old) self.old.tables.now.rules.now self.old.rows.now self.old.count 0 total }
        ensures same_reference { self.new.rows.ghost_name ≡ self.old.rows.ghost_name }
    {
        for r in 0..total {
            self.rule(r)?;
        }
        Ok(())
    }

    // One rule: its selectors in order.
    fn rule(&mut self, r: usize) -> Result<(), usize>
        requires { r < 16384 }
        ensures rule { told result self.new.count self.new.rows.now ≡ rule_of (names self.old) (layers self.old) (verdicts self.old) self.old.tables.now.rules.now self.old.rows.now self.old.count r }
        ensures same { given self.new ≡ given self.old }
    {
        let rules = self.tables.rules;
        let at = r * 8;
        let start = word_at(rules, at + 1);
        let end = word_at(rules, at + 2);
        let from = word_at(rules, at + 3);
        let to = word_at(rules, at + 4);
        for s in start..end {
            self.visit(s, Properties { from, to })?;
        }
        Ok(())
    }

    // One selector, with the properties of its rule.
    fn visit(&mut self, s: u32, ps: Properties) -> Result<(), usize>
        ensures hit { told result self.new.count self.new.rows.now ≡ hit_of (names self.old) (layers self.old) (verdicts self.old) self.old.rows.now self.old.count s (numbers_in ps) }
        ensures same { given self.new ≡ given self.old }
    {
        let fits = matches(self.tables, self.zoom, self.entity, s as usize);
        if !fits.map_err(|_| TAG_NUMBER)? {
            return Ok(());
        }
        self.step(s, ps)
    }
}
