// Drawing lists: the styled layers of all entities of a stream in drawing order, into a lent list of three words an entry.
#![tactic(auto)]

ghost use Rattle.std.specs.Prelude.{◌≡◌, ◌*◌, ◌≤◌, length, Ok, Err};
ghost use Rattle.base.specs.Choice.{pick};
ghost use Rattle.base.specs.Refusal.{refusal};
ghost use Rattle.valid.specs.Valid.{tables_sound};
ghost use Rattle.drawing.specs.Lists.{room_of, nodes_of, areas_of};

use base::refusal::Refusal;
use entity::Sort;
use list::write_list;
use order::ZERO_KEY;
use style::Settings;
use table::Tables;
use valid::{Counts, judge};

mod gather;
mod keys;
mod list;

// What a list is made with: tables, of which the first `total` rules count, a zoom, and whether it is for labels.
#[derive(Clone, Copy)]
struct Drawing<'a> {
    tables: &'a Tables<'a>,
    total: usize,
    zoom: u8,
    for_labels: bool,
}

impl<'a> Drawing<'a> {
    // Refusal 22 where the tables are not sound.
    fn judged(
        tables: &'a Tables<'a>,
        n: Counts,
        zoom: u8,
        settings: Settings,
    ) -> Result<Drawing<'a>, Refusal>
        ensures { result ≡ pick (tables_sound tables.now.rules.now tables.now.selectors.now tables.now.tests.now tables.now.properties.now tables.now.numbers.now n (length tables.now.bundle.now)) (Ok (record { tables = tables.entry; total = n.rules; zoom = zoom; for_labels = settings.for_labels })) (Err (refusal 22 0 0 0 0)) }
    {
        judge(tables, n)?;
        Ok(Drawing {
            tables,
            total: n.rules,
            zoom,
            for_labels: settings.for_labels,
        })
    }
}

// The drawing list of a stream of nodes. An entry is 0, the node's place in the stream, and the place among its styled layers.
pub fn style_entities(
    tables: &Tables,
    n: Counts,
    zoom: u8,
    settings: Settings,
    nodes: &[u8],
    list: &mut [u32],
) -> Result<usize, Refusal>
    ensures { (result, list.new) ≡ nodes_of tables.now.bundle.now tables.now.rules.now tables.now.selectors.now tables.now.tests.now tables.now.properties.now tables.now.numbers.now n zoom settings (length list.old) nodes.now }
{
    list.fill(0);
    let drawing = Drawing::judged(tables, n, zoom, settings)?;
    let mut keys = [ZERO_KEY; 4096];
    let free = &mut keys[..room_of(list.len())];
    let k = drawing.gather(Sort::Nodes, false, nodes, free)?;
    write_list(&free[..k], 0, list);
    Ok(k)
}

// The drawing list of ways and multipolygons, whose entries begin with 1. Ways are judged first; multipolygons come first where they tie.
pub fn style_areas(
    tables: &Tables,
    n: Counts,
    zoom: u8,
    settings: Settings,
    ways: &[u8],
    multipolygons: &[u8],
    list: &mut [u32],
) -> Result<usize, Refusal>
    ensures { (result, list.new) ≡ areas_of tables.now.bundle.now tables.now.rules.now tables.now.selectors.now tables.now.tests.now tables.now.properties.now tables.now.numbers.now n zoom settings (length list.old) ways.now multipolygons.now }
{
    list.fill(0);
    let drawing = Drawing::judged(tables, n, zoom, settings)?;
    let mut keys = [ZERO_KEY; 4096];
    let free = &mut keys[..room_of(list.len())];
    let w = drawing.gather(Sort::Areas, false, ways, free)?;
    let m = drawing.gather(Sort::Areas, true, multipolygons, &mut free[w..])?;
    let k = w + m;
    write_list(&free[..k], w, list);
    Ok(k)
}

// The entries that a list of so many words takes.
#[tactic(auto, unfolding(crate::specs::Lists::room_of))]
fn room_of(len: usize) -> usize
    ensures room { result ≡ room_of len }
    ensures most { result ≤ 4096 }
    ensures fits { result * 3 ≤ len }
{
    (len / 3).min(4096)
}
