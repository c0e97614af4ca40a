// What the program plate prints: the property maps of an entity as lines, all but reading and writing.
#![tactic(auto)]

ghost use Rattle.std.specs.Prelude.{◌≡◌};
ghost use Rattle.parser.specs.Load.{load_of};
ghost use Rattle.printing.specs.Frame.{frame_of};
ghost use Rattle.printing.specs.Plate.{plate_in, empty, room, loaded_plate, plate_of};

use base::Range;
use base::refusal::{BUNDLE_LAYOUT, Refusal};
use table::Tables;
use valid::Counts;
use walk::maps::{Maps, ROW};

// The tables that plate reads with: 512 entries each, and 33 rows of maps.
#[derive(Drop)]
pub struct Buffers {
    pub rules: [u32; 4096],
    pub selectors: [u32; 4096],
    pub tests: [u32; 4096],
    pub properties: [u32; 4096],
    pub numbers: [f64; 512],
    pub colors: [u32; 4096],
    pub maps: Maps,
}

impl Buffers {
    pub fn new() -> Buffers
        ensures { result ≡ empty }
    {
        Buffers {
            rules: [0; 4096],
            selectors: [0; 4096],
            tests: [0; 4096],
            properties: [0; 4096],
            numbers: [0.0; 512],
            colors: [0; 4096],
            maps: [0; 33 * ROW],
        }
    }

    fn blank(&mut self)
        ensures { self.new ≡ empty }
    {
        *self = Buffers::new();
    }

    // The tables, beside the bundle that they were loaded from.
    pub fn tables<'a>(&'a self, bundle: &'a [u8]) -> Tables<'a>
        ensures bundle { result.bundle.now ≡ bundle.now }
        ensures rules { result.rules.now ≡ self.now.rules }
        ensures selectors { result.selectors.now ≡ self.now.selectors }
        ensures tests { result.tests.now ≡ self.now.tests }
        ensures properties { result.properties.now ≡ self.now.properties }
        ensures numbers { result.numbers.now ≡ self.now.numbers }
    {
        Tables {
            bundle,
            rules: &self.rules,
            selectors: &self.selectors,
            tests: &self.tests,
            properties: &self.properties,
            numbers: &self.numbers,
        }
    }
}

// Reads the input's entity in the input's sheet: the answer, and what is left in the buffers, are those of specs/Plate.antt.
pub fn plate(input: &[u8], buffers: &mut Buffers) -> Result<(Range, usize), Refusal>
    ensures { plate_in result buffers.new ≡ plate_of input.now }
{
    match parts(input) {
        None => {
            buffers.blank();
            Err(Refusal::plain(BUNDLE_LAYOUT))
        }
        Some((zoom, b, e)) => {
            styled(base::part(input, b), base::part(input, e), zoom, b, buffers)
        }
    }
}

// Where the parts of the input stand.
fn parts(input: &[u8]) -> Option<(u8, Range, Range)>
    ensures { result ≡ frame_of input.now }
{
    let len = input.len();
    if 60000 < len {
        return None;
    }
    let (n, next) = group::number_at(input, 1, 4294967295)?;
    let end = next + n as usize;
    if len < end {
        return None;
    }
    Some((
        base::byte_at(input, 0),
        Range {
            from: next,
            to: end,
        },
        Range { from: end, to: len },
    ))
}

// Loads the bundle, which stands at b, and walks the entity through its sheet.
fn styled(
    bundle: &[u8],
    entity: &[u8],
    zoom: u8,
    b: Range,
    buffers: &mut Buffers,
) -> Result<(Range, usize), Refusal>
    ensures { plate_in result buffers.new ≡ loaded_plate zoom b bundle.now entity.now (load_of bundle.now room) }
{
    buffers.maps.fill(0);
    let n = parser::load(
        bundle,
        &mut buffers.rules,
        &mut buffers.selectors,
        &mut buffers.tests,
        &mut buffers.properties,
        &mut buffers.numbers,
        &mut buffers.colors,
    )?;
    // Not by `tables`, which would lend the maps too.
    let tables = Tables {
        bundle,
        rules: &buffers.rules,
        selectors: &buffers.selectors,
        tests: &buffers.tests,
        properties: &buffers.properties,
        numbers: &buffers.numbers,
    };
    let k = walk::property_maps(&tables, Counts::from(n), zoom, entity, &mut buffers.maps)?;
    Ok((b, k))
}
