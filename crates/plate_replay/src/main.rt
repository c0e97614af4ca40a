// Replays stored inputs of plate (differential/README.md has their form and how they were made) against the library that plate
// prints by. It prints the number of each case that differs, then the totals.
#![tactic(auto)]

ghost use Rattle.std.specs.Prelude.{◌≤◌, ◌<◌, length, IfSome};

use base::{Range, part};
use printing::Buffers;
use std::io;
use stdio::cases::{Case, piece_at, replay_cases};
use stdio::zeros;
use table::Tables;

fn main(rt: HostRuntime) -> io::Result<()> {
    let mut room = zeros::<524288>();
    replay_cases(&mut room, &mut rt.stdin(), &mut rt.stdout(), &Plates)
}

// Stored inputs and outputs of plate.
struct Plates;

impl Case for Plates {
    ghost answers = { λ _ s at r. IfSome r (λ e. (at < e.0) × (e.0 ≤ length s)) };

    fn at(&self, s: &[u8], at: usize) -> Option<(usize, bool)> {
        let input = piece_at(s, at)?;
        let output = piece_at(s, input.to)?;
        Some((output.to, agrees(part(s, input), part(s, output))))
    }
}

// Whether plate prints this output. What is lent holds something else before.
fn agrees(input: &[u8], output: &[u8]) -> bool {
    end_of(input, output).is_some_and(|end| end == output.len())
}

// Where what plate prints ends, where the output begins with it.
fn end_of(input: &[u8], output: &[u8]) -> Option<usize> {
    let mut buffers = Buffers {
        rules: [u32::MAX; 4096],
        selectors: [u32::MAX; 4096],
        tests: [u32::MAX; 4096],
        properties: [u32::MAX; 4096],
        numbers: [1.5; 512],
        colors: [u32::MAX; 4096],
        maps: [u32::MAX; 4323],
    };
    let mut line = zeros::<60064>();
    match printing::plate(input, &mut buffers) {
        Err(e) => {
            let n = line::refusal_line(e, &mut line);
            behind(output, 0, part(&line, Range { from: 0, to: n }))
        }
        Ok((b, layers)) => {
            let tables = buffers.tables(part(input, b));
            layers_behind(&tables, &buffers.maps, layers, output, &mut line)
        }
    }
}

// The place behind the layers' lines, where the output begins with them. A line is written into what is lent.
fn layers_behind(
    tables: &Tables,
    maps: &[u32],
    layers: usize,
    output: &[u8],
    line: &mut [u8],
) -> Option<usize> {
    let mut at: usize = 0;
    for i in 0..layers {
        let n = line::layer_line(tables, maps, i, line);
        at = behind(output, at, part(line, Range { from: 0, to: n }))?;
        at = properties_behind(tables, maps, i, output, at, line)?;
    }
    Some(at)
}

// The place behind the lines of a layer's properties, where the output has them at a place.
fn properties_behind(
    tables: &Tables,
    maps: &[u32],
    i: usize,
    output: &[u8],
    from: usize,
    line: &mut [u8],
) -> Option<usize> {
    let mut at = from;
    let count = line::property_count(maps, i) as usize;
    for j in 0..count {
        let n = line::property_line(tables, maps, i, j, line);
        at = behind(output, at, part(line, Range { from: 0, to: n }))?;
    }
    Some(at)
}

// The place behind a line, where the output has it at a place.
fn behind(output: &[u8], at: usize, line: &[u8]) -> Option<usize> {
    let end = at.checked_add(line.len())?;
    base::same_bytes(part(output, Range { from: at, to: end }), line).then_some(end)
}
