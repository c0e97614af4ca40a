// Reads a zoom, a bundle and an entity, and prints the layers of the entity's property maps, or `refused` with the five numbers.
#![tactic(auto)]

use base::Range;
use line::{layer_line, property_count, property_line, refusal_line};
use printing::Buffers;
use std::io;
use std::io::Write;
use stdio::{read_full, zeros};
use table::Tables;

fn main(rt: HostRuntime) -> io::Result<()> {
    // One byte more than an input may have, so that a longer one is seen.
    let mut input = zeros::<60001>();
    let n = read_full(&mut rt.stdin(), &mut input)?;
    print_plate(&mut rt.stdout(), &input[..n])
}

fn print_plate<W: Write>(out: &mut W, input: &[u8]) -> io::Result<()> {
    let mut buffers = Buffers::new();
    // Room for the longest line.
    let mut line = zeros::<60064>();
    match printing::plate(input, &mut buffers) {
        Err(e) => {
            let n = refusal_line(e, &mut line);
            out.write_all(first(&line, n))
        }
        Ok((b, k)) => {
            let tables = buffers.tables(base::part(input, b));
            print_layers(out, &tables, &buffers.maps, k, &mut line)
        }
    }
}

fn print_layers<W: Write>(
    out: &mut W,
    tables: &Tables,
    maps: &[u32],
    k: usize,
    line: &mut [u8],
) -> io::Result<()> {
    for i in 0..k {
        let n = layer_line(tables, maps, i, line);
        out.write_all(first(line, n))?;
        print_properties(out, tables, maps, i, line)?;
    }
    Ok(())
}

fn print_properties<W: Write>(
    out: &mut W,
    tables: &Tables,
    maps: &[u32],
    i: usize,
    line: &mut [u8],
) -> io::Result<()> {
    let count = property_count(maps, i) as usize;
    for j in 0..count {
        let n = property_line(tables, maps, i, j, line);
        out.write_all(first(line, n))?;
    }
    Ok(())
}

// The first n bytes.
fn first(line: &[u8], n: usize) -> &[u8] {
    base::part(line, Range { from: 0, to: n })
}
