// Decodes every scalar value from its encoding. It prints how many there are, and how many are found again.
#![tactic(auto)]

use std::io;
use stdio::line;
use utf8::Char;

fn main(rt: HostRuntime) -> io::Result<()> {
    let t = scan();
    let mut out = rt.stdout();
    line(&mut out, b"scalar values", t.values)?;
    line(&mut out, b"found again", t.found)
}

#[derive(Clone, Copy)]
struct Tally {
    values: u64,
    found: u64,
}

fn scan() -> Tally {
    let mut values: u64 = 0;
    let mut found: u64 = 0;
    for k in 0..2000000 {
        values += u64::from(scalar::is_scalar(k));
        found += u64::from(is_found(k));
    }
    Tally { values, found }
}

// Whether a number has an encoding that gives the number, with the encoding's width.
fn is_found(k: u32) -> bool {
    scalar::encode(k).is_some_and(|e| utf8::char_at(&e.bytes, 0) == Char::Code(k, e.width))
}
