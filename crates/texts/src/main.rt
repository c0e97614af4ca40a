// An example: reads a bundle and prints each text's name and length, or `refused` with the five numbers.
#![tactic(auto)]

ghost use Rattle.std.specs.Prelude.{OnOk, ◌∷◌, decimal};
ghost use Rattle.std.specs.Io.KnownBytes.{Appends};

use base::refusal::Refusal;
use std::io;
use std::io::Write;

fn main(rt: HostRuntime) -> io::Result<()> {
    let mut input = stdio::zeros::<65536>();
    let n = stdio::read_full(&mut rt.stdin(), &mut input)?;
    print_texts(&mut rt.stdout(), &input[..n])
}

fn print_texts<W: Write>(out: &mut W, s: &[u8]) -> io::Result<()> {
    match bundle::check_bundle(s) {
        Err(r) => print_refusal(out, r),
        Ok(count) => print_all(out, s, count),
    }
}

fn print_all<W: Write>(out: &mut W, s: &[u8], count: usize) -> io::Result<()> {
    for k in 0..count {
        print_text(out, s, k)?;
    }
    Ok(())
}

fn print_text<W: Write>(out: &mut W, s: &[u8], k: usize) -> io::Result<()> {
    match bundle::text_at(s, k) {
        None => Ok(()),
        Some((name, text)) => {
            let bytes = base::part(s, text);
            out.write_all(base::part(s, name))?;
            print_number(out, bytes.len() as u64)?;
            out.write_all(b"\n")
        }
    }
}

fn print_refusal<W: Write>(out: &mut W, r: Refusal) -> io::Result<()> {
    out.write_all(b"refused")?;
    for n in r.numbers() {
        print_number(out, n)?;
    }
    out.write_all(b"\n")
}

fn print_number<W: Write>(out: &mut W, n: u64) -> io::Result<()>
    ensures { OnOk result (Appends (W.contents out.old) (W.contents out.new) (32 ∷ decimal n)) }
{
    write!(out, " {n}")
}
