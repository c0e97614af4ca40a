// What the programs read and print: an input into a buffer, and a line of a name and a number.
#![tactic(auto)]

ghost use Rattle.std.specs.Prelude.{◌≡◌, ◌<◌, ◌++◌, ◌∷◌, [], length, take, IfOk, OnOk, decimal};
ghost use Rattle.std.specs.Io.{ReadsAtMost};
ghost use Rattle.std.specs.Io.KnownBytes.{Appends, Consumes, IsAtEnd};

pub mod cases;

use std::io;
use std::io::{Read, Write};

// Room for an input or a line. In place, a check would count the zeros one by one.
pub fn zeros<const N: usize>() -> [u8; N]
    ensures { N ≡ length result }
{
    [0; N]
}

// Reads until the buffer is full or the input ends, and returns how many bytes it put at the start of the buffer.
pub fn read_full<R: Read>(from: &mut R, buf: &mut [u8]) -> io::Result<usize>
    ensures bound { ReadsAtMost result buf.new }
    ensures bytes { IfOk result (λ n. Consumes (R.remaining from.old) (R.remaining from.new) (take n buf.new)) }
    ensures end { IfOk result (λ n. n < length buf.new → IsAtEnd (R.remaining from.new)) }
{
    let mut done = 0;
    while done < buf.len() {
        let n = from.read(&mut buf[done..])?;
        if n == 0 {
            return Ok(done);
        }
        done += n;
    }
    Ok(done)
}

// Prints a name, a space, a number and the line's end.
pub fn line<W: Write>(out: &mut W, name: &[u8], n: u64) -> io::Result<()>
    ensures { OnOk result (Appends (W.contents out.old) (W.contents out.new) (name.now ++ (32 ∷ (decimal n ++ (10 ∷ []))))) }
{
    out.write_all(name)?;
    writeln!(out, " {n}")
}

#[cfg(test)]
mod tests {
    use super::{line, read_full};
    use std::test::Fail;

    // An input shorter than the buffer, and one that is longer.
    #[test]
    fn reads(rt: HostRuntime) -> Result<(), Fail> {
        let mut room = [9u8; 4];
        let mut short = b"ab".as_slice();
        assert_eq!(rt; read_full(&mut short, &mut room)?, 2);
        assert_eq!(rt; room.as_slice(), [97, 98, 9, 9].as_slice());
        let mut long = b"vwxyz".as_slice();
        assert_eq!(rt; read_full(&mut long, &mut room)?, 4);
        assert_eq!(rt; room.as_slice(), b"vwxy".as_slice());
        assert_eq!(rt; long, b"z".as_slice());
        Ok(())
    }

    #[test]
    fn prints(rt: HostRuntime) -> Result<(), Fail> {
        let mut out = Vec::new(rt.alloc());
        line(&mut out, b"cases", 0)?;
        line(&mut out, b"", 18446744073709551615)?;
        assert_eq!(rt;
            out.as_slice(),
            b"cases 0\n 18446744073709551615\n".as_slice()
        );
        Ok(())
    }
}
