// UTF-8: the character at a place, and the test of a whole slice.
#![tactic(auto)]

ghost use Rattle.std.specs.Prelude.{◌≡◌, ◌+◌, ◌*◌, ◌%◌};
ghost use Rattle.utf8.specs.Utf8.{decode_of, char_at, is_utf8};

use base::byte_at;

// What stands at a place: no character, the end, or a character with its width in bytes.
#[derive(Clone, Copy, PartialEq)]
pub enum Char {
    Bad,
    End,
    Code(u32, usize),
}

// The character at a place of a slice.
#[tactic(auto, unfolding(crate::specs::Utf8::char_at, crate::specs::Utf8::char_of))]
pub fn char_at(s: &[u8], at: usize) -> Char
    ensures { result ≡ char_at s.now at }
{
    if at < s.len() {
        return decode(
            s[at],
            byte_at(s, at + 1),
            byte_at(s, at + 2),
            byte_at(s, at + 3),
        );
    }
    Char::End
}

// Whether a slice is UTF-8.
pub fn is_utf8(s: &[u8]) -> bool
    ensures { result ≡ is_utf8 s.now }
{
    let mut at = 0;
    loop {
        match char_at(s, at) {
            Char::Bad => return false,
            Char::End => return true,
            Char::Code(_, w) => at += w,
        }
    }
}

// The rows of the table of well-formed sequences, in their order.
#[tactic(auto, using(crate::proofs::Bytes::rows))]
fn decode(a: u8, b: u8, c: u8, d: u8) -> Char
    ensures { result ≡ decode_of a b c d }
{
    match (a, b, c, d) {
        (0..=0x7F, _, _, _) => Char::Code(u32::from(a), 1),
        (0xC2..=0xDF, 0x80..=0xBF, _, _) => Char::Code(of_two(a, b), 2),
        (0xE0, 0xA0..=0xBF, 0x80..=0xBF, _) => Char::Code(of_three(a, b, c), 3),
        (0xE1..=0xEC, 0x80..=0xBF, 0x80..=0xBF, _) => Char::Code(of_three(a, b, c), 3),
        (0xED, 0x80..=0x9F, 0x80..=0xBF, _) => Char::Code(of_three(a, b, c), 3),
        (0xEE..=0xEF, 0x80..=0xBF, 0x80..=0xBF, _) => Char::Code(of_three(a, b, c), 3),
        (0xF0, 0x90..=0xBF, 0x80..=0xBF, 0x80..=0xBF) => Char::Code(of_four(a, b, c, d), 4),
        (0xF1..=0xF3, 0x80..=0xBF, 0x80..=0xBF, 0x80..=0xBF) => {
            Char::Code(of_four(a, b, c, d), 4)
        }
        (0xF4, 0x80..=0x8F, 0x80..=0xBF, 0x80..=0xBF) => Char::Code(of_four(a, b, c, d), 4),
        _ => Char::Bad,
    }
}

fn of_two(a: u8, b: u8) -> u32
    ensures { result ≡ a % 32 * 64 + b % 64 }
{
    u32::from(a % 32) * 64 + u32::from(b % 64)
}

fn of_three(a: u8, b: u8, c: u8) -> u32
    ensures { result ≡ a % 16 * 4096 + b % 64 * 64 + c % 64 }
{
    u32::from(a % 16) * 4096 + u32::from(b % 64) * 64 + u32::from(c % 64)
}

fn of_four(a: u8, b: u8, c: u8, d: u8) -> u32
    ensures { result ≡ a % 8 * 262144 + b % 64 * 4096 + c % 64 * 64 + d % 64 }
{
    u32::from(a % 8) * 262144
        + u32::from(b % 64) * 4096
        + u32::from(c % 64) * 64
        + u32::from(d % 64)
}
