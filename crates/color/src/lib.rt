// Colours, and the ten that have a name.
#![tactic(auto)]

ghost use Rattle.std.specs.Prelude.{◌≡◌, map};
ghost use Rattle.color.specs.Named.{color_named, first_named, row};

use base::same_bytes;

#[derive(Clone, Copy, PartialEq)]
pub struct Color {
    pub r: u8,
    pub g: u8,
    pub b: u8,
}

// The names, each with its red, green and blue.
const NAMED: [(&[u8], u8, u8, u8); 10] = [
    (b"white", 255, 255, 255),
    (b"black", 0, 0, 0),
    (b"blue", 0, 0, 255),
    (b"brown", 165, 42, 42),
    (b"green", 0, 255, 0),
    (b"grey", 128, 128, 128),
    (b"pink", 255, 192, 203),
    (b"purple", 128, 0, 128),
    (b"red", 255, 0, 0),
    (b"salmon", 250, 128, 114),
];

// The colour of a name. proofs/Names.antt restates the promise over the table of names.
pub fn from_color_name(name: &[u8]) -> Option<Color>
    ensures { result ≡ color_named name.now }
{
    first_named(&NAMED, name)
}

// The colour of the first entry with a name.
fn first_named(named: &[(&[u8], u8, u8, u8)], name: &[u8]) -> Option<Color>
    ensures { result ≡ first_named (map row named.entry.now) name.now }
{
    let (_, r, g, b) = *named.iter().find(|n| same_bytes(name, n.0))?;
    Some(Color { r, g, b })
}
