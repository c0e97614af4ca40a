// Unicode scalar values, and their encoding in UTF-8.
#![tactic(auto)]

ghost use Rattle.std.specs.Prelude.{◌≡◌, ◌<◌};
ghost use Rattle.scalar.specs.Scalar.{is_scalar, scalar_encoding, encoding_of};

// The bytes of a character, then zeros, and how many they are.
#[derive(Clone, Copy)]
pub struct Encoding {
    pub bytes: [u8; 4],
    pub width: usize,
}

// The encoding of a scalar value; no other number has one.
#[tactic(auto, unfolding(base::specs::Choice::pick, crate::specs::Scalar::encoding_of), using(crate::proofs::Scalars::scalar_below))]
pub fn encode(k: u32) -> Option<Encoding>
    ensures { result ≡ encoding_of k }
{
    if is_scalar(k) {
        return Some(encode_scalar(k));
    }
    None
}

// Whether a number is a character: no surrogate, and nothing over U+10FFFF.
#[tactic(auto, unfolding(crate::specs::Scalar::is_scalar))]
pub fn is_scalar(k: u32) -> bool
    ensures { result ≡ is_scalar k }
{
    matches!(k, 0..=0xD7FF | 0xE000..=0x10FFFF)
}

#[tactic(auto, unfolding(base::specs::Choice::pick, crate::specs::Scalar::encode_of, crate::specs::Scalar::scalar_encoding))]
fn encode_scalar(k: u32) -> Encoding
    requires { k < 0x110000 }
    ensures { result ≡ scalar_encoding k }
{
    let x = (k % 64) as u8;
    if k < 0x80 {
        return Encoding {
            bytes: [(k % 128) as u8, 0, 0, 0],
            width: 1,
        };
    }
    if k < 0x800 {
        return Encoding {
            bytes: [0xC0 + (k / 64) as u8, 0x80 + x, 0, 0],
            width: 2,
        };
    }
    let y = (k / 64 % 64) as u8;
    if k < 0x10000 {
        return Encoding {
            bytes: [0xE0 + (k / 4096) as u8, 0x80 + y, 0x80 + x, 0],
            width: 3,
        };
    }
    let z = (k / 4096 % 64) as u8;
    Encoding {
        bytes: [0xF0 + (k / 262144) as u8, 0x80 + z, 0x80 + y, 0x80 + x],
        width: 4,
    }
}
