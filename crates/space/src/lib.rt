// The characters of White_Space.
#![tactic(auto)]

ghost use Rattle.std.specs.Prelude.{◌≡◌};
ghost use Rattle.space.specs.Space.{is_white_space};

// Whether a character has Unicode's property White_Space.
pub fn is_white_space(k: u32) -> bool
    ensures { result ≡ is_white_space k }
{
    matches!(
        k,
        0x20
            | 0x9..=0xD
            | 0x85
            | 0xA0
            | 0x1680
            | 0x2000..=0x200A
            | 0x2028..=0x2029
            | 0x202F
            | 0x205F
            | 0x3000
    )
}
