// Colors blocks and names of object types: what is read with no table.
ghost use Rattle.std.specs.Prelude.{◌≡◌};
ghost use Rattle.base.specs.Bytes.{ascii, same, within};
ghost use Rattle.rules.specs.Kind.{object_kind, ColorsSkipped};

use base::refusal::Refusal;
use base::{Range, same_bytes};
use cursor::Cursor;
use input::Text;
use table::kind::ObjectKind;
use token_kind::Token;

pub fn object_type(bundle: &[u8], a: Range) -> Option<ObjectKind>
    ensures { result ≡ object_kind (within a bundle.now) }
{
    type_of(base::part(bundle, a))
}

#[tactic(auto, using(crate::proofs::TypeNames::types))]
fn type_of(name: &[u8]) -> Option<ObjectKind>
    ensures { result ≡ object_kind name.now }
{
    match name {
        b"*" => Some(ObjectKind::All),
        b"canvas" => Some(ObjectKind::Canvas),
        b"meta" => Some(ObjectKind::Meta),
        b"node" => Some(ObjectKind::Node),
        b"way" | b"line" => Some(ObjectKind::Way),
        b"area" => Some(ObjectKind::Area),
        _ => None,
    }
}

pub fn is_colors(bundle: &[u8], a: Range) -> bool
    ensures { result ≡ same (within a bundle.now) (ascii "colors") }
{
    same_bytes(base::part(bundle, a), b"colors")
}

// Past the closing brace of a colors block.
pub fn skip_colors(text: Text, c: Cursor) -> Result<Cursor, Refusal>
    ensures { ColorsSkipped text.entry.bundle.now text.entry.source c result }
{
    let mut at = c;
    loop {
        let (t, _, d) = text.read_mandatory_token(at)?;
        if t == Token::RightBrace {
            return Ok(d);
        }
        at = d;
    }
}
