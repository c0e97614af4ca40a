// What stands before a token: blanks and comments.
ghost use Rattle.std.specs.Prelude.{◌≡◌};
ghost use Rattle.cursor.specs.Blank.{next_significant_char, try_skip_comment, skip_line_comment, skip_block_comment};

use crate::{Cursor, Significant};
use space::is_white_space;

// The next character that is no blank and in no comment. Its error is the end, where a comment is still open.
pub fn next_significant_char(s: &[u8], c: Cursor) -> Result<Significant, Cursor>
    ensures { result ≡ next_significant_char s.now c }
{
    let mut d = c;
    loop {
        d = match d.next_char(s) {
            Err(e) => return Ok(Significant::Ended(e)),
            Ok((k, e)) if is_white_space(k) => e,
            Ok((47, e)) => match try_skip_comment(s, e)? {
                None => return Ok(Significant::Found(d.at, 47, e)),
                Some(f) => f,
            },
            Ok((k, e)) => return Ok(Significant::Found(d.at, k, e)),
        };
    }
}

// The place behind the comment whose first slash was read, if it is one. Its error is the end, where the comment is still open.
#[tactic(auto, unfolding(crate::specs::Blank::try_skip_comment, base::specs::Option::on_result, base::specs::Choice::pick))]
pub fn try_skip_comment(s: &[u8], c: Cursor) -> Result<Option<Cursor>, Cursor>
    ensures { result ≡ try_skip_comment s.now c }
{
    match c.next_char(s) {
        Ok((47, d)) => Ok(Some(skip_line_comment(s, d))),
        Ok((42, d)) => Ok(Some(skip_block_comment(s, d)?)),
        _ => Ok(None),
    }
}

// Behind the newline that ends the comment; a comment may run into the end, which adds a character.
pub fn skip_line_comment(s: &[u8], c: Cursor) -> Cursor
    ensures { result ≡ skip_line_comment s.now c }
{
    let mut d = c;
    loop {
        match d.next_char(s) {
            Ok((10, e)) | Err(e) => return e,
            Ok((_, e)) => d = e,
        }
    }
}

// Behind the star and slash that end the comment, or the end, where it is still open.
pub fn skip_block_comment(s: &[u8], c: Cursor) -> Result<Cursor, Cursor>
    ensures { result ≡ skip_block_comment s.now c }
{
    let mut d = c;
    loop {
        let (k, e) = d.next_char(s)?;
        if k == 42
            && let Ok((47, f)) = e.next_char(s)
        {
            return Ok(f);
        }
        d = e;
    }
}
