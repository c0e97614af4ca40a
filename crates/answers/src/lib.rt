// What each answer is in numbers.
#![tactic(auto)]

ghost use Rattle.std.specs.Prelude.{◌≡◌, ◌≤◌, length};
ghost use Rattle.answers.specs.Answers.{told_load, told_count, told_styles, styled_layers, told_color, told_canvas};

use answer_words::{Answer, counted, refused};
use base::refusal::Refusal;
use color::Color;
use parser::Counts;
use styles::{EntityStyles, StyledLayer};

#[tactic(auto, unfolding(crate::specs::Answers::told_load))]
pub fn told_load(loaded: Result<Counts, Refusal>) -> Answer<6>
    ensures { result ≡ told_load loaded }
{
    match loaded {
        Err(x) => {
            let [number, reason, text, line, character] = x.numbers();
            Answer {
                kind: number,
                words: [number, reason, text, line, character, 0],
            }
        }
        Ok(n) => Answer {
            kind: 0,
            words: [
                n.rules as u64,
                n.selectors as u64,
                n.tests as u64,
                n.properties as u64,
                n.numbers as u64,
                n.colors as u64,
            ],
        },
    }
}

// What an answer that is a count tells: of maps the layers, of a list the entries.
#[tactic(auto, unfolding(crate::specs::Answers::told_count))]
pub fn told_count(q: Result<usize, Refusal>) -> Answer<5>
    ensures { result ≡ told_count q }
{
    match q {
        Err(x) => refused(x),
        Ok(n) => counted(n),
    }
}

// What an answer of styles tells: how many layers are styled.
#[tactic(auto, unfolding(crate::specs::Answers::told_styles))]
pub fn told_styles(q: &Result<EntityStyles, Refusal>) -> Answer<5>
    ensures { result ≡ told_styles q.now }
{
    match q {
        Err(x) => refused(*x),
        Ok(s) => counted(s.count),
    }
}

// The styled layers: none after a refusal.
#[tactic(auto, unfolding(crate::specs::Answers::styled_layers))]
pub fn styled_layers(q: &Result<EntityStyles, Refusal>) -> &[StyledLayer]
    ensures layers { result.now ≡ styled_layers q.now }
    ensures few { length result.now ≤ 32 }
{
    match q {
        Err(_) => &[],
        Ok(s) => s.styled(),
    }
}

#[tactic(auto, unfolding(crate::specs::Answers::told_canvas))]
pub fn told_canvas(q: Result<Option<Color>, Refusal>) -> Answer<5>
    ensures { result ≡ told_canvas q }
{
    match q {
        Err(e) => refused(e),
        Ok(c) => told_color(c),
    }
}

#[tactic(auto, unfolding(crate::specs::Answers::told_color))]
fn told_color(q: Option<Color>) -> Answer<5>
    ensures { result ≡ told_color q }
{
    match q {
        None => counted(0),
        Some(c) => Answer {
            kind: 0,
            words: [1, u64::from(c.r), u64::from(c.g), u64::from(c.b), 0],
        },
    }
}
