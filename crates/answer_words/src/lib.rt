// An export's answer: its number and its words, and words into a lent slice.
#![tactic(auto)]

ghost use Rattle.std.specs.Prelude.{◌≡◌};
ghost use Rattle.base.specs.Table.{stored};
ghost use Rattle.answer_words.specs.Words.{refused, counted};

use base::refusal::Refusal;

// 0 or the refusal's number, and the words that go with it: six of a load, else five.
#[derive(Clone, Copy)]
pub struct Answer<const N: usize> {
    pub kind: u64,
    pub words: [u64; N],
}

// A refusal's numbers.
#[tactic(auto, unfolding(crate::specs::Words::refused))]
pub fn refused(x: Refusal) -> Answer<5>
    ensures { result ≡ refused x }
{
    Answer {
        kind: x.number as u64,
        words: x.numbers(),
    }
}

pub fn counted(n: usize) -> Answer<5>
    ensures { result ≡ counted n }
{
    Answer {
        kind: 0,
        words: [n as u64, 0, 0, 0, 0],
    }
}

impl<const N: usize> Answer<N> {
    // Stores the words and answers the number.
    pub fn tell(self, out: &mut [u64]) -> u64
        ensures kind { result ≡ self.entry.kind }
        ensures stored_words { out.new ≡ stored out.old 0 self.entry.words }
    {
        store_words(out, &self.words);
        self.kind
    }
}

// Stores words at the front, as far as there is room. One by one, since a copy of the run would make the library for C call `memcpy`.
pub fn store_words(out: &mut [u64], words: &[u64])
    ensures { out.new ≡ stored out.old 0 words.now }
{
    for (i, &w) in words.iter().enumerate() {
        base::store(out, i, w);
    }
}
