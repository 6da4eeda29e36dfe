// Words of a line.
ghost use Rattle.std.specs.Prelude.{◌≡◌, true, false, length, MatchOption};
ghost use Rattle.words.specs.Line.{lies, bytes_of, says, word_at, is_none};

use super::Word;
use super::place::{word_end, word_start};

impl Word {
    // A word of no bytes, as behind the last word of a line.
    pub fn none(self) -> bool
        ensures { result ≡ is_none self }
    {
        self.to <= self.from
    }

    // Its bytes, where it lies in the line.
    pub(crate) fn bytes(self, line: &[u8]) -> Option<&[u8]>
        ensures { MatchOption result (lies self (length line.now) ≡ false) (λ b. (lies self (length line.now) ≡ true) × (b.now ≡ bytes_of line.now self)) }
    {
        line.get(self.from..self.to)
    }
}

// The word that begins at a place or after it; one of no bytes at the line's end where there is none.
pub fn next_word(line: &[u8], at: usize) -> Word
    ensures { result ≡ word_at line.now at }
{
    let from = word_start(line, at);
    let to = word_end(line, from);
    Word { from, to }
}

// Is the word this one?
pub fn is(line: &[u8], w: Word, word: &[u8]) -> bool
    ensures { result ≡ says line.now w word.now }
{
    match w.bytes(line) {
        Some(bytes) => bytes == word,
        None => false,
    }
}
