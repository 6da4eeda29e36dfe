// Words of a line of bytes, and what they say. The public face:
//   next                 the place of a byte, from a place on
//   Word, next_word      the next word of a line; blanks lie between words: spaces, tabs, form feeds, carriage returns
//   is                   is a word these bytes?
//   decimal              the number that a word says, of 64 bits
//   hex                  the bytes that a word says in pairs of hexadecimal digits, into lent memory
// Every function is total: a word that does not lie in its line is no word, says no number and no bytes.
#![tactic(auto, using(laws::specs::Choice::tests), unfolding(laws::specs::Choice::also, laws::specs::Choice::either, crate::specs::Place::is_blank, crate::specs::Line::is_none, crate::specs::Line::word_from, crate::specs::Line::word_at, crate::specs::Hex::between, crate::specs::Hex::nibble_of, crate::specs::Hex::count_of, crate::specs::Hex::written, crate::specs::Decimal::is_digit, crate::specs::Decimal::is_small, crate::specs::Decimal::one_more))]

mod bytes;
mod number;
mod place;
mod words;

pub use bytes::hex;
pub use number::decimal;
pub use place::next;
pub use words::{is, next_word};

// From one place up to another, of one line.
#[derive(Clone, Copy)]
pub struct Word {
    pub from: usize,
    pub to: usize,
}
