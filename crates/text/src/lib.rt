// Text made piece by piece in lent bytes, cut where they end. The public face:
//   put           a piece as it is
//   put_decimal   a number in decimal digits
//   put_hex       bytes, each as two small hexadecimal digits
// Every function is total, and answers the place after what it wrote: the text's end where it was cut.
#![tactic(auto)]

mod digits;
mod pieces;

pub use digits::{put_decimal, put_hex};
pub use pieces::put;
