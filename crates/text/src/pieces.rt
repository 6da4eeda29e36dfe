// A piece of text.
ghost use Rattle.std.specs.Prelude.{◌≡◌, length};
ghost use Rattle.laws.specs.Splice.{clipped};
ghost use Rattle.text.specs.Text.{after};

use runs::write;

pub fn put(piece: &[u8], text: &mut [u8], at: usize) -> usize
    ensures value { result ≡ after at (length piece.now) (length text.old) }
    ensures text_after { text.new ≡ clipped text.old at piece.now }
{
    write(piece, text, at);
    at.saturating_add(piece.len()).min(text.len())
}
