// Ranges one after another, as an interval of the journal has them.
ghost use Rattle.std.specs.Prelude.{◌≡◌, length};
ghost use Rattle.laws.specs.Choice.{ask, unless};
ghost use Rattle.laws.specs.Fold.{sum};
ghost use Rattle.laws.specs.Splice.{splice};
ghost use Rattle.laws.specs.Cut.{flat, lengths};
ghost use Rattle.range.specs.Form.{all_entries, all_parse};
ghost use Rattle.unpacker.specs.Unpack.{ask_unpack};

use unpacker::{scan, unpack};

// How many entries all ranges have, and how many bytes these have together.
#[unsafe(no_mangle)]
pub extern "C" fn wokujani_scan(s: &[u8], found: &mut u64, size: &mut u64) -> u8
    ensures value { result ≡ ask 7 (all_parse s.now) }
    ensures found_after { found.new ≡ unless (ask 7 (all_parse s.now)) found.old (length (all_entries s.now)) }
    ensures size_after { size.new ≡ unless (ask 7 (all_parse s.now)) size.old (sum (lengths (all_entries s.now))) }
{
    match scan(s) {
        Ok(total) => {
            *found = total.entries;
            *size = total.bytes;
            0
        },
        Err(no) => no.number(),
    }
}

// The same, and the entries into replay memory: bodies back to back to the front of `bytes`, lengths in order to the front of `lens`.
#[unsafe(no_mangle)]
pub extern "C" fn wokujani_unpack(
    s: &[u8],
    bytes: &mut [u8],
    lens: &mut [u16],
    found: &mut u64,
    size: &mut u64,
) -> u8
    ensures value { result ≡ ask_unpack s.now bytes.old lens.old }
    ensures bytes_after { bytes.new ≡ unless (ask_unpack s.now bytes.old lens.old) bytes.old (splice bytes.old 0 (flat (all_entries s.now))) }
    ensures lens_after { lens.new ≡ unless (ask_unpack s.now bytes.old lens.old) lens.old (splice lens.old 0 (lengths (all_entries s.now))) }
    ensures found_after { found.new ≡ unless (ask_unpack s.now bytes.old lens.old) found.old (length (all_entries s.now)) }
    ensures size_after { size.new ≡ unless (ask_unpack s.now bytes.old lens.old) size.old (sum (lengths (all_entries s.now))) }
{
    match unpack(s, bytes, lens) {
        Ok(total) => {
            *found = total.entries;
            *size = total.bytes;
            0
        },
        Err(no) => no.number(),
    }
}
