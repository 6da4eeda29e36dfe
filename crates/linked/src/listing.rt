// One range over lent bytes, and its entries.
ghost use Rattle.std.specs.Prelude.{◌≡◌, [], length, get_or};
ghost use Rattle.laws.specs.Choice.{ask, unless};
ghost use Rattle.laws.specs.Splice.{splice, clipped};
ghost use Rattle.range.specs.Form.{length_width, entries, parses};
ghost use Rattle.reader.specs.Entry.{ask_entry};
ghost use Rattle.reader.specs.Listing.{body_starts, ask_list};

use reader::{count, entry, entry_refusal, list};
use refusal::number_of;
use runs::write;

// How many entries the range has.
#[unsafe(no_mangle)]
pub extern "C" fn wokujani_count_entries(s: &[u8], found: &mut u64) -> u8
    ensures value { result ≡ ask 7 (parses s.now) }
    ensures found_after { found.new ≡ unless (ask 7 (parses s.now)) found.old (length (entries s.now)) }
{
    match count(s) {
        Ok(n) => {
            *found = n;
            0
        },
        Err(no) => no.number(),
    }
}

// Where each body begins, to the front of `starts`, which has 1,024 places; and how many there are. Entry i is as long as byte 4 + i says.
#[unsafe(no_mangle)]
pub extern "C" fn wokujani_list_entries(s: &[u8], starts: &mut [u64], found: &mut u64) -> u8
    ensures value { result ≡ ask_list s.now starts.old }
    ensures starts_after { starts.new ≡ unless (ask_list s.now starts.old) starts.old (splice starts.old 0 (body_starts length_width s.now)) }
    ensures found_after { found.new ≡ unless (ask_list s.now starts.old) found.old (length (entries s.now)) }
{
    match list(s, starts) {
        Ok(n) => {
            *found = n;
            0
        },
        Err(no) => no.number(),
    }
}

// The body of entry i to the front of `out`, cut where `out` ends. Where it is refused there is no body, and nothing is written.
#[unsafe(no_mangle)]
pub extern "C" fn wokujani_copy_entry(s: &[u8], i: u64, out: &mut [u8]) -> u8
    ensures value { result ≡ ask_entry s.now i }
    ensures out_after { out.new ≡ clipped out.old 0 (unless (ask_entry s.now i) [] (get_or (entries s.now) i [])) }
{
    let body = entry(s, i);
    write(body, out, 0);
    number_of(&entry_refusal(s, i))
}
