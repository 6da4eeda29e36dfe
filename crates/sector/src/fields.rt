// A sector of any contents: how it is written, and what is asked of it, whatever the number of its fields.
ghost use Rattle.std.specs.Prelude.{◌≡◌, length};
ghost use Rattle.refusal.specs.Refusal.{asked};
ghost use Rattle.laws.specs.Choice.{and_then, ask};
ghost use Rattle.sector.specs.Fields.{Fields};
ghost use Rattle.sector.specs.Sector.{sector_size, sector_of, ask_fields, numbers_in};

use super::check::check_number;
use super::{BODIES_START, BODY_SIZE, SECTOR_SIZE};
use numbers::{number_at, put_number, put_numbers, read_numbers};
use refusal::Refusal;
use runs::{fill, write, zeros};

// Numbers and their check number as a sector, run by run: the contents, zeros, the bodies, zeros.
pub(crate) fn put_fields(contents: &[u8], numbers: &[u64], sector: &mut [u8])
    requires { Fields contents.now (length numbers.now) × (length sector.old ≡ sector_size) }
    ensures { sector.new ≡ sector_of numbers.now }
{
    let check = check_number(numbers);
    let head = contents.len();
    let last = BODIES_START + numbers.len() * BODY_SIZE;
    let end = last + BODY_SIZE;
    write(contents, sector, 0);
    fill(0, BODIES_START - head, sector, head);
    put_numbers(numbers, sector, BODIES_START);
    put_number(check, BODY_SIZE, sector, last);
    fill(0, SECTOR_SIZE - end, sector, end);
}

// The first question that was answered no: are the contents these, is every byte zero that should be, is the check number right?
fn first_no(contents: bool, blank: bool, checked: bool) -> Result<(), Refusal>
    ensures { result ≡ asked (and_then (ask 10 contents) (and_then (ask 11 blank) (ask 12 checked))) }
{
    if !contents {
        return Err(Refusal::Contents);
    }
    if !blank {
        return Err(Refusal::Padding);
    }
    if checked {
        return Ok(());
    }
    Err(Refusal::CheckNumber)
}

// The questions of 4,096 bytes, and their numbers, which are read behind the look for zeros, where the compiler joins their bytes.
pub(crate) fn ask_fields(contents: &[u8], numbers: &mut [u64], sector: &[u8]) -> Result<(), Refusal>
    requires { Fields contents.now (length numbers.old) × (length sector.now ≡ sector_size) }
    ensures value { result ≡ asked (ask_fields (length numbers.old) sector.now) }
    ensures numbers_after { numbers.new ≡ numbers_in (length numbers.old) sector.now }
{
    let head = contents.len();
    let last = BODIES_START + numbers.len() * BODY_SIZE;
    let end = last + BODY_SIZE;
    let same = contents == &sector[0..head];
    let gap = zeros(&sector[head..BODIES_START]);
    let rest = zeros(&sector[end..SECTOR_SIZE]);
    read_numbers(sector, BODIES_START, numbers);
    let found = number_at(sector, last, BODY_SIZE);
    let check = check_number(numbers);
    first_no(same, gap & rest, found == check)
}
