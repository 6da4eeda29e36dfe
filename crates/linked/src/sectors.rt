// A superblock as a sector, by its five numbers: counter, journal start, journal length, table address, table length.
ghost use Rattle.std.specs.Prelude.{◌≡◌, [], ◌∷◌};
ghost use Rattle.laws.specs.Choice.{unless};
ghost use Rattle.sector.specs.Sector.{number_count, ask_length, numbers_in, sector_of};
ghost use Rattle.refusal.specs.Refusal.{asked};
ghost use Rattle.linked.specs.Sectors.{ask_numbers_in};

use layout::Location;
use numbers::read_numbers;
use refusal::{Refusal, number_of};
use sector::{BODIES_START, NUMBER_COUNT, ask_sector, write_sector};
use superblock::Superblock;

// The sector of the five numbers into `sector`, 4,096 bytes.
#[unsafe(no_mangle)]
pub extern "C" fn wokujani_write_sector(
    counter: u64,
    start: u64,
    len: u64,
    address: u64,
    length: u64,
    sector: &mut [u8],
) -> u8
    ensures value { result ≡ ask_length sector.old }
    ensures sector_after { sector.new ≡ unless (ask_length sector.old) sector.old (sector_of (counter ∷ start ∷ len ∷ address ∷ length ∷ [])) }
{
    let loc = Location {
        addr: address,
        len: length,
    };
    let s = Superblock {
        counter,
        journalStart: start,
        journalLen: len,
        indirectionTableLoc: loc,
    };
    number_of(&write_sector(s, sector))
}

// The sector's questions, and then question 1 of the numbers' length.
fn ask_numbers_in(sector: &[u8], numbers: &[u64]) -> Result<(), Refusal>
    ensures { result ≡ asked (ask_numbers_in sector.now numbers.now) }
{
    ask_sector(sector)?;
    if numbers.len() != NUMBER_COUNT {
        return Err(Refusal::Sizes);
    }
    Ok(())
}

// The five numbers of a sector into `numbers`, which has 5 places: the sector's questions come first, then the length of `numbers`.
#[unsafe(no_mangle)]
pub extern "C" fn wokujani_read_sector(sector: &[u8], numbers: &mut [u64]) -> u8
    ensures value { result ≡ ask_numbers_in sector.now numbers.old }
    ensures numbers_after { numbers.new ≡ unless (ask_numbers_in sector.now numbers.old) numbers.old (numbers_in number_count sector.now) }
{
    if let Err(no) = ask_numbers_in(sector, numbers) {
        return no.number();
    }
    read_numbers(sector, BODIES_START, numbers);
    0
}
