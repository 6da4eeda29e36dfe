// The writer.
ghost use Rattle.std.specs.Prelude.{◌≡◌};
ghost use Rattle.refusal.specs.Refusal.{asked};
ghost use Rattle.laws.specs.Choice.{unless};
ghost use Rattle.sector.specs.Sector.{ask_length, encode_superblock};

use super::fields::put_fields;
use super::{CONTENTS, SECTOR_SIZE};
use refusal::Refusal;
use superblock::Superblock;

pub fn write_sector(s: Superblock, sector: &mut [u8]) -> Result<(), Refusal>
    ensures value { result ≡ asked (ask_length sector.old) }
    ensures sector_after { sector.new ≡ unless (ask_length sector.old) sector.old (encode_superblock s) }
{
    if sector.len() != SECTOR_SIZE {
        return Err(Refusal::Contents);
    }
    let loc = s.indirectionTableLoc;
    let numbers = [s.counter, s.journalStart, s.journalLen, loc.addr, loc.len];
    put_fields(&CONTENTS, &numbers, sector);
    Ok(())
}
