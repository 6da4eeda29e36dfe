// The slots, and journal writes in flight: do they overlap neither each other nor the interval of the selected superblock?
ghost use Rattle.std.specs.Prelude.{◌≡◌};
ghost use Rattle.laws.specs.Fold.{every};
ghost use Rattle.joined.specs.Apart.{slot_wf, slots_wf, apart_from, apart, writes_apart, rows_clear, writes_clear};

use interval::JournalInterval;
use layout::Geometry;
use requests::Slots;
use superblock::{Superblock, select_superblock};
use tables::IntervalTable;

const SIZE: usize = 16;

// Does a slot hold a well-formed superblock?
fn slot_wf(g: Geometry, slot: Option<Superblock>) -> bool
    ensures { result ≡ slot_wf g slot }
{
    match slot {
        Some(s) => s.well_formed(g),
        None => false,
    }
}

pub(crate) fn slots_wf(g: Geometry, slots: Slots) -> bool
    ensures { result ≡ slots_wf g slots }
{
    slot_wf(g, slots.first) & slot_wf(g, slots.second)
}

// Does the interval overlap none of the rows?
fn apart_from(v: JournalInterval, rows: &[JournalInterval]) -> bool
    ensures { result ≡ every (apart_from v) rows.now }
{
    rows.iter().all(|w| !v.meets(*w))
}

// Does no row overlap another?
fn rows_apart(rows: &[JournalInterval]) -> bool
    ensures { result ≡ apart rows.now }
{
    for (i, &v) in rows.iter().enumerate() {
        if !apart_from(v, &rows[i + 1..]) {
            return false;
        }
    }
    true
}

// The same of the rows in use.
pub(crate) fn writes_apart(table: IntervalTable) -> bool
    ensures { result ≡ writes_apart table }
{
    let n = table.count.min(SIZE);
    rows_apart(&table.intervals[..n])
}

// Does no row in use overlap the interval, going round?
fn rows_clear(g: Geometry, v: JournalInterval, table: IntervalTable) -> bool
    ensures { result ≡ rows_clear g v table }
{
    let n = table.count.min(SIZE);
    table.intervals[..n].iter().all(|w| !w.overlaps(v, g))
}

// The same of the selected superblock's interval. Where a slot holds nothing, none is selected.
pub(crate) fn writes_clear(g: Geometry, slots: Slots, table: IntervalTable) -> bool
    ensures { result ≡ writes_clear g slots table }
{
    let Some(s1) = slots.first else {
        return false;
    };
    let Some(s2) = slots.second else {
        return false;
    };
    let s = select_superblock(s1, s2);
    let v = JournalInterval {
        start: s.journalStart,
        len: s.journalLen,
    };
    rows_clear(g, v, table)
}
