// Blocks of the journal's ring as locations: of a straight range, of the front and the back of a circular one; positions on the ring.
ghost use Rattle.std.specs.Prelude.{◌≡◌, ◌+◌, ◌≤◌, leb};
ghost use Rattle.laws.specs.Choice.{also};
ghost use Rattle.refusal.specs.Refusal.{ok_unless, asked};
ghost use Rattle.laws.specs.Optional.{optional};
ghost use Rattle.layout.specs.Geometry.{ValidGeometry};
ghost use Rattle.layout.specs.Laws.{Circular};
ghost use Rattle.layout.specs.Journal.{ask_range, ask_circular, ask_journal_location, journal_range_location, loc_contained_in_circular_journal_range, loc_disjoint_from_circular_journal_range, journal_pos_add, journal_front_location, journal_back_location, journal_block_idx};

use super::{Geometry, Location};
use refusal::Refusal;

// Questions 1 and 4, of a straight range: start + len at most N.
fn ask_range(g: Geometry, start: u64, len: u64) -> Result<(), Refusal>
    ensures { result ≡ asked (ask_range g start len) }
{
    g.ask()?;
    if g.blocks <= start {
        return Err(Refusal::Argument);
    }
    if g.blocks - start < len {
        return Err(Refusal::Argument);
    }
    Ok(())
}

// Questions 1 and 4, of a circular range: start below N, len at most N.
pub fn ask_circular(g: Geometry, start: u64, len: u64) -> Result<(), Refusal>
    ensures { result ≡ asked (ask_circular g start len) }
{
    g.ask()?;
    if g.blocks <= start {
        return Err(Refusal::Argument);
    }
    if g.blocks < len {
        return Err(Refusal::Argument);
    }
    Ok(())
}

// Questions 1 and 4, of a journal location.
pub fn ask_journal_location(g: Geometry, loc: Location) -> Result<(), Refusal>
    ensures { result ≡ asked (ask_journal_location g loc) }
{
    g.ask()?;
    let b = loc.in_journal(g);
    if b {
        return Ok(());
    }
    Err(Refusal::Argument)
}

// The location of a straight range, in a valid geometry.
fn range(g: Geometry, start: u64, len: u64) -> Location
    requires { ValidGeometry g × (start ≤ g.blocks) × (len ≤ g.blocks) }
    ensures { result ≡ journal_range_location g start len }
{
    let addr = g.point(start);
    Location {
        addr,
        len: len * Geometry::BLOCK_SIZE,
    }
}

// Does the location lie between two addresses?
fn between(loc: Location, from: u64, to: u64) -> bool
    ensures { result ≡ also (leb from loc.addr) (leb (loc.addr + loc.len) to) }
{
    let a = from <= loc.addr;
    let b = loc.ends_by(to);
    a & b
}

// The location of the blocks from start on; start + len is at most N.
pub fn journal_range_location(g: Geometry, start: u64, len: u64) -> Result<Location, Refusal>
    ensures { result ≡ ok_unless (ask_range g start len) (journal_range_location g start len) }
{
    ask_range(g, start, len)?;
    let loc = range(g, start, len);
    Ok(loc)
}

// Does the location lie within the circular range?
pub fn loc_contained_in_circular_journal_range(
    g: Geometry,
    loc: Location,
    start: u64,
    len: u64,
) -> Result<bool, Refusal>
    ensures { result ≡ ok_unless (ask_circular g start len) (loc_contained_in_circular_journal_range g loc start len) }
{
    ask_circular(g, start, len)?;
    let from = g.point(start);
    if start + len <= g.blocks {
        let to = g.point(start + len);
        let b = between(loc, from, to);
        return Ok(b);
    }
    let end = g.point(g.blocks);
    let zero = Geometry::JOURNAL_START_ADDR;
    let to = g.point(start + len - g.blocks);
    let a = between(loc, from, end);
    let b = between(loc, zero, to);
    Ok(a | b)
}

// Does the location lie apart from the circular range?
pub fn loc_disjoint_from_circular_journal_range(
    g: Geometry,
    loc: Location,
    start: u64,
    len: u64,
) -> Result<bool, Refusal>
    ensures { result ≡ ok_unless (ask_circular g start len) (loc_disjoint_from_circular_journal_range g loc start len) }
{
    ask_circular(g, start, len)?;
    let from = g.point(start);
    if start + len <= g.blocks {
        let to = g.point(start + len);
        let a = loc.ends_by(from);
        let b = to <= loc.addr;
        return Ok(a | b);
    }
    let zero = Geometry::JOURNAL_START_ADDR;
    let end = g.point(g.blocks);
    let to = g.point(start + len - g.blocks);
    let a = loc.ends_by(zero);
    let b = end <= loc.addr;
    let d = between(loc, to, from);
    Ok(a | (b | d))
}

// The position `span` blocks after `start`, going round.
pub fn journal_pos_add(g: Geometry, start: u64, span: u64) -> Result<u64, Refusal>
    ensures { result ≡ ok_unless (ask_circular g start span) (journal_pos_add g start span) }
{
    ask_circular(g, start, span)?;
    if g.blocks <= start + span {
        return Ok(start + span - g.blocks);
    }
    Ok(start + span)
}

// The part of a circular range up to the ring's end.
pub fn journal_front_location(
    g: Geometry,
    start: u64,
    len: u64,
) -> Result<Option<Location>, Refusal>
    ensures { result ≡ ok_unless (ask_circular g start len) (optional (journal_front_location g start len)) }
{
    ask_circular(g, start, len)?;
    if len == 0 {
        return Ok(None);
    }
    if len <= g.blocks - start {
        let loc = range(g, start, len);
        return Ok(Some(loc));
    }
    let loc = range(g, start, g.blocks - start);
    Ok(Some(loc))
}

// The part of a circular range from the ring's first block on, where the range passes the end.
pub fn journal_back_location(g: Geometry, start: u64, len: u64) -> Result<Option<Location>, Refusal>
    ensures { result ≡ ok_unless (ask_circular g start len) (optional (journal_back_location g start len)) }
{
    ask_circular(g, start, len)?;
    if len == 0 {
        return Ok(None);
    }
    if len <= g.blocks - start {
        return Ok(None);
    }
    let loc = range(g, 0, len - (g.blocks - start));
    Ok(Some(loc))
}

// The block where a journal location begins.
pub fn journal_block_idx(g: Geometry, loc: Location) -> Result<u64, Refusal>
    ensures { result ≡ ok_unless (ask_journal_location g loc) (journal_block_idx loc) }
{
    ask_journal_location(g, loc)?;
    Ok((loc.addr - Geometry::JOURNAL_START_ADDR) / Geometry::BLOCK_SIZE)
}
