// Positions on the journal's ring, of any number of blocks.
ghost use Rattle.std.specs.Prelude.{◌≡◌, ◌<◌, eqb};
ghost use Rattle.layout.specs.Journal.{journal_pos_add};

use layout::Geometry;

// The position `span` blocks after `start`, going round.
pub(crate) fn pos_add(g: Geometry, start: u64, span: u64) -> u64
    requires { start < g.blocks }
    ensures { result ≡ journal_pos_add g start span }
{
    let room = g.blocks - start;
    if room <= span {
        return span - room;
    }
    start + span
}

// Is `place` that position? Exact for a start outside the ring too.
pub(crate) fn is_pos_add(g: Geometry, start: u64, span: u64, place: u64) -> bool
    ensures { result ≡ eqb place (journal_pos_add g start span) }
{
    if start < g.blocks {
        let p = pos_add(g, start, span);
        return place == p;
    }
    let past = start - g.blocks;
    if place < past {
        return false;
    }
    place - past == span
}
