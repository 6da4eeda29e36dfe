// Overlap of intervals: plain, of two that do not pass the ring's end, and cyclic, of any two. An empty interval overlaps nothing; where neither is
// empty, the tests are the source's, named `source_..` here.
ghost use Rattle.std.specs.Prelude.{◌≡◌, ◌+◌, ltb};
ghost use Rattle.refusal.specs.Refusal.{ok_unless, asked};
ghost use Rattle.interval.specs.Interval.{ask_intervals, ask_contiguous};
ghost use Rattle.interval.specs.Overlap.{source_interval_overlap, source_overlap_parts, source_cyclic_interval_overlap, neither_empty, journal_interval_overlap, journal_cyclic_interval_overlap};

use super::JournalInterval;
use layout::Geometry;
use refusal::Refusal;

impl JournalInterval {
    // Questions 1 and 4, of two contiguous intervals.
    fn ask_contiguous(self, other: JournalInterval, g: Geometry) -> Result<(), Refusal>
        ensures { result ≡ asked (ask_contiguous g self other) }
    {
        g.ask()?;
        let a = self.contiguous(g);
        let b = other.contiguous(g);
        if a & b {
            return Ok(());
        }
        Err(Refusal::Argument)
    }

    // Does it end after block x, counted without going round? Told by a difference, so that no sum can wrap.
    fn ends_after(self, x: u64) -> bool
        ensures { result ≡ ltb x (self.start + self.len) }
    {
        if x < self.start {
            return true;
        }
        x - self.start < self.len
    }

    // Is neither empty?
    fn neither_empty(self, other: JournalInterval) -> bool
        ensures { result ≡ neither_empty self other }
    {
        let a = 0 < self.len;
        let b = 0 < other.len;
        a & b
    }

    // The source's plain test, counted without going round.
    fn source_meets(self, other: JournalInterval) -> bool
        ensures { result ≡ source_interval_overlap self other }
    {
        let a = self.ends_after(other.start);
        let b = other.ends_after(self.start);
        a & b
    }

    // The plain test.
    pub fn meets(self, other: JournalInterval) -> bool
        ensures { result ≡ journal_interval_overlap self other }
    {
        let full = self.neither_empty(other);
        let row = self.source_meets(other);
        full & row
    }

    // Does one of the two parts of an interval that passes the end meet a contiguous one?
    fn source_parts_meet(self, other: JournalInterval, g: Geometry) -> bool
        ensures { result ≡ source_overlap_parts g self other }
    {
        let left = self.to_end(g);
        let front = JournalInterval {
            start: self.start,
            len: left,
        };
        let rest = self.len.saturating_sub(left);
        let back = JournalInterval {
            start: 0,
            len: rest,
        };
        let a = front.source_meets(other);
        let b = back.source_meets(other);
        a | b
    }

    // The source's cyclic test.
    fn source_overlaps(self, other: JournalInterval, g: Geometry) -> bool
        ensures { result ≡ source_cyclic_interval_overlap g self other }
    {
        let a = self.ends_after(g.blocks);
        let b = other.ends_after(g.blocks);
        if a {
            if b {
                return true;
            }
            return self.source_parts_meet(other, g);
        }
        if b {
            return other.source_parts_meet(self, g);
        }
        self.source_meets(other)
    }

    // The cyclic test.
    pub fn overlaps(self, other: JournalInterval, g: Geometry) -> bool
        ensures { result ≡ journal_cyclic_interval_overlap g self other }
    {
        let full = self.neither_empty(other);
        let round = self.source_overlaps(other, g);
        full & round
    }

    // Do two contiguous intervals overlap?
    pub fn journal_interval_overlap(
        self,
        other: JournalInterval,
        g: Geometry,
    ) -> Result<bool, Refusal>
        ensures { result ≡ ok_unless (ask_contiguous g self other) (journal_interval_overlap self other) }
    {
        self.ask_contiguous(other, g)?;
        let b = self.meets(other);
        Ok(b)
    }

    // `overlaps`, after questions 1 and 4.
    pub fn journal_cyclic_interval_overlap(
        self,
        other: JournalInterval,
        g: Geometry,
    ) -> Result<bool, Refusal>
        ensures { result ≡ ok_unless (ask_intervals g self other) (journal_cyclic_interval_overlap g self other) }
    {
        self.ask_both(other, g)?;
        let b = self.overlaps(other, g);
        Ok(b)
    }
}
