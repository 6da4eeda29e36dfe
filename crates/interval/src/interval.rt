// Intervals of the journal's ring: which are valid, their parts, the point after one.
ghost use Rattle.std.specs.Prelude.{◌≡◌, ◌+◌, ◌-◌, ◌≤◌, leb, ltb};
ghost use Rattle.refusal.specs.Refusal.{ok_unless, asked};
ghost use Rattle.laws.specs.Choice.{also};
ghost use Rattle.laws.specs.Optional.{optional};
ghost use Rattle.layout.specs.Geometry.{ask_geometry, ValidGeometry};
ghost use Rattle.layout.specs.Journal.{ask_journal_location};
ghost use Rattle.interval.specs.Facts.{ValidJournalInterval};
ghost use Rattle.interval.specs.Interval.{valid_journal_interval, contiguous_journal_interval, in_cyclic_range, journal_front_interval, journal_back_interval, subinterval, next_start_point, concat_intervals, journal_interval_of_location, ask_interval, ask_intervals, ask_in_row, ask_block};

use super::JournalInterval;
use layout::{Geometry, Location};
use refusal::Refusal;

impl JournalInterval {
    // Questions 1 and 4, of one interval.
    pub fn ask(self, g: Geometry) -> Result<(), Refusal>
        ensures { result ≡ asked (ask_interval g self) }
    {
        g.ask()?;
        let b = self.valid(g);
        if b {
            return Ok(());
        }
        Err(Refusal::Argument)
    }

    // Questions 1 and 4, of two.
    pub fn ask_both(self, other: JournalInterval, g: Geometry) -> Result<(), Refusal>
        ensures { result ≡ asked (ask_intervals g self other) }
    {
        self.ask(g)?;
        let b = other.valid(g);
        if b {
            return Ok(());
        }
        Err(Refusal::Argument)
    }

    // A start below N and a len of at most N?
    pub fn valid(self, g: Geometry) -> bool
        ensures { result ≡ valid_journal_interval g self }
    {
        if self.start < g.blocks {
            return self.len <= g.blocks;
        }
        false
    }

    // Valid, and not past the ring's end? The len is compared with what is left to the end, so that no sum can wrap.
    pub fn contiguous(self, g: Geometry) -> bool
        ensures { result ≡ contiguous_journal_interval g self }
    {
        let b = self.valid(g);
        if b {
            return self.len <= g.blocks - self.start;
        }
        false
    }

    // `valid`, after question 1.
    pub fn valid_journal_interval(self, g: Geometry) -> Result<bool, Refusal>
        ensures { result ≡ ok_unless (ask_geometry g) (valid_journal_interval g self) }
    {
        g.ask()?;
        let b = self.valid(g);
        Ok(b)
    }

    // `contiguous`, after question 1.
    pub fn contiguous_journal_interval(self, g: Geometry) -> Result<bool, Refusal>
        ensures { result ≡ ok_unless (ask_geometry g) (contiguous_journal_interval g self) }
    {
        g.ask()?;
        let b = self.contiguous(g);
        Ok(b)
    }

    // Do the blocks up to the interval's end hold x, counted without going round?
    fn holds(self, x: u64) -> bool
        requires { self.start + self.len ≤ 18446744073709551615 }
        ensures { result ≡ also (leb self.start x) (ltb x (self.start + self.len)) }
    {
        let a = self.start <= x;
        let b = x < self.start + self.len;
        a & b
    }

    // Is block i in the interval?
    pub fn in_cyclic_range(self, g: Geometry, i: u64) -> Result<bool, Refusal>
        ensures { result ≡ ok_unless (ask_block g i self) (in_cyclic_range g i self) }
    {
        self.ask_block(g, i)?;
        let a = self.holds(i);
        let b = self.holds(i + g.blocks);
        Ok(a | b)
    }

    // Questions 1 and 4, of an interval and a block.
    fn ask_block(self, g: Geometry, i: u64) -> Result<(), Refusal>
        ensures { result ≡ asked (ask_block g i self) }
    {
        self.ask(g)?;
        if i < g.blocks {
            return Ok(());
        }
        Err(Refusal::Argument)
    }

    // How many blocks the ring has from the start on: none where the start lies past its end.
    pub(crate) fn to_end(self, g: Geometry) -> u64
        ensures { result ≡ g.blocks - self.start }
    {
        g.blocks.saturating_sub(self.start)
    }

    // The part up to the ring's end.
    pub fn front(self, g: Geometry) -> Option<JournalInterval>
        ensures { result ≡ optional (journal_front_interval g self.start self.len) }
    {
        if self.len == 0 {
            return None;
        }
        let left = self.to_end(g);
        if self.len <= left {
            return Some(JournalInterval {
                start: self.start,
                len: self.len,
            });
        }
        Some(JournalInterval {
            start: self.start,
            len: left,
        })
    }

    // The part from the ring's first block on, where the interval passes the end.
    pub fn back(self, g: Geometry) -> Option<JournalInterval>
        ensures { result ≡ optional (journal_back_interval g self.start self.len) }
    {
        if self.len == 0 {
            return None;
        }
        let left = self.to_end(g);
        if self.len <= left {
            return None;
        }
        Some(JournalInterval {
            start: 0,
            len: self.len - left,
        })
    }

    // `front` and `back`, after questions 1 and 4.
    pub fn journal_front_interval(self, g: Geometry) -> Result<Option<JournalInterval>, Refusal>
        ensures { result ≡ ok_unless (ask_interval g self) (optional (journal_front_interval g self.start self.len)) }
    {
        self.ask(g)?;
        let part = self.front(g);
        Ok(part)
    }

    pub fn journal_back_interval(self, g: Geometry) -> Result<Option<JournalInterval>, Refusal>
        ensures { result ≡ ok_unless (ask_interval g self) (optional (journal_back_interval g self.start self.len)) }
    {
        self.ask(g)?;
        let part = self.back(g);
        Ok(part)
    }

    // Does an interval that begins at `start` and has this one's len lie within `other`, counted without going round?
    fn lies_in(self, start: u64, other: JournalInterval) -> bool
        requires { (start + self.len ≤ 18446744073709551615) × (other.start + other.len ≤ 18446744073709551615) }
        ensures { result ≡ also (leb other.start start) (leb (start + self.len) (other.start + other.len)) }
    {
        let a = other.start <= start;
        let b = start + self.len <= other.start + other.len;
        a & b
    }

    // Does it lie within `other`, as it stands or once round?
    pub fn subinterval(self, other: JournalInterval, g: Geometry) -> Result<bool, Refusal>
        ensures { result ≡ ok_unless (ask_intervals g self other) (subinterval g self other) }
    {
        self.ask_both(other, g)?;
        let a = self.lies_in(self.start, other);
        let b = self.lies_in(self.start + g.blocks, other);
        Ok(a | b)
    }

    // The block after the interval.
    pub(crate) fn next(self, g: Geometry) -> u64
        requires { ValidGeometry g × ValidJournalInterval g self }
        ensures { result ≡ next_start_point g self }
    {
        if self.start + self.len < g.blocks {
            return self.start + self.len;
        }
        self.start + self.len - g.blocks
    }

    pub fn next_start_point(self, g: Geometry) -> Result<u64, Refusal>
        ensures { result ≡ ok_unless (ask_interval g self) (next_start_point g self) }
    {
        self.ask(g)?;
        let p = self.next(g);
        Ok(p)
    }

    // Questions 1 and 4, of two intervals in a row: the second begins at the block after the first.
    fn ask_in_row(self, other: JournalInterval, g: Geometry) -> Result<(), Refusal>
        ensures { result ≡ asked (ask_in_row g self other) }
    {
        self.ask_both(other, g)?;
        let p = self.next(g);
        if p == other.start {
            return Ok(());
        }
        Err(Refusal::Argument)
    }

    // Two intervals in a row as one. Its len is the sum, which may pass N as in the source.
    pub fn concat_intervals(
        self,
        other: JournalInterval,
        g: Geometry,
    ) -> Result<JournalInterval, Refusal>
        ensures { result ≡ ok_unless (ask_in_row g self other) (concat_intervals self other) }
    {
        self.ask_in_row(other, g)?;
        Ok(JournalInterval {
            start: self.start,
            len: self.len + other.len,
        })
    }

    // The blocks of a journal location.
    pub fn of_location(g: Geometry, loc: Location) -> Result<JournalInterval, Refusal>
        ensures { result ≡ ok_unless (ask_journal_location g loc) (journal_interval_of_location loc) }
    {
        layout::ask_journal_location(g, loc)?;
        Ok(JournalInterval {
            start: (loc.addr - Geometry::JOURNAL_START_ADDR) / Geometry::BLOCK_SIZE,
            len: loc.len / Geometry::BLOCK_SIZE,
        })
    }
}
