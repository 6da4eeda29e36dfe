// Which locations are valid, overlap, lie within one another. Sums here never wrap.
ghost use Rattle.std.specs.Prelude.{◌≡◌, ◌+◌, leb, ltb};
ghost use Rattle.refusal.specs.Refusal.{ok_unless, asked};
ghost use Rattle.layout.specs.Geometry.{ask_geometry, ValidGeometry};
ghost use Rattle.layout.specs.Location.{valid_indirection_table_addr, whole_blocks, valid_journal_location, valid_indirection_table_location, superblock1_location, superblock2_location, same_location, valid_superblock1_location, valid_superblock2_location, valid_superblock_location, valid_location, overlap, location_sub};

use super::{Geometry, Location};
use refusal::Refusal;

impl Location {
    pub fn superblock1() -> Location
        ensures { result ≡ superblock1_location }
    {
        Location {
            addr: Geometry::SUPERBLOCK1_ADDR,
            len: Geometry::BLOCK_SIZE,
        }
    }

    pub fn superblock2() -> Location
        ensures { result ≡ superblock2_location }
    {
        Location {
            addr: Geometry::SUPERBLOCK2_ADDR,
            len: Geometry::BLOCK_SIZE,
        }
    }

    // Does it end at `end` or before?
    pub(crate) fn ends_by(self, end: u64) -> bool
        ensures { result ≡ leb (self.addr + self.len) end }
    {
        if end < self.addr {
            return false;
        }
        self.len <= end - self.addr
    }

    // Does it end after `x`?
    fn ends_after(self, x: u64) -> bool
        ensures { result ≡ ltb x (self.addr + self.len) }
    {
        if x < self.addr {
            return true;
        }
        x - self.addr < self.len
    }

    pub fn same(self, other: Location) -> bool
        ensures { result ≡ same_location self other }
    {
        self == other
    }

    pub fn valid_superblock1_location(self) -> bool
        ensures { result ≡ valid_superblock1_location self }
    {
        let first = Location::superblock1();
        self.same(first)
    }

    pub fn valid_superblock2_location(self) -> bool
        ensures { result ≡ valid_superblock2_location self }
    {
        let second = Location::superblock2();
        self.same(second)
    }

    pub fn valid_superblock_location(self) -> bool
        ensures { result ≡ valid_superblock_location self }
    {
        let first = Location::superblock1();
        let second = Location::superblock2();
        let a = self.same(first);
        let b = self.same(second);
        a | b
    }

    // Do the two share a byte? A location of no bytes that lies strictly inside another overlaps it, as in the source: request S-3 is about intervals.
    pub fn overlap(self, other: Location) -> bool
        ensures { result ≡ overlap self other }
    {
        let a = self.ends_after(other.addr);
        let b = other.ends_after(self.addr);
        a & b
    }

    // Does it lie within `other`?
    pub fn location_sub(self, other: Location) -> bool
        ensures { result ≡ location_sub self other }
    {
        if self.addr < other.addr {
            return false;
        }
        if other.len < self.addr - other.addr {
            return false;
        }
        self.len <= other.len - (self.addr - other.addr)
    }

    fn whole_blocks(self) -> bool
        ensures { result ≡ whole_blocks self }
    {
        if self.addr % Geometry::BLOCK_SIZE == 0 {
            return self.len % Geometry::BLOCK_SIZE == 0;
        }
        false
    }

    // A valid journal location, in a valid geometry.
    pub(crate) fn in_journal(self, g: Geometry) -> bool
        requires { ValidGeometry g }
        ensures { result ≡ valid_journal_location g self }
    {
        let whole = self.whole_blocks();
        if whole {
            if self.addr < Geometry::JOURNAL_START_ADDR {
                return false;
            }
            if g.blocks <= (self.addr - Geometry::JOURNAL_START_ADDR) / Geometry::BLOCK_SIZE {
                return false;
            }
            if u64::MAX - self.len < self.addr {
                return false;
            }
            return self.ends_by((2 + g.blocks) * Geometry::BLOCK_SIZE);
        }
        false
    }

    fn at_table(self, g: Geometry) -> bool
        ensures { result ≡ valid_indirection_table_addr g self.addr }
    {
        let first = g.is_table1(self.addr);
        let second = g.is_table2(self.addr);
        first | second
    }

    // Is it at one of the two table addresses, 1 to T bytes long? For any geometry; `valid_indirection_table_location` asks first.
    pub fn valid_table(self, g: Geometry) -> bool
        ensures { result ≡ valid_indirection_table_location g self }
    {
        let at = self.at_table(g);
        if at {
            if 0 < self.len {
                return self.len <= g.table;
            }
            return false;
        }
        false
    }

    // Is `addr` the address of one of the two tables?
    pub fn valid_indirection_table_addr(g: Geometry, addr: u64) -> Result<bool, Refusal>
        ensures { result ≡ ok_unless (ask_geometry g) (valid_indirection_table_addr g addr) }
    {
        g.ask()?;
        let loc = Location { addr, len: 0 };
        let b = loc.at_table(g);
        Ok(b)
    }

    // The same after question 1.
    pub fn valid_indirection_table_location(self, g: Geometry) -> Result<bool, Refusal>
        ensures { result ≡ ok_unless (ask_geometry g) (valid_indirection_table_location g self) }
    {
        g.ask()?;
        let b = self.valid_table(g);
        Ok(b)
    }

    // Is it whole blocks of the journal?
    pub fn valid_journal_location(self, g: Geometry) -> Result<bool, Refusal>
        ensures { result ≡ ok_unless (ask_geometry g) (valid_journal_location g self) }
    {
        g.ask()?;
        let b = self.in_journal(g);
        Ok(b)
    }

    // Is it a superblock's, in the journal, or a table's?
    pub fn valid_location(self, g: Geometry) -> Result<bool, Refusal>
        ensures { result ≡ ok_unless (ask_geometry g) (valid_location g self) }
    {
        g.ask()?;
        let first = self.valid_superblock1_location();
        let second = self.valid_superblock2_location();
        let journal = self.in_journal(g);
        let table = self.valid_table(g);
        let b = first | (second | (journal | table));
        Ok(b)
    }
}
