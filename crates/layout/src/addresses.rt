// The fixed sizes and addresses of a disk with N journal blocks and tables of at most T bytes.
ghost use Rattle.std.specs.Prelude.{◌≡◌, ◌≤◌, eqb};
ghost use Rattle.refusal.specs.Refusal.{ok_unless, asked};
ghost use Rattle.layout.specs.Geometry.{ask_geometry, ValidGeometry, indirection_table1_addr, indirection_table2_addr, journal_end_addr, journal_point, other_indirection_table_addr};
ghost use Rattle.layout.specs.Journal.{ask_point};

use super::Geometry;
use refusal::Refusal;

impl Geometry {
    pub const BLOCK_SIZE: u64 = 4096;

    pub const MOST_BLOCKS: u64 = 4096;

    pub const MOST_TABLE: u64 = 16777216;

    pub const SUPERBLOCK1_ADDR: u64 = 0;

    pub const SUPERBLOCK2_ADDR: u64 = 4096;

    pub const JOURNAL_START_ADDR: u64 = 8192;

    // Question 1, of N and T: are both in range?
    pub fn ask(self) -> Result<(), Refusal>
        ensures { result ≡ asked (ask_geometry self) }
    {
        if self.blocks < 1 {
            return Err(Refusal::Sizes);
        }
        if Self::MOST_BLOCKS < self.blocks {
            return Err(Refusal::Sizes);
        }
        if self.table < 1 {
            return Err(Refusal::Sizes);
        }
        if Self::MOST_TABLE < self.table {
            return Err(Refusal::Sizes);
        }
        Ok(())
    }

    // Questions 1 and 4, of a point of the journal, 0 to N.
    fn ask_point(self, point: u64) -> Result<(), Refusal>
        ensures { result ≡ asked (ask_point self point) }
    {
        self.ask()?;
        if self.blocks < point {
            return Err(Refusal::Argument);
        }
        Ok(())
    }

    // The address of a point.
    pub(crate) fn point(self, point: u64) -> u64
        requires { ValidGeometry self × point ≤ self.blocks }
        ensures { result ≡ journal_point self point }
    {
        Self::JOURNAL_START_ADDR + point * Self::BLOCK_SIZE
    }

    // The addresses of the two tables.
    pub(crate) fn table1(self) -> u64
        requires { ValidGeometry self }
        ensures { result ≡ indirection_table1_addr self }
    {
        2 * Self::BLOCK_SIZE + self.blocks * Self::BLOCK_SIZE
    }

    pub(crate) fn table2(self) -> u64
        requires { ValidGeometry self }
        ensures { result ≡ indirection_table2_addr self }
    {
        2 * Self::BLOCK_SIZE + self.blocks * Self::BLOCK_SIZE + self.table
    }

    // Is `addr` the address of table 1, of table 2? Exact for any N and T: the address is divided, so that no product or sum can wrap.
    pub(crate) fn is_table1(self, addr: u64) -> bool
        ensures { result ≡ eqb addr (indirection_table1_addr self) }
    {
        if addr < Self::JOURNAL_START_ADDR {
            return false;
        }
        let above = addr - Self::JOURNAL_START_ADDR;
        if above % Self::BLOCK_SIZE == 0 {
            return above / Self::BLOCK_SIZE == self.blocks;
        }
        false
    }

    pub(crate) fn is_table2(self, addr: u64) -> bool
        ensures { result ≡ eqb addr (indirection_table2_addr self) }
    {
        if addr < self.table {
            return false;
        }
        self.is_table1(addr - self.table)
    }

    pub fn indirection_table1_addr(self) -> Result<u64, Refusal>
        ensures { result ≡ ok_unless (ask_geometry self) (indirection_table1_addr self) }
    {
        self.ask()?;
        let addr = self.table1();
        Ok(addr)
    }

    pub fn indirection_table2_addr(self) -> Result<u64, Refusal>
        ensures { result ≡ ok_unless (ask_geometry self) (indirection_table2_addr self) }
    {
        self.ask()?;
        let addr = self.table2();
        Ok(addr)
    }

    // The table address that `addr` is not; table 1 for any other address.
    pub fn other_indirection_table_addr(self, addr: u64) -> Result<u64, Refusal>
        ensures { result ≡ ok_unless (ask_geometry self) (other_indirection_table_addr self addr) }
    {
        self.ask()?;
        let first = self.table1();
        let second = self.table2();
        if addr == first {
            return Ok(second);
        }
        Ok(first)
    }

    pub fn journal_end_addr(self) -> Result<u64, Refusal>
        ensures { result ≡ ok_unless (ask_geometry self) (journal_end_addr self) }
    {
        self.ask()?;
        let addr = self.table1();
        Ok(addr)
    }

    // The address of a point of the journal, 0 to N.
    pub fn journal_point(self, point: u64) -> Result<u64, Refusal>
        ensures { result ≡ ok_unless (ask_point self point) (journal_point self point) }
    {
        self.ask_point(point)?;
        let addr = self.point(point);
        Ok(addr)
    }
}
