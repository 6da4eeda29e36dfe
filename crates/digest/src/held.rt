// Entries in lent memory: their lengths, then their bytes.
ghost use Rattle.std.specs.Prelude.{◌≡◌};
ghost use Rattle.digest.specs.Take.{takes};
ghost use Rattle.digest.specs.Visible.{held_bytes, working_bytes};

use super::bytes::Taken;
use lengths::entries_held;
use memory::Count;
use ready::Entries;

impl Taken {
    // The entries behind those that are taken, up to one; none where they aren't held.
    fn held(self, bytes: &[u8], lens: &[u16], taken: Count, to: u64) -> Taken
        ensures { result.number ≡ takes self.number (held_bytes bytes.now lens.now taken to) }
    {
        let found = entries_held(lens, taken.entries, to, bytes.len() as u64);
        match found {
            Some(n) => {
                let start = taken.entries as usize;
                let end = to as usize;
                let v = self.lengths(&lens[start..end]);
                v.part(bytes, taken.bytes as usize, n as usize)
            },
            None => self,
        }
    }

    // The pending entries, and those of the replay that are left.
    pub(crate) fn working(
        self,
        e: Entries,
        bytes: &[u8],
        lens: &[u16],
        rbytes: &[u8],
        rlens: &[u16],
    ) -> Taken
        ensures { result.number ≡ takes self.number (working_bytes e bytes.now lens.now rbytes.now rlens.now) }
    {
        let none = Count {
            entries: 0,
            bytes: 0,
        };
        let v = self.held(bytes, lens, none, e.pending);
        v.held(rbytes, rlens, e.taken, e.replay)
    }
}
