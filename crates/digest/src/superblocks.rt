// The two slots: each superblock as its five numbers.
ghost use Rattle.std.specs.Prelude.{◌≡◌};
ghost use Rattle.digest.specs.Take.{takes};
ghost use Rattle.digest.specs.Visible.{superblock_bytes, slot_bytes, slots_bytes};

use super::bytes::Taken;
use requests::Slots;
use superblock::Superblock;

impl Taken {
    fn superblock(self, s: Superblock) -> Taken
        ensures { result.number ≡ takes self.number (superblock_bytes s) }
    {
        let loc = s.indirectionTableLoc;
        let a = self.number(s.counter);
        let b = a.number(s.journalStart);
        let c = b.number(s.journalLen);
        let d = c.number(loc.addr);
        d.number(loc.len)
    }

    fn slot(self, s: Option<Superblock>) -> Taken
        ensures { result.number ≡ takes self.number (slot_bytes s) }
    {
        match s {
            Some(held) => self.superblock(held),
            None => self,
        }
    }

    pub(crate) fn slots(self, s: Slots) -> Taken
        ensures { result.number ≡ takes self.number (slots_bytes s) }
    {
        let a = self.slot(s.first);
        a.slot(s.second)
    }
}
