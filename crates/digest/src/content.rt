// The check number of a store: its disk's slots and journal, and what its machine holds.
ghost use Rattle.std.specs.Prelude.{◌≡◌};
ghost use Rattle.machine.specs.Lent.{lent_of};
ghost use Rattle.digest.specs.Take.{takes};
ghost use Rattle.digest.specs.Visible.{kind_bytes, visible};

use super::bytes::Taken;
use layout::Geometry;
use machine::{Kind, Lent, Machine};
use requests::Slots;

impl Taken {
    // What its kind holds in lent memory.
    fn held_by_kind(self, m: Machine, g: Geometry, lent: Lent<'_>) -> Taken
        ensures { result.number ≡ takes self.number (kind_bytes m.kind g (lent_of lent.entry) m) }
    {
        match m.kind {
            Kind::LoadingSuperblock => self,
            Kind::LoadingOther => self.loaded(g, m.other, lent.pieces),
            Kind::Ready => self.working(
                m.ready.entries,
                lent.bytes,
                lent.lens,
                lent.rbytes,
                lent.rlens,
            ),
        }
    }
}

pub fn check_number(
    slots: Slots,
    m: Machine,
    g: Geometry,
    lent: Lent<'_>,
    blocks: &[u8],
    marks: &[u8],
) -> u64
    ensures { result ≡ takes 0 (visible g (lent_of lent.entry) blocks.now marks.now slots m) }
{
    let a = Taken::none().slots(slots);
    let b = a.journal(blocks, marks);
    let c = b.held_by_kind(m, g, lent);
    c.number
}
