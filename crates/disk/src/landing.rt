// A superblock write lands: its slot holds it (001's ProcessWriteSuperblock). The write stays in flight, and may land again.
ghost use Rattle.std.specs.Prelude.{◌≡◌};
ghost use Rattle.disk.specs.Disk.{answered};
ghost use Rattle.requests.specs.Landing.{ask_land};
ghost use Rattle.disk.specs.Next.{land_next};

use super::{Disk, DiskStepped};
use requests::{ask_land, slots_landed};

impl Disk {
    // After questions 1 and 2; no step by itself.
    pub fn land_asked(mut self, which: u64) -> DiskStepped
        ensures { result ≡ answered (ask_land self.superblockWrites which) (land_next self which) self }
    {
        let slots = self.slots;
        let writes = self.superblockWrites;
        if let Err(no) = ask_land(writes, which) {
            return self.refused(no);
        }
        let next = slots_landed(slots, writes, which);
        self.slots = next;
        self.done(())
    }
}
