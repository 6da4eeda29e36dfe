// Questions 1 and 2, of all that a call is handed.
ghost use Rattle.std.specs.Prelude.{◌≡◌};
ghost use Rattle.refusal.specs.Refusal.{ok_unless, asked};
ghost use Rattle.machine.specs.Questions.{bodies_of};
ghost use Rattle.store.specs.Lent.{lent_of, ask_rest, ask_store};

use super::{Lent, Store};
use joined::joined;
use layout::Geometry;
use ready::Bodies;
use refusal::Refusal;

impl Store {
    // Question 2 of the disk, and of both together.
    fn ask_rest(self, g: Geometry) -> Result<(), Refusal>
        ensures { result ≡ asked (ask_rest g self) }
    {
        self.disk.ask_state(g)?;
        let b = joined(g, self.machine, self.disk);
        if b {
            return Ok(());
        }
        Err(Refusal::State)
    }

    // Questions 1 and 2, and what was found in pending memory.
    pub fn ask(self, g: Geometry, lent: Lent<'_>) -> Result<Bodies, Refusal>
        ensures { result ≡ ok_unless (ask_store g (lent_of lent.entry) self) (bodies_of (lent_of lent.entry).lens self.machine) }
    {
        journal::ask_journal(g, lent.blocks, lent.marks)?;
        let bodies = self.machine.ask(g, lent.machine)?;
        self.ask_rest(g)?;
        Ok(bodies)
    }

    // The same without what was found.
    pub fn ask_state(self, g: Geometry, lent: Lent<'_>) -> Result<(), Refusal>
        ensures { result ≡ asked (ask_store g (lent_of lent.entry) self) }
    {
        self.ask(g, lent)?;
        Ok(())
    }
}
