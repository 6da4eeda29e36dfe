// The table of sync requests. Nothing outside this file looks into it: find, add, remove and move states are all that is done to it.
ghost use Rattle.std.specs.Prelude.{◌≡◌, take};
ghost use Rattle.refusal.specs.Refusal.{asked};
ghost use Rattle.laws.specs.Sets.{ids_of};
ghost use Rattle.tables.specs.Rows.{place_of, counted, ask_add};
ghost use Rattle.tables.specs.SyncTable.{state_map, no_syncs, valid_states, or_zero, added_sync, removed_sync, moved, moved_syncs};

use super::SyncTable;
use super::ids::InUse;
use refusal::Refusal;

const SIZE: usize = 32;

impl SyncTable {
    pub fn empty() -> SyncTable
        ensures { result ≡ no_syncs }
    {
        SyncTable {
            ids: [0; 32],
            states: [0; 32],
            count: 0,
        }
    }

    fn in_use(&self) -> InUse<'_>
        ensures { (result.ids.now ≡ self.now.ids) × (result.count ≡ self.now.count) }
    {
        InUse {
            ids: &self.ids,
            count: self.count,
        }
    }

    // Is the count within the limit and the array, and do the ids in use differ?
    pub fn ok(self, most: usize) -> bool
        ensures { result ≡ counted most self.count self.ids }
    {
        self.in_use().ok(most)
    }

    // Is every state in use 1, 2 or 3?
    pub fn valid(self) -> bool
        ensures { result ≡ valid_states self }
    {
        let n = self.count.min(SIZE);
        self.states[..n].iter().all(|state| matches!(*state, 1..=3))
    }

    pub fn has(self, id: u64) -> bool
        ensures { result ≡ ids_of (take self.count self.ids) id }
    {
        self.in_use().has(id)
    }

    // The place of an id; where it isn't there, the number of places in use.
    pub fn place(self, id: u64) -> usize
        ensures { result ≡ place_of id (take self.count self.ids) }
    {
        self.in_use().place(id)
    }

    // The state of an id; 0 where it isn't there.
    pub fn state(self, id: u64) -> u8
        ensures { result ≡ or_zero (state_map self id) }
    {
        let i = self.place(id);
        let n = self.count.min(SIZE);
        if i < n {
            return self.states[i];
        }
        0
    }

    // Questions 5 and 8: may a new id be added?
    pub fn ask_add(self, id: u64, most: usize) -> Result<(), Refusal>
        ensures { result ≡ asked (ask_add most self.count self.ids id) }
    {
        self.in_use().ask_add(id, most)
    }

    // One more at the end; a full table stays as it is.
    pub fn add(mut self, id: u64, state: u8) -> SyncTable
        ensures { result ≡ added_sync self id state }
    {
        let n = self.count;
        if n < self.ids.len() {
            self.ids[n] = id;
            self.states[n] = state;
            self.count = n + 1;
            return self;
        }
        self
    }

    // The last one takes place i; a place that isn't in use changes nothing.
    pub fn remove(mut self, i: usize) -> SyncTable
        ensures { result ≡ removed_sync self i }
    {
        let n = self.count;
        if n <= self.ids.len() {
            if i < n {
                let last = n - 1;
                self.ids[i] = self.ids[last];
                self.states[i] = self.states[last];
                self.count = last;
                return self;
            }
        }
        self
    }

    // Requests at state `from` go on to state `to`.
    pub fn move_states(mut self, from: u8, to: u8) -> SyncTable
        ensures { result ≡ moved_syncs from to self }
    {
        for state in &mut self.states {
            *state = moved(*state, from, to);
        }
        self
    }
}

fn moved(state: u8, from: u8, to: u8) -> u8
    ensures { result ≡ moved from to state }
{
    if state == from {
        return to;
    }
    state
}
