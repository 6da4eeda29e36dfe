// A table of ids.
ghost use Rattle.std.specs.Prelude.{◌≡◌, take};
ghost use Rattle.refusal.specs.Refusal.{asked};
ghost use Rattle.tables.specs.Rows.{place_of, counted, has_room, ask_add, ask_join};
ghost use Rattle.tables.specs.IdTable.{id_set, no_ids, added_id, joined_id, removed_id};

use super::IdTable;
use super::ids::InUse;
use refusal::Refusal;

impl IdTable {
    pub fn empty() -> IdTable
        ensures { result ≡ no_ids }
    {
        IdTable {
            ids: [0; 16],
            count: 0,
        }
    }

    pub(crate) fn in_use(&self) -> InUse<'_>
        ensures { (result.ids.now ≡ self.now.ids) × (result.count ≡ self.now.count) }
    {
        InUse {
            ids: &self.ids,
            count: self.count,
        }
    }

    // Is the count within the limit and the array, and do the ids in use differ?
    pub fn ok(self, most: usize) -> bool
        ensures { result ≡ counted most self.count self.ids }
    {
        self.in_use().ok(most)
    }

    pub fn has(self, id: u64) -> bool
        ensures { result ≡ id_set self id }
    {
        self.in_use().has(id)
    }

    // The place of an id; where it isn't there, the number of places in use.
    pub fn place(self, id: u64) -> usize
        ensures { result ≡ place_of id (take self.count self.ids) }
    {
        self.in_use().place(id)
    }

    // Is there room for so many more?
    pub fn room(self, more: usize, most: usize) -> bool
        ensures { result ≡ has_room most self.count more self.ids }
    {
        self.in_use().room(more, most)
    }

    // Questions 5 and 8: may a new id be added?
    pub fn ask_add(self, id: u64, most: usize) -> Result<(), Refusal>
        ensures { result ≡ asked (ask_add most self.count self.ids id) }
    {
        self.in_use().ask_add(id, most)
    }

    // Question 8: may an id join, as in a set?
    pub fn ask_join(self, id: u64, most: usize) -> Result<(), Refusal>
        ensures { result ≡ asked (ask_join most self.count self.ids id) }
    {
        self.in_use().ask_join(id, most)
    }

    // One more at the end; a full table stays as it is.
    pub fn add(mut self, id: u64) -> IdTable
        ensures { result ≡ added_id self id }
    {
        let n = self.count;
        if n < self.ids.len() {
            self.ids[n] = id;
            self.count = n + 1;
            return self;
        }
        self
    }

    // As in a set: an id that is there changes nothing.
    pub fn join(self, id: u64) -> IdTable
        ensures { result ≡ joined_id self id }
    {
        let there = self.has(id);
        if there {
            return self;
        }
        self.add(id)
    }

    // The last one takes place i; a place that isn't in use changes nothing.
    pub fn remove(mut self, i: usize) -> IdTable
        ensures { result ≡ removed_id self i }
    {
        let n = self.count;
        if n <= self.ids.len() {
            if i < n {
                let last = n - 1;
                self.ids[i] = self.ids[last];
                self.count = last;
                return self;
            }
        }
        self
    }
}
