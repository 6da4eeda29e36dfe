// A table of ids with an interval each.
ghost use Rattle.std.specs.Prelude.{◌≡◌, take};
ghost use Rattle.refusal.specs.Refusal.{asked};
ghost use Rattle.laws.specs.Optional.{optional};
ghost use Rattle.laws.specs.Sets.{ids_of};
ghost use Rattle.tables.specs.Rows.{place_of, counted, has_room, ask_add, same_ids};
ghost use Rattle.tables.specs.IntervalTable.{interval_map, no_intervals, valid_intervals, added_interval, removed_interval};

use super::ids::InUse;
use super::{IdTable, IntervalTable};
use interval::JournalInterval;
use layout::Geometry;
use refusal::Refusal;

const SIZE: usize = 16;

impl IntervalTable {
    pub fn empty() -> IntervalTable
        ensures { result ≡ no_intervals }
    {
        let v = JournalInterval { start: 0, len: 0 };
        let vs = [v; 16];
        IntervalTable {
            ids: [0; 16],
            intervals: vs,
            count: 0,
        }
    }

    fn in_use(&self) -> InUse<'_>
        ensures { (result.ids.now ≡ self.now.ids) × (result.count ≡ self.now.count) }
    {
        InUse {
            ids: &self.ids,
            count: self.count,
        }
    }

    // Is the count within the limit and the array, and do the ids in use differ?
    pub fn ok(self, most: usize) -> bool
        ensures { result ≡ counted most self.count self.ids }
    {
        self.in_use().ok(most)
    }

    // Is every interval in use valid and contiguous?
    pub fn valid(self, g: Geometry) -> bool
        ensures { result ≡ valid_intervals g self }
    {
        let n = self.count.min(SIZE);
        self.intervals[..n].iter().all(|v| v.contiguous(g))
    }

    pub fn has(self, id: u64) -> bool
        ensures { result ≡ ids_of (take self.count self.ids) id }
    {
        self.in_use().has(id)
    }

    // The place of an id; where it isn't there, the number of places in use.
    pub fn place(self, id: u64) -> usize
        ensures { result ≡ place_of id (take self.count self.ids) }
    {
        self.in_use().place(id)
    }

    // The interval of an id.
    pub fn get(self, id: u64) -> Option<JournalInterval>
        ensures { result ≡ optional (interval_map self id) }
    {
        let i = self.place(id);
        let n = self.count.min(SIZE);
        if i < n {
            let v = self.intervals[i];
            return Some(v);
        }
        None
    }

    // Is there room for so many more?
    pub fn room(self, more: usize, most: usize) -> bool
        ensures { result ≡ has_room most self.count more self.ids }
    {
        self.in_use().room(more, most)
    }

    // Questions 5 and 8: may a new id be added?
    pub fn ask_add(self, id: u64, most: usize) -> Result<(), Refusal>
        ensures { result ≡ asked (ask_add most self.count self.ids id) }
    {
        self.in_use().ask_add(id, most)
    }

    // One more at the end; a full table stays as it is.
    pub fn add(mut self, id: u64, v: JournalInterval) -> IntervalTable
        ensures { result ≡ added_interval self id v }
    {
        let n = self.count;
        if n < self.ids.len() {
            self.ids[n] = id;
            self.intervals[n] = v;
            self.count = n + 1;
            return self;
        }
        self
    }

    // The last one takes place i; a place that isn't in use changes nothing.
    pub fn remove(mut self, i: usize) -> IntervalTable
        ensures { result ≡ removed_interval self i }
    {
        let n = self.count;
        if n <= self.ids.len() {
            if i < n {
                let last = n - 1;
                let v = self.intervals[last];
                self.ids[i] = self.ids[last];
                self.intervals[i] = v;
                self.count = last;
                return self;
            }
        }
        self
    }
}

// Do the two tables hold the same ids?
pub fn same_ids(a: IdTable, b: IntervalTable) -> bool
    ensures { result ≡ same_ids (take a.count a.ids) (take b.count b.ids) }
{
    a.in_use().same(b.in_use())
}
