// Ids in a slice, and ids in an array with a count.
ghost use Rattle.std.specs.Prelude.{◌≡◌, take};
ghost use Rattle.refusal.specs.Refusal.{asked};
ghost use Rattle.laws.specs.Sets.{ids_of};
ghost use Rattle.tables.specs.Rows.{place_of, distinct, within, same_ids, counted, has_room, ask_add, ask_join};

use refusal::Refusal;

// The place of an id; the length where it isn't there.
pub fn find(ids: &[u64], id: u64) -> usize
    ensures { result ≡ place_of id ids.now }
{
    ids.iter().position(|k| *k == id).unwrap_or(ids.len())
}

pub fn member(ids: &[u64], id: u64) -> bool
    ensures { result ≡ ids_of ids.now id }
{
    ids.contains(&id)
}

// Does no id stand twice?
pub fn distinct(ids: &[u64]) -> bool
    ensures { result ≡ distinct ids.now }
{
    for (i, &id) in ids.iter().enumerate() {
        if member(&ids[i + 1..], id) {
            return false;
        }
    }
    true
}

// Is each of the first one of the second?
pub fn within(ids: &[u64], others: &[u64]) -> bool
    ensures { result ≡ within ids.now others.now }
{
    ids.iter().all(|id| member(others, *id))
}

// The ids in use of an array with a count: the first `count`.
#[derive(Clone, Copy)]
pub(crate) struct InUse<'a> {
    pub(crate) ids: &'a [u64],
    pub(crate) count: usize,
}

impl<'a> InUse<'a> {
    fn used(self) -> &'a [u64]
        ensures { result.now ≡ take self.entry.count self.entry.ids.now }
    {
        let n = self.count.min(self.ids.len());
        &self.ids[..n]
    }

    pub(crate) fn has(self, id: u64) -> bool
        ensures { result ≡ ids_of (take self.entry.count self.entry.ids.now) id }
    {
        member(self.used(), id)
    }

    pub(crate) fn place(self, id: u64) -> usize
        ensures { result ≡ place_of id (take self.entry.count self.entry.ids.now) }
    {
        find(self.used(), id)
    }

    // Is the count within the limit and the array, and do the ids in use differ?
    pub(crate) fn ok(self, most: usize) -> bool
        ensures { result ≡ counted most self.entry.count self.entry.ids.now }
    {
        if self.count <= most {
            if self.count <= self.ids.len() {
                return distinct(self.used());
            }
        }
        false
    }

    // Is there room for so many more?
    pub(crate) fn room(self, more: usize, most: usize) -> bool
        ensures { result ≡ has_room most self.entry.count more self.entry.ids.now }
    {
        let n = most.min(self.ids.len());
        if self.count <= n {
            return more <= n - self.count;
        }
        false
    }

    // Questions 5 and 8 of an id that has to be new.
    pub(crate) fn ask_add(self, id: u64, most: usize) -> Result<(), Refusal>
        ensures { result ≡ asked (ask_add most self.entry.count self.entry.ids.now id) }
    {
        if self.has(id) {
            return Err(Refusal::Id);
        }
        let free = self.room(1, most);
        if free {
            return Ok(());
        }
        Err(Refusal::Room)
    }

    // Question 8 of an id that joins as in a set.
    pub(crate) fn ask_join(self, id: u64, most: usize) -> Result<(), Refusal>
        ensures { result ≡ asked (ask_join most self.entry.count self.entry.ids.now id) }
    {
        if self.has(id) {
            return Ok(());
        }
        if self.room(1, most) {
            return Ok(());
        }
        Err(Refusal::Room)
    }

    // Do the ids in use of two arrays make the same set?
    pub(crate) fn same(self, other: InUse) -> bool
        ensures { result ≡ same_ids (take self.entry.count self.entry.ids.now) (take other.entry.count other.entry.ids.now) }
    {
        let there = within(self.used(), other.used());
        let back = within(other.used(), self.used());
        there & back
    }
}
