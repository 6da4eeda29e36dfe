// Is every block of an interval readable? As a test, and as question 6 of a read that is to be answered whole.
ghost use Rattle.std.specs.Prelude.{◌≡◌};
ghost use Rattle.refusal.specs.Refusal.{asked, ok_unless};
ghost use Rattle.laws.specs.Fold.{every};
ghost use Rattle.journal.specs.Memory.{is_one, full_marks, ask_full, ask_readable};

use super::questions::ask_marks;
use interval::JournalInterval;
use layout::Geometry;
use refusal::Refusal;

// Is every mark 1? The fold has no way out, so that it takes many marks at once.
fn all_one(marks: &[u8]) -> bool
    ensures { result ≡ every is_one marks.now }
{
    marks.iter().fold(true, |ok, mark| ok & (*mark == 1))
}

// The same of an interval's marks, in the two parts in which it lies: up to the end, and the rest from the front. For any interval.
fn full(v: JournalInterval, marks: &[u8]) -> bool
    ensures { result ≡ full_marks marks.now v }
{
    let n = v.len as usize;
    let place = (v.start as usize).min(marks.len());
    let first = n.min(marks.len() - place);
    let rest = (n - first).min(place);
    let a = all_one(&marks[place..place + first]);
    let b = all_one(&marks[0..rest]);
    a & b
}

// Question 6, of an interval that is to be read whole: is each of its blocks readable? It asks nothing else.
pub fn ask_readable(v: JournalInterval, marks: &[u8]) -> Result<(), Refusal>
    ensures { result ≡ asked (ask_readable v marks.now) }
{
    if full(v, marks) {
        return Ok(());
    }
    Err(Refusal::Condition)
}

fn ask_full(g: Geometry, v: JournalInterval, marks: &[u8]) -> Result<(), Refusal>
    ensures { result ≡ asked (ask_full g v marks.now) }
{
    ask_marks(g, marks)?;
    v.ask(g)
}

// Is every block of the interval readable? After questions 1 and 4.
pub fn full_range(g: Geometry, v: JournalInterval, marks: &[u8]) -> Result<bool, Refusal>
    ensures { result ≡ ok_unless (ask_full g v marks.now) (full_marks marks.now v) }
{
    ask_full(g, v, marks)?;
    Ok(full(v, marks))
}
