// Pending memory: the entries lie from its front on, the frozen ones first, and new ones come behind them.
ghost use Rattle.std.specs.Prelude.{◌≡◌, take, drop};
ghost use Rattle.laws.specs.Splice.{splice, clipped};
ghost use Rattle.refusal.specs.Refusal.{ok_unless};
ghost use Rattle.memory.specs.Given.{memory};
ghost use Rattle.memory.specs.Pending.{ask_frozen, counts_of, append_answer, append_lent, take_front_answer, take_front_lent};

use super::given::count_given;
use super::{Count, Limits, PendingCount};
use lengths::entries_held;
use refusal::Refusal;
use runs::write;

// Questions 1 and 2 of pending memory that holds n entries, the first of them frozen; and what it holds.
pub fn count_pending(
    limits: Limits,
    bytes: &[u8],
    lens: &[u16],
    n: u64,
    frozen: u64,
) -> Result<PendingCount, Refusal>
    ensures { result ≡ ok_unless (ask_frozen limits (memory bytes.now lens.now n) frozen) (counts_of (memory bytes.now lens.now n) frozen) }
{
    limits.ask_lent(bytes.len(), lens.len())?;
    let first = entries_held(lens, 0, frozen, limits.bytes).ok_or(Refusal::State)?;
    let others = entries_held(lens, frozen, n, limits.bytes - first).ok_or(Refusal::State)?;
    Ok(PendingCount {
        frozen: Count {
            entries: frozen,
            bytes: first,
        },
        all: Count {
            entries: n,
            bytes: first + others,
        },
    })
}

// The new entries to the places behind those that are held. Asks nothing: what is not there or does not fit is cut.
pub fn append_entries(
    bytes: &mut [u8],
    lens: &mut [u16],
    held: Count,
    bodies: &[u8],
    sizes: &[u16],
    new: Count,
)
    ensures bytes_after { bytes.new ≡ clipped bytes.old held.bytes (take new.bytes bodies.now) }
    ensures lens_after { lens.new ≡ clipped lens.old held.entries (take new.entries sizes.now) }
{
    let size = (new.bytes as usize).min(bodies.len());
    let count = (new.entries as usize).min(sizes.len());
    write(&bodies[0..size], bytes, held.bytes as usize);
    write(&sizes[0..count], lens, held.entries as usize);
}

// The first k of the new entries come behind the n pending ones.
pub fn append(
    limits: Limits,
    bytes: &mut [u8],
    lens: &mut [u16],
    n: u64,
    bodies: &[u8],
    sizes: &[u16],
    k: u64,
) -> Result<Count, Refusal>
    ensures value { result ≡ append_answer limits (memory bytes.old lens.old n) (memory bodies.now sizes.now k) }
    ensures bytes_after { bytes.new ≡ (append_lent limits (memory bytes.old lens.old n) (memory bodies.now sizes.now k)).bytes }
    ensures lens_after { lens.new ≡ (append_lent limits (memory bytes.old lens.old n) (memory bodies.now sizes.now k)).lens }
{
    let pending = count_pending(limits, bytes, lens, n, 0)?;
    let all = pending.all;
    let new = count_given(bodies, sizes, k)?;
    let after = Count {
        entries: all.entries + new.entries,
        bytes: all.bytes + new.bytes,
    };
    limits.ask_room(after)?;
    append_entries(bytes, lens, all, bodies, sizes, new);
    Ok(after)
}

// The first entries leave, and the others move to the front over exactly their new places. Asks nothing: what is not there is not moved.
pub fn move_front(bytes: &mut [u8], lens: &mut [u16], gone: Count, rest: Count)
    ensures bytes_after { bytes.new ≡ splice bytes.old 0 (take rest.bytes (drop gone.bytes bytes.old)) }
    ensures lens_after { lens.new ≡ splice lens.old 0 (take rest.entries (drop gone.entries lens.old)) }
{
    runs::move_front(bytes, gone.bytes as usize, rest.bytes as usize);
    runs::move_front(lens, gone.entries as usize, rest.entries as usize);
}

// The first k of the n pending entries leave.
pub fn take_front(
    limits: Limits,
    bytes: &mut [u8],
    lens: &mut [u16],
    n: u64,
    k: u64,
) -> Result<Count, Refusal>
    ensures value { result ≡ take_front_answer limits (memory bytes.old lens.old n) k }
    ensures bytes_after { bytes.new ≡ (take_front_lent limits (memory bytes.old lens.old n) k).bytes }
    ensures lens_after { lens.new ≡ (take_front_lent limits (memory bytes.old lens.old n) k).lens }
{
    let first = (k as usize).min(n as usize) as u64;
    let pending = count_pending(limits, bytes, lens, n, first)?;
    if n < k {
        return Err(Refusal::Argument);
    }
    let gone = pending.frozen;
    let all = pending.all;
    let rest = Count {
        entries: all.entries - gone.entries,
        bytes: all.bytes - gone.bytes,
    };
    move_front(bytes, lens, gone, rest);
    Ok(rest)
}
