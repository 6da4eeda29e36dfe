// Steps of a machine whose 16 numbers the caller keeps: whole steps, each with every question, over the caller's memory.
ghost use Rattle.std.specs.Prelude.{◌≡◌};
ghost use Rattle.laws.specs.Choice.{unless};
ghost use Rattle.machine.specs.Lent.{lent};
ghost use Rattle.machine.specs.Whole.{advanced_bytes, advanced_lens, written_out, written_bytes, written_lens};
ghost use Rattle.linked.specs.State.{ask_numbers, geometry_at, machine_of};
ghost use Rattle.linked.specs.Steps.{ask_add_of, added_numbers, ask_replay_of, replayed_numbers, ask_write_of, written_numbers};
ghost use Rattle.linked.specs.Numbers.{second_id};

use super::state::{ask_numbers, geometry_at, machine_of};
use machine::Lent;

// Advance: the first k entries of what the caller brings come behind the pending ones.
#[unsafe(no_mangle)]
pub extern "C" fn wokujani_add(
    state: &mut [u64],
    brought: &[u8],
    sizes: &[u16],
    k: u64,
    bytes: &mut [u8],
    lens: &mut [u16],
    pieces: &[u8],
    rbytes: &[u8],
    rlens: &[u16],
) -> u8
    ensures value { result ≡ ask_add_of state.old (lent bytes.old lens.old pieces.now rbytes.now rlens.now) brought.now sizes.now k }
    ensures state_after { state.new ≡ added_numbers state.old (lent bytes.old lens.old pieces.now rbytes.now rlens.now) brought.now sizes.now k }
    ensures bytes_after { bytes.new ≡ unless (ask_numbers state.old) bytes.old (advanced_bytes (geometry_at state.old) (lent bytes.old lens.old pieces.now rbytes.now rlens.now) (machine_of state.old) brought.now sizes.now k) }
    ensures lens_after { lens.new ≡ unless (ask_numbers state.old) lens.old (advanced_lens (geometry_at state.old) (lent bytes.old lens.old pieces.now rbytes.now rlens.now) (machine_of state.old) brought.now sizes.now k) }
{
    if let Err(no) = ask_numbers(state.len()) {
        return no.number();
    }
    let g = geometry_at(state);
    let m = machine_of(state);
    let r = m.advance(g, brought, sizes, k, bytes, lens, pieces, rbytes, rlens);
    match r.answer {
        Err(no) => no.number(),
        Ok(_) => {
            state[11] = r.machine.ready.entries.pending;
            0
        },
    }
}

// Replay: the first k entries of what the caller brings are the next of the replay, and are taken.
#[unsafe(no_mangle)]
pub extern "C" fn wokujani_replay(
    state: &mut [u64],
    brought: &[u8],
    sizes: &[u16],
    k: u64,
    bytes: &[u8],
    lens: &[u16],
    pieces: &[u8],
    rbytes: &[u8],
    rlens: &[u16],
) -> u8
    ensures value { result ≡ ask_replay_of state.old (lent bytes.now lens.now pieces.now rbytes.now rlens.now) brought.now sizes.now k }
    ensures state_after { state.new ≡ replayed_numbers state.old (lent bytes.now lens.now pieces.now rbytes.now rlens.now) brought.now sizes.now k }
{
    if let Err(no) = ask_numbers(state.len()) {
        return no.number();
    }
    let g = geometry_at(state);
    let m = machine_of(state);
    let lent = Lent {
        bytes,
        lens,
        pieces,
        rbytes,
        rlens,
    };
    let r = m.replay(g, brought, sizes, k, lent);
    match r.answer {
        Err(no) => no.number(),
        Ok(_) => {
            let taken = r.machine.ready.entries.taken;
            state[14] = taken.entries;
            state[15] = taken.bytes;
            0
        },
    }
}

// A second id, where there is one: a range that goes round the ring's end takes two.
fn second_id(two: bool, id: u64) -> Option<u64>
    ensures { result ≡ second_id two id }
{
    if two {
        return Some(id);
    }
    None
}

// WriteBackJournalReq: the range goes to the front of `out`, N blocks, and what is left of pending memory moves to its front.
#[unsafe(no_mangle)]
pub extern "C" fn wokujani_write_journal(
    state: &mut [u64],
    id1: u64,
    two: bool,
    id2: u64,
    out: &mut [u8],
    bytes: &mut [u8],
    lens: &mut [u16],
    pieces: &[u8],
    rbytes: &[u8],
    rlens: &[u16],
) -> u8
    ensures value { result ≡ ask_write_of state.old (lent bytes.old lens.old pieces.now rbytes.now rlens.now) id1 (second_id two id2) out.old }
    ensures state_after { state.new ≡ written_numbers state.old (lent bytes.old lens.old pieces.now rbytes.now rlens.now) id1 (second_id two id2) out.old }
    ensures out_after { out.new ≡ unless (ask_numbers state.old) out.old (written_out (geometry_at state.old) (lent bytes.old lens.old pieces.now rbytes.now rlens.now) (machine_of state.old) id1 (second_id two id2) out.old) }
    ensures bytes_after { bytes.new ≡ unless (ask_numbers state.old) bytes.old (written_bytes (geometry_at state.old) (lent bytes.old lens.old pieces.now rbytes.now rlens.now) (machine_of state.old) id1 (second_id two id2) out.old) }
    ensures lens_after { lens.new ≡ unless (ask_numbers state.old) lens.old (written_lens (geometry_at state.old) (lent bytes.old lens.old pieces.now rbytes.now rlens.now) (machine_of state.old) id1 (second_id two id2) out.old) }
{
    if let Err(no) = ask_numbers(state.len()) {
        return no.number();
    }
    let g = geometry_at(state);
    let m = machine_of(state);
    let other = second_id(two, id2);
    let r = m.write_back_journal_req(g, id1, other, out, bytes, lens, pieces, rbytes, rlens);
    match r.answer {
        Err(no) => no.number(),
        Ok(_) => {
            let ready = r.machine.ready;
            state[8] = ready.writtenJournalLen;
            state[10] = ready.frozen.frozenJournalPosition;
            state[11] = ready.entries.pending;
            state[12] = ready.entries.frozen;
            0
        },
    }
}
