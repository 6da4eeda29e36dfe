// The step that comes next.
ghost use Rattle.std.specs.Prelude.{◌≡◌};
ghost use Rattle.store.specs.Lent.{lent_of};
ghost use Rattle.driver.specs.Driver.{slot_step, piece_step, superblocks_step, other_step, loading_step, next_step};

use super::ids::least_new;
use calls::Step;
use interval::JournalInterval;
use layout::Geometry;
use loading::{LoadingOther, LoadingSuperblock, Piece, SlotRead};
use machine::Kind;
use refusal::Refusal;
use store::{Lent, Store};

// A slot's step; where it was read, the one that comes after it.
fn slot_step(new: u64, which: u64, slot: SlotRead, after: Step) -> Step
    ensures { result ≡ slot_step new which slot after }
{
    match slot {
        SlotRead::Unasked => Step::PageInSuperblockReq {
            which: which,
            id: new,
        },
        SlotRead::Awaited(id) => Step::PageInSuperblockResp {
            which: which,
            id: id,
            whole: true,
        },
        SlotRead::Success(_) => after,
        SlotRead::Corruption => Step::AskAgain { which: which },
    }
}

// A piece's step; where there is none or it is in, the one that comes after it.
fn piece_step(new: u64, which: u64, v: Option<JournalInterval>, piece: Piece, after: Step) -> Step
    ensures { result ≡ piece_step new which v piece after }
{
    match v {
        None => after,
        Some(_) => match piece {
            Piece::Unread => Step::PageInJournalReq {
                which: which,
                id: new,
            },
            Piece::Reading(id) => Step::PageInJournalResp {
                id: id,
                whole: true,
            },
            Piece::In => after,
        },
    }
}

fn superblocks_step(new: u64, s: LoadingSuperblock) -> Step
    ensures { result ≡ superblocks_step new s }
{
    let first = s.first;
    let second = s.second;
    let end = Step::FinishLoadingSuperblockPhase;
    let after = slot_step(new, 1, second, end);
    slot_step(new, 0, first, after)
}

fn other_step(g: Geometry, new: u64, s: LoadingOther) -> Step
    ensures { result ≡ other_step g new s }
{
    let superblock = s.superblock;
    let front = superblock.front(g);
    let back = superblock.back(g);
    let first = s.front;
    let second = s.back;
    let end = Step::FinishLoadingOtherPhase;
    let after = piece_step(new, 1, back, second, end);
    piece_step(new, 0, front, first, after)
}

// After questions 1 and 2.
fn loading_step(g: Geometry, s: Store) -> Result<Step, Refusal>
    ensures { result ≡ loading_step g s }
{
    let d = s.disk;
    let m = s.machine;
    let kind = m.kind;
    match kind {
        Kind::LoadingSuperblock => {
            let new = least_new(d);
            let superblocks = m.superblocks;
            let x = superblocks_step(new, superblocks);
            Ok(x)
        },
        Kind::LoadingOther => {
            let new = least_new(d);
            let other = m.other;
            let x = other_step(g, new, other);
            Ok(x)
        },
        Kind::Ready => Err(Refusal::Kind),
    }
}

// The step that brings a store further that loads: it is taken by `calls::step`, which asks the same questions of the same slices.
pub fn next_step(s: Store, g: Geometry, lent: Lent<'_>) -> Result<Step, Refusal>
    ensures { result ≡ next_step g (lent_of lent.entry) s }
{
    s.ask_state(g, lent)?;
    loading_step(g, s)
}
