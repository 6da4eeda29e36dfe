// One step over all calls. Questions 1 and 2 are asked once.
ghost use Rattle.std.specs.Prelude.{◌≡◌};
ghost use Rattle.refusal.specs.Refusal.{ok_unless, asked};
ghost use Rattle.machine.specs.Questions.{bodies_of};
ghost use Rattle.store.specs.Lent.{lent_of, lent_in, SameSlices};
ghost use Rattle.calls.specs.Given.{given_in};
ghost use Rattle.calls.specs.Step.{ask_picture, ask_step, step_answer_with, step_lent_with, stepped, stepped_lent};

use super::calls::{Given, Step};
use layout::Geometry;
use ready::Bodies;
use refusal::Refusal;
use store::{Lent, LentMut, Store, StoreStepped};

// Question 1 of a crash's picture.
fn ask_picture(g: Geometry, x: Step, given: Given<'_>) -> Result<(), Refusal>
    ensures { result ≡ asked (ask_picture g given.entry.picture.now given.entry.pictured.now x) }
{
    match x {
        Step::Crash => journal::ask_journal(g, given.picture, given.pictured),
        _ => Ok(()),
    }
}

// Question 1 of a crash's picture, then questions 1 and 2, and what was found in pending memory.
fn ask(s: Store, g: Geometry, x: Step, given: Given<'_>, lent: Lent<'_>) -> Result<Bodies, Refusal>
    ensures { result ≡ ok_unless (ask_step g (lent_of lent.entry) (given_in given.entry) s x) (bodies_of (lent_of lent.entry).lens s.machine) }
{
    ask_picture(g, x, given)?;
    s.ask(g, lent)
}

// The step, after questions 1 and 2; no step by itself.
#[tactic(auto, unfolding(crate::specs::Step::step_answer_with, crate::specs::Step::step_lent_with))]
fn step_asked(
    s: Store,
    g: Geometry,
    x: Step,
    bodies: Bodies,
    given: Given<'_>,
    lent: &mut LentMut<'_>,
) -> StoreStepped
    ensures value { result ≡ step_answer_with g (lent_in lent.old) (given_in given.entry) s x bodies }
    ensures lent_after { lent_in lent.new ≡ step_lent_with g (lent_in lent.old) (given_in given.entry) s x bodies }
    ensures same_slices { SameSlices lent.old lent.new }
{
    match x {
        Step::WriteBackJournalReq { id1, id2 } => s.write_back_journal_req_asked(
            g,
            id1,
            id2,
            bodies,
            lent.bytes,
            lent.lens,
            lent.blocks,
            lent.marks,
        ),
        Step::WriteBackJournalResp { id } => s.write_back_journal_resp_asked(g, id),
        Step::AdvanceLog { id } => s.write_back_superblock_req_advance_log_asked(g, id),
        Step::AdvanceLocation { id } => s.write_back_superblock_req_advance_location_asked(g, id),
        Step::WriteBackSuperblockResp { id } => s.write_back_superblock_resp_asked(g, id),
        Step::PageInJournalReq { which, id } => s.page_in_journal_req_asked(g, which, id),
        Step::PageInJournalResp { id, whole } => {
            let blocks: &mut [u8] = lent.blocks;
            let marks: &mut [u8] = lent.marks;
            s.page_in_journal_resp_asked(g, id, whole, lent.pieces, blocks, marks)
        },
        Step::PageInSuperblockReq { which, id } => s.page_in_superblock_req_asked(g, which, id),
        Step::PageInSuperblockResp { which, id, whole } => s.page_in_superblock_resp_asked(
            g, which, id, whole,
        ),
        Step::FinishLoadingSuperblockPhase => s.finish_loading_superblock_phase_asked(g),
        Step::FinishLoadingOtherPhase => {
            let pieces: &mut [u8] = lent.pieces;
            s.finish_loading_other_phase_asked(g, pieces, lent.rbytes, lent.rlens)
        },
        Step::Freeze => s.freeze_asked(g),
        Step::ReceiveFrozenLoc { loc } => s.receive_frozen_loc_asked(g, loc),
        Step::Advance { entries } => s.advance_asked(
            g,
            bodies,
            given.brought,
            given.sizes,
            entries,
            lent.bytes,
            lent.lens,
        ),
        Step::Replay { entries } => {
            let rbytes: &mut [u8] = lent.rbytes;
            let rlens: &mut [u16] = lent.rlens;
            s.replay_asked(g, rbytes, rlens, given.brought, given.sizes, entries)
        },
        Step::PushSyncReq { id } => s.push_sync_req_asked(g, id),
        Step::PopSyncReq { id } => s.pop_sync_req_asked(g, id),
        Step::NoOp => s.no_op_asked(g),
        Step::AskAgain { which } => s.ask_again_asked(g, which),
        Step::Land { which } => s.land_asked(which),
        Step::Crash => s.crash_asked(given.picture, given.pictured, lent.blocks, lent.marks),
        Step::CrashInPlace => s.crash_in_place_asked(),
    }
}

// The step, whole.
pub fn step(
    s: Store,
    g: Geometry,
    x: Step,
    given: Given<'_>,
    lent: &mut LentMut<'_>,
) -> StoreStepped
    ensures value { result ≡ stepped g (lent_in lent.old) (given_in given.entry) s x }
    ensures lent_after { lent_in lent.new ≡ stepped_lent g (lent_in lent.old) (given_in given.entry) s x }
    ensures same_slices { SameSlices lent.old lent.new }
{
    match ask(s, g, x, given, lent.shared()) {
        Err(no) => s.refused(no),
        Ok(bodies) => step_asked(s, g, x, bodies, given, lent),
    }
}
