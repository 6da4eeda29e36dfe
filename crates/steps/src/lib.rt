// The steps of a store, one function for each, whole. The public face, in the order of 000's Step:
//   write_back_journal_req, write_back_journal_resp, write_back_superblock_req_advance_log, write_back_superblock_req_advance_location,
//   write_back_superblock_resp, page_in_journal_req, page_in_journal_resp, page_in_superblock_req, page_in_superblock_resp,
//   finish_loading_superblock_phase, finish_loading_other_phase, freeze, receive_frozen_loc, advance, replay, push_sync_req, pop_sync_req, no_op;
//   then ask_again, land, crash, crash_in_place
// Each asks questions 1 and 2 once, of all that it is handed, then the machine's, then the disk's; lent memory is altered after the last yes. A
// refusal hands the store back and alters no lent byte. A slice that is lent shared is one that the step never alters. Every function is total.
#![tactic(auto, using(refusal::specs::Refusal::questions, refusal::specs::Refusal::unless_no, refusal::specs::Refusal::unless_yes), unfolding(laws::specs::Choice::and_then, laws::specs::Choice::unless, store::specs::Whole::asked, store::specs::Whole::ask_crash))]

mod load_steps;
mod outside_steps;
mod work_steps;

pub use load_steps::{
    ask_again, finish_loading_other_phase, finish_loading_superblock_phase, page_in_journal_req,
    page_in_journal_resp, page_in_superblock_req, page_in_superblock_resp,
};
pub use outside_steps::{crash, crash_in_place, land};
pub use work_steps::{
    advance, freeze, no_op, pop_sync_req, push_sync_req, receive_frozen_loc, replay,
    write_back_journal_req, write_back_journal_resp, write_back_superblock_req_advance_location,
    write_back_superblock_req_advance_log, write_back_superblock_resp,
};
