// A step of the store with its arguments: machine steps in the order of 000's Step, ask again, landings, crashes.
use layout::Location;

// What a call brings beside its arguments: entries, and the picture of a crash.
#[derive(Clone, Copy)]
pub struct Given<'a> {
    pub brought: &'a [u8],
    pub sizes: &'a [u16],
    pub picture: &'a [u8],
    pub pictured: &'a [u8],
}

// A call with its arguments; a read's answer says whether it is whole.
#[derive(Clone, Copy)]
pub enum Step {
    WriteBackJournalReq { id1: u64, id2: Option<u64> },
    WriteBackJournalResp { id: u64 },
    AdvanceLog { id: u64 },
    AdvanceLocation { id: u64 },
    WriteBackSuperblockResp { id: u64 },
    PageInJournalReq { which: u64, id: u64 },
    PageInJournalResp { id: u64, whole: bool },
    PageInSuperblockReq { which: u64, id: u64 },
    PageInSuperblockResp { which: u64, id: u64, whole: bool },
    FinishLoadingSuperblockPhase,
    FinishLoadingOtherPhase,
    Freeze,
    ReceiveFrozenLoc { loc: Location },
    Advance { entries: u64 },
    Replay { entries: u64 },
    PushSyncReq { id: u64 },
    PopSyncReq { id: u64 },
    NoOp,
    AskAgain { which: u64 },
    Land { which: u64 },
    // The crash whose blocks and marks under writes in flight come from the picture.
    Crash,
    // The crash whose picture is the disk's own content.
    CrashInPlace,
}
