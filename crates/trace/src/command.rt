// A line as a step of the store.
use super::{brought, figures};
use calls::Step;
use layout::Location;
use words::Word;

// A step of its own, or the one that the loading driver names.
#[derive(Clone, Copy)]
pub(crate) enum Command {
    Take(Step),
    Drive,
}

fn alone(line: &[u8], w: Word) -> Option<Step> {
    if words::is(line, w, b"f1") {
        return Some(Step::FinishLoadingSuperblockPhase);
    }
    if words::is(line, w, b"f2") {
        return Some(Step::FinishLoadingOtherPhase);
    }
    if words::is(line, w, b"freeze") {
        return Some(Step::Freeze);
    }
    if words::is(line, w, b"noop") {
        return Some(Step::NoOp);
    }
    if words::is(line, w, b"crash") {
        return Some(Step::CrashInPlace);
    }
    None
}

// Requests and answers of writes, and commits.
fn with_write(line: &[u8], w: Word, id: u64) -> Option<Step> {
    if words::is(line, w, b"wj") {
        return Some(Step::WriteBackJournalReq { id1: id, id2: None });
    }
    if words::is(line, w, b"aj") {
        return Some(Step::WriteBackJournalResp { id });
    }
    if words::is(line, w, b"cl") {
        return Some(Step::AdvanceLog { id });
    }
    if words::is(line, w, b"co") {
        return Some(Step::AdvanceLocation { id });
    }
    if words::is(line, w, b"ac") {
        return Some(Step::WriteBackSuperblockResp { id });
    }
    None
}

fn with_number(line: &[u8], w: Word, n: u64) -> Option<Step> {
    if words::is(line, w, b"ar") {
        return Some(Step::PageInJournalResp { id: n, whole: true });
    }
    if words::is(line, w, b"xr") {
        return Some(Step::PageInJournalResp {
            id: n,
            whole: false,
        });
    }
    if words::is(line, w, b"push") {
        return Some(Step::PushSyncReq { id: n });
    }
    if words::is(line, w, b"pop") {
        return Some(Step::PopSyncReq { id: n });
    }
    if words::is(line, w, b"again") {
        return Some(Step::AskAgain { which: n });
    }
    if words::is(line, w, b"land") {
        return Some(Step::Land { which: n });
    }
    with_write(line, w, n)
}

fn with_two(line: &[u8], w: Word, a: u64, b: u64) -> Option<Step> {
    if words::is(line, w, b"wj") {
        return Some(Step::WriteBackJournalReq {
            id1: a,
            id2: Some(b),
        });
    }
    if words::is(line, w, b"rs") {
        return Some(Step::PageInSuperblockReq { which: a, id: b });
    }
    if words::is(line, w, b"as") {
        return Some(Step::PageInSuperblockResp {
            which: a,
            id: b,
            whole: true,
        });
    }
    if words::is(line, w, b"xs") {
        return Some(Step::PageInSuperblockResp {
            which: a,
            id: b,
            whole: false,
        });
    }
    if words::is(line, w, b"rj") {
        return Some(Step::PageInJournalReq { which: a, id: b });
    }
    if words::is(line, w, b"loc") {
        let loc = Location { addr: a, len: b };
        return Some(Step::ReceiveFrozenLoc { loc });
    }
    None
}

// Every step but those that bring entries.
fn with_numbers(line: &[u8], w: Word) -> Option<Command> {
    let n = figures::read_numbers(line, w.to)?;
    let a = n.values[0];
    let b = n.values[1];
    if n.count == 0 && words::is(line, w, b"drive") {
        return Some(Command::Drive);
    }
    let step = match n.count {
        0 => alone(line, w)?,
        1 => with_number(line, w, a)?,
        2 => with_two(line, w, a, b)?,
        _ => return None,
    };
    Some(Command::Take(step))
}

// The step of a line, if it is one; the entries that it brings go to `brought` and `sizes`.
pub(crate) fn parse(line: &[u8], brought: &mut [u8], sizes: &mut [u16]) -> Option<Command> {
    let w = words::next_word(line, 0);
    if words::is(line, w, b"add") {
        let entries = brought::read_entries(line, w.to, brought, sizes)?;
        return Some(Command::Take(Step::Advance { entries }));
    }
    if words::is(line, w, b"replay") {
        let entries = brought::read_entries(line, w.to, brought, sizes)?;
        return Some(Command::Take(Step::Replay { entries }));
    }
    with_numbers(line, w)
}
