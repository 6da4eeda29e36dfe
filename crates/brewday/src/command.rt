// A line as a step of the store.
use calls::Step;
use words::Word;

fn with_id(input: &[u8], w: Word, id: u64) -> Option<Step> {
    if words::is(input, w, b"wj") {
        return Some(Step::WriteBackJournalReq { id1: id, id2: None });
    }
    if words::is(input, w, b"aj") {
        return Some(Step::WriteBackJournalResp { id });
    }
    if words::is(input, w, b"cl") {
        return Some(Step::AdvanceLog { id });
    }
    if words::is(input, w, b"land") {
        return Some(Step::Land { which: id });
    }
    None
}

fn with_slot(input: &[u8], w: Word, which: u64, id: u64) -> Option<Step> {
    if words::is(input, w, b"rs") {
        return Some(Step::PageInSuperblockReq { which, id });
    }
    if words::is(input, w, b"as") {
        return Some(Step::PageInSuperblockResp {
            which,
            id,
            whole: true,
        });
    }
    None
}

fn alone(input: &[u8], w: Word) -> Option<Step> {
    if words::is(input, w, b"f1") {
        return Some(Step::FinishLoadingSuperblockPhase);
    }
    if words::is(input, w, b"f2") {
        return Some(Step::FinishLoadingOtherPhase);
    }
    if words::is(input, w, b"crash") {
        return Some(Step::CrashInPlace);
    }
    None
}

fn put(sizes: &mut [u16], k: u16) {
    if 0 < sizes.len() {
        sizes[0] = k;
    }
}

// The entry of an add: its bytes to `brought`, its length to `sizes`.
fn entry(input: &[u8], hex: Word, brought: &mut [u8], sizes: &mut [u16]) -> Option<Step> {
    let k = words::hex(input, hex, brought, 0)?;
    if 255 < k {
        return None;
    }
    put(sizes, k as u16);
    Some(Step::Advance { entries: 1 })
}

fn two_words(
    input: &[u8],
    w: Word,
    second: Word,
    brought: &mut [u8],
    sizes: &mut [u16],
) -> Option<Step> {
    if words::is(input, w, b"add") {
        return entry(input, second, brought, sizes);
    }
    let id = words::decimal(input, second)?;
    with_id(input, w, id)
}

fn three_words(input: &[u8], w: Word, second: Word, third: Word) -> Option<Step> {
    let which = words::decimal(input, second)?;
    let id = words::decimal(input, third)?;
    with_slot(input, w, which, id)
}

// The word from a place up to the next space, or to the line's end.
fn word_from(input: &[u8], from: usize, end: usize) -> Word {
    let to = words::next(input, from, end, 32);
    Word { from, to }
}

// The command of the line from one place up to another. Single spaces lie between its words; the third word is the rest of the line.
pub(crate) fn parse(
    input: &[u8],
    from: usize,
    end: usize,
    brought: &mut [u8],
    sizes: &mut [u16],
) -> Option<Step> {
    let first = word_from(input, from, end);
    if end <= first.to {
        return alone(input, first);
    }
    let second = word_from(input, first.to + 1, end);
    if end <= second.to {
        return two_words(input, first, second, brought, sizes);
    }
    let third = Word {
        from: second.to + 1,
        to: end,
    };
    three_words(input, first, second, third)
}
