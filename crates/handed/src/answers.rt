// What the disk alone and the store answer when they are told that write 1 is answered.
use super::line::Handed;
use super::state;
use refusal::number_of;
use store::Lent;

const FIRST: u64 = 1;

pub(crate) fn of_disk(h: Handed) -> u8 {
    let blocks = [0u8; 32768];
    let marks = [1u8; 8];
    let d = state::disk(h);
    let r = d.ack_write_journal(state::geometry(), FIRST, &blocks, &marks);
    number_of(&r.answer)
}

pub(crate) fn of_store(h: Handed) -> u8 {
    let bytes = [0u8; 65536];
    let lens = [0u16; 1024];
    let pieces = [0u8; 32768];
    let rbytes = [0u8; 32768];
    let rlens = [0u16; 32768];
    let blocks = [0u8; 32768];
    let marks = [1u8; 8];
    let machine = machine::Lent {
        bytes: &bytes,
        lens: &lens,
        pieces: &pieces,
        rbytes: &rbytes,
        rlens: &rlens,
    };
    let lent = Lent {
        machine,
        blocks: &blocks,
        marks: &marks,
    };
    let s = state::store(h);
    let r = steps::write_back_journal_resp(s, state::geometry(), FIRST, lent);
    number_of(&r.answer)
}
