// The row of a line.
use super::answers;
use super::line::Handed;

fn print(rt: &impl Print, n: u64, d: u8, s: u8) -> bool {
    println!(rt; "{n} {d} {s}").is_ok()
}

fn not_a_store(rt: &impl Print, n: u64) -> bool {
    println!(rt; "line {n} is not a store").is_ok()
}

// Was it written?
pub(crate) fn answer(rt: &impl Print, n: u64, handed: Option<Handed>) -> bool {
    match handed {
        Some(h) => print(rt, n, answers::of_disk(h), answers::of_store(h)),
        None => not_a_store(rt, n),
    }
}
