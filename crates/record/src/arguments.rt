// The arguments: a file, N and T for each disk.
use super::said;
use layout::Geometry;
use std::env::{Env, FillError};
use words::Word;

const MOST_BLOCKS: u64 = 256;

// An argument that is longer than no bytes is there too.
fn is_missing(rt: &HostRuntime, i: usize) -> bool {
    let mut none = [0u8; 0];
    matches!(rt.arg(i, &mut none), Err(FillError::NotPresent))
}

// How many arguments there are, the program's own name among them.
fn count(rt: &HostRuntime) -> usize {
    for i in 0..usize::MAX {
        if is_missing(rt, i) {
            return i;
        }
    }
    usize::MAX
}

// How many disks are named: none where it isn't three arguments for each.
pub(crate) fn disk_count(rt: &HostRuntime) -> usize {
    let n = count(rt);
    if n < 4 || (n - 1) % 3 != 0 {
        return 0;
    }
    (n - 1) / 3
}

// The number from 1 to `most` that argument i says, if it says one.
fn number(rt: &HostRuntime, i: usize, most: u64) -> Option<u64> {
    let mut word = [0u8; 64];
    let Ok(n) = rt.arg(i, &mut word) else {
        return None;
    };
    let all = Word { from: 0, to: n };
    let v = words::decimal(&word[..n], all)?;
    if 0 < v && v <= most {
        return Some(v);
    }
    None
}

// N and T of the disk whose file is argument i; none where a line said which number is wrong.
pub(crate) fn geometry(rt: &HostRuntime, i: usize, name: &[u8]) -> Option<Geometry> {
    let j = i.saturating_add(1);
    let k = i.saturating_add(2);
    let Some(blocks) = number(rt, j, Geometry::MOST_BLOCKS) else {
        said::not_number(rt, name, b": N is a number from 1 to 4096, not ", j);
        return None;
    };
    if MOST_BLOCKS < blocks {
        said::too_many(rt, name);
        return None;
    }
    let Some(table) = number(rt, k, Geometry::MOST_TABLE) else {
        said::not_number(rt, name, b": T is a number from 1 to 16777216, not ", k);
        return None;
    };
    Some(Geometry { blocks, table })
}
