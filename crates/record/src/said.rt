// What is said on standard error: a line each, written at once.
use std::env::Env;
use std::io;
use text::{put, put_decimal};

// The longest line: a name of 4,095 bytes, and words.
const LINE_SIZE: usize = 4608;

// A line that can't be written is lost.
fn say(rt: &HostRuntime, line: &[u8], end: usize) {
    let n = end.min(line.len());
    let _ = rt.stderr().write_all(&line[0..n]);
}

fn put_name(name: &[u8], line: &mut [u8]) -> usize {
    let a = put(b"record: ", line, 0);
    put(name, line, a)
}

pub(crate) fn expected(rt: &HostRuntime) {
    let line =
        b"record: expected FILE N T: a disk's bytes, its journal blocks, the greatest table length\n";
    say(rt, line, line.len());
}

// The name, some words and argument i, cut where it is long.
pub(crate) fn not_number(rt: &HostRuntime, name: &[u8], words: &[u8], i: usize) {
    let mut word = [0u8; 64];
    let mut line = [0u8; LINE_SIZE];
    let a = put_name(name, &mut line);
    let b = put(words, &mut line, a);
    match rt.arg(i, &mut word) {
        Ok(n) => {
            let c = put(&word[..n], &mut line, b);
            let end = put(b"\n", &mut line, c);
            say(rt, &line, end);
        },
        Err(_) => {
            let c = put(&word, &mut line, b);
            let end = put(b"..\n", &mut line, c);
            say(rt, &line, end);
        },
    }
}

pub(crate) fn too_many(rt: &HostRuntime, name: &[u8]) {
    let mut line = [0u8; LINE_SIZE];
    let a = put_name(name, &mut line);
    let end = put(
        b": N is at most 256 here; the library takes up to 4096 (docs/LINKING.md)\n",
        &mut line,
        a,
    );
    say(rt, &line, end);
}

pub(crate) fn too_short(rt: &HostRuntime, name: &[u8], len: usize, blocks: u64, size: usize) {
    let mut line = [0u8; LINE_SIZE];
    let a = put_name(name, &mut line);
    let b = put(b" has ", &mut line, a);
    let c = put_decimal(len as u64, &mut line, b);
    let d = put(b" bytes, and N = ", &mut line, c);
    let e = put_decimal(blocks, &mut line, d);
    let f = put(b" takes ", &mut line, e);
    let g = put_decimal(size as u64, &mut line, f);
    let end = put(b"\n", &mut line, g);
    say(rt, &line, end);
}

// The system's words for an error, without the number that std puts behind them. No words where memory is short.
fn put_words(rt: &HostRuntime, error: io::Error, line: &mut [u8], at: usize) -> usize {
    let Ok(said) = format!(in rt.alloc(); "{error}") else {
        return at;
    };
    let all = said.as_str();
    match all.split_once(" (os error ") {
        Some((words, _)) => put(words.as_bytes(), line, at),
        None => put(all.as_bytes(), line, at),
    }
}

// The name, and the system's words for what just failed.
pub(crate) fn failed(rt: &HostRuntime, name: &[u8], error: io::Error) {
    let mut line = [0u8; LINE_SIZE];
    let a = put_name(name, &mut line);
    let b = put(b": ", &mut line, a);
    let c = put_words(rt, error, &mut line, b);
    let end = put(b"\n", &mut line, c);
    say(rt, &line, end);
}

// The same of an argument that is no name: it is longer than any.
pub(crate) fn no_name(rt: &HostRuntime, i: usize) {
    let mut line = [0u8; 64];
    let a = put(b"record: argument ", &mut line, 0);
    let b = put_decimal(i as u64, &mut line, a);
    let end = put(b": File name too long\n", &mut line, b);
    say(rt, &line, end);
}

pub(crate) fn not_written(rt: &HostRuntime) {
    let line = b"record: the rows can't be written\n";
    say(rt, line, line.len());
}
