// The disk's bytes at the day's end, to the file that an argument names.
use super::lent::{MOST_BYTES, Memory};
use image::write_image;
use journal::bytes_of;
use layout::Geometry;
use requests::Slots;
use std::env::{Env, FillError};
use std::fs::File;
use std::io;
use std::io::Write;
use text::put;

const HEAD_SIZE: usize = Geometry::JOURNAL_START_ADDR as usize;

// The error of a name that isn't UTF-8, by which std opens no file: Linux's "Invalid or incomplete multibyte or wide character".
const EILSEQ: i32 = 84;

// Is there an argument i? One that is longer than no bytes is there too.
fn has_argument(rt: &HostRuntime, i: usize) -> bool {
    let mut none = [0u8; 0];
    !matches!(rt.arg(i, &mut none), Err(FillError::NotPresent))
}

// A line that can't be written is lost.
fn say(rt: &HostRuntime, line: &[u8]) {
    let _ = rt.stderr().write_all(line);
}

// More arguments than one, which a line says.
pub(crate) fn are_too_many(rt: &HostRuntime) -> bool {
    if !has_argument(rt, 2) {
        return false;
    }
    say(
        rt,
        b"trace: expected at most one argument, a file for the disk's bytes\n",
    );
    true
}

// The system's words for an error, without the number that std puts behind them. No words where memory is short.
fn put_words(rt: &HostRuntime, error: io::Error, line: &mut [u8], at: usize) -> usize {
    let Ok(said) = format!(in rt.alloc(); "{error}") else {
        return at;
    };
    let all = said.as_str();
    match all.split_once(" (os error ") {
        Some((words, _)) => put(words.as_bytes(), line, at),
        None => put(all.as_bytes(), line, at),
    }
}

// The name, and the system's words for what just failed.
fn say_failed(rt: &HostRuntime, name: &[u8], error: io::Error) {
    let mut line = [0u8; 4224];
    let a = put(b"trace: ", &mut line, 0);
    let b = put(name, &mut line, a);
    let c = put(b": ", &mut line, b);
    let d = put_words(rt, error, &mut line, c);
    let end = put(b"\n", &mut line, d);
    let n = end.min(line.len());
    say(rt, &line[0..n]);
}

// The file, made where there is none, and empty.
fn overwrite(rt: &HostRuntime, name: &[u8]) -> io::Result<File> {
    match str::from_utf8(name) {
        Ok(path) => File::create(rt, path),
        Err(_) => Err(io::Error::from_raw_os_error(EILSEQ)),
    }
}

fn write_file(rt: &HostRuntime, name: &[u8], bytes: &[u8]) {
    match overwrite(rt, name) {
        Ok(mut file) => {
            if file.write_all(bytes).is_err() {
                say(rt, b"trace: the disk's bytes can't be written\n");
            }
        },
        Err(error) => say_failed(rt, name, error),
    }
}

// To the file that the argument names; one that is too long names none.
fn write_named(rt: &HostRuntime, bytes: &[u8]) {
    let mut name = [0u8; 4095];
    let Ok(n) = rt.arg(1, &mut name) else {
        say(rt, b"trace: argument 1: File name too long\n");
        return;
    };
    write_file(rt, &name[..n], bytes);
}

// The image of what the slots hold and of these blocks, to the front of `disk`: how long it is.
fn write_disk(g: Geometry, slots: Slots, blocks: &[u8], disk: &mut [u8]) -> usize {
    let end = (HEAD_SIZE + blocks.len().min(MOST_BYTES)).min(disk.len());
    let _ = write_image(g, slots.first, slots.second, blocks, &mut disk[0..end]);
    end
}

// By memory for 32 blocks.
fn keep_disk(rt: &HostRuntime, g: Geometry, slots: Slots, memory: &Memory) {
    let mut disk = [0u8; 139264];
    let blocks: &[u8] = &memory.blocks;
    let size = bytes_of(g.blocks, blocks.len());
    let n = write_disk(g, slots, &blocks[..size], &mut disk);
    let end = n.min(disk.len());
    write_named(rt, &disk[0..end]);
}

// Where an argument names a file, the disk's bytes go to it.
pub(crate) fn keep(rt: &HostRuntime, g: Geometry, slots: Slots, memory: &Memory) {
    if has_argument(rt, 1) {
        keep_disk(rt, g, slots, memory);
    }
}
