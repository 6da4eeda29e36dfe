// A file's bytes.
use super::said;
use std::fs::File;
use std::io;
use std::io::Read;

// The error of a name that isn't UTF-8, by which std opens no file: Linux's "Invalid or incomplete multibyte or wide character".
const EILSEQ: i32 = 84;

fn open(rt: &HostRuntime, name: &[u8]) -> io::Result<File> {
    match str::from_utf8(name) {
        Ok(path) => File::open(rt, path),
        Err(_) => Err(io::Error::from_raw_os_error(EILSEQ)),
    }
}

// Bytes to the front of `disk` until it is full or the file ends: how many.
fn read(file: &mut File, disk: &mut [u8]) -> io::Result<usize> {
    let mut len = 0;
    while len < disk.len() {
        let n = file.read(&mut disk[len..])?;
        if n == 0 {
            break;
        }
        len += n;
    }
    Ok(len)
}

// Are the disk's bytes all there? Else a line says why not.
fn told(rt: &HostRuntime, read: io::Result<usize>, name: &[u8], blocks: u64, size: usize) -> bool {
    match read {
        Ok(len) => {
            if len < size {
                said::too_short(rt, name, len, blocks, size);
                return false;
            }
            true
        },
        Err(error) => {
            said::failed(rt, name, error);
            false
        },
    }
}

// The first bytes of a file to `disk`, as many as it has: are they there?
pub(crate) fn load(rt: &HostRuntime, name: &[u8], blocks: u64, disk: &mut [u8]) -> bool {
    match open(rt, name) {
        Ok(mut file) => {
            let len = read(&mut file, disk);
            told(rt, len, name, blocks, disk.len())
        },
        Err(error) => {
            said::failed(rt, name, error);
            false
        },
    }
}
