// Input by the buffer. The public face:
//   read_full          as much as a buffer holds
//   Input, read_input  the same, and whether the input goes on
#![tactic(auto)]

ghost use Rattle.std.specs.Prelude.{take, length, true, false, ◌≡◌};
ghost use Rattle.std.specs.Io.KnownBytes.{Consumes};
ghost use Rattle.io.specs.Counts.{IsPrefixLen};

use std::io::Read;

// Reads until the buffer is full, the input ends or a read fails, and answers how many bytes it put at the buffer's start. On an empty buffer it
// reads nothing.
pub fn read_full<R: Read>(reader: &mut R, buffer: &mut [u8]) -> usize
    ensures count { IsPrefixLen result buffer.new }
    ensures bytes { Consumes (R.remaining reader.old) (R.remaining reader.new) (take result buffer.new) }
{
    let mut done = 0;
    while done < buffer.len() {
        let read = reader.read(&mut buffer[done..]);
        let Ok(n) = read else {
            return done;
        };
        if n == 0 {
            return done;
        }
        done += n;
    }
    done
}

// So many bytes at a buffer's start; `more`: the input goes on after them; `failed`: a read failed, so that they may not be all.
#[derive(Clone, Copy)]
pub struct Input {
    pub len: usize,
    pub more: bool,
    pub failed: bool,
}

// A read that fails and the input's end both leave the buffer short: one more read tells them apart. It brings nothing at the end.
pub fn read_input<R: Read>(reader: &mut R, buffer: &mut [u8]) -> Input
    ensures count { IsPrefixLen result.len buffer.new }
    ensures whole { result.failed ≡ false → result.more ≡ true → result.len ≡ length buffer.new }
{
    let len = read_full(reader, buffer);
    let short = len < buffer.len();
    let mut next = [0u8; 1];
    match reader.read(&mut next) {
        Ok(n) => Input {
            len,
            more: 0 < n,
            failed: short && 0 < n,
        },
        Err(_) => Input {
            len,
            more: false,
            failed: true,
        },
    }
}
