// What a disk and a store answer to a state that is handed in, with journal writes in flight that no calls from `Init` lead to: a line of input is a
// store, a row of output what two calls came to. docs/HANDED.md has both, and what is said on standard error.
#![tactic(auto)]

mod answers;
mod line;
mod row;
mod state;

// The place of the next line, the number of the last one, and whether every row was written.
#[derive(Clone, Copy)]
pub struct Lines {
    pub at: usize,
    pub row: u64,
    pub written: bool,
}

// One line and its row; nothing where the input is over, or a row could not be written.
fn turn(rt: &impl Print, l: Lines, input: &[u8]) -> Lines {
    let from = l.at;
    if input.len() <= from || !l.written {
        return l;
    }
    let end = words::next(input, from, input.len(), b'\n');
    if end < from || input.len() < end {
        return l;
    }
    let n = l.row.saturating_add(1);
    let handed = line::read(&input[from..end]);
    Lines {
        at: end.saturating_add(1),
        row: n,
        written: row::answer(rt, n, handed),
    }
}

// Each turn takes one line; there are no more lines than bytes.
fn run(rt: &impl Print, input: &[u8]) -> bool {
    let written = println!(rt; "n d s").is_ok();
    let mut l = Lines {
        at: 0,
        row: 0,
        written,
    };
    for _ in 0..input.len() {
        l = turn(rt, l, input);
    }
    l.written
}

fn main(rt: HostRuntime) {
    let mut buffer = [0u8; 65536];
    let i = streams::read_input(&mut rt.stdin(), &mut buffer);
    if i.failed {
        let _ = eprintln!(rt; "handed: standard input can't be read");
        return;
    }
    if i.more {
        let _ = eprintln!(rt;
            "handed: the input is longer than 65536 bytes: no line of it was read"
        );
        return;
    }
    let end = i.len.min(buffer.len());
    let written = run(&rt, &buffer[0..end]);
    if !written {
        let _ = eprintln!(rt; "handed: the rows can't be written");
    }
}
