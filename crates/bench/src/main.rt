// Checks the file on standard input, takes its figures and lowers it, a hundred times each, and prints what came of it. For measuring.
#![tactic(auto)]

use std::io;
use std::io::Read;

const TIMES: u32 = 100;

// The most bytes that are read.
const MOST_READ: u64 = 65536;

// What the last call of a hundred answers.
fn repeated<F: FnMut() -> u64>(mut call: F) -> u64
    requires { F.IsAlwaysCallable call }
{
    let mut answer = 0;
    for _ in 0..TIMES {
        answer = call();
    }
    answer
}

// 1 if the file is fine.
fn check(file: &[u8]) -> u64 {
    repeated(|| u64::from(checking::check(file).is_ok()))
}

// The final number of records, or 0.
fn figures(file: &[u8]) -> u64 {
    repeated(|| checking::figures(file).map_or(0, |figures| figures.records))
}

// The length written, or 0. The memory stands on the stack, as a caller without a heap would lend it.
fn lower(file: &[u8]) -> u64 {
    let mut records = [0u16; 150000];
    let mut scopes = [0u16; 30720];
    let mut symbols = [0u16; 32768];
    let mut out = [0u8; 262144];
    repeated(|| {
        lowering::lower(file, &mut records, &mut scopes, &mut symbols, &mut out).map_or(
            0,
            |figures| figures.bytes,
        )
    })
}

fn main(rt: HostRuntime) -> io::Result<()> {
    let mut file = Vec::new(rt.alloc());
    rt.reader().take(MOST_READ).read_to_end(&mut file)?;
    println!(rt;
        "fine {}, records when lowered {}, bytes written {}",
        check(&file),
        figures(&file),
        lower(&file),
    )
}
