// The desk's program: a tree file from standard input, lowered to standard output, or its refusal.
//
// It lends 4,096 record rows, 1,024 scope rows, 1,024 symbol rows and 65,536 output bytes. One byte more is read than a file may have, so
// that a longer input is refused with 1. Where reading or writing fails, the program ends with that error.
#![tactic(auto)]

use std::io;
use std::io::Read;
use tables::{record, scope, symbol};

// The most bytes that are read.
const MOST_READ: u64 = 65536;

// The memory stands on the stack, as a caller without a heap would lend it.
fn lower(rt: &impl Print, file: &[u8]) -> io::Result<()> {
    let mut records = [0u16; 4096 * record::NUMBERS];
    let mut scopes = [0u16; 1024 * scope::LENT];
    let mut symbols = [0u16; 1024 * symbol::LENT];
    let mut out = [0u8; 65536];
    match lowering::lower(file, &mut records, &mut scopes, &mut symbols, &mut out) {
        Ok(figures) => rt.write_all(out.get(..(figures.bytes as usize)).unwrap_or_default()),
        Err(refusal) => println!(rt; "{refusal}"),
    }
}

fn main(rt: HostRuntime) -> io::Result<()> {
    let mut file = Vec::new(rt.alloc());
    rt.reader().take(MOST_READ).read_to_end(&mut file)?;
    lower(&rt, &file)
}
