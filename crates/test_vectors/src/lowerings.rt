// A line is `R S Y OUT|FILE|ANSWER`: the rows and output bytes that are lent, a file, and what `lower` answers: `refused NUMBER PLACE`, or `ok`
// with records, scopes, symbols, contexts and the written file.
use tables::{record, scope, symbol};
use test_lines::{lines, memory};

// The memory stands on the stack, as a caller without a heap would lend it: the rows of the desk, and some numbers more that make no row.
const RECORDS: usize = 4096;

const SCOPES: usize = 1024;

const SYMBOLS: usize = 1024;

// ---- a lowering

fn replay(
    file: &[u8],
    line: &[u8],
    at: usize,
    records: &mut [u16],
    scopes: &mut [u16],
    symbols: &mut [u16],
    out: &mut [u8],
) -> bool {
    memory::fill_numbers(records);
    memory::fill_numbers(scopes);
    memory::fill_numbers(symbols);
    memory::fill_bytes(out);
    match lowering::lower(file, records, scopes, symbols, out) {
        Ok(figures) => {
            memory::written_agrees(line, at, figures, out)
                && memory::all_tables(records, scopes, symbols, 0)
        }
        Err(refusal) => {
            memory::refusal_agrees(line, at, refusal, out)
                && memory::all_tables(records, scopes, symbols, memory::NUMBER)
        }
    }
}

// With so many rows, and some numbers more that make no row.
fn replay_lent(
    file: &[u8],
    line: &[u8],
    at: usize,
    r: usize,
    s: usize,
    y: usize,
    out: &mut [u8],
) -> bool {
    let mut records = [0u16; RECORDS * record::NUMBERS + record::NUMBERS];
    let mut scopes = [0u16; SCOPES * scope::LENT + scope::LENT];
    let mut symbols = [0u16; SYMBOLS * symbol::LENT + symbol::LENT];
    if RECORDS < r || SCOPES < s || SYMBOLS < y {
        return false;
    }
    replay(
        file,
        line,
        at,
        &mut records[..(r * record::NUMBERS + r % record::NUMBERS)],
        &mut scopes[..(s * scope::LENT + s % scope::LENT)],
        &mut symbols[..(y * symbol::LENT + y % symbol::LENT)],
        out,
    )
}

// With so many output bytes.
fn replay_file(file: &[u8], line: &[u8], at: usize) -> bool {
    let mut out = [0u8; memory::LARGE];
    let records = lines::read_number(line, 0);
    let scopes = lines::read_number(line, records.next);
    let symbols = lines::read_number(line, scopes.next);
    let bytes = lines::read_number(line, symbols.next).value;
    if out.len() < bytes {
        return false;
    }
    replay_lent(
        file,
        line,
        at,
        records.value,
        scopes.value,
        symbols.value,
        &mut out[..bytes],
    )
}

pub fn agrees(line: &[u8]) -> bool {
    let mut buffer = [0u8; memory::LARGE];
    let file = lines::behind(line, 0, b'|');
    let n = lines::read_hex(line, file, &mut buffer);
    replay_file(
        lines::part(&buffer, 0, n),
        line,
        lines::behind(line, file, b'|'),
    )
}
