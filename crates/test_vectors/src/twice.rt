// The file of a vector is lowered with the memory that the desk lends. What is written, if reading accepts it, is lowered again with just the
// rows and bytes that it has, and must come out as it went in; with one byte less of output it must be refused.
use figures::FinalFigures;
use meaning::{Reason, Refusal};
use std::io;
use tables::{record, scope, symbol};
use test_lines::lines::Seen;
use test_lines::{lines, memory};

// What the desk lends.
const RECORDS: usize = 4096;

const SCOPES: usize = 1024;

const SYMBOLS: usize = 1024;

// ---- the second lowering

// With an output of so many bytes, which is enough: the file itself, its figures and no context;
fn agrees_with(
    first: FinalFigures,
    file: &[u8],
    records: &mut [u16],
    scopes: &mut [u16],
    symbols: &mut [u16],
    n: usize,
) -> bool {
    let mut out = [0u8; memory::LARGE];
    if out.len() < n {
        return false;
    }
    let figures = FinalFigures {
        contexts: 0,
        ..first
    };
    let answer = lowering::lower(file, records, scopes, symbols, &mut out[..n]);
    answer == Ok(figures) && file == &out[..n]
}

// and is too short.
fn agrees_short(
    file: &[u8],
    records: &mut [u16],
    scopes: &mut [u16],
    symbols: &mut [u16],
    n: usize,
) -> bool {
    let mut out = [0u8; memory::LARGE];
    if out.len() < n {
        return false;
    }
    let refusal = Refusal {
        reason: Reason::ShortOutput,
        place: n,
    };
    lowering::lower(file, records, scopes, symbols, &mut out[..n]) == Err(refusal)
}

// With so many rows.
fn agrees_again(first: FinalFigures, file: &[u8], r: usize, s: usize, y: usize) -> bool {
    let mut records = [0u16; RECORDS * record::NUMBERS];
    let mut scopes = [0u16; SCOPES * scope::LENT];
    let mut symbols = [0u16; SYMBOLS * symbol::LENT];
    let n = file.len();
    if RECORDS < r || SCOPES < s || SYMBOLS < y || n == 0 {
        return false;
    }
    let records = &mut records[..(r * record::NUMBERS)];
    let scopes = &mut scopes[..(s * scope::LENT)];
    let symbols = &mut symbols[..(y * symbol::LENT)];
    agrees_with(first, file, records, scopes, symbols, n)
        && agrees_short(file, records, scopes, symbols, n - 1)
}

// ---- the first

// A file that reading does not accept, since it has grown too long or too deep, is not counted.
fn add_written(rt: &impl Print, first: FinalFigures, file: &[u8], seen: Seen) -> io::Result<Seen> {
    if checking::check(file).is_err() {
        return Ok(seen);
    }
    let agrees = agrees_again(
        first,
        file,
        first.records as usize,
        first.scopes as usize,
        first.symbols as usize,
    );
    lines::add(rt, seen, agrees)
}

fn add_file(rt: &impl Print, file: &[u8], seen: Seen) -> io::Result<Seen> {
    let mut records = [0u16; RECORDS * record::NUMBERS];
    let mut scopes = [0u16; SCOPES * scope::LENT];
    let mut symbols = [0u16; SYMBOLS * symbol::LENT];
    let mut out = [0u8; memory::LARGE];
    match lowering::lower(file, &mut records, &mut scopes, &mut symbols, &mut out) {
        Ok(g) => add_written(rt, g, lines::part(&out, 0, g.bytes as usize), seen),
        Err(_) => Ok(seen),
    }
}

// ---- the files of lines

// From a place on, in hexadecimal digits; of a lowering, behind its memory.
pub fn add_digits(rt: &impl Print, line: &[u8], at: usize, seen: Seen) -> io::Result<Seen> {
    let mut buffer = [0u8; memory::LARGE];
    let n = lines::read_hex(line, at, &mut buffer);
    add_file(rt, lines::part(&buffer, 0, n), seen)
}

pub fn add_lowering(rt: &impl Print, line: &[u8], seen: Seen) -> io::Result<Seen> {
    add_digits(rt, line, lines::behind(line, 0, b'|'), seen)
}

fn add_notation(rt: &impl Print, text: &[u8], seen: Seen) -> io::Result<Seen> {
    let mut buffer = [0u8; memory::LARGE];
    let n = notation::encode(text, &mut buffer);
    add_file(rt, lines::part(&buffer, 0, n), seen)
}

// Of a walk, its first line.
pub fn add_walk(rt: &impl Print, line: &[u8], seen: Seen) -> io::Result<Seen> {
    if lines::byte(line, 0) != b'f' {
        return Ok(seen);
    }
    let from = lines::behind(line, 0, b' ');
    add_notation(rt, lines::part(line, from, line.len()), seen)
}

// Of the corners, all but headings and the file that is too long.
pub fn add_corner(rt: &impl Print, line: &[u8], seen: Seen) -> io::Result<Seen> {
    match lines::byte(line, 0) {
        b'#' | b'z' => Ok(seen),
        _ => add_notation(rt, line, seen),
    }
}
