// A line that begins with # is printed as it is, and one that begins with z is a file that is too long; any other is a file in the notation of 01, and
// an empty one the empty file. What comes of it is printed. The tables lent have 64 records, 24 scopes and 16 symbols, the output 724 bytes:
// enough for every case but those that show refusals 9 and 10.
use figures::FinalFigures;
use std::io;
use tables::{record, scope, symbol};
use test_lines::lines::Seen;
use test_lines::{lines, memory};

fn show_file(rt: &impl Print, name: &str, file: &[u8]) -> io::Result<()> {
    let space = if file.is_empty() { "" } else { " " };
    print!(rt; "  {name}:{space}")?;
    let mut text = [0u8; memory::LARGE];
    let n = notation::show(file, &mut text);
    lines::put(rt, lines::part(&text, 0, n))?;
    println!(rt;)
}

fn show_figures(rt: &impl Print, figures: FinalFigures) -> io::Result<()> {
    let FinalFigures {
        records,
        scopes,
        symbols,
        contexts,
        bytes,
    } = figures;
    println!(rt;
        "  figures: records {records}, scopes {scopes}, symbols {symbols}, contexts {contexts}, bytes {bytes}"
    )
}

fn show_lowered(rt: &impl Print, file: &[u8]) -> io::Result<()> {
    let mut records = [0u16; 64 * record::NUMBERS];
    let mut scopes = [0u16; 24 * scope::LENT];
    let mut symbols = [0u16; 16 * symbol::LENT];
    let mut out = [0u8; 724];
    match lowering::lower(file, &mut records, &mut scopes, &mut symbols, &mut out) {
        Ok(figures) => {
            show_file(rt, "out", lines::part(&out, 0, figures.bytes as usize))?;
            show_figures(rt, figures)
        }
        Err(refusal) => println!(rt; "  {refusal}"),
    }
}

fn show_case(rt: &impl Print, line: &[u8]) -> io::Result<()> {
    let mut buffer = [0u8; 4096];
    let n = notation::encode(line, &mut buffer);
    let file = lines::part(&buffer, 0, n);
    show_file(rt, "in", file)?;
    show_lowered(rt, file)
}

// A file that no line can hold: 65,536 zeros.
fn show_too_long(rt: &impl Print) -> io::Result<()> {
    show_lowered(rt, &[0u8; memory::LARGE])
}

// A heading is no file, and not counted.
pub fn show_line(rt: &impl Print, line: &[u8], seen: Seen) -> io::Result<Seen> {
    match lines::byte(line, 0) {
        b'#' => {
            lines::put(rt, line)?;
            println!(rt;)?;
            return Ok(seen);
        }
        b'z' => show_too_long(rt)?,
        _ => show_case(rt, line)?,
    }
    lines::add(rt, seen, true)
}
