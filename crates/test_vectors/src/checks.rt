// A line is `FILE|CHECK|FIGURES`: a file, and the answers of `check` and `figures`. An answer is `refused NUMBER PLACE` or `ok`, for `figures`
// with records, scopes, symbols, contexts and bytes.
use figures::FinalFigures;
use test_lines::{lines, memory};

fn check_agrees(file: &[u8], line: &[u8], at: usize) -> bool {
    match checking::check(file) {
        Ok(()) => lines::is_fine(line, at),
        Err(refusal) => lines::same_refusal_at(line, at, refusal),
    }
}

fn same_figures(line: &[u8], at: usize, g: FinalFigures) -> bool {
    let bytes = lines::behind_figures(line, at, g);
    bytes != 0 && (lines::read_number(line, bytes).value as u64) == g.bytes
}

fn figures_agree(file: &[u8], line: &[u8], at: usize) -> bool {
    match checking::figures(file) {
        Ok(figures) => same_figures(line, at, figures),
        Err(refusal) => lines::same_refusal_at(line, at, refusal),
    }
}

pub fn agrees(line: &[u8]) -> bool {
    let mut buffer = [0u8; memory::LARGE];
    let n = lines::read_hex(line, 0, &mut buffer);
    let file = lines::part(&buffer, 0, n);
    let check = lines::behind(line, 0, b'|');
    check_agrees(file, line, check) && figures_agree(file, line, lines::behind(line, check, b'|'))
}
