// The memory lent to `lower`, filled before a call and compared after it; and memory that is allocated, with the calls on it.
ghost use Rattle.std.specs.Prelude.{◌≡◌, ◌&&◌, List, [], ◌∷◌, ℕ, nat_eq, take, drop, ◌*◌, ◌+◌, ◌%◌, ◌<◌, ◌^◌, ◌↔◌, length, replicate, IfOk, IfSome, IsSome, IsTrue};
ghost use Rattle.std.specs.List.{starts_with};
ghost use Rattle.test_lines.specs.Told.{filled_number, filled_byte, all_are, IsNumberText, Tells};
ghost use Rattle.tables.specs.Columns.RecordTable;
ghost use Rattle.tables.specs.Columns.ScopeTable;
ghost use Rattle.tables.specs.Columns.SymbolTable;
ghost use Rattle.path.specs.Path.{tables};
ghost use Rattle.start.specs.Start.{begun, start_f};
ghost use Rattle.walk.specs.Call.{visit_call_f};
ghost use Rattle.lowering.specs.Lower.{finished, lower_f};

use crate::lines;
use figures::FinalFigures;
use meaning::Refusal;
use path::Walk;
use std::alloc::{AllocError, Global};
use tables::{record, scope, symbol};

// A file has fewer bytes. So many are lent for a file, for what is written and for its text.
pub const LARGE: usize = 65536;

// What stands in the lent memory before a call.
pub const NUMBER: u16 = 43981;

const BYTE: u8 = 170;

// How many rows of each kind there are.
#[derive(Clone, Copy, Default, PartialEq, Eq)]
pub struct Rows {
    pub records: u16,
    pub scopes: u16,
    pub symbols: u16,
}

impl Rows {
    // Three numbers, as a line tells them.
    pub fn told(text: &str, separator: char) -> Option<Rows>
        ensures { IfSome result (λ rows. (last : List ℕ) × Tells separator text.now (rows.records ∷ rows.scopes ∷ []) last × IsNumberText last rows.symbols) }
    {
        let mut numbers = text.splitn(3, separator);
        Some(Rows {
            records: numbers.next()?.parse().ok()?,
            scopes: numbers.next()?.parse().ok()?,
            symbols: numbers.next()?.parse().ok()?,
        })
    }

    // Those of a lowered file, if tables can have so many.
    pub fn of(figures: FinalFigures) -> Option<Rows>
        ensures rows { IfSome result (λ r. (r.records ≡ figures.records) × (r.scopes ≡ figures.scopes) × (r.symbols ≡ figures.symbols)) }
        ensures found { IsSome result ↔ ((figures.records < 2 ^ 16) × (figures.scopes < 2 ^ 16) × (figures.symbols < 2 ^ 16)) }
    {
        Some(Rows {
            records: u16::try_from(figures.records).ok()?,
            scopes: u16::try_from(figures.scopes).ok()?,
            symbols: u16::try_from(figures.symbols).ok()?,
        })
    }
}

// ---- the lent memory

pub fn fill_numbers(table: &mut [u16]) {
    table.fill(NUMBER);
}

pub fn fill_bytes(out: &mut [u8]) {
    out.fill(BYTE);
}

fn all_numbers(table: &[u16], v: u16) -> bool
    ensures { result ≡ all_are v table.now }
{
    table.iter().all(|&x| x == v)
}

// Behind an offset the output is as it was.
fn kept_behind(out: &[u8], from: usize) -> bool
    ensures { result ≡ all_are filled_byte (drop from out.now) }
{
    out.iter().skip(from).all(|&x| x == BYTE)
}

pub fn all_tables(records: &[u16], scopes: &[u16], symbols: &[u16], v: u16) -> bool
    ensures { result ≡ (all_are v records.now && all_are v scopes.now && all_are v symbols.now) }
{
    all_numbers(records, v) && all_numbers(scopes, v) && all_numbers(symbols, v)
}

// ---- answers

// The output begins with the file expected, and is as it was behind it.
pub fn written_agrees(line: &[u8], at: usize, g: FinalFigures, out: &[u8]) -> bool {
    let file = lines::behind_figures(line, at, g);
    if file == 0 || (out.len() as u64) < g.bytes {
        return false;
    }
    let n = g.bytes as usize;
    lines::spells(line, file, lines::part(out, 0, n)) && kept_behind(out, n)
}

pub fn refusal_agrees(line: &[u8], at: usize, refusal: Refusal, out: &[u8]) -> bool {
    lines::same_refusal_at(line, at, refusal) && kept_behind(out, 0)
}

// ---- allocated memory

// Tables of rows, and an output.
#[derive(Drop)]
pub struct Memory {
    pub(crate) records: Vec<u16>,
    pub(crate) scopes: Vec<u16>,
    pub(crate) symbols: Vec<u16>,
    pub out: Vec<u8>,
}

impl Memory {
    // So many rows and bytes, all 0.
    pub fn new(alloc: Global, rows: Rows, bytes: usize) -> Result<Memory, AllocError>
        ensures records { IfOk result (λ m. m.records.items ≡ replicate (rows.records * RecordTable.Numbers) 0) }
        ensures scopes { IfOk result (λ m. m.scopes.items ≡ replicate (rows.scopes * ScopeTable.Lent) 0) }
        ensures symbols { IfOk result (λ m. m.symbols.items ≡ replicate (rows.symbols * SymbolTable.Lent) 0) }
        ensures out { IfOk result (λ m. m.out.items ≡ replicate bytes 0) }
    {
        Ok(Memory {
            records: vec![in alloc; 0u16; usize::from(rows.records) * record::NUMBERS]?,
            scopes: vec![in alloc; 0u16; usize::from(rows.scopes) * scope::LENT]?,
            symbols: vec![in alloc; 0u16; usize::from(rows.symbols) * symbol::LENT]?,
            out: vec![in alloc; 0u8; bytes]?,
        })
    }

    // So many rows and bytes, and some numbers more that make no row, all with a pattern in them.
    pub fn filled(alloc: Global, rows: Rows, bytes: usize) -> Result<Memory, AllocError>
        ensures records { IfOk result (λ m. m.records.items ≡ replicate (rows.records * RecordTable.Numbers + rows.records % RecordTable.Numbers) filled_number) }
        ensures scopes { IfOk result (λ m. m.scopes.items ≡ replicate (rows.scopes * ScopeTable.Lent + rows.scopes % ScopeTable.Lent) filled_number) }
        ensures symbols { IfOk result (λ m. m.symbols.items ≡ replicate (rows.symbols * SymbolTable.Lent + rows.symbols % SymbolTable.Lent) filled_number) }
        ensures out { IfOk result (λ m. m.out.items ≡ replicate bytes filled_byte) }
    {
        let records = usize::from(rows.records);
        let scopes = usize::from(rows.scopes);
        let symbols = usize::from(rows.symbols);
        Ok(Memory {
            records: vec![in alloc; NUMBER; records * record::NUMBERS + records % record::NUMBERS]?,
            scopes: vec![in alloc; NUMBER; scopes * scope::LENT + scopes % scope::LENT]?,
            symbols: vec![in alloc; NUMBER; symbols * symbol::LENT + symbols % symbol::LENT]?,
            out: vec![in alloc; BYTE; bytes]?,
        })
    }

    // ---- the calls

    pub fn lower(&mut self, file: &[u8]) -> Result<FinalFigures, Refusal>
        ensures { finished result self.new.records.items self.new.scopes.items self.new.symbols.items self.new.out.items
            ≡ lower_f file.now self.old.records.items self.old.scopes.items self.old.symbols.items self.old.out.items }
    {
        lowering::lower(
            file,
            &mut self.records,
            &mut self.scopes,
            &mut self.symbols,
            &mut self.out,
        )
    }

    pub fn start(&mut self, file: &[u8]) -> Result<Walk, Refusal>
        ensures tables { begun result self.new.records.items self.new.scopes.items self.new.symbols.items
            ≡ start_f file.now self.old.records.items self.old.scopes.items self.old.symbols.items }
        ensures out { self.new.out.items ≡ self.old.out.items }
    {
        start::start(file, &mut self.records, &mut self.scopes, &mut self.symbols)
    }

    pub fn visit(&mut self, walk: Walk) -> Walk
        ensures tables { tables self.new.records.items self.new.scopes.items self.new.symbols.items result
            ≡ visit_call_f (tables self.old.records.items self.old.scopes.items self.old.symbols.items walk) }
        ensures out { self.new.out.items ≡ self.old.out.items }
    {
        walk::visit_call(walk, &mut self.records, &mut self.scopes, &mut self.symbols)
    }

    // ---- what filled memory has after `lower`

    // The output begins with a file, and is as it was behind it; the tables are cleared.
    pub fn holds_written(&self, file: &[u8]) -> bool
        ensures { result ≡ (starts_with nat_eq self.now.out.items file.now
            && all_are filled_byte (drop (length file.now) self.now.out.items)
            && all_are 0 self.now.records.items && all_are 0 self.now.scopes.items && all_are 0 self.now.symbols.items) }
    {
        self.out.starts_with(file)
            && kept_behind(&self.out, file.len())
            && all_tables(&self.records, &self.scopes, &self.symbols, 0)
    }

    // Nothing was written.
    pub fn is_untouched(&self) -> bool
        ensures { result ≡ (all_are filled_byte self.now.out.items
            && all_are filled_number self.now.records.items && all_are filled_number self.now.scopes.items && all_are filled_number self.now.symbols.items) }
    {
        kept_behind(&self.out, 0) && all_tables(&self.records, &self.scopes, &self.symbols, NUMBER)
    }
}
