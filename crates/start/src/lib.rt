// A checked file read into the lent tables, or its refusal.
//
// A refused file leaves the tables as they are. Otherwise they are cleared: the scope and symbol rows stand first in their tables, and the
// records behind the free rows in theirs. The counts of symbols stand behind the rows for which their table has numbers.
#![tactic(auto)]

ghost use Rattle.std.specs.Prelude.{if◌then◌else◌, ◌≡◌, min, ltb, leb, length, replicate};
ghost use Rattle.path.specs.Path.{tables};
ghost use Rattle.meaning.specs.declared.Reason.TheVariants as Reason;
ghost use Rattle.meaning.specs.Reading.{ensure};
ghost use Rattle.meaning.specs.Lowering as lowering;
ghost use Rattle.checking.specs.Survey.{surveyed_of};
ghost use Rattle.start.specs.Flat.{scope_into_f, scopes_f, symbol_into_f, symbols_f, records_f, walk_f, fill_f};
ghost use Rattle.representation.specs.Run.{record_row};
ghost use Rattle.start.specs.Start.{begun, lent_in, start_f};

use checking::{Layout, Surveyed};
use fields::{NUMBER_A, NUMBER_B, NUMBER_C, NUMBER_D, SCOPE_BYTES, SYMBOL_BYTES};
use meaning::{Field, Reason, RecordId, Refusal, SymbolId};
use path::Walk;
use scoping::Ctx;
use tables::{Row, record, scope, symbol};

// The columns as places in a row.
const SCOPE_FLAGS: usize = scope::FLAGS as usize;

const FLAGS: usize = symbol::FLAGS as usize;

const SCOPE: usize = symbol::SCOPE as usize;

const MADE: usize = symbol::MADE as usize;

const READ_SCOPE: usize = symbol::READ_SCOPE as usize;

// A number, or the largest that fits: the library's `min`, under the clause that its callers use.
pub fn capped(x: u64) -> u16
    ensures { result ≡ min x 65535 }
{
    x.min(tables::LARGEST as u64) as u16
}

// ---- scope and symbol rows

// A table of zeros.
pub fn clear(table: &mut [u16])
    ensures { table.new ≡ replicate (length table.old) 0 }
{
    table.fill(0);
}

// Scope row k, counted from 0.
#[tactic(auto, unfolding(crate::specs::Flat::scope_into_f))]
fn put_scope(file: &[u8], scopes: &mut [u16], k: u16)
    ensures { scopes.new ≡ scope_into_f file.now scopes.old k }
{
    let k = usize::from(k);
    let at = SCOPE_BYTES * (k + 1);
    let to = k * scope::NUMBERS;
    tables::put(scopes, to, fields::read_two(file, at + NUMBER_A));
    tables::put(
        scopes,
        to + SCOPE_FLAGS,
        fields::read_two(file, at + NUMBER_B),
    );
}

fn put_scopes(file: &[u8], scopes: &mut [u16], count: u16)
    ensures { scopes.new ≡ scopes_f file.now count scopes.old }
{
    for k in 0..count {
        put_scope(file, scopes, k);
    }
}

// Symbol row k, counted from 0; its scope is stored twice, as it stands and as read.
#[tactic(auto, unfolding(crate::specs::Flat::symbol_into_f))]
fn put_symbol(file: &[u8], symbols: &mut [u16], first: u16, k: u16)
    ensures { symbols.new ≡ symbol_into_f file.now first symbols.old k }
{
    let k = usize::from(k);
    let at = usize::from(first) + SYMBOL_BYTES * k;
    let scope = fields::read_two(file, at + NUMBER_C);
    let to = k * symbol::NUMBERS;
    tables::put(symbols, to, fields::read_two(file, at + NUMBER_A));
    tables::put(symbols, to + FLAGS, fields::read_two(file, at + NUMBER_B));
    tables::put(symbols, to + SCOPE, scope);
    tables::put(symbols, to + MADE, fields::read_two(file, at + NUMBER_D));
    tables::put(symbols, to + READ_SCOPE, scope);
}

fn put_symbols(file: &[u8], symbols: &mut [u16], first: u16, count: u16)
    ensures { symbols.new ≡ symbols_f file.now first count symbols.old }
{
    for k in 0..count {
        put_symbol(file, symbols, first, k);
    }
}

// ---- records

// Number i, or 0 if it is not one of a record's own: a row holds 0 there, so no `Option`.
fn own_number(count: u8, i: u8, v: u16) -> u16
    ensures { result ≡ (if ltb i count then v else 0) }
{
    if i < count { v } else { 0 }
}

// The row of a record that is not open.
#[tactic(auto, unfolding(representation::specs::Run::record_row, meaning::specs::Grammar::head_of))]
fn row_of(x: Field) -> Row
    ensures { result ≡ record_row x }
{
    let count = rules::own_numbers(x.tag);
    let n = rules::children_of(x);
    tables::closed_row(
        x.tag,
        own_number(count, 0, x.a),
        own_number(count, 1, x.b),
        own_number(count, 2, x.c),
        n,
    )
}

// The records from an offset on, into the rows behind `free` up to `end`.
fn put_records(file: &[u8], records: &mut [u16], free: u16, end: u16, tree: u16)
    ensures { records.new ≡ records_f file.now free end tree records.old }
{
    let mut at = usize::from(tree);
    for k in free..end {
        let x = fields::field_of(file, at as u32);
        tables::put_row(records, RecordId(k), row_of(x));
        at = x.next;
    }
}

// ---- the tables

// Before the first visit.
#[tactic(auto, unfolding(crate::specs::Flat::walk_f))]
fn walk_of(l: Layout, free: u16, end: u16) -> Walk
    ensures { result ≡ walk_f l free end }
{
    Walk {
        visited: RecordId(0),
        gap: RecordId(free),
        end: RecordId(end),
        inner: RecordId(0),
        ctx: Ctx {
            mode: l.mode,
            esm: l.esm,
            scopes: l.scopes,
            symbols: l.symbols,
            read: l.symbols,
            helper: SymbolId(0),
            contexts: 0,
        },
    }
}

// The tree just read into the tables, with `end` record rows in use.
#[tactic(auto, unfolding(crate::specs::Flat::fill_f))]
pub fn fill(
    file: &[u8],
    l: Layout,
    end: u16,
    records: &mut [u16],
    scopes: &mut [u16],
    symbols: &mut [u16],
) -> Walk
    ensures { tables records.new scopes.new symbols.new result
        ≡ fill_f file.now l end records.old scopes.old symbols.old }
{
    clear(scopes);
    put_scopes(file, scopes, l.scopes);
    clear(symbols);
    put_symbols(file, symbols, l.first, l.symbols);
    let free = end.saturating_sub(l.records);
    clear(records);
    put_records(file, records, free, end, l.tree);
    walk_of(l, free, end)
}

// Refuses a table that is lent with too few rows, by its number.
#[tactic(auto, unfolding(meaning::specs::Reading::ensure))]
fn enough(lent: usize, needed: u64, place: usize) -> Result<(), Refusal>
    ensures { result ≡ ensure (leb needed lent) Reason.FewRows place }
{
    if (lent as u64) < needed {
        return Err(Refusal {
            reason: Reason::FewRows,
            place,
        });
    }
    Ok(())
}

// ---- public

// The layout and the figures of a file that is accepted and for which enough rows are lent: 01's refusals 1 to 9.
pub fn admit(
    file: &[u8],
    records: &[u16],
    scopes: &[u16],
    symbols: &[u16],
) -> Result<Surveyed, Refusal>
    ensures { result
        ≡ surveyed_of (lowering.admit file.now (lent_in records.now scopes.now symbols.now)) }
{
    let surveyed = checking::survey(file)?;
    let needed = surveyed.figures;
    enough(records.len() / record::NUMBERS, needed.records, 0)?;
    enough(scopes.len() / scope::LENT, needed.scopes, 1)?;
    enough(symbols.len() / symbol::LENT, needed.symbols, 2)?;
    Ok(surveyed)
}

// Reads an accepted file into the tables: 01's refusals 1 to 9, or the walk before its first visit.
pub fn start(
    file: &[u8],
    records: &mut [u16],
    scopes: &mut [u16],
    symbols: &mut [u16],
) -> Result<Walk, Refusal>
    ensures { begun result records.new scopes.new symbols.new
        ≡ start_f file.now records.old scopes.old symbols.old }
{
    let admitted = admit(file, records, scopes, symbols)?;
    let end = capped(admitted.figures.records);
    let walk = fill(file, admitted.layout, end, records, scopes, symbols);
    mentions::count_rows(symbols, records, walk.gap, walk.end);
    Ok(walk)
}
