// Lowering a file: read into the lent tables, walked to its end, and written to the lent output.
//
// All refusals are made by the bytes alone, before any table is touched. A lowering leaves the tables all 0. It has four steps:
// `admit_output` (the refusals), `start::fill` (the tables), `run` (the visits) and `finish` (the file).
#![tactic(auto)]

ghost use Rattle.std.specs.Prelude.{◌≡◌, length};
ghost use Rattle.checking.specs.Survey.{surveyed_of};
ghost use Rattle.path.specs.Path.{tables};
ghost use Rattle.start.specs.Start.{lent_in};
ghost use Rattle.meaning.specs.Lowering.{admit_output};
ghost use Rattle.lowering.specs.Lower.{finished, zeros_for, lower_f};
ghost use Rattle.lowering.specs.Flat.{run_f, finish_f};

use checking::Surveyed;
use figures::FinalFigures;
use meaning::{Reason, RecordId, Refusal};
use path::Walk;

// The layout and the figures of a file that is admitted and for which the output is long enough: 01's refusals 1 to 10.
pub fn admit_output(
    file: &[u8],
    records: &[u16],
    scopes: &[u16],
    symbols: &[u16],
    out: &[u8],
) -> Result<Surveyed, Refusal>
    ensures { result
        ≡ surveyed_of (admit_output file.now (lent_in records.now scopes.now symbols.now) (length out.now)) }
{
    let admitted = start::admit(file, records, scopes, symbols)?;
    let size = out.len();
    if (size as u64) < admitted.figures.bytes {
        return Err(Refusal {
            reason: Reason::ShortOutput,
            place: size,
        });
    }
    Ok(admitted)
}

// Visits until the walk is over, so many at most.
pub fn run(
    walk: Walk,
    limit: u32,
    records: &mut [u16],
    scopes: &mut [u16],
    symbols: &mut [u16],
) -> Walk
    ensures { tables records.new scopes.new symbols.new result
        ≡ run_f limit (tables records.old scopes.old symbols.old walk) }
{
    let mut w = walk;
    let mut k: u32 = 0;
    // No `for`: a call makes more than one visit.
    while k < limit {
        if walk::is_over(w, records) {
            break;
        }
        let v = walk::visit_some(w, limit - k, records, scopes, symbols);
        w = v.walk;
        k += v.visits;
    }
    w
}

// Once the walk is over: the import line, if it is due; the counts of the symbols, which the visits leave 0; the file in the tables, to the
// front of the output; the tables cleared.
pub fn finish(
    walk: Walk,
    records: &mut [u16],
    scopes: &mut [u16],
    symbols: &mut [u16],
    out: &mut [u8],
)
    ensures records { records.new ≡ zeros_for records.old }
    ensures scopes { scopes.new ≡ zeros_for scopes.old }
    ensures symbols { symbols.new ≡ zeros_for symbols.old }
    ensures written { out.new
        ≡ finish_f (tables records.old scopes.old symbols.old walk) out.old }
{
    let whole = import_line::complete(records, walk);
    mentions::count_rows(symbols, records, RecordId(0), whole.visited);
    writing::write(whole, records, scopes, symbols, out);
    start::clear(records);
    start::clear(scopes);
    start::clear(symbols);
}

// Lowers a file: 01's refusals 1 to 10, which change nothing, or the lowered file at the front of the output. A record is entered once, and a
// StaticBlock left once, so twice as many visits as records are enough.
pub fn lower(
    file: &[u8],
    records: &mut [u16],
    scopes: &mut [u16],
    symbols: &mut [u16],
    out: &mut [u8],
) -> Result<FinalFigures, Refusal>
    ensures { finished result records.new scopes.new symbols.new out.new
        ≡ lower_f file.now records.old scopes.old symbols.old out.old }
{
    let admitted = admit_output(file, records, scopes, symbols, out)?;
    let figures = admitted.figures;
    let rows = start::capped(figures.records);
    let first = start::fill(file, admitted.layout, rows, records, scopes, symbols);
    let last = run(first, 2 * (rows as u32), records, scopes, symbols);
    finish(last, records, scopes, symbols, out);
    Ok(figures)
}
