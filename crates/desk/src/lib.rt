// The public calls for C: numbers and slices only. bindings/c/desk.h says what each promises, in plain words.
//
// A call answers 01's refusal number, or 0. Six numbers go into `answer`: the refusal's place, then records, scopes, symbols, contexts and
// bytes of the lowered file; what a call does not tell is 0. `walk` keeps where a walk stands, in eleven numbers.
#![tactic(auto)]

ghost use Rattle.std.specs.Prelude.{◌≡◌, ◌∷◌};
ghost use Rattle.meaning.specs.Reading.{read_file};
ghost use Rattle.meaning.specs.Lowering.{figures_of};
ghost use Rattle.checking.specs.Flat.{checked_of};
ghost use Rattle.figures.specs.Figures.{figured_of};
ghost use Rattle.start.specs.Start.{start_f};
ghost use Rattle.path.specs.Path.{tables};
ghost use Rattle.walk.specs.Call.{visit_call_f};
ghost use Rattle.lowering.specs.Lower.{lower_f};
ghost use Rattle.meaning.specs.Refusals.{number_of};
ghost use Rattle.desk_numbers.specs.Answers.{fine_numbers, refusal_numbers, checked_numbers, figured_numbers};
ghost use Rattle.desk_numbers.specs.Numbers.{walk_in, walk_numbers, begun, begun_numbers, visited, visited_numbers};
ghost use Rattle.desk.specs.Numbers.{finished, finished_numbers};

use figures::FinalFigures;
use meaning::{RecordId, Refusal, SymbolId};
use path::Walk;
use scoping::Ctx;

// ---- answers in numbers

fn tell_fine(answer: &mut [u64; 6]) -> u8
    ensures { result ∷ answer.new ≡ fine_numbers }
{
    *answer = [0, 0, 0, 0, 0, 0];
    0
}

fn tell_refusal(answer: &mut [u64; 6], r: Refusal) -> u8
    ensures { result ∷ answer.new ≡ refusal_numbers (number_of r.reason) r.place }
{
    *answer = [r.place as u64, 0, 0, 0, 0, 0];
    u8::from(r.reason)
}

fn tell_figures(answer: &mut [u64; 6], figured: Result<FinalFigures, Refusal>) -> u8
    ensures { result ∷ answer.new ≡ figured_numbers figured }
{
    match figured {
        Ok(g) => {
            *answer = [0, g.records, g.scopes, g.symbols, g.contexts, g.bytes];
            0
        }
        Err(r) => tell_refusal(answer, r),
    }
}

// ---- the walk in numbers

fn walk_in(w: &[u16; 11]) -> Walk
    ensures { result ≡ walk_in w.now }
{
    Walk {
        visited: RecordId(w[0]),
        gap: RecordId(w[1]),
        end: RecordId(w[2]),
        inner: RecordId(w[3]),
        ctx: Ctx {
            mode: w[4],
            esm: w[5],
            scopes: w[6],
            symbols: w[7],
            read: w[8],
            helper: SymbolId(w[9]),
            contexts: w[10],
        },
    }
}

fn put_walk(w: &mut [u16; 11], walk: Walk)
    ensures { w.new ≡ walk_numbers walk }
{
    let c = walk.ctx;
    *w = [
        walk.visited.0,
        walk.gap.0,
        walk.end.0,
        walk.inner.0,
        c.mode,
        c.esm,
        c.scopes,
        c.symbols,
        c.read,
        c.helper.0,
        c.contexts,
    ];
}

// ---- public

// Checks a tree file.
#[unsafe(no_mangle)]
pub extern "C" fn desk_check(file: &[u8], answer: &mut [u64; 6]) -> u8
    ensures { result ∷ answer.new ≡ checked_numbers (checked_of (read_file file.now)) }
{
    match checking::check(file) {
        Ok(()) => tell_fine(answer),
        Err(r) => tell_refusal(answer, r),
    }
}

// The figures of the lowered file.
#[unsafe(no_mangle)]
pub extern "C" fn desk_figures(file: &[u8], answer: &mut [u64; 6]) -> u8
    ensures { result ∷ answer.new ≡ figured_numbers (figured_of (figures_of file.now)) }
{
    tell_figures(answer, checking::figures(file))
}

// Reads a tree file into the tables, before the first visit.
#[unsafe(no_mangle)]
pub extern "C" fn desk_start(
    file: &[u8],
    records: &mut [u16],
    scopes: &mut [u16],
    symbols: &mut [u16],
    walk: &mut [u16; 11],
    answer: &mut [u64; 6],
) -> u8
    ensures { begun (result ∷ answer.new) walk.new records.new scopes.new symbols.new
        ≡ begun_numbers walk.old (start_f file.now records.old scopes.old symbols.old) }
{
    match start::start(file, records, scopes, symbols) {
        Ok(w) => {
            put_walk(walk, w);
            tell_fine(answer)
        }
        Err(r) => tell_refusal(answer, r),
    }
}

// The next visit, and after the last one the import line if it is due; 1 if no visit is left.
#[unsafe(no_mangle)]
pub extern "C" fn desk_visit(
    records: &mut [u16],
    scopes: &mut [u16],
    symbols: &mut [u16],
    walk: &mut [u16; 11],
) -> u8
    ensures { visited result walk.new records.new scopes.new symbols.new
        ≡ visited_numbers (visit_call_f (tables records.old scopes.old symbols.old (walk_in walk.old))) }
{
    let w = walk::visit_call(walk_in(walk), records, scopes, symbols);
    put_walk(walk, w);
    u8::from(walk::is_over(w, records))
}

// Lowers a tree file.
#[unsafe(no_mangle)]
pub extern "C" fn desk_lower(
    file: &[u8],
    records: &mut [u16],
    scopes: &mut [u16],
    symbols: &mut [u16],
    out: &mut [u8],
    answer: &mut [u64; 6],
) -> u8
    ensures { finished (result ∷ answer.new) records.new scopes.new symbols.new out.new
        ≡ finished_numbers (lower_f file.now records.old scopes.old symbols.old out.old) }
{
    let lowered = lowering::lower(file, records, scopes, symbols, out);
    tell_figures(answer, lowered)
}
