// The state that a line of a walk tells (test_vectors, walks.rt), held against the tables; and a walk on allocated memory, whose trees have
// whole fields only.
ghost use Rattle.std.specs.Prelude.{Ok, Err, ◌≡◌, ◌<◌, List, [], ◌∷◌, ℕ, length, IfOk, IfSome, IsTrue, MatchResult};
ghost use Rattle.start.specs.Start.{begun};
ghost use Rattle.test_lines.specs.Told.{space, comma, before, behind, IsNumberText, Tells, rows_of_f, started};
ghost use Rattle.path.specs.Path.{tables};
ghost use Rattle.walk.specs.Call.{visit_call_f};

use crate::lines;
use crate::lines::Seen;
use crate::memory::Memory;
pub use crate::memory::Rows;
use meaning::{RecordId, Refusal, tag};
use path::Walk;
use std::alloc::{AllocError, Global};
use tables::{Row, scope, symbol};

// A tree has at most so many fields.
const MOST_FIELDS: u32 = 100000;

// ---- rows expected

// The k-th number of the field at an offset, or 0 past the end, as a row has it.
fn number(tree: &[u8], at: usize, k: u8) -> u16 {
    fields::read_two(tree, lines::plus(at, 3 + 2 * usize::from(k)))
}

// Number by number, since a row has other numbers between.
fn same_scope(tree: &[u8], at: usize, scopes: &[u16], k: u16) -> bool {
    let row = usize::from(k) * scope::NUMBERS;
    number(tree, at, 0) == tables::get(scopes, row)
        && number(tree, at, 1) == tables::get(scopes, row + 1)
}

fn same_symbol(tree: &[u8], at: usize, symbols: &[u16], k: u16) -> bool {
    let row = usize::from(k) * symbol::NUMBERS;
    let count = lines::plus(tables::counts_at(symbols), usize::from(k));
    number(tree, at, 0) == tables::get(symbols, row)
        && number(tree, at, 1) == tables::get(symbols, row + 1)
        && number(tree, at, 2) == tables::get(symbols, row + 2)
        && number(tree, at, 3) == tables::get(symbols, row + 3)
        && number(tree, at, 4) == tables::get(symbols, count)
}

// A record's number of children stands behind its own numbers. The mark of a Declaration is not written.
fn same_record(tree: &[u8], at: usize, r: Row) -> bool {
    let t = fields::tag_at(tree, at);
    let own = rules::own_numbers(t);
    let number_below = |k: u8, most: u8| if k < most { number(tree, at, k) } else { 0 };
    t == r.tag
        && number_below(0, own) == r.a
        && (r.tag == tag::DECLARATION || number_below(1, own) == r.b)
        && number_below(2, own) == r.c
        && number_below(own, fields::numbers_of(t)) == r.n
}

// ---- the tables

fn rows_of(w: Walk) -> Rows
    ensures { result ≡ rows_of_f w }
{
    Rows {
        records: w.visited.0.saturating_add(w.end.0.saturating_sub(w.gap.0)),
        scopes: w.ctx.scopes,
        symbols: w.ctx.symbols,
    }
}

// With the row of a field.
fn counted(rows: Rows, t: u16) -> Rows {
    match t {
        tag::SCOPE => Rows {
            scopes: rows.scopes.saturating_add(1),
            ..rows
        },
        tag::SYMBOL => Rows {
            symbols: rows.symbols.saturating_add(1),
            ..rows
        },
        _ => Rows {
            records: rows.records.saturating_add(1),
            ..rows
        },
    }
}

// The record with so many before it, as they stand before and behind the free rows.
fn record(records: &[u16], w: Walk, k: u16) -> Row {
    let free = if k < w.visited.0 {
        0
    } else {
        w.gap.0.saturating_sub(w.visited.0)
    };
    tables::row_after(records, RecordId(k.saturating_add(free)))
}

// The row of a field, with so many before it.
fn same_row(
    tree: &[u8],
    at: usize,
    before: Rows,
    w: Walk,
    records: &[u16],
    scopes: &[u16],
    symbols: &[u16],
) -> bool {
    match fields::tag_at(tree, at) {
        tag::SCOPE => same_scope(tree, at, scopes, before.scopes),
        tag::SYMBOL => same_symbol(tree, at, symbols, before.symbols),
        _ => same_record(tree, at, record(records, w, before.records)),
    }
}

// The offset behind a field.
fn next_field(tree: &[u8], at: usize) -> usize {
    let length = fields::read_two(tree, lines::plus(at, 1));
    lines::plus(at, 3 + usize::from(length))
}

// The tables hold the rows of the tree and no others.
fn same_tree(tree: &[u8], w: Walk, records: &[u16], scopes: &[u16], symbols: &[u16]) -> bool {
    let mut rows = Rows::default();
    let mut at: usize = 0;
    for _ in 0..MOST_FIELDS {
        if tree.len() <= at {
            break;
        }
        if !same_row(tree, at, rows, w, records, scopes, symbols) {
            return false;
        }
        rows = counted(rows, fields::tag_at(tree, at));
        at = next_field(tree, at);
    }
    rows == rows_of(w)
}

// ---- states

// Where a walk stands: the place of the last line and of the next one, the length of the tree expected, and what was seen.
#[derive(Clone, Copy)]
pub struct Stand {
    pub last: usize,
    pub next: usize,
    pub len: usize,
    pub seen: Seen,
    pub walk: Walk,
}

// The numbers of rows that a line says.
pub fn rows_told(text: &[u8], at: usize) -> Rows {
    let records = lines::read_number(text, lines::behind(text, at, b' '));
    let scopes = lines::read_number(text, records.next);
    let symbols = lines::read_number(text, scopes.next);
    Rows {
        records: (records.value % 65536) as u16,
        scopes: (scopes.value % 65536) as u16,
        symbols: (symbols.value % 65536) as u16,
    }
}

// The tree of a line takes the place of the last one, if it is another; its length.
pub fn next_tree(text: &[u8], at: usize, end: usize, tree: &mut [u8], last: usize) -> usize {
    let from = lines::behind(text, lines::behind(text, at, b' '), b' ');
    if lines::byte(text, from) == b's' {
        return last;
    }
    notation::encode(lines::part(text, from, end), tree)
}

// The tables hold the state of a line: so many rows, and the tree.
pub fn holds(
    told: Rows,
    tree: &[u8],
    len: usize,
    w: Walk,
    records: &[u16],
    scopes: &[u16],
    symbols: &[u16],
) -> bool {
    told == rows_of(w) && same_tree(lines::part(tree, 0, len), w, records, scopes, symbols)
}

// A line of a state begins with a digit.
pub fn is_state(text: &[u8], at: usize) -> bool {
    lines::byte(text, at).is_ascii_digit()
}

// What `start` makes of a file.
pub type Begun = Result<Stand, Refusal>;

// Before the first visit, with the states told from a place on; or the refusal.
pub fn begin(
    file: &[u8],
    at: usize,
    seen: Seen,
    records: &mut [u16],
    scopes: &mut [u16],
    symbols: &mut [u16],
) -> Begun {
    let walk = start::start(file, records, scopes, symbols)?;
    Ok(Stand {
        last: at,
        next: at,
        len: 0,
        seen,
        walk,
    })
}

// ---- a walk on allocated memory

// A line `K R,S,Y TREE`, without the visits made: how many rows there are, and the text of the tree.
pub fn told(line: &str) -> Option<(Rows, &str)>
    ensures rows { IfSome result (λ told. (last : List ℕ)
        × Tells comma (before space (behind space line.now)) (told.0.records ∷ told.0.scopes ∷ []) last × IsNumberText last told.0.symbols) }
    ensures tree { IfSome result (λ told. told.1.now ≡ behind space (behind space line.now)) }
{
    let (_, state) = line.split_once(' ')?;
    let (rows, tree) = state.split_once(' ')?;
    Some((Rows::told(rows, ',')?, tree))
}

// A field of a tree: its tag, and the bytes of its numbers.
#[derive(Clone, Copy)]
struct Field<'a> {
    tag: u16,
    numbers: &'a [u8],
}

impl<'a> Field<'a> {
    // The first field of a tree, and the rest, which is shorter.
    fn split(tree: &'a [u8]) -> Option<(Field<'a>, &'a [u8])>
        ensures { IfSome result (λ first. length first.1.now < length tree.now) }
    {
        let (head, rest) = tree.split_first_chunk::<3>()?;
        let length = u16::from_be_bytes([head[1], head[2]]);
        let (numbers, rest) = rest.split_at_checked(usize::from(length))?;
        let tag = u16::from(head[0]);
        Some((Field { tag, numbers }, rest))
    }

    // The k-th number, or 0 past the end, as a row has it.
    fn number(self, k: u8) -> u16 {
        fields::read_two(self.numbers, 2 * usize::from(k))
    }

    // Number by number, since a row has other numbers between.
    fn is_scope(self, scopes: &[u16], k: u16) -> bool {
        let row = usize::from(k) * scope::NUMBERS;
        self.number(0) == tables::get(scopes, row) && self.number(1) == tables::get(scopes, row + 1)
    }

    fn is_symbol(self, symbols: &[u16], k: u16) -> bool {
        let row = usize::from(k) * symbol::NUMBERS;
        let count = tables::counts_at(symbols).saturating_add(usize::from(k));
        self.number(0) == tables::get(symbols, row)
            && self.number(1) == tables::get(symbols, row + 1)
            && self.number(2) == tables::get(symbols, row + 2)
            && self.number(3) == tables::get(symbols, row + 3)
            && self.number(4) == tables::get(symbols, count)
    }

    // A record's number of children stands behind its own numbers. The mark of a Declaration is not written.
    fn is_record(self, r: Row) -> bool {
        let own = rules::own_numbers(self.tag);
        let own_number = |k: u8| if k < own { self.number(k) } else { 0 };
        self.tag == r.tag
            && own_number(0) == r.a
            && (r.tag == tag::DECLARATION || own_number(1) == r.b)
            && own_number(2) == r.c
            && self.number(own) == r.n
    }
}

// Tables, and where a walk over them stands.
#[derive(Drop)]
pub struct State {
    memory: Memory,
    walk: Walk,
}

impl State {
    // Before the first visit of a file's walk.
    pub fn start(alloc: Global, file: &[u8]) -> Result<Result<State, Refusal>, AllocError>
        ensures { IfOk result (λ made. MatchResult made
            (λ s. begun (Ok s.walk) s.memory.records.items s.memory.scopes.items s.memory.symbols.items ≡ started file.now)
            (λ why. Err why ≡ (started file.now).answer)) }
    {
        let rows = Rows {
            records: 512,
            scopes: 256,
            symbols: 256,
        };
        let mut memory = Memory::new(alloc, rows, 0)?;
        Ok(memory.start(file).map(|walk| State { memory, walk }))
    }

    pub fn visit(&mut self)
        ensures { tables self.new.memory.records.items self.new.memory.scopes.items self.new.memory.symbols.items self.new.walk
            ≡ visit_call_f (tables self.old.memory.records.items self.old.memory.scopes.items self.old.memory.symbols.items self.old.walk) }
    {
        self.walk = self.memory.visit(self.walk);
    }

    // The row of a field, with so many before it.
    fn has_row(&self, field: Field<'_>, before: Rows) -> bool {
        match field.tag {
            tag::SCOPE => field.is_scope(&self.memory.scopes, before.scopes),
            tag::SYMBOL => field.is_symbol(&self.memory.symbols, before.symbols),
            _ => field.is_record(record(&self.memory.records, self.walk, before.records)),
        }
    }

    // The rows of a tree and no others.
    fn has_tree(&self, tree: &[u8]) -> bool {
        let mut rows = Rows::default();
        let mut rest = tree;
        while let Some((field, behind)) = Field::split(rest) {
            if !self.has_row(field, rows) {
                return false;
            }
            rows = counted(rows, field.tag);
            rest = behind;
        }
        rest.is_empty() && rows == rows_of(self.walk)
    }

    // So many rows, and the tree.
    pub fn holds(&self, told: Rows, tree: &[u8]) -> bool
        ensures { IsTrue result → told ≡ rows_of_f self.now.walk }
    {
        told == rows_of(self.walk) && self.has_tree(tree)
    }
}
