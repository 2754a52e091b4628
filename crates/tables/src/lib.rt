// Lent tables of 16-bit numbers, read and written without a limit, and the records of a tree streamed through the free rows of their table.
//
// A record takes seven numbers: tag, a, b, c, n, and two for the walk, `up` and `left`. The record table is a gap buffer:
//
//     visited rows | free rows, all 0 | rows still to visit
//
// A pass reads at the right end of the free rows and writes at their left end, so that a made row takes a free one and no row behind the
// list that is rewritten moves. A row is named by the number of rows up to it, from 1 on; a place between rows by the row before it.
//
// The memory is the caller's, since there is no heap, and C lends it as such slices. A row may hold any number there (`row_after`), so tags
// and kinds are numbers with names, and no enums.
#![tactic(auto)]

pub mod record;
pub mod scope;
pub mod symbol;

ghost use Rattle.std.specs.Prelude.{◌≡◌, get_or, set};
ghost use Rattle.tables.specs.Table.{column_f, row_f, set_column_f, set_row_f, closed_row_f, move_row_f, end_f, new_numbers_at, counts_at};
ghost use Rattle.tables.specs.Stream.{buf, emit_f, replace_row_f, copy_row_f, copy_f, unread_row_f, take_back_f};

use meaning::RecordId;

// The largest number of a table, and the most rows that it can have.
pub const LARGEST: u16 = 65535;

// A row of the record table.
#[derive(Clone, Copy, Default, PartialEq, Eq, Debug)]
pub struct Row {
    pub tag: u16,
    pub a: u16,
    pub b: u16,
    pub c: u16,
    pub n: u16,
    pub up: u16,
    pub left: u16,
}

// The last row read and the last row written.
#[derive(Clone, Copy)]
pub struct Cursor {
    pub read: RecordId,
    pub written: RecordId,
}

// ---- numbers

// The number at a place, or 0 past the end: the clause's number, so no `Option`.
pub fn get(table: &[u16], at: usize) -> u16
    ensures { result ≡ get_or table.now at 0 }
{
    table.get(at).copied().unwrap_or(0)
}

// Stores a number or a byte; past the end nothing happens.
pub fn put<T: Copy>(table: &mut [T], at: usize, v: T)
    ensures { table.new ≡ set table.old at v }
{
    // By index: of the slice after a `get_mut` the library promises nothing.
    if at < table.len() {
        table[at] = v;
    }
}

// ---- rows

// The columns as places in a row.
const A: usize = record::A as usize;

const B: usize = record::B as usize;

const C: usize = record::C as usize;

const N: usize = record::N as usize;

const UP: usize = record::UP as usize;

const LEFT: usize = record::LEFT as usize;

// The number in a column of the row after another.
#[tactic(auto, unfolding(crate::specs::Table::column_f))]
pub fn column(records: &[u16], after: RecordId, f: u16) -> u16
    ensures { result ≡ column_f records.now after.0 f }
{
    get(records, (after.0 as usize) * record::NUMBERS + (f as usize))
}

// Stores a number in a column of the row after another.
#[tactic(auto, unfolding(crate::specs::Table::set_column_f))]
pub fn put_column(records: &mut [u16], after: RecordId, f: u16, v: u16)
    ensures { records.new ≡ set_column_f records.old after.0 f v }
{
    put(
        records,
        (after.0 as usize) * record::NUMBERS + (f as usize),
        v,
    );
}

// The row after another, where the table may end inside it. Apart from `row_after`, which reads a whole row after one test; so it is with
// `put_by_column`.
#[tactic(auto, unfolding(crate::specs::Table::row_f))]
fn row_by_column(records: &[u16], after: RecordId) -> Row
    ensures { result ≡ row_f records.now after.0 }
{
    Row {
        tag: column(records, after, record::TAG),
        a: column(records, after, record::A),
        b: column(records, after, record::B),
        c: column(records, after, record::C),
        n: column(records, after, record::N),
        up: column(records, after, record::UP),
        left: column(records, after, record::LEFT),
    }
}

// The row after another.
#[tactic(auto, unfolding(crate::specs::Table::row_f, crate::specs::Table::column_f))]
pub fn row_after(records: &[u16], after: RecordId) -> Row
    ensures { result ≡ row_f records.now after.0 }
{
    let at = (after.0 as usize) * record::NUMBERS;
    if records.len() < at + record::NUMBERS {
        return row_by_column(records, after);
    }
    Row {
        tag: records[at],
        a: records[at + A],
        b: records[at + B],
        c: records[at + C],
        n: records[at + N],
        up: records[at + UP],
        left: records[at + LEFT],
    }
}

// Stores the row after another, where the table may end inside it.
#[tactic(auto, unfolding(crate::specs::Table::set_row_f))]
fn put_by_column(records: &mut [u16], after: RecordId, r: Row)
    ensures { records.new ≡ set_row_f records.old after.0 r }
{
    put_column(records, after, record::TAG, r.tag);
    put_column(records, after, record::A, r.a);
    put_column(records, after, record::B, r.b);
    put_column(records, after, record::C, r.c);
    put_column(records, after, record::N, r.n);
    put_column(records, after, record::UP, r.up);
    put_column(records, after, record::LEFT, r.left);
}

// Stores the row after another.
#[tactic(auto, unfolding(crate::specs::Table::set_row_f, crate::specs::Table::set_column_f))]
pub fn put_row(records: &mut [u16], after: RecordId, r: Row)
    ensures { records.new ≡ set_row_f records.old after.0 r }
{
    let at = (after.0 as usize) * record::NUMBERS;
    if records.len() < at + record::NUMBERS {
        put_by_column(records, after, r);
    } else {
        records[at] = r.tag;
        records[at + A] = r.a;
        records[at + B] = r.b;
        records[at + C] = r.c;
        records[at + N] = r.n;
        records[at + UP] = r.up;
        records[at + LEFT] = r.left;
    }
}

// A row that is not open.
pub fn closed_row(tag: u16, a: u16, b: u16, c: u16, n: u16) -> Row
    ensures { result ≡ closed_row_f tag a b c n }
{
    Row {
        tag,
        a,
        b,
        c,
        n,
        ..Row::default()
    }
}

// Clears the row after another: a free row's numbers are 0.
pub fn clear_row(records: &mut [u16], after: RecordId)
    ensures { records.new ≡ set_row_f records.old after.0 (closed_row_f 0 0 0 0 0) }
{
    put_row(records, after, Row::default());
}

// Clears the row after one place and stores a row after another.
#[tactic(auto, unfolding(crate::specs::Table::move_row_f))]
pub fn move_row(records: &mut [u16], from: RecordId, to: RecordId, r: Row)
    ensures { records.new ≡ move_row_f records.old from.0 to.0 r }
{
    clear_row(records, from);
    put_row(records, to, r);
}

// The last row of `count` subtrees after a row.
pub fn end_after(records: &[u16], after: RecordId, count: u16) -> RecordId
    ensures { result.0 ≡ end_f records.now after.0 count }
{
    let mut pending = count as usize;
    for at in after.0..LARGEST {
        if pending == 0 {
            return RecordId(at);
        }
        pending = pending - 1 + (column(records, RecordId(at), record::N) as usize);
    }
    RecordId(LARGEST)
}

// ---- behind the rows of the other tables
//
// Two functions of one line: one with the widths as parameters would be called by two that name them.

// Where the new numbers of scopes stand: behind the rows for which the table has numbers.
#[tactic(auto, unfolding(crate::specs::Table::new_numbers_at))]
pub fn new_numbers_at(scopes: &[u16]) -> usize
    ensures { result ≡ new_numbers_at scopes.now }
{
    scopes.len() / scope::LENT * scope::NUMBERS
}

// Where the counts of symbols stand: behind the rows for which the table has numbers.
#[tactic(auto, unfolding(crate::specs::Table::counts_at))]
pub fn counts_at(symbols: &[u16]) -> usize
    ensures { result ≡ counts_at symbols.now }
{
    symbols.len() / symbol::LENT * symbol::NUMBERS
}

// ---- streaming

// Writes a new row.
#[tactic(auto, unfolding(crate::specs::Stream::emit_f))]
pub fn emit(records: &mut [u16], q: Cursor, r: Row) -> Cursor
    ensures { buf records.new result ≡ emit_f (buf records.old q) r }
{
    put_row(records, q.written, r);
    Cursor {
        written: RecordId(q.written.0.saturating_add(1)),
        ..q
    }
}

// Writes a row in the place of the next one.
#[tactic(auto, unfolding(crate::specs::Stream::replace_row_f))]
pub fn replace_row(records: &mut [u16], q: Cursor, r: Row) -> Cursor
    ensures { buf records.new result ≡ replace_row_f (buf records.old q) r }
{
    move_row(records, q.read, q.written, r);
    Cursor {
        read: RecordId(q.read.0.saturating_add(1)),
        written: RecordId(q.written.0.saturating_add(1)),
    }
}

// Copies the next row.
#[tactic(auto, unfolding(crate::specs::Stream::copy_row_f))]
pub fn copy_row(records: &mut [u16], q: Cursor) -> Cursor
    ensures { buf records.new result ≡ copy_row_f (buf records.old q) }
{
    let r = row_after(records, q.read);
    replace_row(records, q, r)
}

// Copies `count` whole subtrees. Not by `copy_row`, which would be called for each row, with its N read once more.
pub fn copy(records: &mut [u16], q: Cursor, count: u16) -> Cursor
    ensures { buf records.new result ≡ copy_f (buf records.old q) count }
{
    let mut written = q.written;
    let mut pending = count as usize;
    for read in q.read.0..LARGEST {
        if pending == 0 {
            return Cursor {
                read: RecordId(read),
                written,
            };
        }
        let r = row_after(records, RecordId(read));
        clear_row(records, RecordId(read));
        put_row(records, written, r);
        written = RecordId(written.0.saturating_add(1));
        pending = pending - 1 + (r.n as usize);
    }
    Cursor {
        read: RecordId(LARGEST),
        written,
    }
}

// The last row written goes behind the free rows again.
#[tactic(auto, unfolding(crate::specs::Stream::unread_row_f))]
pub fn unread_row(records: &mut [u16], q: Cursor) -> Cursor
    ensures { buf records.new result ≡ unread_row_f (buf records.old q) }
{
    let from = RecordId(q.written.0.saturating_sub(1));
    let to = RecordId(q.read.0.saturating_sub(1));
    let r = row_after(records, from);
    move_row(records, from, to, r);
    Cursor {
        read: to,
        written: from,
    }
}

// The last `n` rows written go behind the free rows again. A loop of its own beside that of `copy`: one for both would take the step as a closure
// that holds the table, and say in its contract what a call leaves there.
pub fn take_back(records: &mut [u16], start: Cursor, n: u16) -> Cursor
    ensures { buf records.new result ≡ take_back_f n (buf records.old start) }
{
    let mut q = start;
    for _ in 0..n {
        q = unread_row(records, q);
    }
    q
}
