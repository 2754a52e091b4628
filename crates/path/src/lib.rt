// Where the walk stands, and the open records around it.
//
// The table's rows in use are those visited, free rows, and the rows still to visit. An open row has in `up` the row around it and in `left`
// how many of its children are still to be entered; both are 0 in all other rows. So a walk needs no stack, and no depth is assumed.
#![tactic(auto)]

ghost use Rattle.std.specs.Prelude.{◌≡◌, List, Bool, ℕ, ◌-◌};
ghost use Rattle.meaning.specs.Grammar.{scope_of};
ghost use Rattle.tables.specs.Loops.{until};
ghost use Rattle.tables.specs.Table.{head_f};
ghost use Rattle.path.specs.Path.{on_records, open_rows, charged_f, stepped_f, with_inner_f, with_cursor_f, with_ctx_f, scope_at_f, has_scope_f, up_f, current_scope_f, is_hoist_f, hoist_scope_f, close_f, stays_f, settle_f, count_down_f, open_row_f, enter_f};

use meaning::{RecordId, ScopeId, tag};
use scoping::Ctx;
use tables::{Cursor, Row, record};

// The last row visited, the last free row, the last row in use, the innermost open row or 0, and the counters. The three lent tables stay
// three parameters beside it: a struct that held them would ask of each function a clause that each reference is the one that it was. So it is in
// all crates of the walk.
#[derive(Clone, Copy)]
pub struct Walk {
    pub visited: RecordId,
    pub gap: RecordId,
    pub end: RecordId,
    pub inner: RecordId,
    pub ctx: Ctx,
}

impl Walk {
    // So many rows are to be made: they take free ones.
    #[tactic(auto, unfolding(crate::specs::Path::charged_f))]
    pub fn charge(mut self, rows: u16) -> Self
        ensures { result ≡ charged_f self rows }
    {
        self.gap = RecordId(self.gap.0.saturating_sub(rows));
        self
    }

    // The first row to visit is visited.
    #[tactic(auto, unfolding(crate::specs::Path::stepped_f))]
    fn step(mut self) -> Self
        ensures { result ≡ stepped_f self }
    {
        let next = RecordId(self.visited.0.saturating_add(1));
        self.visited = next;
        self.gap = RecordId(self.gap.0.saturating_add(1));
        self.inner = next;
        self
    }

    // With another innermost open row.
    #[tactic(auto, unfolding(crate::specs::Path::with_inner_f))]
    pub fn with_inner(mut self, inner: RecordId) -> Self
        ensures { result ≡ with_inner_f self inner.0 }
    {
        self.inner = inner;
        self
    }

    // What a cursor has written is visited.
    #[tactic(auto, unfolding(crate::specs::Path::with_cursor_f))]
    pub fn with_cursor(mut self, q: Cursor) -> Self
        ensures { result ≡ with_cursor_f self q.read.0 q.written.0 }
    {
        self.visited = q.written;
        self.gap = q.read;
        self
    }

    // With other counters.
    #[tactic(auto, unfolding(crate::specs::Path::with_ctx_f))]
    pub fn with_ctx(mut self, ctx: Ctx) -> Self
        ensures { result ≡ with_ctx_f self ctx }
    {
        self.ctx = ctx;
        self
    }
}

// ---- scopes of open rows

// The scope that a record has, or 0, as its clause says.
#[tactic(auto, unfolding(meaning::specs::Grammar::scope_of))]
pub fn scope_of(r: Row) -> ScopeId
    ensures { result.0 ≡ scope_of (head_f r) }
{
    meaning::scope_named(r.tag, r.a, r.b)
}

// The row before another.
fn before(at: RecordId) -> RecordId
    ensures { result.0 ≡ at.0 - 1 }
{
    RecordId(at.0.saturating_sub(1))
}

// The scope that a row has, or 0: the tables too have 0 for none, so that an `Option` would only add a second one.
#[tactic(auto, unfolding(crate::specs::Path::scope_at_f))]
fn scope_at(records: &[u16], at: RecordId) -> ScopeId
    ensures { result.0 ≡ scope_at_f records.now at.0 }
{
    if at.0 == 0 {
        return ScopeId(0);
    }
    scope_of(tables::row_after(records, before(at)))
}

// The row around an open one.
#[tactic(auto, unfolding(crate::specs::Path::up_f))]
fn up(records: &[u16], at: RecordId) -> RecordId
    ensures { result.0 ≡ up_f records.now at.0 }
{
    RecordId(tables::column(records, before(at), record::UP))
}

// What is looked for on the way outwards.
trait Sought {
    ghost found: { List ℕ → ℕ → Bool };

    // The row is one, or there is none.
    fn found(records: &[u16], at: RecordId) -> bool
        ensures { result ≡ found records.now at.0 };
}

// A row with a scope of its own.
struct Scoped;

impl Sought for Scoped {
    ghost found = { has_scope_f };

    #[tactic(auto, unfolding(crate::specs::Path::has_scope_f))]
    fn found(records: &[u16], at: RecordId) -> bool {
        at.0 == 0 || scope_at(records, at).0 != 0
    }
}

// A Program, a Function or a StaticBlock.
struct Hoist;

impl Sought for Hoist {
    ghost found = { is_hoist_f };

    #[tactic(auto, unfolding(crate::specs::Path::is_hoist_f))]
    fn found(records: &[u16], at: RecordId) -> bool {
        at.0 == 0
            || matches!(
                tables::column(records, before(at), record::TAG),
                tag::PROGRAM | tag::FUNCTION | tag::STATIC_BLOCK
            )
    }
}

// The nearest open row that is looked for, after `count` steps outwards at most.
fn nearest<S: Sought>(records: &[u16], inner: RecordId, count: u16) -> RecordId
    ensures { result.0 ≡ until count (S.found records.now) (up_f records.now) inner.0 }
{
    let mut at = inner;
    for _ in 0..count {
        if S::found(records, at) {
            break;
        }
        at = up(records, at);
    }
    at
}

// The current scope: that of the nearest open record with one, after `count` steps outwards at most.
#[tactic(auto, unfolding(crate::specs::Path::current_scope_f))]
pub fn current_scope(records: &[u16], inner: RecordId, count: u16) -> ScopeId
    ensures { result.0 ≡ current_scope_f records.now inner.0 count }
{
    scope_at(records, nearest::<Scoped>(records, inner, count))
}

// The hoist scope: that of the nearest open Program, Function or StaticBlock.
#[tactic(auto, unfolding(crate::specs::Path::hoist_scope_f))]
pub fn hoist_scope(records: &[u16], inner: RecordId, count: u16) -> ScopeId
    ensures { result.0 ≡ hoist_scope_f records.now inner.0 count }
{
    scope_at(records, nearest::<Hoist>(records, inner, count))
}

// ---- entering and leaving

// An open row is left; the row around it.
#[tactic(auto, unfolding(crate::specs::Path::close_f))]
pub fn close(records: &mut [u16], at: RecordId) -> RecordId
    ensures { open_rows records.new result.0 ≡ close_f (open_rows records.old at.0) }
{
    let around = up(records, at);
    tables::put_column(records, before(at), record::UP, 0);
    around
}

// The row has children to enter, or is a StaticBlock, whose leaving is a visit; or there is none.
#[tactic(auto, unfolding(crate::specs::Path::stays_f))]
fn stays(records: &[u16], at: RecordId) -> bool
    ensures { result ≡ stays_f records.now at.0 }
{
    at.0 == 0
        || tables::column(records, before(at), record::LEFT) != 0
        || tables::column(records, before(at), record::TAG) == tag::STATIC_BLOCK
}

// Rows whose children are all entered are left, `count` at most.
pub fn settle(records: &mut [u16], inner: RecordId, count: u16) -> RecordId
    ensures { open_rows records.new result.0 ≡ settle_f count (open_rows records.old inner.0) }
{
    let mut at = inner;
    for _ in 0..count {
        if stays(records, at) {
            break;
        }
        at = close(records, at);
    }
    at
}

// One child less to enter.
#[tactic(auto, unfolding(crate::specs::Path::count_down_f))]
fn count_down(records: &mut [u16], at: RecordId)
    ensures { records.new ≡ count_down_f records.old at.0 }
{
    if at.0 != 0 {
        let left = tables::column(records, before(at), record::LEFT);
        tables::put_column(records, before(at), record::LEFT, left.saturating_sub(1));
    }
}

// The row as an open one: all its children are to be entered.
fn open_row(r: Row, around: RecordId) -> Row
    ensures { result ≡ open_row_f r around.0 }
{
    Row {
        up: around.0,
        left: r.n,
        ..r
    }
}

// The first row to visit becomes the innermost open row.
#[tactic(auto, unfolding(crate::specs::Path::enter_f))]
pub fn enter(records: &mut [u16], w: Walk) -> Walk
    ensures { on_records records.new result ≡ enter_f (on_records records.old w) }
{
    let around = w.inner;
    count_down(records, around);
    let r = tables::row_after(records, w.gap);
    tables::move_row(records, w.gap, w.visited, open_row(r, around));
    let v = w.step();
    let inner = settle(records, v.inner, v.visited.0);
    v.with_inner(inner)
}
