// Block, function body, static block and try parts get a context. Each is rewritten where it stands, as the first of the rows still to visit.
// (Lent tables stay parameters, as `path::Walk` says why.)
#![tactic(auto)]

ghost use Rattle.std.specs.Prelude.{◌≡◌};
ghost use Rattle.path.specs.Path.{tables};
ghost use Rattle.tables.specs.Stream.{buf};
ghost use Rattle.rewrite_contexts.specs.Lists.{list_scope, block_rows_f, wrapped_rows_f, transform_block_statement_f, enter_function_body_f, exit_static_block_f};
ghost use Rattle.rewrite_contexts.specs.Tries.{parting, transform_try_block_f, is_part_f, transform_part_f, transform_parts_f, part_rows_f, plan_part_f, plan_parts_f, plan_child_f, plan_try_f, if_block_f, block_scope_f, last_block_scope_f, naming, move_name_f, move_names_f, transform_handler_f, transform_child_f, transform_children_f, enter_try_statement_f};

use creation::Around;
use meaning::{RecordId, ScopeId, SymbolId, parts, tag};
use path::Walk;
use scoping::{Ctx, Rewriting};
use statements::{Counting, Parts, Plan};
use tables::{Cursor, Row, record};

// The scope of a context's list, where one is made: the last before the Catch's.
pub fn list_scope(p: Parts) -> ScopeId
    ensures { result.0 ≡ list_scope p }
{
    ScopeId(p.scope.0.saturating_sub(1))
}

// ---- lists

// A Block's rows become those of a Try.
#[tactic(auto, unfolding(crate::specs::Lists::block_rows_f))]
fn write_block(records: &mut [u16], q: Cursor, p: Parts) -> Cursor
    ensures { buf records.new result ≡ block_rows_f p (buf records.old q) }
{
    let r = tables::row_after(records, q.read);
    let q1 = tables::emit(
        records,
        q,
        tables::closed_row(tag::TRY, parts::BOTH, 0, 0, 3),
    );
    let q2 = tables::replace_row(
        records,
        q1,
        tables::closed_row(tag::BLOCK, r.a, 0, 0, r.n.saturating_add(1)),
    );
    statements::transform_list(records, q2, r.n, p)
}

// `transform_block_statement`: the Block becomes a Try around its list.
#[tactic(auto, unfolding(crate::specs::Lists::transform_block_statement_f))]
pub fn transform_block_statement(
    records: &mut [u16],
    scopes: &mut [u16],
    symbols: &mut [u16],
    w: Walk,
    plan: Plan,
) -> Walk
    ensures { tables records.new scopes.new symbols.new result
        ≡ transform_block_statement_f plan (tables records.old scopes.old symbols.old w) }
{
    let around = creation::scopes_around(records, w);
    let c = creation::for_block(scopes, symbols, w.ctx, around, plan.awaits);
    let v = w.charge(plan.wraps.saturating_add(statements::CONTEXT_ROWS));
    let q = Cursor {
        read: w.gap,
        written: v.gap,
    };
    write_block(records, q, c.parts);
    v.with_ctx(c.ctx)
}

// A record keeps its row, as given, and gets one child: a Try around its list, in a Block with a scope.
#[tactic(auto, unfolding(crate::specs::Lists::wrapped_rows_f))]
fn write_wrapped(records: &mut [u16], q: Cursor, row: Row, scope: ScopeId, p: Parts) -> Cursor
    ensures { buf records.new result ≡ wrapped_rows_f row scope.0 p (buf records.old q) }
{
    let n = tables::column(records, q.read, record::N);
    let q1 = tables::replace_row(records, q, row);
    let q2 = statements::open_try(records, q1, scope, n.saturating_add(1));
    statements::transform_list(records, q2, n, p)
}

// `enter_function_body`
#[tactic(auto, unfolding(crate::specs::Lists::enter_function_body_f))]
pub fn enter_function_body(
    records: &mut [u16],
    scopes: &mut [u16],
    symbols: &mut [u16],
    w: Walk,
    plan: Plan,
) -> Walk
    ensures { tables records.new scopes.new symbols.new result
        ≡ enter_function_body_f plan (tables records.old scopes.old symbols.old w) }
{
    let n = tables::column(records, w.gap, record::N);
    let c = creation::for_body(records, scopes, symbols, w, n, plan.awaits);
    let v = w.charge(plan.wraps.saturating_add(statements::WRAPPED_CONTEXT_ROWS));
    let q = Cursor {
        read: w.gap,
        written: v.gap,
    };
    write_wrapped(
        records,
        q,
        tables::closed_row(tag::BODY, 0, 0, 0, 1),
        list_scope(c.parts),
        c.parts,
    );
    v.with_ctx(c.ctx)
}

// `exit_static_block`: its rows stand behind the free ones again, and are visited when they are rewritten.
#[tactic(auto, unfolding(crate::specs::Lists::exit_static_block_f))]
pub fn exit_static_block(
    records: &mut [u16],
    scopes: &mut [u16],
    symbols: &mut [u16],
    w: Walk,
    plan: Plan,
) -> Walk
    ensures { tables records.new scopes.new symbols.new result
        ≡ exit_static_block_f plan (tables records.old scopes.old symbols.old w) }
{
    let read = w.gap;
    let old = ScopeId(tables::column(records, read, record::A));
    let c = creation::for_static_block(scopes, symbols, w.ctx, old, plan.awaits);
    let scope = list_scope(c.parts);
    let q = write_wrapped(
        records,
        Cursor {
            read,
            written: w.visited,
        },
        tables::closed_row(tag::STATIC_BLOCK, scope.0, 0, 0, 1),
        old,
        c.parts,
    );
    let v = w.with_cursor(q);
    v.with_ctx(c.ctx)
}

// ---- try parts

// `transform_try_block`: the part gets a new scope above its old one.
#[tactic(auto, unfolding(crate::specs::Tries::transform_try_block_f))]
fn transform_try_block(
    records: &mut [u16],
    scopes: &mut [u16],
    symbols: &mut [u16],
    s: Rewriting,
    around: Around,
    awaits: u16,
) -> Rewriting
    ensures { parting records.new scopes.new symbols.new result
        ≡ transform_try_block_f around.current.0 around.hoist.0 awaits (parting records.old scopes.old symbols.old s) }
{
    let q = s.at;
    let old = ScopeId(tables::column(records, q.read, record::A));
    let c = creation::for_try_part(scopes, symbols, s.ctx, around, old, awaits);
    let scope = list_scope(c.parts);
    let at = write_wrapped(
        records,
        q,
        tables::closed_row(tag::BLOCK, scope.0, 0, 0, 1),
        old,
        c.parts,
    );
    Rewriting { at, ctx: c.ctx }
}

// A Block with a using directly in it is transformed, anything else stays.
#[tactic(auto, unfolding(crate::specs::Tries::transform_part_f))]
fn transform_part(
    records: &mut [u16],
    scopes: &mut [u16],
    symbols: &mut [u16],
    s: Rewriting,
    around: Around,
) -> Rewriting
    ensures { parting records.new scopes.new symbols.new result
        ≡ transform_part_f around.current.0 around.hoist.0 (parting records.old scopes.old symbols.old s) }
{
    let q = s.at;
    let r = tables::row_after(records, q.read);
    let plan = statements::plan_children(records, q.read, r.n);
    if is_part(r, plan) {
        transform_try_block(records, scopes, symbols, s, around, plan.awaits)
    } else {
        Rewriting {
            at: tables::copy(records, q, 1),
            ..s
        }
    }
}

// A Block with a using directly in it, by the plan of its list.
#[tactic(auto, unfolding(crate::specs::Tries::is_part_f))]
fn is_part(r: Row, plan: Plan) -> bool
    ensures { result ≡ is_part_f r plan }
{
    r.tag == tag::BLOCK && plan.usings != 0
}

// `n` parts beside each other: each Block with a using directly in it is transformed. (A loop of its own, as `statements::take_up_declarators` says why.)
#[tactic(auto, unfolding(crate::specs::Tries::transform_parts_f), using(tables::specs::Loops::next_turn, tables::specs::Loops::last_turn))]
fn transform_parts(
    records: &mut [u16],
    scopes: &mut [u16],
    symbols: &mut [u16],
    start: Rewriting,
    around: Around,
    n: u16,
) -> Rewriting
    ensures { parting records.new scopes.new symbols.new result
        ≡ transform_parts_f around.current.0 around.hoist.0 n (parting records.old scopes.old symbols.old start) }
{
    let mut s = start;
    for _ in 0..n {
        s = transform_part(records, scopes, symbols, s, around);
    }
    s
}

// The last row looked at, and the scope of the last child if it is a Block, or 0: the number that a row has for no scope, and that the names
// of a Catch get then by `transform_handler_f`.
#[derive(Clone, Copy)]
pub struct LastChild {
    pub at: RecordId,
    pub scope: ScopeId,
}

// The child after a row, as the last one so far.
#[tactic(auto, unfolding(crate::specs::Tries::block_scope_f))]
fn block_scope(records: &[u16], s: LastChild) -> LastChild
    ensures { result ≡ block_scope_f records.now s }
{
    let r = tables::row_after(records, s.at);
    LastChild {
        at: tables::end_after(records, s.at, 1),
        scope: if_block(r),
    }
}

// A Block's scope, or 0, as above.
#[tactic(auto, unfolding(crate::specs::Tries::if_block_f))]
fn if_block(r: Row) -> ScopeId
    ensures { result.0 ≡ if_block_f r }
{
    if r.tag == tag::BLOCK {
        ScopeId(r.a)
    } else {
        ScopeId(0)
    }
}

// The scope of the last Block of a list, or 0, as above.
#[tactic(auto, unfolding(crate::specs::Tries::last_block_scope_f), using(tables::specs::Loops::next_turn, tables::specs::Loops::last_turn))]
fn last_block_scope(records: &[u16], after: RecordId, n: u16) -> ScopeId
    ensures { result.0 ≡ last_block_scope_f records.now after.0 n }
{
    let mut s = LastChild {
        at: after,
        scope: ScopeId(0),
    };
    for _ in 0..n {
        s = block_scope(records, s);
    }
    s.scope
}

// The child after a row moves to the scope if it is a Name.
#[tactic(auto, unfolding(crate::specs::Tries::move_name_f))]
fn move_name(
    records: &[u16],
    symbols: &mut [u16],
    ctx: Ctx,
    after: RecordId,
    scope: ScopeId,
) -> RecordId
    ensures { naming symbols.new result.0
        ≡ move_name_f records.now ctx scope.0 (naming symbols.old after.0) }
{
    let r = tables::row_after(records, after);
    if r.tag == tag::NAME {
        scoping::move_binding(symbols, ctx, SymbolId(r.a), scope);
    }
    tables::end_after(records, after, 1)
}

// The Names of a list move to the scope.
#[tactic(auto, unfolding(crate::specs::Tries::move_names_f), using(tables::specs::Loops::next_turn, tables::specs::Loops::last_turn))]
fn move_names(
    records: &[u16],
    symbols: &mut [u16],
    ctx: Ctx,
    after: RecordId,
    n: u16,
    scope: ScopeId,
)
    ensures { symbols.new ≡ move_names_f records.now ctx scope.0 after.0 n symbols.old }
{
    let mut at = after;
    for _ in 0..n {
        at = move_name(records, symbols, ctx, at, scope);
    }
}

// A Catch: its names move with a lowered body.
#[tactic(auto, unfolding(crate::specs::Tries::transform_handler_f))]
fn transform_handler(
    records: &mut [u16],
    scopes: &mut [u16],
    symbols: &mut [u16],
    s: Rewriting,
    around: Around,
) -> Rewriting
    ensures { parting records.new scopes.new symbols.new result
        ≡ transform_handler_f around.current.0 around.hoist.0 (parting records.old scopes.old symbols.old s) }
{
    let q = s.at;
    let n = tables::column(records, q.read, record::N);
    let added = plan_parts(records, RecordId(q.read.0.saturating_add(1)), n);
    let at = tables::copy_row(records, q);
    let o = transform_parts(records, scopes, symbols, Rewriting { at, ..s }, around, n);
    if added != 0 {
        let list = RecordId(q.written.0.saturating_add(1));
        let scope = last_block_scope(records, list, n);
        move_names(records, symbols, o.ctx, list, n, scope);
    }
    o
}

// A child of a Try.
#[tactic(auto, unfolding(crate::specs::Tries::transform_child_f))]
fn transform_child(
    records: &mut [u16],
    scopes: &mut [u16],
    symbols: &mut [u16],
    s: Rewriting,
    around: Around,
) -> Rewriting
    ensures { parting records.new scopes.new symbols.new result
        ≡ transform_child_f around.current.0 around.hoist.0 (parting records.old scopes.old symbols.old s) }
{
    let q = s.at;
    if tables::column(records, q.read, record::TAG) == tag::CATCH {
        transform_handler(records, scopes, symbols, s, around)
    } else {
        transform_part(records, scopes, symbols, s, around)
    }
}

// Block, handler and finalizer in turn. (A loop of its own, as `statements::take_up_declarators` says why.)
#[tactic(auto, unfolding(crate::specs::Tries::transform_children_f), using(tables::specs::Loops::next_turn, tables::specs::Loops::last_turn))]
fn transform_children(
    records: &mut [u16],
    scopes: &mut [u16],
    symbols: &mut [u16],
    start: Rewriting,
    around: Around,
    n: u16,
) -> Rewriting
    ensures { parting records.new scopes.new symbols.new result
        ≡ transform_children_f around.current.0 around.hoist.0 n (parting records.old scopes.old symbols.old start) }
{
    let mut s = start;
    for _ in 0..n {
        s = transform_child(records, scopes, symbols, s, around);
    }
    s
}

// `enter_try_statement`: so many rows are made.
#[tactic(auto, unfolding(crate::specs::Tries::enter_try_statement_f))]
pub fn enter_try_statement(
    records: &mut [u16],
    scopes: &mut [u16],
    symbols: &mut [u16],
    w: Walk,
    added: u16,
) -> Walk
    ensures { tables records.new scopes.new symbols.new result
        ≡ enter_try_statement_f added (tables records.old scopes.old symbols.old w) }
{
    let around = creation::scopes_around(records, w);
    let n = tables::column(records, w.gap, record::N);
    let v = w.charge(added);
    let q = Cursor {
        read: w.gap,
        written: v.gap,
    };
    let at = tables::copy_row(records, q);
    let start = Rewriting { at, ctx: w.ctx };
    let o = transform_children(records, scopes, symbols, start, around, n);
    v.with_ctx(o.ctx)
}

// The rows that a part adds.
#[tactic(auto, unfolding(crate::specs::Tries::part_rows_f))]
fn part_rows(r: Row, plan: Plan) -> u16
    ensures { result ≡ part_rows_f r plan }
{
    if is_part(r, plan) {
        plan.wraps.saturating_add(statements::WRAPPED_CONTEXT_ROWS)
    } else {
        0
    }
}

// One part of a Try more: the rows that it adds.
#[tactic(auto, unfolding(crate::specs::Tries::plan_part_f))]
fn plan_part(records: &[u16], s: Counting) -> Counting
    ensures { result ≡ plan_part_f records.now s }
{
    let r = tables::row_after(records, s.at);
    let plan = statements::plan_children(records, s.at, r.n);
    Counting {
        at: tables::end_after(records, s.at, 1),
        sum: s.sum.saturating_add(part_rows(r, plan)),
    }
}

// The rows that n parts beside each other add. (A loop of its own, as `statements::Counting` says why; so is the next.)
#[tactic(auto, unfolding(crate::specs::Tries::plan_parts_f), using(tables::specs::Loops::next_turn, tables::specs::Loops::last_turn))]
fn plan_parts(records: &[u16], after: RecordId, n: u16) -> u16
    ensures { result ≡ plan_parts_f records.now after.0 n }
{
    let mut s = Counting { at: after, sum: 0 };
    for _ in 0..n {
        s = plan_part(records, s);
    }
    s.sum
}

// One child of a Try more: the rows that it adds.
#[tactic(auto, unfolding(crate::specs::Tries::plan_child_f))]
fn plan_child(records: &[u16], s: Counting) -> Counting
    ensures { result ≡ plan_child_f records.now s }
{
    let r = tables::row_after(records, s.at);
    if r.tag == tag::CATCH {
        let added = plan_parts(records, RecordId(s.at.0.saturating_add(1)), r.n);
        Counting {
            at: tables::end_after(records, s.at, 1),
            sum: s.sum.saturating_add(added),
        }
    } else {
        plan_part(records, s)
    }
}

// The rows that a Try's n children add.
#[tactic(auto, unfolding(crate::specs::Tries::plan_try_f), using(tables::specs::Loops::next_turn, tables::specs::Loops::last_turn))]
pub fn plan_try(records: &[u16], after: RecordId, n: u16) -> u16
    ensures { result ≡ plan_try_f records.now after.0 n }
{
    let mut s = Counting { at: after, sum: 0 };
    for _ in 0..n {
        s = plan_child(records, s);
    }
    s.sum
}
