// The For, with its Labels, and the Switch.
#![tactic(auto)]

ghost use Rattle.std.specs.Prelude.{◌≡◌};
ghost use Rattle.path.specs.Path.{tables};
ghost use Rattle.tables.specs.Stream.{buf};
ghost use Rattle.rewrite_for_switch.specs.For.{is_loop_f, labels_end_f, plan_for_f, pass_rows_f, for_rows_f, transform_for_statement_f};
ghost use Rattle.rewrite_for_switch.specs.Switch.{take_up_case_f, take_up_cases_f, plan_case_f, plan_cases_f, switch_rows_f, transform_switch_statement_f};

use meaning::{RecordId, ScopeId, SymbolId, tag};
use path::Walk;
use statements::{Parts, Plan};
use tables::{Cursor, record};

// ---- for

// The row after another is no Label.
#[tactic(auto, unfolding(crate::specs::For::is_loop_f))]
fn is_loop(records: &[u16], after: RecordId) -> bool
    ensures { result ≡ is_loop_f records.now after.0 }
{
    tables::column(records, after, record::TAG) != tag::LABEL
}

// The last of the Labels after a row, each the only child of the one before.
#[tactic(auto, unfolding(crate::specs::For::labels_end_f))]
fn labels_end(records: &[u16], after: RecordId) -> RecordId
    ensures { result.0 ≡ labels_end_f records.now after.0 }
{
    RecordId(
        (after.0..tables::LARGEST)
            .find(|&at| is_loop(records, RecordId(at)))
            .unwrap_or(tables::LARGEST),
    )
}

// What the For below the Labels after a row has to take up.
#[tactic(auto, unfolding(crate::specs::For::plan_for_f))]
pub fn plan_for(records: &[u16], after: RecordId) -> Plan
    ensures { result ≡ plan_for_f records.now after.0 }
{
    let at = labels_end(records, after);
    let r = tables::row_after(records, at);
    if r.tag == tag::FOR {
        statements::plan_children(records, at, r.n)
    } else {
        statements::no_plan(at)
    }
}

// Copies the next n rows. (A loop of its own, as `statements::take_up_declarators` says why.)
#[tactic(auto, unfolding(crate::specs::For::pass_rows_f), using(tables::specs::Loops::next_turn, tables::specs::Loops::last_turn))]
fn pass_rows(records: &mut [u16], start: Cursor, n: u16) -> Cursor
    ensures { buf records.new result ≡ pass_rows_f n (buf records.old start) }
{
    let mut q = start;
    for _ in 0..n {
        q = tables::copy_row(records, q);
    }
    q
}

// The For with its Labels goes into the Try.
#[tactic(auto, unfolding(crate::specs::For::for_rows_f))]
fn write_for(records: &mut [u16], q: Cursor, p: Parts) -> Cursor
    ensures { buf records.new result ≡ for_rows_f p (buf records.old q) }
{
    let end = labels_end(records, q.read);
    let labels = end.0.saturating_sub(q.read.0);
    let q1 = statements::open_try(records, q, rewrite_contexts::list_scope(p), 2);
    let q2 = statements::declare_context(records, q1, p);
    let q3 = pass_rows(records, q2, labels);
    let n = tables::column(records, q3.read, record::N);
    let q4 = tables::copy_row(records, q3);
    let q5 = statements::take_up(records, q4, n, p.context);
    statements::write_handlers(records, q5, p)
}

// `transform_for_statement`
#[tactic(auto, unfolding(crate::specs::For::transform_for_statement_f))]
pub fn transform_for_statement(
    records: &mut [u16],
    scopes: &mut [u16],
    symbols: &mut [u16],
    w: Walk,
    plan: Plan,
) -> Walk
    ensures { tables records.new scopes.new symbols.new result
        ≡ transform_for_statement_f plan (tables records.old scopes.old symbols.old w) }
{
    let c = creation::for_loop(records, scopes, symbols, w, plan.awaits);
    let v = w.charge(plan.wraps.saturating_add(statements::WRAPPED_CONTEXT_ROWS));
    let q = Cursor {
        read: w.gap,
        written: v.gap,
    };
    write_for(records, q, c.parts);
    v.with_ctx(c.ctx)
}

// ---- switch

// A child of a Switch: the usings of a Case are taken up.
#[tactic(auto, unfolding(crate::specs::Switch::take_up_case_f))]
fn take_up_case(records: &mut [u16], q: Cursor, context: SymbolId) -> Cursor
    ensures { buf records.new result ≡ take_up_case_f context.0 (buf records.old q) }
{
    let r = tables::row_after(records, q.read);
    if r.tag == tag::CASE {
        let q1 = tables::copy_row(records, q);
        statements::take_up(records, q1, r.n, context)
    } else {
        tables::copy(records, q, 1)
    }
}

// The n children of a Switch. (A loop of its own, as `statements::take_up_declarators` says why.)
#[tactic(auto, unfolding(crate::specs::Switch::take_up_cases_f), using(tables::specs::Loops::next_turn, tables::specs::Loops::last_turn))]
fn take_up_cases(records: &mut [u16], start: Cursor, n: u16, context: SymbolId) -> Cursor
    ensures { buf records.new result ≡ take_up_cases_f n context.0 (buf records.old start) }
{
    let mut q = start;
    for _ in 0..n {
        q = take_up_case(records, q, context);
    }
    q
}

// One child of a Switch more: the list of a Case is counted.
#[tactic(auto, unfolding(crate::specs::Switch::plan_case_f))]
fn plan_case(records: &[u16], p: Plan) -> Plan
    ensures { result ≡ plan_case_f records.now p }
{
    let r = tables::row_after(records, p.at);
    if r.tag == tag::CASE {
        let inside = Plan {
            at: RecordId(p.at.0.saturating_add(1)),
            ..p
        };
        statements::plan_list(records, inside, r.n)
    } else {
        Plan {
            at: tables::end_after(records, p.at, 1),
            ..p
        }
    }
}

// What the Cases among n children have to take up.
#[tactic(auto, unfolding(crate::specs::Switch::plan_cases_f), using(tables::specs::Loops::next_turn, tables::specs::Loops::last_turn))]
pub fn plan_cases(records: &[u16], after: RecordId, n: u16) -> Plan
    ensures { result ≡ plan_cases_f records.now after.0 n }
{
    let mut p = statements::no_plan(after);
    for _ in 0..n {
        p = plan_case(records, p);
    }
    p
}

// The Switch goes into the Try.
#[tactic(auto, unfolding(crate::specs::Switch::switch_rows_f))]
fn write_switch(records: &mut [u16], q: Cursor, p: Parts) -> Cursor
    ensures { buf records.new result ≡ switch_rows_f p (buf records.old q) }
{
    let n = tables::column(records, q.read, record::N);
    let q1 = statements::open_try(records, q, rewrite_contexts::list_scope(p), 2);
    let q2 = statements::declare_context(records, q1, p);
    let q3 = tables::copy_row(records, q2);
    let q4 = take_up_cases(records, q3, n, p.context);
    statements::write_handlers(records, q4, p)
}

// `transform_switch_statement`: the context is bound in the current scope.
#[tactic(auto, unfolding(crate::specs::Switch::transform_switch_statement_f))]
pub fn transform_switch_statement(
    records: &mut [u16],
    scopes: &mut [u16],
    symbols: &mut [u16],
    w: Walk,
    plan: Plan,
) -> Walk
    ensures { tables records.new scopes.new symbols.new result
        ≡ transform_switch_statement_f plan (tables records.old scopes.old symbols.old w) }
{
    let cur = path::current_scope(records, w.inner, w.visited.0);
    let old = ScopeId(tables::column(records, w.gap, record::A));
    let c = creation::for_switch(scopes, symbols, w.ctx, cur, old, plan.awaits);
    let v = w.charge(plan.wraps.saturating_add(statements::WRAPPED_CONTEXT_ROWS));
    let q = Cursor {
        read: w.gap,
        written: v.gap,
    };
    write_switch(records, q, c.parts);
    v.with_ctx(c.ctx)
}
