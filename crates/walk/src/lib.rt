// The walk over lent tables, one visit at a time. (They stay three parameters, as `path::Walk` says why.)
#![tactic(auto)]

ghost use Rattle.std.specs.Prelude.{◌≡◌};
ghost use Rattle.meaning.specs.Tree.{one_of};
ghost use Rattle.path.specs.Path.{tables};
ghost use Rattle.walk.specs.Plain.{rewritten, is_plain_f, entering, stops_f, enter_some_f, visiting, visit_some_f};
ghost use Rattle.walk.specs.Visit.{plan_next_f, rewrite_program_f, rewrite_block_f, rewrite_body_f, rewrite_for_f, rewrite_switch_f, rewrite_try_f, rewrite_for_of_f, rewrite_f, leave_block_f, leave_f, is_leaving_f, is_over_f, visit_f};
ghost use Rattle.walk.specs.Counted.{counted, part_f, discount_part_f, count_part_f, visit_counted_f, complete_counted_f};
ghost use Rattle.walk.specs.Call.{visit_call_f};

use meaning::{RecordId, tag};
use path::Walk;
use statements::Plan;
use tables::{Cursor, record};

// ---- what entering a record rewrites

// What the list of the first record to visit has to take up.
#[tactic(auto, unfolding(crate::specs::Visit::plan_next_f))]
fn plan_next(records: &[u16], w: Walk) -> Plan
    ensures { result ≡ plan_next_f records.now w }
{
    let n = tables::column(records, w.gap, record::N);
    statements::plan_children(records, w.gap, n)
}

// The functions from here to `rewrite` test their plans each for itself: one that took the rewrite as a closure would have to say what a call
// leaves in three lent tables, in more lines than the tests are.

// A Program with a using directly in it.
#[tactic(auto, unfolding(crate::specs::Visit::rewrite_program_f))]
fn rewrite_program(records: &mut [u16], scopes: &mut [u16], symbols: &mut [u16], w: Walk) -> Walk
    ensures { tables records.new scopes.new symbols.new result
        ≡ rewrite_program_f (tables records.old scopes.old symbols.old w) }
{
    let plan = plan_next(records, w);
    if plan.usings == 0 {
        w
    } else {
        rewrite_program::enter_program(records, scopes, symbols, w)
    }
}

// A Block with a using directly in it.
#[tactic(auto, unfolding(crate::specs::Visit::rewrite_block_f))]
fn rewrite_block(records: &mut [u16], scopes: &mut [u16], symbols: &mut [u16], w: Walk) -> Walk
    ensures { tables records.new scopes.new symbols.new result
        ≡ rewrite_block_f (tables records.old scopes.old symbols.old w) }
{
    let plan = plan_next(records, w);
    if plan.usings == 0 {
        w
    } else {
        rewrite_contexts::transform_block_statement(records, scopes, symbols, w, plan)
    }
}

// A function body with a using directly in it.
#[tactic(auto, unfolding(crate::specs::Visit::rewrite_body_f))]
fn rewrite_body(records: &mut [u16], scopes: &mut [u16], symbols: &mut [u16], w: Walk) -> Walk
    ensures { tables records.new scopes.new symbols.new result
        ≡ rewrite_body_f (tables records.old scopes.old symbols.old w) }
{
    let plan = plan_next(records, w);
    if plan.usings == 0 {
        w
    } else {
        rewrite_contexts::enter_function_body(records, scopes, symbols, w, plan)
    }
}

// A For, or a Label around one, with a using at its head.
#[tactic(auto, unfolding(crate::specs::Visit::rewrite_for_f))]
fn rewrite_for(records: &mut [u16], scopes: &mut [u16], symbols: &mut [u16], w: Walk) -> Walk
    ensures { tables records.new scopes.new symbols.new result
        ≡ rewrite_for_f (tables records.old scopes.old symbols.old w) }
{
    let plan = rewrite_for_switch::plan_for(records, w.gap);
    if plan.usings == 0 {
        w
    } else {
        rewrite_for_switch::transform_for_statement(records, scopes, symbols, w, plan)
    }
}

// A Switch with a using in a Case.
#[tactic(auto, unfolding(crate::specs::Visit::rewrite_switch_f))]
fn rewrite_switch(records: &mut [u16], scopes: &mut [u16], symbols: &mut [u16], w: Walk) -> Walk
    ensures { tables records.new scopes.new symbols.new result
        ≡ rewrite_switch_f (tables records.old scopes.old symbols.old w) }
{
    let gap = w.gap;
    let n = tables::column(records, gap, record::N);
    let plan = rewrite_for_switch::plan_cases(records, RecordId(gap.0.saturating_add(1)), n);
    if plan.usings == 0 {
        w
    } else {
        rewrite_for_switch::transform_switch_statement(records, scopes, symbols, w, plan)
    }
}

// A Try with a using in one of its parts.
#[tactic(auto, unfolding(crate::specs::Visit::rewrite_try_f))]
fn rewrite_try(records: &mut [u16], scopes: &mut [u16], symbols: &mut [u16], w: Walk) -> Walk
    ensures { tables records.new scopes.new symbols.new result
        ≡ rewrite_try_f (tables records.old scopes.old symbols.old w) }
{
    let gap = w.gap;
    let n = tables::column(records, gap, record::N);
    let added = rewrite_contexts::plan_try(records, RecordId(gap.0.saturating_add(1)), n);
    if added == 0 {
        w
    } else {
        rewrite_contexts::enter_try_statement(records, scopes, symbols, w, added)
    }
}

// A ForOf with a using of an identifier on its left side.
#[tactic(auto, unfolding(crate::specs::Visit::rewrite_for_of_f))]
fn rewrite_for_of(records: &mut [u16], scopes: &mut [u16], symbols: &mut [u16], w: Walk) -> Walk
    ensures { tables records.new scopes.new symbols.new result
        ≡ rewrite_for_of_f (tables records.old scopes.old symbols.old w) }
{
    if rewrite_for_of::takes_using(records, w.gap) {
        if rewrite_for_of::inserts(records, symbols, w.ctx, w.gap) {
            rewrite_for_of::insert_using(records, scopes, symbols, w)
        } else {
            rewrite_for_of::wrap_body(records, scopes, symbols, w)
        }
    } else {
        w
    }
}

// The first record to visit is rewritten, by its tag.
#[tactic(auto, unfolding(crate::specs::Visit::rewrite_f))]
fn rewrite(records: &mut [u16], scopes: &mut [u16], symbols: &mut [u16], w: Walk) -> Walk
    ensures { tables records.new scopes.new symbols.new result
        ≡ rewrite_f (tables records.old scopes.old symbols.old w) }
{
    let tag = tables::column(records, w.gap, record::TAG);
    match tag {
        tag::PROGRAM => rewrite_program(records, scopes, symbols, w),
        tag::BLOCK => rewrite_block(records, scopes, symbols, w),
        tag::LABEL | tag::FOR => rewrite_for(records, scopes, symbols, w),
        tag::FOR_OF => rewrite_for_of(records, scopes, symbols, w),
        tag::SWITCH => rewrite_switch(records, scopes, symbols, w),
        tag::TRY => rewrite_try(records, scopes, symbols, w),
        tag::BODY => rewrite_body(records, scopes, symbols, w),
        // All other tags; and 0, 21 to 23 and 30 on, which are no tags.
        tag::PLAIN..=tag::SPECIFIER | tag::EXPRESSION..=tag::STEP | 0 | 21..=23 | 30..=65535 => w,
    }
}

// ---- leaving a StaticBlock

// Its list is rewritten if it has a using: its rows, from its own on, go behind the free ones again.
#[tactic(auto, unfolding(crate::specs::Visit::leave_block_f))]
fn leave_block(records: &mut [u16], scopes: &mut [u16], symbols: &mut [u16], w: Walk) -> Walk
    ensures { tables records.new scopes.new symbols.new result
        ≡ leave_block_f (tables records.old scopes.old symbols.old w) }
{
    let inner = w.inner;
    let n = tables::column(records, RecordId(inner.0.saturating_sub(1)), record::N);
    let plan = statements::plan_list(records, statements::no_plan(inner), n);
    if plan.usings == 0 {
        return w;
    }
    let rows = w.visited.0.saturating_add(1).saturating_sub(inner.0);
    let q = Cursor {
        read: w.gap,
        written: w.visited,
    };
    let q = tables::take_back(records, q, rows);
    rewrite_contexts::exit_static_block(records, scopes, symbols, w.with_cursor(q), plan)
}

// The innermost open record is left.
#[tactic(auto, unfolding(crate::specs::Visit::leave_f))]
fn leave(records: &mut [u16], scopes: &mut [u16], symbols: &mut [u16], w: Walk) -> Walk
    ensures { tables records.new scopes.new symbols.new result
        ≡ leave_f (tables records.old scopes.old symbols.old w) }
{
    let around = path::close(records, w.inner);
    let v = leave_block(records, scopes, symbols, w);
    let inner = path::settle(records, around, v.visited.0);
    v.with_inner(inner)
}

// The children of the innermost open record are all entered.
#[tactic(auto, unfolding(crate::specs::Visit::is_leaving_f))]
fn is_leaving(records: &[u16], w: Walk) -> bool
    ensures { result ≡ is_leaving_f records.now w }
{
    let inner = w.inner.0;
    inner != 0 && tables::column(records, RecordId(inner - 1), record::LEFT) == 0
}

// No visit is left.
#[tactic(auto, unfolding(crate::specs::Visit::is_over_f))]
pub fn is_over(walk: Walk, records: &[u16]) -> bool
    ensures { result ≡ is_over_f records.now walk }
{
    !is_leaving(records, walk) && walk.end.0 <= walk.gap.0
}

// The tags that `rewrite` has something to do for.
fn may_rewrite(tag: u16) -> bool
    ensures { result ≡ one_of rewritten tag }
{
    matches!(
        tag,
        tag::PROGRAM
            | tag::BLOCK
            | tag::LABEL
            | tag::FOR
            | tag::FOR_OF
            | tag::SWITCH
            | tag::TRY
            | tag::BODY
    )
}

// The next visit enters a record with another tag.
#[tactic(auto, unfolding(crate::specs::Plain::is_plain_f))]
fn is_plain(records: &[u16], w: Walk) -> bool
    ensures { result ≡ is_plain_f records.now w }
{
    !is_leaving(records, w)
        && w.gap.0 < w.end.0
        && !may_rewrite(tables::column(records, w.gap, record::TAG))
}

// After the first record, one that may ask for a rewrite is not entered.
fn stops(records: &[u16], w: Walk, visits: u32) -> bool
    ensures { result ≡ stops_f (entering records.now w visits) }
{
    visits != 0 && !is_plain(records, w)
}

// Where the walk stands after some visits, and how many they were.
#[derive(Clone, Copy)]
pub struct Visited {
    pub walk: Walk,
    pub visits: u32,
}

// Enters the next record, and those behind it that ask for no rewrite, `limit` at most.
#[tactic(auto, unfolding(crate::specs::Plain::enter_some_f), using(tables::specs::Loops::run_out, tables::specs::Loops::stopped))]
fn enter_some(walk: Walk, limit: u32, records: &mut [u16]) -> Visited
    ensures { entering records.new result.walk result.visits ≡ enter_some_f limit records.old walk }
{
    let mut w = walk;
    for visits in 0..limit {
        if stops(records, w, visits) {
            return Visited { walk: w, visits };
        }
        w = path::enter(records, w);
    }
    Visited {
        walk: w,
        visits: limit,
    }
}

// The next visit, and those after it that only enter a record, `limit` at most: as `visit` one by one, in less time. None once the walk is over;
// the import line is not added.
#[tactic(auto, unfolding(crate::specs::Plain::visit_some_f))]
pub fn visit_some(
    walk: Walk,
    limit: u32,
    records: &mut [u16],
    scopes: &mut [u16],
    symbols: &mut [u16],
) -> Visited
    ensures { visiting (tables records.new scopes.new symbols.new result.walk) result.visits
        ≡ visit_some_f limit (tables records.old scopes.old symbols.old walk) }
{
    if limit == 0 {
        return Visited { walk, visits: 0 };
    }
    if is_leaving(records, walk) {
        Visited {
            walk: leave(records, scopes, symbols, walk),
            visits: 1,
        }
    } else if walk.gap.0 < walk.end.0 {
        let w = rewrite(records, scopes, symbols, walk);
        enter_some(w, limit, records)
    } else {
        Visited { walk, visits: 0 }
    }
}

// The next visit; after the last nothing changes.
#[tactic(auto, using(crate::specs::Plain::one_visit))]
fn visit(walk: Walk, records: &mut [u16], scopes: &mut [u16], symbols: &mut [u16]) -> Walk
    ensures { tables records.new scopes.new symbols.new result
        ≡ visit_f (tables records.old scopes.old symbols.old walk) }
{
    visit_some(walk, 1, records, scopes, symbols).walk
}

// ---- visits that keep the counts of symbols true

// The rows that a visit may change: the visited ones behind a row, and those to visit up to another.
#[derive(Clone, Copy)]
struct Part {
    from: RecordId,
    end: RecordId,
}

// Those of the next visit: a StaticBlock that is left, a record that may be rewritten, or the row that is entered.
#[tactic(auto, unfolding(crate::specs::Counted::part_f))]
fn part_of(records: &[u16], w: Walk) -> Part
    ensures { result ≡ part_f records.now w }
{
    if is_leaving(records, w) {
        Part {
            from: RecordId(w.inner.0.saturating_sub(1)),
            end: w.gap,
        }
    } else if may_rewrite(tables::column(records, w.gap, record::TAG)) {
        Part {
            from: w.visited,
            end: tables::end_after(records, w.gap, 1),
        }
    } else {
        Part {
            from: w.visited,
            end: RecordId(w.gap.0.saturating_add(1)),
        }
    }
}

// The mentions of a part are taken off the counts. It is apart from `count_part`: one function for both would need
// `mentions` to hand out its two effects, for four calls.
#[tactic(auto, unfolding(crate::specs::Counted::discount_part_f))]
fn discount_part(symbols: &mut [u16], records: &[u16], p: Part, w: Walk)
    ensures { symbols.new ≡ discount_part_f records.now p w symbols.old }
{
    mentions::discount_rows(symbols, records, p.from, w.visited);
    mentions::discount_rows(symbols, records, w.gap, p.end);
}

// The mentions of a part are added to the counts.
#[tactic(auto, unfolding(crate::specs::Counted::count_part_f))]
fn count_part(symbols: &mut [u16], records: &[u16], p: Part, w: Walk)
    ensures { symbols.new ≡ count_part_f records.now p w symbols.old }
{
    mentions::count_rows(symbols, records, p.from, w.visited);
    mentions::count_rows(symbols, records, w.gap, p.end);
}

// The next visit: what it may change is taken off the counts before it, and added after it.
#[tactic(auto, unfolding(crate::specs::Counted::visit_counted_f))]
fn visit_counted(walk: Walk, records: &mut [u16], scopes: &mut [u16], symbols: &mut [u16]) -> Walk
    ensures { tables records.new scopes.new symbols.new result
        ≡ visit_counted_f (tables records.old scopes.old symbols.old walk) }
{
    let part = part_of(records, walk);
    discount_part(symbols, records, part, walk);
    let w = visit(walk, records, scopes, symbols);
    count_part(symbols, records, part, w);
    w
}

// Once the walk is over: the import line, if it is due, and its mention.
#[tactic(auto, unfolding(crate::specs::Counted::complete_counted_f))]
fn complete_counted(walk: Walk, records: &mut [u16], symbols: &mut [u16]) -> Walk
    ensures { counted records.new symbols.new result
        ≡ complete_counted_f (counted records.old symbols.old walk) }
{
    let w = import_line::complete(records, walk);
    if import_line::import_due(walk.ctx) {
        let last = RecordId(import_line::LAST_IMPORT_ROW);
        mentions::count_rows(symbols, records, RecordId(1), last);
    }
    w
}

// A call for the next visit: after the last visit it adds the import line, if that is due; later calls change nothing. The counts of symbols are true
// after each.
#[tactic(auto, unfolding(crate::specs::Call::visit_call_f))]
pub fn visit_call(walk: Walk, records: &mut [u16], scopes: &mut [u16], symbols: &mut [u16]) -> Walk
    ensures { tables records.new scopes.new symbols.new result
        ≡ visit_call_f (tables records.old scopes.old symbols.old walk) }
{
    if is_over(walk, records) {
        return walk;
    }
    let w = visit_counted(walk, records, scopes, symbols);
    if is_over(w, records) {
        complete_counted(w, records, symbols)
    } else {
        w
    }
}
