// Usings taken up by a context, and the rows of the Try around them.
#![tactic(auto)]

ghost use Rattle.std.specs.Prelude.{◌≡◌};
ghost use Rattle.meaning.specs.Statements.{is_using, is_await_using, letter_if};
ghost use Rattle.tables.specs.Table.{capped, head_f};
ghost use Rattle.tables.specs.Stream.{buf};
ghost use Rattle.statements.specs.TakeUp.{has_initializer_f, as_const_f, take_up_declarator_f, take_up_declarators_f, take_up_item_f, take_up_f};
ghost use Rattle.statements.specs.Plan.{count_one_f, initializers_f, wraps_f, plan_one_f, plan_f, no_plan};
ghost use Rattle.statements.specs.Try.{line_f, step_form, declare_f, declare_context_f, catch_clause_f, finally_block_f, handlers_f, open_try_f, transform_list_f};

use meaning::{RecordId, ScopeId, SymbolId, kind, letter, parts, step_form, tag};
use tables::{Cursor, Row};

// The numbers of the rows that a context makes: its symbol, the form and the symbol of its Load, the Catch's scope (that of its body and that
// of the last Block come next), the symbol of `_`, and the form of the last Step. All are numbers as they go into rows.
#[derive(Clone, Copy)]
pub struct Parts {
    pub context: SymbolId,
    pub form: u16,
    pub load: SymbolId,
    pub scope: ScopeId,
    pub error: SymbolId,
    pub step: u16,
}

// The rows that a context adds where its list stays in its Block, besides a Call for each initializer: a Try; Declaration, Declarator, Name
// and Load of the context; Catch, Name, Block and Step; Block and Step.
pub const CONTEXT_ROWS: u16 = 11;

// The rows that a context adds where its list goes into a new Block: that Block, too.
pub const WRAPPED_CONTEXT_ROWS: u16 = 12;

// The last row looked at, and a count so far. Four loops count so, each with its own step: one loop for all would take the step as a closure,
// and its contract (what the step answers for every row) and the law of its recursion are longer than the four loops of three lines.
#[derive(Clone, Copy)]
pub struct Counting {
    pub at: RecordId,
    pub sum: u16,
}

// The last row looked at, and the usings, the `await using`s and the initializers of usings so far.
#[derive(Clone, Copy)]
pub struct Plan {
    pub at: RecordId,
    pub usings: u16,
    pub awaits: u16,
    pub wraps: u16,
}

// ---- tests

// A Declaration that is a using, or is recorded as one.
#[tactic(auto, unfolding(meaning::specs::Statements::is_using))]
pub fn is_using(r: Row) -> bool
    ensures { result ≡ is_using (head_f r) }
{
    r.tag == tag::DECLARATION && (kind::is_using(r.a) || kind::is_using(r.b))
}

// A Declaration that is an `await using`, or is recorded as one.
#[tactic(auto, unfolding(meaning::specs::Statements::is_await_using))]
pub fn is_await_using(r: Row) -> bool
    ensures { result ≡ is_await_using (head_f r) }
{
    r.tag == tag::DECLARATION && (r.a == kind::AWAIT_USING || r.b == kind::AWAIT_USING)
}

// The letter of a Call, by whether it is awaited.
fn letter_if(awaited: bool) -> u16
    ensures { result ≡ letter_if awaited }
{
    if awaited { letter::A } else { letter::U }
}

// A Declarator with a child behind its Names.
#[tactic(auto, unfolding(crate::specs::TakeUp::has_initializer_f))]
fn has_initializer(r: Row) -> bool
    ensures { result ≡ has_initializer_f r }
{
    r.tag == tag::DECLARATOR && r.b < r.n
}

// ---- taking up

// A Declarator; its initializer is called through the context.
#[tactic(auto, unfolding(crate::specs::TakeUp::take_up_declarator_f))]
fn take_up_declarator(records: &mut [u16], q: Cursor, letter: u16, context: SymbolId) -> Cursor
    ensures { buf records.new result ≡ take_up_declarator_f letter context.0 (buf records.old q) }
{
    let r = tables::row_after(records, q.read);
    let q1 = tables::copy_row(records, q);
    if has_initializer(r) {
        let q2 = tables::copy(records, q1, r.b);
        let q3 = tables::emit(
            records,
            q2,
            tables::closed_row(tag::CALL, letter, context.0, 0, 1),
        );
        tables::copy(records, q3, r.n.saturating_sub(r.b))
    } else {
        tables::copy(records, q1, r.n)
    }
}

// The n Declarators of a using; their initializers are called through the context.
// Its own loop: one for all such steps would take the step as a closure that holds lent tables. So it is with each loop over a list below
// and in the crates of the rewrites.
#[tactic(auto, unfolding(crate::specs::TakeUp::take_up_declarators_f), using(tables::specs::Loops::next_turn, tables::specs::Loops::last_turn))]
fn take_up_declarators(
    records: &mut [u16],
    start: Cursor,
    n: u16,
    letter: u16,
    context: SymbolId,
) -> Cursor
    ensures { buf records.new result ≡ take_up_declarators_f n letter context.0 (buf records.old start) }
{
    let mut q = start;
    for _ in 0..n {
        q = take_up_declarator(records, q, letter, context);
    }
    q
}

// A using becomes const; a recorded one is var already, and loses its mark.
#[tactic(auto, unfolding(crate::specs::TakeUp::as_const_f))]
fn as_const(r: Row) -> Row
    ensures { result ≡ as_const_f r }
{
    let kind = if r.b == 0 { kind::CONST } else { kind::VAR };
    tables::closed_row(tag::DECLARATION, kind, 0, 0, r.n)
}

// An item of a list: a using is taken up with the letter of its own kind.
#[tactic(auto, unfolding(crate::specs::TakeUp::take_up_item_f))]
fn take_up_item(records: &mut [u16], q: Cursor, context: SymbolId) -> Cursor
    ensures { buf records.new result ≡ take_up_item_f context.0 (buf records.old q) }
{
    let r = tables::row_after(records, q.read);
    if is_using(r) {
        let letter = letter_if(is_await_using(r));
        let q1 = tables::replace_row(records, q, as_const(r));
        take_up_declarators(records, q1, r.n, letter, context)
    } else {
        tables::copy(records, q, 1)
    }
}

// The usings of a list of n items. (A loop of its own, as `statements::take_up_declarators` says why.)
#[tactic(auto, unfolding(crate::specs::TakeUp::take_up_f), using(tables::specs::Loops::next_turn, tables::specs::Loops::last_turn))]
pub fn take_up(records: &mut [u16], start: Cursor, n: u16, context: SymbolId) -> Cursor
    ensures { buf records.new result ≡ take_up_f n context.0 (buf records.old start) }
{
    let mut q = start;
    for _ in 0..n {
        q = take_up_item(records, q, context);
    }
    q
}

// ---- counting first

// One Declarator more: counted if it has an initializer.
#[tactic(auto, unfolding(crate::specs::Plan::count_one_f))]
fn count_one(records: &[u16], s: Counting) -> Counting
    ensures { result ≡ count_one_f records.now s }
{
    let r = tables::row_after(records, s.at);
    Counting {
        at: tables::end_after(records, s.at, 1),
        sum: s.sum.saturating_add(u16::from(has_initializer(r))),
    }
}

// The initializers of n Declarators.
#[tactic(auto, unfolding(crate::specs::Plan::initializers_f), using(tables::specs::Loops::next_turn, tables::specs::Loops::last_turn))]
fn initializers(records: &[u16], after: RecordId, n: u16) -> u16
    ensures { result ≡ initializers_f records.now after.0 n }
{
    let mut s = Counting { at: after, sum: 0 };
    for _ in 0..n {
        s = count_one(records, s);
    }
    s.sum
}

// What taking up the item after a row wraps.
#[tactic(auto, unfolding(crate::specs::Plan::wraps_f))]
fn wraps(records: &[u16], after: RecordId) -> u16
    ensures { result ≡ wraps_f records.now after.0 }
{
    let r = tables::row_after(records, after);
    if is_using(r) {
        initializers(records, RecordId(after.0.saturating_add(1)), r.n)
    } else {
        0
    }
}

// One item more.
#[tactic(auto, unfolding(crate::specs::Plan::plan_one_f))]
fn plan_one(records: &[u16], p: Plan) -> Plan
    ensures { result ≡ plan_one_f records.now p }
{
    let r = tables::row_after(records, p.at);
    Plan {
        at: tables::end_after(records, p.at, 1),
        usings: p.usings.saturating_add(u16::from(is_using(r))),
        awaits: p.awaits.saturating_add(u16::from(is_await_using(r))),
        wraps: p.wraps.saturating_add(wraps(records, p.at)),
    }
}

// Counted on from a plan: n items after its last row. (A loop of its own beside those of `Counting`: it counts three things.)
#[tactic(auto, unfolding(crate::specs::Plan::plan_f), using(tables::specs::Loops::next_turn, tables::specs::Loops::last_turn))]
pub fn plan_list(records: &[u16], start: Plan, n: u16) -> Plan
    ensures { result ≡ plan_f records.now start n }
{
    let mut p = start;
    for _ in 0..n {
        p = plan_one(records, p);
    }
    p
}

// Nothing counted yet.
pub fn no_plan(after: RecordId) -> Plan
    ensures { result ≡ no_plan after.0 }
{
    Plan {
        at: after,
        usings: 0,
        awaits: 0,
        wraps: 0,
    }
}

// What the first n children of the record after a row come to.
pub fn plan_children(records: &[u16], after: RecordId, n: u16) -> Plan
    ensures { result ≡ plan_f records.now (no_plan (capped after.0 1)) n }
{
    let first = RecordId(after.0.saturating_add(1));
    plan_list(records, no_plan(first), n)
}

// ---- the rows of a Try

// `_usingCtx.d()` or `await _usingCtx.d()`, by how many usings of a list are awaited: the plan's count, so no `bool`.
#[tactic(auto, unfolding(crate::specs::Try::step_form))]
pub fn step_form(awaits: u16) -> u16
    ensures { result ≡ step_form awaits }
{
    if awaits == 0 {
        step_form::DISPOSE
    } else {
        step_form::AWAIT_DISPOSE
    }
}

// A Declaration of a name, up to its initializer.
#[tactic(auto, unfolding(crate::specs::Try::declare_f))]
pub fn declare(records: &mut [u16], q: Cursor, kind: u16, y: SymbolId) -> Cursor
    ensures { buf records.new result ≡ declare_f kind y.0 (buf records.old q) }
{
    let q1 = tables::emit(
        records,
        q,
        tables::closed_row(tag::DECLARATION, kind, 0, 0, 1),
    );
    let q2 = tables::emit(records, q1, tables::closed_row(tag::DECLARATOR, 0, 1, 0, 2));
    tables::emit(records, q2, tables::closed_row(tag::NAME, y.0, 0, 0, 0))
}

// `var _usingCtx = using_ctx();`
#[tactic(auto, unfolding(crate::specs::Try::declare_context_f))]
pub fn declare_context(records: &mut [u16], q: Cursor, p: Parts) -> Cursor
    ensures { buf records.new result ≡ declare_context_f p (buf records.old q) }
{
    let q1 = declare(records, q, kind::VAR, p.context);
    tables::emit(
        records,
        q1,
        tables::closed_row(tag::LOAD, p.form, p.load.0, 0, 0),
    )
}

// `catch (_) { _usingCtx.e = _; }`
#[tactic(auto, unfolding(crate::specs::Try::catch_clause_f))]
fn write_catch_clause(records: &mut [u16], q: Cursor, p: Parts) -> Cursor
    ensures { buf records.new result ≡ catch_clause_f p (buf records.old q) }
{
    let q1 = tables::emit(
        records,
        q,
        tables::closed_row(tag::CATCH, p.scope.0, 1, 0, 2),
    );
    let q2 = tables::emit(
        records,
        q1,
        tables::closed_row(tag::NAME, p.error.0, 0, 0, 0),
    );
    let q3 = tables::emit(
        records,
        q2,
        tables::closed_row(tag::BLOCK, p.scope.0.saturating_add(1), 0, 0, 1),
    );
    tables::emit(
        records,
        q3,
        tables::closed_row(tag::STEP, step_form::KEEP_ERROR, p.context.0, p.error.0, 0),
    )
}

// `finally { _usingCtx.d(); }`
#[tactic(auto, unfolding(crate::specs::Try::finally_block_f))]
fn write_finally_block(records: &mut [u16], q: Cursor, p: Parts) -> Cursor
    ensures { buf records.new result ≡ finally_block_f p (buf records.old q) }
{
    let q1 = tables::emit(
        records,
        q,
        tables::closed_row(tag::BLOCK, p.scope.0.saturating_add(2), 0, 0, 1),
    );
    tables::emit(
        records,
        q1,
        tables::closed_row(tag::STEP, p.step, p.context.0, 0, 0),
    )
}

// The Catch and the last Block.
#[tactic(auto, unfolding(crate::specs::Try::handlers_f))]
pub fn write_handlers(records: &mut [u16], q: Cursor, p: Parts) -> Cursor
    ensures { buf records.new result ≡ handlers_f p (buf records.old q) }
{
    let q1 = write_catch_clause(records, q, p);
    write_finally_block(records, q1, p)
}

// The Try's row and that of its first Block, with n children.
#[tactic(auto, unfolding(crate::specs::Try::open_try_f))]
pub fn open_try(records: &mut [u16], q: Cursor, scope: ScopeId, n: u16) -> Cursor
    ensures { buf records.new result ≡ open_try_f scope.0 n (buf records.old q) }
{
    let q1 = tables::emit(
        records,
        q,
        tables::closed_row(tag::TRY, parts::BOTH, 0, 0, 3),
    );
    tables::emit(
        records,
        q1,
        tables::closed_row(tag::BLOCK, scope.0, 0, 0, n),
    )
}

// A Module line of a form, with one Specifier.
#[tactic(auto, unfolding(crate::specs::Try::line_f))]
pub fn write_line(records: &mut [u16], q: Cursor, form: u16, y: SymbolId, name: u16) -> Cursor
    ensures { buf records.new result ≡ line_f form y.0 name (buf records.old q) }
{
    let q1 = tables::emit(
        records,
        q,
        tables::closed_row(tag::MODULE_LINE, form, 0, 0, 1),
    );
    tables::emit(
        records,
        q1,
        tables::closed_row(tag::SPECIFIER, y.0, name, 0, 0),
    )
}

// What stands in a Try around a list of n items, from its first Block's row on: the context, the list taken up, the handlers.
#[tactic(auto, unfolding(crate::specs::Try::transform_list_f))]
pub fn transform_list(records: &mut [u16], q: Cursor, n: u16, p: Parts) -> Cursor
    ensures { buf records.new result ≡ transform_list_f n p (buf records.old q) }
{
    let q1 = declare_context(records, q, p);
    let q2 = take_up(records, q1, n, p.context);
    write_handlers(records, q2, p)
}
