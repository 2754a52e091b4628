// The scopes and symbols that a context makes. (Lent tables stay parameters, as `path::Walk` says why.)
#![tactic(auto)]

ghost use Rattle.std.specs.Prelude.{◌≡◌};
ghost use Rattle.tables.specs.Table.{capped};
ghost use Rattle.path.specs.Path.{current_scope_f, hoist_scope_f};
ghost use Rattle.scoping.specs.Changes.{in_scopes, in_symbols};
ghost use Rattle.creation.specs.Scopes.{scope_move, move_scope_f, is_passed_f, move_scopes_f, insert_scope_below_f};
ghost use Rattle.creation.specs.Creation.{in_rows, transforming, creating, make_context_f, load_context_f, transform_statements_f, with_ctx_f, create_catch_clause_f, create_try_stmt_f};
ghost use Rattle.creation.specs.Kinds.{for_block_f, for_body_f, for_static_block_f, for_try_part_f, for_loop_f, for_switch_f};

use meaning::{RecordId, ScopeId, SymbolId, known_name, scope_flag, symbol_flag};
use path::Walk;
use scoping::Ctx;
use statements::Parts;

// The counters, the context's symbol, and the form and the symbol of its Load.
#[derive(Clone, Copy)]
pub struct Transformed {
    pub ctx: Ctx,
    pub context: SymbolId,
    pub form: u16,
    pub load: SymbolId,
}

impl Transformed {
    // With other counters.
    #[tactic(auto, unfolding(crate::specs::Creation::with_ctx_f))]
    pub fn with_ctx(mut self, ctx: Ctx) -> Self
        ensures { result ≡ with_ctx_f self ctx }
    {
        self.ctx = ctx;
        self
    }
}

// The counters, and the numbers of a Try's rows.
#[derive(Clone, Copy)]
pub struct Created {
    pub ctx: Ctx,
    pub parts: Parts,
}

// The current scope and the hoist scope of the record to enter, or 0, as the clauses of `scopes_around` say (`current_scope_f`), so no `Option`.
#[derive(Clone, Copy)]
pub struct Around {
    pub current: ScopeId,
    pub hoist: ScopeId,
}

// Those of the next record.
pub fn scopes_around(records: &[u16], w: Walk) -> Around
    ensures current { result.current.0 ≡ current_scope_f records.now w.inner.0 w.visited.0 }
    ensures hoist { result.hoist.0 ≡ hoist_scope_f records.now w.inner.0 w.visited.0 }
{
    Around {
        current: path::current_scope(records, w.inner, w.visited.0),
        hoist: path::hoist_scope(records, w.inner, w.visited.0),
    }
}

// The last row looked at, how many records beside each other are still to be looked at, and how many to be passed over before.
#[derive(Clone, Copy)]
pub struct ScopeMove {
    pub at: RecordId,
    pub pending: u16,
    pub skip: u16,
}

// ---- scopes

// The next record: its scope gets the parent, and its children are passed over; a record without a scope is entered.
#[tactic(auto, unfolding(crate::specs::Scopes::move_scope_f))]
fn move_scope(
    records: &[u16],
    scopes: &mut [u16],
    ctx: Ctx,
    s: ScopeMove,
    parent: ScopeId,
) -> ScopeMove
    ensures { scope_move scopes.new result ≡ move_scope_f records.now ctx parent.0 (scope_move scopes.old s) }
{
    let r = tables::row_after(records, s.at);
    let at = RecordId(s.at.0.saturating_add(1));
    if s.skip != 0 {
        return ScopeMove {
            at,
            skip: s.skip.saturating_sub(1).saturating_add(r.n),
            ..s
        };
    }
    let pending = s.pending.saturating_sub(1);
    let scope = path::scope_of(r);
    if scope.0 == 0 {
        return ScopeMove {
            at,
            pending: pending.saturating_add(r.n),
            skip: 0,
        };
    }
    scoping::change_scope_parent(scopes, ctx, scope, parent);
    ScopeMove {
        at,
        pending,
        skip: r.n,
    }
}

// No record is left to look at.
#[tactic(auto, unfolding(crate::specs::Scopes::is_passed_f))]
fn is_passed(s: ScopeMove) -> bool
    ensures { result ≡ is_passed_f s }
{
    s.pending == 0 && s.skip == 0
}

// The outermost scopes of `n` records after a row get a parent.
#[tactic(auto, unfolding(crate::specs::Scopes::is_passed_f, crate::specs::Scopes::move_scopes_f), using(tables::specs::Loops::go_on, tables::specs::Loops::run_out, tables::specs::Loops::stopped))]
fn move_scopes(
    records: &[u16],
    scopes: &mut [u16],
    ctx: Ctx,
    after: RecordId,
    n: u16,
    parent: ScopeId,
)
    ensures { scopes.new ≡ move_scopes_f records.now (in_scopes scopes.old ctx) after.0 n parent.0 }
{
    let mut s = ScopeMove {
        at: after,
        pending: n,
        skip: 0,
    };
    for _ in 0..tables::LARGEST {
        if is_passed(s) {
            break;
        }
        s = move_scope(records, scopes, ctx, s, parent);
    }
}

// `insert_scope_below_statements`: a new scope below a scope, above `n` records after a row.
#[tactic(auto, unfolding(crate::specs::Scopes::insert_scope_below_f))]
pub fn insert_scope_below(
    records: &[u16],
    scopes: &mut [u16],
    ctx: Ctx,
    scope: ScopeId,
    after: RecordId,
    n: u16,
) -> Ctx
    ensures { in_scopes scopes.new result
        ≡ insert_scope_below_f records.now (in_scopes scopes.old ctx) scope.0 after.0 n }
{
    let made = scoping::create_child_scope(scopes, ctx, scope, 0);
    move_scopes(records, scopes, made, after, n, ScopeId(made.scopes));
    made
}

// ---- the context

// A context's symbol, on `using_ctx`.
#[tactic(auto, unfolding(crate::specs::Creation::make_context_f))]
pub fn make_context(symbols: &mut [u16], ctx: Ctx, scope: ScopeId) -> Ctx
    ensures { in_symbols symbols.new result ≡ make_context_f (in_symbols symbols.old ctx) scope.0 }
{
    let made = scoping::create_symbol(
        symbols,
        ctx,
        known_name::USING_CTX,
        symbol_flag::FUNCTION_SCOPED,
        scope,
        1,
    );
    made.new_context()
}

// The helper for a context that is made.
#[tactic(auto, unfolding(crate::specs::Creation::load_context_f))]
pub fn load_context(
    scopes: &[u16],
    symbols: &mut [u16],
    ctx: Ctx,
    context: SymbolId,
    cur: ScopeId,
) -> Transformed
    ensures { transforming symbols.new result
        ≡ load_context_f scopes.now (in_symbols symbols.old ctx) context.0 cur.0 }
{
    let loaded = helper_loader::helper_load(scopes, symbols, ctx, cur);
    Transformed {
        ctx: loaded.ctx,
        context,
        form: loaded.form,
        load: loaded.symbol,
    }
}

// `transform_statements`: the context's symbol in the hoist scope, and the helper.
#[tactic(auto, unfolding(crate::specs::Creation::transform_statements_f))]
pub fn transform_statements(
    scopes: &[u16],
    symbols: &mut [u16],
    ctx: Ctx,
    around: Around,
) -> Transformed
    ensures { transforming symbols.new result
        ≡ transform_statements_f scopes.now (in_symbols symbols.old ctx) around.current.0 around.hoist.0 }
{
    let made = make_context(symbols, ctx, around.hoist);
    load_context(
        scopes,
        symbols,
        made,
        SymbolId(made.symbols),
        around.current,
    )
}

// ---- the Try

// The flags of `_` in a Catch.
const ERROR_FLAGS: u16 = symbol_flag::FUNCTION_SCOPED + symbol_flag::CATCH;

// `create_catch_clause`: the Catch's scope, that of its body, and `_`.
#[tactic(auto, unfolding(crate::specs::Creation::create_catch_clause_f))]
fn create_catch_clause(scopes: &mut [u16], symbols: &mut [u16], ctx: Ctx, parent: ScopeId) -> Ctx
    ensures { in_rows scopes.new symbols.new result
        ≡ create_catch_clause_f (in_rows scopes.old symbols.old ctx) parent.0 }
{
    let caught = scoping::create_child_scope(scopes, ctx, parent, scope_flag::CATCH);
    let body = scoping::create_child_scope(scopes, caught, ScopeId(caught.scopes), 0);
    scoping::create_symbol(
        symbols,
        body,
        known_name::UNDERSCORE,
        ERROR_FLAGS,
        ScopeId(body.scopes),
        0,
    )
}

// `create_try_stmt`: the Catch and the last Block below the scope `parent`.
#[tactic(auto, unfolding(crate::specs::Creation::create_try_stmt_f))]
pub fn create_try_stmt(
    scopes: &mut [u16],
    symbols: &mut [u16],
    t: Transformed,
    parent: ScopeId,
    awaits: u16,
) -> Created
    ensures { creating scopes.new symbols.new result
        ≡ create_try_stmt_f scopes.old symbols.old t parent.0 awaits }
{
    let caught = create_catch_clause(scopes, symbols, t.ctx, parent);
    let parts = Parts {
        context: t.context,
        form: t.form,
        load: t.load,
        scope: ScopeId(t.ctx.scopes.saturating_add(1)),
        error: SymbolId(caught.symbols),
        step: statements::step_form(awaits),
    };
    Created {
        ctx: scoping::create_child_scope(scopes, caught, parent, 0),
        parts,
    }
}

// ---- by what the context is made for

// A Block statement.
#[tactic(auto, unfolding(crate::specs::Kinds::for_block_f))]
pub fn for_block(
    scopes: &mut [u16],
    symbols: &mut [u16],
    ctx: Ctx,
    around: Around,
    awaits: u16,
) -> Created
    ensures { creating scopes.new symbols.new result
        ≡ for_block_f (in_rows scopes.old symbols.old ctx) around.current.0 around.hoist.0 awaits }
{
    let t = transform_statements(scopes, symbols, ctx, around);
    create_try_stmt(scopes, symbols, t, around.current, awaits)
}

// The function body to enter: a new scope below the function's takes its list of `n` records, and what the function's scope binds block-scoped
// or as a class.
#[tactic(auto, unfolding(crate::specs::Kinds::for_body_f))]
pub fn for_body(
    records: &[u16],
    scopes: &mut [u16],
    symbols: &mut [u16],
    w: Walk,
    n: u16,
    awaits: u16,
) -> Created
    ensures { creating scopes.new symbols.new result
        ≡ for_body_f records.now (in_rows scopes.old symbols.old w.ctx) (current_scope_f records.now w.inner.0 w.visited.0) (hoist_scope_f records.now w.inner.0 w.visited.0) (capped w.gap.0 1) n awaits }
{
    let around = scopes_around(records, w);
    let current = around.current;
    let list = RecordId(w.gap.0.saturating_add(1));
    let t = transform_statements(scopes, symbols, w.ctx, around);
    let x = insert_scope_below(records, scopes, t.ctx, current, list, n);
    scoping::move_block_scoped(symbols, x, current, ScopeId(x.scopes));
    create_try_stmt(scopes, symbols, t.with_ctx(x), current, awaits)
}

// A static block: a new scope above its old one, which is strict and no static block any more.
#[tactic(auto, unfolding(crate::specs::Kinds::for_static_block_f))]
pub fn for_static_block(
    scopes: &mut [u16],
    symbols: &mut [u16],
    ctx: Ctx,
    old: ScopeId,
    awaits: u16,
) -> Created
    ensures { creating scopes.new symbols.new result
        ≡ for_static_block_f (in_rows scopes.old symbols.old ctx) old.0 awaits }
{
    let around = Around {
        current: old,
        hoist: old,
    };
    let t = transform_statements(scopes, symbols, ctx, around);
    let x = scoping::insert_scope_between(scopes, t.ctx, old, scope_flag::STATIC_BLOCK);
    let scope = ScopeId(x.scopes);
    scoping::move_binding(symbols, x, t.context, scope);
    scoping::set_scope_flags(scopes, x, old, scope_flag::STRICT);
    create_try_stmt(scopes, symbols, t.with_ctx(x), scope, awaits)
}

// A try part: a new scope above its old one; its context moves to the hoist scope.
#[tactic(auto, unfolding(crate::specs::Kinds::for_try_part_f))]
pub fn for_try_part(
    scopes: &mut [u16],
    symbols: &mut [u16],
    ctx: Ctx,
    around: Around,
    old: ScopeId,
    awaits: u16,
) -> Created
    ensures { creating scopes.new symbols.new result
        ≡ for_try_part_f (in_rows scopes.old symbols.old ctx) around.current.0 around.hoist.0 old.0 awaits }
{
    let part = Around {
        hoist: old,
        ..around
    };
    let t = transform_statements(scopes, symbols, ctx, part);
    let x = scoping::insert_scope_between(scopes, t.ctx, old, 0);
    let c = create_try_stmt(scopes, symbols, t.with_ctx(x), ScopeId(x.scopes), awaits);
    scoping::move_binding(symbols, c.ctx, t.context, around.hoist);
    c
}

// The For with its Labels to enter: a new scope above it.
#[tactic(auto, unfolding(crate::specs::Kinds::for_loop_f))]
pub fn for_loop(
    records: &[u16],
    scopes: &mut [u16],
    symbols: &mut [u16],
    w: Walk,
    awaits: u16,
) -> Created
    ensures { creating scopes.new symbols.new result
        ≡ for_loop_f records.now (in_rows scopes.old symbols.old w.ctx) (current_scope_f records.now w.inner.0 w.visited.0) (hoist_scope_f records.now w.inner.0 w.visited.0) w.gap.0 awaits }
{
    let around = scopes_around(records, w);
    let current = around.current;
    let made = make_context(symbols, w.ctx, around.hoist);
    let x = insert_scope_below(records, scopes, made, current, w.gap, 1);
    let t = load_context(scopes, symbols, x, SymbolId(made.symbols), current);
    create_try_stmt(scopes, symbols, t, current, awaits)
}

// A Switch: the context is bound in the current scope; a new scope above the Switch's.
#[tactic(auto, unfolding(crate::specs::Kinds::for_switch_f))]
pub fn for_switch(
    scopes: &mut [u16],
    symbols: &mut [u16],
    ctx: Ctx,
    cur: ScopeId,
    old: ScopeId,
    awaits: u16,
) -> Created
    ensures { creating scopes.new symbols.new result
        ≡ for_switch_f (in_rows scopes.old symbols.old ctx) cur.0 old.0 awaits }
{
    let made = make_context(symbols, ctx, cur);
    let x = scoping::create_child_scope(scopes, made, cur, 0);
    scoping::change_scope_parent(scopes, x, old, ScopeId(x.scopes));
    let t = load_context(scopes, symbols, x, SymbolId(made.symbols), cur);
    create_try_stmt(scopes, symbols, t, cur, awaits)
}
