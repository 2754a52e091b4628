// `enter_for_of_statement`: `for (using x of e)` becomes `for (const _x of e)`, and `using x = _x` goes into the body.
//
// The rows of such a ForOf: its own, the Declaration's, the Declarator's, the Name's, then the expression and the body.
#![tactic(auto)]

ghost use Rattle.std.specs.Prelude.{◌≡◌};
ghost use Rattle.path.specs.Path.{tables};
ghost use Rattle.scoping.specs.Changes.{in_symbols};
ghost use Rattle.tables.specs.Stream.{buf};
ghost use Rattle.rewrite_for_of.specs.ForOf.{is_identifier_f, takes_using_f, using_symbol_f, body_after_f, inserts_f, make_temp_f, left_rows_f, using_rows_f, insert_rows_f, wrap_rows_f, insert_using_f, wrap_body_f};

use meaning::{RecordId, ScopeId, SymbolId, kind, symbol_flag, tag};
use path::Walk;
use scoping::Ctx;
use tables::{Cursor, Row, record, symbol};

// ---- what is done

// A Declarator that binds an identifier.
#[tactic(auto, unfolding(crate::specs::ForOf::is_identifier_f))]
fn is_identifier(r: Row) -> bool
    ensures { result ≡ is_identifier_f r }
{
    r.tag == tag::DECLARATOR && r.a == 0
}

// The ForOf after a row has a using of an identifier on its left side.
#[tactic(auto, unfolding(crate::specs::ForOf::takes_using_f))]
pub fn takes_using(records: &[u16], after: RecordId) -> bool
    ensures { result ≡ takes_using_f records.now after.0 }
{
    let left = tables::row_after(records, RecordId(after.0.saturating_add(1)));
    let declarator = tables::row_after(records, RecordId(after.0.saturating_add(2)));
    tables::column(records, after, record::N) >= 3
        && left.n != 0
        && statements::is_using(left)
        && is_identifier(declarator)
}

// The symbol of the ForOf's using.
#[tactic(auto, unfolding(crate::specs::ForOf::using_symbol_f))]
fn using_symbol(records: &[u16], after: RecordId) -> SymbolId
    ensures { result.0 ≡ using_symbol_f records.now after.0 }
{
    SymbolId(tables::column(records, RecordId(after.0.saturating_add(3)), record::A))
}

// The row before the ForOf's body.
#[tactic(auto, unfolding(crate::specs::ForOf::body_after_f))]
fn body_after(records: &[u16], after: RecordId) -> RecordId
    ensures { result.0 ≡ body_after_f records.now after.0 }
{
    tables::end_after(records, RecordId(after.0.saturating_add(1)), 2)
}

// The body is a Block that does not bind the using's name, by the symbol rows as read.
#[tactic(auto, unfolding(crate::specs::ForOf::inserts_f))]
pub fn inserts(records: &[u16], symbols: &[u16], ctx: Ctx, after: RecordId) -> bool
    ensures { result ≡ inserts_f records.now (in_symbols symbols.now ctx) after.0 }
{
    let r = tables::row_after(records, body_after(records, after));
    let y = using_symbol(records, after);
    r.tag == tag::BLOCK && !scoping::binds_name(symbols, ctx, ScopeId(r.a), y)
}

// ---- rows

// The flags of the new symbol.
const TEMP_FLAGS: u16 = symbol_flag::BLOCK_SCOPED + symbol_flag::CONST;

// The rows of a using in the body: Declaration, Declarator, Name and Read; and with a Block around the body.
const USING_ROWS: u16 = 4;

const WRAPPED_USING_ROWS: u16 = 5;

// A new symbol for the using's name in the ForOf's scope.
#[tactic(auto, unfolding(crate::specs::ForOf::make_temp_f))]
fn make_temp(symbols: &mut [u16], ctx: Ctx, y: SymbolId, scope: ScopeId) -> Ctx
    ensures { in_symbols symbols.new result ≡ make_temp_f (in_symbols symbols.old ctx) y.0 scope.0 }
{
    let name = scoping::symbol_number(symbols, ctx.symbols, y, symbol::NAME);
    scoping::create_symbol(symbols, ctx, name, TEMP_FLAGS, scope, 1)
}

// The ForOf up to its body, its using bound to the new symbol and const.
#[tactic(auto, unfolding(crate::specs::ForOf::left_rows_f))]
fn write_left(records: &mut [u16], q: Cursor, temp: SymbolId) -> Cursor
    ensures { buf records.new result ≡ left_rows_f temp.0 (buf records.old q) }
{
    let q1 = tables::copy_row(records, q);
    let declarators = tables::column(records, q1.read, record::N);
    let q2 = tables::replace_row(
        records,
        q1,
        tables::closed_row(tag::DECLARATION, kind::CONST, 0, 0, declarators),
    );
    let m = tables::column(records, q2.read, record::N);
    let q3 = tables::copy_row(records, q2);
    let below = tables::column(records, q3.read, record::N);
    let q4 = tables::replace_row(
        records,
        q3,
        tables::closed_row(tag::NAME, temp.0, 0, 0, below),
    );
    let rest = below
        .saturating_add(m.saturating_sub(1))
        .saturating_add(declarators);
    tables::copy(records, q4, rest)
}

// The using that goes into the body: its kind, its symbol, and the symbol of its value.
#[derive(Clone, Copy)]
struct Using {
    kind: u16,
    symbol: SymbolId,
    temp: SymbolId,
}

// `using x = _x`
#[tactic(auto, unfolding(crate::specs::ForOf::using_rows_f))]
fn write_using(records: &mut [u16], q: Cursor, u: Using) -> Cursor
    ensures { buf records.new result ≡ using_rows_f u.kind u.symbol.0 u.temp.0 (buf records.old q) }
{
    let q1 = statements::declare(records, q, u.kind, u.symbol);
    tables::emit(
        records,
        q1,
        tables::closed_row(tag::READ, u.temp.0, 0, 0, 0),
    )
}

// The using at index 0 of the body.
#[tactic(auto, unfolding(crate::specs::ForOf::insert_rows_f))]
fn write_insert(records: &mut [u16], q: Cursor, u: Using) -> Cursor
    ensures { buf records.new result ≡ insert_rows_f u.kind u.symbol.0 u.temp.0 (buf records.old q) }
{
    let q1 = write_left(records, q, u.temp);
    let r = tables::row_after(records, q1.read);
    let q2 = tables::replace_row(
        records,
        q1,
        tables::closed_row(r.tag, r.a, r.b, r.c, r.n.saturating_add(1)),
    );
    write_using(records, q2, u)
}

// The body in a new Block, with the using before it.
#[tactic(auto, unfolding(crate::specs::ForOf::wrap_rows_f))]
fn write_wrap(records: &mut [u16], q: Cursor, u: Using, scope: ScopeId) -> Cursor
    ensures { buf records.new result ≡ wrap_rows_f u.kind u.symbol.0 u.temp.0 scope.0 (buf records.old q) }
{
    let q1 = write_left(records, q, u.temp);
    let q2 = tables::emit(
        records,
        q1,
        tables::closed_row(tag::BLOCK, scope.0, 0, 0, 2),
    );
    write_using(records, q2, u)
}

// ---- `enter_for_of_statement`

// The using goes in at index 0 of the body, and moves to the body's scope. It begins as `wrap_body` does; where the two part, the new symbol is
// made already, and the definitions of both make it for themselves.
#[tactic(auto, unfolding(crate::specs::ForOf::insert_using_f))]
pub fn insert_using(records: &mut [u16], scopes: &[u16], symbols: &mut [u16], w: Walk) -> Walk
    ensures { tables records.new scopes.now symbols.new result
        ≡ insert_using_f (tables records.old scopes.now symbols.old w) }
{
    let read = w.gap;
    let y = using_symbol(records, read);
    let kind = tables::column(records, RecordId(read.0.saturating_add(1)), record::A);
    let scope = ScopeId(tables::column(records, read, record::A));
    let x = make_temp(symbols, w.ctx, y, scope);
    let u = Using {
        kind,
        symbol: y,
        temp: SymbolId(x.symbols),
    };
    let body = body_after(records, read);
    let inside = ScopeId(tables::column(records, body, record::A));
    scoping::move_binding(symbols, x, y, inside);
    let v = w.charge(USING_ROWS);
    let q = Cursor {
        read,
        written: v.gap,
    };
    write_insert(records, q, u);
    v.with_ctx(x)
}

// The body goes into a new Block below the ForOf's scope, the using before it and in the Block's scope.
#[tactic(auto, unfolding(crate::specs::ForOf::wrap_body_f))]
pub fn wrap_body(records: &mut [u16], scopes: &mut [u16], symbols: &mut [u16], w: Walk) -> Walk
    ensures { tables records.new scopes.new symbols.new result
        ≡ wrap_body_f (tables records.old scopes.old symbols.old w) }
{
    let read = w.gap;
    let y = using_symbol(records, read);
    let kind = tables::column(records, RecordId(read.0.saturating_add(1)), record::A);
    let scope = ScopeId(tables::column(records, read, record::A));
    let x = make_temp(symbols, w.ctx, y, scope);
    let u = Using {
        kind,
        symbol: y,
        temp: SymbolId(x.symbols),
    };
    let body = body_after(records, read);
    let made = creation::insert_scope_below(records, scopes, x, scope, body, 1);
    let inside = ScopeId(made.scopes);
    scoping::move_binding(symbols, made, y, inside);
    let v = w.charge(WRAPPED_USING_ROWS);
    let q = Cursor {
        read,
        written: v.gap,
    };
    write_wrap(records, q, u, inside);
    v.with_ctx(made)
}
