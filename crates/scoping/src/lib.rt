// Scope and symbol rows in lent tables: what the Rust calls `ctx.scoping()`.
//
// A scope row takes two numbers, parent and flags; a symbol row five: name, flags, scope, made, and the scope that was read. Rows are
// numbered from 1, new ones come behind the others, and the tables are 0 behind the last row, up to the counts of symbols (`tables::counts_at`),
// which nothing here looks at.
#![tactic(auto)]

ghost use Rattle.std.specs.Prelude.{◌≡◌, ◌+◌, ◌*◌, ◌-◌, ◌≤◌, ◌<◌, length};
ghost use Rattle.meaning.specs.Scoping.{binds, get_binding, find_binding, is_among_bindings};
ghost use Rattle.meaning.specs.ForOf.{binds_name};
ghost use Rattle.tables.specs.Columns.SymbolTable;
ghost use Rattle.tables.specs.Table.{capped};
ghost use Rattle.scoping.specs.Rows.{with_scope, with_symbol, with_context, with_helper, scope_number, symbol_number, number_f, set_number_f, set_scope_f, set_symbol_f, symbol_at, symbols_f, store_f, block_scoped};
ghost use Rattle.scoping.specs.Search.{next_row_f, Finds, binding_from};
ghost use Rattle.scoping.specs.Candidates.{add_candidate_f, candidates_f, climbs_f};
ghost use Rattle.scoping.specs.declared.Candidates.TheVariants.{NoRow};
ghost use Rattle.scoping.specs.Changes.{in_scopes, in_symbols, create_child_scope_f, change_scope_parent_f, set_scope_flags_f, insert_scope_between_f, create_symbol_f, move_binding_f, set_symbol_flags_f, moves_f, move_bound_f, move_block_scoped_f};

use meaning::{ScopeId, SymbolId, symbol_flag};
use tables::{Cursor, scope, symbol};

// The first scope row: the root scope.
pub const ROOT: u16 = 1;

// The settings (mode, and 1 for a module), how many rows there are and how many symbol rows were read, the runtime helper's symbol or 0, and the contexts made.
#[derive(Clone, Copy)]
pub struct Ctx {
    pub mode: u16,
    // The file's number, as in the definitions (`store_f`), and no `bool`.
    pub esm: u16,
    pub scopes: u16,
    pub symbols: u16,
    pub read: u16,
    pub helper: SymbolId,
    pub contexts: u16,
}

impl Ctx {
    // One scope row more.
    #[tactic(auto, unfolding(crate::specs::Rows::with_scope))]
    pub fn new_scope(mut self) -> Self
        ensures { result ≡ with_scope self }
    {
        self.scopes = self.scopes.saturating_add(1);
        self
    }

    // One symbol row more.
    #[tactic(auto, unfolding(crate::specs::Rows::with_symbol))]
    pub fn new_symbol(mut self) -> Self
        ensures { result ≡ with_symbol self }
    {
        self.symbols = self.symbols.saturating_add(1);
        self
    }

    // One context more.
    #[tactic(auto, unfolding(crate::specs::Rows::with_context))]
    pub fn new_context(mut self) -> Self
        ensures { result ≡ with_context self }
    {
        self.contexts = self.contexts.saturating_add(1);
        self
    }

    // With the symbol of the runtime helper.
    #[tactic(auto, unfolding(crate::specs::Rows::with_helper))]
    pub fn with_helper(mut self, y: SymbolId) -> Self
        ensures { result ≡ with_helper self y.0 }
    {
        self.helper = y;
        self
    }
}

// Rows while they are rewritten: how far they are read and written, and the counters.
#[derive(Clone, Copy)]
pub struct Rewriting {
    pub at: Cursor,
    pub ctx: Ctx,
}

// The columns as places in a row.
const SCOPE_FLAGS: usize = scope::FLAGS as usize;

const FLAGS: usize = symbol::FLAGS as usize;

const SCOPE: usize = symbol::SCOPE as usize;

const MADE: usize = symbol::MADE as usize;

// ---- numbers of rows

// A number of row i, by 1, of the first `count` rows of `width` numbers, or 0 if there is no such row: the clauses of `scope_number` and
// `symbol_number` have that 0, so no `Option`.
fn number(rows: &[u16], width: usize, count: u16, i: u16, f: u16) -> u16
    requires narrow { width ≤ SymbolTable.Numbers }
    ensures { result ≡ number_f width rows.now count i f }
{
    if i == 0 || count < i {
        return 0;
    }
    tables::get(rows, ((i - 1) as usize) * width + (f as usize))
}

// Stores a number of row i; if there are fewer rows nothing happens.
fn put_number(rows: &mut [u16], width: usize, count: u16, i: u16, f: u16, v: u16)
    requires narrow { width ≤ SymbolTable.Numbers }
    ensures { rows.new ≡ set_number_f width rows.old count i f v }
{
    if i != 0 && i <= count {
        tables::put(rows, ((i - 1) as usize) * width + (f as usize), v);
    }
}

// A number of one of the first `count` scope rows, or 0 if there is no such row.
#[tactic(auto, unfolding(crate::specs::Rows::scope_number))]
pub fn scope_number(scopes: &[u16], count: u16, s: ScopeId, f: u16) -> u16
    ensures { result ≡ scope_number scopes.now count s.0 f }
{
    number(scopes, scope::NUMBERS, count, s.0, f)
}

// Stores a number of a scope row; if there are fewer rows nothing happens.
#[tactic(auto, unfolding(crate::specs::Rows::set_scope_f))]
fn put_scope(scopes: &mut [u16], count: u16, s: ScopeId, f: u16, v: u16)
    ensures { scopes.new ≡ set_scope_f scopes.old count s.0 f v }
{
    put_number(scopes, scope::NUMBERS, count, s.0, f, v);
}

// A number of one of the first `count` symbol rows, or 0 if there is no such row.
#[tactic(auto, unfolding(crate::specs::Rows::symbol_number))]
pub fn symbol_number(symbols: &[u16], count: u16, y: SymbolId, f: u16) -> u16
    ensures { result ≡ symbol_number symbols.now count y.0 f }
{
    number(symbols, symbol::NUMBERS, count, y.0, f)
}

// Stores a number of a symbol row; if there are fewer rows nothing happens.
#[tactic(auto, unfolding(crate::specs::Rows::set_symbol_f))]
fn put_symbol(symbols: &mut [u16], count: u16, y: SymbolId, f: u16, v: u16)
    ensures { symbols.new ≡ set_symbol_f symbols.old count y.0 f v }
{
    put_number(symbols, symbol::NUMBERS, count, y.0, f, v);
}

// ---- scopes
//
// Each setter is a call that the Rust makes by this name; one that took the column would be called by all of them.

// `create_child_scope`: a new scope takes strict from its parent besides its flags.
#[tactic(auto, unfolding(crate::specs::Changes::create_child_scope_f))]
pub fn create_child_scope(scopes: &mut [u16], ctx: Ctx, parent: ScopeId, flags: u16) -> Ctx
    ensures { in_scopes scopes.new result ≡ create_child_scope_f (in_scopes scopes.old ctx) parent.0 flags }
{
    let at = (ctx.scopes as usize) * scope::NUMBERS;
    let strict = scope_number(scopes, ctx.scopes, parent, scope::FLAGS) % 2;
    tables::put(scopes, at, parent.0);
    tables::put(scopes, at + SCOPE_FLAGS, flags.saturating_add(strict));
    ctx.new_scope()
}

// `change_scope_parent_id`
#[tactic(auto, unfolding(crate::specs::Changes::change_scope_parent_f))]
pub fn change_scope_parent(scopes: &mut [u16], ctx: Ctx, s: ScopeId, parent: ScopeId)
    ensures { scopes.new ≡ change_scope_parent_f (in_scopes scopes.old ctx) s.0 parent.0 }
{
    put_scope(scopes, ctx.scopes, s, scope::PARENT, parent.0);
}

// `scope_flags_mut`
#[tactic(auto, unfolding(crate::specs::Changes::set_scope_flags_f))]
pub fn set_scope_flags(scopes: &mut [u16], ctx: Ctx, s: ScopeId, flags: u16)
    ensures { scopes.new ≡ set_scope_flags_f (in_scopes scopes.old ctx) s.0 flags }
{
    put_scope(scopes, ctx.scopes, s, scope::FLAGS, flags);
}

// `insert_scope_between`: a new scope above a scope, below the one that it was below.
#[tactic(auto, unfolding(crate::specs::Changes::insert_scope_between_f))]
pub fn insert_scope_between(scopes: &mut [u16], ctx: Ctx, s: ScopeId, flags: u16) -> Ctx
    ensures { in_scopes scopes.new result ≡ insert_scope_between_f (in_scopes scopes.old ctx) s.0 flags }
{
    let parent = ScopeId(scope_number(scopes, ctx.scopes, s, scope::PARENT));
    let made = create_child_scope(scopes, ctx, parent, flags);
    change_scope_parent(scopes, made, s, ScopeId(made.scopes));
    made
}

// ---- symbols

// `create_symbol`: a new symbol row; made is 1 for a unique name, else 0, or what another row has there.
#[tactic(auto, unfolding(crate::specs::Changes::create_symbol_f))]
pub fn create_symbol(
    symbols: &mut [u16],
    ctx: Ctx,
    name: u16,
    flags: u16,
    scope: ScopeId,
    made: u16,
) -> Ctx
    ensures { in_symbols symbols.new result ≡ create_symbol_f (in_symbols symbols.old ctx) name flags scope.0 made }
{
    let at = (ctx.symbols as usize) * symbol::NUMBERS;
    tables::put(symbols, at, name);
    tables::put(symbols, at + FLAGS, flags);
    tables::put(symbols, at + SCOPE, scope.0);
    tables::put(symbols, at + MADE, made);
    ctx.new_symbol()
}

// `move_binding_by_symbol_id`
#[tactic(auto, unfolding(crate::specs::Changes::move_binding_f))]
pub fn move_binding(symbols: &mut [u16], ctx: Ctx, y: SymbolId, scope: ScopeId)
    ensures { symbols.new ≡ move_binding_f (in_symbols symbols.old ctx) y.0 scope.0 }
{
    put_symbol(symbols, ctx.symbols, y, symbol::SCOPE, scope.0);
}

// `symbol_flags_mut`
#[tactic(auto, unfolding(crate::specs::Changes::set_symbol_flags_f))]
pub fn set_symbol_flags(symbols: &mut [u16], ctx: Ctx, y: SymbolId, flags: u16)
    ensures { symbols.new ≡ set_symbol_flags_f (in_symbols symbols.old ctx) y.0 flags }
{
    put_symbol(symbols, ctx.symbols, y, symbol::FLAGS, flags);
}

// ---- the next row that has a number in a column

// The rows that are looked at in one go; those before the last of them, and the numbers of these.
const AT_ONCE: u16 = 8;

const BEFORE_LAST: u16 = 7;

const NUMBERS_BEFORE_LAST: usize = 7 * symbol::NUMBERS;

// The first of eight rows from row i on that has the number in column f.
fn next_of_eight(symbols: &[u16], f: u16, want: u16, i: u16) -> Option<u16>
    requires f_in_bounds { i * SymbolTable.Numbers + f + 35 < length symbols.now }
    requires i_bound { i + 8 < 65536 }
    ensures { Finds (i + 8) (next_row_f symbols.now f want 8 i) result }
{
    (i..i + AT_ONCE).find(|&k| symbols[(k as usize) * symbol::NUMBERS + (f as usize)] == want)
}

// The first row from row i on that has the number in column f, of the first `count`: row by row.
fn next_near(symbols: &[u16], count: u16, f: u16, want: u16, i: u16) -> Option<u16>
    ensures { Finds count (next_row_f symbols.now f want (count - i) i) result }
{
    (i..count).find(|&k| tables::get(symbols, (k as usize) * symbol::NUMBERS + (f as usize))
        == want)
}

// The first row from row i on that has the number in column f, of the first `count`: eight rows at a time, as long as there are eight in
// the table. Column, number and row are three numbers of every search, and a struct would be made anew for each.
fn next_row(symbols: &[u16], count: u16, f: u16, want: u16, i: u16) -> Option<u16>
    ensures { Finds count (next_row_f symbols.now f want (count - i) i) result }
{
    let stop = count.saturating_sub(BEFORE_LAST);
    let mut k = i;
    // No `for`: the search goes on row by row where this loop ends.
    while k < stop {
        if symbols.len() <= (k as usize) * symbol::NUMBERS + (f as usize) + NUMBERS_BEFORE_LAST {
            break;
        }
        if let Some(r) = next_of_eight(symbols, f, want, k) {
            return Some(r);
        }
        k += AT_ONCE;
    }
    next_near(symbols, count, f, want, k)
}

// ---- bindings

// A name that is looked for in a scope; column f has the scopes.
#[derive(Clone, Copy)]
struct Sought {
    f: u16,
    scope: ScopeId,
    name: u16,
}

// The row after i others binds the name in the scope.
#[tactic(auto, unfolding(meaning::specs::Scoping::binds, crate::specs::Rows::symbol_at))]
fn binds_at(symbols: &[u16], i: u16, sought: Sought) -> bool
    ensures { result ≡ binds (symbol_at symbols.now sought.f i) sought.scope.0 sought.name }
{
    let at = (i as usize) * symbol::NUMBERS;
    tables::get(symbols, at + MADE) == 0
        && tables::get(symbols, at + (sought.f as usize)) == sought.scope.0
        && tables::get(symbols, at) == sought.name
}

// The last of `count` rows that binds the name, where `before` is the last one before row `start`.
fn binding_from(
    symbols: &[u16],
    count: u16,
    sought: Sought,
    start: u16,
    before: SymbolId,
) -> SymbolId
    ensures { result.0 ≡ binding_from symbols.now sought.f count sought.scope.0 sought.name start before.0 }
{
    let mut found = before;
    let mut i = start;
    // Searched again behind each match: an iterator of matches would be longer than this loop.
    while let Some(at) = next_row(symbols, count, symbol::NAME, sought.name, i) {
        if binds_at(symbols, at, sought) {
            found = SymbolId(at + 1);
        }
        i = at + 1;
    }
    found
}

// `get_binding`: the last of `count` rows that binds the name; column f has the scope. No row is 0, as in the tables and in the contract.
pub fn get_binding(symbols: &[u16], count: u16, f: u16, scope: ScopeId, name: u16) -> SymbolId
    ensures { result.0 ≡ get_binding (symbols_f symbols.now f count 0) scope.0 name }
{
    binding_from(symbols, count, Sought { f, scope, name }, 0, SymbolId(0))
}

// The name seen from a scope, or 0 as in `find_binding`'s clause: all symbol rows are looked at for each scope on the way outwards.
fn search_outwards(scopes: &[u16], symbols: &[u16], ctx: Ctx, from: ScopeId, name: u16) -> SymbolId
    ensures { result.0 ≡ find_binding ctx.scopes (store_f scopes.now symbols.now ctx) from.0 name }
{
    let count = ctx.scopes;
    let mut scope = from;
    for _ in 0..count {
        let here = get_binding(symbols, ctx.symbols, symbol::SCOPE, scope, name);
        if here.0 != 0 {
            return here;
        }
        if scope.0 == 0 {
            return SymbolId(0);
        }
        scope = ScopeId(scope_number(scopes, count, scope, scope::PARENT));
    }
    SymbolId(0)
}

// The rows that bind a name in whatever scope: none, one and its scope, or more.
#[derive(Clone, Copy)]
enum Candidates {
    NoRow,
    OneRow(SymbolId, ScopeId),
    MoreRows,
}

// The candidates seen before, with the row after i others if it is one.
#[tactic(auto, unfolding(crate::specs::Candidates::add_candidate_f, crate::specs::Candidates::one_more, crate::specs::Rows::symbol_at))]
fn add_candidate(symbols: &[u16], i: u16, name: u16, seen: Candidates) -> Candidates
    ensures { result ≡ add_candidate_f (symbol_at symbols.now SymbolTable.Scope i) name (capped i 1) seen }
{
    let at = (i as usize) * symbol::NUMBERS;
    if tables::get(symbols, at) != name || tables::get(symbols, at + MADE) != 0 {
        return seen;
    }
    match seen {
        Candidates::NoRow => Candidates::OneRow(
            SymbolId(i.saturating_add(1)),
            ScopeId(tables::get(symbols, at + SCOPE)),
        ),
        Candidates::OneRow(_, _) | Candidates::MoreRows => Candidates::MoreRows,
    }
}

// The candidates among the first `count` rows.
fn find_candidates(symbols: &[u16], count: u16, name: u16) -> Candidates
    ensures { result ≡ candidates_f (symbols_f symbols.now SymbolTable.Scope count 0) name 1 NoRow }
{
    let mut seen = Candidates::NoRow;
    let mut i = 0;
    // Searched again behind each match: an iterator of matches would be longer than this loop.
    while let Some(at) = next_row(symbols, count, symbol::NAME, name, i) {
        seen = add_candidate(symbols, at, name, seen);
        i = at + 1;
    }
    seen
}

// The scope `to` is met on the way from a scope outwards.
fn climbs_to(scopes: &[u16], count: u16, from: ScopeId, to: ScopeId) -> bool
    ensures { result ≡ climbs_f count scopes.now count from.0 to.0 }
{
    let mut scope = from;
    for _ in 0..count {
        if to.0 == scope.0 {
            return true;
        }
        if scope.0 == 0 {
            return false;
        }
        scope = ScopeId(scope_number(scopes, count, scope, scope::PARENT));
    }
    false
}

// `find_binding`: the name seen from a scope, or 0, which a Load's row has for none, so no `Option`. If one row alone binds the name, only that
// row's scope is looked for.
pub fn find_binding(scopes: &[u16], symbols: &[u16], ctx: Ctx, from: ScopeId, name: u16) -> SymbolId
    ensures { result.0 ≡ find_binding ctx.scopes (store_f scopes.now symbols.now ctx) from.0 name }
{
    match find_candidates(symbols, ctx.symbols, name) {
        Candidates::NoRow => SymbolId(0),
        Candidates::OneRow(row, scope) => if climbs_to(scopes, ctx.scopes, from, scope) {
            row
        } else {
            SymbolId(0)
        },
        Candidates::MoreRows => search_outwards(scopes, symbols, ctx, from, name),
    }
}

// The scope binds the symbol's name, by the symbol rows as read.
#[tactic(auto, unfolding(meaning::specs::ForOf::binds_name), using(crate::proofs::Laws::made_is, crate::proofs::Laws::name_is))]
pub fn binds_name(symbols: &[u16], ctx: Ctx, scope: ScopeId, y: SymbolId) -> bool
    ensures { result ≡ binds_name (symbols_f symbols.now SymbolTable.ReadScope ctx.read 0) scope.0 y.0 }
{
    let name = symbol_number(symbols, ctx.read, y, symbol::NAME);
    symbol_number(symbols, ctx.read, y, symbol::MADE) == 0
        && get_binding(symbols, ctx.read, symbol::READ_SCOPE, scope, name).0 != 0
}

// ---- what a scope binds

// A block-scoped name, or a class.
#[tactic(auto, unfolding(crate::specs::Rows::block_scoped))]
fn is_block_scoped(flags: u16) -> bool
    ensures { result ≡ block_scoped flags }
{
    flags / symbol_flag::BLOCK_SCOPED % 2 == 1 || flags / symbol_flag::CLASS % 2 == 1
}

// The row after i others is bound in the scope: a unique name, or the last row of its name, so that only the rows behind it are looked at. Two
// answers come before the search is set up, which as one expression would stand in the middle of it.
#[tactic(auto, unfolding(meaning::specs::Scoping::is_among_bindings, crate::specs::Rows::symbol_at))]
fn is_bound(symbols: &[u16], count: u16, scope: ScopeId, i: u16) -> bool
    requires { i < count }
    ensures { result
        ≡ is_among_bindings (symbols_f symbols.now SymbolTable.Scope count 0) scope.0 (capped i 1) (symbol_at symbols.now SymbolTable.Scope i) }
{
    let at = (i as usize) * symbol::NUMBERS;
    if tables::get(symbols, at + SCOPE) != scope.0 {
        return false;
    }
    if tables::get(symbols, at + MADE) != 0 {
        return true;
    }
    let sought = Sought {
        f: symbol::SCOPE,
        scope,
        name: tables::get(symbols, at),
    };
    binding_from(symbols, count, sought, i + 1, SymbolId(i + 1)).0 == i + 1
}

// The row after i others is bound in the scope, block-scoped or as a class.
#[tactic(auto, unfolding(crate::specs::Changes::moves_f), using(std::proofs::lemmas::Nat::and_comm))]
fn moves(symbols: &[u16], ctx: Ctx, from: ScopeId, i: u16) -> bool
    requires { i < ctx.symbols }
    ensures { result ≡ moves_f (in_symbols symbols.now ctx) from.0 i }
{
    is_block_scoped(tables::get(symbols, (i as usize) * symbol::NUMBERS + FLAGS))
        && is_bound(symbols, ctx.symbols, from, i)
}

// The row after i others moves to another scope if it is bound in the scope, block-scoped or as a class.
#[tactic(auto, unfolding(crate::specs::Changes::move_bound_f))]
fn move_bound(symbols: &mut [u16], ctx: Ctx, from: ScopeId, to: ScopeId, i: u16)
    requires { i < ctx.symbols }
    ensures { symbols.new ≡ move_bound_f (in_symbols symbols.old ctx) from.0 to.0 i }
{
    if moves(symbols, ctx, from, i) {
        move_binding(symbols, ctx, SymbolId(i.saturating_add(1)), to);
    }
}

// All that a scope binds block-scoped or as a class moves to another scope.
pub fn move_block_scoped(symbols: &mut [u16], ctx: Ctx, from: ScopeId, to: ScopeId)
    ensures { symbols.new ≡ move_block_scoped_f (in_symbols symbols.old ctx) from.0 to.0 }
{
    let count = ctx.symbols;
    let mut i = 0;
    // Searched again behind each match: an iterator of matches could not hold the rows that are written here.
    while let Some(at) = next_row(symbols, count, symbol::SCOPE, from.0, i) {
        move_bound(symbols, ctx, from, to, at);
        i = at + 1;
    }
}
