// The items of a Program that is lowered: declarations, classes and exports.
#![tactic(auto)]

ghost use Rattle.std.specs.Prelude.{◌≡◌};
ghost use Rattle.scoping.specs.Changes.{in_symbols};
ghost use Rattle.tables.specs.Stream.{buf};
ghost use Rattle.rewrite_items.specs.Kinds.{default_item_f, default_class_item_f, exported_item_f, item_f};
ghost use Rattle.rewrite_items.specs.Names.{first_names, is_name_f, next_name_f, names_done_f, count_name_f, count_names_f, flagging, flag_name_f, flag_names_f, specifying, specifier_f, specifiers_f};
ghost use Rattle.rewrite_items.specs.Items.{passing, drop_f, export_rows_f, value_rows_f, preserve_name_f, copied_f, class_f, recorded_f, declared_f, exported_class_f, exported_declaration_f, default_class_f, as_expression_f, default_value_f, transform_item_f};

use meaning::{RecordId, ScopeId, SymbolId, form, kind, known_name, line_form, symbol_flag, tag};
use scoping::{Ctx, Rewriting};
use tables::{Cursor, Row, record, symbol};

// What becomes of an item: it stays, it moves, or it is one of those that change.
#[derive(Clone, Copy)]
pub enum Item {
    Kept,
    Moved,
    Declared,
    Class,
    DefaultClass,
    DefaultValue,
    ExportedClass,
    ExportedDeclaration,
}

// ---- what an item is

// A default export with n children, by the first: a Function declaration stays; a Class declaration with a symbol keeps its name.
#[tactic(auto, unfolding(crate::specs::Kinds::default_item_f))]
fn default_item(r: Row, n: u16) -> Item
    ensures { result ≡ default_item_f r n }
{
    if n == 0 {
        return Item::Kept;
    }
    if r.a != form::DECLARATION {
        return Item::DefaultValue;
    }
    match r.tag {
        tag::FUNCTION => Item::Kept,
        tag::CLASS => default_class(SymbolId(r.c)),
        _ => Item::DefaultValue,
    }
}

// A Class declaration that is exported by default, by its symbol.
#[tactic(auto, unfolding(crate::specs::Kinds::default_class_item_f))]
fn default_class(symbol: SymbolId) -> Item
    ensures { result ≡ default_class_item_f symbol.0 }
{
    if symbol.0 == 0 {
        Item::DefaultValue
    } else {
        Item::DefaultClass
    }
}

// An exported declaration with n children, by the tag of the first: a Function stays.
#[tactic(auto, unfolding(crate::specs::Kinds::exported_item_f))]
fn exported_item(tag: u16, n: u16) -> Item
    ensures { result ≡ exported_item_f tag n }
{
    if n == 0 {
        return Item::Kept;
    }
    match tag {
        tag::DECLARATION => Item::ExportedDeclaration,
        tag::CLASS => Item::ExportedClass,
        _ => Item::Kept,
    }
}

// The item after a row.
#[tactic(auto, unfolding(crate::specs::Kinds::item_f))]
pub fn item_after(records: &[u16], after: RecordId) -> Item
    ensures { result ≡ item_f records.now after.0 }
{
    let r = tables::row_after(records, after);
    let child = tables::row_after(records, RecordId(after.0.saturating_add(1)));
    match r.tag {
        tag::DECLARATION => Item::Declared,
        tag::FUNCTION | tag::MODULE_LINE => Item::Kept,
        tag::CLASS => Item::Class,
        tag::DEFAULT_EXPORT => default_item(child, r.n),
        tag::EXPORTED_DECLARATION => exported_item(child.tag, r.n),
        _ => Item::Moved,
    }
}

// ---- the names that a Declaration binds

// The last row looked at; the Declarators, the children of a Declarator, and the records below one of those that are still to come.
#[derive(Clone, Copy)]
pub struct Names {
    pub at: RecordId,
    pub declarators: u16,
    pub children: u16,
    pub below: u16,
}

// Those of n Declarators after a row: none is looked at yet.
fn first_names(after: RecordId, n: u16) -> Names
    ensures { result ≡ first_names after.0 n }
{
    Names {
        at: after,
        declarators: n,
        children: 0,
        below: 0,
    }
}

// The next row is such a name.
#[tactic(auto, unfolding(crate::specs::Names::is_name_f))]
fn is_name(records: &[u16], s: Names) -> bool
    ensures { result ≡ is_name_f records.now s }
{
    s.below == 0 && s.children != 0 && tables::column(records, s.at, record::TAG) == tag::NAME
}

// The next row is passed.
#[tactic(auto, unfolding(crate::specs::Names::next_name_f))]
fn next_name(records: &[u16], s: Names) -> Names
    ensures { result ≡ next_name_f records.now s }
{
    let r = tables::row_after(records, s.at);
    let at = RecordId(s.at.0.saturating_add(1));
    if s.below != 0 {
        return Names {
            at,
            below: s.below.saturating_sub(1).saturating_add(r.n),
            ..s
        };
    }
    if s.children != 0 {
        return Names {
            at,
            children: s.children.saturating_sub(1),
            below: r.n,
            ..s
        };
    }
    let declarators = s.declarators.saturating_sub(1);
    if r.tag == tag::DECLARATOR {
        Names {
            at,
            declarators,
            children: r.n,
            below: 0,
        }
    } else {
        Names {
            at,
            declarators,
            children: 0,
            below: r.n,
        }
    }
}

// No row of the Declaration is left.
#[tactic(auto, unfolding(crate::specs::Names::names_done_f))]
fn names_done(s: Names) -> bool
    ensures { result ≡ names_done_f s }
{
    s.declarators == 0 && s.children == 0 && s.below == 0
}

// Where the names stand, and how many there were.
#[derive(Clone, Copy)]
pub struct Counted {
    pub names: Names,
    pub sum: u16,
}

// The next row is counted if it is such a name.
#[tactic(auto, unfolding(crate::specs::Names::count_name_f))]
fn count_name(records: &[u16], s: Counted) -> Counted
    ensures { result ≡ count_name_f records.now s }
{
    let names = s.names;
    Counted {
        names: next_name(records, names),
        sum: s.sum.saturating_add(u16::from(is_name(records, names))),
    }
}

// The names of n Declarators after a row. This loop, that of `flag_names` and that of `write_specifiers` stay three: this one changes no table,
// the others change one each, and one for all would take a closure that holds a lent table, with a contract longer than the loop.
#[tactic(auto, unfolding(crate::specs::Names::count_names_f), using(tables::specs::Loops::go_on, tables::specs::Loops::run_out, tables::specs::Loops::stopped))]
pub fn count_names(records: &[u16], after: RecordId, n: u16) -> u16
    ensures { result ≡ count_names_f records.now after.0 n }
{
    let mut s = Counted {
        names: first_names(after, n),
        sum: 0,
    };
    for _ in 0..tables::LARGEST {
        if names_done(s.names) {
            break;
        }
        s = count_name(records, s);
    }
    s.sum
}

// The next row's symbol becomes function-scoped if the row is such a name.
#[tactic(auto, unfolding(crate::specs::Names::flag_name_f))]
fn flag_name(records: &[u16], symbols: &mut [u16], ctx: Ctx, s: Names) -> Names
    ensures { flagging symbols.new result ≡ flag_name_f records.now ctx (flagging symbols.old s) }
{
    if is_name(records, s) {
        let y = SymbolId(tables::column(records, s.at, record::A));
        scoping::set_symbol_flags(symbols, ctx, y, symbol_flag::FUNCTION_SCOPED);
    }
    next_name(records, s)
}

// The names of n Declarators after a row become function-scoped.
#[tactic(auto, unfolding(crate::specs::Names::flag_names_f), using(tables::specs::Loops::go_on, tables::specs::Loops::run_out, tables::specs::Loops::stopped))]
fn flag_names(records: &[u16], symbols: &mut [u16], ctx: Ctx, after: RecordId, n: u16)
    ensures { symbols.new ≡ flag_names_f records.now (in_symbols symbols.old ctx) after.0 n }
{
    let mut s = first_names(after, n);
    for _ in 0..tables::LARGEST {
        if names_done(s) {
            break;
        }
        s = flag_name(records, symbols, ctx, s);
    }
}

// Rows while Specifiers are written, and the names still to come.
#[derive(Clone, Copy)]
pub struct Specifying {
    pub at: Cursor,
    pub names: Names,
}

// The next row is exported under its own name if it is such a name.
#[tactic(auto, unfolding(crate::specs::Names::specifier_f))]
fn write_specifier(records: &mut [u16], symbols: &[u16], ctx: Ctx, s: Specifying) -> Specifying
    ensures { specifying records.new result ≡ specifier_f (in_symbols symbols.now ctx) (specifying records.old s) }
{
    let names = s.names;
    let next = next_name(records, names);
    if is_name(records, names) {
        let y = SymbolId(tables::column(records, names.at, record::A));
        let name = scoping::symbol_number(symbols, ctx.symbols, y, symbol::NAME);
        Specifying {
            at: tables::emit(
                records,
                s.at,
                tables::closed_row(tag::SPECIFIER, y.0, name, 0, 0),
            ),
            names: next,
        }
    } else {
        Specifying { names: next, ..s }
    }
}

// Exports the names of n Declarators, two rows from the cursor on.
#[tactic(auto, unfolding(crate::specs::Names::specifiers_f, crate::specs::Names::specify_all_f), using(tables::specs::Loops::go_on, tables::specs::Loops::run_out, tables::specs::Loops::stopped))]
fn write_specifiers(records: &mut [u16], symbols: &[u16], ctx: Ctx, at: Cursor, n: u16) -> Cursor
    ensures { buf records.new result ≡ specifiers_f (in_symbols symbols.now ctx) n (buf records.old at) }
{
    let names = first_names(RecordId(at.read.0.saturating_add(1)), n);
    let mut s = Specifying { at, names };
    for _ in 0..tables::LARGEST {
        if names_done(s.names) {
            break;
        }
        s = write_specifier(records, symbols, ctx, s);
    }
    s.at
}

// ---- rows

// The next row is left out.
#[tactic(auto, unfolding(crate::specs::Items::drop_f))]
fn drop_row(records: &mut [u16], q: Cursor) -> Cursor
    ensures { buf records.new result ≡ drop_f (buf records.old q) }
{
    tables::clear_row(records, q.read);
    Cursor {
        read: RecordId(q.read.0.saturating_add(1)),
        ..q
    }
}

// `export { y as name }`
#[tactic(auto, unfolding(crate::specs::Items::export_rows_f, statements::specs::Try::line_f))]
fn write_export(records: &mut [u16], q: Cursor, y: SymbolId, name: u16) -> Cursor
    ensures { buf records.new result ≡ export_rows_f y.0 name (buf records.old q) }
{
    statements::write_line(records, q, line_form::EXPORT_NAMED, y, name)
}

// `var y = ` and the next record, with another row.
#[tactic(auto, unfolding(crate::specs::Items::value_rows_f))]
fn write_value(records: &mut [u16], q: Cursor, y: SymbolId, row: Row) -> Cursor
    ensures { buf records.new result ≡ value_rows_f y.0 row (buf records.old q) }
{
    let q1 = statements::declare(records, q, kind::VAR, y);
    let q2 = tables::replace_row(records, q1, row);
    tables::copy(records, q2, row.n)
}

// `preserve_class_expression_name`: a new symbol in the class's scope for the inner name; the old one becomes a var's.
#[tactic(auto, unfolding(crate::specs::Items::preserve_name_f))]
fn preserve_class_expression_name(symbols: &mut [u16], ctx: Ctx, r: Row) -> Ctx
    ensures { in_symbols symbols.new result ≡ preserve_name_f (in_symbols symbols.old ctx) r }
{
    let y = SymbolId(r.c);
    let name = scoping::symbol_number(symbols, ctx.symbols, y, symbol::NAME);
    let made = scoping::symbol_number(symbols, ctx.symbols, y, symbol::MADE);
    let x = scoping::create_symbol(symbols, ctx, name, symbol_flag::CLASS, ScopeId(r.b), made);
    scoping::set_symbol_flags(symbols, x, y, symbol_flag::FUNCTION_SCOPED);
    x
}

// ---- items

// `transform_class_decl`: `var C = class C {}`
#[tactic(auto, unfolding(crate::specs::Items::class_f))]
fn transform_class_decl(records: &mut [u16], symbols: &mut [u16], s: Rewriting) -> Rewriting
    ensures { passing records.new symbols.new result ≡ class_f (passing records.old symbols.old s) }
{
    let q = s.at;
    let r = tables::row_after(records, q.read);
    let ctx = preserve_class_expression_name(symbols, s.ctx, r);
    let at = write_value(
        records,
        q,
        SymbolId(r.c),
        tables::closed_row(tag::CLASS, form::EXPRESSION, r.b, ctx.symbols, r.n),
    );
    Rewriting { at, ctx }
}

// A direct Declaration becomes var; a using is recorded.
#[tactic(auto, unfolding(crate::specs::Items::declared_f))]
fn top_level_declaration(records: &mut [u16], symbols: &mut [u16], s: Rewriting) -> Rewriting
    ensures { passing records.new symbols.new result ≡ declared_f (passing records.old symbols.old s) }
{
    let q = s.at;
    let r = tables::row_after(records, q.read);
    let list = RecordId(q.read.0.saturating_add(1));
    flag_names(records, symbols, s.ctx, list, r.n);
    let q1 = tables::replace_row(records, q, recorded(r));
    let at = tables::copy(records, q1, r.n);
    Rewriting { at, ..s }
}

// A Declaration as var; a using keeps its kind as a mark.
#[tactic(auto, unfolding(crate::specs::Items::recorded_f))]
fn recorded(r: Row) -> Row
    ensures { result ≡ recorded_f r }
{
    let mark = if statements::is_using(r) { r.a } else { 0 };
    tables::closed_row(tag::DECLARATION, kind::VAR, mark, 0, r.n)
}

// `export class C {}`
#[tactic(auto, unfolding(crate::specs::Items::exported_class_f))]
fn exported_class(records: &mut [u16], symbols: &mut [u16], s: Rewriting) -> Rewriting
    ensures { passing records.new symbols.new result
        ≡ exported_class_f (passing records.old symbols.old s) }
{
    let q = drop_row(records, s.at);
    let y = SymbolId(tables::column(records, q.read, record::C));
    let name = scoping::symbol_number(symbols, s.ctx.symbols, y, symbol::NAME);
    let at = write_export(records, q, y, name);
    transform_class_decl(records, symbols, Rewriting { at, ..s })
}

// `export let x = e`: var, not recorded.
#[tactic(auto, unfolding(crate::specs::Items::exported_declaration_f))]
fn exported_declaration(records: &mut [u16], symbols: &mut [u16], s: Rewriting) -> Rewriting
    ensures { passing records.new symbols.new result
        ≡ exported_declaration_f (passing records.old symbols.old s) }
{
    let q = drop_row(records, s.at);
    let n = tables::column(records, q.read, record::N);
    let list = RecordId(q.read.0.saturating_add(1));
    flag_names(records, symbols, s.ctx, list, n);
    let names = count_names(records, list, n);
    let q1 = tables::emit(
        records,
        q,
        tables::closed_row(tag::MODULE_LINE, line_form::EXPORT_NAMED, 0, 0, names),
    );
    let q2 = write_specifiers(records, symbols, s.ctx, q1, n);
    let q3 = tables::replace_row(
        records,
        q2,
        tables::closed_row(tag::DECLARATION, kind::VAR, 0, 0, n),
    );
    let at = tables::copy(records, q3, n);
    Rewriting { at, ..s }
}

// `export default class C {}` keeps its name.
#[tactic(auto, unfolding(crate::specs::Items::default_class_f))]
fn default_export_class(records: &mut [u16], symbols: &mut [u16], s: Rewriting) -> Rewriting
    ensures { passing records.new symbols.new result
        ≡ default_class_f (passing records.old symbols.old s) }
{
    let q = drop_row(records, s.at);
    let y = SymbolId(tables::column(records, q.read, record::C));
    let at = write_export(records, q, y, known_name::DEFAULT);
    transform_class_decl(records, symbols, Rewriting { at, ..s })
}

// A Class as an expression; anything else as it is.
#[tactic(auto, unfolding(crate::specs::Items::as_expression_f))]
fn as_expression(r: Row) -> Row
    ensures { result ≡ as_expression_f r }
{
    let a = if r.tag == tag::CLASS {
        form::EXPRESSION
    } else {
        r.a
    };
    tables::closed_row(r.tag, a, r.b, r.c, r.n)
}

// `export default e`: `_default` is bound in scope 1, unique or not.
#[tactic(auto, unfolding(crate::specs::Items::default_value_f))]
fn default_value(records: &mut [u16], symbols: &mut [u16], s: Rewriting) -> Rewriting
    ensures { passing records.new symbols.new result
        ≡ default_value_f (passing records.old symbols.old s) }
{
    let ctx = scoping::create_symbol(
        symbols,
        s.ctx,
        known_name::DEFAULT_VALUE,
        symbol_flag::FUNCTION_SCOPED,
        ScopeId(scoping::ROOT),
        0,
    );
    let q = drop_row(records, s.at);
    let r = tables::row_after(records, q.read);
    let y = SymbolId(ctx.symbols);
    let q1 = write_export(records, q, y, known_name::DEFAULT);
    let at = write_value(records, q1, y, as_expression(r));
    Rewriting { at, ctx }
}

// An item that does not change.
#[tactic(auto, unfolding(crate::specs::Items::copied_f))]
fn copy_item(records: &mut [u16], symbols: &[u16], s: Rewriting) -> Rewriting
    ensures { passing records.new symbols.now result ≡ copied_f (passing records.old symbols.now s) }
{
    Rewriting {
        at: tables::copy(records, s.at, 1),
        ..s
    }
}

// The next item: what stays an item, then what goes into the Block.
#[tactic(auto, unfolding(crate::specs::Items::transform_item_f))]
pub fn transform_item(records: &mut [u16], symbols: &mut [u16], s: Rewriting) -> Rewriting
    ensures { passing records.new symbols.new result
        ≡ transform_item_f (passing records.old symbols.old s) }
{
    match item_after(records, s.at.read) {
        Item::Kept | Item::Moved => copy_item(records, symbols, s),
        Item::Declared => top_level_declaration(records, symbols, s),
        Item::Class => transform_class_decl(records, symbols, s),
        Item::DefaultClass => default_export_class(records, symbols, s),
        Item::DefaultValue => default_value(records, symbols, s),
        Item::ExportedClass => exported_class(records, symbols, s),
        Item::ExportedDeclaration => exported_declaration(records, symbols, s),
    }
}
