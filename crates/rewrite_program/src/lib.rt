// `enter_program`: functions, imports and exports stay first, all else goes into a new Block.
#![tactic(auto)]

mod placing;

ghost use Rattle.std.specs.Prelude.{◌≡◌};
ghost use Rattle.meaning.specs.Tree.{one_of};
ghost use Rattle.rewrite_items.specs.Items.{passing};
ghost use Rattle.path.specs.Path.{tables};
ghost use Rattle.rewrite_program.specs.Plan.{child_names_f, exported_names_f, added_f, kept_f, moved_f, plan_item_f, plan_program_f};
ghost use Rattle.rewrite_program.specs.Arrange.{staying, kept_rows_one_f, kept_rows_f, numbering, number_item_f, number_items_f, arrange_f};
ghost use Rattle.rewrite_program.specs.Program.{transform_items_f, rewriting, rewrite_items_f, enter_program_f};

use meaning::{RecordId, ScopeId, tag};
use path::Walk;
use rewrite_items::Item;
use scoping::{Ctx, Rewriting};
use statements::Counting;
use tables::{Cursor, record};

// The last row looked at, the rows that the items add, and how many items stay and move.
#[derive(Clone, Copy)]
pub struct ProgramPlan {
    pub at: RecordId,
    pub added: u16,
    pub kept: u16,
    pub moved: u16,
}

// ---- counting first

// The names that the child of the item after a row declares.
#[tactic(auto, unfolding(crate::specs::Plan::child_names_f))]
fn child_names(records: &[u16], after: RecordId) -> u16
    ensures { result ≡ child_names_f records.now after.0 }
{
    let n = tables::column(records, RecordId(after.0.saturating_add(1)), record::N);
    rewrite_items::count_names(records, RecordId(after.0.saturating_add(2)), n)
}

// The names that an item exports, if it is an exported Declaration.
#[tactic(auto, unfolding(crate::specs::Plan::exported_names_f))]
fn exported_names(records: &[u16], item: Item, after: RecordId) -> u16
    ensures { result ≡ exported_names_f records.now item after.0 }
{
    match item {
        Item::ExportedDeclaration => child_names(records, after),
        _ => 0,
    }
}

// The rows of a var: Declaration, Declarator and Name. Where it takes the place of an export's row: a Module line and a Specifier besides.
const VAR_ROWS: u16 = 3;

const EXPORTED_VAR_ROWS: u16 = 4;

// The rows that an item adds, with so many names.
#[tactic(auto, unfolding(crate::specs::Plan::added_f))]
fn added(item: Item, names: u16) -> u16
    ensures { result ≡ added_f item names }
{
    match item {
        Item::Kept | Item::Moved | Item::Declared => 0,
        Item::Class => VAR_ROWS,
        Item::DefaultClass | Item::DefaultValue | Item::ExportedClass => EXPORTED_VAR_ROWS,
        Item::ExportedDeclaration => names,
    }
}

// How many items it leaves where they were.
#[tactic(auto, unfolding(crate::specs::Plan::kept_f))]
fn kept(item: Item) -> u16
    ensures { result ≡ kept_f item }
{
    u16::from(!matches!(item, Item::Moved | Item::Declared | Item::Class))
}

// How many items it leaves in the Block.
#[tactic(auto, unfolding(crate::specs::Plan::moved_f))]
fn moved(item: Item) -> u16
    ensures { result ≡ moved_f item }
{
    u16::from(!matches!(item, Item::Kept))
}

// One item more.
#[tactic(auto, unfolding(crate::specs::Plan::plan_item_f))]
fn plan_item(records: &[u16], p: ProgramPlan) -> ProgramPlan
    ensures { result ≡ plan_item_f records.now p }
{
    let item = rewrite_items::item_after(records, p.at);
    let names = exported_names(records, item, p.at);
    ProgramPlan {
        at: tables::end_after(records, p.at, 1),
        added: p.added.saturating_add(added(item, names)),
        kept: p.kept.saturating_add(kept(item)),
        moved: p.moved.saturating_add(moved(item)),
    }
}

// What n items after a row come to.
#[tactic(auto, unfolding(crate::specs::Plan::plan_program_f), using(tables::specs::Loops::next_turn, tables::specs::Loops::last_turn))]
fn plan_program(records: &[u16], after: RecordId, n: u16) -> ProgramPlan
    ensures { result ≡ plan_program_f records.now after.0 n }
{
    let mut p = ProgramPlan {
        at: after,
        added: 0,
        kept: 0,
        moved: 0,
    };
    for _ in 0..n {
        p = plan_item(records, p);
    }
    p
}

// ---- those that stay first

// Functions, imports and exports.
fn stays(tag: u16) -> bool
    ensures { result ≡ one_of staying tag }
{
    matches!(
        tag,
        tag::FUNCTION | tag::MODULE_LINE | tag::DEFAULT_EXPORT | tag::EXPORTED_DECLARATION
    )
}

// The rows of the item after a row are counted if it stays.
#[tactic(auto, unfolding(crate::specs::Arrange::kept_rows_one_f))]
fn kept_rows_one(records: &[u16], s: Counting) -> Counting
    ensures { result ≡ kept_rows_one_f records.now s }
{
    let end = tables::end_after(records, s.at, 1);
    if stays(tables::column(records, s.at, record::TAG)) {
        Counting {
            at: end,
            sum: s.sum.saturating_add(end.0.saturating_sub(s.at.0)),
        }
    } else {
        Counting { at: end, ..s }
    }
}

// The rows of those among n items that stay. (A loop of its own, as `statements::Counting` says why.)
#[tactic(auto, unfolding(crate::specs::Arrange::kept_rows_f), using(tables::specs::Loops::next_turn, tables::specs::Loops::last_turn))]
fn kept_rows(records: &[u16], after: RecordId, n: u16) -> u16
    ensures { result ≡ kept_rows_f records.now after.0 n }
{
    let mut s = Counting { at: after, sum: 0 };
    for _ in 0..n {
        s = kept_rows_one(records, s);
    }
    s.sum
}

// The last row looked at, and the places of the next row that stays and the next that moves.
#[derive(Clone, Copy)]
pub struct Numbering {
    pub at: RecordId,
    pub kept: RecordId,
    pub moved: RecordId,
}

// The rows of the next item get their places.
#[tactic(auto, unfolding(crate::specs::Arrange::number_item_f))]
fn number_item(records: &mut [u16], s: Numbering) -> Numbering
    ensures { numbering records.new result ≡ number_item_f (numbering records.old s) }
{
    let end = tables::end_after(records, s.at, 1);
    let n = end.0.saturating_sub(s.at.0);
    if stays(tables::column(records, s.at, record::TAG)) {
        placing::number_rows(records, s.at, n, s.kept);
        Numbering {
            at: end,
            kept: RecordId(s.kept.0.saturating_add(n)),
            ..s
        }
    } else {
        placing::number_rows(records, s.at, n, s.moved);
        Numbering {
            at: end,
            moved: RecordId(s.moved.0.saturating_add(n)),
            ..s
        }
    }
}

// The rows of n items get their places. (A loop of its own, as `statements::take_up_declarators` says why.)
#[tactic(auto, unfolding(crate::specs::Arrange::number_items_f), using(tables::specs::Loops::next_turn, tables::specs::Loops::last_turn))]
fn number_items(records: &mut [u16], start: Numbering, n: u16) -> Numbering
    ensures { numbering records.new result ≡ number_items_f n (numbering records.old start) }
{
    let mut s = start;
    for _ in 0..n {
        s = number_item(records, s);
    }
    s
}

// n items after a row and the Block's row behind them: first those that stay, so many rows, then the Block's row, then those that move.
#[tactic(auto, unfolding(crate::specs::Arrange::arrange_f))]
fn arrange(records: &mut [u16], after: RecordId, n: u16, rows: u16)
    ensures { records.new ≡ arrange_f records.old after.0 n rows }
{
    let block = RecordId(after.0.saturating_add(rows));
    let start = Numbering {
        at: after,
        kept: after,
        moved: RecordId(block.0.saturating_add(1)),
    };
    let s = number_items(records, start, n);
    placing::number_rows(records, s.at, 1, block);
    let end = RecordId(s.at.0.saturating_add(1));
    placing::place(records, after, end);
    placing::clear_places(records, after, end.0.saturating_sub(after.0));
}

// ---- the Program

// The next n items. (A loop of its own, as `statements::take_up_declarators` says why.)
#[tactic(auto, unfolding(crate::specs::Program::transform_items_f), using(tables::specs::Loops::next_turn, tables::specs::Loops::last_turn))]
fn transform_items(records: &mut [u16], symbols: &mut [u16], start: Rewriting, n: u16) -> Rewriting
    ensures { passing records.new symbols.new result
        ≡ transform_items_f n (passing records.old symbols.old start) }
{
    let mut s = start;
    for _ in 0..n {
        s = rewrite_items::transform_item(records, symbols, s);
    }
    s
}

// The counters, and the Block's row.
#[derive(Clone, Copy)]
pub struct Rewritten {
    pub ctx: Ctx,
    pub block: RecordId,
}

// The items and the Block's row, rearranged; the Block has the next scope.
#[tactic(auto, unfolding(crate::specs::Program::rewrite_items_f))]
fn rewrite_items(
    records: &mut [u16],
    symbols: &mut [u16],
    start: Rewriting,
    n: u16,
    plan: ProgramPlan,
) -> Rewritten
    ensures { rewriting records.new symbols.new result
        ≡ rewrite_items_f n plan (passing records.old symbols.old start) }
{
    let first = start.at;
    let after = first.written;
    let s = transform_items(records, symbols, start, n);
    let ctx = s.ctx;
    tables::emit(
        records,
        s.at,
        tables::closed_row(tag::BLOCK, ctx.scopes.saturating_add(1), 0, 0, plan.moved),
    );
    let items = plan.kept.saturating_add(plan.moved);
    let rows = kept_rows(records, after, items);
    arrange(records, after, items, rows);
    Rewritten {
        ctx,
        block: RecordId(after.0.saturating_add(rows).saturating_add(1)),
    }
}

// The Block that takes what moves.
const BLOCK_ROWS: u16 = 1;

// `enter_program`, for a Program with a direct using.
#[tactic(auto, unfolding(crate::specs::Program::enter_program_f))]
pub fn enter_program(records: &mut [u16], scopes: &mut [u16], symbols: &mut [u16], w: Walk) -> Walk
    ensures { tables records.new scopes.new symbols.new result
        ≡ enter_program_f (tables records.old scopes.old symbols.old w) }
{
    let read = w.gap;
    let r = tables::row_after(records, read);
    let plan = plan_program(records, RecordId(read.0.saturating_add(1)), r.n);
    let v = w.charge(plan.added.saturating_add(BLOCK_ROWS));
    let written = v.gap;
    let at = tables::replace_row(
        records,
        Cursor { read, written },
        tables::closed_row(r.tag, r.a, r.b, r.c, plan.kept.saturating_add(1)),
    );
    let ctx = w.ctx;
    let o = rewrite_items(records, symbols, Rewriting { at, ctx }, r.n, plan);
    let x = creation::insert_scope_below(records, scopes, o.ctx, ScopeId(r.a), o.block, plan.moved);
    v.with_ctx(x)
}
