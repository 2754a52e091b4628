// The runtime helper's import (02, request 1): once the walk of a module in runtime mode is over, it becomes Program's first child.
#![tactic(auto)]

ghost use Rattle.std.specs.Prelude.{◌≡◌};
ghost use Rattle.tables.specs.Stream.{buf};
ghost use Rattle.path.specs.Path.{on_records};
ghost use Rattle.import_line.specs.Import.{import_due_f, count_child_f, write_import_f, add_import_f, complete_f};

use meaning::{RecordId, SymbolId, known_name, line_form, mode};
use path::Walk;
use scoping::Ctx;
use tables::{Cursor, record};

// The rows of the line, a Module line and a Specifier, and the last of them, behind Program's.
const IMPORT_ROWS: u16 = 2;

pub const LAST_IMPORT_ROW: u16 = 3;

// A module in runtime mode in which a helper was loaded.
#[tactic(auto, unfolding(crate::specs::Import::import_due_f))]
pub fn import_due(ctx: Ctx) -> bool
    ensures { result ≡ import_due_f ctx }
{
    ctx.mode == mode::RUNTIME && ctx.esm == 1 && ctx.helper.0 != 0
}

// Program, in the first row, has a child more.
#[tactic(auto, unfolding(crate::specs::Import::count_child_f))]
fn count_child(records: &mut [u16])
    ensures { records.new ≡ count_child_f records.old }
{
    let n = tables::column(records, RecordId(0), record::N);
    tables::put_column(records, RecordId(0), record::N, n.saturating_add(1));
}

// `import { default as y }`
#[tactic(auto, unfolding(crate::specs::Import::write_import_f, statements::specs::Try::line_f))]
fn write_import(records: &mut [u16], q: Cursor, y: SymbolId) -> Cursor
    ensures { buf records.new result ≡ write_import_f y.0 (buf records.old q) }
{
    statements::write_line(records, q, line_form::IMPORT_HELPER, y, known_name::DEFAULT)
}

// The rows behind Program's move two rows on, and the line takes their place. All rows are visited.
#[tactic(auto, unfolding(crate::specs::Import::add_import_f))]
fn add_import(records: &mut [u16], w: Walk) -> Walk
    ensures { on_records records.new result ≡ add_import_f (on_records records.old w) }
{
    let last = RecordId(w.visited.0.saturating_add(IMPORT_ROWS));
    count_child(records);
    let end = Cursor {
        read: last,
        written: w.visited,
    };
    let q = tables::take_back(records, end, w.visited.0.saturating_sub(1));
    write_import(records, q, w.ctx.helper);
    w.with_cursor(Cursor {
        read: w.gap,
        written: last,
    })
}

// What the walk leaves when it is over: the line is added, if it is due.
#[tactic(auto, unfolding(crate::specs::Import::complete_f))]
pub fn complete(records: &mut [u16], w: Walk) -> Walk
    ensures { on_records records.new result ≡ complete_f (on_records records.old w) }
{
    if import_due(w.ctx) {
        add_import(records, w)
    } else {
        w
    }
}
