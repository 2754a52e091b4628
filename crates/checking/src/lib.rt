// Checking a tree file on its bytes, and the figures of what it is lowered to.
#![tactic(auto)]

ghost use Rattle.std.specs.Prelude.{if◌then◌else◌, ◌≡◌, ◌||◌, suc, ◌+◌, ◌≤◌, min, get_or, length, replicate, eqb, Ok};
ghost use Rattle.meaning.specs.declared.Reason.TheVariants as Reason;
ghost use Rattle.meaning.specs.Refusals.{refused};
ghost use Rattle.meaning.specs.Grammar.{two, may_name, naming, unnamed};
ghost use Rattle.meaning.specs.Numbers.Tag;
ghost use Rattle.meaning.specs.Reading.{scope_at, symbol_at, most_rows, most_symbols, read_scopes, read_symbols, read_file};
ghost use Rattle.meaning.specs.Lowering.{check_file, figures_of};
ghost use Rattle.figures.specs.Figures.{figured_of};
ghost use Rattle.meaning.specs.declared.Place.TheVariants.{Program as ProgramPlace};
ghost use Rattle.figures.specs.declared.tally.Role.TheVariants.{Plain as PlainRole};
ghost use Rattle.figures.specs.Tally.{no_tally};
ghost use Rattle.checking.specs.Flat.{expression_at, expression_here, right_at, is_whole, expression_size, mention_size, leaf_size, entered, enter_f, past, record_f, children_f, after_f, below_last, tree_f, count_f, row_below, wrong_in, wrong_f, with_records, counted_f, symbols_f, rows_f, settings_f, file_f, checked_of};
ghost use Rattle.checking.specs.Survey.{surveyed_of};

use fields::{
    EXPRESSION_BYTES, HEAD_BYTES, LENGTHS, MENTION_BYTES, NUMBER_A, NUMBER_B, NUMBER_E, Reader,
    SCOPE_BYTES, SETTINGS_BYTES, SYMBOL_BYTES, TAG_BYTES,
};
use figures::tally::{Role, Tally};
use figures::{FinalFigures, tally};
use meaning::{Field, Place, Reason, Refusal, Rows, ScopeId, form, mode, tag};

// A file holds so many bytes at most, and its records so many levels; more scope rows and symbol rows than such a file has.
const MOST_BYTES: usize = 65535;

const MOST_LEVELS: u16 = 64;

const MOST_ROWS: usize = 9362;

const MOST_SYMBOLS: usize = 5042;

// The numbers of a leaf in bytes, and the whole field.
const EXPRESSION_LENGTH: u16 = LENGTHS[tag::EXPRESSION as usize] as u16;

const EXPRESSION_SIZE: u32 = EXPRESSION_BYTES as u32;

const MENTION_LENGTH: u16 = LENGTHS[tag::READ as usize] as u16;

const MENTION_SIZE: u32 = MENTION_BYTES as u32;

// Where a record stands: its place, what it is to the record around it, and the scope around it.
#[derive(Clone, Copy)]
struct Site {
    place: Place,
    role: Role,
    scope: ScopeId,
}

// The offset behind what was checked, and the tally so far.
#[derive(Clone, Copy)]
struct Progress {
    at: usize,
    tally: Tally,
}

// How many scope and symbol rows a file has.
#[derive(Clone, Copy, Debug, PartialEq, Eq)]
pub struct RowCounts {
    pub scopes: u16,
    pub symbols: u16,
}

// A file, and how many rows it has.
#[derive(Clone, Copy)]
struct Source<'a> {
    file: &'a [u8],
    rows: RowCounts,
}

// What the check knows of a file: its settings, how many scope rows, symbol rows and records it has, and the offsets of the first symbol row
// and of Program. Its numbers are any: the definitions and `start` take every `Layout`, so that the bounds which the two local arrays need stand
// in the contracts of the functions around them.
#[derive(Clone, Copy, Debug, PartialEq, Eq)]
pub struct Layout {
    pub mode: u16,
    pub esm: u16,
    pub scopes: u16,
    pub symbols: u16,
    pub records: u16,
    pub first: u16,
    pub tree: u16,
}

// What a whole file comes to: its layout, and the tally of its tree.
#[derive(Clone, Copy)]
struct Whole {
    layout: Layout,
    tally: Tally,
}

// What a survey finds: the layout of a file, and the figures of the lowered one.
#[derive(Clone, Copy, Debug, PartialEq, Eq)]
pub struct Surveyed {
    pub layout: Layout,
    pub figures: FinalFigures,
}

// ---- one record

// Marks are numbers as in the definitions (`unnamed`), 0 and 1.
//
// Marks row s as named, if a record below the scope `cur` may name it; row 0 is none.
#[tactic(auto, unfolding(meaning::specs::Grammar::may_name, meaning::specs::Grammar::naming, meaning::specs::Grammar::parent_in))]
fn name_scope(file: &[u8], marks: &mut [u8], cur: ScopeId, s: ScopeId) -> bool
    ensures told { result ≡ may_name file.now cur.0 marks.old s.0 }
    ensures marked { marks.new
        ≡ (if may_name file.now cur.0 marks.old s.0 then naming marks.old s.0 else marks.old) }
{
    let n = s.0 as usize;
    if n == 0 {
        return true;
    }
    if marks.len() < n
        || fields::read_two(file, SCOPE_BYTES * n + NUMBER_A) != cur.0
        || marks[n - 1] != 0
    {
        return false;
    }
    marks[n - 1] = 1;
    true
}

// A field whose numbers are right, or its refusal.
fn judged(right: bool, x: Field, at: usize) -> Result<Field, Refusal>
    ensures { result ≡ (if right then Ok x else refused Reason.WrongNumber at) }
{
    if right {
        Ok(x)
    } else {
        Err(Refusal {
            reason: Reason::WrongNumber,
            place: at,
        })
    }
}

// The field of a record, and its numbers right: the checks 2 to 5 of a record that names no scope.
fn read_right(here: Reader, symbols: usize, place: Place) -> Result<Field, Refusal>
    ensures { result ≡ right_at here.entry.file.now symbols place here.entry.at }
{
    let x = here.field(place)?;
    judged(rules::is_right(place, symbols, x), x, here.at)
}

// The same, and its scope row named: the checks 2 to 5.
fn enter_record(
    here: Reader,
    marks: &mut [u8],
    symbols: usize,
    site: Site,
) -> Result<Field, Refusal>
    ensures { entered result marks.new
        ≡ enter_f here.entry.file.now symbols site.place site.scope.0 here.entry.at marks.old }
{
    let x = read_right(here, symbols, site.place)?;
    if !name_scope(here.file, marks, site.scope, rules::scope_in(x)) {
        return Err(Refusal {
            reason: Reason::WrongNumber,
            place: here.at,
        });
    }
    Ok(x)
}

// The same of an expression: Expression, Read, Call and Load name no scope, Function and Class do. What has another tag is a Name, or is
// refused as its field is read.
fn enter_expression(
    here: Reader,
    marks: &mut [u8],
    symbols: usize,
    site: Site,
) -> Result<Field, Refusal>
    ensures { entered result marks.new
        ≡ enter_f here.entry.file.now symbols site.place site.scope.0 here.entry.at marks.old }
{
    let tag = here.tag();
    match tag {
        tag::EXPRESSION | tag::READ | tag::CALL | tag::LOAD => {
            read_right(here, symbols, site.place)
        }
        _ => enter_record(here, marks, symbols, site),
    }
}

// ---- leaves: plain records without scope and children, passed at once

// A field with this tag may stand here, and is whole with `len` bytes of numbers; its tag is not looked at.
#[tactic(auto, unfolding(crate::specs::Flat::is_whole))]
fn is_whole(here: Reader, place: Place, tag: u16, len: u16) -> bool
    ensures { result ≡ is_whole here.entry.file.now place tag len here.entry.at }
{
    here.at < here.file.len()
        && HEAD_BYTES + usize::from(len) <= here.file.len() - here.at
        && fields::is_allowed(place, tag)
        && fields::read_two(here.file, here.at + TAG_BYTES) == len
}

// The bytes of the Expression here, where it is right and has no children.
#[tactic(auto, unfolding(crate::specs::Flat::expression_size, crate::specs::Flat::is_whole))]
fn expression_size(here: Reader, place: Place) -> Option<u32>
    ensures { result ≡ expression_size here.entry.file.now place here.entry.at }
{
    if is_whole(here, place, tag::EXPRESSION, EXPRESSION_LENGTH)
        && fields::read_two(here.file, here.at + NUMBER_B) == 0
    {
        Some(EXPRESSION_SIZE)
    } else {
        None
    }
}

// The bytes of the Read or Name here, where it names a symbol row.
#[tactic(auto, unfolding(crate::specs::Flat::mention_size, crate::specs::Flat::is_whole))]
fn mention_size(here: Reader, place: Place, symbols: usize, tag: u16) -> Option<u32>
    ensures { result ≡ mention_size here.entry.file.now place symbols tag here.entry.at }
{
    if !is_whole(here, place, tag, MENTION_LENGTH) {
        return None;
    }
    let row = usize::from(fields::read_two(here.file, here.at + NUMBER_A));
    if 1 <= row && row <= symbols {
        Some(MENTION_SIZE)
    } else {
        None
    }
}

// The bytes of the leaf here, or none where there is no leaf or its check could refuse it.
#[tactic(auto, unfolding(crate::specs::Flat::leaf_size))]
fn leaf_size(here: Reader, symbols: usize, site: Site) -> Option<u32>
    ensures { result ≡ leaf_size here.entry.file.now site.place site.role symbols here.entry.at }
{
    if !tally::is_plain(site.role) {
        return None;
    }
    let tag = here.tag();
    match tag {
        tag::EXPRESSION => expression_size(here, site.place),
        // Each tag by its name, so that what may stand at a place is asked of a constant.
        tag::READ => mention_size(here, site.place, symbols, tag::READ),
        tag::NAME => mention_size(here, site.place, symbols, tag::NAME),
        _ => None,
    }
}

// ---- where an expression stands

// The form of the Function or Class here.
#[tactic(auto, unfolding(meaning::specs::Grammar::two))]
fn form_at(here: Reader) -> u16
    ensures { result ≡ two here.entry.file.now (here.entry.at + 3) }
{
    fields::read_two(here.file, here.at.saturating_add(NUMBER_A))
}

// What stands here is an expression by its tag, or by its form.
#[tactic(auto, unfolding(crate::specs::Flat::expression_at))]
fn is_expression(here: Reader) -> bool
    ensures { result ≡ expression_at here.entry.file.now here.entry.at }
{
    let tag = here.tag();
    match tag {
        tag::EXPRESSION | tag::READ | tag::CALL | tag::LOAD => true,
        tag::FUNCTION | tag::CLASS => form_at(here) == form::EXPRESSION,
        _ => false,
    }
}

// An expression is looked for at a place: always, or by what stands there, or never. A Name, which is a leaf too, counts as one here.
#[tactic(auto, unfolding(crate::specs::Flat::expression_here, meaning::specs::Grammar::index))]
fn takes_expression(here: Reader, place: Place) -> bool
    ensures { result ≡ expression_here here.entry.file.now place here.entry.at }
{
    match place {
        Place::Expression | Place::SwitchExpression | Place::Name => true,
        Place::PlainItem
        | Place::ForLeft
        | Place::ForOfLeft
        | Place::ClassItem
        | Place::DefaultExport => is_expression(here),
        _ => false,
    }
}

// ---- the cycle: a record's children are statements, expressions and parts of them

// So many children below the last level: none, or the first is refused whatever its head says, once that is there.
fn below_last(here: Reader, n: u16) -> Result<Progress, Refusal>
    ensures { result ≡ below_last here.entry.file.now n here.entry.at }
{
    if n == 0 {
        return Ok(Progress {
            at: here.at,
            tally: tally::no_tally(),
        });
    }
    if here.file.len().saturating_sub(here.at) < HEAD_BYTES {
        return Err(Refusal {
            reason: Reason::Cut,
            place: here.at,
        });
    }
    Err(Refusal {
        reason: Reason::TooDeep,
        place: here.at,
    })
}

// What is left of a record when its field was entered: its children, with so many levels left for them, and its tally.
#[cycle(records)]
fn check_entered(
    source: Source,
    marks: &mut [u8],
    site: Site,
    before: Tally,
    levels: u16,
    x: Field,
) -> Result<Progress, Refusal>
    ensures { past result marks.new
        ≡ after_f levels source.entry.file.now source.entry.rows.scopes source.entry.rows.symbols site.place site.role site.scope.0 before (entered (Ok x) marks.old) }
{
    let scope = rules::scope_below(site.scope, rules::scope_in(x));
    let kids = check_children(source, marks, Site { scope, ..site }, x, levels)?;
    let inserted = tally::inserts(
        source.file,
        source.rows.scopes,
        source.rows.symbols,
        site.role,
        x,
    );
    Ok(Progress {
        at: kids.at,
        tally: tally::add_record(before, site.role, inserted, x, kids.tally),
    })
}

// A statement, what else stands in Program or a list, or a part of one: Declarators, Cases, Catches, Bodies, StaticBlocks, Specifiers. Most
// of them name a scope. So many levels are left for its children.
#[cycle(records)]
fn check_statement(
    source: Source,
    marks: &mut [u8],
    site: Site,
    done: Progress,
    levels: u16,
) -> Result<Progress, Refusal>
    ensures { past result marks.new
        ≡ record_f (suc levels) source.entry.file.now source.entry.rows.scopes source.entry.rows.symbols site.place site.role site.scope.0 done.tally done.at marks.old }
{
    let file = source.file;
    let here = Reader { file, at: done.at };
    let x = enter_record(here, marks, source.rows.symbols as usize, site)?;
    check_entered(source, marks, site, done.tally, levels, x)
}

// An expression: an Expression, a Read, a Call, a Load, or a Function or Class of form 1; and a Name, though it is a part of a Declarator or a
// Catch. So many levels are left for its children.
#[cycle(records)]
fn check_expression(
    source: Source,
    marks: &mut [u8],
    site: Site,
    done: Progress,
    levels: u16,
) -> Result<Progress, Refusal>
    ensures { past result marks.new
        ≡ record_f (suc levels) source.entry.file.now source.entry.rows.scopes source.entry.rows.symbols site.place site.role site.scope.0 done.tally done.at marks.old }
{
    let file = source.file;
    let here = Reader { file, at: done.at };
    let symbols = source.rows.symbols as usize;
    let x = enter_expression(here, marks, symbols, site)?;
    check_entered(source, marks, site, done.tally, levels, x)
}

// A child at its place: an expression, or a statement or a part of one. So many levels are left for its own children.
#[cycle(records)]
fn check_child(
    source: Source,
    marks: &mut [u8],
    site: Site,
    done: Progress,
    levels: u16,
) -> Result<Progress, Refusal>
    ensures { past result marks.new
        ≡ record_f (suc levels) source.entry.file.now source.entry.rows.scopes source.entry.rows.symbols site.place site.role site.scope.0 done.tally done.at marks.old }
{
    let file = source.file;
    let here = Reader { file, at: done.at };
    if takes_expression(here, site.place) {
        check_expression(source, marks, site, done, levels)
    } else {
        check_statement(source, marks, site, done, levels)
    }
}

// The children of a record at `site`, one after another, with so many levels left for them; the site's scope is that around the children.
#[cycle(records)]
fn check_children(
    source: Source,
    marks: &mut [u8],
    site: Site,
    x: Field,
    levels: u16,
) -> Result<Progress, Refusal>
    ensures { past result marks.new
        ≡ children_f levels source.entry.file.now source.entry.rows.scopes source.entry.rows.symbols site.place site.role x site.scope.0 marks.old }
{
    let n = rules::children_of(x);
    if levels == 0 {
        return below_last(
            Reader {
                file: source.file,
                at: x.next,
            },
            n,
        );
    }
    // A leaf is passed at once, and changes offset and tally in place: an answer of its own would go through memory from child to child.
    let mut at = x.next;
    let mut tally = tally::no_tally();
    for k in 0..n {
        let place = rules::place_of(site.place, x, k);
        let role = tally::role_in(source.file, site.role, x, k);
        let child = Site {
            place,
            role,
            ..site
        };
        let here = Reader {
            file: source.file,
            at,
        };
        if let Some(size) = leaf_size(here, source.rows.symbols as usize, child) {
            at += size as usize;
            tally = tally::add_leaf(tally, size);
            continue;
        }
        let done = check_child(source, marks, child, Progress { at, tally }, levels - 1)?;
        at = done.at;
        tally = done.tally;
    }
    Ok(Progress { at, tally })
}

// ---- the rows before the tree
//
// Scope rows and symbol rows are read by twins, each of which follows its own definition (`scope_at` and `symbol_at`, `read_scopes` and
// `read_symbols`): one loop for both would take the test and the reading as closures, and be no shorter.

// Scope row k, counted from 0.
fn read_scope(here: Reader, k: usize) -> Result<Field, Refusal>
    ensures { result ≡ scope_at here.entry.file.now k here.entry.at }
{
    let x = here.field(Place::ScopeRow)?;
    judged(rules::scope_right(k, x), x, here.at)
}

fn read_symbol(here: Reader, scopes: usize) -> Result<Field, Refusal>
    ensures { result ≡ symbol_at here.entry.file.now scopes here.entry.at }
{
    let x = here.field(Place::SymbolRow)?;
    judged(rules::symbol_right(scopes, x), x, here.at)
}

fn more_scopes(here: Reader, k: usize) -> bool
    ensures { result ≡ (eqb k 0 || eqb (get_or here.entry.file.now here.entry.at 0) Tag.Scope) }
{
    k == 0 || here.tag() == tag::SCOPE
}

fn more_symbols(here: Reader) -> bool
    ensures { result ≡ eqb (get_or here.entry.file.now here.entry.at 0) Tag.Symbol }
{
    here.tag() == tag::SYMBOL
}

// `read_scopes` and `read_symbols` stay two loops of one definition (`read_rows`): one would take the test and the step from a trait with two ghost
// functions and an impl for each kind of row, in more lines than the second loop has.
pub fn read_scopes(file: &[u8], from: usize) -> Result<Rows, Refusal>
    ensures { result ≡ read_scopes file.now from }
{
    let mut at = from;
    for k in 0..MOST_ROWS {
        let here = Reader { file, at };
        if !more_scopes(here, k) {
            return Ok(Rows { count: k, next: at });
        }
        let x = read_scope(here, k)?;
        at = x.next;
    }
    Ok(Rows {
        count: MOST_ROWS,
        next: at,
    })
}

pub fn read_symbols(file: &[u8], scopes: usize, from: usize) -> Result<Rows, Refusal>
    ensures { result ≡ read_symbols file.now scopes from }
{
    let mut at = from;
    for k in 0..MOST_SYMBOLS {
        let here = Reader { file, at };
        if !more_symbols(here) {
            return Ok(Rows { count: k, next: at });
        }
        let x = read_symbol(here, scopes)?;
        at = x.next;
    }
    Ok(Rows {
        count: MOST_SYMBOLS,
        next: at,
    })
}

// ---- the whole file

// The lowest row without a mark, counted from 0.
fn first_unnamed(marks: &[u8]) -> Option<usize>
    ensures { result ≡ row_below (unnamed marks.now) (length marks.now) }
{
    marks.iter().position(|&mark| mark == 0)
}

// Program and all in it, with all levels left.
fn check_program(source: Source, marks: &mut [u8], at: usize) -> Result<Progress, Refusal>
    ensures { past result marks.new
        ≡ record_f 64 source.entry.file.now source.entry.rows.scopes source.entry.rows.symbols ProgramPlace PlainRole 0 no_tally at marks.old }
{
    let site = Site {
        place: Place::Program,
        role: Role::Plain,
        scope: ScopeId(0),
    };
    let x = enter_record(
        Reader {
            file: source.file,
            at,
        },
        marks,
        source.rows.symbols as usize,
        site,
    )?;
    check_entered(source, marks, site, tally::no_tally(), MOST_LEVELS - 1, x)
}

// The tree, what stands behind it, and the lowest unnamed row.
fn check_tree(source: Source, marks: &mut [u8], at: usize) -> Result<Progress, Refusal>
    requires { length marks.old ≤ most_rows }
    ensures { result ≡ tree_f source.entry.file.now source.entry.rows.scopes source.entry.rows.symbols at marks.old }
{
    let end = check_program(source, marks, at)?;
    if end.at < source.file.len() {
        return Err(Refusal {
            reason: Reason::BytesBehind,
            place: end.at,
        });
    }
    match first_unnamed(marks) {
        Some(row) => Err(Refusal {
            reason: Reason::WrongNumber,
            place: SETTINGS_BYTES + SCOPE_BYTES * row,
        }),
        None => Ok(end),
    }
}

// The same, with no row marked.
fn check_unmarked(source: Source, at: usize) -> Result<Progress, Refusal>
    requires { source.rows.scopes ≤ most_rows }
    ensures { result ≡ tree_f source.entry.file.now source.entry.rows.scopes source.entry.rows.symbols at (replicate source.entry.rows.scopes 0) }
{
    let mut marks = [0u8; MOST_ROWS];
    let scopes = source.rows.scopes as usize;
    check_tree(source, &mut marks[..scopes], at)
}

// ---- how often symbols are named

// The mentions in so many records from an offset on are added.
fn count_fields(file: &[u8], counts: &mut [u16], tree: u16, records: u16)
    ensures { counts.new ≡ count_f file.now records tree counts.old }
{
    let mut at = tree as usize;
    for _ in 0..records {
        let x = fields::field_of(file, at as u32);
        mentions::add_record(counts, tables::closed_row(x.tag, x.a, x.b, x.c, 0));
        at = x.next;
    }
}

// The lowest row whose fifth number is not its counter, counted from 0; the rows begin at an offset.
fn first_wrong(file: &[u8], counts: &[u16], first: u16) -> Option<usize>
    requires { length counts.now ≤ most_symbols }
    ensures { result ≡ row_below (wrong_in file.now counts.now first) (length counts.now) }
{
    let first = first as usize;
    (0..counts.len()).find(|&k| fields::read_two(file, first + SYMBOL_BYTES * k + NUMBER_E)
        != counts[k])
}

// The same, once the records are counted.
fn first_miscounted(file: &[u8], counts: &mut [u16], l: Layout) -> Option<usize>
    requires { length counts.old ≤ most_symbols }
    ensures { result
        ≡ row_below (wrong_in file.now (count_f file.now l.records l.tree counts.old) l.first) (length counts.old) }
{
    count_fields(file, counts, l.tree, l.records);
    first_wrong(file, counts, l.first)
}

// The same, with all counters 0 before.
fn wrong_row(file: &[u8], l: Layout) -> Option<usize>
    requires { l.symbols ≤ most_symbols }
    ensures { result ≡ row_below (wrong_f file.now l) l.symbols }
{
    let mut counts = [0u16; MOST_SYMBOLS];
    let symbols = l.symbols as usize;
    first_miscounted(file, &mut counts[..symbols], l)
}

// ---- the answer

// The layout with the records that were counted.
fn with_records(l: Layout, records: u32) -> Layout
    ensures { result ≡ with_records l records }
{
    Layout {
        records: records.min(MOST_BYTES as u32) as u16,
        ..l
    }
}

// A file with a right tree: its counts are the last check.
fn check_counts(file: &[u8], layout: Layout, tally: Tally) -> Result<Whole, Refusal>
    requires { layout.symbols ≤ most_symbols }
    ensures { result ≡ counted_f file.now layout tally }
{
    match wrong_row(file, layout) {
        Some(row) => Err(Refusal {
            reason: Reason::WrongNumber,
            place: (layout.first as usize) + SYMBOL_BYTES * row,
        }),
        None => Ok(Whole { layout, tally }),
    }
}

// The symbol rows from an offset on, and the tree, in a file with so many scope rows.
fn check_symbols(file: &[u8], settings: Field, scopes: u16, first: usize) -> Result<Whole, Refusal>
    requires { scopes ≤ most_rows }
    ensures { result ≡ symbols_f file.now settings scopes first }
{
    let symbol_rows = read_symbols(file, scopes as usize, first)?;
    let rows = RowCounts {
        scopes,
        symbols: symbol_rows.count as u16,
    };
    let layout = Layout {
        mode: settings.a,
        esm: settings.b,
        scopes,
        symbols: rows.symbols,
        records: 0,
        first: first.min(MOST_BYTES) as u16,
        tree: symbol_rows.next.min(MOST_BYTES) as u16,
    };
    let end = check_unmarked(Source { file, rows }, symbol_rows.next)?;
    check_counts(file, with_records(layout, end.tally.records), end.tally)
}

// The rows behind the settings, and the tree.
fn check_rows(file: &[u8], settings: Field) -> Result<Whole, Refusal>
    ensures { result ≡ rows_f file.now settings }
{
    let rows = read_scopes(file, settings.next)?;
    check_symbols(file, settings, rows.count as u16, rows.next)
}

// The settings of a file, its rows and its tree.
#[tactic(auto, unfolding(crate::specs::Flat::settings_f))]
fn check_settings(file: &[u8], settings: Field) -> Result<Whole, Refusal>
    ensures { result ≡ settings_f file.now settings }
{
    if mode::INLINE < settings.a || 1 < settings.b {
        return Err(Refusal {
            reason: Reason::WrongNumber,
            place: 0,
        });
    }
    check_rows(file, settings)
}

// Checks a whole file: its layout, and the tally of its tree.
fn check_whole(file: &[u8]) -> Result<Whole, Refusal>
    ensures { result ≡ file_f file.now }
{
    if MOST_BYTES < file.len() {
        return Err(Refusal {
            reason: Reason::TooLong,
            place: MOST_BYTES,
        });
    }
    check_settings(file, fields::read_field(file, Place::Settings, 0)?)
}

// ---- public

// Checks a tree file: fine, or 01's refusal with its place.
pub fn check(file: &[u8]) -> Result<(), Refusal>
    ensures { result ≡ checked_of (read_file file.now) }
{
    check_whole(file)?;
    Ok(())
}

// The layout of a file and the figures of the lowered one, or 01's refusal with its place: those of reading, and 8.
pub fn survey(file: &[u8]) -> Result<Surveyed, Refusal>
    ensures { result ≡ surveyed_of (check_file file.now) }
{
    let whole = check_whole(file)?;
    let layout = whole.layout;
    let figures = figures::figures_of(
        layout.mode,
        layout.esm,
        layout.scopes,
        layout.symbols,
        whole.tally,
    )?;
    Ok(Surveyed { layout, figures })
}

// The figures of the lowered file, from the source alone, or 01's refusal with its place: those of reading, and 8.
pub fn figures(file: &[u8]) -> Result<FinalFigures, Refusal>
    ensures { result ≡ figured_of (figures_of file.now) }
{
    Ok(survey(file)?.figures)
}
