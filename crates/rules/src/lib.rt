// The rules of a record's numbers, by its tag and place.
#![tactic(auto)]

ghost use Rattle.std.specs.Prelude.{if◌then◌else◌, ◌≡◌, ◌&&◌, not, ◌+◌, leb, eqb, ltb};
ghost use Rattle.meaning.specs.Numbers.Letter;
ghost use Rattle.meaning.specs.Numbers.Mode;
ghost use Rattle.meaning.specs.Numbers.Parts;
ghost use Rattle.meaning.specs.Numbers.StepForm;
ghost use Rattle.meaning.specs.File.{has_children, own_numbers};
ghost use Rattle.meaning.specs.Grammar.{form_fits, is_row, scope_right, symbol_right, declaration_right, declarator_right, try_right, function_right, class_right, module_line_right, right, children_of, place_of, head_of, scope_of, below};

use meaning::{
    Field, Place, ScopeId, SymbolId, form, kind, letter, line_form, mode, parts, scope_flag,
    step_form, symbol_flag, tag,
};

// All flags of a scope together, and all of a symbol.
const SCOPE_FLAGS: u16 = scope_flag::STRICT
    + scope_flag::CATCH
    + scope_flag::STATIC_BLOCK
    + scope_flag::FUNCTION
    + scope_flag::TOP;

const SYMBOL_FLAGS: u16 = symbol_flag::FUNCTION_SCOPED
    + symbol_flag::BLOCK_SCOPED
    + symbol_flag::CONST
    + symbol_flag::CLASS
    + symbol_flag::CATCH
    + symbol_flag::IMPORT
    + symbol_flag::FUNCTION;

// ---- places

// Whether a Function or Class of this form may stand at a place.
#[tactic(auto, unfolding(meaning::specs::Grammar::form_fits, meaning::specs::Grammar::forms_of))]
fn form_fits(place: Place, form: u16) -> bool
    ensures { result ≡ form_fits place form }
{
    match place {
        Place::ProgramItem | Place::ListItem | Place::Statement | Place::ExportedDeclaration => {
            form == form::DECLARATION
        }
        Place::ForLeft | Place::ForOfLeft | Place::Expression | Place::ClassItem => {
            form == form::EXPRESSION
        }
        Place::PlainItem | Place::DefaultExport => form <= form::EXPRESSION,
        Place::Settings
        | Place::ScopeRow
        | Place::SymbolRow
        | Place::Program
        | Place::Declarator
        | Place::ForOfDeclarator
        | Place::Name
        | Place::SwitchExpression
        | Place::Case
        | Place::TryPart
        | Place::Catch
        | Place::Body
        | Place::Specifier => false,
    }
}

// ---- numbers

// Whether there is such a symbol row, of so many.
fn is_row(symbols: usize, s: SymbolId) -> bool
    ensures { result ≡ is_row symbols s.0 }
{
    1 <= s.0 && (s.0 as usize) <= symbols
}

// Scope row k, counted from 0: the first has no parent, and every other one has.
#[tactic(auto, unfolding(meaning::specs::Grammar::scope_right))]
pub fn scope_right(k: usize, x: Field) -> bool
    ensures { result ≡ scope_right k x }
{
    (x.a == 0) == (k == 0) && x.b <= SCOPE_FLAGS
}

// A symbol row: a name, flags, one of so many scope rows, and whether it was made.
#[tactic(auto, unfolding(meaning::specs::Grammar::symbol_right))]
pub fn symbol_right(scopes: usize, x: Field) -> bool
    ensures { result ≡ symbol_right scopes x }
{
    1 <= x.a && x.b <= SYMBOL_FLAGS && 1 <= x.c && (x.c as usize) <= scopes && x.d <= 1
}

// A Declaration: a kind, and at least one Declarator; left in a ForOf exactly one.
#[tactic(auto, unfolding(meaning::specs::Grammar::declaration_right, meaning::specs::Grammar::index))]
fn declaration_right(place: Place, x: Field) -> bool
    ensures { result ≡ declaration_right place x }
{
    x.a <= kind::AWAIT_USING && (x.b == 1 || (1 <= x.b && place != Place::ForOfLeft))
}

// A Declarator: pattern 0 has one Name. An initializer may follow the Names, but not left in a ForOf.
#[tactic(auto, unfolding(meaning::specs::Grammar::declarator_right, meaning::specs::Grammar::index))]
fn declarator_right(place: Place, x: Field) -> bool
    ensures { result ≡ declarator_right place x }
{
    (x.a != 0 || x.b == 1)
        && (x.c == x.b || (place != Place::ForOfDeclarator && (x.c as usize) == (x.b as usize) + 1))
}

// A Try: its Block, and one part more or two.
#[tactic(auto, unfolding(meaning::specs::Grammar::try_right))]
fn try_right(x: Field) -> bool
    ensures { result ≡ try_right x }
{
    match x.a {
        parts::BOTH => x.b == 3,
        parts::HANDLER | parts::FINALIZER => x.b == 2,
        _ => false,
    }
}

// A Function: a form that fits, a scope, a symbol or none, and two children.
#[tactic(auto, unfolding(meaning::specs::Grammar::function_right))]
fn function_right(place: Place, symbols: usize, x: Field) -> bool
    ensures { result ≡ function_right place symbols x }
{
    form_fits(place, x.a) && 1 <= x.b && (x.c as usize) <= symbols && x.d == 2
}

// A Class: a form that fits, a scope, and a symbol; an expression or a default export may have none.
#[tactic(auto, unfolding(meaning::specs::Grammar::class_right, meaning::specs::Grammar::index))]
fn class_right(place: Place, symbols: usize, x: Field) -> bool
    ensures { result ≡ class_right place symbols x }
{
    form_fits(place, x.a)
        && 1 <= x.b
        && (x.c as usize) <= symbols
        && (x.a == form::EXPRESSION || 1 <= x.c || place == Place::DefaultExport)
}

// A Call: a letter, the context's symbol, and one argument.
fn call_right(symbols: usize, x: Field) -> bool
    ensures { result ≡ (leb x.a Letter.A && is_row symbols x.b && eqb x.c 1) }
{
    x.a <= letter::A && is_row(symbols, SymbolId(x.b)) && x.c == 1
}

// A Load: the runtime or the external form, and a symbol or none.
fn load_right(symbols: usize, x: Field) -> bool
    ensures { result ≡ (leb x.a Mode.External && leb x.b symbols) }
{
    x.a <= mode::EXTERNAL && (x.b as usize) <= symbols
}

// A Step: a form, the context's symbol, and another one or none.
fn step_right(symbols: usize, x: Field) -> bool
    ensures { result ≡ (leb x.a StepForm.AwaitDispose && is_row symbols x.b && leb x.c symbols) }
{
    x.a <= step_form::AWAIT_DISPOSE && is_row(symbols, SymbolId(x.b)) && (x.c as usize) <= symbols
}

// A For: a scope, and three children.
fn for_right(x: Field) -> bool
    ensures { result ≡ (leb 1 x.a && eqb x.b 3) }
{
    1 <= x.a && x.b == 3
}

// A ForOf: a scope, await or not, and three children.
fn for_of_right(x: Field) -> bool
    ensures { result ≡ (leb 1 x.a && leb x.b 1 && eqb x.c 3) }
{
    1 <= x.a && x.b <= 1 && x.c == 3
}

// A Switch: a scope, and its expression before the Cases.
fn switch_right(x: Field) -> bool
    ensures { result ≡ (leb 1 x.a && leb 1 x.b) }
{
    1 <= x.a && 1 <= x.b
}

// A Case: with a test or without, and the test is its first child.
fn case_right(x: Field) -> bool
    ensures { result ≡ (leb x.a 1 && leb x.a x.b) }
{
    x.a <= 1 && x.a <= x.b
}

// A Catch: a scope, and its Block behind the Names.
fn catch_right(x: Field) -> bool
    ensures { result ≡ (leb 1 x.a && eqb x.d (x.b + 1)) }
{
    1 <= x.a && (x.d as usize) == (x.b as usize) + 1
}

// A Specifier: a symbol, and a name that it is exported by.
fn specifier_right(symbols: usize, x: Field) -> bool
    ensures { result ≡ (is_row symbols x.a && leb 1 x.b) }
{
    is_row(symbols, SymbolId(x.a)) && 1 <= x.b
}

// A Module line: a form, with any number of Specifiers; the helper's import has one.
#[tactic(auto, unfolding(meaning::specs::Grammar::module_line_right))]
fn module_line_right(x: Field) -> bool
    ensures { result ≡ module_line_right x }
{
    x.a <= line_form::EXPORT_FROM || (x.a == line_form::IMPORT_HELPER && x.c == 1)
}

// The numbers of a record are right at its place; its scope row apart.
#[tactic(auto, unfolding(meaning::specs::Grammar::right, meaning::specs::Grammar::declaration_right, meaning::specs::Grammar::declarator_right, meaning::specs::Grammar::try_right, meaning::specs::Grammar::function_right, meaning::specs::Grammar::class_right, meaning::specs::Grammar::module_line_right))]
pub fn is_right(place: Place, symbols: usize, x: Field) -> bool
    ensures { result ≡ right place symbols x }
{
    match x.tag {
        tag::PLAIN | tag::BODY | tag::EXPRESSION => true,
        tag::PROGRAM | tag::DEFAULT_EXPORT | tag::EXPORTED_DECLARATION => x.a == 1,
        tag::BLOCK | tag::STATIC_BLOCK => 1 <= x.a,
        tag::READ | tag::NAME => is_row(symbols, SymbolId(x.a)),
        tag::LABEL => x.b == 1,
        tag::DECLARATION => declaration_right(place, x),
        tag::DECLARATOR => declarator_right(place, x),
        tag::FOR => for_right(x),
        tag::FOR_OF => for_of_right(x),
        tag::SWITCH => switch_right(x),
        tag::CASE => case_right(x),
        tag::TRY => try_right(x),
        tag::CATCH => catch_right(x),
        tag::FUNCTION => function_right(place, symbols, x),
        tag::CLASS => class_right(place, symbols, x),
        tag::MODULE_LINE => module_line_right(x),
        tag::SPECIFIER => specifier_right(symbols, x),
        tag::CALL => call_right(symbols, x),
        tag::LOAD => load_right(symbols, x),
        tag::STEP => step_right(symbols, x),
        0 | 21..=23 | 30..=65535 => false,
    }
}

// ---- scopes and children

// The scope row that a record names, or 0, as its clause says.
#[tactic(auto, unfolding(meaning::specs::Grammar::scope_of, meaning::specs::Grammar::head_of, meaning::specs::File::own_numbers, meaning::specs::File::has_children, meaning::specs::File::numbers_of))]
pub fn scope_in(x: Field) -> ScopeId
    ensures { result.0 ≡ scope_of (head_of x) }
{
    meaning::scope_named(x.tag, x.a, x.b)
}

// The current scope below a record with scope s.
pub fn scope_below(cur: ScopeId, s: ScopeId) -> ScopeId
    ensures { result.0 ≡ below cur.0 s.0 }
{
    if s.0 == 0 { cur } else { s }
}

// Whether a record's last number counts its children.
#[tactic(auto, unfolding(meaning::specs::File::has_children))]
pub fn has_children(tag: u16) -> bool
    ensures { result ≡ has_children tag }
{
    matches!(
        tag,
        1..=tag::EXPORTED_DECLARATION | tag::EXPRESSION | tag::CALL
    )
}

// How many numbers a record has besides the count of its children.
#[tactic(auto, unfolding(meaning::specs::File::own_numbers))]
pub fn own_numbers(tag: u16) -> u8
    ensures { result ≡ own_numbers tag }
{
    fields::numbers_of(tag).saturating_sub(u8::from(has_children(tag)))
}

// How many children a record has.
#[tactic(auto, unfolding(meaning::specs::Grammar::children_of, meaning::specs::File::own_numbers, meaning::specs::File::has_children, meaning::specs::File::numbers_of))]
pub fn children_of(x: Field) -> u16
    ensures { result ≡ children_of x }
{
    match x.tag {
        tag::BODY | tag::DEFAULT_EXPORT | tag::EXPORTED_DECLARATION => x.a,
        tag::PROGRAM
        | tag::BLOCK
        | tag::LABEL
        | tag::DECLARATION
        | tag::FOR
        | tag::SWITCH
        | tag::CASE
        | tag::TRY
        | tag::STATIC_BLOCK
        | tag::EXPRESSION => x.b,
        tag::PLAIN | tag::DECLARATOR | tag::FOR_OF | tag::MODULE_LINE | tag::CALL => x.c,
        tag::CATCH | tag::FUNCTION | tag::CLASS => x.d,
        _ => 0,
    }
}

// A place for child 0, one for child 1, and one for the rest.
fn by_turn(k: u16, first: Place, second: Place, others: Place) -> Place
    ensures { result ≡ (if eqb k 0 then first else if eqb k 1 then second else others) }
{
    match k {
        0 => first,
        1 => second,
        _ => others,
    }
}

// One place for child 0, and another for the rest.
fn first_or(k: u16, first: Place, others: Place) -> Place
    ensures { result ≡ (if eqb k 0 then first else others) }
{
    if k == 0 { first } else { others }
}

// One place for the first m children, and another for the rest.
fn up_to(k: u16, m: u16, early: Place, late: Place) -> Place
    ensures { result ≡ (if ltb k m then early else late) }
{
    if k < m { early } else { late }
}

// The second part of a Try is its handler, unless it has only a finalizer.
fn try_place(k: u16, parts: u16) -> Place
    ensures { result ≡ (if eqb k 1 && not (eqb parts Parts.Finalizer) then Place.Catch else Place.TryPart) }
{
    if k == 1 && parts != parts::FINALIZER {
        Place::Catch
    } else {
        Place::TryPart
    }
}

// The place of child k of a record that stands at `place`.
#[tactic(auto, unfolding(meaning::specs::Grammar::place_of, meaning::specs::Grammar::index))]
pub fn place_of(place: Place, x: Field, k: u16) -> Place
    ensures { result ≡ place_of place x k }
{
    match x.tag {
        tag::PROGRAM => Place::ProgramItem,
        tag::BLOCK | tag::BODY | tag::STATIC_BLOCK => Place::ListItem,
        tag::PLAIN => Place::PlainItem,
        tag::LABEL => Place::Statement,
        tag::DECLARATION if place == Place::ForOfLeft => Place::ForOfDeclarator,
        tag::DECLARATION => Place::Declarator,
        tag::DECLARATOR => up_to(k, x.b, Place::Name, Place::Expression),
        tag::FOR => by_turn(k, Place::ForLeft, Place::Expression, Place::Statement),
        tag::FOR_OF => by_turn(k, Place::ForOfLeft, Place::Expression, Place::Statement),
        tag::SWITCH => first_or(k, Place::SwitchExpression, Place::Case),
        tag::CASE => up_to(k, x.a, Place::Expression, Place::ListItem),
        tag::TRY => try_place(k, x.a),
        tag::CATCH => up_to(k, x.b, Place::Name, Place::TryPart),
        tag::FUNCTION => first_or(k, Place::Expression, Place::Body),
        tag::CLASS => Place::ClassItem,
        tag::MODULE_LINE => Place::Specifier,
        tag::DEFAULT_EXPORT => Place::DefaultExport,
        tag::EXPORTED_DECLARATION => Place::ExportedDeclaration,
        _ if place == Place::SwitchExpression => Place::SwitchExpression,
        _ => Place::Expression,
    }
}
