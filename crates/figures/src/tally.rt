// What the records of a tree add up to once they are lowered: the figures, found in the source.
ghost use Rattle.std.specs.Prelude.{if◌then◌else◌, ◌≡◌, not, ◌&&◌, ◌+◌, ◌*◌, ◌-◌, eqb, ltb};
ghost use Rattle.meaning.specs.Numbers.Tag;
ghost use Rattle.meaning.specs.File.{settings_bytes, scope_bytes, symbol_bytes, head_bytes};
ghost use Rattle.meaning.specs.Grammar.{two, is_row, head_of, children_of};
ghost use Rattle.meaning.specs.Reading.{symbols_in};
ghost use Rattle.meaning.specs.Scoping.{binds, get_binding};
ghost use Rattle.meaning.specs.Statements.{is_using};
ghost use Rattle.meaning.specs.ForOf.{binds_name};
ghost use Rattle.figures.specs.Tally.{role_index, is_role, role_of, body_role, inserts_in, rows_from, symbol_in_row, one_if, takes_up, takes_up_cases, is_block, is_body, gets_context, is_export, capped, cap, ◌⊞◌, items_kept, own, is_silent, silent, no_tally, leaf_tally};

use fields::{
    DECLARATION_BYTES, DECLARATOR_BYTES, HEAD_BYTES, NUMBER_BYTES, SCOPE_BYTES, SETTINGS_BYTES,
    SYMBOL_BYTES,
};
use meaning::{Field, ScopeId, SymbolId, form, kind, tag};
use std::ops::Add;

// Where the numbers of a ForOf's using stand, from its Declaration on: its kind, its Declarator's pattern, and its Name's symbol.
const KIND_AT: usize = HEAD_BYTES;

const PATTERN_AT: usize = DECLARATION_BYTES + HEAD_BYTES;

const SYMBOL_AT: usize = DECLARATION_BYTES + DECLARATOR_BYTES + HEAD_BYTES;

// Which number of a symbol row: its name, its scope, and whether it was made.
const NAME: u8 = 0;

const SCOPE: u8 = 2;

const MADE: u8 = 3;

// Counts over some records beside each other and all below them, by 01's lines: records and their bytes; contexts of Block statements, and
// others; wrapped initializers; ForOfs whose using goes into the body, and those whose body is wrapped; lowered Programs; and of its items
// classes, exports, exported declarations and their names. And of the records beside each other alone: usings, initializers that their
// context wraps, and the same of Cases.
#[derive(Clone, Copy, Default)]
pub struct Tally {
    pub records: u32,
    pub bytes: u32,
    pub blocks: u32,
    pub parts: u32,
    pub wrapped: u32,
    pub for_ofs: u32,
    pub for_of_blocks: u32,
    pub programs: u32,
    pub classes: u32,
    pub exports: u32,
    pub declarations: u32,
    pub names: u32,
    pub usings: u32,
    pub wraps: u32,
    pub case_usings: u32,
    pub case_wraps: u32,
}

// What a record is to the one around it: a try part, an item of Program, what 18 and 19 export and the parts of that, a Declarator of a
// using, the body of a ForOf with a using of this symbol.
#[derive(Clone, Copy, Debug, PartialEq, Eq)]
pub enum Role {
    Plain,
    Part,
    Item,
    Default,
    Exported,
    ExportedDeclarator,
    ExportedName,
    Held,
    Body(u16),
}

// ---- what a record is to the one around it

// The record is nothing special to the one around it.
#[tactic(auto, unfolding(crate::specs::Tally::role_index))]
pub fn is_plain(role: Role) -> bool
    ensures { result ≡ eqb (role_index role) 0 }
{
    role == Role::Plain
}

// The record is the body of a ForOf with a using.
#[tactic(auto, unfolding(crate::specs::Tally::role_index))]
fn is_body(role: Role) -> bool
    ensures { result ≡ is_body role }
{
    matches!(role, Role::Body(_))
}

// Whether a record is a using.
#[tactic(auto, unfolding(meaning::specs::Statements::is_using, meaning::specs::Grammar::head_of, meaning::specs::File::own_numbers, meaning::specs::File::has_children, meaning::specs::File::numbers_of))]
fn is_using(x: Field) -> bool
    ensures { result ≡ is_using (head_of x) }
{
    x.tag == tag::DECLARATION && kind::is_using(x.a)
}

// The role of the body of a ForOf whose children begin at this offset: its first is a Declaration, with its Declarator and its Name.
#[tactic(auto, unfolding(crate::specs::Tally::body_role))]
fn body_role(file: &[u8], at: usize) -> Role
    ensures { result ≡ body_role file.now at }
{
    if at < file.len()
        && fields::tag_at(file, at) == tag::DECLARATION
        && kind::is_using(fields::read_two(file, at + KIND_AT))
        && fields::read_two(file, at + PATTERN_AT) == 0
    {
        Role::Body(fields::read_two(file, at + SYMBOL_AT))
    } else {
        Role::Plain
    }
}

// The role of child k of a record.
#[tactic(auto, unfolding(crate::specs::Tally::role_of, crate::specs::Tally::role_index))]
pub fn role_in(file: &[u8], role: Role, x: Field, k: u16) -> Role
    ensures { result ≡ role_of role x.tag (is_using (head_of x)) (body_role file.now x.next) k }
{
    match x.tag {
        tag::PROGRAM => Role::Item,
        tag::DECLARATION if role == Role::Exported => Role::ExportedDeclarator,
        tag::DECLARATION if is_using(x) => Role::Held,
        tag::DECLARATOR if role == Role::ExportedDeclarator => Role::ExportedName,
        tag::FOR_OF if k == 2 => body_role(file, x.next),
        tag::TRY | tag::CATCH => Role::Part,
        tag::DEFAULT_EXPORT if role == Role::Item => Role::Default,
        tag::EXPORTED_DECLARATION if role == Role::Item => Role::Exported,
        _ => Role::Plain,
    }
}

// ---- the name of a ForOf's using, in the symbol rows as read

// The symbol rows of a file: so many, behind the settings and so many scope rows. Made of what `inserts` is handed, whose clause names these.
#[derive(Clone, Copy)]
struct SymbolRows<'a> {
    file: &'a [u8],
    scopes: u16,
    count: u16,
}

impl<'a> SymbolRows<'a> {
    // Number j of row i, counted from 0.
    fn number(&self, i: u16, j: u8) -> u16
        ensures { result ≡ two self.now.file.now (rows_from self.now.scopes + symbol_bytes * i + (head_bytes + 2 * j)) }
    {
        fields::read_two(
            self.file,
            SETTINGS_BYTES
                + SCOPE_BYTES * (self.scopes as usize)
                + SYMBOL_BYTES * (i as usize)
                + (HEAD_BYTES + NUMBER_BYTES * (j as usize)),
        )
    }

    // Row i, counted from 0, binds a name in a scope.
    #[tactic(auto, unfolding(meaning::specs::Scoping::binds))]
    fn row_binds(&self, i: u16, scope: ScopeId, name: u16) -> bool
        ensures { result ≡ binds (symbol_in_row self.now.file.now (rows_from self.now.scopes) i) scope.0 name }
    {
        self.number(i, MADE) == 0
            && self.number(i, SCOPE) == scope.0
            && self.number(i, NAME) == name
    }

    // One of the rows binds a name in a scope.
    fn any_binds(&self, scope: ScopeId, name: u16) -> bool
        ensures { result ≡ not (eqb (get_binding (symbols_in self.now.file.now self.now.count (rows_from self.now.scopes)) scope.0 name) 0) }
    {
        (0..self.count).any(|i| self.row_binds(i, scope, name))
    }

    // Number j of row y, counted from 1, or 0 where there is no such row: the row of zeros that the clause names, so no `Option`.
    fn number_of(&self, y: SymbolId, j: u8) -> u16
        ensures { result ≡ (if is_row self.now.count y.0 then two self.now.file.now (rows_from self.now.scopes + symbol_bytes * (y.0 - 1) + (head_bytes + 2 * j)) else 0) }
    {
        if 1 <= y.0 && y.0 <= self.count {
            self.number(y.0 - 1, j)
        } else {
            0
        }
    }

    // The scope binds the name of row y.
    fn binds_name(&self, scope: ScopeId, y: SymbolId) -> bool
        ensures { result ≡ binds_name (symbols_in self.now.file.now self.now.count (rows_from self.now.scopes)) scope.0 y.0 }
    {
        self.number_of(y, MADE) == 0 && self.any_binds(scope, self.number_of(y, NAME))
    }
}

// Whether a using goes in at index 0 of this record's list: the record is the body of a ForOf, and a Block that does not bind its name.
#[tactic(auto, unfolding(crate::specs::Tally::inserts_in, meaning::specs::Grammar::head_of, meaning::specs::File::own_numbers, meaning::specs::File::has_children, meaning::specs::File::numbers_of))]
pub fn inserts(file: &[u8], scopes: u16, symbols: u16, role: Role, x: Field) -> bool
    ensures { result ≡ inserts_in (symbols_in file.now symbols (settings_bytes + scope_bytes * scopes)) role (head_of x) }
{
    let rows = SymbolRows {
        file,
        scopes,
        count: symbols,
    };
    match role {
        Role::Body(y) => x.tag == tag::BLOCK && !rows.binds_name(ScopeId(x.a), SymbolId(y)),
        _ => false,
    }
}

// ---- what a record adds

// n, and one more where a test holds.
fn one_more_if(n: u32, b: bool) -> u32
    ensures { result ≡ capped (n + one_if b) }
{
    n.saturating_add(u32::from(b))
}

// Whether a record of this tag, with so many usings in its list, gets a context for them.
#[tactic(auto, unfolding(crate::specs::Tally::takes_up))]
fn takes_up(tag: u16, usings: u32) -> bool
    ensures { result ≡ takes_up tag usings }
{
    matches!(
        tag,
        tag::PROGRAM | tag::BLOCK | tag::FOR | tag::BODY | tag::STATIC_BLOCK
    ) && usings != 0
}

// Whether a record of this tag, with so many usings in its Cases, gets a context for them.
#[tactic(auto, unfolding(crate::specs::Tally::takes_up_cases))]
fn takes_up_cases(tag: u16, usings: u32) -> bool
    ensures { result ≡ takes_up_cases tag usings }
{
    tag == tag::SWITCH && usings != 0
}

// Whether the context of such a record is a Block statement's. Program's is that of its new Block.
#[tactic(auto, unfolding(crate::specs::Tally::is_block, crate::specs::Tally::role_index))]
fn is_block(role: Role, tag: u16) -> bool
    ensures { result ≡ is_block role tag }
{
    tag == tag::PROGRAM || (tag == tag::BLOCK && role != Role::Part)
}

// Whether the body of a ForOf gets a context of its own: not if the using joins others in its list.
#[tactic(auto, unfolding(crate::specs::Tally::gets_context))]
fn gets_context(role: Role, inserted: bool, usings: u32) -> bool
    ensures { result ≡ gets_context role inserted usings }
{
    is_body(role) && (!inserted || usings == 0)
}

// Whether a record is charged as an exported class or as a default export; a declared Function stays what it is.
#[tactic(auto, unfolding(crate::specs::Tally::is_export, crate::specs::Tally::role_index, meaning::specs::Program::keeps_default, meaning::specs::Grammar::head_of, meaning::specs::File::own_numbers, meaning::specs::File::has_children, meaning::specs::File::numbers_of))]
fn is_export(role: Role, x: Field) -> bool
    ensures { result ≡ is_export role (head_of x) }
{
    match role {
        Role::Default => x.tag != tag::FUNCTION || x.a != form::DECLARATION,
        Role::Exported => x.tag == tag::CLASS,
        _ => false,
    }
}

// Whether a record is a Declarator of a using, with an initializer behind its Names.
#[tactic(auto, unfolding(crate::specs::Tally::role_index, meaning::specs::Grammar::children_of, meaning::specs::Grammar::head_of, meaning::specs::File::own_numbers, meaning::specs::File::has_children, meaning::specs::File::numbers_of))]
fn has_initializer(role: Role, x: Field) -> bool
    ensures { result ≡ (is_role role Role.Held && eqb x.tag Tag.Declarator && ltb (head_of x).b (children_of x)) }
{
    role == Role::Held && x.tag == tag::DECLARATOR && x.b < x.c
}

// What Program's items are charged is dropped at a Program without a using.
#[tactic(auto, unfolding(crate::specs::Tally::items_kept))]
fn items_kept(tag: u16, usings: u32, n: u32) -> u32
    ensures { result ≡ items_kept tag usings n }
{
    if tag == tag::PROGRAM && usings == 0 {
        0
    } else {
        n
    }
}

// The items that a record keeps, and one more where a test holds.
fn plus_item(tag: u16, usings: u32, n: u32, b: bool) -> u32
    ensures { result ≡ capped (items_kept tag usings n + one_if b) }
{
    one_more_if(items_kept(tag, usings, n), b)
}

// The contexts of Block statements, of a record and all below it.
fn blocks_of(role: Role, inserted: bool, tag: u16, kids: Tally) -> u32
    ensures { result ≡ capped (kids.blocks + one_if (takes_up tag kids.usings && is_block role tag)
        + one_if (gets_context role inserted kids.usings)) }
{
    let takes = takes_up(tag, kids.usings) && is_block(role, tag);
    let gets = gets_context(role, inserted, kids.usings);
    one_more_if(one_more_if(kids.blocks, takes), gets)
}

// The contexts of other records.
fn parts_of(role: Role, tag: u16, kids: Tally) -> u32
    ensures { result ≡ capped (kids.parts + one_if (takes_up tag kids.usings && not (is_block role tag))
        + one_if (takes_up_cases tag kids.case_usings)) }
{
    let takes = takes_up(tag, kids.usings) && !is_block(role, tag);
    let cases = takes_up_cases(tag, kids.case_usings);
    one_more_if(one_more_if(kids.parts, takes), cases)
}

// The wrapped initializers: those of the lists that get contexts, and one for a ForOf's body.
fn wrapped_of(role: Role, tag: u16, kids: Tally) -> u32
    ensures { result ≡ capped (kids.wrapped + (if takes_up tag kids.usings then kids.wraps else 0)
        + (if takes_up_cases tag kids.case_usings then kids.case_wraps else 0) + one_if (is_body role)) }
{
    let taken = if takes_up(tag, kids.usings) {
        kids.wraps
    } else {
        0
    };
    let from_cases = if takes_up_cases(tag, kids.case_usings) {
        kids.case_wraps
    } else {
        0
    };
    let wrapped = kids
        .wrapped
        .saturating_add(taken)
        .saturating_add(from_cases);
    one_more_if(wrapped, is_body(role))
}

// The initializers that the context around a record wraps, if there is one.
fn wraps_of(role: Role, x: Field, kids: Tally) -> u32
    ensures { result ≡ capped ((if eqb x.tag Tag.Declaration then kids.wraps else 0)
        + one_if (is_role role Role.Held && eqb x.tag Tag.Declarator && ltb (head_of x).b (children_of x))) }
{
    let kept = if x.tag == tag::DECLARATION {
        kids.wraps
    } else {
        0
    };
    one_more_if(kept, has_initializer(role, x))
}

// A record that may be charged for, with the tally of its children. What is known of a record (`role`, `inserted`, `x`, `kids`) is handed on in
// parts, since each function here looks at others of them.
#[tactic(auto, unfolding(crate::specs::Tally::own, crate::specs::Tally::role_index, meaning::specs::Grammar::head_of))]
fn charged_tally(role: Role, inserted: bool, x: Field, kids: Tally) -> Tally
    ensures { result ≡ cap (own role inserted (head_of x) (children_of x) kids) }
{
    let tag = x.tag;
    // Both sides of each `&` are at hand: with `&&` the proof has too many branches.
    let takes = takes_up(tag, kids.usings);
    let body = is_body(role);
    let is_class = (role == Role::Item) & (tag == tag::CLASS);
    let is_exported = (role == Role::Exported) & (tag == tag::DECLARATION);
    let is_name = (role == Role::ExportedName) & (tag == tag::NAME);
    Tally {
        records: kids.records.saturating_add(1),
        bytes: kids.bytes.saturating_add(fields::bytes_of(tag) as u32),
        blocks: blocks_of(role, inserted, tag, kids),
        parts: parts_of(role, tag, kids),
        wrapped: wrapped_of(role, tag, kids),
        for_ofs: one_more_if(kids.for_ofs, body & inserted),
        for_of_blocks: one_more_if(kids.for_of_blocks, body & !inserted),
        programs: one_more_if(kids.programs, takes & (tag == tag::PROGRAM)),
        classes: plus_item(tag, kids.usings, kids.classes, is_class),
        exports: plus_item(tag, kids.usings, kids.exports, is_export(role, x)),
        declarations: plus_item(tag, kids.usings, kids.declarations, is_exported),
        names: plus_item(tag, kids.usings, kids.names, is_name),
        usings: u32::from(is_using(x)),
        wraps: wraps_of(role, x, kids),
        case_usings: if tag == tag::CASE { kids.usings } else { 0 },
        case_wraps: if tag == tag::CASE { kids.wraps } else { 0 },
    }
}

// Whether a record of this role and tag adds only itself.
#[tactic(auto, unfolding(crate::specs::Tally::is_silent, crate::specs::Tally::role_index))]
fn is_silent(role: Role, tag: u16) -> bool
    ensures { result ≡ is_silent role tag }
{
    matches!(role, Role::Plain | Role::Part | Role::Item)
        && !matches!(
            tag,
            tag::PROGRAM
                | tag::BLOCK
                | tag::DECLARATION
                | tag::FOR
                | tag::SWITCH
                | tag::CASE
                | tag::BODY
                | tag::CLASS
                | tag::STATIC_BLOCK
        )
}

// A record that adds only itself, with the tally of its children.
fn silent_tally(size: u32, kids: Tally) -> Tally
    ensures { result ≡ cap (silent size kids) }
{
    let below = Tally {
        usings: 0,
        wraps: 0,
        case_usings: 0,
        case_wraps: 0,
        ..kids
    };
    add_leaf(below, size)
}

// A record with the tally of its children.
fn own_tally(role: Role, inserted: bool, x: Field, kids: Tally) -> Tally
    ensures { result ≡ cap (own role inserted (head_of x) (children_of x) kids) }
{
    if is_silent(role, x.tag) {
        silent_tally(fields::bytes_of(x.tag) as u32, kids)
    } else {
        charged_tally(role, inserted, x, kids)
    }
}

// Two tallies together; counters stop at the largest number of 32 bits.
impl Add for Tally {
    type Output = Tally;

    ghost add_gives = { λ s t r. r ≡ cap (s ⊞ t) };

    fn add(self, t: Tally) -> Tally {
        Tally {
            records: self.records.saturating_add(t.records),
            bytes: self.bytes.saturating_add(t.bytes),
            blocks: self.blocks.saturating_add(t.blocks),
            parts: self.parts.saturating_add(t.parts),
            wrapped: self.wrapped.saturating_add(t.wrapped),
            for_ofs: self.for_ofs.saturating_add(t.for_ofs),
            for_of_blocks: self.for_of_blocks.saturating_add(t.for_of_blocks),
            programs: self.programs.saturating_add(t.programs),
            classes: self.classes.saturating_add(t.classes),
            exports: self.exports.saturating_add(t.exports),
            declarations: self.declarations.saturating_add(t.declarations),
            names: self.names.saturating_add(t.names),
            usings: self.usings.saturating_add(t.usings),
            wraps: self.wraps.saturating_add(t.wraps),
            case_usings: self.case_usings.saturating_add(t.case_usings),
            case_wraps: self.case_wraps.saturating_add(t.case_wraps),
        }
    }
}

// The tally so far, with one record more.
pub fn add_record(before: Tally, role: Role, inserted: bool, x: Field, kids: Tally) -> Tally
    ensures { result ≡ cap (before ⊞ cap (own role inserted (head_of x) (children_of x) kids)) }
{
    before + own_tally(role, inserted, x, kids)
}

// The tally so far, with one record more that has so many bytes and no children, and counts nowhere else.
pub fn add_leaf(before: Tally, size: u32) -> Tally
    ensures { result ≡ cap (before ⊞ leaf_tally size) }
{
    before
        + Tally {
            records: 1,
            bytes: size,
            ..Tally::default()
        }
}

// Nothing counted yet: the derived default, under the clause that callers of other crates use.
pub fn no_tally() -> Tally
    ensures { result ≡ no_tally }
{
    Tally::default()
}
