// The types that the definitions and the code share, and the numbers that 01 gives a meaning, by name.
#![tactic(auto)]

ghost use Rattle.std.specs.Prelude.{◌≡◌};
ghost use Rattle.meaning.specs.Tree.{hd};
ghost use Rattle.meaning.specs.Grammar.{scope_of};
ghost use Rattle.meaning.specs.Refusals.{number_of};

use std::error::Error;
use std::fmt;

pub mod form;
pub mod kind;
pub mod known_name;
pub mod letter;
pub mod line_form;
pub mod mode;
pub mod parts;
pub mod scope_flag;
pub mod step_form;
pub mod symbol_flag;
pub mod tag;

// Numbers of scope, symbol and record rows, from 1 on; 0 is none, as in the format and the tables, so that no `Option` says it a second time.
// Three types, so that none is taken for another.
#[derive(Clone, Copy, Debug, PartialEq, Eq)]
pub struct ScopeId(pub u16);

#[derive(Clone, Copy, Debug, PartialEq, Eq)]
pub struct SymbolId(pub u16);

#[derive(Clone, Copy, Debug, PartialEq, Eq)]
pub struct RecordId(pub u16);

// A place where a field may stand.
#[derive(Clone, Copy, Debug, PartialEq, Eq)]
pub enum Place {
    Settings,
    ScopeRow,
    SymbolRow,
    Program,
    ProgramItem,
    ListItem,
    Statement,
    PlainItem,
    Declarator,
    ForOfDeclarator,
    Name,
    ForLeft,
    ForOfLeft,
    Expression,
    SwitchExpression,
    Case,
    TryPart,
    Catch,
    Body,
    ClassItem,
    DefaultExport,
    ExportedDeclaration,
    Specifier,
}

// A field: its tag, its numbers filled up with 0, and the offset behind it.
#[derive(Clone, Copy, Debug, PartialEq, Eq)]
pub struct Field {
    pub tag: u16,
    pub a: u16,
    pub b: u16,
    pub c: u16,
    pub d: u16,
    pub next: usize,
}

// The scope row that a record with this tag names, by its first two numbers, or 0: `scope_of` of the clause is 0 then, and so is the file's
// number, so no `Option`.
#[tactic(auto, unfolding(crate::specs::Grammar::scope_of))]
pub fn scope_named(tag: u16, a: u16, b: u16) -> ScopeId
    ensures { result.0 ≡ scope_of (hd tag a b 0) }
{
    ScopeId(match tag {
        tag::PROGRAM
        | tag::BLOCK
        | tag::PLAIN
        | tag::FOR
        | tag::FOR_OF
        | tag::SWITCH
        | tag::CATCH
        | tag::STATIC_BLOCK => a,
        tag::FUNCTION | tag::CLASS => b,
        _ => 0,
    })
}

// Why a file is refused. Each reason has a number, which C and the programs tell.
#[derive(Clone, Copy, Debug, PartialEq, Eq)]
pub enum Reason {
    TooLong = 1,
    Cut = 2,
    WrongTag = 3,
    WrongLength = 4,
    WrongNumber = 5,
    TooDeep = 6,
    BytesBehind = 7,
    InlineContext = 8,
    FewRows = 9,
    ShortOutput = 10,
}

impl From<Reason> for u8 {
    ghost from_gives = { λ r n. n ≡ number_of r };

    fn from(reason: Reason) -> u8 {
        reason as u8
    }
}

// A refusal: why, and at which place: an offset in the file, a table's number or the output's length.
#[derive(Clone, Copy, Debug, PartialEq, Eq)]
pub struct Refusal {
    pub reason: Reason,
    pub place: usize,
}

impl fmt::Display for Refusal {
    fn fmt<W: fmt::Write>(&self, f: &mut fmt::Formatter<W>) -> fmt::Result {
        write!(f, "refused {} at {}", u8::from(self.reason), self.place)
    }
}

impl Error for Refusal {}

// So many rows of a kind, and the offset behind them.
#[derive(Clone, Copy, Debug, PartialEq, Eq)]
pub struct Rows {
    pub count: usize,
    pub next: usize,
}
