// The numbers that scopes get in the written file: in the order in which the records name them (02, request 9).
//
// They stand in a column behind the rows of the scope table (`tables::new_numbers_at`), which is 0 before; the number of the scope in row s
// is behind s - 1 others.
#![tactic(auto)]

ghost use Rattle.std.specs.Prelude.{◌≡◌};
ghost use Rattle.renumbering.specs.Numbers.{number_in, number_f, named_in, numbers_f, numbered_f, with_scope_f, renumbered_row};

use meaning::{RecordId, ScopeId, tag};
use tables::Row;

// ---- one scope

// The new number of a scope, or 0 if it has none: the parent of the root scope is written so, and no `Option` is.
#[tactic(auto, unfolding(crate::specs::Numbers::number_in))]
pub fn new_number(numbers: &[u16], s: ScopeId) -> u16
    ensures { result ≡ number_in numbers.now s.0 }
{
    if s.0 == 0 {
        return 0;
    }
    tables::get(numbers, (s.0 - 1) as usize)
}

// Gives a scope a number, unless it has one.
#[tactic(auto, unfolding(crate::specs::Numbers::number_f))]
fn number_scope(numbers: &mut [u16], s: ScopeId, v: u16)
    ensures { numbers.new ≡ number_f numbers.old s.0 v }
{
    if s.0 != 0 {
        let at = (s.0 - 1) as usize;
        if tables::get(numbers, at) == 0 {
            tables::put(numbers, at, v);
        }
    }
}

// ---- all scopes

// Numbers the scopes that the first rows of the record table name, from 1 on.
fn number_named(numbers: &mut [u16], records: &[u16], count: u16)
    ensures { numbers.new ≡ numbers_f 1 (named_in records.now 0 count) numbers.old }
{
    let mut named: u16 = 0;
    for k in 0..count {
        let s = path::scope_of(tables::row_after(records, RecordId(k)));
        if s.0 != 0 {
            named += 1;
            number_scope(numbers, s, named);
        }
    }
}

// The same, in the column of a scope table.
pub fn number_scopes(scopes: &mut [u16], records: &[u16], count: u16)
    ensures { scopes.new ≡ numbered_f records.now count scopes.old }
{
    let at = tables::new_numbers_at(scopes);
    number_named(&mut scopes[at..], records, count);
}

// ---- one record

// The row with another number for its scope, if its tag has one. The tags stand in `meaning::scope_named` too: that one reads the number and
// this one stores it.
#[tactic(auto, unfolding(crate::specs::Numbers::with_scope_f, meaning::specs::Renumbering::with_scope))]
fn with_scope(r: Row, v: u16) -> Row
    ensures { result ≡ with_scope_f r v }
{
    match r.tag {
        tag::PROGRAM
        | tag::BLOCK
        | tag::PLAIN
        | tag::FOR
        | tag::FOR_OF
        | tag::SWITCH
        | tag::CATCH
        | tag::STATIC_BLOCK => Row { a: v, ..r },
        tag::FUNCTION | tag::CLASS => Row { b: v, ..r },
        _ => r,
    }
}

// The row with the new number of its scope.
#[tactic(auto, unfolding(crate::specs::Numbers::renumbered_row))]
pub fn renumbered_row(numbers: &[u16], r: Row) -> Row
    ensures { result ≡ renumbered_row (number_in numbers.now) r }
{
    with_scope(r, new_number(numbers, path::scope_of(r)))
}
