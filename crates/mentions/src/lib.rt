// How often symbols are named: a counter for each, and records added to them or taken off (02, request 7).
#![tactic(auto)]

ghost use Rattle.std.specs.Prelude.{◌≡◌, ℕ, ◌-◌};
ghost use Rattle.meaning.specs.Mentions.{first_named, second_named};
ghost use Rattle.tables.specs.Table.{capped, head_f};
ghost use Rattle.mentions.specs.Counters.{change_f, record_f, rows_f, add_record_f, add_rows_f, take_rows_f, on_counts};

use meaning::{RecordId, SymbolId, tag};
use tables::Row;

// ---- one symbol

// What a mention does to the counter of its symbol.
trait Effect {
    ghost changed: { ℕ → ℕ };

    fn change(n: u16) -> u16
        ensures { result ≡ changed n };
}

// It is added.
struct Added;

impl Effect for Added {
    ghost changed = { λ n. capped n 1 };

    fn change(n: u16) -> u16 {
        n.saturating_add(1)
    }
}

// It is taken off.
struct TakenOff;

impl Effect for TakenOff {
    ghost changed = { λ n. n - 1 };

    fn change(n: u16) -> u16 {
        n.saturating_sub(1)
    }
}

// One mention; 0 is no symbol, and one without a counter is not counted.
fn change<E: Effect>(counts: &mut [u16], y: SymbolId)
    ensures { counts.new ≡ change_f E.changed counts.old y.0 }
{
    if y.0 != 0 {
        let at = (y.0 - 1) as usize;
        tables::put(counts, at, E::change(tables::get(counts, at)));
    }
}

// ---- one record

// The symbol that a record names, or 0: the tables too have 0 for none, so that an `Option` would only add a second one.
#[tactic(auto, unfolding(meaning::specs::Mentions::first_named))]
fn first_named(r: Row) -> SymbolId
    ensures { result.0 ≡ first_named (head_f r) }
{
    SymbolId(match r.tag {
        tag::FUNCTION | tag::CLASS => r.c,
        tag::SPECIFIER | tag::READ | tag::NAME => r.a,
        tag::CALL | tag::LOAD | tag::STEP => r.b,
        _ => 0,
    })
}

// The second one of a Step, or 0, as above.
#[tactic(auto, unfolding(meaning::specs::Mentions::second_named))]
fn second_named(r: Row) -> SymbolId
    ensures { result.0 ≡ second_named (head_f r) }
{
    SymbolId(if r.tag == tag::STEP { r.c } else { 0 })
}

// The mentions of a record.
fn change_record<E: Effect>(counts: &mut [u16], r: Row)
    ensures { counts.new ≡ record_f (change_f E.changed) counts.old (head_f r) }
{
    change::<E>(counts, first_named(r));
    change::<E>(counts, second_named(r));
}

// The mentions of a record are added.
#[tactic(auto, unfolding(crate::specs::Counters::add_record_f, crate::specs::Counters::add_f))]
pub fn add_record(counts: &mut [u16], r: Row)
    ensures { counts.new ≡ add_record_f counts.old (head_f r) }
{
    change_record::<Added>(counts, r);
}

// ---- rows of the record table

// The mentions of the rows behind one up to another.
fn change_rows<E: Effect>(counts: &mut [u16], records: &[u16], from: RecordId, to: RecordId)
    ensures { counts.new ≡ rows_f (record_f (change_f E.changed)) records.now from.0 to.0 counts.old }
{
    for k in from.0..to.0 {
        change_record::<E>(counts, tables::row_after(records, RecordId(k)));
    }
}

// ---- the counts in a symbol table

// The mentions of the rows behind one up to another change the counts.
fn change_counts<E: Effect>(symbols: &mut [u16], records: &[u16], from: RecordId, to: RecordId)
    ensures { symbols.new ≡ on_counts (rows_f (record_f (change_f E.changed)) records.now from.0 to.0) symbols.old }
{
    let at = tables::counts_at(symbols);
    change_rows::<E>(&mut symbols[at..], records, from, to);
}

// The mentions of the rows behind one up to another are added to the counts.
#[tactic(auto, unfolding(crate::specs::Counters::add_rows_f, crate::specs::Counters::add_record_f, crate::specs::Counters::add_f))]
pub fn count_rows(symbols: &mut [u16], records: &[u16], from: RecordId, to: RecordId)
    ensures { symbols.new ≡ on_counts (add_rows_f records.now from.0 to.0) symbols.old }
{
    change_counts::<Added>(symbols, records, from, to);
}

// The mentions of the rows behind one up to another are taken off the counts. Both names stay for the one function above: they are public,
// each with its clause.
#[tactic(auto, unfolding(crate::specs::Counters::take_rows_f, crate::specs::Counters::take_record_f, crate::specs::Counters::take_f))]
pub fn discount_rows(symbols: &mut [u16], records: &[u16], from: RecordId, to: RecordId)
    ensures { symbols.new ≡ on_counts (take_rows_f records.now from.0 to.0) symbols.old }
{
    change_counts::<TakenOff>(symbols, records, from, to);
}
