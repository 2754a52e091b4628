// The file in the tables, written to the lent output.
//
// Bytes go to an offset; past the end of the output nothing is stored.
#![tactic(auto)]

ghost use Rattle.std.specs.Prelude.{if◌then◌else◌, ◌≡◌, [], ◌∷◌, ◌+◌, ◌*◌, ◌-◌, ◌≤◌, ltb, length, set};
ghost use Rattle.std.proofs.lemmas.List.Edits.{sets};
ghost use Rattle.meaning.specs.File.{head_bytes, settings_bytes, scope_bytes, two_bytes};
ghost use Rattle.meaning.specs.Renumbering.{scope_named};
ghost use Rattle.tables.specs.Table.{row_f, head_f};
ghost use Rattle.renumbering.specs.Numbers.{number_in, named_in, numbered_f, renumbered_row};
ghost use Rattle.writing.specs.Writing.{most_bytes, most_first, most_tree, most_offset, field_with, own_or, scope_field, symbol_field, record_field, rows_bytes, list_bytes, record_at, file_bytes, last_of, numbers_over};

use fields::{
    HEAD_BYTES, MOST_RECORD_BYTES, NUMBER_B, NUMBER_BYTES, NUMBER_C, NUMBER_E, SCOPE_BYTES,
    SETTINGS_BYTES, SYMBOL_BYTES, TAG_BYTES,
};
use meaning::{RecordId, ScopeId, tag};
use path::Walk;
use tables::{Row, scope, symbol};

// The columns as places in a row.
const SCOPE_FLAGS: usize = scope::FLAGS as usize;

const FLAGS: usize = symbol::FLAGS as usize;

const SCOPE: usize = symbol::SCOPE as usize;

const MADE: usize = symbol::MADE as usize;

// ---- fields

// An offset that is written to: sums with it fit.
#[derive(Clone, Copy)]
struct Offset {
    at: usize,
    ghost small: { at ≤ most_offset },
}

// Number i of the field at an offset, if it has as many.
fn put_number(out: &mut [u8], to: Offset, count: u8, i: u8, v: u16)
    ensures { out.new
        ≡ (if ltb i count then sets out.old (to.at + head_bytes + 2 * i) (two_bytes (v ∷ [])) else out.old) }
{
    if i < count {
        fields::put_two(out, to.at + HEAD_BYTES + NUMBER_BYTES * (i as usize), v);
    }
}

// A field with as many of these numbers as its tag has; the fifth of a symbol row goes behind them.
fn put_field(out: &mut [u8], to: Offset, tag: u16, a: u16, b: u16, c: u16, d: u16)
    requires { tag ≤ 255 }
    ensures { out.new ≡ sets out.old to.at (field_with tag a b c d) }
{
    let count = fields::numbers_of(tag);
    tables::put(out, to.at, tag as u8);
    fields::put_two(out, to.at + TAG_BYTES, fields::length_of(tag) as u16);
    put_number(out, to, count, 0, a);
    put_number(out, to, count, 1, b);
    put_number(out, to, count, 2, c);
    put_number(out, to, count, 3, d);
}

// ---- rows

// The tables that a file is written from: the records, the scope rows and the scopes' new numbers, and the symbol rows.
#[derive(Clone, Copy)]
struct Source<'a> {
    records: &'a [u16],
    scopes: &'a [u16],
    numbers: &'a [u16],
    symbols: &'a [u16],
}

impl<'a> Source<'a> {
    // Scope row s, counted from 1; 0 is taken for 1.
    fn put_scope(&self, out: &mut [u8], to: Offset, s: ScopeId)
        ensures { out.new ≡ sets out.old to.at (scope_field self.now.scopes.now (number_in self.now.numbers.now) s.0) }
    {
        let at = (s.0.saturating_sub(1) as usize) * scope::NUMBERS;
        let parent = ScopeId(tables::get(self.scopes, at));
        let flags = tables::get(self.scopes, at + SCOPE_FLAGS);
        let parent = renumbering::new_number(self.numbers, parent);
        put_field(out, to, tag::SCOPE, parent, flags, 0, 0);
    }

    // The row of the scope that a record names, if it names one; the offset behind it.
    fn put_named(&self, out: &mut [u8], to: Offset, r: Row) -> usize
        ensures bytes { out.new
            ≡ sets out.old to.at (list_bytes (scope_field self.now.scopes.now (number_in self.now.numbers.now)) (scope_named (head_f r))) }
        ensures next { result ≡ to.at + scope_bytes * length (scope_named (head_f r)) }
    {
        let s = path::scope_of(r);
        if s.0 == 0 {
            return to.at;
        }
        self.put_scope(out, to, s);
        to.at + SCOPE_BYTES
    }

    // The scope rows, behind the settings, in the order in which so many records name them; the offset behind them.
    fn put_scopes(&self, out: &mut [u8], count: u16) -> usize
        ensures bytes { out.new
            ≡ sets out.old settings_bytes (list_bytes (scope_field self.now.scopes.now (number_in self.now.numbers.now)) (named_in self.now.records.now 0 count)) }
        ensures next { result ≡ settings_bytes + scope_bytes * length (named_in self.now.records.now 0 count) }
        ensures most { result ≤ most_first }
    {
        let mut at = SETTINGS_BYTES;
        for k in 0..count {
            at = self.put_named(
                out,
                Offset { at },
                tables::row_after(self.records, RecordId(k)),
            );
        }
        at
    }

    // Symbol row k, counted from 0.
    fn put_symbol(&self, out: &mut [u8], to: Offset, k: u16)
        ensures { out.new ≡ sets out.old to.at (symbol_field self.now.symbols.now (number_in self.now.numbers.now) k) }
    {
        let symbols = self.symbols;
        let at = (k as usize) * symbol::NUMBERS;
        let name = tables::get(symbols, at);
        let flags = tables::get(symbols, at + FLAGS);
        let scope = ScopeId(tables::get(symbols, at + SCOPE));
        let made = tables::get(symbols, at + MADE);
        let count = tables::get(symbols, tables::counts_at(symbols) + (k as usize));
        let scope = renumbering::new_number(self.numbers, scope);
        put_field(out, to, tag::SYMBOL, name, flags, scope, made);
        fields::put_two(out, to.at + NUMBER_E, count);
    }

    // So many symbol rows, from an offset on.
    fn put_symbols(&self, out: &mut [u8], first: usize, count: u16)
        requires { first ≤ most_first }
        ensures { out.new
            ≡ sets out.old first (rows_bytes (symbol_field self.now.symbols.now (number_in self.now.numbers.now)) 0 count) }
    {
        for k in 0..count {
            let at = first + SYMBOL_BYTES * (k as usize);
            self.put_symbol(out, Offset { at }, k);
        }
    }

    // The record in the row after k others, as it is written.
    fn row(&self, k: u16) -> Row
        ensures { result ≡ renumbered_row (number_in self.now.numbers.now) (row_f self.now.records.now k) }
    {
        renumbering::renumbered_row(self.numbers, tables::row_after(self.records, RecordId(k)))
    }

    // The records from a row on, where they may not fit.
    fn put_rest(&self, out: &mut [u8], first: usize, from: u16, count: u16)
        requires { first ≤ most_tree + most_bytes * from }
        ensures { out.new
            ≡ sets out.old first (rows_bytes (record_at self.now.records.now (number_in self.now.numbers.now)) from (count - from)) }
    {
        let mut at = first;
        for k in from..count {
            at = put_record(out, Offset { at }, self.row(k));
        }
    }

    // So many records, the last of them where they may not fit.
    fn put_records(&self, out: &mut [u8], tree: usize, count: u16)
        requires { tree ≤ most_tree }
        ensures { out.new
            ≡ sets out.old tree (rows_bytes (record_at self.now.records.now (number_in self.now.numbers.now)) 0 count) }
    {
        let mut at = tree;
        for k in 0..count {
            if out.len() < at + MOST_RECORD_BYTES {
                return self.put_rest(out, at, k, count);
            }
            at = put_whole(out, Offset { at }, self.row(k));
        }
    }
}

// ---- records

// Number i of a record's own, or n behind them; `start::own_number` is the case of 0, in a crate that writes nothing.
#[tactic(auto, unfolding(crate::specs::Writing::own_or))]
fn own_or(own: u8, i: u8, v: u16, n: u16) -> u16
    ensures { result ≡ own_or own i v n }
{
    if i < own { v } else { n }
}

// The tags of records are below this; others are cut to it.
const TAGS: u16 = 32;

// A record at an offset where it may not fit; the offset behind it.
fn put_record(out: &mut [u8], to: Offset, r: Row) -> usize
    ensures bytes { out.new ≡ sets out.old to.at (record_field r) }
    ensures next { result ≡ to.at + length (record_field r) }
{
    let tag = r.tag % TAGS;
    let own = rules::own_numbers(tag);
    let n = r.n;
    put_field(
        out,
        to,
        tag,
        own_or(own, 0, r.a, n),
        own_or(own, 1, r.b, n),
        own_or(own, 2, r.c, n),
        n,
    );
    to.at + (fields::bytes_of(tag) as usize)
}

// ---- records that fit
//
// Most records are written here, so there is no test of a record's own: a branch that the processor guesses wrong costs more than the
// whole record.

// A number, high byte first.
#[tactic(auto, unfolding(meaning::specs::File::two_bytes))]
fn put_two_at(out: &mut [u8], at: usize, v: u16)
    requires { at + 2 ≤ length out.old }
    ensures { out.new ≡ sets out.old at (two_bytes (v ∷ [])) }
{
    let [high, low] = v.to_be_bytes();
    out[at] = high;
    out[at + 1] = low;
}

// A tag, and the length of its numbers.
fn put_head(out: &mut [u8], at: usize, tag: u16, bytes: u8)
    requires { (tag ≤ 255) × (at + head_bytes ≤ length out.old) }
    ensures { out.new ≡ sets (set out.old at tag) (at + 1) (two_bytes (bytes ∷ [])) }
{
    out[at] = tag as u8;
    out[at + 1] = 0;
    out[at + 2] = bytes;
}

// The last number of a record, which goes to the offset `last`.
#[tactic(auto, unfolding(crate::specs::Writing::last_of))]
fn last_number(to: Offset, last: usize, children: bool, r: Row) -> u16
    ensures { result ≡ last_of children to.at last r }
{
    let n = r.n;
    let third = if to.at + NUMBER_C < last { n } else { r.c };
    let second = if to.at + NUMBER_B < last { third } else { r.b };
    if children {
        n
    } else if to.at + HEAD_BYTES < last {
        second
    } else {
        r.a
    }
}

// The numbers of a record, of which the last goes to the offset `last`. A number behind it is stored there too, and the last one over it.
fn put_numbers(out: &mut [u8], to: Offset, last: usize, children: bool, r: Row)
    requires { (to.at + head_bytes ≤ last) × (last + 2 ≤ length out.old) }
    ensures { out.new ≡ numbers_over children to.at last r out.old }
{
    put_two_at(out, to.at + HEAD_BYTES, r.a);
    put_two_at(out, (to.at + NUMBER_B).min(last), r.b);
    put_two_at(out, (to.at + NUMBER_C).min(last), r.c);
    put_two_at(out, last, last_number(to, last, children, r));
}

// A record at an offset; the offset behind it.
fn put_whole(out: &mut [u8], to: Offset, r: Row) -> usize
    requires { to.at + most_bytes ≤ length out.old }
    ensures bytes { out.new ≡ sets out.old to.at (record_field r) }
    ensures next { result ≡ to.at + length (record_field r) }
{
    let tag = r.tag % TAGS;
    let length = fields::length_of(tag);
    let last = to.at + TAG_BYTES + (length as usize);
    put_head(out, to.at, tag, length);
    if length == 0 {
        return last + NUMBER_BYTES;
    }
    put_numbers(out, to, last, rules::has_children(tag), r);
    last + NUMBER_BYTES
}

// ---- the file

// Writes the settings, the scope and symbol rows and the records visited, with the new numbers of scopes.
fn put_file(walk: Walk, records: &[u16], scopes: &[u16], symbols: &[u16], out: &mut [u8])
    ensures { out.new
        ≡ sets out.old 0 (file_bytes records.now scopes.now symbols.now walk) }
{
    let ctx = walk.ctx;
    let rows = walk.visited.0;
    let source = Source {
        records,
        scopes,
        numbers: &scopes[tables::new_numbers_at(scopes)..],
        symbols,
    };
    put_field(
        out,
        Offset { at: 0 },
        tag::SETTINGS,
        ctx.mode,
        ctx.esm,
        0,
        0,
    );
    let first = source.put_scopes(out, rows);
    source.put_symbols(out, first, ctx.symbols);
    source.put_records(out, first + SYMBOL_BYTES * (ctx.symbols as usize), rows);
}

// Numbers the scopes anew, in the column behind their rows, and writes the file.
pub fn write(walk: Walk, records: &[u16], scopes: &mut [u16], symbols: &[u16], out: &mut [u8])
    ensures numbers { scopes.new ≡ numbered_f records.now walk.visited.0 scopes.old }
    ensures bytes { out.new
        ≡ sets out.old 0 (file_bytes records.now (numbered_f records.now walk.visited.0 scopes.old) symbols.now walk) }
{
    renumbering::number_scopes(scopes, records, walk.visited.0);
    put_file(walk, records, scopes, symbols, out);
}
