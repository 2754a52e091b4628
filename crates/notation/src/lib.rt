// The notation of 01 for files, read and printed: `5:3,1` is tag 5 with the numbers 3 and 1, a tag without numbers stands alone, and fields
// are parted by spaces or line ends. So that every file can be shown, and read back as it was, a byte that belongs to no whole field is
// written with a dot: `24.0.4.` are the bytes 24, 0 and 4. A text is thus never longer than 4 characters for each byte.
#![tactic(auto)]

ghost use Rattle.std.specs.Prelude.{◌≡◌, List, ◌++◌, ℕ, ◌+◌, ◌*◌, ◌-◌, ◌≤◌, length, unwrap_or, MatchOption};
ghost use Rattle.std.proofs.lemmas.List.Edits.{sets};
ghost use Rattle.meaning.specs.File.{head_bytes};
ghost use Rattle.notation.specs.Notation.{Part, digit0, is_space, with_digit, numbered, fielded, dotted, after, colon, limit, may_part, may_stand, encoded, spelled};
ghost use Rattle.notation.specs.Spots.{spot_at, Reads};
ghost use Rattle.notation.specs.Stored.{file_of};
ghost use Rattle.notation.specs.Shown.{decimal, shown_byte, shown_bytes, numbers_in, shown_numbers, shown_field, whole_field, gap, shown};
ghost use Rattle.notation.specs.Puts.{Put};

use fields::{HEAD_BYTES, NUMBER_BYTES, TAG_BYTES};
use std::error::Error;
use std::fmt;

// So many characters are read.
const MOST: usize = 1000000000;

// So many numbers may stand before a comma, so that a field's length fits two bytes.
const MOST_BEFORE: usize = 32766;

// A tag is one byte, and a number two.
const MOST_TAG: u32 = 255;

const MOST_NUMBER: u32 = 65535;

// So many bytes are shown.
const MOST_SHOWN: usize = 250000000;

// The digits of a tag or a single byte, and of a number.
const TAG_DIGITS: usize = 3;

const NUMBER_DIGITS: usize = 5;

// The place of the first character that may not stand where it does, counted from 0.
#[derive(Clone, Copy, Debug, PartialEq, Eq)]
pub struct Misspelling {
    pub place: usize,
}

impl fmt::Display for Misspelling {
    fn fmt<W: fmt::Write>(&self, f: &mut fmt::Formatter<W>) -> fmt::Result {
        write!(f, "no notation at character {}, counted from 0", self.place)
    }
}

impl Error for Misspelling {}

// ---- where reading stands

// Where the field that is being read begins in the file, how many of its numbers are read, and the value of the digits behind these, if
// there are any.
// `at + 2 * count` grows with each character, so its bound is asked where it is needed, and is no ghost field here.
#[derive(Clone, Copy)]
struct Spot {
    at: usize,
    count: usize,
    value: Option<u16>,
}

// No digits are read yet. One literal, under the clause that the readers below use.
fn fresh(at: usize, count: usize) -> Spot
    ensures { result ≡ spot_at at count }
{
    Spot {
        at,
        count,
        value: None,
    }
}

// A space or a line end: fewer characters than the library's `is_ascii_whitespace` takes.
#[tactic(auto, unfolding(crate::specs::Notation::is_space))]
fn is_space(c: u8) -> bool
    ensures { result ≡ is_space c }
{
    matches!(c, b' ' | b'\n')
}

// The value with one digit more.
fn value_with(s: Spot, c: u8) -> u32
    requires { digit0 ≤ c }
    ensures { result ≡ unwrap_or s.value 0 * 10 + (c - digit0) }
{
    u32::from(s.value.unwrap_or(0)) * 10 + u32::from(c - b'0')
}

// Behind a digit.
fn with_digit(s: Spot, c: u8) -> Spot
    requires { digit0 ≤ c }
    ensures reads { (p : Part) → Reads p s → Reads (with_digit c p) result }
    ensures count_value { result.at + 2 * result.count ≡ s.at + 2 * s.count }
{
    Spot {
        value: Some((value_with(s, c) % 65536) as u16),
        ..s
    }
}

// The digits, if there are any, are a number of the field.
fn end_number(s: Spot) -> Spot
    requires { s.at + 2 * s.count ≤ 3000000000 }
    ensures reads { (p : Part) → Reads p s → Reads (numbered p) result }
    ensures count_bound { result.at + 2 * result.count ≤ s.at + 2 * s.count + 2 }
{
    match s.value {
        Some(_) => fresh(s.at, s.count + 1),
        None => s,
    }
}

// The field is whole.
fn end_field(s: Spot) -> Spot
    requires { s.at + 2 * s.count ≤ 3000000002 }
    ensures reads { (p : Part) → Reads p s → Reads (fielded p) result }
    ensures count_bound { result.at + 2 * result.count ≤ s.at + 2 * s.count + 1 }
{
    if s.count == 0 {
        fresh(s.at, 0)
    } else {
        fresh(s.at + TAG_BYTES + NUMBER_BYTES * s.count, 0)
    }
}

// A dot behind the first number: a byte on its own, no field.
fn end_byte(s: Spot) -> Spot
    requires { s.at + 2 * s.count ≤ 3000000002 }
    ensures reads { (p : Part) → Reads p s → Reads (dotted p) result }
    ensures count_bound { result.at + 2 * result.count ≤ s.at + 2 * s.count + 1 }
{
    if s.count == 1 { fresh(s.at + 1, 0) } else { s }
}

// Behind one character more.
fn next(s: Spot, c: u8) -> Spot
    requires { s.at + 2 * s.count ≤ 3000000000 }
    ensures reads { (p : Part) → Reads p s → Reads (after c p) result }
    ensures count_bound { result.at + 2 * result.count ≤ s.at + 2 * s.count + 3 }
{
    if c.is_ascii_digit() {
        with_digit(s, c)
    } else if is_space(c) {
        end_field(end_number(s))
    } else if c == b'.' {
        end_byte(end_number(s))
    } else {
        end_number(s)
    }
}

// ---- which texts are spelled right

// The largest value of the number that is being read: a tag and a single byte have one byte.
fn largest(s: Spot) -> u32
    ensures { (p : Part) → Reads p s → result ≡ limit p }
{
    if s.count == 0 { MOST_TAG } else { MOST_NUMBER }
}

// Behind a number, with so many before it in its field: a colon or a dot behind the first, a comma behind another.
#[tactic(auto, unfolding(crate::specs::Notation::may_part))]
fn may_part(c: u8, count: usize) -> bool
    ensures { result ≡ may_part c count }
{
    if count == 0 {
        matches!(c, b':' | b'.')
    } else {
        c == b',' && count <= MOST_BEFORE
    }
}

// Whether a character may stand next.
fn may_stand(s: Spot, c: u8) -> bool
    ensures { (p : Part) → Reads p s → result ≡ may_stand c p }
{
    if c.is_ascii_digit() {
        value_with(s, c) <= largest(s)
    } else if s.value.is_some() {
        is_space(c) || may_part(c, s.count)
    } else {
        is_space(c) && s.count == 0
    }
}

// Whether a text is spelled right.
pub fn check(text: &[u8]) -> Result<(), Misspelling>
    ensures { result ≡ spelled text.now }
{
    if MOST < text.len() {
        return Err(Misspelling { place: MOST });
    }
    let mut s = fresh(0, 0);
    for (place, &c) in text.iter().enumerate() {
        if !may_stand(s, c) {
            return Err(Misspelling { place });
        }
        s = next(s, c);
    }
    if may_stand(s, b' ') {
        Ok(())
    } else {
        Err(Misspelling { place: text.len() })
    }
}

// ---- from the notation to bytes

// The number that ends: a tag in one byte, another in two.
fn put_number(file: &mut [u8], s: Spot)
    requires { s.at + 2 * s.count ≤ 3000000000 }
    ensures { (out : List ℕ) (p : Part) → Reads p s → file.old ≡ file_of out p → file.new ≡ file_of out (numbered p) }
{
    match s.value {
        None => {}
        Some(tag) if s.count == 0 => tables::put(file, s.at, (tag % 256) as u8),
        Some(number) => {
            fields::put_two(file, s.at + TAG_BYTES + NUMBER_BYTES * s.count, number);
        }
    }
}

// The length of the field that ends.
fn put_length(file: &mut [u8], s: Spot)
    requires { s.at + 2 * s.count ≤ 3000000002 }
    ensures { (out : List ℕ) (p : Part) → Reads p s → file.old ≡ file_of out p → file.new ≡ file_of out (fielded p) }
{
    if s.count != 0 {
        fields::put_two(
            file,
            s.at + TAG_BYTES,
            (NUMBER_BYTES * (s.count - 1) % 65536) as u16,
        );
    }
}

// What a character ends.
fn put_character(file: &mut [u8], s: Spot, c: u8)
    requires { s.at + 2 * s.count ≤ 3000000000 }
    ensures { (out : List ℕ) (p : Part) → Reads p s → file.old ≡ file_of out p → file.new ≡ file_of out (after c p) }
{
    if c.is_ascii_digit() {
        return;
    }
    put_number(file, s);
    if is_space(c) {
        put_length(file, end_number(s));
    }
}

// Puts the bytes of a text at the start of the file, as many as it has room for, and answers how many there are. Where a text is not
// spelled right, a number that does not fit is cut to its low bytes, and a stray character parts two numbers.
pub fn encode(text: &[u8], file: &mut [u8]) -> usize
    ensures value { result ≡ length (encoded text.now) }
    ensures file_after { file.new ≡ sets file.old 0 (encoded text.now) }
{
    if MOST < text.len() {
        return 0;
    }
    let mut s = fresh(0, 0);
    for &c in text {
        put_character(file, s, c);
        s = next(s, c);
    }
    put_character(file, s, b' ');
    next(s, b' ').at
}

// ---- from bytes to the notation
//
// The bound on `at` shrinks by what a function puts, so each asks its own, and no type states one for all.

// Puts a number at a place of a text, in decimal with at most so many digits; the place behind it. By hand, since the text is lent and the
// library prints to a writer.
fn put_decimal(text: &mut [u8], at: usize, most: usize, n: u16) -> usize
    requires { at + most ≤ 3000000000 }
    ensures put { Put text.old at (decimal most n) text.new result }
    ensures upper_bound { result ≤ at + most }
{
    if most == 0 {
        return at;
    }
    if n < 10 {
        tables::put(text, at, b'0' + (n as u8));
        return at + 1;
    }
    let end = put_decimal(text, at, most - 1, n / 10);
    tables::put(text, end, b'0' + ((n % 10) as u8));
    end + 1
}

// A byte on its own, with a dot.
fn put_byte(text: &mut [u8], at: usize, b: u8) -> usize
    requires { at ≤ 2000000000 }
    ensures put { Put text.old at (shown_byte b) text.new result }
    ensures upper_bound { result ≤ at + 4 }
{
    let end = put_decimal(text, at, TAG_DIGITS, u16::from(b));
    tables::put(text, end, b'.');
    end + 1
}

// Bytes on their own.
fn put_bytes(bytes: &[u8], text: &mut [u8], at: usize) -> usize
    requires { at + 4 * length bytes.now ≤ 2000000000 }
    ensures { Put text.old at (shown_bytes bytes.now) text.new result }
{
    let mut end = at;
    for &b in bytes {
        end = put_byte(text, end, b);
    }
    end
}

// The numbers of a field.
fn put_numbers(bytes: &[u8], text: &mut [u8], at: usize) -> usize
    requires { at + 4 * length bytes.now ≤ 2000000000 }
    ensures put { Put text.old at (shown_numbers colon (numbers_in bytes.now)) text.new result }
    ensures upper_bound { result ≤ at + 3 * length bytes.now }
{
    let mut end = at;
    let mut before = b':';
    for i in 0..bytes.len() / NUMBER_BYTES {
        tables::put(text, end, before);
        let number = fields::read_two(bytes, NUMBER_BYTES * i);
        end = put_decimal(text, end + 1, NUMBER_DIGITS, number);
        before = b',';
    }
    end
}

// A whole field.
fn put_field(field: &[u8], text: &mut [u8], at: usize) -> usize
    requires { (head_bytes ≤ length field.now) × (at + 4 * length field.now ≤ 2000000000) }
    ensures put { Put text.old at (shown_field field.now) text.new result }
    ensures result_bound { result + 1 ≤ at + 4 * length field.now }
{
    let end = put_decimal(text, at, TAG_DIGITS, fields::tag_at(field, 0));
    put_numbers(&field[HEAD_BYTES..], text, end)
}

// A space, if something follows.
fn put_gap(rest: &[u8], text: &mut [u8], at: usize) -> usize
    requires { at ≤ 2000000000 }
    ensures put { Put text.old at (gap rest.now) text.new result }
    ensures upper_bound { result ≤ at + 1 }
{
    if rest.is_empty() {
        at
    } else {
        tables::put(text, at, b' ');
        at + 1
    }
}

// The bytes of the field that bytes begin with; none if it is cut, or its length is odd.
fn whole_field(bytes: &[u8]) -> Option<usize>
    ensures { MatchOption result (whole_field bytes.now ≡ 0) (λ n. (n ≡ whole_field bytes.now) × (head_bytes ≤ n) × (n ≤ length bytes.now)) }
{
    if bytes.len() < HEAD_BYTES {
        return None;
    }
    let len = usize::from(fields::read_two(bytes, TAG_BYTES));
    if len % NUMBER_BYTES == 0 && len <= bytes.len() - HEAD_BYTES {
        Some(HEAD_BYTES + len)
    } else {
        None
    }
}

// A whole field, and a space if something follows it.
fn put_part(field: &[u8], rest: &[u8], text: &mut [u8], at: usize) -> usize
    requires { (head_bytes ≤ length field.now) × (at + 4 * length field.now ≤ 2000000000) }
    ensures put { Put text.old at (shown_field field.now ++ gap rest.now) text.new result }
    ensures upper_bound { result ≤ at + 4 * length field.now }
{
    let end = put_field(field, text, at);
    put_gap(rest, text, end)
}

// Puts the text of a file at the start of the text, as much as it has room for, and answers how many characters there are: its fields, and,
// from the first place on where no whole field stands, its bytes. A file of more than 250,000,000 bytes has no text.
pub fn show(file: &[u8], text: &mut [u8]) -> usize
    ensures value { result ≡ length (shown file.now) }
    ensures text_after { text.new ≡ sets text.old 0 (shown file.now) }
{
    if MOST_SHOWN < file.len() {
        return 0;
    }
    let mut rest = file;
    let mut end = 0;
    while let Some(n) = whole_field(rest) {
        let (field, behind) = rest.split_at(n);
        end = put_part(field, behind, text, end);
        rest = behind;
    }
    put_bytes(rest, text, end)
}
