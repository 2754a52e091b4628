// What the forms share: places in a text, decimal numbers, bytes in hexadecimal, answers, and the count of what agreed.
//
// Lines are read by places in lent memory, and leniently: a number ends at the first character that is no digit, and what follows is passed
// over. So every text has an answer, whatever stands in it and however long its lines are, and a file takes no more memory than one piece of it.
// The calls on a `str`, at the end, are exact: what is not in their form has no answer. The test program does not make them.
ghost use Rattle.std.specs.Prelude.{if◌then◌else◌, ◌≡◌, ◌↔◌, ◌≤◌, ◌<◌, ◌∷◌, ◌++◌, [], List, ℕ, ◌+◌, ◌-◌, ◌^◌, min, take, length, option_map, IfOk, IfSome, IsOk, IsSome, IsTrue};
ghost use Rattle.std.specs.Result.{result_ok};
ghost use Rattle.std.specs.String.{string_bytes};
ghost use Rattle.std.specs.Str.Lossy.{utf8_lossy};
ghost use Rattle.hex.specs.Hex.{decode_of};
ghost use Rattle.meaning.specs.Refusals.{number_of};
ghost use Rattle.test_lines.specs.Told.{space, bar, fine_prefix, large, HasByte, before, behind, Tells, TellsRefusal};
ghost use Rattle.notation.specs.Notation as notation;
ghost use Rattle.notation.specs.Shown as shown;

pub use crate::memory::LARGE;
use figures::FinalFigures;
use hex::FromHexError;
use meaning::Refusal;
use std::alloc::{AllocError, Global};
use std::io::Read;
use std::{fmt, io};

// No place is larger.
const LAST: usize = 100000000;

// No count is larger, and no number goes on behind so many.
const MOST: usize = 1000000;

// ---- printing

pub fn put(rt: &impl Print, text: &[u8]) -> io::Result<()> {
    rt.write_all(text)
}

pub fn put_number(rt: &impl Print, text: &[u8], n: u64) -> io::Result<()> {
    put(rt, text)?;
    rt.print(n)
}

// ---- how many agreed

#[derive(Clone, Copy, Default)]
pub struct Seen {
    pub all: u64,
    pub right: u64,
}

impl Seen {
    // As `add` below, in place and with no largest count but the type's. The case is counted where printing fails, too.
    pub fn add(&mut self, rt: &impl Print, agrees: bool) -> io::Result<()>
        ensures all { self.new.all ≡ min (self.old.all + 1) (2 ^ 64 - 1) }
        ensures right { self.new.right ≡ (if agrees then min (self.old.right + 1) (2 ^ 64 - 1) else self.old.right) }
        ensures silent { IsTrue agrees → IsOk result }
    {
        self.all = self.all.saturating_add(1);
        self.right = self.right.saturating_add(u64::from(agrees));
        if !agrees {
            println!(rt; "differs: {}", self.all)?;
        }
        Ok(())
    }
}

impl fmt::Display for Seen {
    fn fmt<W: fmt::Write>(&self, f: &mut fmt::Formatter<W>) -> fmt::Result {
        write!(f, "{}, agreed {}", self.all, self.right)
    }
}

pub fn none_seen() -> Seen {
    Seen::default()
}

fn one_more(n: u64) -> u64 {
    if n < MOST as u64 { n + 1 } else { n }
}

// One case more; one that differs is named by its number.
pub fn add(rt: &impl Print, seen: Seen, agrees: bool) -> io::Result<Seen> {
    let all = one_more(seen.all);
    if agrees {
        let right = one_more(seen.right);
        return Ok(Seen { all, right });
    }
    println!(rt; "differs: {all}")?;
    Ok(Seen { all, ..seen })
}

// ---- places in a text

// A sum of places; both are small.
pub fn plus(a: usize, b: usize) -> usize {
    if a < LAST && b < LAST { a + b } else { LAST }
}

// The character at a place, or 0 past the end.
pub fn byte(text: &[u8], at: usize) -> u8 {
    text.get(at).copied().unwrap_or(0)
}

// The place of the next such character, or the end; a place past the end stays.
pub fn find(text: &[u8], from: usize, c: u8) -> usize {
    (from..text.len())
        .find(|&i| text[i] == c)
        .unwrap_or(from.max(text.len()))
}

// The place behind the next such character.
pub fn behind(text: &[u8], from: usize, c: u8) -> usize {
    plus(find(text, from, c), 1)
}

// The text between two places; all of it, if they are no such places.
pub fn part(text: &[u8], from: usize, end: usize) -> &[u8] {
    text.get(from..end).unwrap_or(text)
}

// ---- reading

// Reads until the room is full or the file ends; how many bytes were read.
fn read_full(file: &mut impl Read, room: &mut [u8]) -> io::Result<usize>
    ensures { IfOk result (λ n. n ≤ length room.new) }
{
    let mut done = 0;
    while done < room.len() {
        let n = file.read(&mut room[done..])?;
        if n == 0 {
            break;
        }
        done += n;
    }
    Ok(done)
}

// Reads on behind the bytes that are there; how many there are then.
pub fn read_more(file: &mut impl Read, room: &mut [u8], kept: usize) -> io::Result<usize> {
    if room.len() < kept {
        return Ok(kept);
    }
    let n = read_full(file, &mut room[kept..])?;
    Ok(plus(kept, n))
}

// How many of the first bytes are whole lines.
pub fn whole_lines(room: &[u8], n: usize) -> usize {
    for last in (0..n).rev() {
        if byte(room, last) == b'\n' {
            return last + 1;
        }
    }
    0
}

// The bytes between two places go to the front; how many they are.
pub fn to_front(room: &mut [u8], from: usize, end: usize) -> usize {
    let most = room.len();
    let mut n: usize = 0;
    for at in from..end {
        if most <= at || most <= n {
            break;
        }
        room[n] = room[at];
        n += 1;
    }
    n
}

// ---- numbers

// A number, and the place behind the character that follows it.
#[derive(Clone, Copy)]
pub struct Number {
    pub value: usize,
    pub next: usize,
}

fn with_digit(value: usize, c: u8) -> usize {
    if c.is_ascii_digit() && value < MOST {
        value * 10 + ((c - b'0') as usize)
    } else {
        value
    }
}

pub fn read_number(text: &[u8], from: usize) -> Number {
    let mut value: usize = 0;
    let mut at = from;
    // No `for`: the place where the digits end is part of the answer.
    while at < text.len() && text[at].is_ascii_digit() {
        value = with_digit(value, text[at]);
        at += 1;
    }
    Number {
        value,
        next: plus(at, 1),
    }
}

// ---- bytes

// What a hexadecimal digit stands for; 256 for any other character, so that two digits of which one is none come to 256 or more.
fn hex_digit(c: u8) -> u16
    ensures { result ≤ 256 }
{
    match c {
        b'0'..=b'9' => u16::from(c) - 48,
        b'a'..=b'f' => u16::from(c) - 87,
        _ => 256,
    }
}

// The byte that stands at a place; 256 or more, if there is none.
pub fn hex_at(text: &[u8], at: usize) -> u16 {
    hex_digit(byte(text, at)) * 16 + hex_digit(byte(text, plus(at, 1)))
}

// The bytes from a place on, and how many they are.
pub fn read_hex(text: &[u8], from: usize, file: &mut [u8]) -> usize {
    let most = file.len();
    let mut at = from;
    let mut n = 0;
    while n < most {
        let x = hex_at(text, at);
        if 255 < x {
            break;
        }
        file[n] = x as u8;
        at = plus(at, 2);
        n += 1;
    }
    n
}

// The text from a place on is these bytes.
pub fn spells(text: &[u8], from: usize, file: &[u8]) -> bool {
    let mut at = from;
    for &x in file {
        if hex_at(text, at) != u16::from(x) {
            return false;
        }
        at = plus(at, 2);
    }
    at == text.len()
}

// ---- answers: `ok`, perhaps with figures, or `refused NUMBER PLACE`

pub fn is_fine(text: &[u8], at: usize) -> bool {
    byte(text, at) == b'o'
}

pub fn same_refusal_at(text: &[u8], at: usize, refusal: Refusal) -> bool {
    let number = read_number(text, behind(text, at, b' '));
    let place = read_number(text, number.next);
    byte(text, at) == b'r'
        && number.value == usize::from(u8::from(refusal.reason))
        && place.value == refusal.place
}

// The place behind `ok` and the four figures before the bytes, if they are these; 0 if not.
pub fn behind_figures(text: &[u8], at: usize, g: FinalFigures) -> usize {
    let records = read_number(text, behind(text, at, b' '));
    let scopes = read_number(text, records.next);
    let symbols = read_number(text, scopes.next);
    let contexts = read_number(text, symbols.next);
    if is_fine(text, at)
        && (records.value as u64) == g.records
        && (scopes.value as u64) == g.scopes
        && (symbols.value as u64) == g.symbols
        && (contexts.value as u64) == g.contexts
    {
        contexts.next
    } else {
        0
    }
}

// ---- for one who may allocate: bytes from text, and the notation

// The bytes that hexadecimal digits spell.
pub fn decoded(alloc: Global, digits: &str) -> Result<Option<Vec<u8>>, AllocError>
    ensures { IfOk result (λ bytes. option_map (λ v. v.items) bytes ≡ result_ok (decode_of digits.now)) }
{
    match hex::decode(alloc, digits) {
        Ok(bytes) => Ok(Some(bytes)),
        Err(FromHexError::OutOfMemory) => Err(AllocError),
        Err(_) => Ok(None),
    }
}

// The file that a text in the notation of 01 spells. `notation` has no heap: it fills lent memory, and answers how much.
pub fn encoded(alloc: Global, text: &str) -> Result<Vec<u8>, AllocError>
    ensures { IfOk result (λ file. file.items ≡ take large (notation.encoded text.now)) }
{
    let mut file = vec![in alloc; 0u8; LARGE]?;
    let length = notation::encode(text.as_bytes(), &mut file);
    file.truncate(length);
    Ok(file)
}

// The text of a file in the notation of 01.
pub fn shown(alloc: Global, file: &[u8]) -> Result<String, AllocError>
    ensures { IfOk result (λ text. string_bytes text ≡ utf8_lossy (take large (shown.shown file.now))) }
{
    let mut text = vec![in alloc; 0u8; LARGE]?;
    let length = notation::show(file, &mut text);
    text.truncate(length);
    String::from_utf8_lossy(alloc, &text)
}

// ---- for one who holds a `str`: its parts, and the answers in it

// Three parts with `|` between them.
pub fn three_parts(line: &str) -> Option<(&str, &str, &str)>
    ensures found { IsSome result ↔ (HasByte bar line.now × HasByte bar (behind bar line.now)) }
    ensures first { IfSome result (λ parts. parts.0.now ≡ before bar line.now) }
    ensures second { IfSome result (λ parts. parts.1.now ≡ before bar (behind bar line.now)) }
    ensures third { IfSome result (λ parts. parts.2.now ≡ behind bar (behind bar line.now)) }
{
    let (first, rest) = line.split_once('|')?;
    let (second, third) = rest.split_once('|')?;
    Some((first, second, third))
}

// The number and the place behind `refused`.
fn refusal_told(answer: &str) -> Option<(u8, usize)>
    ensures { IfSome result (λ told. TellsRefusal answer.now told.0 told.1) }
{
    let (number, place) = answer.strip_prefix("refused ")?.split_once(' ')?;
    Some((number.parse().ok()?, place.parse().ok()?))
}

pub fn same_refusal(answer: &str, refusal: Refusal) -> bool
    ensures { IsTrue result → TellsRefusal answer.now (number_of refusal.reason) refusal.place }
{
    refusal_told(answer) == Some((u8::from(refusal.reason), refusal.place))
}

// The figures behind `ok`, but for the bytes, and what stands behind them.
pub fn figures_told(answer: &str) -> Option<(FinalFigures, &str)>
    ensures figures { IfSome result (λ told. (text : List ℕ) × (answer.now ≡ fine_prefix ++ text)
        × Tells space text (told.0.records ∷ told.0.scopes ∷ told.0.symbols ∷ told.0.contexts ∷ []) told.1.now) }
    ensures bytes { IfSome result (λ told. told.0.bytes ≡ 0) }
{
    let mut words = answer.strip_prefix("ok ")?.splitn(5, ' ');
    let figures = FinalFigures {
        records: words.next()?.parse().ok()?,
        scopes: words.next()?.parse().ok()?,
        symbols: words.next()?.parse().ok()?,
        contexts: words.next()?.parse().ok()?,
        bytes: 0,
    };
    Some((figures, words.next()?))
}
