// For people: a tree file on standard input is turned into the notation of 01, and the notation into a tree file, on standard output.
//
// A tree file begins with its Settings, tag 40, and no text in the notation begins with that byte, a `(`: so the first byte tells which of
// the two is given. A file may have 65,536 bytes, one more than 01 allows, and a text 262,144, which is enough for the text of any such
// file. What is longer, or is no notation, is answered with a line that says so. Where reading or writing fails, the program ends with that
// error.
#![tactic(auto)]

use meaning::tag;
use std::io;
use std::io::Read;

// The most bytes of a file, and characters of a text.
const MOST_BYTES: usize = 65536;

const MOST_CHARACTERS: usize = 262144;

// The most bytes that are read, one more than a text may have.
const MOST_READ: u64 = 262145;

// A file as text. `notation` fills lent memory, so the buffer has a length beside it here; so it is with the bytes of a text.
fn write_text(rt: &impl Print, file: &[u8]) -> io::Result<()> {
    if MOST_BYTES < file.len() {
        return println!(rt; "too long: a tree file may have 65536 bytes");
    }
    let mut text = [0u8; MOST_CHARACTERS];
    let n = notation::show(file, &mut text);
    rt.write_all(&text[..n])?;
    println!(rt;)
}

// A text that is spelled right, as bytes.
fn write_bytes(rt: &impl Print, text: &[u8]) -> io::Result<()> {
    let mut file = [0u8; MOST_BYTES];
    let n = notation::encode(text, &mut file);
    if MOST_BYTES < n {
        return println!(rt; "too long: a tree file may have 65536 bytes, this one has {n}");
    }
    rt.write_all(&file[..n])
}

// A text as bytes, or where it is wrong.
fn write_file(rt: &impl Print, text: &[u8]) -> io::Result<()> {
    if MOST_CHARACTERS < text.len() {
        return println!(rt; "too long: a text may have 262144 characters");
    }
    match notation::check(text) {
        Ok(()) => write_bytes(rt, text),
        Err(wrong) => println!(rt; "{wrong}"),
    }
}

// Either way, by the first byte.
fn turn(rt: &impl Print, input: &[u8]) -> io::Result<()> {
    if fields::tag_at(input, 0) == tag::SETTINGS {
        write_text(rt, input)
    } else {
        write_file(rt, input)
    }
}

fn main(rt: HostRuntime) -> io::Result<()> {
    let mut input = Vec::new(rt.alloc());
    rt.reader().take(MOST_READ).read_to_end(&mut input)?;
    turn(&rt, &input)
}
