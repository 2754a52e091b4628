// Each call on text as a `str`, and each on allocated memory, on a case of the test program's data.
use crate::lines::{self, Seen};
use crate::memory::{self, Memory, Rows};
use crate::states::{self, State};
use figures::FinalFigures;
use meaning::{Reason, Refusal};
use std::cell::RefCell;
use std::fmt::{Display, Write};
use std::io;
use std::test::Fail;

// A script whose first statement is a block with a `using`: the file, what `lower` writes, its states before and after the block is rewritten.
const FILE: &str = "40:1,0 41:0,16 41:1,0 42:10,6,2,0,1 1:1,1 2:2,1 5:3,1 6:0,1,2 26:1 24:7,0";

const FILE_HEX: &str =
    "2800040001000029000400000010290004000100002a000a000a00060002000000010100040001000102000400020001050004000300010600060000000100021a0002000118000400070000";

const WRITTEN_HEX: &str =
    "2800040001000029000400000010290004000100002900040001000229000400030000290004000100002a000a000a00060002000000012a000a000500010001000100042a000a00020011000400000002010004000100010b00040003000302000400020002050004000000010600060000000100021a000200021c000400010000050004000200010600060000000100021a000200011b0006000000020001180004000700000c000800030001000000021a00020003020004000400011d0006000000020003020004000500011d0006000100020000";

const STARTED: &str = "0 6,2,1 41:0,16 41:1,0 42:10,6,2,0,1 1:1,1 2:2,1 5:3,1 6:0,1,2 26:1 24:7,0";

const REWRITTEN: &str =
    "2 18,5,3 41:0,16 41:1,0 41:1,2 41:3,0 41:1,0 42:10,6,2,0,1 42:5,1,1,1,4 42:2,17,4,0,2 1:1,1 11:3,3 2:2,2 5:0,1 6:0,1,2 26:2 28:1,0 5:2,1 6:0,1,2 26:1 27:0,2,1 24:7,0 12:3,1,0,2 26:3 2:4,1 29:0,2,3 2:5,1 29:1,2,0";

const WRITTEN: FinalFigures = FinalFigures {
    records: 18,
    scopes: 5,
    symbols: 3,
    contexts: 1,
    bytes: 215,
};

// Keeps what is printed.
#[derive(Drop)]
struct Page {
    text: RefCell<String>,
}

impl Page {
    fn append<D: Display + Drop>(&self, value: D, end: &str) -> io::Result<()> {
        let mut text = self
            .text
            .try_borrow_mut()
            .map_err(|_| io::ErrorKind::Other)?;
        write!(text, "{value}{end}").map_err(|_| io::ErrorKind::Other)?;
        Ok(())
    }
}

impl Print for Page {
    fn print<D: Display + Drop>(&self, value: D) -> io::Result<()> {
        self.append(value, "")
    }

    fn println<D: Display + Drop>(&self, value: D) -> io::Result<()> {
        self.append(value, "\n")
    }

    fn write_all(&self, bytes: &[u8]) -> io::Result<()> {
        let text = str::from_utf8(bytes).map_err(|_| io::ErrorKind::InvalidData)?;
        self.append(text, "")
    }
}

#[test]
fn counts_cases(rt: HostRuntime) -> Result<(), Fail> {
    let page = Page {
        text: RefCell::new(String::new(rt.alloc())),
    };
    let mut seen = Seen::default();
    for agrees in [true, false, true, false] {
        seen.add(&page, agrees)?;
    }
    assert_eq!(rt; page.text.into_inner().as_str(), "differs: 2\ndiffers: 4\n");
    let told = format!(in rt.alloc(); "{seen}")?;
    assert_eq!(rt; told.as_str(), "4, agreed 2");
    Ok(())
}

#[test]
fn reads_digits(rt: HostRuntime) -> Result<(), Fail> {
    let bytes = lines::decoded(rt.alloc(), "00ff7F")?.ok_or("no bytes")?;
    assert_eq!(rt; bytes.as_slice(), &[0u8, 255, 127][..]);
    for digits in ["0", "0g", "é0"] {
        assert!(rt; lines::decoded(rt.alloc(), digits)?.is_none(), "{digits}");
    }
    Ok(())
}

#[test]
fn reads_and_shows_the_notation(rt: HostRuntime) -> Result<(), Fail> {
    let want = lines::decoded(rt.alloc(), FILE_HEX)?.ok_or("no bytes")?;
    let file = lines::encoded(rt.alloc(), FILE)?;
    assert_eq!(rt; file.as_slice(), want.as_slice());
    let text = lines::shown(rt.alloc(), &file)?;
    assert_eq!(rt; text.as_str(), FILE);
    Ok(())
}

#[test]
fn reads_parts(rt: HostRuntime) {
    assert!(rt; lines::three_parts("a|b|c|d") == Some(("a", "b", "c|d")));
    assert!(rt; lines::three_parts("a|b").is_none());
    let figures = FinalFigures {
        records: 1,
        scopes: 2,
        symbols: 3,
        contexts: 4,
        bytes: 0,
    };
    assert!(rt; lines::figures_told("ok 1 2 3 4 5 6") == Some((figures, "5 6")));
    let none = FinalFigures {
        records: 0,
        scopes: 0,
        symbols: 0,
        contexts: 0,
        bytes: 0,
    };
    assert!(rt; lines::figures_told("ok 0 0 0 0 ") == Some((none, "")));
    for answer in ["ok 1 2 3 4", "ok 1 2 3 x 5", "refused 9 0", "ok"] {
        assert!(rt; lines::figures_told(answer).is_none(), "{answer}");
    }
}

#[test]
fn reads_refusals(rt: HostRuntime) {
    let refusal = Refusal {
        reason: Reason::ShortOutput,
        place: 20000000,
    };
    assert!(rt; lines::same_refusal("refused 10 20000000", refusal));
    for answer in [
        "refused 10 20000001",
        "refused 9 20000000",
        "refused 10 20000000 ",
        "refused 10",
        "ok 10 20000000",
        "",
    ] {
        assert!(rt; !lines::same_refusal(answer, refusal), "{answer}");
    }
    let place = 214;
    assert!(rt; lines::same_refusal_at(b"a|refused 10 214", 2, Refusal { place, ..refusal }));
}

#[test]
fn reads_rows(rt: HostRuntime) {
    let rows = Rows {
        records: 18,
        scopes: 5,
        symbols: 3,
    };
    assert!(rt; Rows::told("18,5,3", ',') == Some(rows));
    for text in ["18,5", "18,5,3,1", "18,5,65536", "18 5 3"] {
        assert!(rt; Rows::told(text, ',').is_none(), "{text}");
    }
    assert!(rt; Rows::of(WRITTEN) == Some(rows));
    let records = 65536;
    assert!(rt; Rows::of(FinalFigures { records, ..WRITTEN }).is_none());
    assert!(rt; Rows::told("0 0 0", ' ') == Some(Rows::default()));
    assert!(rt; states::told("2 18,5,3 1:1,1 2:2,1") == Some((rows, "1:1,1 2:2,1")));
    assert!(rt; states::told("3 18,5,3 same") == Some((rows, "same")));
    for line in ["2 18,5,3", "2 18,5 same", ""] {
        assert!(rt; states::told(line).is_none(), "{line}");
    }
}

#[test]
fn lowers_on_allocated_memory(rt: HostRuntime) -> Result<(), Fail> {
    let file = lines::decoded(rt.alloc(), FILE_HEX)?.ok_or("no bytes")?;
    let written = lines::decoded(rt.alloc(), WRITTEN_HEX)?.ok_or("no bytes")?;
    let rows = Rows::of(WRITTEN).ok_or("no rows")?;
    let mut memory = Memory::filled(rt.alloc(), rows, 217)?;
    assert!(rt; memory.is_untouched());
    assert!(rt; memory.lower(&file) == Ok(WRITTEN));
    assert!(rt; memory.holds_written(&written) && !memory.is_untouched());
    let mut short = Memory::filled(rt.alloc(), rows, 214)?;
    let refusal = Refusal {
        reason: Reason::ShortOutput,
        place: 214,
    };
    assert!(rt; short.lower(&file) == Err(refusal));
    assert!(rt; short.is_untouched() && !short.holds_written(&written));
    assert!(rt; memory::all_tables(&[7], &[7, 7], &[], 7));
    assert!(rt; !memory::all_tables(&[7], &[7, 8], &[], 7));
    Ok(())
}

#[test]
fn visits_on_allocated_memory(rt: HostRuntime) -> Result<(), Fail> {
    let file = lines::encoded(rt.alloc(), FILE)?;
    let rows = Rows::of(WRITTEN).ok_or("no rows")?;
    let mut memory = Memory::new(rt.alloc(), rows, 0)?;
    let walk = memory.start(&file)?;
    let next = memory.visit(walk);
    assert!(rt; walk.visited.0 < next.visited.0);
    let few = Rows { symbols: 2, ..rows };
    let mut memory = Memory::new(rt.alloc(), few, 0)?;
    let refusal = Refusal {
        reason: Reason::FewRows,
        place: 2,
    };
    assert!(rt; memory.start(&file).err() == Some(refusal));
    Ok(())
}

#[test]
fn holds_states(rt: HostRuntime) -> Result<(), Fail> {
    let file = lines::encoded(rt.alloc(), FILE)?;
    let (first, text) = states::told(STARTED).ok_or("no state")?;
    let first_tree = lines::encoded(rt.alloc(), text)?;
    let (second, text) = states::told(REWRITTEN).ok_or("no state")?;
    let second_tree = lines::encoded(rt.alloc(), text)?;
    let mut state = State::start(rt.alloc(), &file)??;
    for at in 0..first_tree.len() {
        let mut other = first_tree.clone()?;
        other[at] ^= 1;
        assert!(rt; !state.holds(first, &other), "{at}");
    }
    for _ in 0..2 {
        assert!(rt; state.holds(first, &first_tree) && !state.holds(second, &second_tree));
        state.visit();
    }
    assert!(rt; state.holds(second, &second_tree) && !state.holds(first, &first_tree));
    let (_, cut) = second_tree.split_last().ok_or("no bytes")?;
    assert!(rt; !state.holds(second, cut));
    assert!(rt; State::start(rt.alloc(), b"")?.is_err());
    Ok(())
}
