// Replays vectors, and prints how many agreed; then lowers the files of all vectors twice. A file of data/ is text, read line by line; its form says
// what a line is (checks.rt, walks.rt, lowerings.rt, corners.rt) and which file stands in it, for twice.rt. A further file is one line more in
// `SCOPE`, `REQUESTS` or `ROWS`.
#![tactic(auto)]

mod checks;
mod corners;
mod lowerings;
mod twice;
mod walks;

use std::io::Read;
use std::rt::Files;
use std::{fs, io};
use test_lines::lines;
use test_lines::lines::Seen;

// A file is read in pieces of whole lines, at most so many bytes each; the lines of a walk have to stand in one piece.
const ROOM: usize = 262144;

const MOST_PIECES: u32 = 1000;

// A piece has at most so many lines.
const MOST_LINES: u32 = 100000;

// What the lines of a file are.
#[derive(Clone, Copy)]
enum Form {
    Checks,
    Walks,
    Lowerings,
    Corners,
}

// What is done with a line: it is replayed, or the file in it is lowered twice.
#[derive(Clone, Copy)]
enum Task {
    Replay(Form),
    Twice(Form),
}

// The files of document 01, with their forms.
const SCOPE: &[(&str, Form)] = &[
    ("check.txt", Form::Checks),
    ("visits.txt", Form::Walks),
    ("lower.txt", Form::Lowerings),
];

const CORNERS: &[(&str, Form)] = &[("corners.txt", Form::Corners)];

// Those of the requests of document 02.
const REQUESTS: &[(&str, Form)] = &[
    ("depth.txt", Form::Lowerings),
    ("letters.txt", Form::Lowerings),
    ("letter_visits.txt", Form::Walks),
    ("imports.txt", Form::Lowerings),
    ("import_visits.txt", Form::Walks),
];

// Those of the requests about the numbers in rows.
const ROWS: &[(&str, Form)] = &[
    ("counts.txt", Form::Lowerings),
    ("count_visits.txt", Form::Walks),
    ("order.txt", Form::Lowerings),
];

impl Task {
    // What is compared.
    fn title(self) -> &'static str {
        match self {
            Task::Replay(Form::Checks) => "what check and figures answer",
            Task::Replay(Form::Walks) => {
                "the tables after start, after each visit and after one call more"
            }
            Task::Replay(Form::Lowerings) => {
                "what lower answers, the written file, and every number of the lent memory"
            }
            Task::Replay(Form::Corners) => "what lower makes of each file",
            Task::Twice(_) => "what is written for each file, lowered again",
        }
    }

    // What came out; what the corners print is held to the stored output.
    fn tell(self, rt: &impl Print, seen: Seen) -> io::Result<()> {
        match self {
            Task::Replay(Form::Checks) => println!(rt; "checked {seen}"),
            Task::Replay(Form::Walks) => println!(rt; "states {seen}"),
            Task::Replay(Form::Lowerings) => println!(rt; "lowerings {seen}"),
            Task::Replay(Form::Corners) => println!(rt; "lowered {}", seen.all),
            Task::Twice(_) => println!(rt; "lowered again {seen}"),
        }
    }

    // The line between two places; a walk goes on in the lines behind it.
    fn run(
        self,
        rt: &impl Print,
        text: &[u8],
        at: usize,
        end: usize,
        seen: Seen,
    ) -> io::Result<Seen> {
        let line = lines::part(text, at, end);
        match self {
            Task::Replay(Form::Checks) => lines::add(rt, seen, checks::agrees(line)),
            Task::Replay(Form::Walks) => {
                walks::replay(rt, lines::part(text, at, text.len()), seen)
            }
            Task::Replay(Form::Lowerings) => lines::add(rt, seen, lowerings::agrees(line)),
            Task::Replay(Form::Corners) => corners::show_line(rt, line, seen),
            Task::Twice(Form::Checks) => twice::add_digits(rt, line, 0, seen),
            Task::Twice(Form::Walks) => twice::add_walk(rt, line, seen),
            Task::Twice(Form::Lowerings) => twice::add_lowering(rt, line, seen),
            Task::Twice(Form::Corners) => twice::add_corner(rt, line, seen),
        }
    }
}

// ---- a file, in pieces

fn replay_lines(rt: &impl Print, text: &[u8], task: Task, before: Seen) -> io::Result<Seen> {
    let mut seen = before;
    let mut at: usize = 0;
    for _ in 0..MOST_LINES {
        if text.len() <= at {
            break;
        }
        let end = lines::find(text, at, b'\n');
        seen = task.run(rt, text, at, end, seen)?;
        at = lines::plus(end, 1);
    }
    Ok(seen)
}

// What was seen, how many bytes of the line that is begun are kept, and whether there was a line.
#[derive(Clone, Copy)]
struct Piece {
    seen: Seen,
    kept: usize,
    more: bool,
}

// The next piece of a file.
fn replay_piece(
    rt: &impl Print,
    file: &mut impl Read,
    task: Task,
    p: Piece,
    room: &mut [u8],
) -> io::Result<Piece> {
    let before = p.seen;
    let n = lines::read_more(file, room, p.kept)?;
    let end = lines::whole_lines(room, n);
    let seen = replay_lines(rt, lines::part(room, 0, end), task, before)?;
    let kept = lines::to_front(room, end, n);
    Ok(Piece {
        seen,
        kept,
        more: 0 < end,
    })
}

fn replay_pieces(
    rt: &impl Print,
    file: &mut impl Read,
    task: Task,
    room: &mut [u8],
) -> io::Result<Seen> {
    let mut p = Piece {
        seen: lines::none_seen(),
        kept: 0,
        more: true,
    };
    for _ in 0..MOST_PIECES {
        if !p.more {
            break;
        }
        p = replay_piece(rt, file, task, p, room)?;
    }
    Ok(p.seen)
}

// ---- all files

fn replay(rt: &(impl Files + Print), name: &str, task: Task, room: &mut [u8]) -> io::Result<()> {
    println!(rt; "{name}: {}", task.title())?;
    let mut file = fs::open(rt, name)?;
    let seen = replay_pieces(rt, &mut file, task, room)?;
    task.tell(rt, seen)
}

fn main(rt: HostRuntime) -> io::Result<()> {
    let mut room = [0u8; ROOM];
    for vectors in [SCOPE, REQUESTS, ROWS, CORNERS] {
        for (name, form) in vectors {
            replay(&rt, *name, Task::Replay(*form), &mut room)?;
        }
    }
    for vectors in [SCOPE, CORNERS, REQUESTS, ROWS] {
        for (name, form) in vectors {
            replay(&rt, *name, Task::Twice(*form), &mut room)?;
        }
    }
    Ok(())
}
