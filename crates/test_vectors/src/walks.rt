// A walk is a line `file FILE` in the notation of 01, and a line for what `start` leaves and for each `visit_call` after it: `K R,S,Y TREE`, the
// visits made, how many records, scopes and symbols there are, and the scope rows, symbol rows and records in the notation, or `same`.
use std::io;
use tables::{record, scope, symbol};
use test_lines::lines::Seen;
use test_lines::states::Stand;
use test_lines::{lines, memory, states};

// A walk has at most so many states.
const MOST_STATES: u32 = 100000;

// A state is compared, and a visit made.
fn step(
    rt: &impl Print,
    text: &[u8],
    s: Stand,
    tree: &mut [u8],
    records: &mut [u16],
    scopes: &mut [u16],
    symbols: &mut [u16],
) -> io::Result<Stand> {
    let at = s.next;
    let w = s.walk;
    let end = lines::find(text, at, b'\n');
    let len = states::next_tree(text, at, end, tree, s.len);
    let told = states::rows_told(text, at);
    let agrees = states::holds(told, tree, len, w, records, scopes, symbols);
    let seen = lines::add(rt, s.seen, agrees)?;
    Ok(Stand {
        last: at,
        next: lines::plus(end, 1),
        len,
        seen,
        walk: walk::visit_call(w, records, scopes, symbols),
    })
}

// The states of a walk, and one call more, which changes nothing.
fn replay_states(
    rt: &impl Print,
    text: &[u8],
    first: Stand,
    tree: &mut [u8],
    records: &mut [u16],
    scopes: &mut [u16],
    symbols: &mut [u16],
) -> io::Result<Seen> {
    let mut s = first;
    for _ in 0..MOST_STATES {
        if !states::is_state(text, s.next) {
            break;
        }
        s = step(rt, text, s, tree, records, scopes, symbols)?;
    }
    let told = states::rows_told(text, s.last);
    let agrees = states::holds(told, tree, s.len, s.walk, records, scopes, symbols);
    lines::add(rt, s.seen, agrees)
}

fn replay_file(
    rt: &impl Print,
    file: &[u8],
    text: &[u8],
    at: usize,
    seen: Seen,
) -> io::Result<Seen> {
    let mut tree = [0u8; memory::LARGE];
    let mut records = [0u16; 512 * record::NUMBERS];
    let mut scopes = [0u16; 256 * scope::LENT];
    let mut symbols = [0u16; 256 * symbol::LENT];
    match states::begin(file, at, seen, &mut records, &mut scopes, &mut symbols) {
        Ok(first) => replay_states(
            rt,
            text,
            first,
            &mut tree,
            &mut records,
            &mut scopes,
            &mut symbols,
        ),
        Err(_) => lines::add(rt, seen, false),
    }
}

// The walk whose first line the text begins with; none, if that line is none's.
pub fn replay(rt: &impl Print, text: &[u8], seen: Seen) -> io::Result<Seen> {
    if lines::byte(text, 0) != b'f' {
        return Ok(seen);
    }
    let mut buffer = [0u8; memory::LARGE];
    let end = lines::find(text, 0, b'\n');
    let first = lines::part(text, lines::behind(text, 0, b' '), end);
    let n = notation::encode(first, &mut buffer);
    replay_file(
        rt,
        lines::part(&buffer, 0, n),
        text,
        lines::plus(end, 1),
        seen,
    )
}
