// A parameter set's verdict and its addresses, one answer a line; a refusal is a line such as `refused 1`, or with the size that would have fitted
// `refused 3 192`.
use super::{LONGEST, say, say_number};
use laws::Way;
use sets::{Refusal, Set};
use system::{STDOUT_FILENO, System};
use walks::{Found, Walk, Walked};
use words::text::Text;

pub fn refused(system: System, fd: i32, x: Refusal) {
    words::text::say_refusal(system, fd, x.number, x.size);
}

// The first n addresses of a slice, one a line.
fn addresses(system: System, slots: &[u16], n: u32) {
    let mut text = Text::new(system);
    for slot in slots.iter().take(n as usize) {
        text.put_number(u64::from(*slot));
        text.put(b"\n");
    }
    text.flush();
}

// A walk's addresses, or its refusal.
fn walked(system: System, w: Walked, slots: &[u16]) {
    match w {
        Ok(values) => addresses(system, slots, values.written),
        Err(x) => refused(system, STDOUT_FILENO, x),
    }
}

// `test`: accepted, or the refusal.
pub fn test(system: System, set: Set) {
    match sets::test(set) {
        Ok(()) => say(system, b"accepted\n"),
        Err(x) => refused(system, STDOUT_FILENO, x),
    }
}

// `factors`: f1 and f2 of a size of LTE.
pub fn factors(system: System, k: u32) {
    match lte::factors(k) {
        Ok(f) => {
            say_number(system, b"", f.first as u64);
            words::text::say_line(system, STDOUT_FILENO, b" ", f.second as u64);
        }
        Err(x) => refused(system, STDOUT_FILENO, x),
    }
}

// `list`, L, and `back`, M: one address a line.
pub fn list(system: System, way: Way, set: Set) {
    let mut table = [0u16; LONGEST];
    let w = walks::walk_by(way, Walk { set, cell: 0 }, &mut table);
    walked(system, w, &table);
}

fn found(system: System, f: Found) {
    match f {
        Ok(a) => words::text::say_line(system, STDOUT_FILENO, b"", a as u64),
        Err(x) => refused(system, STDOUT_FILENO, x),
    }
}

// `at`, L(x), and `to`, M(x).
pub fn one(system: System, way: Way, set: Set, x: u32) {
    found(system, walks::address_by(way, set, x));
}

// A walk into a slice: the addresses, then what it counted.
fn walk_into(system: System, w: Walk, slots: &mut [u16]) {
    let r = walks::walk_l(w, slots);
    walked(system, r, slots);
    if let Ok(values) = r {
        say_number(system, b"written ", values.written as u64);
        say_number(system, b" next ", values.next.cell as u64);
        words::text::say_line(system, STDOUT_FILENO, b" cells ", values.cells as u64);
    }
}

// `walk`. No list is longer than LONGEST, so a larger room is as good as one of that length.
pub fn walk(system: System, set: Set, cell: u32, room: u32) {
    let mut table = [0u16; LONGEST];
    let n = LONGEST.min(room as usize);
    walk_into(system, Walk { set, cell }, &mut table[..n]);
}
