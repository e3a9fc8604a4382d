// A walk in slices, held against a whole list of the second computation.
use crate::count::Count;
use crate::num::{differ, sum, weight, wrong_numbers};
use laws::Way;
use second::num::{at, minus, plus};
use second::{ENDS, Whole};
use walks::{Values, Walk};

// A walk part way: its record, how many addresses it has given, whether it is over, and what was counted.
#[derive(Clone, Copy)]
pub struct Going {
    pub walk: Walk,
    pub given: usize,
    pub over: bool,
    pub count: Count,
}

// The cell that a call must stop at: right after the address that fills the slice, or the total.
fn due_cell(w: Whole, list: &[u16], given: usize, room: usize) -> usize {
    let all = plus(given, room);
    if w.addresses < all {
        return w.cells;
    }
    at(list, plus(ENDS, minus(all, 1)))
}

// What one call answered: its addresses, how many, the cell it stopped at, the cells examined.
fn judge(w: Whole, now: Going, values: Values, list: &[u16], slice: &[u16]) -> Going {
    let given = now.given;
    let room = slice.len();
    let n = values.written as usize;
    let cells = values.cells as usize;
    let cell = values.next.cell as usize;
    let told = slice.get(..n).unwrap_or(slice);
    let differences = sum(
        sum(
            wrong_numbers(told, |i| at(list, plus(given, i))),
            differ(n, room.min(minus(w.addresses, given))),
        ),
        sum(
            differ(cell, due_cell(w, list, given, room)),
            differ(plus(now.walk.cell as usize, cells), cell),
        ),
    );
    let more = Count {
        sets: 0,
        calls: 1,
        addresses: n as u64,
        cells: cells as u64,
        padding: minus(cells, n) as u64,
        weight: weight(given, told),
        differences,
    };
    Going {
        walk: values.next,
        given: plus(given, n),
        over: w.cells <= cell,
        count: now.count.with(more),
    }
}

// The next slice; a refusal is a difference, and the end.
fn step(way: Way, w: Whole, now: Going, list: &[u16], slice: &mut [u16]) -> Going {
    match walks::walk_by(way, now.walk, slice) {
        Ok(values) => judge(w, now, values, list, slice),
        Err(_) => Going {
            over: true,
            count: now.count.with(Count::wrong(1)),
            ..now
        },
    }
}

fn begin(w: Whole) -> Going {
    Going {
        walk: Walk {
            set: w.set,
            cell: 0,
        },
        given: 0,
        over: false,
        count: Count::default(),
    }
}

// The counts of a walk that is over, with the list's own: its addresses are as many as the block's, the rest of the cells are padding.
fn end(w: Whole, now: Going) -> Count {
    let c = now.count;
    let set = w.set;
    let differences = sum(
        sum(
            differ(c.addresses as usize, w.addresses),
            differ(c.cells as usize, w.cells),
        ),
        sum(
            differ(c.padding as usize, w.padding),
            differ(w.addresses, set.n as usize),
        ),
    );
    let more = Count {
        sets: 1,
        calls: 0,
        addresses: 0,
        cells: 0,
        padding: 0,
        weight: 0,
        differences,
    };
    c.with(more)
}

// Slices of the length of the one that is lent, until the walk is over.
fn run(way: Way, w: Whole, list: &[u16], slice: &mut [u16]) -> Count {
    let mut now = begin(w);
    for _ in 0..6144 {
        now = step(way, w, now, list, slice);
        if now.over {
            return end(w, now);
        }
    }
    Count::wrong(1)
}

// The same with slices of a given size.
pub fn compare(way: Way, w: Whole, size: usize, list: &[u16], slice: &mut [u16]) -> Count {
    if slice.len() < size {
        return Count::wrong(1);
    }
    run(way, w, list, &mut slice[..size])
}
