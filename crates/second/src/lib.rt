// The second computation: whole lists from document 01's formulas, for profile 5, for the third step of 6 and 7 and for profiles 8 and 9 from the
// standards', with a division at each address. It knows nothing of the walk, and promises nothing: a program holds the proved lists against it.
#![tactic(auto)]

pub mod coupled; // coupled.rt: the couples and symbols of profile 9, and its outputs tried
pub mod num; // num.rt: arithmetic that never fails
mod primes; // primes.rt: primes, the least primitive root, the next q
pub mod squares; // squares.rt: the quadratic list of profile 8, and its positions tried
mod turbo; // turbo.rt: the rectangle of profile 5

use crate::num::{at, minus, over, plus, put, rest, times};
use laws::Way;
use sets::Set;

// A list stands at 0 of the lent slice, and from ENDS on, for each address, the cell that follows it.
pub const ENDS: usize = 6144;

// A list as it was computed: its set, how many addresses and cells it has, and how many of the cells are padding.
#[derive(Clone, Copy)]
pub struct Whole {
    pub set: Set,
    pub addresses: usize,
    pub cells: usize,
    pub padding: usize,
}

fn rows(profile: u32) -> usize {
    match profile {
        1 => 12,
        6 => 13,
        7 => 18,
        _ => 16,
    }
}

// r of IEEE 802.11n at 20 and at 40 MHz; 0 where no stream is turned.
fn rotation(profile: u32) -> usize {
    match profile {
        6 => 11,
        7 => 29,
        _ => 0,
    }
}

// ((2·(i - 1)) mod 3 + 3·((i - 1)/3))·r·bits for stream i.
fn turn(set: Set) -> usize {
    let i = minus(set.stream as usize, 1);
    let c = plus(rest(times(2, i), 3), times(3, over(i, 3)));
    times(times(c, rotation(set.profile)), set.bits as usize)
}

fn group(bits: u32) -> usize {
    match bits {
        6 => 3,
        4 => 2,
        _ => 1,
    }
}

// m = s·(t/s) + (t + d·t/N) mod s, then L(t) = d·m - (N - 1)·(d·m/N).
fn carrier_l(d: usize, n: usize, s: usize, t: usize) -> usize {
    let row = over(times(d, t), n);
    let m = plus(times(s, over(t, s)), rest(plus(t, row), s));
    let dm = times(d, m);
    minus(dm, times(minus(n, 1), over(dm, n)))
}

// m = (N/d)·(k mod d) + k/d, then M(k) = s·(m/s) + (m + N - d·m/N) mod s.
fn carrier_m(d: usize, n: usize, s: usize, k: usize) -> usize {
    let m = plus(times(over(n, d), rest(k, d)), over(k, d));
    let row = over(times(d, m), n);
    plus(times(s, over(m, s)), rest(minus(plus(m, n), row), s))
}

// The formulas of the two steps, and the third: M(k) less the turn, modulo N, and L at t and the turn, modulo N.
fn carrier(way: Way, set: Set, turn: usize, t: usize) -> usize {
    let d = rows(set.profile);
    let s = group(set.bits);
    let n = set.n as usize;
    match way {
        Way::Interleaver => carrier_l(d, n, s, rest(plus(t, turn), n)),
        Way::Deinterleaver => rest(minus(plus(carrier_m(d, n, s, t), n), turn), n),
    }
}

// The list of a set of N addresses, each of its own cell: `address` at each place.
fn listed<F: Fn(usize) -> usize>(set: Set, list: &mut [u16], address: F) -> Whole
    requires { F.IsAlwaysCallable address }
{
    let n = set.n as usize;
    for t in 0..n {
        put(list, t, address(t));
        put(list, plus(ENDS, t), plus(t, 1));
    }
    Whole {
        set,
        addresses: n,
        cells: n,
        padding: 0,
    }
}

// Whether two of the first n places share an address. What has been seen is marked in a table with room for n.
fn share<F: Fn(usize) -> usize>(n: usize, seen: &mut [u16], address: F) -> bool
    requires { F.IsAlwaysCallable address }
{
    for a in 0..n {
        put(seen, a, 0);
    }
    for t in 0..n {
        let a = address(t);
        if at(seen, a) > 0 {
            return true;
        }
        put(seen, a, 1);
    }
    false
}

// L or M of a carrier set.
fn carrier_list(way: Way, set: Set, turn: usize, list: &mut [u16]) -> Whole {
    listed(set, list, |t| carrier(way, set, turn, t))
}

// An address that is not padding is kept; gives how many are kept then.
fn keep(k: usize, a: usize, cell: usize, kept: usize, list: &mut [u16]) -> usize {
    if k <= a {
        return kept;
    }
    put(list, kept, a);
    put(list, plus(ENDS, kept), plus(cell, 1));
    plus(kept, 1)
}

// L of a set of profile 5, cell by cell, with the exchange or, for a list that is wrong on purpose, without it.
fn turbo_list(set: Set, exchange: bool, list: &mut [u16]) -> Whole {
    let k = set.n as usize;
    let mut grid = turbo::plan(k);
    grid.exchanges &= exchange;
    let cells = times(grid.r, grid.c);
    let mut kept = 0;
    for cell in 0..cells {
        kept = keep(k, turbo::address(&grid, cell), cell, kept, list);
    }
    Whole {
        set,
        addresses: kept,
        cells,
        padding: minus(cells, kept),
    }
}

// R and C of a size of profile 5.
#[derive(Clone, Copy)]
pub struct Sides {
    pub rows: usize,
    pub columns: usize,
}

pub fn sides_of(k: usize) -> Sides {
    let rows = turbo::rows(k);
    Sides {
        rows,
        columns: turbo::columns(k, rows, turbo::prime_of(k, rows)),
    }
}

// The list of an accepted set of profile 5 with no exchange at full rectangles: wrong on purpose.
pub fn unexchanged(set: Set, list: &mut [u16]) -> Whole {
    turbo_list(set, false, list)
}

// The whole list of an accepted set.
pub fn list_of(way: Way, set: Set, list: &mut [u16]) -> Whole {
    match set.profile {
        5 => turbo_list(set, true, list),
        8 => squares::list_of(set, list),
        9 => coupled::list_of(set, list),
        _ => carrier_list(way, set, turn(set), list),
    }
}

// For each symbol of an accepted set's output its input symbol. For a profile without couples, that is L.
pub fn symbols_of(set: Set, list: &mut [u16]) {
    if set.profile == 9 {
        coupled::symbols_of(set, list);
        return;
    }
    list_of(Way::Interleaver, set, list);
}

// The list of an accepted set of carriers with no stream turned: wrong on purpose.
pub fn unturned(way: Way, set: Set, list: &mut [u16]) -> Whole {
    carrier_list(way, set, 0, list)
}
