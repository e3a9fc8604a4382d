// The grid of profile 5 from 3GPP TS 25.212: R, p, C, S, q and T, and a cell's address.
use crate::num::{at, minus, over, plus, put, rest, times};
use crate::primes::{next_q, prime, root};

const FIRST: [u16; 20] = [
    19, 9, 14, 4, 0, 2, 5, 7, 12, 18, 16, 13, 17, 15, 3, 1, 6, 11, 8, 10,
];

const OTHER: [u16; 20] = [
    19, 9, 14, 4, 0, 2, 5, 7, 12, 18, 10, 8, 13, 17, 3, 1, 16, 6, 15, 11,
];

// R, p and C, whether U(p) and U(0) of row R - 1 change places, and S, q and T.
#[derive(Clone, Copy)]
pub struct Grid {
    pub r: usize,
    p: usize,
    pub c: usize,
    pub exchanges: bool,
    s: [u16; 256],
    q: [u16; 20],
    t: [u16; 20],
}

pub(super) fn rows(k: usize) -> usize {
    match k {
        0..160 => 5,
        160..=200 | 481..=530 => 10,
        _ => 20,
    }
}

// p: the least prime from 7 on with K ≤ R·(p + 1); 53 for K 481 to 530.
pub(super) fn prime_of(k: usize, r: usize) -> usize {
    if r == 10 && 480 < k {
        return 53;
    }
    (7..257)
        .find(|p| k <= times(r, plus(*p, 1)) && prime(*p))
        .unwrap_or(257)
}

pub(super) fn columns(k: usize, r: usize, p: usize) -> usize {
    if r == 10 && 480 < k {
        return 53;
    }
    if k <= times(r, minus(p, 1)) {
        return minus(p, 1);
    }
    if k <= times(r, p) {
        return p;
    }
    plus(p, 1)
}

// S.
fn powers(p: usize) -> [u16; 256] {
    let v = root(p);
    let mut s = [0; 256];
    let mut y = 1;
    for x in 0..minus(p, 1) {
        put(&mut s, x, y);
        y = rest(times(v, y), p);
    }
    s
}

// q.
fn steps(r: usize, p: usize) -> [u16; 20] {
    let mut steps = [0; 20];
    let mut q = 1;
    for i in 0..r {
        put(&mut steps, i, q);
        q = next_q(q, p);
    }
    steps
}

fn row(k: usize, r: usize, i: usize) -> usize {
    if r < 20 {
        return minus(minus(r, 1), i);
    }
    match k {
        2281..=2480 | 3161..=3210 => at(&FIRST, i),
        _ => at(&OTHER, i),
    }
}

// T.
fn row_order(k: usize, r: usize) -> [u16; 20] {
    let mut order = [0; 20];
    for i in 0..r {
        put(&mut order, i, row(k, r, i));
    }
    order
}

// If C = p + 1 and K = R.C, the standard exchanges U(p) with U(0) of row R - 1.
fn exchanges(k: usize, r: usize, p: usize, c: usize) -> bool {
    c == plus(p, 1) && k == times(r, c)
}

pub(super) fn plan(k: usize) -> Grid {
    let r = rows(k);
    let p = prime_of(k, r);
    let c = columns(k, r, p);
    Grid {
        r,
        p,
        c,
        exchanges: exchanges(k, r, p, c),
        s: powers(p),
        q: steps(r, p),
        t: row_order(k, r),
    }
}

// u of row i and column j.
fn across(g: &Grid, i: usize, j: usize) -> usize {
    let last = minus(g.p, 1);
    if j < last {
        let power = at(&g.s, rest(times(j, at(&g.q, i)), last));
        if g.c == last {
            return minus(power, 1);
        }
        return power;
    }
    if j == last {
        return 0;
    }
    g.p
}

// The column whose U stands at column j of a row, as the rows are before their order T.
fn taken(g: &Grid, row: usize, j: usize) -> usize {
    if !g.exchanges || plus(row, 1) != g.r {
        return j;
    }
    if j == 0 {
        return g.p;
    }
    if j == g.p { 0 } else { j }
}

// T(i)·C + u of the column that a cell takes, the cells with j outer and i inner.
pub(super) fn address(g: &Grid, cell: usize) -> usize {
    let i = rest(cell, g.r);
    let j = over(cell, g.r);
    let row = at(&g.t, i);
    plus(times(row, g.c), across(g, i, taken(g, row, j)))
}
