// The turbo interleaver of IEEE 802.16, in couples of symbols: P(j) with a remainder after each number that is added; the symbols, of a block whose
// couples are swapped first; and whether two outputs share a couple, by trying them.
use crate::num::{minus, over, plus, put, rest, times};
use crate::{Whole, listed, share};
use sets::Set;

// How many couples there are, and the four numbers.
#[derive(Clone, Copy)]
struct Four {
    n: usize,
    p0: usize,
    p1: usize,
    p2: usize,
    p3: usize,
}

fn four_of(set: Set) -> Four {
    let f = set.factors;
    Four {
        n: set.n as usize,
        p0: f.first as usize,
        p1: f.second as usize,
        p2: f.third as usize,
        p3: f.fourth as usize,
    }
}

// P1 in the third case too, as it is misprinted: wrong on purpose.
fn misprint(k: Four) -> Four {
    Four { p2: k.p1, ..k }
}

// The number that the case of j has for itself.
fn own(k: Four, j: usize) -> usize {
    match rest(j, 4) {
        0 => 0,
        1 => k.p1,
        2 => k.p2,
        _ => k.p3,
    }
}

// P(j): P0·j + 1, N/2 more at each odd j, and the case's own number.
fn couple(k: Four, j: usize) -> usize {
    let even = rest(plus(rest(times(k.p0, j), k.n), 1), k.n);
    let half = times(rest(j, 2), over(k.n, 2));
    rest(plus(rest(plus(even, half), k.n), own(k, j)), k.n)
}

// L of an accepted set of profile 9, over couples.
pub(super) fn list_of(set: Set, list: &mut [u16]) -> Whole {
    let k = four_of(set);
    listed(set, list, |j| couple(k, j))
}

pub fn misprinted(set: Set, list: &mut [u16]) -> Whole {
    let k = misprint(four_of(set));
    listed(set, list, |j| couple(k, j))
}

// The other symbol of a couple.
fn beside(s: usize) -> usize {
    if rest(s, 2) == 0 {
        return plus(s, 1);
    }
    minus(s, 1)
}

// The symbol that stands at s when the couples whose number leaves `odd` modulo 2 have swapped A and B.
fn swapped(odd: usize, s: usize) -> usize {
    if rest(over(s, 2), 2) == odd {
        return beside(s);
    }
    s
}

// The input symbol of each of the 2N of the output.
fn symbols_by(k: Four, odd: usize, list: &mut [u16]) {
    for t in 0..times(2, k.n) {
        let s = plus(times(2, couple(k, over(t, 2))), rest(t, 2));
        put(list, t, swapped(odd, s));
    }
}

pub(super) fn symbols_of(set: Set, list: &mut [u16]) {
    symbols_by(four_of(set), 1, list);
}

// The same with the even-numbered couples swapped: wrong on purpose.
pub fn swapped_even(set: Set, list: &mut [u16]) {
    symbols_by(four_of(set), 0, list);
}

// Whether two outputs below N share a couple. What has been seen is marked in a lent table with room for N.
pub fn shares(set: Set, seen: &mut [u16]) -> bool {
    let k = four_of(set);
    share(k.n, seen, |j| couple(k, j))
}
