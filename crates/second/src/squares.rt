// LTE's turbo interleaver, 3GPP TS 36.212 5.1.3.2.3: L(t) = (f1·t + f2·t²) mod K, as (f1 + f2·t)·t, with remainders taken on the way; and whether two
// positions share an address, by trying them.
use crate::num::{plus, rest, times};
use crate::{Whole, listed, share};
use sets::Set;

// K, f1 and f2.
#[derive(Clone, Copy)]
struct Square {
    k: usize,
    f1: usize,
    f2: usize,
}

fn square_of(set: Set) -> Square {
    Square {
        k: set.n as usize,
        f1: set.factors.first as usize,
        f2: set.factors.second as usize,
    }
}

fn address(s: Square, t: usize) -> usize {
    rest(
        times(rest(plus(s.f1, rest(times(s.f2, t), s.k)), s.k), t),
        s.k,
    )
}

// The same with t for t², which is wrong on purpose.
fn straight(s: Square, t: usize) -> usize {
    rest(times(rest(plus(s.f1, s.f2), s.k), t), s.k)
}

// L of an accepted set of profile 8.
pub(super) fn list_of(set: Set, list: &mut [u16]) -> Whole {
    let s = square_of(set);
    listed(set, list, |t| address(s, t))
}

pub fn unsquared(set: Set, list: &mut [u16]) -> Whole {
    let s = square_of(set);
    listed(set, list, |t| straight(s, t))
}

// Whether two positions below K share an address. What has been seen is marked in a lent table with room for K.
pub fn shares(set: Set, seen: &mut [u16]) -> bool {
    let s = square_of(set);
    share(s.k, seen, |t| address(s, t))
}
