// The test of f1 and f2 held against trying all positions: every K of profile 8 up to 128, with every f1 and f2 from 0 to K.
use crate::chosen::{four, quadratic_set, verdict};
use crate::count::Tried;
use second::squares::shares;
use sets::Set;

fn set_of(k: u32, f1: u32, f2: u32) -> Set {
    quadratic_set(k, four(f1, f2, 0, 0))
}

// The number that the test of a set gives, with f1 and f2 exchanged where that is wrong on purpose.
fn given(k: u32, f1: u32, f2: u32, exchanged: bool) -> u32 {
    if exchanged {
        return verdict(set_of(k, f2, f1));
    }
    verdict(set_of(k, f1, f2))
}

// The number that trying gives: 11 for a number that is 0 or not below K, 10 where two positions share an address.
fn expected(k: u32, f1: u32, f2: u32, seen: &mut [u16]) -> u32 {
    if f1 == 0 || f2 == 0 || f1 >= k || f2 >= k {
        return 11;
    }
    if shares(set_of(k, f1, f2), seen) {
        10
    } else {
        0
    }
}

// Every f1 and f2 up to K.
fn each_pair(k: u32, exchanged: bool, seen: &mut [u16], so_far: Tried) -> Tried {
    let mut t = so_far;
    for f1 in 0..=k {
        for f2 in 0..=k {
            t = t.with(given(k, f1, f2, exchanged), expected(k, f1, f2, seen));
        }
    }
    t
}

// K 40 to 128 by 8.
fn each(exchanged: bool, seen: &mut [u16]) -> Tried {
    let mut t = Tried::default();
    for j in 5..=16 {
        t = each_pair(j * 8, exchanged, seen, t);
    }
    t
}

// All of them; with f1 and f2 exchanged for the test, what is counted is in no total.
pub fn tried(exchanged: bool) -> Tried {
    let mut seen = [0u16; 128];
    each(exchanged, &mut seen)
}
