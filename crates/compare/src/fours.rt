// The test of P0 to P3 held against trying all outputs: N 24 to 64 by 4, with every P0 from 0 to N, and 0, 1, 2, 3, N/2, N - 1 and N for each of P1,
// P2 and P3.
use crate::chosen::{coupled_set, four, verdict};
use crate::count::Tried;
use second::coupled::shares;
use sets::Factors;

// One of the seven numbers for P1, P2 and P3.
fn seven(n: u32, digit: u32) -> u32 {
    match digit {
        4 => n / 2,
        5 => n.wrapping_sub(1),
        6 => n,
        _ => digit,
    }
}

// The i-th four numbers of an N that begin with P0.
fn four_at(n: u32, p0: u32, i: u32) -> Factors {
    four(
        p0,
        seven(n, i / 49 % 7),
        seven(n, i / 7 % 7),
        seven(n, i % 7),
    )
}

// The number that the test of a set gives, with P1 and P2 exchanged where that is wrong on purpose.
fn given(n: u32, p: Factors, exchanged: bool) -> u32 {
    if exchanged {
        return verdict(coupled_set(n, four(p.first, p.third, p.second, p.fourth)));
    }
    verdict(coupled_set(n, p))
}

fn is_below(n: u32, p: Factors) -> bool {
    p.first < n && p.second < n && p.third < n && p.fourth < n
}

// The number that trying gives: 11 for a number that is not below N, 10 where two outputs share a couple.
fn expected(n: u32, p: Factors, seen: &mut [u16]) -> u32 {
    if !is_below(n, p) {
        return 11;
    }
    if shares(coupled_set(n, p), seen) {
        10
    } else {
        0
    }
}

// All numbers with an N.
fn each_four(n: u32, exchanged: bool, seen: &mut [u16], so_far: Tried) -> Tried {
    let mut t = so_far;
    for p0 in 0..=n {
        for i in 0..343 {
            let p = four_at(n, p0, i);
            t = t.with(given(n, p, exchanged), expected(n, p, seen));
        }
    }
    t
}

// N 24 to 64 by 4.
fn each(exchanged: bool, seen: &mut [u16]) -> Tried {
    let mut t = Tried::default();
    for m in 6..=16 {
        t = each_four(m * 4, exchanged, seen, t);
    }
    t
}

// All of them; with P1 and P2 exchanged for the test, what is counted is in no total.
pub fn tried(exchanged: bool) -> Tried {
    let mut seen = [0u16; 64];
    each(exchanged, &mut seen)
}
