// Primes, the least primitive root v and the next q, by trial division and repeated multiplication.
use crate::num::{minus, plus, rest, times};

pub(super) fn prime(x: usize) -> bool {
    (2..x).all(|f| rest(x, f) != 0)
}

// The least e above 0 with v^e = 1 modulo p.
fn order(v: usize, p: usize) -> usize {
    let mut x = v;
    for e in 1..p {
        if x == 1 {
            return e;
        }
        x = rest(times(x, v), p);
    }
    p
}

// The least primitive root of p.
pub(super) fn root(p: usize) -> usize {
    (2..p).find(|v| order(*v, p) == minus(p, 1)).unwrap_or(p)
}

// The greatest common divisor, by trial from a down.
fn common(a: usize, b: usize) -> usize {
    (2..=a)
        .rev()
        .find(|f| rest(a, *f) == 0 && rest(b, *f) == 0)
        .unwrap_or(1)
}

// The least prime above 6 and above the last q with no divisor in common with p - 1.
pub(super) fn next_q(last: usize, p: usize) -> usize {
    let first = if last < 6 { 7 } else { plus(last, 1) };
    (first..300)
        .find(|q| prime(*q) && common(*q, minus(p, 1)) == 1)
        .unwrap_or(300)
}
