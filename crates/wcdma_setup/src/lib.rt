// The numbers q of a WCDMA block's rectangle, 3GPP TS 25.212 4.2.3.2.3 (specs/Numbers.antt). A walk pays this once a call.
#![tactic(auto)]

ghost use Rattle.wcdma_setup.specs.Post.{Sought, NextOf, NumbersIn, NumbersAre};

use residues::gcd_of;
use wcdma_shape::Shape;

// The least prime above 6 and above last, which is odd and 5 or more, that has no common divisor with m; there is one, and by 89. An even number is
// no candidate, and an odd one is a prime where no odd number up to its root divides it.
fn next_q(m: u32, last: u32) -> u32
    requires { Sought m last }
    ensures { NextOf m last result }
{
    // (A search with no end known beforehand: how far it goes, `requires` says. Nor are the divisors counted: their squares are.)
    let mut q = last;
    let found = 'candidates: loop {
        q += 2;
        let mut d = 3;
        while d * d <= q {
            if q % d == 0 {
                continue 'candidates;
            }
            d += 2;
        }
        if gcd_of(m, q) == 1 {
            break 'candidates q;
        }
    };
    found
}

// The numbers q of the rows of a shape. What comes after q(0), which is 1, is what comes after 5.
pub fn find_numbers(shape: Shape, q: &mut [u32; 20])
    requires { NumbersIn shape q.old }
    ensures { NumbersAre shape.k q.new }
{
    let m = (shape.p - 1) as u32;
    q[0] = 1;
    let mut last = 5;
    for i in 1..shape.r {
        last = next_q(m, last);
        q[i] = last;
    }
}
