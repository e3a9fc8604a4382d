// Arithmetic that several interleavers need to set themselves up or to step: the greatest common divisor, the lesser of two numbers, and a sum
// modulo k. (laws has the mathematics: specs/Euclid.antt.)
#![tactic(auto)]

ghost use Rattle.std.specs.Prelude.{◌≡◌, ◌+◌, ◌%◌, ◌<◌, min};
ghost use Rattle.laws.specs.Euclid.{gcd};

// The greatest common divisor, by Euclid: the second number falls.
pub fn gcd_of(a: u32, b: u32) -> u32
    ensures { result ≡ gcd a b }
{
    if b == 0 { a } else { gcd_of(b, a % b) }
}

pub fn least(a: usize, b: usize) -> usize
    ensures { result ≡ min a b }
{
    a.min(b)
}

// Of two numbers below this, a difference that wraps round below 0 is at least this.
const WRAPPED: usize = 9223372036854775808;

// The sum of two numbers below k, modulo k, with no division: k is taken off, and where that wraps round the sum stands. So the
// subtraction is its own test, and in machine code the choice is no jump.
pub fn plus(k: usize, a: usize, b: usize) -> usize
    requires { (a < k) × (b < k) × (k < 65536) }
    ensures { result ≡ (a + b) % k }
{
    let sum = a + b;
    let less = std::num::wrapping_sub_usize(sum, k);
    if less < WRAPPED { less } else { sum }
}
