// The quadratic interleaver of LTE, 3GPP TS 36.212 5.1.3.2.3: the formula, in specs, and the tests of f1 and f2. Whether two positions would share an
// address is decided by a greatest common divisor and a power, and no position is tried. An inner crate: the test of a set shows what is required.
#![tactic(auto)]

ghost use Rattle.std.specs.Prelude.{◌≡◌, ◌*◌, ◌%◌, ◌^◌, ◌<◌};
ghost use Rattle.quadratic.specs.Formula.{within, all_apart};
ghost use Rattle.quadratic.specs.Whole.{Whole};

use residues::gcd_of;

// The numbers of a block: K, how many positions it has, and f1 and f2. K is below 2 to the 16th, and f1 and f2 are below K.
#[derive(Clone, Copy)]
pub struct Quadratic {
    pub k: usize,
    pub f1: usize,
    pub f2: usize,
    ghost whole: { Whole k f1 f2 },
}

fn square(k: u32, x: u32) -> u32
    requires { (0 < k) × (k < 65536) × (x < k) }
    ensures { (result ≡ x * x % k) × (result < k) }
{
    x * x % k
}

// The 16th power modulo k: four squarings.
fn sixteenth(k: u32, f: u32) -> u32
    requires { (0 < k) × (k < 65536) × (f < k) }
    ensures { result ≡ f ^ 16 % k }
{
    let second = square(k, f);
    let fourth = square(k, second);
    let eighth = square(k, fourth);
    square(k, eighth)
}

// Whether a factor is from 1 to k - 1.
pub fn is_within(k: u32, f: u32) -> bool
    ensures { result ≡ within k f }
{
    (0 < f) & (f < k)
}

// Whether no two positions of a block share an address.
pub fn all_apart(k: u32, f1: u32, f2: u32) -> bool
    requires { (0 < k) × (k < 65536) × (f2 < k) }
    ensures { result ≡ all_apart k f1 f2 }
{
    if gcd_of(k, f1) != 1 {
        return false;
    }
    sixteenth(k, f2) == 0
}
