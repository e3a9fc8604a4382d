// The couples of the convolutional turbo code of IEEE 802.16: the formula, in specs, and the tests of its four numbers. Whether two outputs would share
// a couple is decided by a greatest common divisor and four remainders, and no output is tried. An inner crate: the test of a set shows what is required.
#![tactic(auto)]

ghost use Rattle.std.specs.Prelude.{◌≡◌, ◌<◌};
ghost use Rattle.couples.specs.Formula.{offset, turn, differ, turns_differ, all_below, all_apart};
ghost use Rattle.couples.specs.Test.{Numbered};

use residues::gcd_of;

// The numbers of a block: N, how many couples it has, and P0 to P3.
#[derive(Clone, Copy)]
pub struct Couples {
    pub n: u32,
    pub p0: u32,
    pub p1: u32,
    pub p2: u32,
    pub p3: u32,
}

// Q, for b = j mod 4.
pub fn offset_of(couples: Couples, b: u32) -> u32
    requires { Numbered couples }
    ensures { (result ≡ offset couples b) × (result < 65536) }
{
    if b == 0 {
        return 1;
    }
    if b == 1 {
        return 1 + couples.n / 2 + couples.p1;
    }
    if b == 2 {
        return 1 + couples.p2;
    }
    1 + couples.n / 2 + couples.p3
}

// P0·b + Q(b), modulo 4.
fn turn_of(couples: Couples, b: u32) -> u32
    requires { Numbered couples × (b < 4) }
    ensures { result ≡ turn couples.p0 (offset couples) b }
{
    (couples.p0 * b + offset_of(couples, b)) % 4
}

// Whether four numbers are different.
fn all_differ(w: u32, x: u32, y: u32, z: u32) -> bool
    ensures { result ≡ differ w x y z }
{
    (w != x) & ((w != y) & ((w != z) & ((x != y) & ((x != z) & (y != z)))))
}

fn turns_differ(couples: Couples) -> bool
    requires { Numbered couples }
    ensures { result ≡ turns_differ couples }
{
    all_differ(
        turn_of(couples, 0),
        turn_of(couples, 1),
        turn_of(couples, 2),
        turn_of(couples, 3),
    )
}

// Whether each of the four numbers is below N.
pub fn all_below(couples: Couples) -> bool
    ensures { result ≡ all_below couples }
{
    let n = couples.n;
    (couples.p0 < n) & ((couples.p1 < n) & ((couples.p2 < n) & (couples.p3 < n)))
}

// Whether no two outputs share a couple.
pub fn all_apart(couples: Couples) -> bool
    requires { Numbered couples }
    ensures { result ≡ all_apart couples }
{
    if gcd_of(couples.n / 4, couples.p0) != 1 {
        return false;
    }
    turns_differ(couples)
}
