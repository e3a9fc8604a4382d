// The powers S of a WCDMA block's rectangle, 3GPP TS 25.212 4.2.3.2.3 (defined in crate wcdma_shape, specs/Powers.antt). A walk pays this once a call.
#![tactic(auto)]

ghost use Rattle.std.specs.Prelude.{◌≡◌, ℕ, ◌*◌, ◌-◌, ◌%◌, ◌<◌, get_or};
ghost use Rattle.wcdma_shape.specs.Powers.{power};
ghost use Rattle.wcdma_powers.specs.Post.{short_by, StepIn, HalfIn, HalvesOf, PowersIn};

use residues::plus;

// v times last, modulo p, with no product: sums modulo p of last and of its multiples before it, as in source 002, by a shortest chain for each
// v: 2; 2, 3; 2, 3, 5; 2, 3, 6; 2, 3, 6, 7; 2, 3, 6, 7, 12, 19. Asked by its order, v is mostly asked before the loop over the powers, by the
// compiler, and not at each.
fn times(p: usize, v: u32, last: usize) -> usize
    requires { StepIn p v last }
    ensures { result ≡ v * last % p }
{
    let two = plus(p, last, last);
    if v < 3 {
        return two;
    }
    let three = plus(p, two, last);
    if v < 5 {
        return three;
    }
    if v < 6 {
        return plus(p, three, two);
    }
    let six = plus(p, three, three);
    if v < 7 {
        return six;
    }
    let seven = plus(p, six, last);
    if v < 19 {
        return seven;
    }
    let twelve = plus(p, six, six);
    plus(p, twelve, seven)
}

// The next power from the last.
fn next_power(p: u32, v: u32, last: u32) -> u32
    requires { StepIn p v last }
    ensures { result ≡ v * last % p }
{
    times(p as usize, v, last as usize) as u32
}

// What is taken off a power: 1 where C = p - 1, else 0.
pub fn short_by(c: usize, p: usize) -> u32
    requires { 0 < p }
    ensures { result ≡ short_by c p }
{
    if c == p - 1 { 1 } else { 0 }
}

// The second half of the powers: each of the first, taken from top.
fn second_half(top: usize, half: usize, s: &mut [u16; 256])
    requires { HalfIn top half s.old }
    ensures { HalvesOf top half half s.old s.new }
{
    for x in 0..half {
        s[half + x] = (top - s[x] as usize) as u16;
    }
}

// S(x), less 1 where C = p - 1; x below p - 1. Halfway S is p - 1, and from there on p less what it was, so half of it is stepped.
pub fn powers(p: u32, v: u32, less: u32, s: &mut [u16; 256])
    requires { PowersIn p v less s.old }
    ensures { (x : ℕ) → x < p - 1 → get_or s.new x 0 ≡ power p v x - less }
{
    let half = ((p - 1) / 2) as usize;
    let mut last = 1;
    for x in 0..half {
        s[x] = (last - less) as u16;
        last = next_power(p, v, last);
    }
    second_half((p - less - less) as usize, half, s);
}
