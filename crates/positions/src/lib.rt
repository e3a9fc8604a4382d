// One position, which holds the running sum of the values that it received and how many they are: what one reception makes of it, and whether it may.
// Zero is a value like any other: whether there is one is said by the presence byte and by the count alone.
#![tactic(auto)]

ghost use Rattle.std.specs.Prelude.{◌≡◌, eqb, ltb, set};
ghost use Rattle.std.specs.Float.Ieee.Scale.{finite};
ghost use Rattle.positions.specs.Heard.{running, kept, held, heard, sum_after, spoils, count_after, Hears};

// What a position holds: the running sum of the values that it received, and how many they are.
#[derive(Clone, Copy)]
pub struct Running {
    pub sum: f32,
    pub count: u16,
}

// Whether a position is a blank: nothing was received there.
pub fn is_blank(held: Running) -> bool
    ensures { result ≡ eqb held.count 0 }
{
    held.count == 0
}

// Neither an infinity nor not-a-number. By hand: std's `is_finite` compares with 0.0, an instruction more for each value that is judged.
fn is_finite(x: f32) -> bool
    ensures { result ≡ finite x }
{
    let d = x - x;
    d == d
}

// The sum of a position after a present value: the first is stored as it is, a later one is added with one rounding.
fn sum_after(v: f32, sum: f32, count: u16) -> f32
    ensures { result ≡ sum_after v (running sum count) }
{
    if count == 0 {
        return v;
    }
    sum + v
}

// 13 at a position: a present value, a stored sum whose count isn't 0, or the sum of these two isn't finite. (A sum of two is finite only where
// both are.)
pub fn is_spoiled(p: u8, v: f32, sum: f32, count: u16) -> bool
    ensures { result ≡ spoils p v (running sum count) }
{
    if p == 1 {
        return !is_finite(sum_after(v, sum, count));
    }
    if count == 0 {
        return false;
    }
    !is_finite(sum)
}

// 15 at a position: its count would pass 65,535.
pub fn is_full(p: u8, count: u16) -> bool
    ensures { result ≡ ltb 65535 (count_after p count) }
{
    (p == 1) & (count == 65535)
}

// One reception at position a. A blank changes nothing.
pub fn hear(p: u8, v: f32, a: usize, sums: &mut [f32], counts: &mut [u16])
    requires { Hears p v a (kept sums.old counts.old) }
    ensures sums_after { sums.new
        ≡ set sums.old a (heard p v (held (kept sums.old counts.old) a)).sum }
    ensures counts_after { counts.new
        ≡ set counts.old a (heard p v (held (kept sums.old counts.old) a)).count }
{
    if p != 1 {
        return;
    }
    let count = counts[a];
    sums[a] = sum_after(v, sums[a], count);
    counts[a] = count + 1;
}
