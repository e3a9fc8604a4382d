// The carrier interleaver of a spatial stream: the first two steps as carrier_rows and carrier_columns walk them, and turned. L is the walk for L of
// the two steps from the cell that lies the turn ahead, in two pieces where it passes N, since there it begins again at 0. M is the walk for M of
// the two steps, and a pass over what it wrote that takes the turn off. A walk divides when it is set up, and never after. The public
// functions are leaf functions: the crate above them tests a set first, and makes its block.
#![tactic(auto)]

mod stream;

ghost use Rattle.std.specs.Prelude.{◌≡◌, ℕ, ◌+◌, ◌≤◌, ◌<◌, map};
ghost use Rattle.laws.specs.Lanes.{Ran};
ghost use Rattle.laws.specs.Walk.{LeafOf, back};
ghost use Rattle.carrier_turned.specs.Turned.{turned_l, turned_m, rule_by, TakenOff, off};

use carrier::{Carrier, turn_of};
use laws::{Leaf, Went};
use residues::least;
pub use stream::Stream;

// Writes L from a cell on, as far as there is room and cells; gives back how many. seam is the cell that holds what the two steps have at 0.
fn write_l(b: Carrier, v: usize, cell: usize, out: &mut [u16]) -> usize
    requires { (v < b.n) × (cell ≤ b.n) }
    ensures { Ran (turned_l b.d b.n b.s v) b.n cell out.old out.new result }
{
    let count = least(out.len(), b.n - cell);
    let seam = b.n - v;
    if cell < seam {
        let first = carrier_rows::write(b, cell + v, out);
        if first < count {
            carrier_rows::write(b, 0, &mut out[first..count]);
        }
        return count;
    }
    carrier_rows::write(b, cell - seam, &mut out[..count]);
    count
}

// An address less the turn, modulo N, which is down and up together: by comparing and adding.
fn less(down: u16, up: u16, a: u16) -> u16
    requires { down + up < 65536 }
    ensures { (n : ℕ) → n ≡ down + up → down < n → a < n → result ≡ off n down a }
{
    if a < down {
        return a + up;
    }
    a - down
}

// Takes the turn off each address.
fn take_off(n: usize, v: usize, out: &mut [u16])
    requires { TakenOff n v out.old }
    ensures { out.new ≡ map (off n v) out.old }
{
    let down = v as u16;
    let up = (n - v) as u16;
    for a in out.iter_mut() {
        *a = less(down, up, *a);
    }
}

// Writes M from a cell on, as far as there is room and cells; gives back how many.
fn write_m(b: Carrier, v: usize, cell: usize, out: &mut [u16]) -> usize
    requires { (v < b.n) × (cell ≤ b.n) }
    ensures { Ran (turned_m b.d b.n b.s v) b.n cell out.old out.new result }
{
    let count = carrier_columns::write(b, cell, out);
    take_off(b.n, v, &mut out[..count]);
    count
}

// The walk for L from any cell: 9 past the last, else what is written, and a cell for each address.
pub fn walk_l(b: Stream, cell: usize, out: &mut [u16]) -> Leaf
    ensures { LeafOf b.steps.n (rule_by b) cell out.old out.new result }
{
    if b.steps.n < cell {
        return Err(9);
    }
    let v = turn_of(b.bits, b.r, b.stream);
    let count = write_l(b.steps, v, cell, out);
    Ok(Went {
        written: count,
        cells: count,
    })
}

// The walk for M from any cell, likewise.
pub fn walk_m(b: Stream, cell: usize, out: &mut [u16]) -> Leaf
    ensures { LeafOf b.steps.n (back b.steps.n (rule_by b)) cell out.old out.new result }
{
    if b.steps.n < cell {
        return Err(9);
    }
    let v = turn_of(b.bits, b.r, b.stream);
    let count = write_m(b.steps, v, cell, out);
    Ok(Went {
        written: count,
        cells: count,
    })
}

// L(t), for t below N.
pub fn one_l(b: Stream, t: usize) -> usize
    requires { t < b.steps.n }
    ensures { result ≡ (rule_by b).l t }
{
    let v = turn_of(b.bits, b.r, b.stream);
    let seam = b.steps.n - v;
    if t < seam {
        return carrier_rows::address(b.steps, t + v);
    }
    carrier_rows::address(b.steps, t - seam)
}

// M(k), for k below N.
pub fn one_m(b: Stream, k: usize) -> usize
    requires { k < b.steps.n }
    ensures { result ≡ (rule_by b).m k }
{
    let v = turn_of(b.bits, b.r, b.stream);
    let a = carrier_columns::address(b.steps, k);
    if a < v {
        return a + (b.steps.n - v);
    }
    a - v
}
