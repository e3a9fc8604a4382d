// The quadratic interleaver's addresses: the walk for L from any cell, and one address either way. A position's address and its difference to the next
// are worked out once a call, by products and remainders; from there on each step is two sums, of which each takes K off at most once. The
// public functions are leaf functions: the crate above them tests a set first, and makes its block.
#![tactic(auto)]

ghost use Rattle.std.specs.Prelude.{◌≡◌, List, ℕ, ◌+◌, ◌*◌, ◌%◌, ◌≤◌, ◌<◌, length};
ghost use Rattle.laws.specs.Lanes.{Ran};
ghost use Rattle.laws.specs.Walk.{LeafOf};
ghost use Rattle.quadratic.specs.Formula.{quadratic_l, quadratic_m, quadratic_rule};
ghost use Rattle.quadratic_walk.specs.Spot.{SpotAt, SpotIn, Walking, OneOn};

use laws::{Leaf, Went};
use quadratic::Quadratic;
use residues::{least, plus};

// Where a walk stands: the address, and how much more the next one is, modulo K.
#[derive(Clone, Copy)]
struct Spot {
    value: usize,
    delta: usize,
}

impl Spot {
    // At a position: by division, once a call.
    fn new(q: Quadratic, t: usize) -> Self
        requires { t ≤ q.k }
        ensures { SpotAt q.k q.f1 q.f2 t result }
    {
        Spot {
            value: (q.f1 * t + q.f2 * (t * t)) % q.k,
            delta: (q.f1 + q.f2 + 2 * q.f2 * t) % q.k,
        }
    }

    // One position on: the address by the difference, and the difference by 2·f2.
    fn next(self, k: usize, twice: usize) -> Self
        requires { SpotIn k twice self }
        ensures one_on { OneOn k twice self result }
        ensures spot_in { SpotIn k twice result }
    {
        let value = plus(k, self.value, self.delta);
        let delta = plus(k, self.delta, twice);
        Spot { value, delta }
    }
}

// What the difference grows by: 2·f2, modulo K.
fn twice_of(q: Quadratic) -> usize
    ensures { result ≡ 2 * q.f2 % q.k }
{
    2 * q.f2 % q.k
}

// Writes the addresses of two positions, from one on, at out[i] and out[i + 1]; gives back where it then stands.
fn write_two(k: usize, twice: usize, start: Spot, out: &mut [u16], i: usize) -> Spot
    requires { SpotIn k twice start × (i + 2 ≤ length out.old) }
    ensures { (f1 f2 cell count : ℕ) (old : List ℕ) → i + 2 ≤ count
        → Walking k f1 f2 cell count twice old out.old start i
        → Walking k f1 f2 cell count twice old out.new result (i + 2) }
{
    out[i] = start.value as u16;
    let second = start.next(k, twice);
    out[i + 1] = second.value as u16;
    second.next(k, twice)
}

// Writes on, one address at a time, up to out[count - 1]; gives back where it then stands.
fn write_rest(
    k: usize,
    twice: usize,
    start: Spot,
    out: &mut [u16],
    from: usize,
    count: usize,
) -> Spot
    requires { SpotIn k twice start × (from ≤ count) × (count ≤ length out.old) }
    ensures { (f1 f2 cell : ℕ) (old : List ℕ) → Walking k f1 f2 cell count twice old out.old start from
        → Walking k f1 f2 cell count twice old out.new result count }
{
    let mut at = start;
    for i in from..count {
        out[i] = at.value as u16;
        at = at.next(k, twice);
    }
    at
}

// Writes L from a cell on, as far as there is room and cells, four addresses at a time and then the rest; gives back how many.
fn write(q: Quadratic, cell: usize, out: &mut [u16]) -> usize
    requires { cell ≤ q.k }
    ensures { Ran (quadratic_l q.k q.f1 q.f2) q.k cell out.old out.new result }
{
    let count = least(out.len(), q.k - cell);
    let twice = twice_of(q);
    let mut at = Spot::new(q, cell);
    let mut i = 0;
    'fours: for _ in 0..count / 4 {
        at = write_two(q.k, twice, at, out, i);
        i += 2;
        at = write_two(q.k, twice, at, out, i);
        i += 2;
    }
    write_rest(q.k, twice, at, out, i, count);
    count
}

// The walk for L from a cell: 9 where it is past the total.
pub fn walk(q: Quadratic, cell: usize, out: &mut [u16]) -> Leaf
    ensures { LeafOf q.k (quadratic_rule q.k q.f1 q.f2) cell out.old out.new result }
{
    if cell > q.k {
        return Err(9);
    }
    let count = write(q, cell, out);
    Ok(Went {
        written: count,
        cells: count,
    })
}

// L(t), for t below K.
pub fn address_of(q: Quadratic, t: usize) -> usize
    requires { t < q.k }
    ensures { result ≡ quadratic_l q.k q.f1 q.f2 t }
{
    Spot::new(q, t).value
}

// M(a), the position whose address is a, by walking there.
pub fn place_of(q: Quadratic, a: usize) -> usize
    ensures { result ≡ quadratic_m q.k q.f1 q.f2 a }
{
    let twice = twice_of(q);
    let mut at = Spot::new(q, 0);
    for t in 0..q.k {
        if at.value == a {
            return t;
        }
        at = at.next(q.k, twice);
    }
    q.k
}
