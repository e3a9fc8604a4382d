// The walk over the cells: additions, comparisons and table reads.
#![tactic(auto)]

ghost use Rattle.std.specs.Prelude.{◌≡◌, ◌+◌, ◌-◌, ◌%◌, ◌<◌, ◌≤◌};
ghost use Rattle.wcdma.specs.Laid.{plain_rule};
ghost use Rattle.wcdma_cells.specs.Post.{entry_at, CellIn, CellOf, ColumnIn, ColumnOf, FillIn, WentOf};

use laws::{Leaf, Went};
use wcdma_shape::Shape;

// U(j), where s is what the table has for it.
fn entry_at(p: usize, s: usize, j: usize) -> usize
    requires { 0 < p }
    ensures { result ≡ entry_at p s j }
{
    if j < p - 1 {
        return s;
    }
    if j == p - 1 {
        return 0;
    }
    p
}

// The next exponent, m - fall more modulo m: stepped down by fall, since a borrow is cheaper to test than a sum that passes m.
fn next_exponent(e: usize, fall: usize, m: usize) -> usize
    requires { (e < m) × (0 < fall) × (fall ≤ m) × (m < 257) }
    ensures { result ≡ (e + (m - fall)) % m }
{
    if e < fall { e + m - fall } else { e - fall }
}

// One cell, row i of column j: how many addresses are written after it.
fn one_cell(
    shape: Shape,
    i: usize,
    j: usize,
    s: &[u16; 256],
    base: &[usize; 20],
    fall: &[usize; 20],
    e: &mut [usize; 20],
    out: &mut [u16],
    n: usize,
) -> usize
    requires { CellIn shape i j n s.now base.now fall.now e.old out.old }
    ensures { CellOf shape.k i j n e.new out.old out.new result }
{
    let k = shape.k;
    let p = shape.p;
    let x = e[i];
    let u = entry_at(p, s[x] as usize, j);
    let a = base[i] + u;
    e[i] = next_exponent(x, fall[i], p - 1);
    if a < k {
        out[n] = a as u16;
        return n + 1;
    }
    n
}

// A whole column j, with room for all of it.
fn one_column(
    shape: Shape,
    j: usize,
    s: &[u16; 256],
    base: &[usize; 20],
    fall: &[usize; 20],
    e: &mut [usize; 20],
    out: &mut [u16],
    n: usize,
) -> usize
    requires { ColumnIn shape j n s.now base.now fall.now e.old out.old }
    ensures { ColumnOf shape.k j n e.new out.old out.new result }
{
    let r = shape.r;
    let mut w = n;
    for i in 0..r {
        w = one_cell(shape, i, j, s, base, fall, e, out, w);
    }
    w
}

// The loop of the walk, from row i of column j: a column at a time where there is room for one, else a cell. (No count of an index: row, column and
// how many are written go on together, and it stops where the room is full.)
pub fn fill(
    shape: Shape,
    cell: usize,
    row: usize,
    column: usize,
    s: &[u16; 256],
    base: &[usize; 20],
    fall: &[usize; 20],
    e: &mut [usize; 20],
    out: &mut [u16],
) -> Leaf
    requires { FillIn shape cell row column s.now base.now fall.now e.old }
    ensures { WentOf shape.k (plain_rule shape.k) cell out.old out.new result }
{
    let r = shape.r;
    let c = shape.c;
    let mut i = row;
    let mut j = column;
    let mut n = 0;
    while j < c {
        let room = out.len() - n;
        if (i == 0) & (r <= room) {
            n = one_column(shape, j, s, base, fall, e, out, n);
            j += 1;
        } else {
            if room == 0 {
                break;
            }
            n = one_cell(shape, i, j, s, base, fall, e, out, n);
            i += 1;
            if i == r {
                i = 0;
                j += 1;
            }
        }
    }
    let here = j * r + i;
    let seen = here - cell;
    Ok(Went {
        written: n,
        cells: seen,
    })
}
