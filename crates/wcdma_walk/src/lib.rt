// The WCDMA turbo interleaver, profile 5: the walk over the cells of a block, and one address either way. The set-up divides; the walk adds,
// compares and reads tables.
#![tactic(auto)]

ghost use Rattle.std.specs.Prelude.{◌≡◌, ◌<◌};
ghost use Rattle.laws.specs.Position.{position};
ghost use Rattle.laws.specs.Walk.{LeafOf};
ghost use Rattle.wcdma_shape.specs.Rectangle.{Size};
ghost use Rattle.wcdma.specs.Turbo.{turbo_l, turbo_m, turbo_rule};
ghost use Rattle.wcdma_cells.specs.Post.{WentOf};
ghost use Rattle.wcdma_walk.specs.Post.{ByIn};

use laws::Leaf;
use wcdma_shape::Shape;

// The walk of a shape: the numbers q, S and the rows are laid out, the slice is filled, and in a full rectangle the two addresses are exchanged.
fn walk_by(shape: Shape, cell: usize, out: &mut [u16]) -> Leaf
    requires { ByIn shape cell }
    ensures { WentOf shape.k (turbo_rule shape.k) cell out.old out.new result }
{
    let r = shape.r;
    let p = shape.p;
    let mut q = [0u32; 20];
    wcdma_setup::find_numbers(shape, &mut q);
    let less = wcdma_powers::short_by(shape.c, p);
    let mut s = [0u16; 256];
    wcdma_powers::powers(p as u32, shape.v, less, &mut s);
    let full = wcdma_full::is_full(shape);
    let row = cell % r;
    let column = cell / r;
    let mut base = [0usize; 20];
    let mut fall = [0usize; 20];
    let mut e = [0usize; 20];
    wcdma_rows::lay_out(shape, &q, row, column as u32, &mut base, &mut fall, &mut e);
    let went = wcdma_cells::fill(shape, cell, row, column, &s, &base, &fall, &mut e, out);
    wcdma_full::exchange(shape, full, cell, out);
    went
}

// The walk from any cell into the slice: it stops right after the slice is full, or at the cell total. 9 past the total.
pub fn walk(k: usize, cell: usize, out: &mut [u16]) -> Leaf
    requires { Size k }
    ensures { LeafOf k (turbo_rule k) cell out.old out.new result }
{
    let shape = wcdma_shape::shape_of(k);
    let total = shape.r * shape.c;
    if total < cell {
        return Err(9);
    }
    walk_by(shape, cell, out)
}

// L at a position, by walking there.
pub fn address_of(k: usize, t: usize) -> usize
    requires { Size k × (t < k) }
    ensures { result ≡ turbo_l k t }
{
    let mut table = [0u16; 5114];
    let _ = walk(k, 0, &mut table[..t + 1]);
    table[t] as usize
}

// The first place of an address in a list.
fn find(list: &[u16], a: usize) -> usize
    ensures { result ≡ position a list.now }
{
    for (i, &address) in list.iter().enumerate() {
        if address as usize == a {
            return i;
        }
    }
    list.len()
}

// M at a position, by its place in the whole list.
pub fn place_of(k: usize, a: usize) -> usize
    requires { Size k }
    ensures { result ≡ turbo_m k a }
{
    let mut table = [0u16; 5114];
    let _ = walk(k, 0, &mut table);
    find(&table[..k], a)
}
