// The rows of the rectangle, laid out for a walk. This divides; a walk pays it once.
#![tactic(auto)]

ghost use Rattle.std.specs.Prelude.{◌≡◌, ◌*◌, ◌%◌, ◌<◌, ◌≤◌};
ghost use Rattle.wcdma.specs.Laid.{next_col, Exponents, Rows};
ghost use Rattle.wcdma_rows.specs.Post.{LayIn};

use wcdma_shape::Shape;

// The exponent of row x where the walk starts at row i of column j.
fn first_exponent(i: usize, j: u32, x: usize, step: u32, m: u32) -> u32
    requires { (j ≤ 300) × (step < m) × (m < 257) }
    ensures { result ≡ next_col i j x * step % m }
{
    if x < i {
        (j + 1) * step % m
    } else {
        j * step % m
    }
}

// The rows: where each begins, by how much its exponent falls from column to column, and its exponent at row i of column j.
pub fn lay_out(
    shape: Shape,
    q: &[u32; 20],
    i: usize,
    j: u32,
    base: &mut [usize; 20],
    fall: &mut [usize; 20],
    at: &mut [usize; 20],
)
    requires { LayIn shape q.now j base.old fall.old at.old }
    ensures { Rows shape.k base.new fall.new × Exponents shape.k i j at.new }
{
    let k = shape.k;
    let r = shape.r;
    let c = shape.c;
    let m = (shape.p - 1) as u32;
    let order = wcdma_shape::order_of(k);
    for x in 0..r {
        let t = wcdma_shape::row_at(k, r, &order, x);
        let step = q[x] % m;
        base[x] = t * c;
        fall[x] = (m - step) as usize;
        at[x] = first_exponent(i, j, x, step, m) as usize;
    }
}
