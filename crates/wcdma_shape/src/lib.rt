// The rectangle of a WCDMA block, 3GPP TS 25.212 4.2.3.2.3: R, p, C and v of its size, and the row order, each by its definition in specs/. A
// walk pays this once a call.
#![tactic(auto)]

mod tables;

ghost use Rattle.std.specs.Prelude.{◌≡◌};
ghost use Rattle.wcdma_shape.specs.Rectangle.{Size, within, rows, prime, cols};
ghost use Rattle.wcdma_shape.specs.Orders.{which_order, order_of, row_at};
ghost use Rattle.wcdma_shape.specs.Post.{ShapeOf, PlaceIn, PlaceOf, ColsIn, RowIn};

// K, R, p, C and v of a block.
#[derive(Clone, Copy)]
pub struct Shape {
    pub k: usize,
    pub r: usize,
    pub p: usize,
    pub c: usize,
    pub v: u32,
}

// R and C.
#[derive(Clone, Copy)]
pub struct Sides {
    pub r: usize,
    pub c: usize,
}

fn is_within(a: usize, b: usize, k: usize) -> bool
    ensures { result ≡ within a b k }
{
    a <= k && k <= b
}

// R.
fn rows_of(k: usize) -> usize
    requires { Size k }
    ensures { result ≡ rows k }
{
    if k < 160 {
        return 5;
    }
    if k < 201 {
        return 10;
    }
    if is_within(481, 530, k) {
        return 10;
    }
    20
}

// The place of p among the primes: K <= R * (p + 1) is (K - 1) / R <= p, so that the loop only compares.
fn prime_place(k: usize, r: usize, list: &[u16; 52]) -> usize
    requires { PlaceIn k r list.now }
    ensures { PlaceOf k result }
{
    if is_within(481, 530, k) {
        return 12;
    }
    let least = (k - 1) / r;
    for n in 0..51 {
        if least <= list[n] as usize {
            return n;
        }
    }
    51
}

// C.
fn cols_of(k: usize, r: usize, p: usize) -> usize
    requires { ColsIn k r p }
    ensures { result ≡ cols k }
{
    let own = is_within(481, 530, k);
    if own {
        return p;
    }
    if k <= r * (p - 1) {
        return p - 1;
    }
    if k <= r * p {
        return p;
    }
    p + 1
}

// p itself, for whoever asks for no place of it. (Were `prime_place` asked by two, it would be a function by itself, and a walk some twenty
// instructions dearer; were `shape_of`, as much.)
fn prime_of(k: usize, r: usize, list: &[u16; 52]) -> usize
    requires { PlaceIn k r list.now }
    ensures { result ≡ prime k }
{
    if is_within(481, 530, k) {
        return 53;
    }
    let least = (k - 1) / r;
    for n in 0..51 {
        let p = list[n] as usize;
        if least <= p {
            return p;
        }
    }
    257
}

// R and C alone, for whoever lays nothing out.
pub fn sides_of(k: usize) -> Sides
    requires { Size k }
    ensures { (result.r ≡ rows k) × (result.c ≡ cols k) }
{
    let r = rows_of(k);
    let list = tables::primes_table();
    let p = prime_of(k, r, &list);
    let c = cols_of(k, r, p);
    Sides { r, c }
}

pub fn shape_of(k: usize) -> Shape
    requires { Size k }
    ensures { (result.k ≡ k) × ShapeOf result }
{
    let r = rows_of(k);
    let list = tables::primes_table();
    let n = prime_place(k, r, &list);
    let p = list[n] as usize;
    let c = cols_of(k, r, p);
    let v = tables::root_at(n);
    Shape { k, r, p, c, v }
}

// Which of the two row orders of twenty rows a size has.
fn which_order(k: usize) -> usize
    ensures { result ≡ which_order k }
{
    if is_within(2281, 2480, k) {
        return 0;
    }
    if is_within(3161, 3210, k) {
        return 0;
    }
    1
}

pub fn order_of(k: usize) -> [u8; 20]
    ensures { result ≡ order_of k }
{
    tables::order_at(which_order(k))
}

// T(i), where order is the size's order of twenty rows.
pub fn row_at(k: usize, r: usize, order: &[u8; 20], i: usize) -> usize
    requires { RowIn k r i order.now }
    ensures { result ≡ row_at k i }
{
    if r < 20 { r - 1 - i } else { order[i] as usize }
}
