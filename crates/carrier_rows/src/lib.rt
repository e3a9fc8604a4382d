// L: one address, and the walk, a row of the output at a time. The walk divides when it is set up and never after. The
// public functions are leaf functions: the crate above them tests a set first, and makes its block.
#![tactic(auto)]

ghost use Rattle.std.specs.Prelude.{◌≡◌, ℕ, ◌+◌, ◌-◌, ◌*◌, ◌/◌, ◌%◌, ◌≤◌, ◌<◌};
ghost use Rattle.laws.specs.Sized.{Sized};
ghost use Rattle.laws.specs.Lanes.{Ran};
ghost use Rattle.laws.specs.Walk.{LeafOf};
ghost use Rattle.carrier.specs.Formula.{carrier_l, carrier_rule};
ghost use Rattle.carrier_rows.specs.Row.{RowAt, RowIn, RowStep};
ghost use Rattle.carrier_rows.specs.Along.{AlongIn, Along};

use carrier::Carrier;
use laws::{Leaf, Went};
use residues::least;

// The turn's part of the address at the next column: d more, or 0 after the last.
fn lift_up(lift: usize, d: usize, top: usize) -> usize
    requires { (lift < 65536) × (d < 65536) }
    ensures { (s turn : ℕ) → 0 < d → turn < s → lift ≡ d * turn → top ≡ d * (s - 1)
        → result ≡ d * ((turn + 1) % s) }
{
    if lift == top { 0 } else { lift + d }
}

// Where the walk for L stands in a row. Its address is base + lift: base without the turn, low the column's place in its group of s, lift
// the turned place times d.
#[derive(Clone, Copy)]
struct RowSpot {
    base: usize,
    low: usize,
    lift: usize,
}

impl RowSpot {
    // At a column of a row: by division, once a call.
    fn new(b: Carrier, row: usize, col: usize) -> Self
        requires { RowIn b.d b.s row col }
        ensures { RowAt b.d b.s row col result }
    {
        let low = col % b.s;
        let turn = (col + row) % b.s;
        RowSpot {
            base: b.d * (col - low) + row,
            low,
            lift: b.d * turn,
        }
    }

    fn address(self) -> usize
        requires { self.base + self.lift < 65536 }
        ensures { result ≡ self.base + self.lift }
    {
        self.base + self.lift
    }

    // One column on: the turn goes up by one, and after the last of a group the next group begins.
    fn next(self, b: Carrier, top: usize, group: usize) -> Self
        requires { RowStep b.d b.s top group self }
        ensures { (row col : ℕ) → RowAt b.d b.s row col self → RowAt b.d b.s row (col + 1) result }
    {
        let base = self.base;
        let low = self.low;
        let lift = lift_up(self.lift, b.d, top);
        if low == b.s - 1 {
            return RowSpot {
                base: base + group,
                low: 0,
                lift,
            };
        }
        RowSpot {
            base,
            low: low + 1,
            lift,
        }
    }

    // From the end of a row to the first column of the next.
    fn next_row(self, b: Carrier, top: usize, row: usize) -> Self
        requires { (self.lift < 65536) × (row < 65536) }
        ensures { Sized b.d b.n b.s → top ≡ b.d * (b.s - 1) → RowAt b.d b.s row (b.n / b.d) self
            → RowAt b.d b.s (row + 1) 0 result }
    {
        let lift = lift_up(self.lift, b.d, top);
        RowSpot {
            base: row + 1,
            low: 0,
            lift,
        }
    }
}

// The part of a row where s is 1: nothing is turned, and an address is d more than the one before. (A loop by itself, so that the compiler can
// write several at once.)
fn straight(
    b: Carrier,
    row: usize,
    col: usize,
    start: RowSpot,
    out: &mut [u16],
    from: usize,
    stop: usize,
) -> RowSpot
    requires { AlongIn b.d b.n 1 0 b.d row col start from stop out.old }
    ensures { Along b.d b.n 1 row col from stop out.old out.new result stop }
{
    let mut a = start.base;
    for i in from..stop {
        out[i] = a as u16;
        a += b.d;
    }
    RowSpot {
        base: a,
        low: 0,
        lift: 0,
    }
}

// Writes L of a row's columns from col on, at out[from] to out[stop - 1], and gives back where it then stands. N, row and col are there for
// what is promised.
fn along(
    b: Carrier,
    top: usize,
    group: usize,
    row: usize,
    col: usize,
    start: RowSpot,
    out: &mut [u16],
    from: usize,
    stop: usize,
) -> RowSpot
    requires { AlongIn b.d b.n b.s top group row col start from stop out.old }
    ensures { Along b.d b.n b.s row col from stop out.old out.new result stop }
{
    if b.s == 1 {
        return straight(b, row, col, start, out, from, stop);
    }
    let mut at = start;
    for i in from..stop {
        out[i] = at.address() as u16;
        at = at.next(b, top, group);
    }
    at
}

// L(t), for t below N.
pub fn address(b: Carrier, t: usize) -> usize
    requires { t < b.n }
    ensures { result ≡ carrier_l b.d b.n b.s t }
{
    let c = b.n / b.d;
    let row = t / c;
    let col = t % c;
    RowSpot::new(b, row, col).address()
}

// Writes L from a cell on, as far as there is room and cells; gives back how many. stop is where the row ends, or the room. N and the
// cell are divided in 32 bits, which they fit; in 64 that takes longer, or the compiled code asks first whether 32 would do. (The loop counts no
// index: a pass goes on to stop, and i, row, col and the spot all go there at once.)
pub fn write(b: Carrier, cell: usize, out: &mut [u16]) -> usize
    requires { cell ≤ b.n }
    ensures { Ran (carrier_l b.d b.n b.s) b.n cell out.old out.new result }
{
    let count = least(out.len(), b.n - cell);
    let c = (b.n as u32 / b.d as u32) as usize;
    let top = b.d * (b.s - 1);
    let group = b.d * b.s;
    let mut row = (cell as u32 / c as u32) as usize;
    let mut col = (cell as u32 % c as u32) as usize;
    let mut stop = least(count, c - col);
    let mut at = RowSpot::new(b, row, col);
    let mut i = 0;
    while i < count {
        let end = along(b, top, group, row, col, at, out, i, stop);
        at = end.next_row(b, top, row);
        row += 1;
        col = 0;
        i = stop;
        stop = least(count, i + c);
    }
    count
}

// The walk for L from any cell: 9 past the last, else what is written, and a cell for each address. With no room nothing is set up.
pub fn walk(b: Carrier, cell: usize, out: &mut [u16]) -> Leaf
    ensures { LeafOf b.n (carrier_rule b.d b.n b.s) cell out.old out.new result }
{
    if b.n < cell {
        return Err(9);
    }
    if out.len() == 0 {
        return Ok(Went {
            written: 0,
            cells: 0,
        });
    }
    let count = write(b, cell, out);
    Ok(Went {
        written: count,
        cells: count,
    })
}
