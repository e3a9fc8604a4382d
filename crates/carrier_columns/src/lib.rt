// M: one address, and the walk, a column of the input at a time. The walk divides when it is set up and never after. The
// public functions are leaf functions: the crate above them tests a set first, and makes its block.
#![tactic(auto)]

ghost use Rattle.std.specs.Prelude.{◌≡◌, ℕ, ◌+◌, ◌/◌, ◌%◌, ◌≤◌, ◌<◌};
ghost use Rattle.laws.specs.Sized.{Sized};
ghost use Rattle.laws.specs.Lanes.{Ran};
ghost use Rattle.laws.specs.Walk.{back, LeafOf};
ghost use Rattle.carrier.specs.Formula.{carrier_m, carrier_rule};
ghost use Rattle.carrier_columns.specs.Column.{ColumnAt, ColumnIn, ColumnStep};
ghost use Rattle.carrier_columns.specs.Down.{DownIn, Down};

use carrier::Carrier;
use laws::{Leaf, Went};
use residues::least;

// The turned place one row on: one less, modulo s.
fn down_by_one(turn: usize, s: usize) -> usize
    requires { 0 < s }
    ensures { (x : ℕ) → turn ≡ (x + 1) % s → result ≡ x % s }
{
    if turn == 0 { s - 1 } else { turn - 1 }
}

// The place in a group one column on: one more, modulo s.
fn up_by_one(low: usize, s: usize) -> usize
    requires { (0 < s) × (low < s) }
    ensures { (x : ℕ) → low ≡ x % s → result ≡ (x + 1) % s }
{
    if low + 1 == s { 0 } else { low + 1 }
}

// Where the walk for M stands in a column. Its address is base + turn: base without the turn, low the column's place in its group of s,
// turn the turned place.
#[derive(Clone, Copy)]
struct ColumnSpot {
    base: usize,
    low: usize,
    turn: usize,
}

impl ColumnSpot {
    // At a row of a column: by division, once a call. c is N/d.
    fn new(b: Carrier, c: usize, col: usize, row: usize) -> Self
        requires { ColumnIn c b.n b.s col row }
        ensures { ColumnAt c b.n b.s col row result }
    {
        let low = col % b.s;
        let turn = (col + b.n - row) % b.s;
        ColumnSpot {
            base: c * row + (col - low),
            low,
            turn,
        }
    }

    fn address(self) -> usize
        requires { self.base + self.turn < 65536 }
        ensures { result ≡ self.base + self.turn }
    {
        self.base + self.turn
    }

    // One row on.
    fn next(self, c: usize, s: usize) -> Self
        requires { ColumnStep c s self }
        ensures { (n col row : ℕ) → row < n → ColumnAt c n s col row self → ColumnAt c n s col (row + 1) result }
    {
        let base = self.base + c;
        let low = self.low;
        let turn = down_by_one(self.turn, s);
        ColumnSpot { base, low, turn }
    }

    // From a column to the first row of the next.
    fn next_column(self, s: usize, col: usize) -> Self
        requires { (0 < s) × (self.low ≡ col % s) × (col < 65536) }
        ensures { (d n : ℕ) → Sized d n s → ColumnAt (n / d) n s (col + 1) 0 result }
    {
        let low = up_by_one(self.low, s);
        ColumnSpot {
            base: col + 1 - low,
            low,
            turn: low,
        }
    }
}

// Writes M of a column's rows from row on, at out[from] to out[stop - 1], and gives back where it then stands. d, N, col and row are there
// for what is promised; c is N/d.
fn down(
    b: Carrier,
    c: usize,
    col: usize,
    row: usize,
    start: ColumnSpot,
    out: &mut [u16],
    from: usize,
    stop: usize,
) -> ColumnSpot
    requires { DownIn b.d b.n b.s c col row start from stop out.old }
    ensures { Down b.d b.n b.s col row from stop out.old out.new result stop }
{
    let mut at = start;
    for i in from..stop {
        out[i] = at.address() as u16;
        at = at.next(c, b.s);
    }
    at
}

// M(k), for k below N.
pub fn address(b: Carrier, k: usize) -> usize
    requires { k < b.n }
    ensures { result ≡ carrier_m b.d b.n b.s k }
{
    let c = b.n / b.d;
    let col = k / b.d;
    let row = k % b.d;
    ColumnSpot::new(b, c, col, row).address()
}

// Writes M from a cell on, as far as there is room and cells; gives back how many. (The loop counts no index: a pass goes on to where its column ends,
// and i, col, row and the spot all go there at once.)
pub fn write(b: Carrier, cell: usize, out: &mut [u16]) -> usize
    requires { cell ≤ b.n }
    ensures { Ran (carrier_m b.d b.n b.s) b.n cell out.old out.new result }
{
    let c = b.n / b.d;
    let count = least(out.len(), b.n - cell);
    let mut col = cell / b.d;
    let mut row = cell % b.d;
    let mut at = ColumnSpot::new(b, c, col, row);
    let mut i = 0;
    while i < count {
        let stop = least(count, i + (b.d - row));
        let end = down(b, c, col, row, at, out, i, stop);
        at = end.next_column(b.s, col);
        col += 1;
        row = 0;
        i = stop;
    }
    count
}

// The walk for M from any cell: 9 past the last, else what is written, and a cell for each address.
pub fn walk(b: Carrier, cell: usize, out: &mut [u16]) -> Leaf
    ensures { LeafOf b.n (back b.n (carrier_rule b.d b.n b.s)) cell out.old out.new result }
{
    if b.n < cell {
        return Err(9);
    }
    let count = write(b, cell, out);
    Ok(Went {
        written: count,
        cells: count,
    })
}
