// From couples to symbols: the table of a block, made in place of the walk of its couples.
ghost use Rattle.std.specs.Prelude.{◌≡◌, ◌%◌, ◌<◌};
ghost use Rattle.couples_walk.specs.Spread.{OfCouples, Spread};

// What 2 leaves of x.
fn parity(x: usize) -> usize
    ensures { (result ≡ x % 2) × (result < 2) }
{
    x & 1
}

// Entry j, couple c, becomes entries 2·j and 2·j + 1: the symbols 2·c and 2·c + 1, or 2·c + 1 and 2·c where c is odd. From the back, so that nothing
// is read after it was written over.
pub fn spread(n: usize, table: &mut [u16])
    requires { OfCouples n table.old }
    ensures { Spread n table.old table.new }
{
    for j in (0..n).rev() {
        let c = table[j] as usize;
        let odd = parity(c);
        let even = 1 - odd;
        table[j + j] = (c + c + odd) as u16;
        table[j + j + 1] = (c + c + even) as u16;
    }
}
