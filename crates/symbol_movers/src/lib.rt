// Symbols of `width` bytes moved by a lent table, either way. Nothing is tested here: whoever calls has filled the table and judged the lengths. The two
// loops stay two: which side is stepped and which is looked up is asked once a block, not once a symbol.
#![tactic(auto)]

ghost use Rattle.std.specs.Prelude.{◌≡◌, ◌+◌, ◌≤◌, length, drop};
ghost use Rattle.std.proofs.Math.Seq.{paste};
ghost use Rattle.laws.specs.declared.Way.TheVariants.{Interleaver, Deinterleaver};
ghost use Rattle.laws.specs.Loop.{by};
ghost use Rattle.symbol_movers.specs.Grouped.{Movable, symbols_by};

// Copies one symbol. Byte by byte: std's `copy_from_slice` is a call for each symbol, and of a symbol of 1 to 8 bytes it takes up to three times as long.
fn copy_symbol(width: usize, src: &[u8], from: usize, dst: &mut [u8], to: usize)
    requires width_in_bounds { from + width ≤ length src.now }
    requires width_in_bounds_2 { to + width ≤ length dst.old }
    ensures { dst.new ≡ paste dst.old to (drop from src.now) width }
{
    for i in 0..width {
        dst[to + i] = src[from + i];
    }
}

// Symbol t of dst is symbol table[t] of src: one product for each symbol, none for a byte.
pub fn gather_by(table: &[u16], n: usize, width: usize, src: &[u8], dst: &mut [u8])
    requires { Movable table.now n width src.now dst.old }
    ensures { dst.new
        ≡ symbols_by Interleaver (by table.now) n width src.now dst.old }
{
    let mut to = 0;
    for t in 0..n {
        let from = usize::from(table[t]) * width;
        copy_symbol(width, src, from, dst, to);
        to += width;
    }
}

// Symbol table[t] of dst is symbol t of src.
pub fn scatter_by(table: &[u16], n: usize, width: usize, src: &[u8], dst: &mut [u8])
    requires { Movable table.now n width src.now dst.old }
    ensures { dst.new
        ≡ symbols_by Deinterleaver (by table.now) n width src.now dst.old }
{
    let mut from = 0;
    for t in 0..n {
        let place = usize::from(table[t]) * width;
        copy_symbol(width, src, from, dst, place);
        from += width;
    }
}
