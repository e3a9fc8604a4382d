// Full rectangles, C = p + 1 and K = R·C: in row 0 the entries U of columns 0 and p change places. The walk goes by U of each cell's own column, and
// where it has come by the two cells, their addresses are written over behind it: no cell is asked whether it is one of them. A full rectangle has no
// padding, so a cell's address stands as far from the slice's front as the cell from the walk's first.
#![tactic(auto)]

ghost use Rattle.std.specs.Prelude.{◌≡◌, ◌<◌};
ghost use Rattle.wcdma_shape.specs.Post.{ShapeOf};
ghost use Rattle.wcdma.specs.Turbo.{full};
ghost use Rattle.laws.specs.Put.{put_at};
ghost use Rattle.wcdma_full.specs.Exchange.{exchange_in};

use wcdma_shape::Shape;

// Whether the rectangle is full. A walk asks before its loop, so that the loop need not keep p for it.
pub fn is_full(shape: Shape) -> bool
    requires { ShapeOf shape }
    ensures { result ≡ full shape.k }
{
    let most = shape.p + 1;
    let total = shape.r * shape.c;
    (shape.c == most) & (shape.k == total)
}

// Writes an address at the place of a cell, where the slice of a walk from `first` on has that place.
fn put(out: &mut [u16], first: usize, cell: usize, address: usize)
    requires { address < 65536 }
    ensures { out.new ≡ put_at first cell address out.old }
{
    if first <= cell {
        let place = cell - first;
        if place < out.len() {
            out[place] = address as u16;
        }
    }
}

// The exchange where the rectangle is full, in the slice that a walk from `first` on has filled. T(0) = R - 1, so row 0 holds the last C of the K
// addresses: U(p) = p is K - 1, at cell 0, and U(0) = 1 is K - p, or K + 1 - C, at the first cell of column p, R cells before the end.
pub fn exchange(shape: Shape, whole: bool, first: usize, out: &mut [u16])
    requires { ShapeOf shape × (whole ≡ full shape.k) }
    ensures { out.new ≡ exchange_in shape.k first out.old }
{
    if whole {
        let k = shape.k;
        let last = k - shape.r;
        let low = k + 1 - shape.c;
        put(out, first, 0, k - 1);
        put(out, first, last, low);
    }
}
